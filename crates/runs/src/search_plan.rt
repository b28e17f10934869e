//! A search of widths that doubles and halves, and lesser widths after it.

ghost use Rattle.std.specs.Prelude.{◌≡◌, ℕ, ◌≤◌, true, false, List, IfErr, IfOk};
ghost use Rattle.rr_graph.specs.Fabric.{most_tracks};
ghost use Rattle.node_cost.specs.Options.{most_workers};
ghost use Rattle.width_search.specs.Reports.{IsVerifiedReport, IsWidthReport};
ghost use Rattle.width_search.specs.Widths.{next_width};
ghost use Rattle.run_inputs.specs.Faults.{ends_free, is_free};
ghost use Rattle.run_inputs.specs.Inputs.{ends_before};
ghost use Rattle.run_inputs.specs.Runs.{TakesNothing, writing_to};
ghost use Rattle.runs.specs.WidthRun.{PlacesLeast, SearchesWidths, TriesAfter};
ghost use Rattle.runs.specs.declared.plan.WidthPlan.TheVariants.{Search};
ghost use Rattle.runs.specs.kept.Negotiated.{Negotiated};
ghost use Rattle.runs.specs.kept.Told.{TellsTo};

use crate::bound::PAST_WIDTHS;
use crate::kept_trials::KeptTrials;
use crate::lesser_widths::verify;
use crate::side_files::SideFiles;
use crate::tried_widths::Widths;
use crate::untried::show_bound;
use crate::whole_sink::WholeSink;
use crate::width_report::write_report;
use net_workers::{BothGates, Gate};
use run_inputs::{AppFault, InputFile};
use std::alloc::AllocGlobal;
use std::sync::Wait;
use std::thread::Threads;
use text_output::ByteSink;
use width_search::{WidthReport, least_width};

/// Searches for the least width of a placed netlist.
fn search_widths<T: Threads + Wait + Sync + AllocGlobal, G: Gate + Sync, S: SideFiles + Sync>(
    widths: &Widths<'_, '_, '_, T, G, S>,
    start: u32,
) -> Result<WidthReport, AppFault>
    requires start { (1 ≤ start) × (start ≤ most_tracks) }
    requires workers { (1 ≤ widths.now.run.workers) × (widths.now.run.workers ≤ most_workers) }
    ensures report { IfOk result (IsWidthReport (Negotiated G.accepted widths.now)
        (next_width start)) }
    ensures free { IfErr result (λ e. is_free e ≡ true) }
{
    let Widths {
        placed,
        mode,
        ref run,
    } = *widths;
    let trials = KeptTrials::new(run.rt.alloc(), placed, run.files);
    let gates = BothGates {
        first: run.gate,
        second: &trials,
    };
    let report = least_width(
        run.rt,
        run.rt.alloc(),
        placed.arch(),
        placed.netlist(),
        placed.placement(),
        run.settings,
        start,
        mode,
        run.workers,
        &gates,
    )?;
    Ok(report)
}

/// Searches for the least width of a placed netlist, and tries up to `below` widths below it.
/// `past` becomes the least width from which on all widths up to that of the search were tried.
fn search_all<
    T: Threads + Wait + Sync + AllocGlobal,
    W: ByteSink,
    G: Gate + Sync,
    S: SideFiles + Sync,
>(
    widths: &Widths<'_, '_, '_, T, G, S>,
    start: u32,
    below: u32,
    words: &mut W,
    is_broken: &mut bool,
    past: &mut u32,
) -> Result<WidthReport, AppFault>
    requires start { (1 ≤ start) × (start ≤ most_tracks) }
    requires workers { (1 ≤ widths.now.run.workers) × (widths.now.run.workers ≤ most_workers) }
    ensures report { IfOk result (IsVerifiedReport (Negotiated G.accepted widths.now) start
        below) }
    ensures tries { IfOk result (λ r. (text : List ℕ)
        × TriesAfter (Negotiated G.accepted widths.now) start below r past.new text
        × TellsTo W.taken W.failed words.old words.new is_broken.old is_broken.new text) }
    ensures free { IfErr result (λ e. is_free e ≡ true) }
{
    let mut report = search_widths(widths, start)?;
    *past = verify(widths, &mut report, below, words, is_broken);
    Ok(report)
}

/// Where a search begins, up to how many widths below the least that it found are tried, and
/// whether the width below which there is no routing is wanted.
#[derive(Clone, Copy)]
pub(crate) struct SearchPlan {
    pub(crate) start: u32,
    pub(crate) below: u32,
    pub(crate) shows_bound: bool,
}

/// Searches for the least width of a placed netlist by a plan. Then prints the lines of these
/// trials, and writes the routing of the least width that was routed. At the end reports the width
/// below which there is no routing, if that is wanted.
pub(crate) fn search_placed<
    T: Threads + Wait + Sync + AllocGlobal,
    R: WholeSink,
    W: ByteSink,
    E: ByteSink,
    G: Gate + Sync,
    S: SideFiles + Sync,
>(
    widths: &Widths<'_, '_, '_, T, G, S>,
    route: &mut R,
    out: &mut W,
    words: &mut E,
    plan: SearchPlan,
) -> Result<WidthReport, AppFault>
    requires start { (1 ≤ plan.start) × (plan.start ≤ most_tracks) }
    requires workers { (1 ≤ widths.now.run.workers) × (widths.now.run.workers ≤ most_workers) }
    ensures runs { ends_free result ≡ false
        → SearchesWidths widths.now.run.settings.now widths.now.run.workers
        (G.accepted widths.now.run.gate.now) (Search plan.start plan.below plan.shows_bound)
        widths.now.mode (writing_to R.taken R.failed route.old route.new)
        (writing_to W.taken W.failed out.old out.new)
        (writing_to E.taken E.failed words.old words.new) widths.now.placed.now result }
    ensures route { ends_free result ≡ true
        → TakesNothing (writing_to R.taken R.failed route.old route.new) }
    ensures out { ends_free result ≡ true
        → TakesNothing (writing_to W.taken W.failed out.old out.new) }
    ensures late { ends_before InputFile.Route result ≡ false }
    ensures placed { IfOk result (λ report. PlacesLeast (R.is_placed route.new) report.least) }
{
    let SearchPlan {
        start,
        below,
        shows_bound,
    } = plan;
    let mut past = PAST_WIDTHS;
    let mut is_broken = false;
    let report = search_all(widths, start, below, words, &mut is_broken, &mut past)?;
    write_report(
        widths.run.rt.alloc(),
        widths.placed,
        &report,
        widths.mode,
        route,
        out,
    )?;
    show_bound(widths, &report, past, shows_bound, words, &mut is_broken);
    Ok(report)
}
