//! The widths of a placed netlist upward, from its bound on.

ghost use Rattle.std.specs.Prelude.{◌≡◌, ◌≤◌, true, false, IfErr, IfOk};
ghost use Rattle.rr_graph.specs.Fabric.{most_tracks};
ghost use Rattle.node_cost.specs.Options.{most_workers};
ghost use Rattle.width_search.specs.Widths.{GoesUpward};
ghost use Rattle.bound_run.specs.Bounds.{IsTrueOf};
ghost use Rattle.run_inputs.specs.Faults.{ends_free, is_free};
ghost use Rattle.run_inputs.specs.Inputs.{ends_before};
ghost use Rattle.run_inputs.specs.Runs.{TakesNothing, writing_to};
ghost use Rattle.runs.specs.Known.{first_width};
ghost use Rattle.runs.specs.WidthRun.{IsUpwardReport, PlacesLeast, SearchesWidths};
ghost use Rattle.runs.specs.declared.plan.WidthPlan.TheVariants.{Upward};
ghost use Rattle.runs.specs.kept.Negotiated.{Negotiated};

use crate::bound::{bound_of, first_possible, first_width, tell_bound};
use crate::kept_trials::KeptTrials;
use crate::known::tell_known;
use crate::side_files::SideFiles;
use crate::tried_widths::Widths;
use crate::whole_sink::WholeSink;
use crate::width_report::write_report;
use net_workers::{BothGates, Gate};
use run_inputs::{AppFault, InputFile};
use std::alloc::AllocGlobal;
use std::sync::Wait;
use std::thread::Threads;
use text_output::ByteSink;
use width_bound::CutFigures;
use width_search::{Negotiating, PlacedDesign, WidthReport, upward_width};

/// Tries the widths of a placed netlist upward, from the start on or from the least width that
/// these figures don't rule out, whichever is greater.
fn try_upward<T: Threads + Wait + Sync + AllocGlobal, G: Gate + Sync, S: SideFiles + Sync>(
    widths: &Widths<'_, '_, '_, T, G, S>,
    start: u32,
    figures: CutFigures,
) -> Result<WidthReport, AppFault>
    requires start { (1 ≤ start) × (start ≤ most_tracks) }
    requires workers { (1 ≤ widths.now.run.workers) × (widths.now.run.workers ≤ most_workers) }
    requires sound { IsTrueOf widths.now.placed.now figures }
    ensures report { IfOk result (IsUpwardReport (Negotiated G.accepted widths.now)
        widths.now.placed.now start) }
    ensures tried { IfOk result (λ r. GoesUpward (first_width start figures) r.trials) }
    ensures free { IfErr result (λ e. is_free e ≡ true) }
{
    let Widths {
        placed,
        mode,
        ref run,
    } = *widths;
    let trials = KeptTrials::new(run.rt.alloc(), placed, run.files);
    let gates = BothGates {
        first: run.gate,
        second: &trials,
    };
    let design = PlacedDesign {
        arch: placed.arch(),
        netlist: placed.netlist(),
        placement: placed.placement(),
        mode,
    };
    let how = Negotiating {
        settings: run.settings,
        workers: run.workers,
        gate: &gates,
    };
    let first = first_width(start, figures);
    let report = upward_width(run.rt, run.rt.alloc(), &design, &how, first)?;
    Ok(report)
}

/// Finds the bound of a placed netlist, and tries each width from there on, or from the start if
/// that is greater, until one is routed. Then prints the lines of the trials, and writes the
/// routing of the last one. Words report the bound before, and what is known of the least width
/// afterwards.
pub(crate) fn upward_placed<
    T: Threads + Wait + Sync + AllocGlobal,
    R: WholeSink,
    W: ByteSink,
    E: ByteSink,
    G: Gate + Sync,
    S: SideFiles + Sync,
>(
    widths: &Widths<'_, '_, '_, T, G, S>,
    route: &mut R,
    out: &mut W,
    words: &mut E,
    start: u32,
) -> Result<WidthReport, AppFault>
    requires start { (1 ≤ start) × (start ≤ most_tracks) }
    requires workers { (1 ≤ widths.now.run.workers) × (widths.now.run.workers ≤ most_workers) }
    ensures runs { ends_free result ≡ false
        → SearchesWidths widths.now.run.settings.now widths.now.run.workers
        (G.accepted widths.now.run.gate.now) (Upward start) widths.now.mode
        (writing_to R.taken R.failed route.old route.new)
        (writing_to W.taken W.failed out.old out.new)
        (writing_to E.taken E.failed words.old words.new) widths.now.placed.now result }
    ensures route { ends_free result ≡ true
        → TakesNothing (writing_to R.taken R.failed route.old route.new) }
    ensures out { ends_free result ≡ true
        → TakesNothing (writing_to W.taken W.failed out.old out.new) }
    ensures late { ends_before InputFile.Route result ≡ false }
    ensures placed { IfOk result (λ report. PlacesLeast (R.is_placed route.new) report.least) }
{
    let figures = bound_of(widths.run.rt.alloc(), widths.placed)?;
    let mut is_broken = false;
    tell_bound(words, &mut is_broken, figures);
    let report = try_upward(widths, start, figures)?;
    write_report(
        widths.run.rt.alloc(),
        widths.placed,
        &report,
        widths.mode,
        route,
        out,
    )?;
    let bound = first_possible(figures);
    tell_known(words, &mut is_broken, start, bound, &report);
    Ok(report)
}
