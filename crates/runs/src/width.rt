//! The `width` command over any sources and sinks.

ghost use Rattle.std.specs.Prelude.{◌≡◌, ◌≤◌, true, false, IfOk};
ghost use Rattle.rr_graph.specs.Fabric.{most_tracks};
ghost use Rattle.node_cost.specs.Options.{most_workers};
ghost use Rattle.run_inputs.specs.Faults.{ends_free};
ghost use Rattle.run_inputs.specs.Inputs.{ends_before, placed_in};
ghost use Rattle.run_inputs.specs.Runs.{MeetsDesign, TakesNothing, reading, writing_to};
ghost use Rattle.runs.specs.WidthRun.{PlacesLeast, RunsWidth, SearchesWidths, start_of};

use crate::plan::WidthPlan;
use crate::run_options::RunOptions;
use crate::search_plan::{SearchPlan, search_placed};
use crate::side_files::SideFiles;
use crate::tried_widths::Widths;
use crate::upward_plan::upward_placed;
use crate::whole_sink::WholeSink;
use net_workers::Gate;
use node_cost::Settings;
use rr_graph::Mode;
use run_inputs::{AppFault, InputFile, NetlistText, PlacedNetlist};
use std::alloc::AllocGlobal;
use std::sync::Wait;
use std::thread::Threads;
use text_output::ByteSink;
use vpr_text::ByteSource;
use width_search::WidthReport;

/// Tries the widths of the plan for a placed netlist, prints a line for each trial, and writes the
/// routing of the least width.
fn width_placed<
    T: Threads + Wait + Sync + AllocGlobal,
    R: WholeSink,
    W: ByteSink,
    E: ByteSink,
    G: Gate + Sync,
    S: SideFiles + Sync,
>(
    widths: &Widths<'_, '_, '_, T, G, S>,
    route: &mut R,
    out: &mut W,
    words: &mut E,
    plan: WidthPlan,
) -> Result<WidthReport, AppFault>
    requires plan { (1 ≤ start_of plan) × (start_of plan ≤ most_tracks) }
    requires workers { (1 ≤ widths.now.run.workers) × (widths.now.run.workers ≤ most_workers) }
    ensures runs { ends_free result ≡ false
        → SearchesWidths widths.now.run.settings.now widths.now.run.workers
        (G.accepted widths.now.run.gate.now) plan widths.now.mode
        (writing_to R.taken R.failed route.old route.new)
        (writing_to W.taken W.failed out.old out.new)
        (writing_to E.taken E.failed words.old words.new) widths.now.placed.now result }
    ensures route { ends_free result ≡ true
        → TakesNothing (writing_to R.taken R.failed route.old route.new) }
    ensures out { ends_free result ≡ true
        → TakesNothing (writing_to W.taken W.failed out.old out.new) }
    ensures late { ends_before InputFile.Route result ≡ false }
    ensures placed { IfOk result (λ report. PlacesLeast (R.is_placed route.new) report.least) }
{
    match plan {
        WidthPlan::Search {
            start,
            below,
            shows_bound,
        } => {
            let plan = SearchPlan {
                start,
                below,
                shows_bound,
            };
            search_placed(widths, route, out, words, plan)
        }
        WidthPlan::Upward { start } => upward_placed(widths, route, out, words, start),
    }
}

/// Reads an architecture, a netlist and its placement in this order, each only if those before it
/// have no fault. Tries channel widths by the plan, on devices of the placement's size. Prints a
/// line for each trial, and one for the least width that was routed. Then writes the routing of
/// that width to `route`, if there is one. The routing of each trial is written to its file of
/// `kept` as soon as it is found. A third sink takes words on what else is known: the outcome of
/// each lesser width, as soon as it was tried, and below which width there is no routing. If it
/// fails, the run goes on, and it takes nothing more. The call waits for the workers.
///
/// # Errors
/// `NoThread`, `Memory` and `Astray` as `least_width` returns them, and `Memory` if it ran out
/// before anything was written: these are unspecified, and neither `route` nor `out` took anything.
/// A fault while lesser widths are tried ends only that, and words report it. Any other fault comes
/// exactly when it is the first. The faults of the files come in reading order, and then no sink
/// took anything. After them comes `Unwritten`, if writing failed: to `out`, which then took a
/// front of the lines while `route` took nothing; or to `route`, which took a front of the
/// routing's text.
pub fn width_run<
    N: ByteSource,
    A: ByteSource,
    P: ByteSource,
    R: WholeSink,
    W: ByteSink,
    E: ByteSink,
    G: Gate + Sync,
>(
    rt: &(impl Threads + Wait + Sync + AllocGlobal),
    net: &mut N,
    arch: &mut A,
    place: &mut P,
    route: &mut R,
    out: &mut W,
    words: &mut E,
    plan: WidthPlan,
    mode: Mode,
    settings: &Settings,
    workers: u32,
    gate: &G,
    kept: &(impl SideFiles + Sync),
) -> Result<WidthReport, AppFault>
    requires plan { (1 ≤ start_of plan) × (start_of plan ≤ most_tracks) }
    requires workers { (1 ≤ workers) × (workers ≤ most_workers) }
    // The files decide. If they give a placed netlist, the widths of the plan are tried for it,
    // their lines are printed, and the text of a routing of it at the least width is written. The
    // words have a line for each lesser width that was tried.
    ensures runs { ends_free result ≡ false
        → MeetsDesign (reading (A.remaining arch.old) (A.failed arch.new))
        (reading (N.remaining net.old) (N.failed net.new))
        (reading (P.remaining place.old) (P.failed place.new))
        (λ files. RunsWidth settings.now workers (G.accepted gate.now) plan mode
        (writing_to R.taken R.failed route.old route.new)
        (writing_to W.taken W.failed out.old out.new)
        (writing_to E.taken E.failed words.old words.new)
        (placed_in files) result) }
    // Nothing is written if memory runs out, a thread can't be started or a worker goes astray.
    ensures route { ends_free result ≡ true
        → TakesNothing (writing_to R.taken R.failed route.old route.new) }
    ensures out { ends_free result ≡ true
        → TakesNothing (writing_to W.taken W.failed out.old out.new) }
    // The routing of the least width is in its place.
    ensures placed { IfOk result (λ report. PlacesLeast (R.is_placed route.new) report.least) }
    // A file is not read if the run ended at one before it.
    ensures net { ends_before InputFile.Net result ≡ true → net.new ≡ net.old }
    ensures place { ends_before InputFile.Place result ≡ true → place.new ≡ place.old }
{
    let text = NetlistText::read(rt.alloc(), arch, net)?;
    let placed = PlacedNetlist::read(rt.alloc(), &text, place)?;
    let run = RunOptions {
        rt,
        settings,
        workers,
        gate,
        files: kept,
    };
    let widths = Widths {
        placed: &placed,
        mode,
        run,
    };
    width_placed(&widths, route, out, words, plan)
}
