//! The `route` command over any sources and sinks.

ghost use Rattle.std.specs.Prelude.{◌≡◌, ◌≤◌, true, false, IfErr, IfOk};
ghost use Rattle.rr_graph.specs.Fabric.{most_tracks};
ghost use Rattle.node_cost.specs.Options.{most_workers};
ghost use Rattle.route_check.specs.Routed.{IsRouted};
ghost use Rattle.iteration.specs.Outcomes as negotiation;
ghost use Rattle.run_inputs.specs.Faults.{ends_free, is_free};
ghost use Rattle.run_inputs.specs.Runs.{MeetsDesign, PrintsText, TakesNothing, reading, writing_to};
ghost use Rattle.run_inputs.specs.Inputs.{design_in, ends_before};
ghost use Rattle.runs.specs.RouteRun.{PlacesOutcome, RoutesDesign, RunsRoute, WritesOutcome, WritesSuccess, outcome_text};
ghost use Rattle.runs.specs.kept.Routing.{RoutesProblem};

use crate::left_trees::LeftTrees;
use crate::outcome::put_outcome;
use crate::routing::write_routing;
use crate::run_options::RunOptions;
use crate::side_files::SideFiles;
use crate::whole_sink::WholeSink;
use iteration::{Outcome, negotiate};
use net_workers::{BothGates, Gate};
use node_cost::Settings;
use route_tree::Routing;
use rr_graph::Mode;
use run_inputs::{AppFault, Design, InputFile, NetlistText};
use std::alloc::AllocGlobal;
use std::sync::Wait;
use std::thread::Threads;
use text_output::{ByteSink, Printer};
use vpr_text::ByteSource;

/// Prints the line of an outcome, and returns the outcome.
fn print_outcome<W: ByteSink>(outcome: Outcome, out: &mut W) -> Result<Outcome, AppFault>
    ensures { PrintsText (writing_to W.taken W.failed out.old out.new)
        (outcome_text outcome) outcome result }
{
    let mut printer = Printer::new(out);
    put_outcome(&mut printer, &outcome);
    match printer.finish() {
        Ok(()) => Ok(outcome),
        Err(_) => Err(AppFault::Unwritten),
    }
}

/// Writes the routing of a success, and then prints the line of the outcome.
fn write_success<R: WholeSink, W: ByteSink>(
    design: &Design<'_>,
    routing: Routing,
    iterations: u32,
    route: &mut R,
    out: &mut W,
) -> Result<Outcome, AppFault>
    requires { IsRouted design.now.problem routing }
    ensures writes { WritesSuccess (writing_to R.taken R.failed route.old route.new)
        (writing_to W.taken W.failed out.old out.new)
        design.now routing iterations result }
    ensures placed { IfOk result (PlacesOutcome (R.is_placed route.new)) }
{
    let (netlist, placement) = (design.netlist(), design.placement());
    write_routing(netlist, placement, design.problem(), &routing, route)?;
    print_outcome(Outcome::Success(routing, iterations), out)
}

/// Writes the routing, if the outcome has one, and then prints the line of the outcome.
fn write_outcome<R: WholeSink, W: ByteSink>(
    design: &Design<'_>,
    outcome: Outcome,
    route: &mut R,
    out: &mut W,
) -> Result<Outcome, AppFault>
    requires { RoutesProblem design.now.problem outcome }
    ensures writes { WritesOutcome (writing_to R.taken R.failed route.old route.new)
        (writing_to W.taken W.failed out.old out.new) design.now outcome result }
    ensures placed { IfOk result (PlacesOutcome (R.is_placed route.new)) }
{
    match outcome {
        Outcome::Success(routing, iterations) => write_success(
            design, routing, iterations, route, out,
        ),
        Outcome::NotRouted {
            unrouted,
            overused,
            iterations,
        } => {
            let left = Outcome::NotRouted {
                unrouted,
                overused,
                iterations,
            };
            print_outcome(left, out)
        }
    }
}

/// Negotiates a routing of a design. What is left without success goes to the file of the run.
fn negotiate_leaving<T: Threads + Wait + Sync + AllocGlobal, G: Gate + Sync, S: SideFiles + Sync>(
    design: &Design<'_>,
    run: &RunOptions<'_, T, G, S>,
) -> Result<Outcome, AppFault>
    requires workers { (1 ≤ run.now.workers) × (run.now.workers ≤ most_workers) }
    ensures outcome { IfOk result
        (negotiation.IsOutcome design.now.problem run.now.settings.now) }
    ensures run { IfOk result
        (negotiation.EndsNegotiation design.now.problem run.now.settings.now run.now.workers
        (G.accepted run.now.gate.now)) }
    ensures free { IfErr result (λ e. is_free e ≡ true) }
{
    let RunOptions {
        rt,
        settings,
        workers,
        gate,
        files,
    } = *run;
    let left = LeftTrees::new(rt, rt.alloc(), design, files);
    let gates = BothGates {
        first: gate,
        second: &left,
    };
    let problem = design.problem().copy(rt.alloc())?;
    let outcome = negotiate(rt, rt.alloc(), problem, settings, workers, &gates)?;
    Ok(outcome)
}

/// Negotiates a routing of a design, and writes the outcome.
fn route_design<
    T: Threads + Wait + Sync + AllocGlobal,
    R: WholeSink,
    W: ByteSink,
    G: Gate + Sync,
    S: SideFiles + Sync,
>(
    design: &Design<'_>,
    route: &mut R,
    out: &mut W,
    run: &RunOptions<'_, T, G, S>,
) -> Result<Outcome, AppFault>
    requires workers { (1 ≤ run.now.workers) × (run.now.workers ≤ most_workers) }
    ensures runs { ends_free result ≡ false → RoutesDesign run.now.settings.now run.now.workers
        (G.accepted run.now.gate.now) (writing_to R.taken R.failed route.old route.new)
        (writing_to W.taken W.failed out.old out.new) design.now result }
    ensures route { ends_free result ≡ true
        → TakesNothing (writing_to R.taken R.failed route.old route.new) }
    ensures out { ends_free result ≡ true
        → TakesNothing (writing_to W.taken W.failed out.old out.new) }
    ensures late { ends_before InputFile.Route result ≡ false }
    ensures placed { IfOk result (PlacesOutcome (R.is_placed route.new)) }
{
    let outcome = negotiate_leaving(design, run)?;
    write_outcome(design, outcome, route, out)
}

/// Reads an architecture, a netlist and its placement in this order, each only if those before it
/// have no fault. Negotiates a routing on the device of the placement's size. Writes the routing to
/// `route`, if one was found, and then prints the line of the outcome. If none was found, the trees
/// that the last iteration left are written to the file of `rest`, and its words report the nets
/// without a tree. The call waits for the workers.
///
/// # Errors
/// `NoThread`, `Memory` and `Astray` as `negotiate` returns them, and `Memory` wherever it ran out:
/// these are unspecified, and neither sink took anything. Any other fault comes exactly when it is
/// the first. The faults of the files come in reading order, and then neither sink took anything.
/// After them comes `Unwritten`, if writing failed: to `route`, which then took a front of the
/// routing's text while `out` took nothing; or to `out`, which took a front of the line.
pub fn route_run<
    N: ByteSource,
    A: ByteSource,
    P: ByteSource,
    R: WholeSink,
    W: ByteSink,
    G: Gate + Sync,
>(
    rt: &(impl Threads + Wait + Sync + AllocGlobal),
    net: &mut N,
    arch: &mut A,
    place: &mut P,
    route: &mut R,
    out: &mut W,
    width: u32,
    mode: Mode,
    settings: &Settings,
    workers: u32,
    gate: &G,
    rest: &(impl SideFiles + Sync),
) -> Result<Outcome, AppFault>
    requires tracks { (1 ≤ width) × (width ≤ most_tracks) }
    requires workers { (1 ≤ workers) × (workers ≤ most_workers) }
    // The files decide. If they give a design, its problem is negotiated, and a success is a
    // routing of it, whose text is written.
    ensures runs { ends_free result ≡ false
        → MeetsDesign (reading (A.remaining arch.old) (A.failed arch.new))
        (reading (N.remaining net.old) (N.failed net.new))
        (reading (P.remaining place.old) (P.failed place.new))
        (λ files. RunsRoute settings.now workers (G.accepted gate.now)
        (writing_to R.taken R.failed route.old route.new)
        (writing_to W.taken W.failed out.old out.new)
        (design_in width mode files) result) }
    // Nothing is written if memory runs out, a thread can't be started or a worker goes astray.
    ensures route { ends_free result ≡ true
        → TakesNothing (writing_to R.taken R.failed route.old route.new) }
    ensures out { ends_free result ≡ true
        → TakesNothing (writing_to W.taken W.failed out.old out.new) }
    // The routing of a success is in its place.
    ensures placed { IfOk result (PlacesOutcome (R.is_placed route.new)) }
    // A file is not read if the run ended at one before it.
    ensures net { ends_before InputFile.Net result ≡ true → net.new ≡ net.old }
    ensures place { ends_before InputFile.Place result ≡ true → place.new ≡ place.old }
{
    let text = NetlistText::read(rt.alloc(), arch, net)?;
    let design = Design::read(rt.alloc(), &text, place, width, mode)?;
    let run = RunOptions {
        rt,
        settings,
        workers,
        gate,
        files: rest,
    };
    route_design(&design, route, out, &run)
}
