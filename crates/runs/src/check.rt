//! The `check` command over any sources and sink.

ghost use Rattle.std.specs.Prelude.{◌≡◌, ◌≢◌, ◌≤◌, true, false, length, Err};
ghost use Rattle.rr_graph.specs.Fabric.{most_tracks};
ghost use Rattle.run_inputs.specs.Runs.{Meets, MeetsDesign, PrintsText, TakesNothing, reading, writing_to};
ghost use Rattle.run_inputs.specs.Inputs.{ends_before};
ghost use Rattle.runs.specs.CheckRun.{PrintsVerdict, RunsCheck, judged_in, judged_on};
ghost use Rattle.runs.specs.Verdict.{verdict_text};

use crate::verdict::put_verdict;
use net_file::Netlist;
use route_check::{RouteFault, check_routing};
use route_tree::Routing;
use rr_graph::{Mode, Problem};
use run_inputs::{AppFault, Design, InputFile, NetlistText, read_routing};
use std::alloc::AllocGlobal;
use std::thread::Threads;
use text_output::{ByteSink, Printer};
use vpr_text::ByteSource;

/// Prints the line of a verdict, and returns the verdict.
fn print_verdict<W: ByteSink>(
    netlist: &Netlist<'_>,
    problem: &Problem,
    verdict: Option<RouteFault>,
    out: &mut W,
) -> Result<Option<RouteFault>, AppFault>
    ensures { PrintsText (writing_to W.taken W.failed out.old out.new)
        (verdict_text netlist.now problem.now verdict) verdict result }
{
    let mut printer = Printer::new(out);
    put_verdict(&mut printer, netlist, problem, verdict);
    match printer.finish() {
        Ok(()) => Ok(verdict),
        Err(_) => Err(AppFault::Unwritten),
    }
}

/// Judges a routing of a design, and prints the verdict.
pub fn judge<W: ByteSink>(
    rt: &(impl Threads + Sync + AllocGlobal),
    design: &Design<'_>,
    routing: &Routing,
    out: &mut W,
) -> Result<Option<RouteFault>, AppFault>
    requires { length routing.now ≡ length design.now.problem.nets }
    ensures judges { result ≢ Err AppFault.Memory
        → PrintsVerdict (writing_to W.taken W.failed out.old out.new)
        (record { design = design.now; routing = routing.now }) result }
    ensures memory { result ≡ Err AppFault.Memory
        → TakesNothing (writing_to W.taken W.failed out.old out.new) }
    ensures late { ends_before InputFile.Route result ≡ false }
{
    let netlist = design.netlist();
    let problem = design.problem();
    let verdict = match check_routing(rt, rt.alloc(), problem, routing) {
        Ok(verdict) => verdict,
        Err(_) => return Err(AppFault::Memory),
    };
    print_verdict(netlist, problem, verdict, out)
}

/// Reads a routing of a design, judges it, and prints the verdict.
fn check_design<R: ByteSource, W: ByteSink>(
    rt: &(impl Threads + Sync + AllocGlobal),
    design: &Design<'_>,
    route: &mut R,
    out: &mut W,
) -> Result<Option<RouteFault>, AppFault>
    ensures runs { result ≢ Err AppFault.Memory
        → Meets (reading (R.remaining route.old) (R.failed route.new))
        (λ r. RunsCheck (writing_to W.taken W.failed out.old out.new)
        (judged_on design.now r) result) }
    ensures memory { result ≡ Err AppFault.Memory
        → TakesNothing (writing_to W.taken W.failed out.old out.new) }
    ensures late { ends_before InputFile.Route result ≡ false }
{
    let netlist = design.netlist();
    let problem = design.problem();
    let routing = read_routing(rt.alloc(), route, netlist, problem)?;
    judge(rt, design, &routing, out)
}

/// Reads an architecture, a netlist, its placement and its routing in this order, each only if
/// those before it have no fault. Judges the routing on the device of the placement's size, and
/// prints the verdict.
///
/// # Errors
/// Each fault exactly when it comes first; only `Memory` is unspecified. The faults of the files
/// come in reading order, and then nothing was printed. After them comes `Unwritten`, if the sink
/// failed; it received a front of the verdict's line.
pub fn check_run<N: ByteSource, A: ByteSource, P: ByteSource, R: ByteSource, W: ByteSink>(
    rt: &(impl Threads + Sync + AllocGlobal),
    net: &mut N,
    arch: &mut A,
    place: &mut P,
    route: &mut R,
    out: &mut W,
    width: u32,
    mode: Mode,
) -> Result<Option<RouteFault>, AppFault>
    requires tracks { (1 ≤ width) × (width ≤ most_tracks) }
    // The files decide. If they give a routing of a problem, the line of the verdict on it is
    // printed.
    ensures runs { result ≢ Err AppFault.Memory
        → MeetsDesign (reading (A.remaining arch.old) (A.failed arch.new))
        (reading (N.remaining net.old) (N.failed net.new))
        (reading (P.remaining place.old) (P.failed place.new))
        (λ files. Meets (reading (R.remaining route.old) (R.failed route.new))
        (λ r. RunsCheck (writing_to W.taken W.failed out.old out.new)
        (judged_in width mode files r) result)) }
    // Nothing is written if memory runs out.
    ensures memory { result ≡ Err AppFault.Memory
        → TakesNothing (writing_to W.taken W.failed out.old out.new) }
    // A file is not read if the run ended at one before it.
    ensures net { ends_before InputFile.Net result ≡ true → net.new ≡ net.old }
    ensures place { ends_before InputFile.Place result ≡ true → place.new ≡ place.old }
    ensures route { ends_before InputFile.Route result ≡ true → route.new ≡ route.old }
{
    let text = NetlistText::read(rt.alloc(), arch, net)?;
    let design = Design::read(rt.alloc(), &text, place, width, mode)?;
    check_design(rt, &design, route, out)
}
