//! The `check` command that explains its verdict, over any sources and sinks.

ghost use Rattle.std.specs.Prelude.{◌≡◌, ◌≢◌, ◌≤◌, true, false, length, Err};
ghost use Rattle.rr_graph.specs.Fabric.{most_tracks};
ghost use Rattle.run_inputs.specs.Inputs.{ends_before};
ghost use Rattle.run_inputs.specs.Runs.{Meets, MeetsDesign, TakesNothing, reading, writing_to};
ghost use Rattle.report_run.specs.ReportRun.{reported_in, reported_of, reported_on, reported_with};
ghost use Rattle.route_explain.specs.ExplainRun.{IsTold, PrintsBoth, RunsExplain};

use crate::explained::{Explained, told_memory};
use crate::explanation::explain;
use crate::read_routing::ReadRouting;
use route_tree::Routing;
use rr_graph::Mode;
use run_inputs::{AppFault, Design, InputFile, NetlistText, parse_routing, read_input};
use runs::judge;
use std::alloc::AllocGlobal;
use std::thread::Threads;
use vpr_text::{ByteSink, ByteSource, Lines, lines};

/// The file of a routing: its name, and the bytes that were read from it.
#[derive(Clone, Copy)]
struct RoutingFile<'a> {
    path: &'a [u8],
    bytes: &'a [u8],
}

/// Explains a routing of a design, whose file has these lines.
fn explain_lines<W: ByteSink>(
    rt: &(impl Threads + Sync + AllocGlobal),
    path: &[u8],
    design: &Design<'_>,
    lines: &Lines<'_>,
    routing: &Routing,
    words: &mut W,
) -> Result<(), AppFault>
    requires { length routing.now ≡ length design.now.problem.nets }
    ensures { IsTold (writing_to W.taken W.failed words.old words.new) path.now
        (record { design = design.now; lines = lines.now; routing = routing.now }) result }
{
    let netlist = design.netlist();
    let problem = design.problem();
    let file = ReadRouting {
        path,
        netlist,
        problem,
        lines,
        routing,
    };
    explain(rt, &file, words)
}

/// Explains a routing of a design, which was read from these bytes. Without memory, prints that.
fn explain_to<W: ByteSink>(
    rt: &(impl Threads + Sync + AllocGlobal),
    file: &RoutingFile<'_>,
    design: &Design<'_>,
    routing: &Routing,
    words: &mut W,
) -> Result<(), AppFault>
    requires { length routing.now ≡ length design.now.problem.nets }
    ensures { IsTold (writing_to W.taken W.failed words.old words.new)
        file.now.path.now (reported_with design.now file.now.bytes.now routing.now) result }
{
    match lines(rt.alloc(), file.bytes) {
        Ok(lines) => explain_lines(rt, file.path, design, &lines, routing, words),
        Err(_) => told_memory(words),
    }
}

/// Judges a routing of a design, prints the verdict, and explains it.
fn judge_and_explain<W: ByteSink, X: ByteSink>(
    rt: &(impl Threads + Sync + AllocGlobal),
    file: &RoutingFile<'_>,
    design: &Design<'_>,
    routing: &Routing,
    out: &mut W,
    words: &mut X,
) -> Result<Explained, AppFault>
    requires { length routing.now ≡ length design.now.problem.nets }
    ensures judges { result ≢ Err AppFault.Memory
        → PrintsBoth (writing_to W.taken W.failed out.old out.new)
        (writing_to X.taken X.failed words.old words.new) file.now.path.now
        (reported_with design.now file.now.bytes.now routing.now) result }
    ensures memory { result ≡ Err AppFault.Memory
        → TakesNothing (writing_to W.taken W.failed out.old out.new) }
    ensures untold { result ≡ Err AppFault.Memory
        → TakesNothing (writing_to X.taken X.failed words.old words.new) }
    ensures late { ends_before InputFile.Route result ≡ false }
{
    let verdict = judge(rt, design, routing, out)?;
    let told = explain_to(rt, file, design, routing, words);
    Ok(Explained { verdict, told })
}

/// Reads bytes as a routing of a design, judges it, prints the verdict, and explains it.
fn explain_bytes<W: ByteSink, X: ByteSink>(
    rt: &(impl Threads + Sync + AllocGlobal),
    path: &[u8],
    design: &Design<'_>,
    bytes: &[u8],
    out: &mut W,
    words: &mut X,
) -> Result<Explained, AppFault>
    ensures runs { result ≢ Err AppFault.Memory
        → RunsExplain (writing_to W.taken W.failed out.old out.new)
        (writing_to X.taken X.failed words.old words.new) path.now
        (reported_of design.now bytes.now) result }
    ensures memory { result ≡ Err AppFault.Memory
        → TakesNothing (writing_to W.taken W.failed out.old out.new) }
    ensures untold { result ≡ Err AppFault.Memory
        → TakesNothing (writing_to X.taken X.failed words.old words.new) }
    ensures late { ends_before InputFile.Route result ≡ false }
{
    let netlist = design.netlist();
    let problem = design.problem();
    let routing = parse_routing(rt.alloc(), bytes, netlist, problem)?;
    let file = RoutingFile { path, bytes };
    judge_and_explain(rt, &file, design, &routing, out, words)
}

/// Reads a routing of a design, judges it, prints the verdict, and explains it.
fn explain_design<R: ByteSource, W: ByteSink, X: ByteSink>(
    rt: &(impl Threads + Sync + AllocGlobal),
    path: &[u8],
    design: &Design<'_>,
    route: &mut R,
    out: &mut W,
    words: &mut X,
) -> Result<Explained, AppFault>
    ensures runs { result ≢ Err AppFault.Memory
        → Meets (reading (R.remaining route.old) (R.failed route.new))
        (λ r. RunsExplain (writing_to W.taken W.failed out.old out.new)
        (writing_to X.taken X.failed words.old words.new) path.now
        (reported_on design.now r) result) }
    ensures memory { result ≡ Err AppFault.Memory
        → TakesNothing (writing_to W.taken W.failed out.old out.new) }
    ensures untold { result ≡ Err AppFault.Memory
        → TakesNothing (writing_to X.taken X.failed words.old words.new) }
    ensures late { ends_before InputFile.Route result ≡ false }
{
    let bytes = read_input(rt.alloc(), route, InputFile::Route)?;
    explain_bytes(rt, path, design, &bytes, out, words)
}

/// Reads the files of a design and its routing, and prints the verdict on the routing as
/// `check_run` does. Then explains the verdict to a second sink, where the routing's file has the
/// name `path`. Returns the verdict and the outcome of the explanation: that it couldn't be printed
/// doesn't change the verdict.
///
/// # Errors
/// Each fault exactly when it comes first; only `Memory` is unspecified. The faults of the files
/// come in reading order, and then nothing was printed. After them comes `Unwritten`, if the first
/// sink failed; it received a front of the verdict's line, and nothing was explained.
pub fn explain_run<
    N: ByteSource,
    A: ByteSource,
    P: ByteSource,
    R: ByteSource,
    W: ByteSink,
    X: ByteSink,
>(
    rt: &(impl Threads + Sync + AllocGlobal),
    path: &[u8],
    net: &mut N,
    arch: &mut A,
    place: &mut P,
    route: &mut R,
    out: &mut W,
    words: &mut X,
    width: u32,
    mode: Mode,
) -> Result<Explained, AppFault>
    requires tracks { (1 ≤ width) × (width ≤ most_tracks) }
    // The files decide. If they give a routing of a problem, the line of the verdict on it is
    // printed, and then what is wrong with it, or that memory ran out.
    ensures runs { result ≢ Err AppFault.Memory
        → MeetsDesign (reading (A.remaining arch.old) (A.failed arch.new))
        (reading (N.remaining net.old) (N.failed net.new))
        (reading (P.remaining place.old) (P.failed place.new))
        (λ files. Meets (reading (R.remaining route.old) (R.failed route.new))
        (λ r. RunsExplain (writing_to W.taken W.failed out.old out.new)
        (writing_to X.taken X.failed words.old words.new) path.now
        (reported_in width mode files r) result)) }
    // Nothing is written if memory runs out before the verdict.
    ensures memory { result ≡ Err AppFault.Memory
        → TakesNothing (writing_to W.taken W.failed out.old out.new) }
    ensures untold { result ≡ Err AppFault.Memory
        → TakesNothing (writing_to X.taken X.failed words.old words.new) }
    // A file is not read if the run ended at one before it.
    ensures net { ends_before InputFile.Net result ≡ true → net.new ≡ net.old }
    ensures place { ends_before InputFile.Place result ≡ true → place.new ≡ place.old }
    ensures route { ends_before InputFile.Route result ≡ true → route.new ≡ route.old }
{
    let text = NetlistText::read(rt.alloc(), arch, net)?;
    let design = Design::read(rt.alloc(), &text, place, width, mode)?;
    explain_design(rt, path, &design, route, out, words)
}
