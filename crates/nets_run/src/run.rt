//! The `nets` command over any sources and sink.

ghost use Rattle.std.specs.Prelude.{◌≡◌, ◌≢◌, ◌<◌, ◌≤◌, true, false, length, Err};
ghost use Rattle.rr_graph.specs.Fabric.{most_tracks};
ghost use Rattle.run_inputs.specs.Inputs.{design_in, ends_before};
ghost use Rattle.run_inputs.specs.Runs.{MeetsDesign, PrintsText, TakesNothing, reading, writing_to};
ghost use Rattle.nets_run.specs.Nets.{nets_text};
ghost use Rattle.nets_run.specs.NetsRun.{PrintsLines, RunsNets};

use crate::lines::put_nets;
use net_file::Netlist;
use rr_graph::{Mode, Problem};
use run_inputs::{AppFault, Design, InputFile, NetlistText};
use std::alloc::Global;
use text_output::{ByteSink, Printer};
use vpr_text::ByteSource;

/// The device on which nets are placed: the tracks of each channel, and the mode.
#[derive(Clone, Copy, Debug)]
pub struct NetsOptions {
    pub width: u32,
    pub mode: Mode,
}

/// Prints the lines of the nets of a problem. It has at least one.
fn print_lines<W: ByteSink>(
    netlist: &Netlist<'_>,
    problem: &Problem,
    out: &mut W,
) -> Result<(), AppFault>
    requires { 0 < length problem.now.nets }
    ensures { PrintsText (writing_to W.taken W.failed out.old out.new)
        (nets_text netlist.now problem.now) tt result }
{
    let mut printer = Printer::new(out);
    put_nets(&mut printer, netlist, problem);
    match printer.finish() {
        Ok(()) => Ok(()),
        Err(_) => Err(AppFault::Unwritten),
    }
}

/// Prints the lines of the nets of a design, if it has any.
fn print_nets<W: ByteSink>(design: &Design<'_>, out: &mut W) -> Result<(), AppFault>
    ensures prints { PrintsLines (writing_to W.taken W.failed out.old out.new)
        (nets_text design.now.netlist design.now.problem) result }
    ensures memory { result ≢ Err AppFault.Memory }
    ensures late { ends_before InputFile.Route result ≡ false }
{
    let netlist = design.netlist();
    let problem = design.problem();
    if problem.nets() == 0 {
        return Ok(());
    }
    print_lines(netlist, problem, out)
}

/// Reads an architecture, a netlist and its placement in this order, each only if those before it
/// have no fault. Prints a line for each net that is to be routed, with the numbers of its source
/// and of its sinks on the device of the placement's array. Prints nothing if there is no such net.
///
/// # Errors
/// Each fault exactly when it comes first; only `Memory` is unspecified. The faults of the files
/// come in reading order, and then nothing was printed. After them comes `Unwritten`, if the sink
/// failed; it received a front of the lines.
pub fn nets_run<N: ByteSource, A: ByteSource, P: ByteSource, W: ByteSink>(
    alloc: Global,
    net: &mut N,
    arch: &mut A,
    place: &mut P,
    out: &mut W,
    options: NetsOptions,
) -> Result<(), AppFault>
    requires tracks { (1 ≤ options.width) × (options.width ≤ most_tracks) }
    // The files decide. If they give a placed design, the lines of its nets are printed.
    ensures runs { result ≢ Err AppFault.Memory
        → MeetsDesign (reading (A.remaining arch.old) (A.failed arch.new))
        (reading (N.remaining net.old) (N.failed net.new))
        (reading (P.remaining place.old) (P.failed place.new))
        (λ files. RunsNets (writing_to W.taken W.failed out.old out.new)
        (design_in options.width options.mode files) result) }
    // Nothing is written if memory runs out.
    ensures memory { result ≡ Err AppFault.Memory
        → TakesNothing (writing_to W.taken W.failed out.old out.new) }
    // A file is not read if the run ended at one before it.
    ensures net { ends_before InputFile.Net result ≡ true → net.new ≡ net.old }
    ensures place { ends_before InputFile.Place result ≡ true → place.new ≡ place.old }
{
    let text = NetlistText::read(alloc, arch, net)?;
    let design = Design::read(alloc, &text, place, options.width, options.mode)?;
    print_nets(&design, out)
}
