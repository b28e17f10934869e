//! The explanation of what is wrong with a routing.

ghost use Rattle.std.specs.Prelude.{◌≡◌, ◌≢◌, Err, length};
ghost use Rattle.text_output.specs.Printing.{PrintsTo};
ghost use Rattle.run_inputs.specs.Faults.{fault_text};
ghost use Rattle.run_inputs.specs.Runs.{PrintsText, writing_to};
ghost use Rattle.route_explain.specs.Explanation.{PrintsExplanation, PrintsLine, explanation_text};
ghost use Rattle.route_explain.specs.kept.Findings.{AreFindings};

use crate::explained::told_memory;
use crate::findings::Findings;
use crate::nets::put_nets;
use crate::read_routing::ReadRouting;
use crate::uses::put_use_lines;
use report_run::put_overused;
use run_inputs::AppFault;
use std::alloc::AllocGlobal;
use std::thread::Threads;
use text_output::{ByteSink, Printer};

/// Prints an explanation through a buffer.
fn put_explanation<W: ByteSink>(
    out: &mut Printer<'_, W>,
    file: &ReadRouting<'_, '_, '_>,
    found: &Findings,
)
    requires { AreFindings file.now.netlist.now file.now.problem.now file.now.lines.now
        file.now.routing.now found.now }
    ensures { PrintsTo W.ByteSink out.old out.new
        (explanation_text file.now.path.now file.now.netlist.now file.now.problem.now
        file.now.lines.now file.now.routing.now found.now.faults.items) }
{
    put_nets(out, file, found);
    put_overused(out, file.netlist, file.problem, &found.overused);
    put_use_lines(out, file, found);
}

/// Prints an explanation to a sink.
fn print_explanation<W: ByteSink>(
    file: &ReadRouting<'_, '_, '_>,
    found: &Findings,
    out: &mut W,
) -> Result<(), AppFault>
    requires { AreFindings file.now.netlist.now file.now.problem.now file.now.lines.now
        file.now.routing.now found.now }
    ensures { PrintsText (writing_to W.taken W.failed out.old out.new)
        (explanation_text file.now.path.now file.now.netlist.now file.now.problem.now
        file.now.lines.now file.now.routing.now found.now.faults.items) tt result }
{
    let mut printer = Printer::new(out);
    put_explanation(&mut printer, file, found);
    match printer.finish() {
        Ok(()) => Ok(()),
        Err(_) => Err(AppFault::Unwritten),
    }
}

/// Prints what is wrong with a routing that was read from a file. Each net that has a fault gets a
/// line: the first fault in words, with the nodes that it is about, after the line number of the
/// file. Then comes the number of overused nodes and a line for each, and then a line for each line
/// of the file that names one. It waits for threads that judge the nets.
///
/// # Errors
/// `Memory`, and then the line of that fault was printed in place of the explanation. Otherwise
/// `Unwritten` exactly if the sink failed, which received a front of the explanation.
pub fn explain<W: ByteSink>(
    rt: &(impl Threads + Sync + AllocGlobal),
    file: &ReadRouting<'_, '_, '_>,
    out: &mut W,
) -> Result<(), AppFault>
    requires { length file.now.routing.now ≡ length file.now.problem.now.nets }
    // The explanation has the first fault of each net.
    ensures prints { result ≢ Err AppFault.Memory
        → PrintsExplanation (writing_to W.taken W.failed out.old out.new)
        file.now.path.now file.now.netlist.now file.now.problem.now file.now.lines.now
        file.now.routing.now result }
    // If memory runs out, the line of that fault is printed and nothing else.
    ensures memory { result ≡ Err AppFault.Memory
        → PrintsLine (writing_to W.taken W.failed out.old out.new)
        (fault_text AppFault.Memory) }
{
    let found = match Findings::new(rt, file) {
        Ok(found) => found,
        Err(_) => return told_memory(out),
    };
    print_explanation(file, &found, out)
}
