//! The head of a schedule, which describes the run.

ghost use Rattle.std.specs.Prelude.{◌≡◌, IfOk, OnOk};
ghost use Rattle.std.specs.Io.KnownBytes.{Appends};
ghost use Rattle.text_output.specs.Printing.{PrintsTo};
ghost use Rattle.run_schedule.specs.ScheduleTexts.{head_text, run_text};

use crate::head_lines::{put_amount, put_entry, put_options};
use node_cost::Settings;
use std::alloc::Global;
use text_output::{ByteSink, Printer};
use vpr_text::{Adapted, Broken};

/// What the head of a schedule says about the run.
#[derive(Clone, Copy, Debug)]
pub struct Head<'a> {
    /// The version of the program.
    pub program: &'a [u8],
    /// The command of the run, with its own options.
    pub command: &'a [u8],
    /// The sum of the netlist's bytes, in hexadecimal digits.
    pub net: &'a [u8],
    /// The sum of the architecture's bytes.
    pub arch: &'a [u8],
    /// The sum of the placement's bytes.
    pub place: &'a [u8],
    pub workers: u32,
    pub settings: Settings,
    pub nets: u32,
}

/// Prints the program, the command and the sums of the files.
fn put_run<W: ByteSink>(out: &mut Printer<'_, W>, head: &Head<'_>)
    ensures { PrintsTo W.ByteSink out.old out.new
        (run_text head.now.program.now head.now.command.now head.now.net.now head.now.arch.now
        head.now.place.now) }
{
    put_entry(out, b"pathfinder", head.program);
    put_entry(out, b"schedule of", head.command);
    put_entry(out, b"net", head.net);
    put_entry(out, b"arch", head.arch);
    put_entry(out, b"place", head.place);
}

/// Prints a head.
pub(crate) fn put_head<W: ByteSink>(out: &mut Printer<'_, W>, head: &Head<'_>)
    ensures { PrintsTo W.ByteSink out.old out.new (head_text head.now) }
{
    put_run(out, head);
    put_amount(out, b"workers", head.workers, b"");
    put_options(out, &head.settings);
    put_amount(out, b"nets", head.nets, b"");
}

/// Prints a head to a sink.
///
/// # Errors
/// Broken where the sink broke.
fn print_head<W: ByteSink>(sink: &mut W, head: &Head<'_>) -> Result<(), Broken>
    ensures { OnOk result (Appends (W.taken sink.old) (W.taken sink.new) (head_text head.now)) }
{
    let mut printer = Printer::new(sink);
    put_head(&mut printer, head);
    printer.finish()
}

/// Returns the lines of a head, or `Broken` if memory ran out.
#[inline(never)]
pub(crate) fn head_lines(alloc: Global, head: &Head<'_>) -> Result<Vec<u8>, Broken>
    ensures { IfOk result (λ lines. lines.items ≡ head_text head.now) }
{
    let mut lines = Adapted::new(Vec::new(alloc));
    print_head(&mut lines, head)?;
    Ok(lines.into_inner())
}
