//! The line of a log with the outcome of a trial of a width.

ghost use Rattle.std.specs.Prelude.{◌≡◌};
ghost use Rattle.text_output.specs.Printing.{PrintsTo};
ghost use Rattle.run_inputs.specs.Runs.{PrintsText, writing_to};
ghost use Rattle.run_log.specs.kept.LogTexts.{trial_left_text, trial_routed_text};

use run_inputs::AppFault;
use text_output::{ByteSink, Piece, Printer};

/// Prints that a width was routed after this many iterations.
#[tactic(auto, unfolding(crate::specs::kept::LogTexts::trial_routed_text))]
fn put_routed<W: ByteSink>(out: &mut Printer<'_, W>, width: u32, iterations: u32)
    ensures { PrintsTo W.ByteSink out.old out.new
        (trial_routed_text width iterations) }
{
    out.put_pieces(&[
        Piece::Text(b"# width "),
        Piece::Number(width),
        Piece::Text(b": routed, iterations "),
        Piece::Number(iterations),
        Piece::Text(b"\n"),
    ]);
}

/// Prints that a width was not routed, how many nets have no tree, and how many nodes are overused
/// after this many iterations.
#[tactic(auto, unfolding(crate::specs::kept::LogTexts::trial_left_text))]
fn put_left<W: ByteSink>(
    out: &mut Printer<'_, W>,
    width: u32,
    unrouted: u32,
    overused: u32,
    iterations: u32,
)
    ensures { PrintsTo W.ByteSink out.old out.new
        (trial_left_text width unrouted overused iterations) }
{
    out.put_pieces(&[
        Piece::Text(b"# width "),
        Piece::Number(width),
        Piece::Text(b": not routed: unrouted "),
        Piece::Number(unrouted),
        Piece::Text(b", overused "),
        Piece::Number(overused),
        Piece::Text(b", iterations "),
        Piece::Number(iterations),
        Piece::Text(b"\n"),
    ]);
}

/// Writes at once that a width was routed after this many iterations.
#[inline(never)]
pub fn write_routed<W: ByteSink>(sink: &mut W, width: u32, iterations: u32) -> Result<(), AppFault>
    ensures { PrintsText (writing_to W.taken W.failed sink.old sink.new)
        (trial_routed_text width iterations) tt result }
{
    let mut printer = Printer::new(sink);
    put_routed(&mut printer, width, iterations);
    match printer.finish() {
        Ok(()) => Ok(()),
        Err(_) => Err(AppFault::Unwritten),
    }
}

/// Writes at once that a width was not routed, and what was left after this many iterations.
#[inline(never)]
pub fn write_left<W: ByteSink>(
    sink: &mut W,
    width: u32,
    unrouted: u32,
    overused: u32,
    iterations: u32,
) -> Result<(), AppFault>
    ensures { PrintsText (writing_to W.taken W.failed sink.old sink.new)
        (trial_left_text width unrouted overused iterations) tt result }
{
    let mut printer = Printer::new(sink);
    put_left(&mut printer, width, unrouted, overused, iterations);
    match printer.finish() {
        Ok(()) => Ok(()),
        Err(_) => Err(AppFault::Unwritten),
    }
}
