//! The lines of a search of widths.

ghost use Rattle.std.specs.Prelude.{◌≡◌, option_copied};
ghost use Rattle.std.specs.List.{flat_map};
ghost use Rattle.text_output.specs.Printing.{PrintsTo};
ghost use Rattle.runs.specs.WidthRun.{found_line, least_line, report_text, status_of_report, trial_end, trial_line};

use text_output::{ByteSink, Piece, Printer};
use width_search::{LeastWidth, Trial, WidthReport};

/// Returns the outcome of a trial, which follows its width.
fn trial_end(routed: bool) -> &'static [u8]
    ensures { result.now ≡ trial_end routed }
{
    if routed {
        b": routed\n"
    } else {
        b": not routed\n"
    }
}

/// Prints the line of a trial.
#[tactic(auto, unfolding(crate::specs::WidthRun::trial_line))]
fn put_trial<W: ByteSink>(out: &mut Printer<'_, W>, trial: Trial)
    ensures { PrintsTo W.ByteSink out.old out.new (trial_line trial) }
{
    out.put_pieces(&[
        Piece::Text(b"width "),
        Piece::Number(trial.width),
        Piece::Text(trial_end(trial.routed)),
    ]);
}

/// Prints the lines of the trials.
fn put_trials<W: ByteSink>(out: &mut Printer<'_, W>, trials: &[Trial])
    ensures { PrintsTo W.ByteSink out.old out.new
        (flat_map trial_line trials.now) }
{
    for trial in trials {
        put_trial(out, *trial);
    }
}

/// Prints the line of the least width that was routed.
#[tactic(auto, unfolding(crate::specs::WidthRun::found_line))]
fn put_found<W: ByteSink>(out: &mut Printer<'_, W>, width: u32)
    ensures { PrintsTo W.ByteSink out.old out.new (found_line width) }
{
    out.put_pieces(&[
        Piece::Text(b"least routed width: "),
        Piece::Number(width),
        Piece::Text(b"\n"),
    ]);
}

/// Prints the last line, with the least width that was routed, or that there is none.
fn put_least<W: ByteSink>(out: &mut Printer<'_, W>, least: Option<&LeastWidth>)
    ensures { PrintsTo W.ByteSink out.old out.new
        (least_line (option_copied least.entry)) }
{
    match least {
        Some(least) => put_found(out, least.width),
        None => out.push(b"no routed width\n"),
    }
}

/// Prints the lines of a search.
pub(crate) fn put_report<W: ByteSink>(out: &mut Printer<'_, W>, report: &WidthReport)
    ensures { PrintsTo W.ByteSink out.old out.new (report_text report.now) }
{
    put_trials(out, report.trials());
    put_least(out, report.least());
}

/// Returns the exit status of a search: 0 if a width was routed, 3 if none was.
pub fn report_status(report: &WidthReport) -> u8
    ensures { result ≡ status_of_report report.now }
{
    match report.least() {
        Some(_) => 0,
        None => 3,
    }
}
