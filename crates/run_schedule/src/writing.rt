//! Writing the text of a schedule.

ghost use Rattle.std.specs.Prelude.{◌≡◌, ◌+◌};
ghost use Rattle.text_output.specs.Printing.{PrintsTo};
ghost use Rattle.run_schedule.specs.Writes.{WritesText};
ghost use Rattle.run_schedule.specs.ScheduleTexts.{end_text, head_text, iteration_text, iterations_text, numbered_text, schedule_text, titles_text, trial_text, trials_text, turn_text, turns_text};

use crate::head::{Head, put_head};
use crate::trial::{Trial, Trials, Turns};
use gates::ScheduledTurn;
use text_output::{ByteSink, Piece, Printer};
use vpr_text::Broken;

/// Prints the line of a turn.
#[tactic(auto, unfolding(crate::specs::ScheduleTexts::turn_text))]
fn put_turn<W: ByteSink>(out: &mut Printer<'_, W>, turn: ScheduledTurn)
    ensures { PrintsTo W.ByteSink out.old out.new (turn_text turn) }
{
    out.put_pieces(&[
        Piece::Number(turn.net),
        Piece::Text(b" "),
        Piece::Number(turn.worker),
        Piece::Text(b" "),
        Piece::LongNumber(turn.seen),
        Piece::Text(b"\n"),
    ]);
}

/// Prints the turns of an iteration.
fn put_turns<W: ByteSink>(out: &mut Printer<'_, W>, turns: &[ScheduledTurn])
    ensures { PrintsTo W.ByteSink out.old out.new (turns_text turns.now) }
{
    for turn in turns {
        put_turn(out, *turn);
    }
}

/// Prints a word and its number on a line.
#[tactic(auto, unfolding(crate::specs::ScheduleTexts::numbered_text))]
fn put_numbered<'a, W: ByteSink>(out: &mut Printer<'_, W>, word: &'a [u8], number: u64)
    ensures { PrintsTo W.ByteSink out.old out.new
        (numbered_text word.now number) }
{
    out.put_pieces(&[
        Piece::Text(word),
        Piece::Text(b" "),
        Piece::LongNumber(number),
        Piece::Text(b"\n"),
    ]);
}

/// Prints the iteration with this number.
fn put_iteration<W: ByteSink>(out: &mut Printer<'_, W>, number: u64, turns: &[ScheduledTurn])
    ensures { PrintsTo W.ByteSink out.old out.new
        (iteration_text number turns.now) }
{
    put_numbered(out, b"iteration", number);
    put_turns(out, turns);
}

/// Prints iterations, which are counted from 1.
fn put_iterations<W: ByteSink>(out: &mut Printer<'_, W>, iterations: &[Turns])
    ensures { PrintsTo W.ByteSink out.old out.new
        (iterations_text 1 iterations.now) }
{
    for (index, turns) in iterations.iter().enumerate() {
        put_iteration(out, index as u64 + 1, turns.as_slice());
    }
}

/// Prints a trial.
fn put_trial<W: ByteSink>(out: &mut Printer<'_, W>, trial: &Trial)
    ensures { PrintsTo W.ByteSink out.old out.new (trial_text trial.now) }
{
    put_numbered(out, b"width", u64::from(trial.width()));
    put_iterations(out, trial.iterations());
}

/// Prints the trials of a run.
fn put_trials<W: ByteSink>(out: &mut Printer<'_, W>, trials: &[Trial])
    ensures { PrintsTo W.ByteSink out.old out.new (trials_text trials.now) }
{
    for trial in trials {
        put_trial(out, trial);
    }
}

/// Prints a schedule.
fn put_schedule<W: ByteSink>(out: &mut Printer<'_, W>, head: &Head<'_>, trials: &[Trial])
    ensures { PrintsTo W.ByteSink out.old out.new
        (schedule_text (head_text head.now) trials.now) }
{
    put_head(out, head);
    out.push(b"net worker seen\n");
    put_trials(out, trials);
    out.push(b"end\n");
}

/// Writes the schedule of a run with this head and these trials.
///
/// # Errors
/// `Broken` if the sink broke, after it took a front of the text.
#[inline(never)]
pub fn write_schedule<W: ByteSink>(
    sink: &mut W,
    head: &Head<'_>,
    trials: &Trials,
) -> Result<(), Broken>
    ensures { WritesText (W.taken sink.old) (W.taken sink.new) (W.failed sink.new)
        (schedule_text (head_text head.now) trials.now) result }
{
    let mut printer = Printer::new(sink);
    put_schedule(&mut printer, head, trials.as_slice());
    printer.finish()
}
