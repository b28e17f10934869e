//! The line of an outcome.

ghost use Rattle.std.specs.Prelude.{◌≡◌};
ghost use Rattle.text_output.specs.Printing.{PrintsTo};
ghost use Rattle.runs.specs.RouteRun.{left_text, outcome_text, routed_text, status_of_outcome};
ghost use Rattle.runs.specs.kept.Routing.{ended_text};

use iteration::Outcome;
use text_output::{ByteSink, Piece, Printer};

/// Prints the line of a success.
#[tactic(auto, unfolding(crate::specs::RouteRun::routed_text))]
fn put_routed<W: ByteSink>(out: &mut Printer<'_, W>, iterations: u32)
    ensures { PrintsTo W.ByteSink out.old out.new (routed_text iterations) }
{
    out.put_pieces(&[
        Piece::Text(b"routed, iterations "),
        Piece::Number(iterations),
        Piece::Text(b"\n"),
    ]);
}

/// Prints the line of an outcome without success.
#[tactic(auto, unfolding(crate::specs::RouteRun::left_text))]
fn put_left<W: ByteSink>(out: &mut Printer<'_, W>, unrouted: u32, overused: u32, iterations: u32)
    ensures { PrintsTo W.ByteSink out.old out.new
        (left_text unrouted overused iterations) }
{
    out.put_pieces(&[
        Piece::Text(b"not routed: unrouted "),
        Piece::Number(unrouted),
        Piece::Text(b", overused "),
        Piece::Number(overused),
        Piece::Text(b", iterations "),
        Piece::Number(iterations),
        Piece::Text(b"\n"),
    ]);
}

/// What the line of an outcome reports.
#[derive(Clone, Copy)]
pub(crate) enum OutcomeEnd {
    Routed {
        iterations: u32,
    },
    Left {
        unrouted: u32,
        overused: u32,
        iterations: u32,
    },
}

/// Returns what the line of an outcome reports.
pub(crate) fn end_of(outcome: &Outcome) -> OutcomeEnd
    ensures { ended_text result ≡ outcome_text outcome.now }
{
    match outcome {
        Outcome::Success(_, iterations) => OutcomeEnd::Routed {
            iterations: *iterations,
        },
        Outcome::NotRouted {
            unrouted,
            overused,
            iterations,
        } => OutcomeEnd::Left {
            unrouted: *unrouted,
            overused: *overused,
            iterations: *iterations,
        },
    }
}

/// Prints the line of an outcome with these numbers.
pub(crate) fn put_end<W: ByteSink>(out: &mut Printer<'_, W>, end: OutcomeEnd)
    ensures { PrintsTo W.ByteSink out.old out.new (ended_text end) }
{
    match end {
        OutcomeEnd::Routed { iterations } => put_routed(out, iterations),
        OutcomeEnd::Left {
            unrouted,
            overused,
            iterations,
        } => put_left(out, unrouted, overused, iterations),
    }
}

/// Prints the line of an outcome.
pub(crate) fn put_outcome<W: ByteSink>(out: &mut Printer<'_, W>, outcome: &Outcome)
    ensures { PrintsTo W.ByteSink out.old out.new
        (outcome_text outcome.now) }
{
    let end = end_of(outcome);
    put_end(out, end);
}

/// Returns the exit status of an outcome: 0 for a routing, 3 if there is none.
pub fn outcome_status(outcome: &Outcome) -> u8
    ensures { result ≡ status_of_outcome outcome.now }
{
    match outcome {
        Outcome::Success(_, _) => 0,
        Outcome::NotRouted { .. } => 3,
    }
}
