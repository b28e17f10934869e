//! What workers, the driver of a negotiation and a search of widths report to an onlooker, and what
//! they ask it.

ghost use Rattle.std.specs.Prelude.{◌≡◌, IsTrue, length};

use crate::schedule::{Schedule, ScheduledTurn};
use crate::trial::TrialEnd;
use congestion_book::Book;
use route_tree::Routing;
use routing_problem::Problem;

/// What is called between the steps of an iteration, with no lock held.
pub trait Gate {
    ghost use Rattle.std.specs.Prelude.{ℕ, List};
    ghost use Rattle.gates.specs.declared.schedule.ScheduledTurn.{ScheduledTurn};

    /// The turns that it accepts in an iteration, which is counted from 1.
    ghost accepted: { Self → ℕ → List ScheduledTurn → Type 0 };

    /// Before the first iteration of a negotiation of this problem.
    fn begins(&self, _problem: &Problem) {}

    /// Before the first draw of an iteration, in which each of this many nets has its turn.
    fn opened(&self, _iteration: u32, _nets: u32) {}

    /// The turns that the workers have to make in an iteration; none if they are free to.
    fn schedule(&self, _iteration: u32) -> Option<Schedule<'_>> {
        None
    }

    /// After the draw of a net, before it is searched for.
    fn between(&self, worker: u32, net: u32);

    /// After a search that found no way from a net's source to this sink, the first of those that
    /// are not reached.
    fn stuck(&self, _net: u32, _sink: u32) {}

    /// After a worker found, when it was about to make its turn at a net, that the others had
    /// filled a node of its tree, and before it searches again.
    fn looked(&self, _worker: u32, _net: u32) {}

    /// After the first search for a net, before the worker makes its turn.
    fn searched(&self, worker: u32, net: u32);

    /// After the last turn of an iteration, before it is closed: its turns in order. Whether the
    /// gate accepts them: if not, the negotiation has no outcome.
    fn accepts(&self, iteration: u32, turns: &[ScheduledTurn]) -> bool
        ensures { IsTrue result → accepted self.now iteration turns.now };

    /// After an iteration was closed, with the book that it left, which has a row for each
    /// iteration so far. What is asked of the book is looked up then, and nothing if nothing is
    /// asked.
    fn closed(&self, _iteration: u32, _book: &Book)
        requires rows { length _book.now.rows ≡ _iteration }
    {}

    /// After a negotiation that found this routing of the problem.
    fn found(&self, _problem: &Problem, _routing: &Routing) {}

    /// After a negotiation that found none, with the book that its last iteration left.
    fn left(&self, _book: &Book) {}

    /// Before the trial of a width, which is a negotiation of its own.
    fn tries(&self, _width: u32) {}

    /// After it.
    fn tried(&self, _width: u32, _end: TrialEnd) {}
}

/// A gate that returns at once.
#[derive(Clone, Copy, Debug)]
pub struct OpenGate;

impl Gate for OpenGate {
    ghost accepted = { λ gate k turns. Unit {0} };

    fn between(&self, _worker: u32, _net: u32) {}

    fn searched(&self, _worker: u32, _net: u32) {}

    fn accepts(&self, _iteration: u32, _turns: &[ScheduledTurn]) -> bool {
        true
    }
}
