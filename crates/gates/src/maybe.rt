//! An optional onlooker.

use crate::gate::Gate;
use crate::schedule::{Schedule, ScheduledTurn};
use crate::trial::TrialEnd;
use congestion_book::Book;
use route_tree::Routing;
use routing_problem::Problem;

/// Each call goes to the gate, if there is one.
impl<G: Gate> Gate for Option<G> {
    ghost use Rattle.std.specs.Prelude.{IfSome};

    ghost accepted = { λ gate k turns. IfSome gate (λ g. G.accepted g k turns) };

    fn begins(&self, problem: &Problem) {
        if let Some(gate) = self {
            gate.begins(problem);
        }
    }

    fn opened(&self, iteration: u32, nets: u32) {
        if let Some(gate) = self {
            gate.opened(iteration, nets);
        }
    }

    fn schedule(&self, iteration: u32) -> Option<Schedule<'_>> {
        match self {
            Some(gate) => gate.schedule(iteration),
            None => None,
        }
    }

    fn between(&self, worker: u32, net: u32) {
        if let Some(gate) = self {
            gate.between(worker, net);
        }
    }

    fn stuck(&self, net: u32, sink: u32) {
        if let Some(gate) = self {
            gate.stuck(net, sink);
        }
    }

    fn searched(&self, worker: u32, net: u32) {
        if let Some(gate) = self {
            gate.searched(worker, net);
        }
    }

    fn looked(&self, worker: u32, net: u32) {
        if let Some(gate) = self {
            gate.looked(worker, net);
        }
    }

    fn accepts(&self, iteration: u32, turns: &[ScheduledTurn]) -> bool {
        match self {
            Some(gate) => gate.accepts(iteration, turns),
            None => true,
        }
    }

    fn closed(&self, iteration: u32, book: &Book) {
        if let Some(gate) = self {
            gate.closed(iteration, book);
        }
    }

    fn found(&self, problem: &Problem, routing: &Routing) {
        if let Some(gate) = self {
            gate.found(problem, routing);
        }
    }

    fn left(&self, book: &Book) {
        if let Some(gate) = self {
            gate.left(book);
        }
    }

    fn tries(&self, width: u32) {
        if let Some(gate) = self {
            gate.tries(width);
        }
    }

    fn tried(&self, width: u32, end: TrialEnd) {
        if let Some(gate) = self {
            gate.tried(width, end);
        }
    }
}
