//! Two onlookers.

use crate::gate::Gate;
use crate::schedule::{Schedule, ScheduledTurn};
use crate::trial::TrialEnd;
use congestion_book::Book;
use route_tree::Routing;
use routing_problem::Problem;

/// Two gates as one: each call goes to the first, and then to the second. The schedule is the
/// first's, if it has one. Turns are accepted if both accept them; contracts see what the first
/// accepts.
#[derive(Clone, Copy, Debug)]
pub struct BothGates<'a, A, B> {
    pub first: &'a A,
    pub second: &'a B,
}

impl<A: Gate, B: Gate> Gate for BothGates<'_, A, B> {
    ghost accepted = { λ gates k turns. A.accepted gates.first.now k turns };

    fn begins(&self, problem: &Problem) {
        self.first.begins(problem);
        self.second.begins(problem);
    }

    fn opened(&self, iteration: u32, nets: u32) {
        self.first.opened(iteration, nets);
        self.second.opened(iteration, nets);
    }

    fn schedule(&self, iteration: u32) -> Option<Schedule<'_>> {
        match self.first.schedule(iteration) {
            None => self.second.schedule(iteration),
            schedule => schedule,
        }
    }

    fn between(&self, worker: u32, net: u32) {
        self.first.between(worker, net);
        self.second.between(worker, net);
    }

    fn stuck(&self, net: u32, sink: u32) {
        self.first.stuck(net, sink);
        self.second.stuck(net, sink);
    }

    fn searched(&self, worker: u32, net: u32) {
        self.first.searched(worker, net);
        self.second.searched(worker, net);
    }

    fn looked(&self, worker: u32, net: u32) {
        self.first.looked(worker, net);
        self.second.looked(worker, net);
    }

    fn accepts(&self, iteration: u32, turns: &[ScheduledTurn]) -> bool {
        let is_first = self.first.accepts(iteration, turns);
        self.second.accepts(iteration, turns) && is_first
    }

    fn closed(&self, iteration: u32, book: &Book) {
        self.first.closed(iteration, book);
        self.second.closed(iteration, book);
    }

    fn found(&self, problem: &Problem, routing: &Routing) {
        self.first.found(problem, routing);
        self.second.found(problem, routing);
    }

    fn left(&self, book: &Book) {
        self.first.left(book);
        self.second.left(book);
    }

    fn tries(&self, width: u32) {
        self.first.tries(width);
        self.second.tries(width);
    }

    fn tried(&self, width: u32, end: TrialEnd) {
        self.first.tried(width, end);
        self.second.tried(width, end);
    }
}
