//! All gates of a run as one.

use congestion_book::Book;
use net_workers::{Gate, Schedule, ScheduledTurn, TrialEnd};
use route_tree::Routing;
use rr_graph::Problem;

/// The gates of a run as one: all of them get each call, in this order. The schedule is the
/// follower's. Turns are accepted if all accept them; contracts see what the follower accepts. Each
/// gate has its own lifetime, because they are made of values that live for different times.
#[derive(Clone, Copy)]
pub struct RunGates<'f, 'r, 'p, 'l, F, R, P, L> {
    pub follower: &'f F,
    pub recorder: &'r R,
    pub progress: &'p P,
    pub log: &'l L,
}

impl<F: Gate, R: Gate, P: Gate, L: Gate> RunGates<'_, '_, '_, '_, F, R, P, L> {
    /// Asks the gates after the follower, and returns whether all of them accept these turns.
    fn are_accepted_after(&self, iteration: u32, turns: &[ScheduledTurn]) -> bool {
        let is_recorded = self.recorder.accepts(iteration, turns);
        let is_shown = self.progress.accepts(iteration, turns);
        self.log.accepts(iteration, turns) && is_shown && is_recorded
    }
}

impl<F: Gate, R: Gate, P: Gate, L: Gate> Gate for RunGates<'_, '_, '_, '_, F, R, P, L> {
    ghost accepted = { λ gates k turns. F.accepted gates.follower.now k turns };

    fn begins(&self, problem: &Problem) {
        self.follower.begins(problem);
        self.recorder.begins(problem);
        self.progress.begins(problem);
        self.log.begins(problem);
    }

    fn opened(&self, iteration: u32, nets: u32) {
        self.follower.opened(iteration, nets);
        self.recorder.opened(iteration, nets);
        self.progress.opened(iteration, nets);
        self.log.opened(iteration, nets);
    }

    fn schedule(&self, iteration: u32) -> Option<Schedule<'_>> {
        self.follower.schedule(iteration)
    }

    fn between(&self, worker: u32, net: u32) {
        self.follower.between(worker, net);
        self.recorder.between(worker, net);
        self.progress.between(worker, net);
        self.log.between(worker, net);
    }

    fn stuck(&self, net: u32, sink: u32) {
        self.follower.stuck(net, sink);
        self.recorder.stuck(net, sink);
        self.progress.stuck(net, sink);
        self.log.stuck(net, sink);
    }

    fn searched(&self, worker: u32, net: u32) {
        self.follower.searched(worker, net);
        self.recorder.searched(worker, net);
        self.progress.searched(worker, net);
        self.log.searched(worker, net);
    }

    fn looked(&self, worker: u32, net: u32) {
        self.follower.looked(worker, net);
        self.recorder.looked(worker, net);
        self.progress.looked(worker, net);
        self.log.looked(worker, net);
    }

    fn accepts(&self, iteration: u32, turns: &[ScheduledTurn]) -> bool {
        let is_followed = self.follower.accepts(iteration, turns);
        self.are_accepted_after(iteration, turns) && is_followed
    }

    fn closed(&self, iteration: u32, book: &Book) {
        self.follower.closed(iteration, book);
        self.recorder.closed(iteration, book);
        self.progress.closed(iteration, book);
        self.log.closed(iteration, book);
    }

    fn found(&self, problem: &Problem, routing: &Routing) {
        self.follower.found(problem, routing);
        self.recorder.found(problem, routing);
        self.progress.found(problem, routing);
        self.log.found(problem, routing);
    }

    fn left(&self, book: &Book) {
        self.follower.left(book);
        self.recorder.left(book);
        self.progress.left(book);
        self.log.left(book);
    }

    fn tries(&self, width: u32) {
        self.follower.tries(width);
        self.recorder.tries(width);
        self.progress.tries(width);
        self.log.tries(width);
    }

    fn tried(&self, width: u32, end: TrialEnd) {
        self.follower.tried(width, end);
        self.recorder.tried(width, end);
        self.progress.tried(width, end);
        self.log.tried(width, end);
    }
}
