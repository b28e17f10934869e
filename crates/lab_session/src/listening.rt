//! Gates that keep each call, in order.

use crate::answer::added;
use crate::unanswered::Unanswered;
use congestion_book::Book;
use net_workers::{Gate, Schedule, ScheduledTurn, TrialEnd};
use route_tree::Routing;
use rr_graph::Problem;
use std::alloc::Global;
use std::sync::atomic::{AtomicBool, Ordering};
use std::sync::{Mutex, Wait};

/// The calls that gates heard, a line for each, in order.
#[derive(Drop)]
pub struct Heard<'a, R: Wait> {
    rt: &'a R,
    lines: Mutex<String>,
    /// Whether memory ran out for a line.
    has_lacked: AtomicBool,
}

impl<'a, R: Wait> Heard<'a, R> {
    /// Returns an empty list.
    pub fn new(rt: &'a R, alloc: Global) -> Heard<'a, R> {
        Heard {
            rt,
            lines: Mutex::new(String::new(alloc)),
            has_lacked: AtomicBool::new(false),
        }
    }

    /// Adds a line with a call's name and its numbers, after the name of who heard it.
    pub fn add(&self, listener: &str, call: &str, numbers: &[u32]) {
        let mut lines = self.lines.lock(self.rt);
        if put_heard(listener, call, numbers, &mut lines).is_err() {
            self.has_lacked.store(true, Ordering::SeqCst);
        }
    }

    /// Adds the lines to an answer.
    pub fn put(&self, out: &mut String) -> Result<(), Unanswered> {
        if self.has_lacked.load(Ordering::SeqCst) {
            return Err(Unanswered::Memory);
        }
        let lines = self.lines.lock(self.rt);
        added(out.push_str(lines.as_str()))
    }
}

/// Adds a line with a call's name and its numbers, after the name of who heard it.
fn put_heard(
    listener: &str,
    call: &str,
    numbers: &[u32],
    out: &mut String,
) -> Result<(), Unanswered> {
    write!(out, "{listener}: {call}")?;
    for number in numbers {
        write!(out, " {number}")?;
    }
    added(out.push('\n'))
}

/// A gate that keeps each call under its name.
#[derive(Drop)]
pub struct Listener<'a, R: Wait> {
    pub name: &'a str,
    pub heard: &'a Heard<'a, R>,
    /// The last iteration for which it has a schedule.
    pub scheduled: u32,
    /// Whether one thread makes all turns of its schedules.
    pub is_alone: bool,
    /// It refuses the turns of this iteration.
    pub refused: u32,
}

impl<R: Wait> Listener<'_, R> {
    /// Keeps a call.
    fn hear(&self, call: &str, numbers: &[u32]) {
        self.heard.add(self.name, call, numbers);
    }
}

impl<R: Wait> Gate for Listener<'_, R> {
    ghost accepted = { λ gate k turns. Unit {0} };

    fn begins(&self, problem: &Problem) {
        self.hear("begins", &[problem.nets()]);
    }

    fn opened(&self, iteration: u32, nets: u32) {
        self.hear("opened", &[iteration, nets]);
    }

    fn schedule(&self, iteration: u32) -> Option<Schedule<'_>> {
        self.hear("schedule", &[iteration]);
        if iteration > self.scheduled {
            return None;
        }
        Some(Schedule {
            turns: &[],
            is_alone: self.is_alone,
        })
    }

    fn between(&self, worker: u32, net: u32) {
        self.hear("between", &[worker, net]);
    }

    fn stuck(&self, net: u32, sink: u32) {
        self.hear("stuck", &[net, sink]);
    }

    fn searched(&self, worker: u32, net: u32) {
        self.hear("searched", &[worker, net]);
    }

    fn looked(&self, worker: u32, net: u32) {
        self.hear("looked", &[worker, net]);
    }

    fn accepts(&self, iteration: u32, turns: &[ScheduledTurn]) -> bool {
        self.hear("accepts", &[iteration]);
        for turn in turns {
            self.hear("turn", &[turn.worker, turn.net]);
        }
        iteration != self.refused
    }

    fn closed(&self, iteration: u32, book: &Book) {
        self.hear("closed", &[iteration, book.unrouted(), book.overused()]);
    }

    fn found(&self, problem: &Problem, routing: &Routing) {
        let lists = u32::try_from(routing.lists.len()).unwrap_or(u32::MAX);
        self.hear("found", &[problem.nets(), lists]);
    }

    fn left(&self, book: &Book) {
        self.hear("left", &[book.unrouted(), book.overused()]);
    }

    fn tries(&self, width: u32) {
        self.hear("tries", &[width]);
    }

    fn tried(&self, width: u32, end: TrialEnd) {
        match end {
            TrialEnd::Routed { iterations } => self.hear("tried routed", &[width, iterations]),
            TrialEnd::NotRouted {
                unrouted,
                overused,
                iterations,
            } => self.hear("tried unrouted", &[width, unrouted, overused, iterations]),
        }
    }
}
