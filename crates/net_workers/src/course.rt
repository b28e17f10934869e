//! The course of an iteration whose turns are scheduled: the turns, and how many were made.

use gates::ScheduledTurn;
use std::sync::{Condvar, Mutex, Wait};

/// A turn of a course, and its number: how many turns come before it.
#[derive(Clone, Copy)]
pub(crate) struct NumberedTurn {
    pub(crate) number: u64,
    pub(crate) turn: ScheduledTurn,
}

impl NumberedTurn {
    /// Returns the turn with its number.
    pub(crate) fn new(number: usize, turn: &ScheduledTurn) -> NumberedTurn {
        NumberedTurn {
            number: number as u64,
            turn: *turn,
        }
    }
}

/// The number of turns that were made, and whether no further one will be.
#[derive(Drop)]
struct Count {
    made: u64,
    is_stopped: bool,
}

/// The turns that the workers have to make, in order, and a count of those that were made. Workers
/// wait for the count.
#[derive(Drop)]
pub(crate) struct Course<'a> {
    turns: &'a [ScheduledTurn],
    count: Mutex<Count>,
    counted: Condvar,
}

impl<'a> Course<'a> {
    /// Returns the course of these turns, none of which was made.
    pub(crate) fn new(turns: &'a [ScheduledTurn]) -> Course<'a> {
        Course {
            turns,
            count: Mutex::new(Count {
                made: 0,
                is_stopped: false,
            }),
            counted: Condvar::new(),
        }
    }

    /// Returns the turns.
    pub(crate) fn turns(&self) -> &'a [ScheduledTurn] {
        self.turns
    }

    /// Counts a turn that was made.
    pub(crate) fn count<R: Wait>(&self, rt: &R) {
        let mut count = self.count.lock(rt);
        count.made = count.made.saturating_add(1);
        self.counted.notify_all();
    }

    /// Ends all waits: a worker stops, and makes no more of its turns.
    pub(crate) fn stop<R: Wait>(&self, rt: &R) {
        let mut count = self.count.lock(rt);
        count.is_stopped = true;
        self.counted.notify_all();
    }

    /// Waits until this many turns were made. Returns false if a worker stopped before.
    pub(crate) fn wait_for<R: Wait>(&self, rt: &R, turns: u64) -> bool {
        let count = self.count.lock(rt);
        let count = self
            .counted
            .wait_while(rt, count, |count| count.made < turns && !count.is_stopped);
        count.made >= turns
    }
}
