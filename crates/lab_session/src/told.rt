//! The records of a gate, in the order of the driver's calls.

use crate::unanswered::Unanswered;
use net_workers::TrialEnd;
use std::alloc::Global;
use std::fmt;
use std::sync::atomic::{AtomicU32, Ordering};
use std::sync::{Mutex, Wait};

/// A call of a gate by the driver of a negotiation, or the times that the parts of an iteration or
/// a trial took, in microseconds.
#[derive(Clone, Copy)]
pub enum Told {
    Opened {
        iteration: u32,
        nets: u32,
    },
    Closed {
        iteration: u32,
        unrouted: u32,
        overused: u32,
    },
    Iteration(IterationTimes),
    Trial(ToldTrial),
}

/// The times that the parts of an iteration took, in microseconds.
#[derive(Clone, Copy)]
pub struct IterationTimes {
    pub iteration: u32,
    pub all: u64,
    pub searches: u64,
    pub turns: u64,
    pub end: u64,
}

/// The beginning or the end of the trial of a width, or the time that it took, in microseconds.
#[derive(Clone, Copy)]
pub enum ToldTrial {
    Tries(u32),
    Routed { width: u32, iterations: u32 },
    NotRouted(u32),
    Took { width: u32, all: u64 },
}

impl ToldTrial {
    /// Returns the record of a trial of this width with this end.
    pub fn tried(width: u32, end: TrialEnd) -> ToldTrial {
        match end {
            TrialEnd::Routed { iterations } => ToldTrial::Routed { width, iterations },
            TrialEnd::NotRouted { .. } => ToldTrial::NotRouted(width),
        }
    }
}

impl fmt::Display for IterationTimes {
    fn fmt<W: fmt::Write>(&self, f: &mut fmt::Formatter<W>) -> fmt::Result {
        let IterationTimes {
            iteration,
            all,
            searches,
            turns,
            end,
        } = *self;
        write!(f, "iteration {iteration}: {all} us; searches {searches} us")?;
        write!(f, ", turns {turns} us, end {end} us")
    }
}

impl fmt::Display for ToldTrial {
    fn fmt<W: fmt::Write>(&self, f: &mut fmt::Formatter<W>) -> fmt::Result {
        match *self {
            ToldTrial::Tries(width) => write!(f, "tries {width}"),
            ToldTrial::Routed { width, iterations } => {
                write!(f, "tried {width}, routed in {iterations}")
            }
            ToldTrial::NotRouted(width) => write!(f, "tried {width}, not routed"),
            ToldTrial::Took { width, all } => write!(f, "width {width}: {all} us"),
        }
    }
}

impl fmt::Display for Told {
    fn fmt<W: fmt::Write>(&self, f: &mut fmt::Formatter<W>) -> fmt::Result {
        match *self {
            Told::Opened { iteration, nets } => write!(f, "opened {iteration}, {nets} nets"),
            Told::Closed {
                iteration,
                unrouted,
                overused,
            } => write!(
                f,
                "closed {iteration}, unrouted {unrouted}, overused {overused}"
            ),
            Told::Iteration(times) => write!(f, "{times}"),
            Told::Trial(trial) => write!(f, "{trial}"),
        }
    }
}

/// The records of a gate, in order.
#[derive(Drop)]
pub struct ToldList<'a, R: Wait> {
    rt: &'a R,
    list: Mutex<Vec<Told>>,
    /// The number of records for which there was no memory.
    lost: AtomicU32,
}

impl<'a, R: Wait> ToldList<'a, R> {
    /// Returns an empty list.
    pub fn new(rt: &'a R, alloc: Global) -> ToldList<'a, R> {
        ToldList {
            rt,
            list: Mutex::new(Vec::new(alloc)),
            lost: AtomicU32::new(0),
        }
    }

    /// Adds a record, or counts it as lost if memory runs out.
    pub fn add(&self, told: Told) {
        if self.list.lock(self.rt).push(told).is_err() {
            self.lost.fetch_add(1, Ordering::SeqCst);
        }
    }

    /// Adds a line for each record, and one if records were lost.
    pub fn put(&self, out: &mut String) -> Result<(), Unanswered> {
        let list = self.list.lock(self.rt);
        for told in list.as_slice() {
            writeln!(out, "gate: {told}")?;
        }
        if self.lost.load(Ordering::SeqCst) > 0 {
            writeln!(out, "gate: lines lost")?;
        }
        Ok(())
    }
}
