//! The gates that a call can name.

use crate::counting::Counting;
use crate::holding::Holding;
use crate::meeting::Meeting;
use crate::timing::Timing;
use crate::unanswered::Unanswered;
use crate::words::{NO_NUMBER, number};
use congestion_book::Book;
use net_workers::{Gate, ScheduledTurn, TrialEnd};
use std::alloc::AllocError;
use std::sync::Wait;
use std::time::Clock;

/// The syntax of a gate.
const GATES: &str =
    "the call and no gate, or `open`, `meeting N`, `holding W`, `counting` or `timing` after it";

/// The gate that the last words of a call name.
#[derive(Clone, Copy)]
pub enum GateWords {
    Open,
    /// The number of nets that meet.
    Meeting(u32),
    /// The worker that is held.
    Holding(u32),
    Counting,
    Timing,
}

/// Reads the gate that the last words of a call name. The call has this many workers.
pub fn gate_words(given: &[&str], workers: u32) -> Result<GateWords, Unanswered> {
    match given {
        [] => Ok(GateWords::Open),
        [word] => plain_gate(word),
        [word, count] => match number(count) {
            Some(count) => numbered_gate(word, count, workers),
            None => Err(NO_NUMBER),
        },
        _ => Err(Unanswered::Misread(GATES)),
    }
}

/// Reads a gate that is named by one word.
fn plain_gate(word: &str) -> Result<GateWords, Unanswered> {
    match word {
        "open" => Ok(GateWords::Open),
        "counting" => Ok(GateWords::Counting),
        "timing" => Ok(GateWords::Timing),
        _ => Err(Unanswered::Misread(GATES)),
    }
}

/// Reads a gate that is named by a word and a number.
fn numbered_gate(word: &str, number: u32, workers: u32) -> Result<GateWords, Unanswered> {
    match word {
        "meeting" if number < 1 || number > 32 => { Err(Unanswered::Refused("1 to 32 nets meet")) }
        "meeting" => Ok(GateWords::Meeting(number)),
        "holding" if number >= workers => {
            Err(Unanswered::Refused("there is no such worker to hold"))
        }
        "holding" => Ok(GateWords::Holding(number)),
        _ => Err(Unanswered::Misread(GATES)),
    }
}

/// One of the gates.
#[derive(Drop)]
pub enum LabGate<'a, R: Wait + Clock> {
    Open,
    Meeting(Meeting),
    Holding(Holding),
    Counting(Counting<'a, R>),
    Timing(Timing<'a, R>),
}

impl<'a, R: Wait + Clock + AllocGlobal> LabGate<'a, R> {
    /// Makes the gate that a call names, for a problem of `nets` nets.
    pub fn new(rt: &'a R, words: GateWords, nets: u32) -> Result<LabGate<'a, R>, AllocError> {
        match words {
            GateWords::Open => Ok(LabGate::Open),
            GateWords::Meeting(count) => Ok(LabGate::Meeting(Meeting::of(count))),
            GateWords::Holding(worker) => Ok(LabGate::Holding(Holding::of(worker, nets))),
            GateWords::Counting => Ok(LabGate::Counting(Counting::new(rt, rt.alloc()))),
            GateWords::Timing => Ok(LabGate::Timing(Timing::new(rt, rt.alloc())?)),
        }
    }

    /// Adds the gate's own lines.
    pub fn put(&self, out: &mut String) -> Result<(), Unanswered> {
        match self {
            LabGate::Open => Ok(()),
            LabGate::Meeting(gate) => gate.put(out),
            LabGate::Holding(gate) => gate.put(out),
            LabGate::Counting(gate) => gate.put(out),
            LabGate::Timing(gate) => gate.put(out),
        }
    }
}

impl<R: Wait + Clock> Gate for LabGate<'_, R> {
    ghost accepted = { λ gate k turns. Unit {0} };

    fn opened(&self, iteration: u32, nets: u32) {
        match self {
            LabGate::Open => (),
            LabGate::Meeting(gate) => gate.opened(iteration),
            LabGate::Holding(gate) => gate.opened(iteration, nets),
            LabGate::Counting(gate) => gate.opened(iteration, nets),
            LabGate::Timing(gate) => gate.opened(),
        }
    }

    fn between(&self, worker: u32, net: u32) {
        match self {
            LabGate::Open => (),
            LabGate::Meeting(gate) => gate.between(net),
            LabGate::Holding(gate) => gate.between(worker),
            LabGate::Counting(gate) => gate.between(worker),
            LabGate::Timing(gate) => gate.between(worker),
        }
    }

    fn searched(&self, worker: u32, net: u32) {
        match self {
            LabGate::Open => (),
            LabGate::Meeting(gate) => gate.searched(net),
            LabGate::Holding(gate) => gate.searched(worker),
            LabGate::Counting(gate) => gate.searched(worker),
            LabGate::Timing(gate) => gate.searched(worker),
        }
    }

    fn looked(&self, _worker: u32, _net: u32) {
        if let LabGate::Meeting(gate) = self {
            gate.looked();
        }
    }

    fn accepts(&self, _iteration: u32, _turns: &[ScheduledTurn]) -> bool {
        true
    }

    fn closed(&self, iteration: u32, book: &Book) {
        match self {
            LabGate::Counting(gate) => gate.closed(iteration, book.unrouted(), book.overused()),
            LabGate::Timing(gate) => gate.closed(iteration),
            _ => (),
        }
    }

    fn tries(&self, width: u32) {
        match self {
            LabGate::Counting(gate) => gate.tries(width),
            LabGate::Timing(gate) => gate.tries(),
            _ => (),
        }
    }

    fn tried(&self, width: u32, end: TrialEnd) {
        match self {
            LabGate::Counting(gate) => gate.tried(width, end),
            LabGate::Timing(gate) => gate.tried(width),
            _ => (),
        }
    }
}
