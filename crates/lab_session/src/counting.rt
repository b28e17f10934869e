//! A gate that counts.

use crate::answer::added;
use crate::meeting::flag;
use crate::told::{Told, ToldList, ToldTrial};
use crate::unanswered::Unanswered;
use net_workers::TrialEnd;
use std::alloc::Global;
use std::sync::Wait;
use std::sync::atomic::{AtomicU32, Ordering};

/// Counts the nets that were drawn and those that were searched for. Records which workers did so,
/// and the driver's calls.
#[derive(Drop)]
pub struct Counting<'a, R: Wait> {
    drawn: AtomicU32,
    searched: AtomicU32,
    /// The flags of the workers that drew a net.
    drawing: AtomicU32,
    /// The flags of the workers that searched for a net.
    searching: AtomicU32,
    told: ToldList<'a, R>,
}

impl<'a, R: Wait> Counting<'a, R> {
    /// Returns a gate that has counted nothing.
    pub fn new(rt: &'a R, alloc: Global) -> Counting<'a, R> {
        Counting {
            drawn: AtomicU32::new(0),
            searched: AtomicU32::new(0),
            drawing: AtomicU32::new(0),
            searching: AtomicU32::new(0),
            told: ToldList::new(rt, alloc),
        }
    }

    /// Adds what the gate counted and recorded.
    pub fn put(&self, out: &mut String) -> Result<(), Unanswered> {
        let drawn = self.drawn.load(Ordering::SeqCst);
        let searched = self.searched.load(Ordering::SeqCst);
        writeln!(out, "gate: drawn {drawn}, searched {searched}")?;
        out.push_str("gate: workers that drew:")?;
        put_flags(self.drawing.load(Ordering::SeqCst), out)?;
        out.push_str("gate: workers that searched:")?;
        put_flags(self.searching.load(Ordering::SeqCst), out)?;
        self.told.put(out)
    }
}

/// Adds the numbers whose flags are set, or `none`.
fn put_flags(flags: u32, out: &mut String) -> Result<(), Unanswered> {
    if flags == 0 {
        out.push_str(" none")?;
    }
    for number in 0..32 {
        if flags & flag(number) != 0 {
            write!(out, " {number}")?;
        }
    }
    added(out.push('\n'))
}

/// The calls of the gate.
impl<R: Wait> Counting<'_, R> {
    pub fn opened(&self, iteration: u32, nets: u32) {
        self.told.add(Told::Opened { iteration, nets });
    }

    pub fn between(&self, worker: u32) {
        self.drawn.fetch_add(1, Ordering::SeqCst);
        self.drawing.fetch_or(flag(worker), Ordering::SeqCst);
    }

    pub fn searched(&self, worker: u32) {
        self.searched.fetch_add(1, Ordering::SeqCst);
        self.searching.fetch_or(flag(worker), Ordering::SeqCst);
    }

    pub fn closed(&self, iteration: u32, unrouted: u32, overused: u32) {
        self.told.add(Told::Closed {
            iteration,
            unrouted,
            overused,
        });
    }

    pub fn tries(&self, width: u32) {
        self.told.add(Told::Trial(ToldTrial::Tries(width)));
    }

    pub fn tried(&self, width: u32, end: TrialEnd) {
        self.told.add(Told::Trial(ToldTrial::tried(width, end)));
    }
}
