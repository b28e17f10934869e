//! A gate at which nets meet.

use crate::answer::put;
use crate::patience::Patience;
use crate::unanswered::Unanswered;
use std::sync::atomic::{AtomicBool, AtomicU32, Ordering};

/// Returns the flag of a net or of a worker, or 0 from number 32 on.
pub fn flag(number: u32) -> u32 {
    1u32.checked_shl(number).unwrap_or(0)
}

/// Holds each of the first nets after its draw until all of them were drawn, and after its search
/// until all of them were searched for. The gate does so only in the first iteration of a
/// negotiation, which all workers make.
#[derive(Drop)]
pub struct Meeting {
    nets: u32,
    is_awake: AtomicBool,
    drawn: AtomicU32,
    searched: AtomicU32,
    /// The number of iterations in which they met.
    met: AtomicU32,
    /// How often a worker looked again at a net.
    looked: AtomicU32,
    /// How often a search was reported for a net that had one already.
    again: AtomicU32,
    patience: Patience,
}

impl Meeting {
    /// Returns the gate at which the first `nets` nets meet, at most 32.
    pub fn of(nets: u32) -> Meeting {
        Meeting {
            nets,
            is_awake: AtomicBool::new(true),
            drawn: AtomicU32::new(0),
            searched: AtomicU32::new(0),
            met: AtomicU32::new(0),
            looked: AtomicU32::new(0),
            again: AtomicU32::new(0),
            patience: Patience::new(),
        }
    }

    /// Returns the flags of all nets that meet.
    fn all(&self) -> u32 {
        match 1u32.checked_shl(self.nets) {
            Some(above) => above.saturating_sub(1),
            None => u32::MAX,
        }
    }

    /// Returns whether a net is held.
    fn holds(&self, net: u32) -> bool {
        net < self.nets && self.is_awake.load(Ordering::SeqCst)
    }

    /// Sets the flag of a net. Returns whether this completes the flags of all nets.
    fn completes(&self, seen: &AtomicU32, net: u32) -> bool {
        let before = seen.fetch_or(flag(net), Ordering::SeqCst);
        before != self.all() && before | flag(net) == self.all()
    }

    /// Adds the number of iterations in which the nets met, how often a worker looked again in
    /// these, if one did, and whether a worker gave up waiting.
    pub fn put(&self, out: &mut String) -> Result<(), Unanswered> {
        write!(out, "gate: met {} times", self.met.load(Ordering::SeqCst))?;
        let looked = self.looked.load(Ordering::SeqCst);
        if looked > 0 {
            write!(out, ", looked {looked} times")?;
        }
        let again = self.again.load(Ordering::SeqCst);
        if again > 0 {
            write!(out, ", searched again {again} times")?;
        }
        if self.patience.is_gone() {
            out.push_str(", gave up")?;
        }
        put(out, "")
    }
}

/// The calls of the gate.
impl Meeting {
    pub fn opened(&self, iteration: u32) {
        self.drawn.store(0, Ordering::SeqCst);
        self.searched.store(0, Ordering::SeqCst);
        self.is_awake.store(iteration == 1, Ordering::SeqCst);
    }

    pub fn between(&self, net: u32) {
        if self.holds(net) {
            self.completes(&self.drawn, net);
            self.patience.await_number(&self.drawn, self.all());
        }
    }

    pub fn looked(&self) {
        if self.is_awake.load(Ordering::SeqCst) {
            self.looked.fetch_add(1, Ordering::SeqCst);
        }
    }

    pub fn searched(&self, net: u32) {
        if self.holds(net) {
            if self.searched.load(Ordering::SeqCst) & flag(net) != 0 {
                self.again.fetch_add(1, Ordering::SeqCst);
            }
            if self.completes(&self.searched, net) && !self.patience.is_gone() {
                self.met.fetch_add(1, Ordering::SeqCst);
            }
            self.patience.await_number(&self.searched, self.all());
        }
    }
}
