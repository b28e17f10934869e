//! A gate that holds a worker.

use crate::patience::Patience;
use crate::unanswered::Unanswered;
use std::sync::atomic::{AtomicBool, AtomicU32, Ordering};

/// Holds a worker after the search of its first net until all other nets were searched for. The
/// other workers wait after their draws until that worker has drawn. The gate does so only in the
/// first iteration of a negotiation, which all workers make.
#[derive(Drop)]
pub struct Holding {
    worker: u32,
    nets: AtomicU32,
    is_awake: AtomicBool,
    /// 1 once the worker has drawn.
    drawn: AtomicU32,
    /// 1 once the worker was held.
    held: AtomicU32,
    /// The number of nets that were searched for.
    searched: AtomicU32,
    /// The number of iterations in which the worker was held to the end.
    rounds: AtomicU32,
    patience: Patience,
}

impl Holding {
    /// Returns the gate that holds a worker in an iteration of `nets` nets.
    pub fn of(worker: u32, nets: u32) -> Holding {
        Holding {
            worker,
            nets: AtomicU32::new(nets),
            is_awake: AtomicBool::new(true),
            drawn: AtomicU32::new(0),
            held: AtomicU32::new(0),
            searched: AtomicU32::new(0),
            rounds: AtomicU32::new(0),
            patience: Patience::new(),
        }
    }

    /// Waits until all nets were searched for.
    fn hold(&self) {
        let nets = self.nets.load(Ordering::SeqCst);
        if self.patience.await_number(&self.searched, nets) {
            self.rounds.fetch_add(1, Ordering::SeqCst);
        }
    }

    /// Adds whether the worker was held, or whether a worker gave up waiting.
    pub fn put(&self, out: &mut String) -> Result<(), Unanswered> {
        let worker = self.worker;
        if self.patience.is_gone() {
            writeln!(out, "gate: gave up")?;
        } else if self.rounds.load(Ordering::SeqCst) == 0 {
            writeln!(out, "gate: worker {worker} was not held")?;
        } else {
            writeln!(out, "gate: worker {worker} was held")?;
        }
        Ok(())
    }
}

/// The calls of the gate.
impl Holding {
    pub fn opened(&self, iteration: u32, nets: u32) {
        self.nets.store(nets, Ordering::SeqCst);
        self.drawn.store(0, Ordering::SeqCst);
        self.held.store(0, Ordering::SeqCst);
        self.searched.store(0, Ordering::SeqCst);
        self.is_awake.store(iteration == 1, Ordering::SeqCst);
    }

    pub fn between(&self, worker: u32) {
        if !self.is_awake.load(Ordering::SeqCst) {
            return;
        }
        if worker == self.worker {
            self.drawn.store(1, Ordering::SeqCst);
        } else {
            self.patience.await_number(&self.drawn, 1);
        }
    }

    pub fn searched(&self, worker: u32) {
        if !self.is_awake.load(Ordering::SeqCst) {
            return;
        }
        self.searched.fetch_add(1, Ordering::SeqCst);
        if worker == self.worker && self.held.swap(1, Ordering::SeqCst) == 0 {
            self.hold();
        }
    }
}
