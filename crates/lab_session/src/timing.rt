//! A gate that measures times.

use crate::answer::added;
use crate::told::{IterationTimes, Told, ToldList, ToldTrial};
use crate::unanswered::Unanswered;
use std::alloc::{AllocError, Global};
use std::sync::Wait;
use std::sync::atomic::{AtomicU64, Ordering};
use std::time::{Clock, Duration};

/// The greatest number of workers.
const WORKERS: usize = 16;

/// Adds up the times that the parts of iterations take: the searches of all workers; their turns,
/// each from the beginning of the iteration or the search before to the next draw; and the end,
/// from the last search to the close. Times are in microseconds since the gate was made.
#[derive(Drop)]
pub struct Timing<'a, R: Wait + Clock> {
    rt: &'a R,
    begin: Duration,
    /// When the trial began.
    tried: AtomicU64,
    /// When the iteration began.
    opened: AtomicU64,
    /// When each worker last called the gate.
    latest: Vec<AtomicU64>,
    /// When the last search ended.
    last: AtomicU64,
    searches: AtomicU64,
    turns: AtomicU64,
    nets: AtomicU64,
    told: ToldList<'a, R>,
}

/// Returns `count` times, each 0.
fn times(alloc: Global, count: usize) -> Result<Vec<AtomicU64>, AllocError> {
    let mut times = Vec::with_capacity(alloc, count)?;
    for _ in 0..count {
        times.push(AtomicU64::new(0))?;
    }
    Ok(times)
}

impl<'a, R: Wait + Clock> Timing<'a, R> {
    /// Returns a gate whose clock starts now.
    pub fn new(rt: &'a R, alloc: Global) -> Result<Timing<'a, R>, AllocError> {
        Ok(Timing {
            rt,
            begin: rt.monotonic().unwrap_or(Duration::ZERO),
            tried: AtomicU64::new(0),
            opened: AtomicU64::new(0),
            latest: times(alloc, WORKERS)?,
            last: AtomicU64::new(0),
            searches: AtomicU64::new(0),
            turns: AtomicU64::new(0),
            nets: AtomicU64::new(0),
            told: ToldList::new(rt, alloc),
        })
    }

    /// Returns the time since the gate was made.
    fn now(&self) -> u64 {
        let now = self.rt.monotonic().unwrap_or(self.begin);
        let elapsed = now.saturating_sub(self.begin);
        u64::try_from(elapsed.as_micros()).unwrap_or(u64::MAX)
    }

    /// Returns the time since a worker's last call, and sets the time of that call to `now`.
    fn come(&self, worker: u32, now: u64) -> u64 {
        match self.latest.get(worker as usize) {
            Some(time) => now.saturating_sub(time.swap(now, Ordering::SeqCst)),
            None => 0,
        }
    }

    /// Sets the times of all workers.
    fn begin_at(&self, now: u64) {
        for time in self.latest.as_slice() {
            time.store(now, Ordering::SeqCst);
        }
    }

    /// Adds a line for each record, and one with the number of searches and the time since the gate
    /// was made.
    pub fn put(&self, out: &mut String) -> Result<(), Unanswered> {
        self.told.put(out)?;
        let nets = self.nets.load(Ordering::SeqCst);
        added(writeln!(out, "gate: {nets} searches in {} us", self.now()))
    }
}

/// The calls of the gate.
impl<R: Wait + Clock> Timing<'_, R> {
    pub fn opened(&self) {
        let now = self.now();
        self.begin_at(now);
        self.opened.store(now, Ordering::SeqCst);
        self.last.store(now, Ordering::SeqCst);
        self.searches.store(0, Ordering::SeqCst);
        self.turns.store(0, Ordering::SeqCst);
    }

    pub fn between(&self, worker: u32) {
        let time = self.come(worker, self.now());
        self.turns.fetch_add(time, Ordering::SeqCst);
    }

    pub fn searched(&self, worker: u32) {
        let now = self.now();
        let time = self.come(worker, now);
        self.searches.fetch_add(time, Ordering::SeqCst);
        self.nets.fetch_add(1, Ordering::SeqCst);
        self.last.fetch_max(now, Ordering::SeqCst);
    }

    pub fn closed(&self, iteration: u32) {
        let now = self.now();
        self.told.add(Told::Iteration(IterationTimes {
            iteration,
            all: now.saturating_sub(self.opened.load(Ordering::SeqCst)),
            searches: self.searches.load(Ordering::SeqCst),
            turns: self.turns.load(Ordering::SeqCst),
            end: now.saturating_sub(self.last.load(Ordering::SeqCst)),
        }));
    }

    pub fn tries(&self) {
        self.tried.store(self.now(), Ordering::SeqCst);
    }

    pub fn tried(&self, width: u32) {
        let began = self.tried.load(Ordering::SeqCst);
        self.told.add(Told::Trial(ToldTrial::Took {
            width,
            all: self.now().saturating_sub(began),
        }));
    }
}
