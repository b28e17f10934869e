//! A gate that delays workers at random, and records or repeats what they do.

use congestion_book::Book;
use net_workers::{Gate, Schedule, ScheduledTurn};
use std::alloc::{AllocError, Global};
use std::hint;
use std::sync::atomic::{AtomicU64, Ordering};
use std::sync::{Mutex, Wait};

/// The longest delay of a worker, in rounds of a loop.
const MOST_DELAY: u64 = 20_000;

/// The figures of an iteration's book at its close.
#[derive(Clone, Copy, Debug, PartialEq, Eq)]
pub struct Figures {
    pub unrouted: u32,
    pub overused: u32,
    pub wirelength: u64,
}

/// The turns of an iteration, and the figures of its book at its close.
#[derive(Drop)]
pub struct NotedIteration {
    turns: Vec<ScheduledTurn>,
    figures: Option<Figures>,
}

/// The turns that workers have to make, iteration by iteration, and whether one thread makes them.
#[derive(Clone, Copy)]
pub struct Course<'a> {
    pub iterations: &'a [NotedIteration],
    pub is_alone: bool,
}

/// Delays each worker before and after each search, by a sequence that follows from a seed. Records
/// the turns and figures of each iteration. If there is a course, the workers make its turns.
#[derive(Drop)]
pub struct Delaying<'a, R: Wait> {
    rt: &'a R,
    alloc: Global,
    state: AtomicU64,
    course: Option<Course<'a>>,
    noted: Mutex<Vec<NotedIteration>>,
}

/// Returns a number that follows from another one, as if it were drawn at random (the finalizer of
/// SplitMix64).
fn mixed(number: u64) -> u64 {
    let first = (number ^ (number >> 30)).wrapping_mul(0xbf58_476d_1ce4_e5b9);
    let second = (first ^ (first >> 27)).wrapping_mul(0x94d0_49bb_1331_11eb);
    second ^ (second >> 31)
}

impl<'a, R: Wait> Delaying<'a, R> {
    /// Returns a gate with a seed, which follows this course if there is one.
    pub fn new(rt: &'a R, alloc: Global, seed: u32, course: Option<Course<'a>>) -> Delaying<'a, R> {
        Delaying {
            rt,
            alloc,
            state: AtomicU64::new(u64::from(seed)),
            course,
            noted: Mutex::new(Vec::new(alloc)),
        }
    }

    /// Delays the worker that calls.
    fn delay(&self) {
        let drawn = self
            .state
            .fetch_add(0x9e37_79b9_7f4a_7c15, Ordering::SeqCst);
        for _ in 0..mixed(drawn) % MOST_DELAY {
            hint::spin_loop();
        }
    }

    /// Records the turns of an iteration.
    fn note(&self, turns: &[ScheduledTurn]) -> Result<(), AllocError> {
        let turns = Vec::from_slice(self.alloc, turns)?;
        let mut noted = self.noted.lock(self.rt);
        noted.push(NotedIteration {
            turns,
            figures: None,
        })?;
        Ok(())
    }

    /// Returns what it recorded, iteration by iteration.
    pub fn into_noted(self) -> Vec<NotedIteration> {
        let Delaying { noted, .. } = self;
        noted.into_inner()
    }
}

/// Returns whether two lists of iterations have the same turns and figures.
pub fn are_same(some: &[NotedIteration], others: &[NotedIteration]) -> bool {
    let mut both = some.iter().zip(others.iter());
    some.len() == others.len()
        && both.all(|(one, other)| {
            one.figures == other.figures && one.turns.as_slice() == other.turns.as_slice()
        })
}

impl<R: Wait> Gate for Delaying<'_, R> {
    ghost accepted = { λ gate k turns. Unit {0} };

    fn schedule(&self, iteration: u32) -> Option<Schedule<'_>> {
        let course = self.course?;
        let noted = course.iterations.get(iteration.saturating_sub(1) as usize);
        Some(Schedule {
            turns: noted.map_or(&[], |noted| noted.turns.as_slice()),
            is_alone: course.is_alone,
        })
    }

    fn between(&self, _worker: u32, _net: u32) {
        self.delay();
    }

    fn searched(&self, _worker: u32, _net: u32) {
        self.delay();
    }

    fn accepts(&self, _iteration: u32, turns: &[ScheduledTurn]) -> bool {
        self.note(turns).is_ok()
    }

    fn closed(&self, _iteration: u32, book: &Book) {
        let figures = Figures {
            unrouted: book.unrouted(),
            overused: book.overused(),
            wirelength: book.wirelength(),
        };
        if let Some(last) = self.noted.lock(self.rt).last_mut() {
            last.figures = Some(figures);
        }
    }
}
