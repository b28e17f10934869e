//! How many nets a worker draws at once.

use route_tree::Tree;
use std::alloc::{AllocError, Global};

/// The greatest number of nets that are drawn at once.
const MOST_NETS: u32 = 64;

/// The number of draws in a worker's even share of the work.
const DRAWS: u64 = 4;

/// The work that is worth a thread. Searching for this many rows takes several times as long as
/// starting one.
const WORK_OF_THREAD: u64 = 400;

/// The number of workers that get a thread however little work there is.
const LEAST_THREADS: usize = 4;

/// The work for all nets up to each one. The work for a net is the number of rows of its tree,
/// which the last search for it made.
#[derive(Drop)]
pub(crate) struct Portions {
    sums: Vec<u64>,
    /// The number of parts into which a draw divides the work that is left.
    parts: u64,
}

/// Returns the work for a net with this tree.
fn work_of(tree: &Option<Tree>) -> u64 {
    match tree {
        Some(tree) => tree.as_slice().len() as u64,
        None => 1,
    }
}

impl Portions {
    /// Returns the portions of the nets with these trees, if this many workers draw them.
    pub(crate) fn new(
        alloc: Global,
        trees: &[Option<Tree>],
        workers: u32,
    ) -> Result<Portions, AllocError> {
        let mut sums = Vec::with_capacity(alloc, trees.len())?;
        let mut sum: u64 = 0;
        for tree in trees {
            sum = sum.saturating_add(work_of(tree));
            sums.push(sum)?;
        }
        Ok(Portions {
            sums,
            parts: DRAWS.saturating_mul(u64::from(workers)).max(1),
        })
    }

    /// Returns portions of single nets.
    pub(crate) fn single(alloc: Global) -> Portions {
        Portions {
            sums: Vec::new(alloc),
            parts: 1,
        }
    }

    /// Returns how many of this many workers are worth their threads: all if the work isn't known,
    /// and at least four.
    pub(crate) fn busy_workers(&self, workers: usize) -> usize {
        match self.sums.last() {
            None => workers,
            Some(all) => workers.min(LEAST_THREADS.max((*all / WORK_OF_THREAD) as usize)),
        }
    }

    /// Returns how many nets are drawn at once, from this one on: a part of the work that is left,
    /// but at least one net.
    pub(crate) fn count(&self, net: u32) -> u32 {
        let before = net
            .checked_sub(1)
            .and_then(|last| self.sums.get(last as usize));
        let done = before.copied().unwrap_or(0);
        let all = self.sums.last().copied().unwrap_or(done);
        let part = all
            .saturating_sub(done)
            .checked_div(self.parts)
            .unwrap_or(0);
        let end = done.saturating_add(part);
        let rest = self.sums.iter().skip(net as usize).take(MOST_NETS as usize);
        let whole = rest.take_while(|sum| **sum <= end).count();
        (whole as u32).max(1)
    }
}
