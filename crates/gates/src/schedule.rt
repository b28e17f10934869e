//! Which worker makes which turn of an iteration, and what it sees.

/// A turn: the worker that makes it, its net, and how many turns of the iteration the worker has
/// seen when it searches.
#[derive(Clone, Copy, Debug, PartialEq, Eq)]
pub struct ScheduledTurn {
    pub worker: u32,
    pub net: u32,
    pub seen: u64,
}

/// The turns of an iteration, in the order in which they are made.
#[derive(Clone, Copy, Debug)]
pub struct Schedule<'a> {
    pub turns: &'a [ScheduledTurn],
    /// Whether one thread makes them all, and not a thread for each worker.
    pub is_alone: bool,
}
