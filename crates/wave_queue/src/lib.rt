//! The queue of a search: keys, which are costs, and buckets of entries that wait.
#![tactic(auto)]

mod bits;
mod buckets;
mod keys;
mod marks;
mod queue;

pub use bits::{lowest_bit, only_bit, take_bit, with_bit};
pub use keys::Key;
pub use queue::{Queue, QueueEntry};
