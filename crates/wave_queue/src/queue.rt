//! The queue of a search: wires that wait, the lowest bucket first.

ghost use Rattle.std.specs.Prelude.{◌≡◌, ◌<◌, ◌≤◌, ◌∷◌, ◌++◌, ℕ, [], length, eqb, slice_index_or, slice_set, vec_len, OnOk, OnErr, IfOk, IfSome, IfNone};
ghost use Rattle.std.specs.List.Sorted.{IsPermutation};
ghost use Rattle.wave_queue.specs.kept.Queues.{entry_of, IsLowest, IsPast};

use crate::buckets::Buckets;
use crate::keys::{BUCKETS, Key};
use std::alloc::{AllocError, Global};
use std::marker::Model;

/// Wires of one group that wait and have the same label. Bit j of `tracks` is track j.
#[derive(Clone, Copy, Drop)]
pub struct QueueEntry<K> {
    pub key: K,
    pub label: K,
    pub group: u32,
    /// Whether the first part of their neighbours is done.
    pub is_begun: bool,
    pub tracks: u64,
}

/// Entries that wait. Contracts see a list of them; its order means nothing.
#[derive(Drop)]
pub struct Queue<K: Key> {
    /// Each entry is in the bucket of its key.
    buckets: Buckets<K>,
    /// No bucket before this one has entries.
    low: usize,
    /// No bucket from this one on has entries.
    end: usize,
    /// How many entries wait.
    count: usize,
}

impl<K: Key> Model for Queue<K> {
    ghost use Rattle.std.specs.Prelude.{List};
    ghost use Rattle.wave_queue.specs.kept.Queues.{Waiting, entries_of, IsBucketed};

    ghost Value = { List Waiting };

    ghost view = { λ q. entries_of K.value q.buckets };

    ghost invariant = { λ q. IsBucketed K.value q.buckets q.low q.end q.count };
}

impl<K: Key> Queue<K> {
    /// Makes a queue without entries.
    ///
    /// # Errors
    ///
    /// If memory runs out.
    pub fn new(alloc: Global) -> Result<Queue<K>, AllocError>
        ensures { IfOk result (λ q. q ≡ []) }
    {
        let buckets = Buckets::new(alloc)?;
        Ok(Queue {
            buckets,
            low: BUCKETS,
            end: 0,
            count: 0,
        })
    }

    /// Removes all entries and keeps their memory. Looks only at buckets that may have entries.
    pub fn clear(&mut self)
        ensures { self.new ≡ [] }
    {
        self.buckets.clear(self.low, self.end);
        self.low = BUCKETS;
        self.end = 0;
        self.count = 0;
    }

    /// Returns how many entries wait.
    pub fn len(&self) -> usize
        ensures { result ≡ length self.now }
    {
        self.count
    }

    /// Returns whether no entry waits.
    pub fn is_empty(&self) -> bool
        ensures { result ≡ eqb (length self.now) 0 }
    {
        self.count == 0
    }

    /// Adds an entry.
    ///
    /// # Errors
    ///
    /// If memory runs out, or if there are `usize::MAX` entries. The queue is then unchanged.
    #[inline(always)]
    pub fn push(&mut self, entry: QueueEntry<K>) -> Result<(), AllocError>
        ensures ok { OnOk result
            (IsPermutation (entry_of K.value entry ∷ self.old) self.new) }
        ensures err { OnErr result (self.new ≡ self.old) }
    {
        if self.count == usize::MAX {
            return Err(AllocError);
        }
        let at = entry.key.bucket();
        self.buckets.make_room(at)?;
        self.buckets.put(at, entry)?;
        self.low = self.low.min(at);
        self.end = self.end.max(at + 1);
        self.count += 1;
        Ok(())
    }

    /// Removes an entry of the lowest bucket, unless that is above the bucket of a bound.
    pub fn pop_to(&mut self, bound: K) -> Option<QueueEntry<K>>
        ensures some { IfSome result
            (λ e. IsPermutation self.old (entry_of K.value e ∷ self.new)) }
        ensures lowest { IfSome result
            (λ e. IsLowest self.old (K.value e.key) (K.value bound)) }
        ensures none { IfNone result (IsPast self.old self.new (K.value bound)) }
    {
        let end = self.end.min(bound.bucket() + 1);
        self.low = self.buckets.first_used(self.low, end);
        if end <= self.low {
            return None;
        }
        let entry = self.buckets.take_from(self.low);
        self.count -= 1;
        Some(entry)
    }
}
