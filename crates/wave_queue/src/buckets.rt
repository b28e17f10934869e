//! Buckets of entries that wait.

ghost use Rattle.std.specs.Prelude.{◌≡◌, ◌<◌, ◌≤◌, ◌+◌, ◌∷◌, ◌++◌, ℕ, [], length, max, eqb, slice_index_or, slice_set, vec_len, OnOk, OnErr, IfOk};
ghost use Rattle.wave_queue.specs.kept.Buckets.{most_buckets};

use crate::keys::BUCKETS;
use crate::marks::{first_marked, mark, unmark};
use crate::queue::QueueEntry;
use std::alloc::{AllocError, Global};
use std::marker::Model;

/// The entries of one bucket. Contracts see a list of them.
#[derive(Drop)]
struct Bucket<K> {
    entries: Vec<QueueEntry<K>>,
}

impl<K> Model for Bucket<K> {
    ghost use Rattle.std.specs.Prelude.{List};
    ghost use Rattle.wave_queue.specs.declared.queue.QueueEntry.{QueueEntry};

    ghost Value = { List (QueueEntry K) };

    ghost view = { λ b. b.entries.items };
}

impl<K: Copy + Drop> Bucket<K> {
    /// Makes a bucket without entries.
    fn new(alloc: Global) -> Bucket<K>
        ensures { result ≡ [] }
    {
        Bucket {
            entries: Vec::new(alloc),
        }
    }

    /// Adds an entry at the end. An `Err` changes nothing.
    #[inline(always)]
    fn push(&mut self, entry: QueueEntry<K>) -> Result<(), AllocError>
        ensures ok { OnOk result (self.new ≡ self.old ++ entry ∷ []) }
        ensures err { OnErr result (self.new ≡ self.old) }
    {
        self.entries.push(entry)?;
        Ok(())
    }

    /// Removes the last entry and returns it.
    fn take_last(&mut self) -> QueueEntry<K>
        requires { 0 < length self.old }
        ensures { self.old ≡ self.new ++ result ∷ [] }
    {
        self.entries.pop().unwrap()
    }

    /// Removes all entries and keeps their memory.
    fn clear(&mut self)
        ensures { self.new ≡ [] }
    {
        self.entries.clear();
    }

    /// Returns whether the bucket has no entries.
    fn is_empty(&self) -> bool
        ensures { result ≡ eqb (length self.now) 0 }
    {
        self.entries.is_empty()
    }
}

/// Adds buckets without entries until there is one at a place.
#[inline(never)]
fn add_buckets<K: Copy + Drop>(
    alloc: Global,
    buckets: &mut Vec<Bucket<K>>,
    at: usize,
) -> Result<(), AllocError>
    ensures room { OnOk result (at < length buckets.new.items) }
    ensures few { length buckets.new.items ≤ max (length buckets.old.items) (at + 1) }
    ensures more { length buckets.old.items ≤ length buckets.new.items }
    ensures same { (i : ℕ) →
        slice_index_or buckets.new.items i [] ≡ slice_index_or buckets.old.items i [] }
{
    while buckets.len() <= at {
        buckets.push(Bucket::new(alloc))?;
    }
    Ok(())
}

/// Adds an entry to a bucket. An `Err` changes nothing.
#[inline(always)]
fn put<K: Copy + Drop>(
    buckets: &mut Vec<Bucket<K>>,
    at: usize,
    entry: QueueEntry<K>,
) -> Result<(), AllocError>
    requires { at < vec_len buckets.old }
    ensures ok { OnOk result (buckets.new.items ≡ slice_set buckets.old.items at
        (slice_index_or buckets.old.items at [] ++ entry ∷ [])) }
    ensures err { OnErr result (buckets.new.items ≡ buckets.old.items) }
{
    buckets[at].push(entry)?;
    Ok(())
}

/// Removes the last entry of a bucket and returns it.
fn take_from<K: Copy + Drop>(buckets: &mut Vec<Bucket<K>>, at: usize) -> QueueEntry<K>
    requires within { at < vec_len buckets.old }
    requires used { 0 < length (slice_index_or buckets.old.items at []) }
    ensures count { length buckets.new.items ≡ length buckets.old.items }
    ensures taken { buckets.old.items ≡ slice_set buckets.new.items at
        (slice_index_or buckets.new.items at [] ++ result ∷ []) }
{
    buckets[at].take_last()
}

/// The buckets that were needed so far, and a bit for each: whether it has entries. Contracts see a
/// list of lists.
#[derive(Drop)]
pub(crate) struct Buckets<K> {
    rows: Vec<Bucket<K>>,
    used: Vec<u64>,
    alloc: Global,
}

impl<K> Model for Buckets<K> {
    ghost use Rattle.std.specs.Prelude.{List};
    ghost use Rattle.wave_queue.specs.declared.queue.QueueEntry.{QueueEntry};
    ghost use Rattle.wave_queue.specs.kept.Marks.{AreUsed};

    ghost Value = { List (List (QueueEntry K)) };

    ghost view = { λ b. b.rows.items };

    ghost invariant = { λ b. AreUsed b.rows.items b.used.items };
}

impl<K: Copy + Drop> Buckets<K> {
    /// Makes a list without buckets.
    pub(crate) fn new(alloc: Global) -> Result<Buckets<K>, AllocError>
        ensures { IfOk result (λ b. b ≡ []) }
    {
        let used = vec![in alloc; 0; BUCKETS / 64 + 1]?;
        Ok(Buckets {
            rows: Vec::new(alloc),
            used,
            alloc,
        })
    }

    /// Adds buckets without entries until there is one at a place.
    #[inline(always)]
    pub(crate) fn make_room(&mut self, at: usize) -> Result<(), AllocError>
        requires { at < most_buckets }
        ensures room { OnOk result (at < length self.new) }
        ensures more { length self.old ≤ length self.new }
        ensures same { (i : ℕ) → slice_index_or self.new i [] ≡ slice_index_or self.old i [] }
    {
        if at < self.rows.len() {
            return Ok(());
        }
        add_buckets(self.alloc, &mut self.rows, at)
    }

    /// Returns the first place from `low` on whose bucket has entries. If there is none before
    /// `end`, the result is not before `end`.
    pub(crate) fn first_used(&self, low: usize, end: usize) -> usize
        requires { end ≤ length self.now }
        ensures from { low ≤ result }
        ensures empty { (i : ℕ) → low ≤ i → i < result → slice_index_or self.now i [] ≡ [] }
        ensures used { result < end → 0 < length (slice_index_or self.now result []) }
    {
        first_marked(&self.used, low, end)
    }

    /// Removes all entries of a bucket.
    fn empty_at(&mut self, at: usize)
        requires { at < length self.old }
        ensures { self.new ≡ slice_set self.old at [] }
    {
        self.rows[at].clear();
        unmark(&mut self.used, at);
    }

    /// Removes all entries of the buckets from `low` on and before `end`.
    pub(crate) fn clear(&mut self, low: usize, end: usize)
        requires { end ≤ length self.old }
        ensures empty { (i : ℕ) → low ≤ i → i < end → slice_index_or self.new i [] ≡ [] }
        ensures kept { (i : ℕ) → slice_index_or self.old i [] ≡ []
            → slice_index_or self.new i [] ≡ [] }
    {
        let mut at = self.first_used(low, end);
        while at < end {
            self.empty_at(at);
            at = self.first_used(at + 1, end);
        }
    }

    /// Adds an entry to a bucket. An `Err` changes nothing.
    #[inline(always)]
    pub(crate) fn put(&mut self, at: usize, entry: QueueEntry<K>) -> Result<(), AllocError>
        requires { at < length self.old }
        ensures ok { OnOk result (self.new ≡ slice_set self.old at
            (slice_index_or self.old at [] ++ entry ∷ [])) }
        ensures err { OnErr result (self.new ≡ self.old) }
    {
        put(&mut self.rows, at, entry)?;
        mark(&mut self.used, at);
        Ok(())
    }

    /// Removes the last entry of a bucket and returns it.
    pub(crate) fn take_from(&mut self, at: usize) -> QueueEntry<K>
        requires within { at < length self.old }
        requires used { 0 < length (slice_index_or self.old at []) }
        ensures count { length self.new ≡ length self.old }
        ensures taken { self.old ≡ slice_set self.new at
            (slice_index_or self.new at [] ++ result ∷ []) }
    {
        let entry = take_from(&mut self.rows, at);
        if self.rows[at].is_empty() {
            unmark(&mut self.used, at);
        }
        entry
    }
}
