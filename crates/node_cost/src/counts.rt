//! How many nets use each node.

ghost use Rattle.std.specs.Prelude.{◌≡◌, ℕ, ◌≤◌, ◌<◌, ◌+◌, ◌-◌, ◌/◌, All, length, get_or, set, replicate, IfOk};
ghost use Rattle.node_cost.specs.kept.Packed.{AreFlags, IsFull, IsMarked, IsPacked, counts_of, flag_of};

use crate::packed::{copy_counts, copy_with_flags, count, put_count};
use std::alloc::{AllocError, Global};
use std::marker::Model;

/// How many nets use each node. Contracts see the list of these numbers.
#[derive(Debug, Drop)]
pub struct Counts {
    /// Four bits a node: its number, or 7 if the table has the number.
    words: Vec<u64>,
    /// A table of all nodes, for numbers above 6.
    wide: Vec<u16>,
    /// The blocks of 1,024 nodes in which a node had its number in the table.
    marks: Vec<bool>,
}

impl Model for Counts {
    ghost use Rattle.std.specs.Prelude.{List, ℕ};
    ghost use Rattle.node_cost.specs.kept.Packed.{counts_of, IsPacked};

    ghost Value = { List ℕ };

    ghost view = { λ c. counts_of c.words.items c.wide.items };

    ghost invariant = { λ c. IsPacked c.words.items c.wide.items c.marks.items };
}

impl Counts {
    /// Makes counts of 0 for so many nodes.
    #[tactic(auto, using(crate::proofs::Packing::none_counted, crate::proofs::Packing::none_packed))]
    pub fn new(alloc: Global, nodes: usize) -> Result<Counts, AllocError>
        ensures { IfOk result (λ c. c ≡ replicate nodes 0) }
    {
        let words = vec![in alloc; 0; nodes / 16 + 1]?;
        let wide = vec![in alloc; 0; nodes]?;
        let marks = vec![in alloc; false; nodes / 1024 + 1]?;
        Ok(Counts { words, wide, marks })
    }

    /// Returns the count of nodes.
    #[tactic(auto, using(crate::proofs::Packing::length_counts))]
    pub fn len(&self) -> usize
        ensures count { result ≡ length self.now }
        ensures bounded { (id : ℕ) → get_or self.now id 0 ≤ 65535 }
    {
        self.wide.len()
    }

    /// Returns how many nets use a node.
    #[inline(always)]
    #[tactic(auto, using(crate::proofs::Packing::length_counts, crate::proofs::Packing::count_is))]
    pub fn get(&self, id: u32) -> u32
        requires { id < length self.now }
        ensures exact { result ≡ get_or self.now id 0 }
        ensures bounded { result ≤ 65535 }
    {
        count(&self.words, &self.wide, id)
    }

    /// Sets how many nets use a node.
    #[tactic(auto, using(crate::proofs::Packing::length_counts))]
    pub fn set(&mut self, id: u32, count: u32)
        requires there { id < length self.old }
        requires bounded { count ≤ 65535 }
        ensures { self.new ≡ set self.old id count }
    {
        put_count(&mut self.words, &mut self.wide, &mut self.marks, id, count);
    }

    /// Adds a net that uses a node.
    pub fn add_one(&mut self, id: u32)
        requires there { id < length self.old }
        requires bounded { get_or self.old id 0 < 65535 }
        ensures { self.new ≡ set self.old id (get_or self.old id 0 + 1) }
    {
        self.set(id, self.get(id) + 1);
    }

    /// Removes a net that uses a node.
    pub fn take_one(&mut self, id: u32)
        requires there { id < length self.old }
        requires used { 1 ≤ get_or self.old id 0 }
        ensures { self.new ≡ set self.old id (get_or self.old id 0 - 1) }
    {
        self.set(id, self.get(id) - 1);
    }

    /// Copies the counts of as many nodes.
    #[tactic(auto, using(crate::proofs::Packing::length_counts))]
    pub fn copy_from(&mut self, other: &Counts)
        requires { length self.old ≡ length other.now }
        ensures { self.new ≡ other.now }
    {
        copy_counts(
            &mut self.words,
            &mut self.wide,
            &other.words,
            &other.wide,
            &other.marks,
        );
        self.marks.copy_from_slice(&other.marks);
    }

    /// Writes the counts as packed counts of as many nodes, with flags.
    #[tactic(auto, using(crate::proofs::Packing::length_counts))]
    pub(crate) fn write_with_flags(
        &self,
        words: &mut [u64],
        wide: &mut [u16],
        marks: &mut [bool],
        flags: &[u64],
    )
        requires wide { length wide.old ≡ length self.now }
        requires words { length words.old ≡ length self.now / 16 + 1 }
        requires marks { length marks.old ≡ length self.now / 1024 + 1 }
        requires flags { length flags.now ≡ length self.now / 16 + 1 }
        requires only { AreFlags flags.now }
        ensures counts { counts_of words.new wide.new ≡ self.now }
        ensures bounded { All (λ n. n ≤ 65535) self.now }
        ensures marked { IsMarked words.new marks.new }
        ensures full { IsFull words.new wide.new }
        ensures flags { (id : ℕ) → flag_of words.new id ≡ flag_of flags.now id }
    {
        copy_with_flags(words, wide, &self.words, &self.wide, &self.marks, flags);
        marks.copy_from_slice(&self.marks);
    }

    /// Returns the packed counts: words, table and marks.
    pub(crate) fn into_parts(self) -> (Vec<u64>, Vec<u16>, Vec<bool>)
        ensures counts { counts_of result.0.items result.1.items ≡ self }
        ensures packed { IsPacked result.0.items result.1.items result.2.items }
    {
        let Counts { words, wide, marks } = self;
        (words, wide, marks)
    }
}
