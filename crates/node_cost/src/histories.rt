//! The history of each node.

ghost use Rattle.std.specs.Prelude.{◌≡◌, ℕ, ◌≤◌, ◌<◌, ◌+◌, ◌*◌, ◌/◌, ◌^◌, All, min, length, get_or, set, replicate, IfOk, IsTrue, ◌↔◌};
ghost use Rattle.node_cost.specs.kept.Noted.{IsNoted};

use crate::entry_cost::GREATEST_HISTORY;
use crate::packed::{is_blank, put_narrow};
use std::alloc::{AllocError, Global};
use std::marker::Model;

/// The history of each node, which its overuse so far adds to its base cost. Contracts see the list
/// of histories.
#[derive(Debug, Drop)]
pub struct Histories {
    histories: Vec<u64>,
    /// Four bits a node: a flag that says whether its history is above 0, and no number.
    some: Vec<u64>,
}

impl Model for Histories {
    ghost use Rattle.std.specs.Prelude.{List, ℕ};
    ghost use Rattle.node_cost.specs.kept.Noted.{AreHistories};

    ghost Value = { List ℕ };

    ghost view = { λ h. h.histories.items };

    ghost invariant = { λ h. AreHistories h.histories.items h.some.items };
}

/// Returns the four bits of a node with a history.
fn note_of(history: u64) -> u64
    ensures { result ≡ 8 * min history 1 }
{
    8 * history.min(1)
}

impl Histories {
    /// Makes histories of 0 for so many nodes.
    pub fn new(alloc: Global, nodes: usize) -> Result<Histories, AllocError>
        ensures { IfOk result (λ h. h ≡ replicate nodes 0) }
    {
        let histories = vec![in alloc; 0; nodes]?;
        let some = vec![in alloc; 0; nodes / 16 + 1]?;
        Ok(Histories { histories, some })
    }

    /// Returns a copy.
    pub fn copy(&self, alloc: Global) -> Result<Histories, AllocError>
        ensures { IfOk result (λ h. h ≡ self.now) }
    {
        let histories = Vec::from_slice(alloc, &self.histories)?;
        let some = Vec::from_slice(alloc, &self.some)?;
        Ok(Histories { histories, some })
    }

    /// Returns the count of nodes.
    pub fn len(&self) -> usize
        ensures count { result ≡ length self.now }
        ensures bounded { (id : ℕ) → get_or self.now id 0 ≤ GREATEST_HISTORY }
    {
        self.histories.len()
    }

    /// Returns the list of histories.
    #[inline(always)]
    pub(crate) fn values(&self) -> &[u64]
        ensures values { result.now ≡ self.now }
        ensures bounded { All (λ k. k ≤ 2 ^ 42) result.now }
    {
        &self.histories
    }

    /// Returns words with a flag for each node: whether its history is above 0.
    pub(crate) fn flags(&self) -> &[u64]
        ensures each { length result.now ≡ length self.now / 16 + 1 }
        ensures noted { IsNoted self.now result.now }
    {
        &self.some
    }

    /// Returns whether a node's history is 0.
    pub fn is_none(&self, id: u32) -> bool
        requires { id < length self.now }
        ensures { IsTrue result ↔ (get_or self.now id 0 ≡ 0) }
    {
        is_blank(&self.some, id)
    }

    /// Returns the history of a node.
    pub fn get(&self, id: u32) -> u64
        requires { id < length self.now }
        ensures exact { result ≡ get_or self.now id 0 }
        ensures bounded { result ≤ GREATEST_HISTORY }
    {
        self.histories[id as usize]
    }

    /// Sets the history of a node.
    #[tactic(auto, using(crate::proofs::Noting::noted_set))]
    pub fn set(&mut self, id: u32, history: u64)
        requires there { id < length self.old }
        requires bounded { history ≤ GREATEST_HISTORY }
        ensures { self.new ≡ set self.old id history }
    {
        put_narrow(&mut self.some, id, note_of(history));
        self.histories[id as usize] = history;
    }

    /// Copies the histories of as many nodes.
    pub fn copy_from(&mut self, other: &Histories)
        requires { length self.old ≡ length other.now }
        ensures { self.new ≡ other.now }
    {
        self.histories.copy_from_slice(&other.histories);
        self.some.copy_from_slice(&other.some);
    }
}
