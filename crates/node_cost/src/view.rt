//! The view of a net: the occupancies by other nets, and the histories.

ghost use Rattle.std.specs.Prelude.{◌≡◌, ℕ, ◌≤◌, ◌<◌, ◌+◌, ◌-◌, get_or, length, set, replicate, IfOk, IsTrue, ◌↔◌};
ghost use Rattle.std.specs.List.{zip};
ghost use Rattle.std.specs.Arc.{arc_value};
ghost use Rattle.node_cost.specs.Views.{others_in, history_in};

use crate::counts::Counts;
use crate::entry_cost::{GREATEST_HISTORY, GREATEST_OTHERS};
use crate::histories::Histories;
use crate::packed::{count, is_blank, narrow, put_count, put_flag};
use crate::shared::SharedHistories;
use std::alloc::{AllocError, Global};
use std::marker::Model;
use std::sync::Arc;

/// The view of a net: for each node, how many other nets use it, and its history. Contracts see the
/// list of these pairs.
#[derive(Drop)]
pub struct View {
    /// Four bits a node: three for the number of nets, or 7 if the table has the number; and a flag
    /// that says whether the history is above 0.
    words: Vec<u64>,
    /// A table of all nodes, for numbers above 6.
    wide: Vec<u16>,
    /// The blocks of 1,024 nodes in which a node had its number in the table.
    marks: Vec<bool>,
    histories: SharedHistories,
}

impl Model for View {
    ghost use Rattle.std.specs.Prelude.{List, ℕ};

    ghost Value = { List (ℕ × ℕ) };

    ghost use Rattle.node_cost.specs.kept.Fields.{seen_by, AreSeen};

    ghost view = { seen_by };

    ghost invariant = { λ v. AreSeen v.words.items v.wide.items v.marks.items v.histories };
}

/// A borrowed view, with references to its tables. Contracts see the list of the same pairs.
#[derive(Drop)]
pub struct BorrowedView<'a> {
    words: &'a [u64],
    wide: &'a [u16],
    histories: &'a [u64],
}

impl<'a> Model for BorrowedView<'a> {
    ghost use Rattle.std.specs.Prelude.{List, ℕ};

    ghost Value = { List (ℕ × ℕ) };

    ghost use Rattle.node_cost.specs.kept.Fields.{lent_by, IsLent};

    ghost view = { lent_by };

    ghost invariant = { IsLent };
}

impl<'a> BorrowedView<'a> {
    /// Returns how many other nets use a node.
    #[inline(always)]
    #[tactic(auto, using(crate::proofs::Packing::length_counts, crate::proofs::Packing::count_is, crate::proofs::Views::length_seen, crate::proofs::Views::others_at))]
    pub fn others(&self, id: u32) -> u32
        requires { id < length self.now }
        ensures exact { result ≡ others_in self.now id }
        ensures bounded { result ≤ GREATEST_OTHERS }
    {
        count(self.words, self.wide, id)
    }

    /// Returns the history of a node.
    #[inline(always)]
    #[tactic(auto, using(crate::proofs::Packing::length_counts, crate::proofs::Views::length_seen, crate::proofs::Views::history_at))]
    pub fn history(&self, id: u32) -> u64
        requires { id < length self.now }
        ensures exact { result ≡ history_in self.now id }
        ensures bounded { result ≤ GREATEST_HISTORY }
    {
        if narrow(self.words, id) < 8 {
            return 0;
        }
        self.histories[id as usize]
    }

    /// Returns whether no other net uses a node and its history is 0.
    #[inline(always)]
    pub fn is_free(&self, id: u32) -> bool
        requires { id < length self.now }
        ensures { IsTrue result ↔
            ((others_in self.now id ≡ 0) × (history_in self.now id ≡ 0)) }
    {
        is_blank(self.words, id)
    }
}

impl View {
    /// Makes a view of nodes that no other net uses and that have no history.
    #[tactic(auto, using(crate::proofs::Views::none_seen))]
    pub fn new(alloc: Global, nodes: usize) -> Result<View, AllocError>
        ensures { IfOk result (λ v. v ≡ replicate nodes (0, 0)) }
    {
        let counts = Counts::new(alloc, nodes)?;
        let histories = SharedHistories::new(alloc, nodes)?;
        Ok(View::of_counts(counts, histories))
    }

    /// Makes a view of counts, if no node has a history.
    fn of_counts(counts: Counts, histories: SharedHistories) -> View
        requires size { length histories ≡ length counts }
        requires none { (id : ℕ) → get_or histories id 0 ≡ 0 }
        ensures { result ≡ zip counts histories }
    {
        let (words, wide, marks) = counts.into_parts();
        View {
            words,
            wide,
            marks,
            histories,
        }
    }

    /// Returns the count of nodes.
    #[tactic(auto, using(crate::proofs::Packing::length_counts, crate::proofs::Views::length_seen, crate::proofs::Views::others_at, crate::proofs::Views::history_at))]
    pub fn len(&self) -> usize
        ensures count { result ≡ length self.now }
        ensures others { (id : ℕ) → others_in self.now id ≤ GREATEST_OTHERS }
        ensures histories { (id : ℕ) → history_in self.now id ≤ GREATEST_HISTORY }
    {
        let _bounded = self.histories.len();
        self.wide.len()
    }

    /// Borrows the view with references to its tables, for many look-ups.
    #[inline(always)]
    pub fn borrowed(&self) -> BorrowedView<'_>
        ensures { result ≡ self.now }
    {
        BorrowedView {
            words: &self.words,
            wide: &self.wide,
            histories: self.histories.values(),
        }
    }

    /// Returns how many other nets use a node.
    pub fn others(&self, id: u32) -> u32
        requires { id < length self.now }
        ensures exact { result ≡ others_in self.now id }
        ensures bounded { result ≤ GREATEST_OTHERS }
    {
        self.borrowed().others(id)
    }

    /// Returns the history of a node.
    pub fn history(&self, id: u32) -> u64
        requires { id < length self.now }
        ensures exact { result ≡ history_in self.now id }
        ensures bounded { result ≤ GREATEST_HISTORY }
    {
        self.borrowed().history(id)
    }

    /// Returns whether no other net uses a node and its history is 0.
    pub fn is_free(&self, id: u32) -> bool
        requires { id < length self.now }
        ensures { IsTrue result ↔
            ((others_in self.now id ≡ 0) × (history_in self.now id ≡ 0)) }
    {
        self.borrowed().is_free(id)
    }

    /// Sets how many other nets use a node, and its history.
    #[tactic(auto, using(crate::proofs::Views::length_seen, crate::proofs::Views::seen_set))]
    pub fn set(&mut self, id: u32, others: u32, history: u64)
        requires there { id < length self.old }
        requires others { others ≤ GREATEST_OTHERS }
        requires history { history ≤ GREATEST_HISTORY }
        ensures { self.new ≡ set self.old id (others, history) }
    {
        self.put_others(id, others);
        self.put_history(id, history);
    }

    /// Sets how many other nets use a node.
    #[tactic(auto, using(crate::proofs::Packing::length_counts, crate::proofs::Views::length_seen, crate::proofs::Views::left_out))]
    fn put_others(&mut self, id: u32, others: u32)
        requires there { id < length self.old }
        requires others { others ≤ GREATEST_OTHERS }
        ensures { self.new ≡ set self.old id (others, history_in self.old id) }
    {
        put_count(&mut self.words, &mut self.wide, &mut self.marks, id, others);
    }

    /// Sets the history of a node.
    fn put_history(&mut self, id: u32, history: u64)
        requires there { id < length self.old }
        requires history { history ≤ GREATEST_HISTORY }
        ensures { self.new ≡ set self.old id (others_in self.old id, history) }
    {
        put_flag(&mut self.words, id, history.min(1));
        self.histories.set(id, history);
    }

    /// Copies counts and shares histories of as many nodes.
    #[tactic(auto, using(crate::proofs::Views::length_seen))]
    pub fn look_at(&mut self, counts: &Counts, histories: &Arc<Histories, Global>)
        requires counts { length self.old ≡ length counts.now }
        requires histories { length self.old ≡ length (arc_value histories.now) }
        ensures { self.new ≡ zip counts.now (arc_value histories.now) }
    {
        counts.write_with_flags(
            &mut self.words,
            &mut self.wide,
            &mut self.marks,
            histories.flags(),
        );
        self.histories.share(histories);
    }

    /// Removes another net that uses a node.
    #[tactic(auto, using(crate::proofs::Views::length_seen, crate::proofs::Views::others_at, crate::proofs::Views::left_out))]
    pub fn leave_out(&mut self, id: u32)
        requires there { id < length self.old }
        requires used { 1 ≤ others_in self.old id }
        ensures { self.new ≡ set self.old id (others_in self.old id - 1, history_in self.old id) }
    {
        self.put_others(id, self.others(id) - 1);
    }

    /// Adds another net that uses a node.
    #[tactic(auto, using(crate::proofs::Views::length_seen, crate::proofs::Views::others_at, crate::proofs::Views::left_out))]
    pub fn take_back(&mut self, id: u32)
        requires there { id < length self.old }
        requires room { others_in self.old id < GREATEST_OTHERS }
        ensures { self.new ≡ set self.old id (others_in self.old id + 1, history_in self.old id) }
    {
        self.put_others(id, self.others(id) + 1);
    }
}
