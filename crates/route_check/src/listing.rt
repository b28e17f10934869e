//! The pairs of a list, and where they end, sorted by node.

ghost use Rattle.std.specs.Prelude.{◌≡◌, ◌<◌, ◌==◌, IfOk, length, map};
ghost use Rattle.std.specs.List.Sorted.{IsNonDecreasingBy};
ghost use Rattle.routing_problem.specs.Fabric.{numbers_below};
ghost use Rattle.route_tree.specs.Faults.{reaches_twice};
ghost use Rattle.route_check.specs.kept.Ends.{AreEnds, IsRowOf, IsPlaceOf, begin_in, end_in, end_at, is_repeated};

use std::alloc::{AllocError, Global};
use std::marker::Model;

/// The node in which a pair ends, and which pair it is.
#[derive(Clone, Copy, Debug)]
pub(crate) struct End {
    pub(crate) node: u32,
    pub(crate) row: usize,
}

/// The ends of pairs, in the order of the pairs.
fn ends_in_order(alloc: Global, pairs: &[(u32, u32)]) -> Result<Vec<End>, AllocError>
    ensures { IfOk result (λ v. v.items ≡ map (end_at pairs.now)
        (numbers_below (length pairs.now))) }
{
    (0..pairs.len())
        .map(|row| End {
            node: pairs[row].1,
            row,
        })
        .collect(alloc)
}

/// The ends of pairs, by node.
fn sorted_ends(alloc: Global, pairs: &[(u32, u32)]) -> Result<Vec<End>, AllocError>
    ensures { IfOk result (λ v. AreEnds pairs.now v.items) }
{
    let mut ends = ends_in_order(alloc, pairs)?;
    ends.sort_unstable_by_key(|end| end.node);
    Ok(ends)
}

/// The place of the first end that is no smaller node.
fn place_of(ends: &[End], node: u32) -> usize
    requires { IsNonDecreasingBy (λ e. e.node) ends.now }
    ensures { IsPlaceOf ends.now node result }
{
    ends.partition_point(|end| end.node < node)
}

/// Whether two adjacent ends are one node.
fn is_repeated(ends: &[End]) -> bool
    ensures { result ≡ is_repeated ends.now }
{
    for index in 0..ends.len().saturating_sub(1) {
        if ends[index].node == ends[index + 1].node {
            return true;
        }
    }
    false
}

/// The pairs of a list, with their ends by node. Contracts see it as the pairs.
#[derive(Drop)]
pub(crate) struct Listing<'a> {
    pairs: &'a [(u32, u32)],
    ends: Vec<End>,
}

impl<'a> Model for Listing<'a> {
    ghost use Rattle.std.specs.Prelude.{List};
    ghost use Rattle.route_tree.specs.Paths.{Pair};
    ghost use Rattle.route_check.specs.kept.Ends.{AreEnds};

    ghost Value = { List Pair };

    ghost view = { λ l. l.pairs.now };

    ghost invariant = { λ l. AreEnds l.pairs.now l.ends.items };
}

impl<'a> Listing<'a> {
    /// These pairs, whose ends are sorted.
    pub(crate) fn new(alloc: Global, pairs: &'a [(u32, u32)]) -> Result<Listing<'a>, AllocError>
        ensures { IfOk result (λ l. l ≡ pairs.now) }
    {
        let ends = sorted_ends(alloc, pairs)?;
        Ok(Listing { pairs, ends })
    }

    /// The pairs.
    pub(crate) fn pairs(&self) -> &'a [(u32, u32)]
        ensures { result.now ≡ self.now }
    {
        self.pairs
    }

    /// How many pairs there are.
    pub(crate) fn len(&self) -> usize
        ensures { result ≡ length self.now }
    {
        self.pairs.len()
    }

    /// Where a pair begins.
    pub(crate) fn begin(&self, row: usize) -> u32
        requires { row < length self.now }
        ensures { result ≡ begin_in self.now row }
    {
        self.pairs()[row].0
    }

    /// Where a pair ends.
    pub(crate) fn end(&self, row: usize) -> u32
        requires { row < length self.now }
        ensures { result ≡ end_in self.now row }
    {
        self.pairs()[row].1
    }

    /// The ends of the pairs, by node.
    pub(crate) fn ends(&self) -> &[End]
        ensures { AreEnds self.now result.now }
    {
        &self.ends
    }

    /// A pair that ends in the node.
    pub(crate) fn row_of(&self, node: u32) -> Option<usize>
        ensures { IsRowOf self.now node result }
    {
        let ends = self.ends();
        let place = place_of(ends, node);
        if place < ends.len() && ends[place].node == node {
            return Some(ends[place].row);
        }
        None
    }

    /// A pair that ends in the node, which is usually at this place of the ends.
    pub(crate) fn row_at(&self, place: usize, node: u32) -> Option<usize>
        ensures { IsRowOf self.now node result }
    {
        let ends = self.ends();
        if place < ends.len() && ends[place].node == node {
            return Some(ends[place].row);
        }
        self.row_of(node)
    }

    /// A pair that ends where this one begins: usually the one before.
    pub(crate) fn parent_of(&self, row: usize) -> Option<usize>
        requires { row < length self.now }
        ensures { IsRowOf self.now (begin_in self.now row) result }
    {
        let begin = self.begin(row);
        if row > 0 && self.end(row - 1) == begin {
            return Some(row - 1);
        }
        self.row_of(begin)
    }

    /// Whether two pairs end in one node, or one in the source.
    pub(crate) fn reaches_twice(&self, source: u32) -> bool
        ensures { result ≡ reaches_twice source self.now }
    {
        match self.row_of(source) {
            Some(_) => true,
            None => is_repeated(self.ends()),
        }
    }
}
