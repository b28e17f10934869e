//! The steps of a net's list, and its sinks, with an index of both.

ghost use Rattle.std.specs.Prelude.{◌≡◌, length};
ghost use Rattle.route_tree.specs.Legality.{is_among};
ghost use Rattle.route_explain.specs.Steps.{begins_at, ends_at, ends_before, pair_at};
ghost use Rattle.route_explain.specs.kept.Places.{IsIndex};

use crate::index::NetIndex;
use crate::steps::pair_at;
use std::marker::Model;

/// The steps of a net's list, and its sinks. Contracts see these two.
#[derive(Drop)]
pub(crate) struct IndexedList<'a> {
    sinks: &'a [u32],
    pairs: &'a [(u32, u32)],
    index: &'a NetIndex,
}

impl<'a> Model for IndexedList<'a> {
    ghost use Rattle.route_explain.specs.kept.Places.{IsIndex, NetSteps};

    ghost Value = { NetSteps };

    ghost view = { λ l. record { sinks = l.sinks.now; pairs = l.pairs.now } };

    ghost invariant = { λ l. IsIndex l.sinks.now l.pairs.now l.index.now };
}

impl<'a> IndexedList<'a> {
    /// Returns the list of these steps for a net with these sinks. The index is of both.
    pub(crate) fn new(
        sinks: &'a [u32],
        pairs: &'a [(u32, u32)],
        index: &'a NetIndex,
    ) -> IndexedList<'a>
        requires { IsIndex sinks.now pairs.now index.now }
        ensures { result ≡ record { sinks = sinks.now; pairs = pairs.now } }
    {
        IndexedList {
            sinks,
            pairs,
            index,
        }
    }

    /// Returns the sinks of the net.
    pub(crate) fn sinks(&self) -> &'a [u32]
        ensures { result.now ≡ self.now.sinks }
    {
        self.sinks
    }

    /// Returns the steps.
    pub(crate) fn pairs(&self) -> &'a [(u32, u32)]
        ensures { result.now ≡ self.now.pairs }
    {
        self.pairs
    }

    /// Returns the number of steps.
    pub(crate) fn len(&self) -> usize
        ensures { result ≡ length self.now.pairs }
    {
        self.pairs.len()
    }

    /// Returns the step at a row, or `(0, 0)` past the last one.
    pub(crate) fn pair_at(&self, row: usize) -> (u32, u32)
        ensures { result ≡ pair_at self.now.pairs row }
    {
        pair_at(self.pairs(), row)
    }

    fn index(&self) -> &'a NetIndex
        ensures { IsIndex self.now.sinks self.now.pairs result.now }
    {
        self.index
    }

    /// Returns whether a node is one of the sinks.
    pub(crate) fn has_sink(&self, node: u32) -> bool
        ensures { result ≡ is_among self.now.sinks node }
    {
        self.index().has_sink(node)
    }

    /// Returns whether a step begins at a node.
    pub(crate) fn begins_at(&self, node: u32) -> bool
        ensures { result ≡ begins_at self.now.pairs node }
    {
        self.index().begins_at(node)
    }

    /// Returns whether a step ends at a node.
    pub(crate) fn ends_at(&self, node: u32) -> bool
        ensures { result ≡ ends_at self.now.pairs node }
    {
        self.index().ends_at(node)
    }

    /// Returns whether one of the first `row` steps ends at a node.
    pub(crate) fn ends_before(&self, row: usize, node: u32) -> bool
        ensures { result ≡ ends_before self.now.pairs row node }
    {
        self.index().ends_before(node, row)
    }
}
