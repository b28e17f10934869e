//! An index for looking up the steps of a faulty list.

ghost use Rattle.std.specs.Prelude.{◌≡◌, IfOk, is_some};
ghost use Rattle.route_tree.specs.Paths.{ends_of};
ghost use Rattle.route_explain.specs.Steps.{begins_of};
ghost use Rattle.route_explain.specs.kept.Places.{IsIndex, is_before, place_in};

use crate::places::Places;
use std::alloc::{AllocError, Global};

/// The first place of each node in three lists: the nodes at which the steps of a net's list begin,
/// those at which they end, and the sinks of the net.
#[derive(Drop)]
pub(crate) struct NetIndex {
    begins: Places,
    ends: Places,
    sinks: Places,
}

/// Returns the nodes at which steps begin.
fn begins_of(alloc: Global, pairs: &[(u32, u32)]) -> Result<Vec<u32>, AllocError>
    ensures { IfOk result (λ v. v.items ≡ begins_of pairs.now) }
{
    pairs.iter().map(|pair| pair.0).collect(alloc)
}

/// Returns the nodes at which steps end.
fn ends_of(alloc: Global, pairs: &[(u32, u32)]) -> Result<Vec<u32>, AllocError>
    ensures { IfOk result (λ v. v.items ≡ ends_of pairs.now) }
{
    pairs.iter().map(|pair| pair.1).collect(alloc)
}

impl NetIndex {
    /// Returns an index of no list.
    pub(crate) fn none(alloc: Global) -> NetIndex {
        NetIndex {
            begins: Places::none(alloc),
            ends: Places::none(alloc),
            sinks: Places::none(alloc),
        }
    }

    /// Returns an index of a list for a net with these sinks.
    pub(crate) fn new(
        alloc: Global,
        sinks: &[u32],
        pairs: &[(u32, u32)],
    ) -> Result<NetIndex, AllocError>
        ensures { IfOk result (IsIndex sinks.now pairs.now) }
    {
        let begins = Places::of(alloc, &begins_of(alloc, pairs)?)?;
        let ends = Places::of(alloc, &ends_of(alloc, pairs)?)?;
        let sinks = Places::of(alloc, sinks)?;
        Ok(NetIndex {
            begins,
            ends,
            sinks,
        })
    }

    /// Returns whether a step begins at a node.
    pub(crate) fn begins_at(&self, node: u32) -> bool
        ensures { result ≡ is_some (place_in self.now.begins node) }
    {
        self.begins.has(node)
    }

    /// Returns whether a step ends at a node.
    pub(crate) fn ends_at(&self, node: u32) -> bool
        ensures { result ≡ is_some (place_in self.now.ends node) }
    {
        self.ends.has(node)
    }

    /// Returns whether a step before this row ends at a node.
    pub(crate) fn ends_before(&self, node: u32, row: usize) -> bool
        ensures { result ≡ is_before (place_in self.now.ends node) row }
    {
        self.ends.has_before(node, row)
    }

    /// Returns whether a node is one of the sinks.
    pub(crate) fn has_sink(&self, node: u32) -> bool
        ensures { result ≡ is_some (place_in self.now.sinks node) }
    {
        self.sinks.has(node)
    }
}
