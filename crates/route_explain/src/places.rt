//! The first place of each node in a list, found without a walk over the list.

ghost use Rattle.std.specs.Prelude.{◌≡◌, [], IfOk, OnOk, is_some};
ghost use Rattle.route_explain.specs.kept.Places.{ArePlaces, HasMore, is_before, place_in};

use std::alloc::{AllocError, Global};
use std::collections::BTreeMap;

/// The first place of each node.
#[derive(Drop)]
pub(crate) struct Places {
    first: BTreeMap<u32, usize>,
}

impl Places {
    /// Returns a table in which no node has a place.
    pub(crate) fn none(alloc: Global) -> Places
        ensures { ArePlaces [] result }
    {
        Places {
            first: BTreeMap::new(alloc),
        }
    }

    /// Adds a place of a node, which comes after all others.
    fn add(&mut self, node: u32, place: usize) -> Result<(), AllocError>
        ensures { OnOk result (HasMore self.old self.new node place) }
    {
        if !self.has(node) {
            self.first.insert(node, place)?;
        }
        Ok(())
    }

    /// Returns the first place of each node in a list.
    pub(crate) fn of(alloc: Global, nodes: &[u32]) -> Result<Places, AllocError>
        ensures { IfOk result (ArePlaces nodes.now) }
    {
        let mut places = Places::none(alloc);
        for place in 0..nodes.len() {
            places.add(nodes[place], place)?;
        }
        Ok(places)
    }

    /// Returns whether a node has a place.
    pub(crate) fn has(&self, node: u32) -> bool
        ensures { result ≡ is_some (place_in self.now node) }
    {
        self.first.contains_key(&node)
    }

    /// Returns whether a node has a place before this one.
    pub(crate) fn has_before(&self, node: u32, place: usize) -> bool
        ensures { result ≡ is_before (place_in self.now node) place }
    {
        match self.first.get(&node) {
            Some(first) => *first < place,
            None => false,
        }
    }
}
