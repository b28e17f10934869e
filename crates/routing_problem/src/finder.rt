//! Edges, pair by pair. The node at which the latest edge ended is kept.

ghost use Rattle.std.specs.Prelude.{◌≡◌, not};
ghost use Rattle.std.specs.List.{list_any};
ghost use Rattle.rr_edges.specs.Edges.{edge_between};

use crate::device::Device;
use rr_edges::FoundNode;
use std::marker::Model;

impl Device {
    /// Whether one of the pairs is no edge. It is quicker than `edge` for each where pairs begin at
    /// the node at which the one before ended.
    pub fn lacks_edge(&self, pairs: &[(u32, u32)]) -> bool
        ensures { result ≡ list_any (λ p. not (edge_between self.now p.0 p.1)) pairs.now }
    {
        let mut finder = EdgeFinder::new(self);
        for pair in pairs {
            if !finder.joins(pair.0, pair.1) {
                return true;
            }
        }
        false
    }
}

/// Says for one pair of nodes after the other whether an edge of a device leads from the first to
/// the second. It keeps the node at which the latest edge ended, and is quicker than `Device::edge`
/// where the next pair begins there. Contracts see the device.
#[derive(Drop)]
pub struct EdgeFinder<'a> {
    device: &'a Device,
    before: Option<FoundNode>,
}

impl<'a> Model for EdgeFinder<'a> {
    ghost use Rattle.channel_tables.specs.Fabric.{Fabric};

    ghost Value = { Fabric };

    ghost use Rattle.rr_edges.specs.FoundNodes.{MayBeFound};

    ghost view = { λ e. e.device.now };

    ghost invariant = { λ e. MayBeFound e.device.now e.before };
}

impl<'a> EdgeFinder<'a> {
    /// For the edges of a device.
    pub fn new(device: &'a Device) -> EdgeFinder<'a>
        ensures { result ≡ device.now }
    {
        EdgeFinder {
            device,
            before: None,
        }
    }

    /// Whether an edge leads from node `from` to node `to`; false where one of them is no node.
    #[inline(always)]
    pub fn joins(&mut self, from: u32, to: u32) -> bool
        ensures edge { result ≡ edge_between self.old from to }
        ensures device { self.new ≡ self.old }
    {
        let device = self.device;
        self.before = device.graph.follow(self.before, (from, to));
        self.before.is_some()
    }
}
