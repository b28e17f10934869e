//! Nodes that were found by their numbers: where each pair begins at the end of the one before,
//! each node is found once. What is called once a pair is inlined, since a call passes a node
//! through memory and waits for it there.

ghost use Rattle.std.specs.Prelude.{◌≡◌};
ghost use Rattle.rr_edges.specs.Edges.{edge_between};
ghost use Rattle.rr_edges.specs.FoundNodes.{IsFound, MayBeFound, TellsEdge};
ghost use Rattle.rr_edges.specs.kept.Finding.{IsFoundAt};

use crate::device_graph::DeviceGraph;
use crate::edges::is_edge;
use channel_tables::Node;

/// A node of the device.
#[derive(Clone, Copy, Debug)]
pub struct FoundNode {
    pub id: u32,
    pub node: Node,
    /// Its last place along its channel; its x if it is no wire.
    pub last: u32,
}

impl DeviceGraph {
    /// The node of a number.
    #[inline(always)]
    pub(crate) fn find(&self, id: u32) -> Option<FoundNode>
        ensures { IsFoundAt self.now id result }
    {
        match self.nodes.node(id) {
            None => None,
            Some(node) => Some(FoundNode {
                id,
                node,
                last: self.nodes.last_of(node),
            }),
        }
    }

    /// The node of a number, which may be the node that was found before.
    #[inline(always)]
    fn find_again(&self, before: Option<FoundNode>, id: u32) -> Option<FoundNode>
        requires { MayBeFound self.now before }
        ensures { IsFoundAt self.now id result }
    {
        if let Some(found) = before {
            if found.id == id {
                return before;
            }
        }
        self.find(id)
    }

    /// Whether an edge leads from one node to the other.
    #[inline(always)]
    #[tactic(auto, unfolding(crate::specs::Edges::edge_between))]
    pub(crate) fn joins(&self, from: FoundNode, to: FoundNode) -> bool
        requires from { IsFound self.now from }
        requires to { IsFound self.now to }
        ensures { result ≡ edge_between self.now from.id to.id }
    {
        let counts = self.tables().tap_counts();
        is_edge(
            self.layout(),
            counts,
            from.node,
            from.last,
            to.node,
            to.last,
        )
    }

    /// The node at which the pair ends, if it is an edge.
    #[inline(always)]
    #[tactic(auto, unfolding(crate::specs::Edges::edge_between))]
    pub fn follow(&self, before: Option<FoundNode>, pair: (u32, u32)) -> Option<FoundNode>
        requires { MayBeFound self.now before }
        ensures { TellsEdge self.now pair result }
    {
        match (self.find_again(before, pair.0), self.find(pair.1)) {
            (Some(from), Some(to)) => { if self.joins(from, to) { Some(to) } else { None } }
            _ => None,
        }
    }
}
