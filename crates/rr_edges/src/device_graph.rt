//! The graph of a device: its nodes by number, and the edges among them.

ghost use Rattle.std.specs.Prelude.{◌≡◌, ℕ, ◌^◌, ◌<◌, ◌≤◌, ◌↔◌, [], ◌∷◌, length, Contains, true, IfOk, IfSome, IsSome, Some, OnOk, OnErr, IsOk};
ghost use Rattle.std.specs.Arc.{arc_value};
ghost use Rattle.std.specs.List.Sorted.{IsStrictlyIncreasing};
ghost use Rattle.arch_file.specs.Architecture.{longest_side};
ghost use Rattle.channel_tables.specs.Fabric.{IsFabric, fabric_with, most_tracks};
ghost use Rattle.node_numbers.specs.Nodes.{node_count_of, node_at, kind_of_node, number_of};
ghost use Rattle.rr_edges.specs.Edges.{edge_between, successors_of, edge_count_of};

use arch_file::Arch;
use channel_tables::{ChannelTables, Kind, Layout, Mode, Node};
use node_numbers::NodeNumbers;
use smallvec::SmallVec;
use std::alloc::{AllocError, Global};
use std::marker::Model;
use std::sync::Arc;

/// The graph of a device. Its copies share its tables. Contracts see the record of the device.
#[derive(Drop)]
pub struct DeviceGraph {
    pub(crate) nodes: Arc<NodeNumbers, Global>,
}

impl Model for DeviceGraph {
    ghost use Rattle.channel_tables.specs.Fabric.{Fabric};

    ghost Value = { Fabric };

    ghost use Rattle.std.specs.Arc.{arc_value};
    ghost use Rattle.channel_tables.specs.Fabric.{IsFabric};

    ghost view = { λ g. arc_value g.nodes };

    ghost invariant = { λ g. IsFabric (arc_value g.nodes) };
}

impl DeviceGraph {
    /// The graph of a device of a width that a device may have, in either mode.
    pub fn new(
        alloc: Global,
        arch: &Arch,
        nx: u32,
        ny: u32,
        width: u32,
        mode: Mode,
    ) -> Result<DeviceGraph, AllocError>
        requires columns { (1 ≤ nx) × (nx ≤ longest_side) }
        requires rows { (1 ≤ ny) × (ny ≤ longest_side) }
        requires tracks { (1 ≤ width) × (width ≤ most_tracks) }
        ensures { IfOk result (λ g. g ≡ fabric_with nx ny width mode arch.now) }
    {
        let tables = ChannelTables::new(alloc, arch, nx, ny, width, mode)?;
        let nodes = NodeNumbers::new(alloc, tables)?;
        Ok(DeviceGraph {
            nodes: Arc::new(alloc, nodes)?,
        })
    }

    /// A copy of this graph, which shares its tables.
    pub fn copy(&self, alloc: Global) -> Result<DeviceGraph, AllocError>
        ensures { IfOk result (λ g. g ≡ self.now) }
    {
        let nodes = match Arc::try_clone(&self.nodes) {
            Ok(shared) => shared,
            Err(_) => Arc::new(alloc, self.nodes.copy(alloc)?)?,
        };
        Ok(DeviceGraph { nodes })
    }

    /// The nodes by number.
    #[inline(always)]
    pub fn nodes(&self) -> &NodeNumbers
        ensures nodes { result.now ≡ self.now }
        ensures limits { IsFabric self.now }
    {
        &self.nodes
    }

    /// What the device is made from.
    #[inline(always)]
    pub fn layout(&self) -> &Layout
        ensures layout { result.now ≡ self.now }
        ensures limits { IsFabric self.now }
    {
        self.nodes.layout()
    }

    /// The tables of the device's channels and pins.
    #[inline(always)]
    pub(crate) fn tables(&self) -> &ChannelTables
        ensures tables { result.now ≡ self.now }
        ensures limits { IsFabric self.now }
    {
        self.nodes.tables()
    }

    /// Columns of logic blocks.
    pub(crate) fn nx(&self) -> u32
        ensures entry { result ≡ self.now.nx }
        ensures limits { IsFabric self.now }
    {
        self.layout().nx()
    }

    /// Rows of logic blocks.
    pub(crate) fn ny(&self) -> u32
        ensures entry { result ≡ self.now.ny }
        ensures limits { IsFabric self.now }
    {
        self.layout().ny()
    }

    /// Whether each track has wires of its own.
    pub(crate) fn mode(&self) -> Mode
        ensures mode { result ≡ self.now.mode }
        ensures limits { IsFabric self.now }
    {
        self.layout().mode()
    }

    /// How many nodes there are: fewer than 2^23.
    pub(crate) fn node_count(&self) -> u32
        ensures count { result ≡ node_count_of self.now }
        ensures few { result < 2 ^ 23 }
    {
        self.nodes.node_count()
    }

    /// The node of a number.
    pub(crate) fn node(&self, id: u32) -> Option<Node>
        ensures node { result ≡ node_at self.now id }
        ensures inverse { IfSome result (λ n. number_of self.now n ≡ Some id) }
        ensures limits { IsFabric self.now }
    {
        self.nodes.node(id)
    }

    /// The kind of the node of a number, found without the node.
    pub(crate) fn kind(&self, id: u32) -> Option<Kind>
        ensures kind { result ≡ kind_of_node self.now id }
        ensures limits { IsFabric self.now }
    {
        self.nodes.kind(id)
    }

    /// Whether an edge leads from node `from` to node `to`; false where one of them is no node.
    #[tactic(auto, unfolding(crate::specs::Edges::edge_between))]
    pub fn edge(&self, from: u32, to: u32) -> bool
        ensures { result ≡ edge_between self.now from to }
    {
        match (self.find(from), self.find(to)) {
            (Some(a), Some(b)) => self.joins(a, b),
            _ => false,
        }
    }

    /// The sink to which an input pin leads, and to nothing else; None if it is no input pin.
    pub fn sink_of(&self, id: u32) -> Option<u32>
        ensures sink { IfSome result (λ sink. successors_of self.now id ≡ sink ∷ []) }
        ensures pin { IsSome result ↔ (kind_of_node self.now id ≡ Some Kind.Ipin) }
    {
        match self.kind(id) {
            Some(Kind::Ipin) => match self.node(id) {
                Some(pin) => self.sink_beside(pin),
                None => None,
            },
            _ => None,
        }
    }

    /// How many edges lead from a node.
    #[tactic(auto, using(crate::proofs::NodeSuccessors::no_successors, crate::proofs::NodeSuccessors::node_listed, crate::proofs::NodeSuccessors::node_placed, crate::proofs::NodeSuccessors::few_successors))]
    fn degree(&self, id: u32) -> u32
        ensures count { result ≡ length (successors_of self.now id) }
        ensures few { result < 2 ^ 23 }
    {
        match self.node(id) {
            None => 0,
            Some(node) => self.degree_of(node),
        }
    }

    /// How many edges there are.
    #[tactic(auto, using(channel_tables::proofs::Ranges::sum_next), unfolding(crate::specs::Edges::edge_count_of))]
    pub fn edge_count(&self) -> u64
        ensures { result ≡ edge_count_of self.now }
    {
        let mut count = 0u64;
        for id in 0..self.node_count() {
            count += u64::from(self.degree(id));
        }
        count
    }

    /// The most edges that lead from a node: a list of successors needs room for as many numbers.
    pub fn most_successors(&self) -> usize
        ensures most { (i : ℕ) → length (successors_of self.now i) ≤ result }
        ensures reached { (i : ℕ) × (length (successors_of self.now i) ≡ result) }
        ensures few { result < 2 ^ 23 }
    {
        let mut most = 0u32;
        for id in 0..self.node_count() {
            most = most.max(self.degree(id));
        }
        most as usize
    }

    /// The numbers of the nodes to which an edge leads from node `id`, ascending; none if it is no
    /// node. The list is cleared first; where memory is refused it is left empty.
    #[tactic(auto, using(crate::proofs::NodeSuccessors::no_successors, crate::proofs::NodeSuccessors::node_listed, crate::proofs::NodeSuccessors::node_placed, crate::proofs::Graph::successors_contain, crate::proofs::Graph::successors_ascend))]
    pub fn successors(&self, id: u32, list: &mut SmallVec<u32, 8>) -> Result<(), AllocError>
        ensures listed { OnOk result (list.new.items ≡ successors_of self.now id) }
        ensures all { OnOk result
            ((to : ℕ) → Contains list.new.items to ↔ (edge_between self.now id to ≡ true)) }
        ensures ascending { OnOk result (IsStrictlyIncreasing list.new.items) }
        ensures refused { OnErr result (list.new.items ≡ []) }
        ensures room { length (successors_of self.now id) ≤ list.old.capacity → IsOk result }
        ensures kept { list.old.capacity ≤ list.new.capacity }
    {
        list.clear();
        match self.node(id) {
            None => Ok(()),
            Some(node) => {
                self.fill(list, node)?;
                Ok(())
            }
        }
    }
}
