//! The numbers of a device's nodes, and the nodes of numbers.

ghost use Rattle.std.specs.Prelude.{◌≡◌, ℕ, ◌^◌, ◌<◌, ◌≤◌, nat_le, IfOk, IfSome, Some, true};
ghost use Rattle.std.specs.Option.{option_map};
ghost use Rattle.channel_tables.specs.Fabric.{IsFabric};
ghost use Rattle.node_numbers.specs.Nodes.{node_count_of, node_at, kind_of_node, is_wire_at, number_of, label_of, capacity_of, span_of, wire_in};

use crate::block::{BlockNumbers, block_of};
use crate::nodes::{label_of, span_of, terminal_capacity, wire_capacity};
use crate::starts::{Starts, starts_of};
use crate::strides::{Strides, strides_of};
use channel_tables::{ChannelTables, Kind, Label, Layout, Mode, Node, Span};
use std::alloc::{AllocError, Global};
use std::marker::Model;

/// The nodes of a device by number: its tables, and how many nodes come before others. Contracts
/// see the record of the device.
#[derive(Drop)]
pub struct NodeNumbers {
    pub(crate) tables: ChannelTables,
    pub(crate) block: BlockNumbers,
    pub(crate) starts: Starts,
    pub(crate) strides: Strides,
}

impl Model for NodeNumbers {
    ghost use Rattle.channel_tables.specs.Fabric.{Fabric};

    ghost Value = { Fabric };

    ghost use Rattle.channel_tables.specs.Fabric.{IsFabric};
    ghost use Rattle.node_numbers.specs.kept.Numbers.{IsTabled};

    ghost view = { λ n. n.tables };

    ghost invariant = { λ n. IsFabric n.tables × IsTabled n.tables n.block n.starts n.strides };
}

impl NodeNumbers {
    /// Makes the numbers of a device's nodes from its tables.
    pub fn new(alloc: Global, tables: ChannelTables) -> Result<NodeNumbers, AllocError>
        ensures made { IfOk result (λ n. n ≡ tables) }
        ensures limits { IfOk result IsFabric }
    {
        let block = block_of(alloc, &tables)?;
        let starts = starts_of(&tables, &block);
        let strides = strides_of(alloc, &tables)?;
        Ok(NodeNumbers {
            tables,
            block,
            starts,
            strides,
        })
    }

    /// Returns a copy.
    pub fn copy(&self, alloc: Global) -> Result<NodeNumbers, AllocError>
        ensures { IfOk result (λ n. n ≡ self.now) }
    {
        NodeNumbers::new(alloc, self.tables.copy(alloc)?)
    }

    /// Returns the tables of the device's channels and pins.
    #[inline(always)]
    pub fn tables(&self) -> &ChannelTables
        ensures tables { result.now ≡ self.now }
        ensures limits { IsFabric self.now }
    {
        &self.tables
    }

    /// Returns the layout that the device is made from.
    #[inline(always)]
    pub fn layout(&self) -> &Layout
        ensures layout { result.now ≡ self.now }
        ensures limits { IsFabric self.now }
    {
        self.tables.layout()
    }

    /// Returns the count of nodes, which is below 2^23.
    #[tactic(auto, using(crate::proofs::Order::node_count_below))]
    pub fn node_count(&self) -> u32
        ensures count { result ≡ node_count_of self.now }
        ensures few { result < 2 ^ 23 }
        ensures limits { IsFabric self.now }
    {
        self.starts.end
    }

    /// Returns the number of the first wire. Exactly the nodes from there on are wires.
    #[tactic(auto, using(crate::proofs::FirstWire::wires_from, crate::proofs::FirstWire::few_before_wires))]
    pub fn first_wire(&self) -> u32
        ensures wires { (i : ℕ) → i < node_count_of self.now
            → is_wire_at self.now i ≡ nat_le result i }
        ensures within { result ≤ node_count_of self.now }
    {
        self.kind_start(Kind::Chanx)
    }

    /// Returns the node of a number, or None if there is none.
    #[inline(always)]
    pub fn node(&self, id: u32) -> Option<Node>
        ensures node { result ≡ node_at self.now id }
        ensures inverse { IfSome result (λ n. number_of self.now n ≡ Some id) }
    {
        self.node_of(id)
    }

    /// Returns the kind of the node of a number, without finding the node.
    pub fn kind(&self, id: u32) -> Option<Kind>
        ensures { result ≡ kind_of_node self.now id }
    {
        self.kind_of(id)
    }

    /// Returns what a node's number counts.
    pub fn label(&self, id: u32) -> Option<Label>
        ensures { result ≡ option_map (label_of self.now) (node_at self.now id) }
    {
        self.node(id).map(|node| label_of(self.layout(), node))
    }

    /// Returns the number of a node, which is how many nodes come before it, or None if it is no
    /// node of the device.
    pub fn id(&self, node: Node) -> Option<u32>
        ensures number { result ≡ number_of self.now node }
        ensures inverse { IfSome result (λ i. node_at self.now i ≡ Some node) }
    {
        self.id_of(node)
    }

    /// Returns how many nets may use a node. Pins and wires of a detailed device are known by their
    /// numbers.
    #[inline(always)]
    pub fn capacity(&self, id: u32) -> Option<u32>
        ensures { result ≡ option_map (capacity_of self.now) (node_at self.now id) }
    {
        if self.is_single(id) {
            return Some(1);
        }
        self.capacity_by_kind(id)
    }

    /// Returns whether a number is that of a pin or a wire of a detailed device. One net may use
    /// such a node.
    #[inline(always)]
    #[tactic(auto, using(crate::proofs::Capacities::one_net))]
    fn is_single(&self, id: u32) -> bool
        ensures { result ≡ true
            → option_map (capacity_of self.now) (node_at self.now id) ≡ Some 1 }
    {
        match self.layout().mode() {
            Mode::Detailed => self.kind_start(Kind::Opin) <= id && id < self.node_count(),
            Mode::Global => false,
        }
    }

    /// Returns how many nets may use a node, by its kind. Only sources and sinks are looked up.
    #[inline(never)]
    fn capacity_by_kind(&self, id: u32) -> Option<u32>
        ensures { result ≡ option_map (capacity_of self.now) (node_at self.now id) }
    {
        match self.kind(id) {
            None => None,
            Some(Kind::Source | Kind::Sink) => {
                self.node(id)
                    .map(|node| terminal_capacity(self.layout(), node))
            }
            Some(Kind::Opin | Kind::Ipin) => Some(1),
            Some(Kind::Chanx | Kind::Chany) => Some(wire_capacity(self.layout())),
        }
    }

    /// Returns the first and the last place of a node. Only those of a wire may differ.
    pub fn span(&self, id: u32) -> Option<Span>
        ensures { result ≡ option_map (span_of self.now) (node_at self.now id) }
    {
        match self.node(id) {
            None => None,
            Some(node) => Some(span_of(node, self.last_of(node))),
        }
    }

    /// Returns the node of a number with its first and last place and what its number counts, from
    /// one look-up.
    pub fn described_node(&self, id: u32) -> Option<(Node, Span, Label)>
        ensures node { option_map (λ d. d.0) result ≡ node_at self.now id }
        ensures span { IfSome result (λ d. d.1 ≡ span_of self.now d.0) }
        ensures label { IfSome result (λ d. d.2 ≡ label_of self.now d.0) }
    {
        match self.node_of(id) {
            None => None,
            Some(node) => {
                let span = span_of(node, self.last_of(node));
                let label = label_of(self.layout(), node);
                Some((node, span, label))
            }
        }
    }

    /// Returns the kind of a wire, its first and last place, and the most places of a wire of its
    /// track, from one look-up. None if the node is no wire.
    #[tactic(auto, unfolding(crate::specs::Nodes::wire_in))]
    pub fn wire(&self, id: u32) -> Option<(Kind, Span, u32)>
        ensures { result ≡ wire_in self.now (node_at self.now id) }
    {
        if id < self.first_wire() {
            return None;
        }
        match self.node_of(id) {
            None => None,
            Some(node) => {
                let span = span_of(node, self.last_of(node));
                Some((node.kind, span, self.tables.reach_of(node.number)))
            }
        }
    }
}
