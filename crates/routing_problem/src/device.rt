//! The device and its look-ups.

ghost use Rattle.std.specs.Prelude.{◌≡◌, ℕ, ◌^◌, ◌<◌, ◌≤◌, ◌↔◌, ◌⊎◌, [], ◌∷◌, length, map, nat_le, Contains, true, IfOk, IfErr, IfSome, IsSome, Some, OnOk, OnErr, IsOk};
ghost use Rattle.std.specs.List.Sorted.{IsStrictlyIncreasing};
ghost use Rattle.std.specs.Option.{option_map};
ghost use Rattle.arch_file.specs.Architecture.{longest_side};
ghost use Rattle.channel_tables.specs.Fabric.{IsFabric, fabric_with, most_tracks, numbers_below};
ghost use Rattle.channel_tables.specs.Wires.{tracks_in, track_type};
ghost use Rattle.node_numbers.specs.Nodes.{node_count_of, node_at, kind_of_node, is_source, is_sink, is_wire_at, number_of, label_of, capacity_of, span_of, wire_in};
ghost use Rattle.rr_edges.specs.Edges.{edge_between, successors_of, edge_count_of};

use crate::fault::DeviceFault;
use arch_file::Arch;
use channel_tables::{Kind, Label, MOST_TRACKS, Mode, Node, Span};
use rr_edges::DeviceGraph;
use smallvec::SmallVec;
use std::alloc::{AllocError, Global};
use std::marker::Model;

/// A device: the nodes of its routing-resource graph by number, and the edges among them. Contracts
/// see it as the record of its architecture, the size of its array, its channels' width and its
/// mode.
#[derive(Drop)]
pub struct Device {
    pub(crate) graph: DeviceGraph,
}

impl Model for Device {
    ghost use Rattle.channel_tables.specs.Fabric.{Fabric};

    ghost Value = { Fabric };

    ghost view = { λ d. d.graph };
}

/// `Width` for a width that no device has; devices have widths from 1 to 256.
fn check_width(width: u32) -> Result<(), DeviceFault>
    ensures width { (result ≡ Err DeviceFault.Width)
        ↔ ((width ≡ 0) ⊎ (most_tracks < width)) }
    ensures memory { IfErr result (λ fault. fault ≡ DeviceFault.Width) }
{
    if width == 0 || width > MOST_TRACKS {
        return Err(DeviceFault::Width);
    }
    Ok(())
}

impl Device {
    /// A device in which each track has wires of its own. The result for a width outside 1 to 256
    /// is `Width`.
    pub fn new(
        alloc: Global,
        arch: &Arch,
        nx: u32,
        ny: u32,
        width: u32,
    ) -> Result<Device, DeviceFault>
        requires columns { (1 ≤ nx) × (nx ≤ longest_side) }
        requires rows { (1 ≤ ny) × (ny ≤ longest_side) }
        ensures made { IfOk result (λ d. d ≡ fabric_with nx ny width Mode.Detailed arch.now) }
        ensures width { (result ≡ Err DeviceFault.Width) ↔ ((width ≡ 0) ⊎ (most_tracks < width)) }
    {
        check_width(width)?;
        let device = Device::with_mode(alloc, arch, nx, ny, width, Mode::Detailed)?;
        Ok(device)
    }

    /// A device in which each place of a channel is one node, as wide as the channel. The result
    /// for a width outside 1 to 256 is `Width`.
    pub fn global(
        alloc: Global,
        arch: &Arch,
        nx: u32,
        ny: u32,
        width: u32,
    ) -> Result<Device, DeviceFault>
        requires columns { (1 ≤ nx) × (nx ≤ longest_side) }
        requires rows { (1 ≤ ny) × (ny ≤ longest_side) }
        ensures made { IfOk result (λ d. d ≡ fabric_with nx ny width Mode.Global arch.now) }
        ensures width { (result ≡ Err DeviceFault.Width) ↔ ((width ≡ 0) ⊎ (most_tracks < width)) }
    {
        check_width(width)?;
        let device = Device::with_mode(alloc, arch, nx, ny, width, Mode::Global)?;
        Ok(device)
    }

    /// A device of a width that a device may have, in either mode.
    pub fn with_mode(
        alloc: Global,
        arch: &Arch,
        nx: u32,
        ny: u32,
        width: u32,
        mode: Mode,
    ) -> Result<Device, AllocError>
        requires columns { (1 ≤ nx) × (nx ≤ longest_side) }
        requires rows { (1 ≤ ny) × (ny ≤ longest_side) }
        requires tracks { (1 ≤ width) × (width ≤ most_tracks) }
        ensures { IfOk result (λ d. d ≡ fabric_with nx ny width mode arch.now) }
    {
        let graph = DeviceGraph::new(alloc, arch, nx, ny, width, mode)?;
        Ok(Device { graph })
    }

    /// A copy of this device.
    pub fn copy(&self, alloc: Global) -> Result<Device, AllocError>
        ensures { IfOk result (λ d. d ≡ self.now) }
    {
        let graph = self.graph.copy(alloc)?;
        Ok(Device { graph })
    }

    /// Columns of logic blocks.
    pub fn nx(&self) -> u32
        ensures entry { result ≡ self.now.nx }
        ensures limits { IsFabric self.now }
    {
        self.graph.layout().nx()
    }

    /// Rows of logic blocks.
    pub fn ny(&self) -> u32
        ensures entry { result ≡ self.now.ny }
        ensures limits { IsFabric self.now }
    {
        self.graph.layout().ny()
    }

    /// Tracks in each channel.
    pub fn width(&self) -> u32
        ensures entry { result ≡ self.now.width }
        ensures limits { IsFabric self.now }
    {
        self.graph.layout().width()
    }

    /// Whether each track has wires of its own.
    pub fn mode(&self) -> Mode
        ensures { result ≡ self.now.mode }
    {
        self.graph.layout().mode()
    }

    /// How many wires run through a place of a channel: a global device has one, which represents
    /// all tracks.
    pub fn tracks(&self) -> u32
        ensures tracks { result ≡ tracks_in self.now.mode self.now.width }
        ensures few { result ≤ most_tracks }
    {
        self.graph.layout().tracks()
    }

    /// The type of a track: which of the architecture's types its wires are of.
    pub fn track_type(&self, track: u32) -> usize
        ensures { result ≡ track_type self.now track }
    {
        self.graph.layout().track_type(track)
    }

    /// The types of the tracks.
    pub fn track_types(&self, alloc: Global) -> Result<Vec<usize>, AllocError>
        ensures { IfOk result
            (λ v. v.items ≡ map (track_type self.now) (numbers_below self.now.width)) }
    {
        self.graph.layout().track_types(alloc)
    }

    /// The architecture.
    pub fn architecture(&self) -> &Arch
        ensures { result.now ≡ self.now.architecture }
    {
        self.graph.layout().architecture()
    }

    /// How many nodes there are: fewer than 2^23.
    pub fn node_count(&self) -> u32
        ensures count { result ≡ node_count_of self.now }
        ensures few { result < 2 ^ 23 }
    {
        self.graph.nodes().node_count()
    }

    /// The number of the first wire: all nodes from there on are wires, and none before is one.
    pub fn first_wire(&self) -> u32
        ensures wires { (i : ℕ) → i < node_count_of self.now
            → is_wire_at self.now i ≡ nat_le result i }
        ensures within { result ≤ node_count_of self.now }
    {
        self.graph.nodes().first_wire()
    }

    /// The node of a number.
    pub fn node(&self, id: u32) -> Option<Node>
        ensures node { result ≡ node_at self.now id }
        ensures inverse { IfSome result (λ n. number_of self.now n ≡ Some id) }
    {
        self.graph.nodes().node(id)
    }

    /// The kind of the node of a number, found without the node.
    pub fn kind(&self, id: u32) -> Option<Kind>
        ensures { result ≡ kind_of_node self.now id }
    {
        self.graph.nodes().kind(id)
    }

    /// Whether the node is there, and is a source.
    #[tactic(auto, unfolding(node_numbers::specs::Nodes::is_source))]
    pub fn is_source(&self, id: u32) -> bool
        ensures { result ≡ is_source self.now id }
    {
        match self.kind(id) {
            Some(Kind::Source) => true,
            _ => false,
        }
    }

    /// Whether the node is there, and is a sink.
    #[tactic(auto, unfolding(node_numbers::specs::Nodes::is_sink))]
    pub fn is_sink(&self, id: u32) -> bool
        ensures { result ≡ is_sink self.now id }
    {
        match self.kind(id) {
            Some(Kind::Sink) => true,
            _ => false,
        }
    }

    /// What a node's number counts.
    pub fn label(&self, id: u32) -> Option<Label>
        ensures { result ≡ option_map (label_of self.now) (node_at self.now id) }
    {
        self.graph.nodes().label(id)
    }

    /// The number of a node: how many nodes come before it. None if it is no node.
    pub fn id(&self, node: Node) -> Option<u32>
        ensures number { result ≡ number_of self.now node }
        ensures inverse { IfSome result (λ i. node_at self.now i ≡ Some node) }
    {
        self.graph.nodes().id(node)
    }

    /// How many nets may use a node. The node is looked up only where it is a source or a sink.
    pub fn capacity(&self, id: u32) -> Option<u32>
        ensures { result ≡ option_map (capacity_of self.now) (node_at self.now id) }
    {
        self.graph.nodes().capacity(id)
    }

    /// The first and the last place of a node; only those of a wire may differ.
    pub fn span(&self, id: u32) -> Option<Span>
        ensures { result ≡ option_map (span_of self.now) (node_at self.now id) }
    {
        self.graph.nodes().span(id)
    }

    /// The node of a number, its first and last place, and what its number counts, from one
    /// look-up.
    pub fn described_node(&self, id: u32) -> Option<(Node, Span, Label)>
        ensures node { option_map (λ d. d.0) result ≡ node_at self.now id }
        ensures span { IfSome result (λ d. d.1 ≡ span_of self.now d.0) }
        ensures label { IfSome result (λ d. d.2 ≡ label_of self.now d.0) }
    {
        self.graph.nodes().described_node(id)
    }

    /// The kind of a wire, the places that it passes, and how many the wires of its track pass at
    /// most, from one look-up; None if it is no wire.
    pub fn wire(&self, id: u32) -> Option<(Kind, Span, u32)>
        ensures wire { result ≡ wire_in self.now (node_at self.now id) }
        ensures limits { IsFabric self.now }
    {
        self.graph.nodes().wire(id)
    }

    /// Whether an edge leads from node `from` to node `to`; false where one of them is no node.
    pub fn edge(&self, from: u32, to: u32) -> bool
        ensures { result ≡ edge_between self.now from to }
    {
        self.graph.edge(from, to)
    }

    /// The sink to which an input pin leads, and to nothing else; None if it is no input pin.
    pub fn sink_of(&self, id: u32) -> Option<u32>
        ensures sink { IfSome result (λ sink. successors_of self.now id ≡ sink ∷ []) }
        ensures pin { IsSome result ↔ (kind_of_node self.now id ≡ Some Kind.Ipin) }
    {
        self.graph.sink_of(id)
    }

    /// How many edges there are.
    pub fn edge_count(&self) -> u64
        ensures { result ≡ edge_count_of self.now }
    {
        self.graph.edge_count()
    }

    /// The most edges that lead from a node: a list of successors needs room for as many numbers.
    pub fn most_successors(&self) -> usize
        ensures most { (i : ℕ) → length (successors_of self.now i) ≤ result }
        ensures reached { (i : ℕ) × (length (successors_of self.now i) ≡ result) }
        ensures few { result < 2 ^ 23 }
    {
        self.graph.most_successors()
    }

    /// The numbers of the nodes to which an edge leads from node `id`, ascending; none if it is no
    /// node. The list is cleared first; where memory is refused it is left empty.
    pub fn successors(&self, id: u32, list: &mut SmallVec<u32, 8>) -> Result<(), AllocError>
        ensures listed { OnOk result (list.new.items ≡ successors_of self.now id) }
        ensures all { OnOk result
            ((to : ℕ) → Contains list.new.items to ↔ (edge_between self.now id to ≡ true)) }
        ensures ascending { OnOk result (IsStrictlyIncreasing list.new.items) }
        ensures refused { OnErr result (list.new.items ≡ []) }
        ensures room { length (successors_of self.now id) ≤ list.old.capacity → IsOk result }
        ensures kept { list.old.capacity ≤ list.new.capacity }
    {
        self.graph.successors(id, list)
    }
}
