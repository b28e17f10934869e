//! The ground of a search: what one net may enter, at what cost, and the groups of wires.

ghost use Rattle.std.specs.Prelude.{◌≡◌, ◌<◌, ◌≤◌, ◌+◌, ◌*◌, ◌^◌, ◌↔◌, ℕ, Contains, OnOk, IsTrue, length, get_or, slice_index, true, [], Some};
ghost use Rattle.routing_problem.specs.node.Kind.TheVariants.{Ipin};
ghost use Rattle.routing_problem.specs.Problems.{is_sink};
ghost use Rattle.std.specs.List.Sorted.{IsStrictlyIncreasing};
ghost use Rattle.std.specs.Option.{option_map_or};
ghost use Rattle.node_cost.specs.Costs.{cost_of};
ghost use Rattle.node_cost.specs.Views.{history_in, others_in};
ghost use Rattle.routing_problem.specs.Nodes.{is_wire_at, kind_of_node, node_count_of, wire_capacity};
ghost use Rattle.track_groups.specs.Drives.{AreDrives};
ghost use Rattle.track_groups.specs.Groups.{group_at, place_of, HasPlace};
ghost use Rattle.track_groups.specs.Joints.{IsTabled, neighbours_of, taps_of};
ghost use Rattle.wavefront.specs.Boxes.{box_of_node, is_in_box, touches, box_of_net};
ghost use Rattle.wavefront.specs.Growth.{space_of};
ghost use Rattle.wavefront.specs.Space.{HasEdge, IsWanted, base_cost, entry_cost};
ghost use Rattle.wavefront.specs.kept.Bounds.{IsInsideBox, least_wire_cost};
ghost use Rattle.wavefront.specs.kept.Spaces.{node_count};
ghost use Rattle.wave_ground.specs.kept.Boxes.{AreFirstBoxes, boxed};
ghost use Rattle.wave_ground.specs.kept.Grounds.{IsGround, groups_of};

use crate::boxes::BoundingBox;
use crate::tables::PreparedProblem;
use node_cost::{BorrowedView, GREATEST_BASE, GREATEST_PRESENT, UNIT_FACTOR, View, cost};
use routing_problem::{Device, Kind, Mode, Problem, Span};
use smallvec::SmallVec;
use std::alloc::AllocError;
use std::marker::Model;
use track_groups::{Drive, Group, GroupTrack, PinDrives, Tap, TrackGroups};
use wavefront::{INPUT_PIN_BASE, WIRE_BASE};

/// A net of a problem, its view of the other nets, and the groups of the device's wires. Contracts
/// see the parts on which a search depends.
#[derive(Drop)]
pub struct Ground<'a> {
    problem: &'a Problem,
    groups: &'a TrackGroups,
    drives: &'a PinDrives,
    boxes: &'a [BoundingBox],
    net: u32,
    view: BorrowedView<'a>,
    present: u32,
    bb: u32,
    /// The box in which the net is routed.
    inside: BoundingBox,
    /// How many nets may use a wire.
    room: u32,
}

impl<'a> Model for Ground<'a> {
    ghost use Rattle.wave_ground.specs.kept.Grounds.{Ground};

    ghost Value = { Ground };

    ghost use Rattle.wave_ground.specs.kept.Fields.{ground_inside, IsGroundInside};

    ghost view = { ground_inside };

    ghost invariant = { IsGroundInside };
}

/// What an input pin costs if no other net uses it and it was never overused.
pub const PIN: u128 = (UNIT_FACTOR * INPUT_PIN_BASE) as u128;

/// What a wire costs if no other net uses it and it was never overused.
pub const WIRE: u128 = (UNIT_FACTOR * WIRE_BASE) as u128;

/// Returns the base cost of a kind of nodes.
fn base_cost(kind: Option<Kind>) -> u32
    ensures { result ≡ option_map_or base_cost kind 0 }
{
    match kind {
        None | Some(Kind::Sink) => 0,
        Some(Kind::Ipin) => INPUT_PIN_BASE,
        Some(Kind::Source | Kind::Opin | Kind::Chanx | Kind::Chany) => WIRE_BASE,
    }
}

/// Returns whether a number is one of these, which are in ascending order.
fn is_one_of(numbers: &[u32], number: u32) -> bool
    requires { IsStrictlyIncreasing numbers.now }
    ensures { IsTrue result ↔ Contains numbers.now number }
{
    numbers.binary_search(&number).is_ok()
}

/// Returns how many nets may use a wire of a device.
fn wire_room(device: &Device) -> u32
    ensures room { result ≡ wire_capacity device.now.mode device.now.width }
    ensures some { 1 ≤ result }
{
    let width = device.width();
    match device.mode() {
        Mode::Detailed => 1,
        Mode::Global => width,
    }
}

impl<'a> Ground<'a> {
    /// Makes the ground of the search for a net.
    pub fn new(
        prepared: &'a PreparedProblem,
        net: u32,
        view: &'a View,
        present: u32,
        bb: u32,
    ) -> Ground<'a>
        requires net { net < length prepared.now.nets }
        requires view { length view.now ≡ node_count_of prepared.now.device }
        requires present { present ≤ GREATEST_PRESENT }
        ensures space { result.space ≡ space_of prepared.now net view.now present bb }
        ensures facts { IsGround result }
    {
        let _bounds = view.len();
        let problem = prepared.problem();
        let tables = prepared.tables();
        let boxes = tables.boxes.as_slice();
        Ground {
            problem,
            groups: &tables.groups,
            drives: &tables.drives,
            boxes,
            net,
            view: view.borrowed(),
            present,
            bb,
            inside: BoundingBox::of_net(boxes, problem, net).widened(bb),
            room: wire_room(problem.device()),
        }
    }

    /// Returns the count of nodes.
    pub fn nodes(&self) -> usize
        ensures { result ≡ node_count self.now.space }
    {
        self.problem.device().node_count() as usize
    }

    /// Returns the count of groups.
    pub fn groups(&self) -> usize
        ensures { result ≡ length (groups_of self.now) }
    {
        self.groups.len() as usize
    }

    /// Returns the source of the net.
    pub fn source(&self) -> u32
        ensures { result ≡ self.now.space.net.source }
    {
        self.problem.source(self.net)
    }

    /// Returns the sinks of the net, in ascending order.
    pub fn sinks(&self) -> &[u32]
        ensures { result.now ≡ self.now.space.net.sinks }
    {
        self.problem.sinks(self.net)
    }

    /// Returns whether a node is one of the net's sinks.
    pub fn wants(&self, node: u32) -> bool
        requires { IsGround self.now }
        ensures { IsTrue result ↔ IsWanted self.now.space node }
    {
        is_one_of(self.sinks(), node)
    }

    /// Returns whether a place of a span is inside the net's box.
    #[inline(always)]
    pub fn is_span_inside(&self, span: Span) -> bool
        ensures { result ≡ touches self.now.space.bb
            (box_of_net self.now.space.device self.now.space.net) span }
    {
        self.inside.has_place_of(span)
    }

    /// Returns whether a node is inside the net's box.
    #[tactic(auto, using(crate::proofs::Opened::inside_is))]
    pub fn is_inside(&self, node: u32) -> bool
        ensures { result ≡ is_in_box self.now.space.device self.now.space.bb self.now.space.net
            node }
    {
        match self.problem.device().span(node) {
            Some(span) => self.inside.has_place_of(span),
            None => false,
        }
    }

    /// Returns what it costs to enter a node with a base cost, which `room` nets may use.
    #[inline(always)]
    fn cost_by(&self, base: u32, room: u32, node: u32) -> u128
        requires base { base ≤ GREATEST_BASE }
        requires room { 1 ≤ room }
        requires node_in { node < node_count self.now.space }
        ensures { result ≡ cost_of base (history_in self.now.space.view node) room
            (others_in self.now.space.view node) self.now.space.present }
    {
        cost(
            base,
            self.view.history(node),
            room,
            self.view.others(node),
            self.present,
        )
    }

    /// Returns what it costs to enter a node.
    #[tactic(auto, using(crate::proofs::Opened::cost_is, wavefront::proofs::Spaces::room_is, wavefront::proofs::Spaces::some_room))]
    pub fn cost(&self, node: u32) -> u128
        requires { node < node_count self.now.space }
        ensures { result ≡ entry_cost self.now.space node }
    {
        let device = self.problem.device();
        let base = base_cost(device.kind(node));
        let capacity = device.capacity(node).unwrap_or(0);
        self.cost_by(base, capacity, node)
    }

    /// Returns how many nets may use a wire.
    #[inline(always)]
    fn wire_room(&self) -> u32
        ensures room { result ≡
            wire_capacity self.now.space.device.mode self.now.space.device.width }
        ensures some { 1 ≤ result }
    {
        self.room
    }

    /// Returns what it costs to enter a wire.
    #[inline(always)]
    #[tactic(auto, using(crate::proofs::Opened::wire_paid))]
    pub fn wire_cost(&self, wire: u32) -> u128
        requires node_in { wire < node_count self.now.space }
        requires is { is_wire_at self.now.space.device wire ≡ true }
        ensures { result ≡ entry_cost self.now.space wire }
    {
        self.cost_by(WIRE_BASE, self.wire_room(), wire)
    }

    /// Returns what it costs to enter an input pin.
    #[tactic(auto, using(crate::proofs::Opened::pin_paid, crate::proofs::Opened::free_pin_paid))]
    pub fn pin_cost(&self, pin: u32) -> u128
        requires node_in { pin < node_count self.now.space }
        requires is { kind_of_node self.now.space.device pin ≡ Some Ipin }
        ensures { result ≡ entry_cost self.now.space pin }
    {
        if self.view.is_free(pin) {
            return PIN;
        }
        self.cost_by(INPUT_PIN_BASE, 1, pin)
    }

    /// Returns what it costs to enter a sink: 0 if it was never overused.
    #[tactic(auto, using(crate::proofs::Opened::new_sink_paid))]
    pub fn sink_cost(&self, sink: u32) -> u128
        requires node_in { sink < node_count self.now.space }
        requires is { is_sink self.now.space.device sink ≡ true }
        ensures { result ≡ entry_cost self.now.space sink }
    {
        if self.view.history(sink) == 0 {
            return 0;
        }
        self.cost(sink)
    }

    /// Returns true only if a wire has the least cost of a wire: no other net uses it, and it was
    /// never overused.
    #[inline(always)]
    #[tactic(auto, using(crate::proofs::Opened::free_paid))]
    pub fn is_free(&self, wire: u32) -> bool
        requires node_in { wire < node_count self.now.space }
        requires is { is_wire_at self.now.space.device wire ≡ true }
        ensures { IsTrue result → entry_cost self.now.space wire ≡ least_wire_cost }
    {
        self.view.is_free(wire)
    }

    /// Returns the box of a node.
    pub fn box_of(&self, node: u32) -> BoundingBox
        ensures { boxed result ≡ box_of_node self.now.space.device node }
    {
        BoundingBox::of_node_in(self.boxes, self.problem.device(), node)
    }

    /// Returns the least box around the sinks from place `from` of their list to the one before
    /// `until`.
    pub fn box_around(&self, from: usize, until: usize) -> BoundingBox
        requires some { from < until }
        requires there { until ≤ length self.now.space.net.sinks }
        ensures { (p : ℕ) → from ≤ p → p < until → IsInsideBox
            (box_of_node self.now.space.device (slice_index self.now.space.net.sinks p))
            (boxed result) }
    {
        let sinks = self.sinks();
        let mut around = self.box_of(sinks[from]);
        for at in from + 1..until {
            around = around.around(self.box_of(sinks[at]));
        }
        around
    }

    /// Returns a node's kind, or None if there is no such node.
    pub fn kind(&self, node: u32) -> Option<Kind>
        ensures { result ≡ kind_of_node self.now.space.device node }
    {
        self.problem.device().kind(node)
    }

    /// Lists the nodes to which edges lead from a node.
    pub fn successors(&self, node: u32, list: &mut SmallVec<u32, 8>) -> Result<(), AllocError>
        ensures { OnOk result ((to : ℕ) → Contains list.new.items to
            ↔ HasEdge self.now.space node to) }
    {
        self.problem.device().successors(node, list)
    }

    /// Returns a group.
    #[inline(always)]
    pub fn group(&self, group: u32) -> Group
        requires { group < length (groups_of self.now) }
        ensures group { result ≡ group_at (groups_of self.now) group }
        ensures few { result.tracks ≤ 64 }
        ensures small { result.base + 64 * result.stride < 2 ^ 30 }
    {
        self.groups.group(group)
    }

    /// Returns the neighbours of a group.
    #[inline(always)]
    pub fn neighbours(&self, group: u32) -> &[u32]
        ensures { result.now ≡ neighbours_of self.now.tables group }
    {
        self.groups.neighbours(group)
    }

    /// Returns the input pins that tap a group.
    #[inline(always)]
    pub fn taps(&self, group: u32) -> &[Tap]
        ensures { result.now ≡ taps_of self.now.tables group }
    {
        self.groups.taps(group)
    }

    /// Returns the groups and tracks that an output pin drives.
    pub fn drives(&self, pin: u32) -> &[Drive]
        ensures { result.now ≡ get_or self.now.drives pin [] }
    {
        self.drives.of(pin)
    }

    /// Returns whether a node is a wire.
    pub fn is_wire(&self, node: u32) -> bool
        ensures { IsTrue result ↔ HasPlace self.now.tables.wires node }
    {
        self.groups.is_wire(node)
    }

    /// Returns the group and track of a wire.
    pub fn place(&self, wire: u32) -> GroupTrack
        requires { HasPlace self.now.tables.wires wire }
        ensures { result ≡ place_of self.now.tables.wires wire }
    {
        self.groups.place(wire)
    }
}
