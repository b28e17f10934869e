//! The successors of a node, from its place by arithmetic.

ghost use Rattle.std.specs.Prelude.{◌≡◌, OnOk, OnErr, IsOk, ℕ, ◌+◌, ◌<◌, ◌≤◌, ◌++◌, true, length, map};
ghost use Rattle.arch_file.specs.Architecture.{most_pins};
ghost use Rattle.smallvec.specs.SmallVec.{HasRoomFor};
ghost use Rattle.channel_tables.specs.Axes.{places_along, across};
ghost use Rattle.channel_tables.specs.Fabric.{IsFabric};
ghost use Rattle.rr_edges.specs.kept.Pushes.{Pushes};
ghost use Rattle.rr_edges.specs.kept.NodeSuccessors.{node_successors, IsAtPlace};
ghost use Rattle.channel_tables.specs.Wires.{tracks_in, begins, last_of};
ghost use Rattle.channel_tables.specs.Channels.{first_of};
ghost use Rattle.rr_edges.specs.kept.Channels.{wire_along, meeting_of, beside_of};
ghost use Rattle.node_numbers.specs.Numbering.{block_numbers};
ghost use Rattle.node_numbers.specs.Starts.{place_start};
ghost use Rattle.rr_edges.specs.kept.WireSuccessors.{pins_beside};
ghost use Rattle.rr_edges.specs.kept.Fanouts.{numbers_of, runs_of, run_along, pins_of_column, pins_at, fanout_list, row_wire_list, column_wire_list, IsSmallRun, IsSmallMeeting, IsSmallTaps, IsSmallFanout};

use crate::device_graph::DeviceGraph;
use crate::fanout::{Fanout, Meeting, NumberRun, Pair, Taps};
use channel_tables::{Axis, Kind, Node, Side};
use smallvec::SmallVec;
use std::alloc::AllocError;

impl DeviceGraph {
    /// The wires of a track through place `x` above row `y` and the rows over it.
    #[inline(always)]
    #[tactic(auto, using(crate::proofs::WireFanouts::above_number, crate::proofs::WireFanouts::first_upto))]
    fn run_above(&self, track: u32, x: u32, y: u32) -> NumberRun
        requires place { (1 ≤ x) × (x ≤ self.now.nx) }
        requires row { y ≤ self.now.ny }
        requires track { track < tracks_in self.now.mode self.now.width }
        ensures run { result ≡ run_along Axis.Row self.now track y
            (first_of self.now self.now.nx track x) }
        ensures small { IsSmallRun result }
    {
        let wire = self.tables().wire_at(Axis::Row, track, x);
        let place = u32::from(wire.first);
        let step = self.tables().above_step(place);
        let row = self.ny() * self.tables().wires_before(Axis::Row, place) + u32::from(wire.number);
        NumberRun {
            first: self.nodes.kind_start(Kind::Chanx) + row + y * step,
            step,
        }
    }

    /// The wires of a track through place `y` right of column `x` and the columns after it.
    #[inline(always)]
    #[tactic(auto, using(crate::proofs::WireFanouts::right_number))]
    fn run_right(&self, track: u32, x: u32, y: u32) -> NumberRun
        requires place { (1 ≤ y) × (y ≤ self.now.ny) }
        requires column { x ≤ self.now.nx }
        requires track { track < tracks_in self.now.mode self.now.width }
        ensures run { result ≡ run_along Axis.Column self.now track x
            (first_of self.now self.now.ny track y) }
        ensures small { IsSmallRun result }
    {
        let step = self.tables().right_step();
        let number = u32::from(self.tables().wire_at(Axis::Column, track, y).number);
        NumberRun {
            first: self.nodes.kind_start(Kind::Chany) + number + x * step,
            step,
        }
    }

    /// The wires of a track through a place of a channel along an axis and of those after it.
    #[inline(always)]
    pub(crate) fn run(&self, axis: Axis, track: u32, place: u32, channel: u32) -> NumberRun
        requires place { (1 ≤ place) × (place ≤ places_along axis self.now) }
        requires channel { channel ≤ places_along (across axis) self.now }
        requires track { track < tracks_in self.now.mode self.now.width }
        ensures run { result ≡ run_along axis self.now track channel
            (first_of self.now (places_along axis self.now) track place) }
        ensures small { IsSmallRun result }
    {
        match axis {
            Axis::Row => self.run_above(track, place, channel),
            Axis::Column => self.run_right(track, channel, place),
        }
    }

    /// Those that touch a corner, where a channel across lies: one before the first place, and one
    /// after each.
    #[inline(always)]
    #[tactic(auto, unfolding(crate::specs::kept::Channels::meeting_of))]
    fn meeting(&self, axis: Axis, track: u32, corner: u32, channel: u32) -> Meeting
        requires corner { corner ≤ places_along axis self.now }
        requires channel { channel ≤ places_along (across axis) self.now }
        requires track { track < tracks_in self.now.mode self.now.width }
        ensures meeting { runs_of result ≡ map (run_along axis self.now track channel)
            (meeting_of self.now (places_along axis self.now) track corner) }
        ensures small { IsSmallMeeting result }
    {
        let places = self.layout().places(axis);
        if corner == 0 {
            return Meeting {
                one: self.run(axis, track, 1, channel),
                two: None,
            };
        }
        let one = self.run(axis, track, corner, channel);
        if corner >= places
            || self.tables().wire_at(axis, track, corner).first
                == self.tables().wire_at(axis, track, corner + 1).first
        {
            return Meeting { one, two: None };
        }
        let two = self.run(axis, track, corner + 1, channel);
        Meeting {
            one,
            two: Some(two),
        }
    }

    /// The wire that ends just before the wire of a track that passes the places from `first` to
    /// `last`, and the one that begins just after it.
    #[inline(always)]
    #[tactic(auto, using(crate::proofs::WireFanouts::behind_first), unfolding(crate::specs::kept::Channels::beside_of))]
    fn beside(&self, axis: Axis, track: u32, first: u32, last: u32, channel: u32) -> Pair
        requires place { (1 ≤ first) × (first ≤ places_along axis self.now) }
        requires channel { channel ≤ places_along (across axis) self.now }
        requires track { track < tracks_in self.now.mode self.now.width }
        requires begins { begins self.now (places_along axis self.now) track first ≡ true }
        requires last { last ≡ last_of self.now (places_along axis self.now) track first }
        ensures { numbers_of result ≡ map (wire_along axis self.now track channel)
            (beside_of self.now (places_along axis self.now) track first last) }
    {
        Pair {
            one: if first > 1 {
                Some(self.run(axis, track, first - 1, channel).first)
            } else {
                None
            },
            two: if last < self.layout().places(axis) {
                Some(self.run(axis, track, last + 1, channel).first)
            } else {
                None
            },
        }
    }

    /// Where a track's wire that begins at a place of the channels along an axis ends.
    #[inline(always)]
    #[tactic(auto, using(crate::proofs::WireFanouts::wire_end, crate::proofs::WireFanouts::end_within))]
    fn end(&self, axis: Axis, track: u32, place: u32) -> u32
        requires place { (1 ≤ place) × (place ≤ places_along axis self.now) }
        requires begins { begins self.now (places_along axis self.now) track place ≡ true }
        requires track { track < tracks_in self.now.mode self.now.width }
        ensures end { result ≡ last_of self.now (places_along axis self.now) track place }
        ensures within { (place ≤ result) × (result ≤ places_along axis self.now) }
        ensures limits { IsFabric self.now }
    {
        u32::from(self.tables().wire_at(axis, track, place).last)
    }

    /// How many input pins are in a column of blocks.
    #[inline(always)]
    fn column_pins(&self) -> u32
        ensures count { result ≡ pins_of_column self.now }
        ensures few { result ≤ 32768 }
        ensures limits { IsFabric self.now }
    {
        2 * self.layout().architecture().io_rat() + self.ny() * self.nodes.number_count(Kind::Ipin)
    }

    /// The number of the first input pin of column `x`.
    #[inline(always)]
    #[tactic(auto, using(crate::proofs::WireFanouts::first_of_column))]
    fn column_start(&self, x: u32) -> u32
        requires { (1 ≤ x) × (x ≤ self.now.nx + 1) }
        ensures start { result ≡ place_start self.now Kind.Ipin x 0 }
        ensures few { result < 16000000 }
    {
        let before = self.ny() * self.layout().architecture().io_rat()
            + (x - 1) * self.column_pins();
        self.nodes.kind_start(Kind::Ipin) + before
    }

    /// The number of the first input pin of row `y` in a column of blocks.
    #[inline(always)]
    #[tactic(auto, using(crate::proofs::WireFanouts::first_of_block))]
    fn block_start(&self, x: u32, y: u32) -> u32
        requires column { (1 ≤ x) × (x ≤ self.now.nx) }
        requires row { (1 ≤ y) × (y ≤ self.now.ny + 1) }
        ensures start { result ≡ place_start self.now Kind.Ipin x y }
        ensures few { result < 16777216 }
    {
        let before = self.layout().architecture().io_rat()
            + (y - 1) * self.nodes.number_count(Kind::Ipin);
        self.column_start(x) + before
    }

    /// The number of the first input pad of row `y` in a column beside the blocks.
    #[inline(always)]
    #[tactic(auto, using(crate::proofs::WireFanouts::first_of_pads))]
    fn pad_start(&self, x: u32, y: u32) -> u32
        requires column { x ≡ self.now.nx + 1 }
        requires row { (1 ≤ y) × (y ≤ self.now.ny) }
        ensures start { result ≡ place_start self.now Kind.Ipin x y }
        ensures few { result < 16777216 }
    {
        self.column_start(x) + (y - 1) * self.layout().architecture().io_rat()
    }

    /// Those of a row's input pins that are at `places`, from the one of number `start` on.
    #[inline(always)]
    fn taps_in_row<'a>(&self, places: &'a [u8], start: u32) -> Taps<'a>
        requires few { length places.now ≤ most_pins }
        requires small { start < 16777216 }
        ensures places { result.places.now ≡ places.now }
        ensures start { result.start ≡ start }
        ensures step { result.step ≡ pins_of_column self.now }
        ensures small { IsSmallTaps result }
    {
        Taps {
            places,
            start,
            step: self.column_pins(),
        }
    }

    /// Those of the input pins of a column of blocks that are at `places`, from the one of number
    /// `start` on.
    #[inline(always)]
    fn taps_in_column<'a>(&self, places: &'a [u8], start: u32) -> Taps<'a>
        requires few { length places.now ≤ most_pins }
        requires small { start < 16777216 }
        ensures places { result.places.now ≡ places.now }
        ensures start { result.start ≡ start }
        ensures step { result.step ≡ length (block_numbers self.now Kind.Ipin) }
        ensures small { IsSmallTaps result }
    {
        Taps {
            places,
            start,
            step: self.nodes.number_count(Kind::Ipin),
        }
    }

    /// Those of the input pads of a column beside the blocks that are at `places`, from the one of
    /// number `start` on.
    #[inline(always)]
    fn taps_beside<'a>(&self, places: &'a [u8], start: u32) -> Taps<'a>
        requires few { length places.now ≤ most_pins }
        requires small { start < 16777216 }
        ensures places { result.places.now ≡ places.now }
        ensures start { result.start ≡ start }
        ensures step { result.step ≡ self.now.architecture.io_rat }
        ensures small { IsSmallTaps result }
    {
        Taps {
            places,
            start,
            step: self.layout().architecture().io_rat(),
        }
    }

    /// The pins that tap a track above row `y` from below, from place `x` on.
    #[inline(always)]
    #[tactic(auto, using(crate::proofs::WireFanouts::row_pins, crate::proofs::WireFanouts::row_pads))]
    fn taps_under(&self, track: u32, x: u32, y: u32) -> Taps<'_>
        requires place { (1 ≤ x) × (x ≤ self.now.nx) × (y ≤ self.now.ny) }
        requires track { track < tracks_in self.now.mode self.now.width }
        ensures pins { (k : ℕ) → x + k ≤ self.now.nx
            → pins_at result k ≡ pins_beside self.now (λ s. s.top) (x + k) y track }
        ensures small { IsSmallTaps result }
    {
        let first = self.column_start(x);
        if y == 0 {
            return self.taps_in_row(self.tables().tapping(Side::Pad, track), first);
        }
        self.taps_in_row(
            self.tables().tapping(Side::Top, track),
            self.block_start(x, y),
        )
    }

    /// The pins that tap a track above row `y` from above, from place `x` on.
    #[inline(always)]
    #[tactic(auto, using(crate::proofs::WireFanouts::row_pins, crate::proofs::WireFanouts::row_pads))]
    fn taps_over(&self, track: u32, x: u32, y: u32) -> Taps<'_>
        requires place { (1 ≤ x) × (x ≤ self.now.nx) × (y ≤ self.now.ny) }
        requires track { track < tracks_in self.now.mode self.now.width }
        ensures pins { (k : ℕ) → x + k ≤ self.now.nx
            → pins_at result k ≡ pins_beside self.now (λ s. s.bottom) (x + k) (y + 1) track }
        ensures small { IsSmallTaps result }
    {
        let ny = self.ny();
        let start = self.block_start(x, y + 1);
        if y == ny {
            return self.taps_in_row(self.tables().tapping(Side::Pad, track), start);
        }
        self.taps_in_row(self.tables().tapping(Side::Bottom, track), start)
    }

    /// The pins that tap a track right of column `x` from the left, from place `y` on.
    #[inline(always)]
    #[tactic(auto, using(crate::proofs::WireFanouts::column_pins, crate::proofs::WireFanouts::column_pads))]
    fn taps_before(&self, track: u32, x: u32, y: u32) -> Taps<'_>
        requires place { (1 ≤ y) × (y ≤ self.now.ny) × (x ≤ self.now.nx) }
        requires track { track < tracks_in self.now.mode self.now.width }
        ensures pins { (k : ℕ) → y + k ≤ self.now.ny
            → pins_at result k ≡ pins_beside self.now (λ s. s.right) x (y + k) track }
        ensures small { IsSmallTaps result }
    {
        if x == 0 {
            let start = self.nodes.terminal_start(Kind::Ipin, x, y);
            return self.taps_beside(self.tables().tapping(Side::Pad, track), start);
        }
        self.taps_in_column(
            self.tables().tapping(Side::Right, track),
            self.block_start(x, y),
        )
    }

    /// The pins that tap a track right of column `x` from the right, from place `y` on.
    #[inline(always)]
    #[tactic(auto, using(crate::proofs::WireFanouts::column_pins, crate::proofs::WireFanouts::column_pads))]
    fn taps_behind(&self, track: u32, x: u32, y: u32) -> Taps<'_>
        requires place { (1 ≤ y) × (y ≤ self.now.ny) × (x ≤ self.now.nx) }
        requires track { track < tracks_in self.now.mode self.now.width }
        ensures pins { (k : ℕ) → y + k ≤ self.now.ny
            → pins_at result k ≡ pins_beside self.now (λ s. s.left) (x + 1) (y + k) track }
        ensures small { IsSmallTaps result }
    {
        if x == self.nx() {
            let start = self.pad_start(x + 1, y);
            return self.taps_beside(self.tables().tapping(Side::Pad, track), start);
        }
        let start = self.block_start(x + 1, y);
        self.taps_in_column(self.tables().tapping(Side::Left, track), start)
    }

    /// What a track's wire that begins at place `x` above row `y` leads to.
    #[inline(always)]
    pub(crate) fn row_fanout(&self, track: u32, x: u32, y: u32) -> Fanout<'_>
        requires wire { (1 ≤ x) × (x ≤ self.now.nx) × (begins self.now self.now.nx track x ≡ true) }
        requires row { y ≤ self.now.ny }
        requires track { track < tracks_in self.now.mode self.now.width }
        ensures list { fanout_list result ≡ row_wire_list self.now x y track }
        ensures small { IsSmallFanout result }
    {
        let last = self.end(Axis::Row, track, x);
        Fanout {
            axis: Axis::Row,
            low: self.taps_under(track, x, y),
            high: self.taps_over(track, x, y),
            places: last - x + 1,
            beside: self.beside(Axis::Row, track, x, last, y),
            crossing: self.meeting(Axis::Column, track, y, x - 1),
        }
    }

    /// What a track's wire that begins at place `y` right of column `x` leads to.
    #[inline(always)]
    pub(crate) fn column_fanout(&self, track: u32, x: u32, y: u32) -> Fanout<'_>
        requires wire { (1 ≤ y) × (y ≤ self.now.ny) × (begins self.now self.now.ny track y ≡ true) }
        requires column { x ≤ self.now.nx }
        requires track { track < tracks_in self.now.mode self.now.width }
        ensures list { fanout_list result ≡ column_wire_list self.now x y track }
        ensures small { IsSmallFanout result }
    {
        let last = self.end(Axis::Column, track, y);
        Fanout {
            axis: Axis::Column,
            low: self.taps_before(track, x, y),
            high: self.taps_behind(track, x, y),
            places: last - y + 1,
            beside: self.beside(Axis::Column, track, y, last, x),
            crossing: self.meeting(Axis::Row, track, x, y - 1),
        }
    }

    /// How many successors a node has.
    #[tactic(auto)]
    pub(crate) fn degree_of(&self, node: Node) -> u32
        requires { IsAtPlace self.now node }
        ensures { result ≡ length (node_successors self.now node) }
    {
        match node.kind {
            Kind::Source => self.count_pins_of_source(node),
            Kind::Sink => 0,
            Kind::Opin => self.count_wires_of_opin(node),
            Kind::Ipin => self.count_sink_of_ipin(node),
            Kind::Chanx => self.row_fanout(node.number, node.x, node.y).count(),
            Kind::Chany => self.column_fanout(node.number, node.x, node.y).count(),
        }
    }

    /// The successors of a node.
    #[tactic(auto, using(crate::proofs::Pushes::pushed_none))]
    pub(crate) fn push_successors(&self, list: &mut SmallVec<u32, 8>, node: Node)
        requires room { HasRoomFor list.old (length (node_successors self.now node)) }
        requires place { IsAtPlace self.now node }
        ensures { Pushes list.old (node_successors self.now node) list.new }
    {
        match node.kind {
            Kind::Source => self.push_pins_of_source(list, node),
            Kind::Sink => {}
            Kind::Opin => self.push_wires_of_opin(list, node),
            Kind::Ipin => self.push_sink_of_ipin(list, node),
            Kind::Chanx => self.row_fanout(node.number, node.x, node.y).push(list),
            Kind::Chany => self.column_fanout(node.number, node.x, node.y).push(list),
        }
    }

    /// Pushes the successors of a node, if memory is found for all of them.
    #[inline(always)]
    #[tactic(auto)]
    pub(crate) fn fill(&self, list: &mut SmallVec<u32, 8>, node: Node) -> Result<(), AllocError>
        requires { IsAtPlace self.now node }
        ensures filled { OnOk result (list.new.items
            ≡ list.old.items ++ node_successors self.now node) }
        ensures refused { OnErr result (list.new ≡ list.old) }
        ensures room { HasRoomFor list.old (length (node_successors self.now node)) → IsOk result }
        ensures kept { list.old.capacity ≤ list.new.capacity }
    {
        match node.kind {
            Kind::Chanx => self.row_fanout(node.number, node.x, node.y).fill(list)?,
            Kind::Chany => self.column_fanout(node.number, node.x, node.y).fill(list)?,
            _ => {
                list.reserve(self.degree_of(node) as usize)?;
                self.push_successors(list, node);
            }
        }
        Ok(())
    }
}
