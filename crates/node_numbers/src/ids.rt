//! The number of a node, by arithmetic.

ghost use Rattle.std.specs.Prelude.{◌≡◌, ◌≤◌, ◌<◌, ◌==◌, ◌&&◌, nat_le, nat_lt, true, false};
ghost use Rattle.std.specs.List.{position};
ghost use Rattle.channel_tables.specs.Fabric.{IsFabric, is_between, is_block, is_pad};
ghost use Rattle.channel_tables.specs.Axes.{places_along, across};
ghost use Rattle.channel_tables.specs.Wires.{tracks_in, begins};
ghost use Rattle.node_numbers.specs.Nodes.{number_of, node_of};
ghost use Rattle.node_numbers.specs.Numbering.{is_terminal};
ghost use Rattle.node_numbers.specs.kept.WireIds.{wire_id};

use crate::numbers::NodeNumbers;
use channel_tables::{Axis, Kind, Node};

/// Returns the place of a number in a list.
fn position_of(numbers: &[u32], number: u32) -> Option<usize>
    ensures { result ≡ position (λ n. n == number) numbers.now }
{
    numbers.iter().position(|n| *n == number)
}

impl NodeNumbers {
    /// Returns whether a wire of a track begins at a place of the channels along an axis.
    #[tactic(auto, using(channel_tables::proofs::WireTables::begins_by_first))]
    pub(crate) fn begins(&self, axis: Axis, track: u32, place: u32) -> bool
        requires place { (1 ≤ place) × (place ≤ places_along axis self.now) }
        requires track { track < tracks_in self.now.mode self.now.width }
        ensures { result ≡ begins self.now (places_along axis self.now) track place }
    {
        u32::from(self.tables.wire_at(axis, track, place).first) == place
    }

    /// Returns whether a wire begins at a place of a channel along an axis. False if there is no
    /// such track, place or channel.
    fn is_wire(&self, axis: Axis, track: u32, place: u32, channel: u32) -> bool
        ensures { result ≡ ((is_between 1 (places_along axis self.now) place
            && (nat_le channel (places_along (across axis) self.now)
            && nat_lt track (tracks_in self.now.mode self.now.width)))
            && begins self.now (places_along axis self.now) track place) }
    {
        let layout = self.layout();
        let is_inside = (1 <= place && place <= layout.places(axis))
            && (channel <= layout.places(axis.across()) && track < layout.tracks());
        is_inside && self.begins(axis, track, place)
    }

    /// Returns the number of the wire above row `y` that begins at `x`.
    #[tactic(auto, using(crate::proofs::NumbersAtPlaces::above_by_row))]
    fn number_above(&self, x: u32, y: u32, track: u32) -> u32
        requires place { (1 ≤ x) × (x ≤ self.now.nx) }
        requires row { y ≤ self.now.ny }
        requires track { track < tracks_in self.now.mode self.now.width }
        requires begins { begins self.now self.now.nx track x ≡ true }
        ensures number { result ≡ wire_id self.now Kind.Chanx x y track }
        ensures limits { IsFabric self.now }
    {
        let step = self.tables.above_step(x);
        self.above_first(track, x) + y * step
    }

    /// Returns the number of the wire right of column `x` that begins at `y`.
    #[tactic(auto, using(crate::proofs::NumbersAtPlaces::right_by_column))]
    fn number_right(&self, x: u32, y: u32, track: u32) -> u32
        requires place { (1 ≤ y) × (y ≤ self.now.ny) }
        requires column { x ≤ self.now.nx }
        requires track { track < tracks_in self.now.mode self.now.width }
        requires begins { begins self.now self.now.ny track y ≡ true }
        ensures number { result ≡ wire_id self.now Kind.Chany x y track }
        ensures limits { IsFabric self.now }
    {
        let step = self.tables.right_step();
        self.right_first(track, y) + x * step
    }

    /// Returns the number of a wire above a row, or None if there is no such wire.
    fn id_above(&self, x: u32, y: u32, track: u32) -> Option<u32>
        ensures { result ≡ number_of self.now (node_of Kind.Chanx x y track) }
    {
        if self.is_wire(Axis::Row, track, x, y) {
            Some(self.number_above(x, y, track))
        } else {
            None
        }
    }

    /// Returns the number of a wire right of a column, or None if there is no such wire.
    fn id_right(&self, x: u32, y: u32, track: u32) -> Option<u32>
        ensures { result ≡ number_of self.now (node_of Kind.Chany x y track) }
    {
        if self.is_wire(Axis::Column, track, y, x) {
            Some(self.number_right(x, y, track))
        } else {
            None
        }
    }

    /// Returns the number of a node of a block, or None if there is no such node.
    fn id_at_block(&self, kind: Kind, x: u32, y: u32, number: u32) -> Option<u32>
        requires terminal { is_terminal kind ≡ true }
        requires block { is_block self.now x y ≡ true }
        ensures { result ≡ number_of self.now (node_of kind x y number) }
    {
        match position_of(self.numbers(kind), number) {
            None => None,
            Some(index) => Some(self.terminal_start(kind, x, y) + index as u32),
        }
    }

    /// Returns whether there is a pad with a number at (x, y).
    fn has_pad(&self, x: u32, y: u32, number: u32) -> bool
        ensures { result ≡ (is_pad self.now x y && nat_lt number self.now.architecture.io_rat) }
    {
        self.layout().is_pad(x, y) && number < self.layout().architecture().io_rat()
    }

    /// Returns the number of a pad's node, or None if there is no such node.
    fn id_of_pad(&self, kind: Kind, x: u32, y: u32, number: u32) -> Option<u32>
        requires terminal { is_terminal kind ≡ true }
        requires perimeter { is_block self.now x y ≡ false }
        ensures { result ≡ number_of self.now (node_of kind x y number) }
    {
        if self.has_pad(x, y, number) {
            Some(self.terminal_start(kind, x, y) + number)
        } else {
            None
        }
    }

    /// Returns the number of a terminal or pin, or None if there is no such node.
    fn id_of_terminal(&self, kind: Kind, x: u32, y: u32, number: u32) -> Option<u32>
        requires { is_terminal kind ≡ true }
        ensures { result ≡ number_of self.now (node_of kind x y number) }
    {
        if self.layout().is_block(x, y) {
            self.id_at_block(kind, x, y, number)
        } else {
            self.id_of_pad(kind, x, y, number)
        }
    }

    /// Returns the number of a node, or None if there is no such node.
    pub(crate) fn id_of(&self, node: Node) -> Option<u32>
        ensures { result ≡ number_of self.now node }
    {
        match node.kind {
            Kind::Source | Kind::Sink | Kind::Opin | Kind::Ipin => {
                self.id_of_terminal(node.kind, node.x, node.y, node.number)
            }
            Kind::Chanx => self.id_above(node.x, node.y, node.number),
            Kind::Chany => self.id_right(node.x, node.y, node.number),
        }
    }
}
