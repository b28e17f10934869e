//! The numbers of nodes at a place, by arithmetic.

ghost use Rattle.std.specs.Prelude.{◌≡◌, ℕ, ◌+◌, ◌≤◌, ◌<◌, true, length, Some};
ghost use Rattle.arch_file.specs.Architecture.{most_pins};
ghost use Rattle.channel_tables.specs.Fabric.{IsFabric};
ghost use Rattle.channel_tables.specs.Wires.{tracks_in, begins};
ghost use Rattle.channel_tables.specs.LastPlaces.{last_by};
ghost use Rattle.node_numbers.specs.Nodes.{node_at};
ghost use Rattle.node_numbers.specs.Starts.{kind_start, place_start};
ghost use Rattle.node_numbers.specs.Numbering.{is_terminal, block_numbers};
ghost use Rattle.node_numbers.specs.kept.Columns.{columns_length, rows_length};
ghost use Rattle.node_numbers.specs.kept.WireIds.{wire_id};

use crate::block::numbers;
use crate::numbers::NodeNumbers;
use crate::starts::kind_start;
use channel_tables::{Axis, Kind, Layout, Node};

/// Returns how many terminals or pins of a kind are in the columns before `x`, if a block has
/// `count`.
#[tactic(auto, unfolding(crate::specs::kept::Columns::columns_length))]
fn columns_length(layout: &Layout, count: u32, x: u32) -> u32
    requires few { count ≤ most_pins }
    requires within { x ≤ layout.now.nx + 1 }
    ensures length { result ≡ columns_length layout.now count x }
    ensures few { result ≤ 800000 }
{
    if x == 0 {
        return 0;
    }
    let ny = layout.ny();
    let pads = layout.architecture().io_rat();
    let inner = 2 * pads + ny * count;
    ny * pads + (x - 1) * inner
}

/// Returns how many are in the rows before `y` of column `x`.
#[tactic(auto, unfolding(crate::specs::kept::Columns::rows_length))]
fn rows_length(layout: &Layout, count: u32, x: u32, y: u32) -> u32
    requires few { count ≤ most_pins }
    requires within { y ≤ layout.now.ny + 1 }
    ensures length { result ≡ rows_length layout.now count x y }
    ensures few { result ≤ 8000 }
{
    let nx = layout.nx();
    let pads = layout.architecture().io_rat();
    if 1 <= x && x <= nx {
        if y == 0 { 0 } else { pads + (y - 1) * count }
    } else {
        y.saturating_sub(1) * pads
    }
}

impl NodeNumbers {
    /// Returns the numbers of the nodes of a kind at a block.
    pub fn numbers(&self, kind: Kind) -> &[u32]
        ensures numbers { result.now ≡ block_numbers self.now kind }
        ensures limits { IsFabric self.now }
    {
        numbers(&self.block, kind)
    }

    /// Returns how many nodes of a kind a block has.
    #[tactic(auto, using(crate::proofs::PlaceStarts::few_numbers))]
    pub fn number_count(&self, kind: Kind) -> u32
        ensures count { result ≡ length (block_numbers self.now kind) }
        ensures few { result ≤ most_pins }
        ensures limits { IsFabric self.now }
    {
        self.numbers(kind).len() as u32
    }

    /// Returns how many nodes come before those of a kind.
    #[tactic(auto, using(crate::proofs::NumbersAtPlaces::small_start))]
    pub fn kind_start(&self, kind: Kind) -> u32
        ensures start { result ≡ kind_start self.now kind }
        ensures few { result < 8388608 }
    {
        kind_start(self.starts, kind)
    }

    /// Returns how many nodes come before the terminals or pins of a kind at (x, y).
    #[tactic(auto, using(crate::proofs::PlaceStarts::terminal_start, crate::proofs::PlaceStarts::few_numbers))]
    pub fn terminal_start(&self, kind: Kind, x: u32, y: u32) -> u32
        requires terminal { is_terminal kind ≡ true }
        requires column { x ≤ self.now.nx + 1 }
        requires row { y ≤ self.now.ny + 1 }
        ensures start { result ≡ place_start self.now kind x y }
        ensures few { result < 16777216 }
        ensures limits { IsFabric self.now }
    {
        let count = self.number_count(kind);
        let columns = columns_length(self.layout(), count, x);
        let rows = rows_length(self.layout(), count, x, y);
        self.kind_start(kind) + columns + rows
    }

    /// Returns the number of the wire of a track that begins at place `x` above row 0.
    #[tactic(auto, using(crate::proofs::NumbersAtPlaces::above_first, channel_tables::proofs::WireTables::wire_here))]
    pub(crate) fn above_first(&self, track: u32, x: u32) -> u32
        requires place { (1 ≤ x) × (x ≤ self.now.nx) }
        requires track { track < tracks_in self.now.mode self.now.width }
        requires begins { begins self.now self.now.nx track x ≡ true }
        ensures first { result ≡ wire_id self.now Kind.Chanx x 0 track }
        ensures few { result < 16777216 }
    {
        let number = u32::from(self.tables.wire_at(Axis::Row, track, x).number);
        let before = self.tables.wires_before(Axis::Row, x);
        self.kind_start(Kind::Chanx) + (self.layout().ny() * before + number)
    }

    /// Returns the number of the wire of a track that begins at place `y` right of column 0.
    #[tactic(auto, using(crate::proofs::NumbersAtPlaces::right_first, channel_tables::proofs::WireTables::wire_here))]
    pub(crate) fn right_first(&self, track: u32, y: u32) -> u32
        requires place { (1 ≤ y) × (y ≤ self.now.ny) }
        requires track { track < tracks_in self.now.mode self.now.width }
        requires begins { begins self.now self.now.ny track y ≡ true }
        ensures first { result ≡ wire_id self.now Kind.Chany 0 y track }
        ensures few { result < 16777216 }
    {
        let wire = self.tables.wire_at(Axis::Column, track, y);
        self.kind_start(Kind::Chany) + u32::from(wire.number)
    }

    /// Returns the last place of a node along its channel, or its x if it is no wire.
    #[tactic(auto, using(crate::proofs::NumbersAtPlaces::last_above, crate::proofs::NumbersAtPlaces::last_right, crate::proofs::NumbersAtPlaces::place_above, crate::proofs::NumbersAtPlaces::track_above, crate::proofs::NumbersAtPlaces::place_right, crate::proofs::NumbersAtPlaces::track_right))]
    pub fn last_of(&self, node: Node) -> u32
        requires { (id : ℕ) × (node_at self.now id ≡ Some node) }
        ensures { result ≡ last_by node.kind self.now node }
    {
        match node.kind {
            Kind::Source | Kind::Sink | Kind::Opin | Kind::Ipin => node.x,
            Kind::Chanx => u32::from(self.tables.wire_at(Axis::Row, node.number, node.x).last),
            Kind::Chany => u32::from(self.tables.wire_at(Axis::Column, node.number, node.y).last),
        }
    }
}
