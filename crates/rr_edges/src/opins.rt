//! The successors of output pins, from their places by arithmetic.

ghost use Rattle.std.specs.Prelude.{◌≡◌, ◌+◌, ◌<◌, ◌≤◌, if◌then◌else◌, [], true, length, All};
ghost use Rattle.std.specs.List.{filter, flat_map};
ghost use Rattle.smallvec.specs.SmallVec.{HasRoomFor};
ghost use Rattle.channel_tables.specs.Wires.{tracks_in};
ghost use Rattle.rr_edges.specs.kept.PinSuccessors.{taps_track, tapped_rows, tapped_column, opin_successors};
ghost use Rattle.rr_edges.specs.kept.Pushes.{Pushes};
ghost use Rattle.channel_tables.specs.Axes.{places_along, across};
ghost use Rattle.rr_edges.specs.kept.Terminals.{IsTapper, tapped_wire, all_tracks, rows_of_tracks, wires_on, AreSides, IsTerminal, sides_of_pin, sides_of_pad, opin_sides, opin_fc};
ghost use Rattle.channel_tables.specs.Fabric.{most_tracks};

use crate::device_graph::DeviceGraph;
use arch_file::{Pin, Sides};
use channel_tables::{Axis, Layout, Mode, Node};
use smallvec::SmallVec;

/// How a pin taps tracks: by Fc, and how many of them.
#[derive(Clone, Copy, Debug)]
pub(crate) struct Tapper {
    pub(crate) fc: u64,
    pub(crate) count: u32,
    pub(crate) number: u32,
}

/// The sides on which an output pin of a block is reached; none if it has a dedicated network.
fn sides_of_pin(pin: Option<Pin>) -> Sides
    ensures { result ≡ sides_of_pin pin }
{
    let none = Sides {
        top: false,
        bottom: false,
        left: false,
        right: false,
    };
    match pin {
        None => none,
        Some(pin) => { if pin.global { none } else { pin.sides } }
    }
}

/// How many sides they are.
fn count_sides(sides: Sides) -> u32
    ensures count { result ≡ (if sides.bottom then 1 else 0) + (if sides.top then 1 else 0)
        + (if sides.left then 1 else 0) + (if sides.right then 1 else 0) }
    ensures few { result ≤ 4 }
{
    u32::from(sides.bottom) + u32::from(sides.top) + u32::from(sides.left) + u32::from(sides.right)
}

/// The side of a place of the perimeter on which there is a channel.
fn sides_of_pad(layout: &Layout, x: u32, y: u32) -> Sides
    ensures { result ≡ sides_of_pad layout.now x y }
{
    let right = x == 0;
    let left = !right && x == layout.nx() + 1;
    let top = !right && !left && y == 0;
    Sides {
        top,
        bottom: !right && !left && !top,
        left,
        right,
    }
}

/// Whether the pin taps the track.
#[tactic(auto, unfolding(channel_tables::specs::Pins::tapped_tracks))]
fn taps_as(layout: &Layout, tapper: Tapper, track: u32) -> bool
    requires { IsTapper layout.now tapper }
    ensures { result ≡ taps_track layout.now tapper.fc tapper.number track }
{
    layout.taps_by_count(tapper.count, tapper.number, track)
}

impl DeviceGraph {
    /// The track's wire through a place of a channel along an axis, if the pin taps it.
    fn push_track(
        &self,
        list: &mut SmallVec<u32, 8>,
        tapper: Tapper,
        axis: Axis,
        place: u32,
        channel: u32,
        track: u32,
    )
        requires room { HasRoomFor list.old (length
            (tapped_wire axis self.now tapper.fc tapper.number place channel track)) }
        requires tapper { IsTapper self.now tapper }
        requires place { (1 ≤ place) × (place ≤ places_along axis self.now) }
        requires channel { channel ≤ places_along (across axis) self.now }
        requires track { track < tracks_in self.now.mode self.now.width }
        ensures { Pushes list.old (tapped_wire axis self.now tapper.fc tapper.number place channel
            track) list.new }
    {
        if taps_as(self.layout(), tapper, track) {
            list.push_reserved(self.run(axis, track, place, channel).first);
        }
    }

    /// The wires of the tracks through a place of a channel along an axis that the pin taps.
    #[tactic(auto, using(crate::proofs::Pushes::pushed_each, crate::proofs::Pushes::room_each))]
    fn push_tracks(
        &self,
        list: &mut SmallVec<u32, 8>,
        tapper: Tapper,
        axis: Axis,
        place: u32,
        channel: u32,
        tracks: &[u8],
    )
        requires room { HasRoomFor list.old (length (flat_map
            (tapped_wire axis self.now tapper.fc tapper.number place channel) tracks.now)) }
        requires tapper { IsTapper self.now tapper }
        requires place { (1 ≤ place) × (place ≤ places_along axis self.now) }
        requires channel { channel ≤ places_along (across axis) self.now }
        requires tracks { All (λ t. t < tracks_in self.now.mode self.now.width) tracks.now }
        ensures { Pushes list.old (flat_map
            (tapped_wire axis self.now tapper.fc tapper.number place channel) tracks.now) list.new }
    {
        for track in tracks {
            self.push_track(list, tapper, axis, place, channel, u32::from(*track));
        }
    }

    /// Those through a column, above a row, if that row is asked for.
    #[tactic(auto, using(crate::proofs::Pushes::pushed_none))]
    fn push_above_if(
        &self,
        list: &mut SmallVec<u32, 8>,
        tapper: Tapper,
        column: u32,
        row: u32,
        tracks: &[u8],
        wanted: bool,
    )
        requires room { HasRoomFor list.old (length (if wanted then flat_map
            (tapped_wire Axis.Row self.now tapper.fc tapper.number column row) tracks.now
            else [])) }
        requires tapper { IsTapper self.now tapper }
        requires place { wanted ≡ true
            → (1 ≤ column) × (column ≤ self.now.nx) × (row ≤ self.now.ny) }
        requires tracks { All (λ t. t < tracks_in self.now.mode self.now.width) tracks.now }
        ensures { Pushes list.old (if wanted then flat_map
            (tapped_wire Axis.Row self.now tapper.fc tapper.number column row) tracks.now
            else []) list.new }
    {
        if wanted {
            self.push_tracks(list, tapper, Axis::Row, column, row, tracks);
        }
    }

    /// Those above the row before and above the row.
    #[tactic(auto, using(crate::proofs::Pushes::pushed_then, crate::proofs::Pushes::room_first, crate::proofs::Pushes::room_then))]
    fn push_tracks_above(
        &self,
        list: &mut SmallVec<u32, 8>,
        tapper: Tapper,
        column: u32,
        row: u32,
        tracks: &[u8],
        sides: Sides,
    )
        requires room { HasRoomFor list.old (length
            (rows_of_tracks self.now tapper.fc tapper.number column row sides tracks.now)) }
        requires tapper { IsTapper self.now tapper }
        requires sides { AreSides self.now column row sides }
        requires tracks { All (λ t. t < tracks_in self.now.mode self.now.width) tracks.now }
        ensures { Pushes list.old (rows_of_tracks self.now tapper.fc tapper.number column row sides
            tracks.now) list.new }
    {
        let below = row.saturating_sub(1);
        self.push_above_if(list, tapper, column, below, tracks, sides.bottom);
        self.push_above_if(list, tapper, column, row, tracks, sides.top);
    }

    /// All those above the two rows, where there are wires through the column.
    #[tactic(auto, using(crate::proofs::Pushes::pushed_further, crate::proofs::Pushes::room_further), unfolding(crate::specs::kept::PinSuccessors::tapped_rows))]
    fn push_rows_through(
        &self,
        list: &mut SmallVec<u32, 8>,
        tapper: Tapper,
        column: u32,
        row: u32,
        sides: Sides,
    )
        requires room { HasRoomFor list.old (length
            (tapped_rows self.now tapper.fc tapper.number column row sides.bottom sides.top)) }
        requires tapper { IsTapper self.now tapper }
        requires column { (1 ≤ column) × (column ≤ self.now.nx) }
        requires sides { AreSides self.now column row sides }
        ensures { Pushes list.old (tapped_rows self.now tapper.fc tapper.number column row
            sides.bottom sides.top) list.new }
    {
        let mut tracks = self.tables().tracks_through(Axis::Row, column);
        for before in 0..column {
            let (begun, rest) = self.tables().split_tracks(tracks, column, 1 + before);
            self.push_tracks_above(list, tapper, column, row, begun, sides);
            tracks = rest;
        }
    }

    /// All those above the two rows.
    #[tactic(auto, using(crate::proofs::OpinWires::rows_none, crate::proofs::Pushes::pushed_none))]
    fn push_rows(
        &self,
        list: &mut SmallVec<u32, 8>,
        tapper: Tapper,
        column: u32,
        row: u32,
        sides: Sides,
    )
        requires room { HasRoomFor list.old (length
            (tapped_rows self.now tapper.fc tapper.number column row sides.bottom sides.top)) }
        requires tapper { IsTapper self.now tapper }
        requires sides { AreSides self.now column row sides }
        ensures { Pushes list.old (tapped_rows self.now tapper.fc tapper.number column row
            sides.bottom sides.top) list.new }
    {
        if sides.bottom || sides.top {
            self.push_rows_through(list, tapper, column, row, sides);
        }
    }

    /// All those right of a column.
    #[tactic(auto, using(crate::proofs::OpinWires::column_by_track, channel_tables::proofs::TrackOrder::since_small))]
    fn push_column(&self, list: &mut SmallVec<u32, 8>, tapper: Tapper, column: u32, row: u32)
        requires room { HasRoomFor list.old (length
            (tapped_column self.now tapper.fc tapper.number column row)) }
        requires tapper { IsTapper self.now tapper }
        requires place { (column ≤ self.now.nx) × (1 ≤ row) × (row ≤ self.now.ny) }
        ensures { Pushes list.old (tapped_column self.now tapper.fc tapper.number column row)
            list.new }
    {
        let tracks = self.tables().tracks_through(Axis::Column, row);
        self.push_tracks(list, tapper, Axis::Column, row, column, tracks);
    }

    /// Those right of a column, if that column is asked for.
    #[tactic(auto, using(crate::proofs::Pushes::pushed_none))]
    fn push_column_if(
        &self,
        list: &mut SmallVec<u32, 8>,
        tapper: Tapper,
        column: u32,
        row: u32,
        wanted: bool,
    )
        requires room { HasRoomFor list.old (length
            (if wanted then tapped_column self.now tapper.fc tapper.number column row else [])) }
        requires tapper { IsTapper self.now tapper }
        requires place { wanted ≡ true
            → (column ≤ self.now.nx) × (1 ≤ row) × (row ≤ self.now.ny) }
        ensures { Pushes list.old (if wanted then tapped_column self.now tapper.fc tapper.number
            column row else []) list.new }
    {
        if wanted {
            self.push_column(list, tapper, column, row);
        }
    }

    /// All the wires that the pin taps on the sides of (x, y).
    #[tactic(auto, using(crate::proofs::Pushes::pushed_then, crate::proofs::Pushes::room_first, crate::proofs::Pushes::room_then))]
    fn push_sides(&self, list: &mut SmallVec<u32, 8>, tapper: Tapper, x: u32, y: u32, sides: Sides)
        requires room { HasRoomFor list.old (length
            (wires_on self.now tapper.fc tapper.number x y sides)) }
        requires tapper { IsTapper self.now tapper }
        requires sides { AreSides self.now x y sides }
        ensures { Pushes list.old (wires_on self.now tapper.fc tapper.number x y sides) list.new }
    {
        let before = x.saturating_sub(1);
        self.push_rows(list, tapper, x, y, sides);
        self.push_column_if(list, tapper, before, y, sides.left);
        self.push_column_if(list, tapper, x, y, sides.right);
    }

    /// The sides on which an output pin is reached.
    pub(crate) fn sides_of_opin(&self, node: Node) -> Sides
        ensures { result ≡ opin_sides self.now node }
    {
        if self.layout().is_block(node.x, node.y) {
            sides_of_pin(self.layout().pin(node.number))
        } else {
            sides_of_pad(self.layout(), node.x, node.y)
        }
    }

    /// How an output pin taps tracks.
    pub(crate) fn tapper_of_opin(&self, node: Node) -> Tapper
        ensures fc { result.fc ≡ opin_fc self.now node }
        ensures number { result.number ≡ node.number }
        ensures tapper { IsTapper self.now result }
    {
        let (fc, count) = if self.layout().is_block(node.x, node.y) {
            (
                self.layout().architecture().fc_output(),
                self.tables().tap_counts().output,
            )
        } else {
            (
                self.layout().architecture().fc_pad(),
                self.tables().tap_counts().pad,
            )
        };
        Tapper {
            fc,
            count,
            number: node.number,
        }
    }

    /// How many tracks the pin taps.
    #[tactic(auto, using(crate::proofs::TracksTapped::tapped_detailed, crate::proofs::TracksTapped::tapped_global))]
    fn count_tapped(&self, tapper: Tapper) -> u32
        requires { IsTapper self.now tapper }
        ensures count { result ≡ length (filter (taps_track self.now tapper.fc tapper.number)
            (all_tracks self.now)) }
        ensures few { result ≤ most_tracks }
    {
        match self.mode() {
            Mode::Global => 1,
            Mode::Detailed => tapper.count,
        }
    }

    /// The successors of an output pin.
    #[tactic(auto, using(crate::proofs::OpinDegrees::opin_wires, crate::proofs::OpinDegrees::opin_sides_are))]
    pub(crate) fn push_wires_of_opin(&self, list: &mut SmallVec<u32, 8>, node: Node)
        requires room { HasRoomFor list.old (length (opin_successors self.now node)) }
        requires place { IsTerminal self.now node.x node.y node.number }
        ensures { Pushes list.old (opin_successors self.now node) list.new }
    {
        let sides = self.sides_of_opin(node);
        let tapper = self.tapper_of_opin(node);
        self.push_sides(list, tapper, node.x, node.y, sides);
    }

    /// How many successors an output pin has.
    pub(crate) fn count_wires_of_opin(&self, node: Node) -> u32
        requires { IsTerminal self.now node.x node.y node.number }
        ensures count { result ≡ length (opin_successors self.now node) }
        ensures few { result ≤ 1024 }
    {
        let sides = self.sides_of_opin(node);
        let tapper = self.tapper_of_opin(node);
        self.count_tapped(tapper) * count_sides(sides)
    }
}
