//! The tables of a device's channels and pins, and their look-ups.

ghost use Rattle.std.specs.Prelude.{◌≡◌, ◌+◌, ◌≤◌, ◌<◌, length, slice_get, Some, IfOk};
ghost use Rattle.arch_file.specs.Architecture.{most_pins, longest_side};
ghost use Rattle.channel_tables.specs.Fabric.{IsFabric, fabric_with, most_tracks};
ghost use Rattle.channel_tables.specs.Axes.{places_along};
ghost use Rattle.channel_tables.specs.kept.Tables.{IsChannel};
ghost use Rattle.channel_tables.specs.Wires.{tracks_in};
ghost use Rattle.channel_tables.specs.Channels.{starting_at, wires_before, beginnings_of, wire_at};
ghost use Rattle.channel_tables.specs.Pins.{IsTapCounts};
ghost use Rattle.channel_tables.specs.Sides.{tapping_on};

use crate::axis::Axis;
use crate::channel::{Beginning, Channel, Wire};
use crate::layout::Layout;
use crate::node::Mode;
use crate::sides::{BlockSides, Side};
use crate::tap_counts::TapCounts;
use arch_file::Arch;
use std::alloc::{AllocError, Global};
use std::marker::Model;

/// What a device is made from, with the tables of its channels and pins, which are made once.
/// Contracts see the record of the device.
#[derive(Drop)]
pub struct ChannelTables {
    pub(crate) layout: Layout,
    pub(crate) rows: Channel,
    pub(crate) columns: Channel,
    pub(crate) sides: BlockSides,
    pub(crate) counts: TapCounts,
    /// For each track how many places its wires pass at most.
    pub(crate) reaches: Vec<u32>,
}

impl Model for ChannelTables {
    ghost use Rattle.channel_tables.specs.Fabric.{Fabric};

    ghost Value = { Fabric };

    ghost use Rattle.channel_tables.specs.Fabric.{IsFabric};
    ghost use Rattle.channel_tables.specs.kept.Tables.{IsTabled};

    ghost view = { λ t. t.layout };

    ghost invariant = { λ t. IsFabric t.layout
        × IsTabled t.layout t.rows t.columns t.sides t.counts t.reaches.items };
}

impl ChannelTables {
    /// The tables of a device of a width that a device may have, in either mode.
    pub fn new(
        alloc: Global,
        arch: &Arch,
        nx: u32,
        ny: u32,
        width: u32,
        mode: Mode,
    ) -> Result<ChannelTables, AllocError>
        requires columns { (1 ≤ nx) × (nx ≤ longest_side) }
        requires rows { (1 ≤ ny) × (ny ≤ longest_side) }
        requires tracks { (1 ≤ width) × (width ≤ most_tracks) }
        ensures { IfOk result (λ t. t ≡ fabric_with nx ny width mode arch.now) }
    {
        let layout = Layout::new(alloc, arch, nx, ny, width, mode)?;
        let tables = ChannelTables::of_layout(alloc, layout)?;
        Ok(tables)
    }

    /// The tables of a layout.
    fn of_layout(alloc: Global, layout: Layout) -> Result<ChannelTables, AllocError>
        ensures { IfOk result (λ t. t ≡ layout) }
    {
        let rows = layout.channel(alloc, layout.places(Axis::Row))?;
        let columns = layout.channel(alloc, layout.places(Axis::Column))?;
        let sides = layout.sides(alloc)?;
        let counts = layout.tap_counts();
        let reaches = layout.reaches(alloc)?;
        Ok(ChannelTables {
            layout,
            rows,
            columns,
            sides,
            counts,
            reaches,
        })
    }

    /// A copy of these tables.
    pub fn copy(&self, alloc: Global) -> Result<ChannelTables, AllocError>
        ensures { IfOk result (λ t. t ≡ self.now) }
    {
        ChannelTables::of_layout(alloc, self.layout.copy(alloc)?)
    }

    /// What the device is made from.
    pub fn layout(&self) -> &Layout
        ensures layout { result.now ≡ self.now }
        ensures limits { IsFabric self.now }
    {
        &self.layout
    }

    /// How many tracks a pin of each kind taps.
    pub fn tap_counts(&self) -> TapCounts
        ensures { IsTapCounts self.now result }
    {
        self.counts
    }

    /// The tables of the channels along an axis.
    #[inline(always)]
    pub(crate) fn channel(&self, axis: Axis) -> &Channel
        ensures tables { IsChannel self.now result.now }
        ensures places { result.now.places ≡ places_along axis self.now }
        ensures few { result.now.places ≤ longest_side }
        ensures limits { IsFabric self.now }
    {
        match axis {
            Axis::Row => &self.rows,
            Axis::Column => &self.columns,
        }
    }

    /// The wire of a track through a place of the channels along an axis.
    #[inline(always)]
    pub fn wire_at(&self, axis: Axis, track: u32, place: u32) -> Wire
        requires place { (1 ≤ place) × (place ≤ places_along axis self.now) }
        requires track { track < tracks_in self.now.mode self.now.width }
        ensures { result ≡ wire_at self.now (places_along axis self.now) place track }
    {
        self.layout.wire_at(self.channel(axis), place, track)
    }

    /// How many wires of a channel along an axis begin before a place.
    #[inline(always)]
    pub fn wires_before(&self, axis: Axis, place: u32) -> u32
        requires { place ≤ places_along axis self.now + 1 }
        ensures before { result ≡ wires_before self.now (places_along axis self.now) place }
        ensures few { result ≤ 25856 }
        ensures limits { IsFabric self.now }
    {
        self.layout.wires_before(self.channel(axis), place)
    }

    /// How many wires of a channel above a row begin at place `x`: the number of a wire one row up
    /// is greater by as much.
    #[tactic(auto, using(crate::proofs::WireTables::before_next))]
    pub fn above_step(&self, x: u32) -> u32
        requires { x ≤ self.now.nx }
        ensures step { result ≡ length (starting_at self.now self.now.nx x) }
        ensures few { result ≤ 25856 }
    {
        let before = self.wires_before(Axis::Row, x);
        self.wires_before(Axis::Row, x + 1) - before
    }

    /// How many wires a channel right of a column has: the number of a wire one column on is
    /// greater by as much.
    pub fn right_step(&self) -> u32
        ensures step { result ≡ wires_before self.now self.now.ny (self.now.ny + 1) }
        ensures few { result ≤ 25856 }
    {
        self.wires_before(Axis::Column, self.layout.ny() + 1)
    }

    /// The wire of an index among those of a channel along an axis.
    pub fn beginning_at(&self, axis: Axis, index: u32) -> Beginning
        requires { index < wires_before self.now (places_along axis self.now)
            (places_along axis self.now + 1) }
        ensures { slice_get (beginnings_of self.now (places_along axis self.now)) index
            ≡ Some result }
    {
        self.layout.beginning_at(self.channel(axis), index)
    }

    /// The places, among a block's input pins or the pads of a place, of those that tap a track on
    /// a side.
    #[inline(always)]
    pub fn tapping(&self, side: Side, track: u32) -> &[u8]
        requires { track < tracks_in self.now.mode self.now.width }
        ensures places { result.now ≡ tapping_on side self.now track }
        ensures few { length result.now ≤ most_pins }
    {
        self.layout.tapping_on(&self.sides, side, track)
    }
}
