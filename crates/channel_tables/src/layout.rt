//! What a device is made from: its architecture, the size of its array, the width of its channels,
//! and its mode.

ghost use Rattle.std.specs.Prelude.{◌≡◌, ℕ, ◌+◌, ◌≤◌, ◌<◌, IfOk};
ghost use Rattle.arch_file.specs.Architecture.{longest_side};
ghost use Rattle.channel_tables.specs.Axes.{places_along};
ghost use Rattle.channel_tables.specs.Fabric.{IsFabric, is_block, is_pad, most_tracks};
ghost use Rattle.channel_tables.specs.Wires.{tracks_in};

use crate::axis::Axis;
use crate::node::Mode;
use arch_file::{Arch, Segment};
use std::alloc::{AllocError, Global};
use std::marker::Model;

/// The greatest number of tracks of a channel.
pub const MOST_TRACKS: u32 = 256;

/// What a device is made from. Contracts see it as the record of its parts.
#[derive(Drop)]
pub struct Layout {
    pub(crate) arch: Arch,
    pub(crate) nx: u32,
    pub(crate) ny: u32,
    pub(crate) width: u32,
    pub(crate) mode: Mode,
    /// How many wires run through a place of a channel.
    pub(crate) tracks: u32,
}

impl Model for Layout {
    ghost use Rattle.channel_tables.specs.Fabric.{Fabric, IsFabric};

    ghost Value = { Fabric };

    ghost use Rattle.channel_tables.specs.kept.Fields.{fabric_of};

    ghost view = { fabric_of };

    ghost use Rattle.std.specs.Prelude.{◌≡◌};
    ghost use Rattle.channel_tables.specs.Wires.{tracks_in};

    ghost invariant = { λ l. IsFabric (fabric_of l) × (l.tracks ≡ tracks_in l.mode l.width) };
}

/// How many wires run through a place of a channel of this width.
fn tracks_in(mode: Mode, width: u32) -> u32
    ensures { result ≡ tracks_in mode width }
{
    match mode {
        Mode::Detailed => width,
        Mode::Global => 1,
    }
}

impl Layout {
    pub(crate) fn new(
        alloc: Global,
        arch: &Arch,
        nx: u32,
        ny: u32,
        width: u32,
        mode: Mode,
    ) -> Result<Layout, AllocError>
        requires columns { (1 ≤ nx) × (nx ≤ longest_side) }
        requires rows { (1 ≤ ny) × (ny ≤ longest_side) }
        requires tracks { (1 ≤ width) × (width ≤ most_tracks) }
        ensures made { IfOk result
            (λ l. l ≡ record {
              architecture = arch.now;
              nx = nx;
              ny = ny;
              width = width;
              mode =
                  mode;
            }) }
        ensures limits { IfOk result IsFabric }
    {
        let arch = arch.copy(alloc)?;
        Ok(Layout {
            arch,
            nx,
            ny,
            width,
            mode,
            tracks: tracks_in(mode, width),
        })
    }

    /// A copy of this layout.
    pub(crate) fn copy(&self, alloc: Global) -> Result<Layout, AllocError>
        ensures { IfOk result (λ l. l ≡ self.now) }
    {
        Layout::new(alloc, &self.arch, self.nx, self.ny, self.width, self.mode)
    }

    /// The architecture.
    pub fn architecture(&self) -> &Arch
        ensures architecture { result.now ≡ self.now.architecture }
        ensures limits { IsFabric self.now }
    {
        &self.arch
    }

    /// Columns of logic blocks.
    pub fn nx(&self) -> u32
        ensures entry { result ≡ self.now.nx }
        ensures limits { IsFabric self.now }
    {
        self.nx
    }

    /// Rows of logic blocks.
    pub fn ny(&self) -> u32
        ensures entry { result ≡ self.now.ny }
        ensures limits { IsFabric self.now }
    {
        self.ny
    }

    /// How many places a channel along an axis has.
    #[inline(always)]
    pub fn places(&self, axis: Axis) -> u32
        ensures entry { result ≡ places_along axis self.now }
        ensures some { 1 ≤ result }
        ensures few { result ≤ longest_side }
    {
        match axis {
            Axis::Row => self.nx,
            Axis::Column => self.ny,
        }
    }

    /// Tracks in each channel.
    pub fn width(&self) -> u32
        ensures entry { result ≡ self.now.width }
        ensures limits { IsFabric self.now }
    {
        self.width
    }

    /// Whether each track has wires of its own.
    pub fn mode(&self) -> Mode
        ensures { result ≡ self.now.mode }
    {
        self.mode
    }

    pub(crate) fn segments(&self) -> &[Segment]
        ensures entry { result.now ≡ self.now.architecture.segments }
        ensures limits { IsFabric self.now }
    {
        self.arch.segments()
    }

    /// A logic block is at (x, y).
    pub fn is_block(&self, x: u32, y: u32) -> bool
        ensures { result ≡ is_block self.now x y }
    {
        (1 <= x && x <= self.nx) && (1 <= y && y <= self.ny)
    }

    /// Pads are at (x, y).
    pub fn is_pad(&self, x: u32, y: u32) -> bool
        ensures { result ≡ is_pad self.now x y }
    {
        ((x == 0 || x == self.nx + 1) && (1 <= y && y <= self.ny))
            || ((y == 0 || y == self.ny + 1) && (1 <= x && x <= self.nx))
    }
}
