//! Tables of the input pins and pads that tap each track, made once for a device.

ghost use Rattle.std.specs.Prelude.{◌≡◌, ℕ, ◌+◌, ◌≤◌, ◌<◌, ◌++◌, length, map, IfOk, OnOk, vec_len};
ghost use Rattle.arch_file.specs.Architecture.{most_pins};
ghost use Rattle.channel_tables.specs.Fabric.{IsFabric, numbers_below, most_tracks};
ghost use Rattle.channel_tables.specs.Wires.{tracks_in};
ghost use Rattle.channel_tables.specs.Pins.{tap_count};
ghost use Rattle.channel_tables.specs.Picks.{picks};
ghost use Rattle.channel_tables.specs.Sides.{has_side, on_side, tapping_on};
ghost use Rattle.channel_tables.specs.kept.TappingTables.{fc_on, taps_from, IsTapping, IsSides, HoldsTrack, places_of_track};

use crate::layout::Layout;
use crate::pins::is_marked_global;
use arch_file::{Direction, Pin, Sides};
use std::alloc::{AllocError, Global};

/// Where input pins are reached: on a side of a block, or at a pad.
#[derive(Clone, Copy)]
pub enum Side {
    Top,
    Bottom,
    Right,
    Left,
    Pad,
}

/// For each track the places, among the input pins of a block or the pads of a place, of those that
/// tap it.
#[derive(Drop)]
pub(crate) struct Tapping {
    /// Where the places of each track start in `places`, and last where they end.
    starts: Vec<u16>,
    places: Vec<u8>,
}

/// The places by track on each side of a block, and those of pads.
#[derive(Drop)]
pub(crate) struct BlockSides {
    pub(crate) top: Tapping,
    pub(crate) bottom: Tapping,
    pub(crate) right: Tapping,
    pub(crate) left: Tapping,
    pub(crate) pads: Tapping,
}

impl Tapping {
    /// The places of a track.
    #[tactic(auto, unfolding(crate::specs::kept::TappingTables::places_of_track))]
    pub(crate) fn of_track(&self, track: u32) -> &[u8]
        requires { HoldsTrack self.now track }
        ensures { result.now ≡ places_of_track self.now track }
    {
        let start = usize::from(self.starts[track as usize]);
        let end = usize::from(self.starts[track as usize + 1]);
        &self.places[start..end]
    }

    /// How many places a track has.
    #[tactic(auto, unfolding(crate::specs::kept::TappingTables::places_of_track))]
    pub(crate) fn count_of_track(&self, track: u32) -> u32
        requires { HoldsTrack self.now track }
        ensures { result ≡ length (places_of_track self.now track) }
    {
        u32::from(self.starts[track as usize + 1] - self.starts[track as usize])
    }
}

/// Whether the side is one of the block's sides given.
fn is_on(side: Side, sides: Sides) -> bool
    ensures { result ≡ on_side side sides }
{
    match side {
        Side::Top => sides.top,
        Side::Bottom => sides.bottom,
        Side::Right => sides.right,
        Side::Left => sides.left,
        Side::Pad => false,
    }
}

/// Whether the pin is reached on a side of its block.
fn has_side(side: Side, pin: Option<Pin>) -> bool
    ensures { result ≡ has_side (on_side side) pin }
{
    match pin {
        None => false,
        Some(pin) => is_on(side, pin.sides),
    }
}

impl Layout {
    /// Fc of the input pins, or pads, on a side.
    fn fc_on(&self, side: Side) -> u64
        ensures { result ≡ fc_on side self.now }
    {
        match side {
            Side::Pad => self.arch.fc_pad(),
            _ => self.arch.fc_input(),
        }
    }

    /// Whether an input pin on a side, or a pad, taps the track, where `count` is how many tracks
    /// it taps.
    #[tactic(auto, unfolding(crate::specs::Pins::tapped_tracks))]
    fn taps_from(&self, side: Side, count: u32, track: u32, pin: u32) -> bool
        requires some { 1 ≤ count }
        requires few { count ≤ most_tracks }
        requires count { count ≡ tap_count self.now.architecture.fc_type
            (fc_on side self.now) self.now.width }
        ensures { result ≡ taps_from side self.now track pin }
    {
        match side {
            Side::Pad => self.taps_by_count(count, pin, track),
            _ => {
                let found = self.pin(pin);
                !is_marked_global(found)
                    && (has_side(side, found) && self.taps_by_count(count, pin, track))
            }
        }
    }

    /// The places of the pins that tap the track.
    #[tactic(auto, using(crate::proofs::Picks::picked_more, crate::proofs::Picks::passed_more))]
    fn push_tapping(
        &self,
        places: &mut Vec<u8>,
        pins: &[u32],
        side: Side,
        count: u32,
        track: u32,
    ) -> Result<(), AllocError>
        requires pins { length pins.now ≤ most_pins }
        requires some { 1 ≤ count }
        requires few { count ≤ most_tracks }
        requires count { count ≡ tap_count self.now.architecture.fc_type
            (fc_on side self.now) self.now.width }
        ensures places { OnOk result (places.new.items
            ≡ places.old.items ++ picks (taps_from side self.now track) 0 pins.now) }
        ensures few { OnOk result (vec_len places.new ≤ vec_len places.old + most_pins) }
    {
        for (place, pin) in pins.iter().enumerate() {
            if self.taps_from(side, count, track, *pin) {
                places.push(place as u8)?;
            }
        }
        Ok(())
    }

    /// The table of a side.
    fn tapping(&self, alloc: Global, side: Side, pins: &[u32]) -> Result<Tapping, AllocError>
        requires { length pins.now ≤ most_pins }
        ensures { IfOk result (IsTapping (λ t. picks (taps_from side self.now t) 0 pins.now)
            (tracks_in self.now.mode self.now.width)) }
    {
        let count = self.tap_count(self.fc_on(side));
        let mut starts = Vec::with_capacity(alloc, self.tracks() as usize + 1)?;
        let mut places = Vec::new(alloc);
        for track in 0..self.tracks() {
            starts.push(places.len() as u16)?;
            self.push_tapping(&mut places, pins, side, count, track)?;
        }
        starts.push(places.len() as u16)?;
        Ok(Tapping { starts, places })
    }

    /// The places, among a block's input pins or the pads of a place, of those that tap a track on
    /// a side.
    #[tactic(auto, using(crate::proofs::TappingTables::places_of_track_are, crate::proofs::TappingTables::few_pins, crate::proofs::TappingTables::few_pads))]
    pub(crate) fn tapping_on<'a>(&self, sides: &'a BlockSides, side: Side, track: u32) -> &'a [u8]
        requires limits { IsFabric self.now }
        requires sides { IsSides self.now sides.now }
        requires track { track < tracks_in self.now.mode self.now.width }
        ensures places { result.now ≡ tapping_on side self.now track }
        ensures few { length result.now ≤ most_pins }
    {
        match side {
            Side::Top => sides.top.of_track(track),
            Side::Bottom => sides.bottom.of_track(track),
            Side::Right => sides.right.of_track(track),
            Side::Left => sides.left.of_track(track),
            Side::Pad => sides.pads.of_track(track),
        }
    }

    /// The pads of a place of the perimeter.
    #[tactic(auto, using(crate::proofs::Ranges::below_next))]
    fn pads(&self, alloc: Global) -> Result<Vec<u32>, AllocError>
        ensures pads { IfOk result (λ v. v.items ≡ numbers_below self.now.architecture.io_rat) }
        ensures few { IfOk result (λ v. vec_len v ≤ most_pins) }
    {
        let mut pads = Vec::new(alloc);
        for pad in 0..self.arch.io_rat() {
            pads.push(pad)?;
        }
        Ok(pads)
    }

    /// The tables of the device.
    pub(crate) fn sides(&self, alloc: Global) -> Result<BlockSides, AllocError>
        ensures { IfOk result (IsSides self.now) }
    {
        let pins = self.pins_by(alloc, Direction::Input)?;
        let pads = self.pads(alloc)?;
        Ok(BlockSides {
            top: self.tapping(alloc, Side::Top, &pins)?,
            bottom: self.tapping(alloc, Side::Bottom, &pins)?,
            right: self.tapping(alloc, Side::Right, &pins)?,
            left: self.tapping(alloc, Side::Left, &pins)?,
            pads: self.tapping(alloc, Side::Pad, &pads)?,
        })
    }
}
