//! The tracks of a channel in the order of where their wires through a place begin, in a table that
//! is made once.

ghost use Rattle.std.specs.Prelude.{◌≡◌, ◌+◌, ◌<◌, ◌≤◌, ◌==◌, ◌++◌, All, IfOk, OnOk};
ghost use Rattle.std.specs.List.{flat_map, prefix_len};
ghost use Rattle.arch_file.specs.Architecture.{longest_side};
ghost use Rattle.channel_tables.specs.Fabric.{numbers_below};
ghost use Rattle.channel_tables.specs.Axes.{places_along};
ghost use Rattle.channel_tables.specs.Wires.{tracks_in};
ghost use Rattle.channel_tables.specs.Channels.{first_of, wire_at, tracks_from, tracks_since, tracks_through};
ghost use Rattle.channel_tables.specs.kept.Tables.{wires_at, IsChannel};

use crate::axis::Axis;
use crate::channel::{Channel, Wire};
use crate::layout::Layout;
use crate::tables::ChannelTables;
use std::alloc::{AllocError, Global};

/// The wires of a channel: those through each of its places, by track.
#[derive(Clone, Copy)]
pub(crate) struct ChannelWires<'a> {
    pub(crate) layout: &'a Layout,
    pub(crate) places: u32,
    pub(crate) list: &'a [Wire],
    ghost few: { places ≤ longest_side },
    ghost all: { list.now ≡ flat_map (λ m. wires_at layout.now places (m + 1))
        (numbers_below places) },
}

impl ChannelWires<'_> {
    /// The wire of a track through a place.
    #[inline(always)]
    pub(crate) fn at(&self, place: u32, track: u32) -> Wire
        requires place { (1 ≤ place) × (place ≤ self.now.places) }
        requires track { track < tracks_in self.now.layout.now.mode self.now.layout.now.width }
        ensures { result ≡ wire_at self.now.layout.now self.now.places place track }
    {
        self.list[((place - 1) * self.layout.tracks() + track) as usize]
    }

    /// The tracks whose wires through a place begin at place `first`.
    #[tactic(auto, using(crate::proofs::TrackOrder::listed_more, crate::proofs::TrackOrder::skipped_more))]
    fn push_tracks_from(
        &self,
        order: &mut Vec<u8>,
        place: u32,
        first: u32,
    ) -> Result<(), AllocError>
        requires place { (1 ≤ place) × (place ≤ self.now.places) }
        ensures { OnOk result (order.new.items ≡ order.old.items
            ++ tracks_from self.now.layout.now self.now.places place first) }
    {
        for track in 0..self.layout.tracks() {
            if u32::from(self.at(place, track).first) == first {
                order.push(track as u8)?;
            }
        }
        Ok(())
    }

    /// All tracks in the order of where their wires through a place begin.
    #[tactic(auto, using(crate::proofs::TrackOrder::joined_further), unfolding(crate::specs::Channels::tracks_since))]
    fn push_tracks_through(&self, order: &mut Vec<u8>, place: u32) -> Result<(), AllocError>
        requires place { place ≤ self.now.places }
        ensures { OnOk result (order.new.items ≡ order.old.items
            ++ tracks_through self.now.layout.now self.now.places place) }
    {
        for before in 0..place {
            self.push_tracks_from(order, place, 1 + before)?;
        }
        Ok(())
    }

    /// Those of each place of the channel.
    #[tactic(auto, using(crate::proofs::Windows::flat_map_next))]
    pub(crate) fn order(&self, alloc: Global) -> Result<Vec<u8>, AllocError>
        ensures { IfOk result
            (λ v. v.items ≡ flat_map (tracks_through self.now.layout.now self.now.places)
            (numbers_below (self.now.places + 1))) }
    {
        let mut order = Vec::with_capacity(alloc, (self.places * self.layout.tracks()) as usize)?;
        for place in 0..self.places + 1 {
            self.push_tracks_through(&mut order, place)?;
        }
        Ok(order)
    }
}

impl Layout {
    /// The tracks of a channel in the order of where their wires through a place begin.
    pub(crate) fn tracks_through<'a>(&self, channel: &'a Channel, place: u32) -> &'a [u8]
        requires few { channel.now.places ≤ longest_side }
        requires within { place ≤ channel.now.places }
        requires tables { IsChannel self.now channel.now }
        ensures { result.now ≡ tracks_through self.now channel.now.places place }
    {
        let width = self.tracks();
        let start = place.saturating_sub(1) * width;
        &channel.order[start as usize..(place * width) as usize]
    }
}

impl ChannelTables {
    /// The tracks in the order of where their wires through a place of the channels along an axis
    /// begin.
    pub fn tracks_through(&self, axis: Axis, place: u32) -> &[u8]
        requires { place ≤ places_along axis self.now }
        ensures { result.now ≡ tracks_through self.now (places_along axis self.now) place }
    {
        self.layout.tracks_through(self.channel(axis), place)
    }

    /// How many of the tracks come before the first one whose wire through a column does not begin
    /// at place `first`.
    #[tactic(auto, using(std::proofs::lemmas::List::Sums::prefix_len_is))]
    fn count_begun(&self, tracks: &[u8], column: u32, first: u32) -> usize
        requires column { (1 ≤ column) × (column ≤ self.now.nx) }
        requires tracks { All (λ t. t < tracks_in self.now.mode self.now.width) tracks.now }
        ensures { result ≡ prefix_len (λ t. first_of self.now self.now.nx t column == first)
            tracks.now }
    {
        for (count, track) in tracks.iter().enumerate() {
            let wire = self.wire_at(Axis::Row, u32::from(*track), column);
            if u32::from(wire.first) != first {
                return count;
            }
        }
        tracks.len()
    }

    /// The tracks whose wires through a column begin at place `first` or after it: those at
    /// `first`, and the others.
    #[tactic(auto, using(crate::proofs::TrackOrder::begun_front, crate::proofs::TrackOrder::begun_rest, crate::proofs::TrackOrder::since_small))]
    pub fn split_tracks<'a>(
        &self,
        tracks: &'a [u8],
        column: u32,
        first: u32,
    ) -> (&'a [u8], &'a [u8])
        requires column { column ≤ self.now.nx }
        requires first { (1 ≤ first) × (first ≤ column) }
        requires tracks { tracks.now ≡ tracks_since self.now self.now.nx column first }
        ensures begun { result.0.now ≡ tracks_from self.now self.now.nx column first }
        ensures rest { result.1.now ≡ tracks_since self.now self.now.nx column (first + 1) }
    {
        tracks.split_at(self.count_begun(tracks, column, first))
    }
}
