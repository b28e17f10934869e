//! The wires of a channel, in tables that are made once: how many begin before a place, where each
//! begins, and which wire of a track runs through a place.

ghost use Rattle.std.specs.Prelude.{◌≡◌, ℕ, All, ◌+◌, ◌-◌, ◌*◌, ◌<◌, ◌≤◌, ◌++◌, length, map, slice_get, Some, true, IfOk, OnOk};
ghost use Rattle.std.specs.List.{flat_map};
ghost use Rattle.arch_file.specs.Architecture.{longest_side};
ghost use Rattle.channel_tables.specs.Fabric.{IsFabric, numbers_below, most_tracks};
ghost use Rattle.channel_tables.specs.Wires.{tracks_in, track_type, rank_of, begins, steps_of};
ghost use Rattle.channel_tables.specs.kept.Tables.{stagger_of, wires_at, IsChannel};
ghost use Rattle.channel_tables.specs.Channels.{starting_at, wires_before, wire_number, wire_at, beginning_of, beginnings_of};

use crate::layout::Layout;
use crate::tracks::ChannelWires;
use std::alloc::{AllocError, Global};

/// How the wires of a track are shifted.
#[derive(Clone, Copy, Debug)]
pub(crate) struct Stagger {
    /// The track's rank among the tracks of its type.
    pub(crate) rank: u32,
    /// How many places its wires pass.
    pub(crate) length: u32,
}

/// How the wires of each track are shifted in a channel of so many places.
#[derive(Drop)]
pub(crate) struct Staggers<'a> {
    layout: &'a Layout,
    places: u32,
    list: Vec<Stagger>,
    ghost some: { 1 ≤ places },
    ghost few: { places ≤ longest_side },
    ghost staggers: { list.items ≡ map (stagger_of layout.now places)
        (numbers_below (tracks_in layout.now.mode layout.now.width)) },
    ghost long: { All (λ s. 1 ≤ s.length) list.items },
}

/// Where a wire begins.
#[derive(Clone, Copy, Debug)]
pub struct Beginning {
    pub place: u8,
    pub track: u8,
}

/// The wire of a track through a place.
#[derive(Clone, Copy, Debug)]
pub struct Wire {
    /// The places where it begins and ends.
    pub first: u8,
    pub last: u8,
    /// How many wires of the channel come before it.
    pub number: u16,
}

/// The tables of a channel.
#[derive(Debug, Drop)]
pub(crate) struct Channel {
    /// How many places it has.
    pub(crate) places: u32,
    /// For each place, and for the two around the channel, how many wires begin before it.
    pub(crate) before: Vec<u32>,
    /// The wires in the order of first places and tracks.
    pub(crate) beginnings: Vec<Beginning>,
    /// For each place the wires that run through it, by track.
    pub(crate) wires: Vec<Wire>,
    /// For each place the tracks, in the order of where their wires through it begin.
    pub(crate) order: Vec<u8>,
}

impl Layout {
    /// A track's rank among the tracks of its type.
    #[tactic(auto, using(crate::proofs::Ranges::length_below, crate::proofs::Ranges::get_below), unfolding(crate::specs::Wires::rank_of))]
    fn rank_of(&self, types: &[usize], track: u32) -> u32
        requires types { types.now ≡ map (track_type self.now) (numbers_below self.now.width) }
        requires within { track < self.now.width }
        ensures { result ≡ rank_of self.now.architecture.segments self.now.width track }
    {
        let kind = types[track as usize];
        for first in 0..self.width() {
            if types[first as usize] == kind {
                return track.saturating_sub(first);
            }
        }
        track.saturating_sub(self.width())
    }

    /// How the wires of a track are shifted, in a channel of `places` places.
    fn stagger_by(&self, types: &[usize], places: u32, track: u32) -> Stagger
        requires some { 1 ≤ places }
        requires types { types.now ≡ map (track_type self.now) (numbers_below self.now.width) }
        requires within { track < self.now.width }
        ensures { result ≡ stagger_of self.now places track }
    {
        Stagger {
            rank: self.rank_of(types, track),
            length: self.length_of(places, track),
        }
    }

    /// How the wires of each track are shifted, in a channel of `places` places.
    #[tactic(auto, using(crate::proofs::Ranges::mapped_next, crate::proofs::WireTables::staggers_long))]
    fn staggers(&self, alloc: Global, places: u32) -> Result<Staggers<'_>, AllocError>
        requires { (1 ≤ places) × (places ≤ longest_side) }
        ensures layout { IfOk result (λ s. s.layout.now ≡ self.now) }
        ensures places { IfOk result (λ s. s.places ≡ places) }
    {
        let types = self.track_types(alloc)?;
        let mut list = Vec::with_capacity(alloc, self.tracks() as usize)?;
        for track in 0..self.tracks() {
            list.push(self.stagger_by(&types, places, track))?;
        }
        Ok(Staggers {
            layout: self,
            places,
            list,
        })
    }
}

impl Staggers<'_> {
    /// How the wires of a track are shifted.
    #[tactic(auto, using(crate::proofs::Ranges::length_below, crate::proofs::Ranges::get_below))]
    fn of_track(&self, track: u32) -> Stagger
        requires { track < tracks_in self.now.layout.now.mode self.now.layout.now.width }
        ensures stagger { result ≡ stagger_of self.now.layout.now self.now.places track }
        ensures long { 1 ≤ result.length }
    {
        self.list[track as usize]
    }

    /// Whether a wire of the track begins at a place.
    #[tactic(auto, unfolding(crate::specs::Wires::begins))]
    fn begins_at(&self, track: u32, place: u32) -> bool
        requires within { track < tracks_in self.now.layout.now.mode self.now.layout.now.width }
        ensures begins { result ≡ begins self.now.layout.now self.now.places track place }
        ensures first { place ≡ 1 → result ≡ true }
    {
        let stagger = self.of_track(track);
        let shifted = u64::from(place.saturating_sub(1)) + u64::from(stagger.rank);
        place == 1 || shifted % u64::from(stagger.length) == 0
    }

    /// How many wires begin at a place; none where the channel has no such place.
    #[tactic(auto, using(crate::proofs::WireTables::count_next))]
    fn starting_count(&self, place: u32) -> u32
        ensures count { result ≡ length (starting_at self.now.layout.now self.now.places place) }
        ensures few { result ≤ most_tracks }
    {
        if place == 0 || place > self.places {
            return 0;
        }
        let mut count = 0;
        for track in 0..self.layout.tracks() {
            count += u32::from(self.begins_at(track, place));
        }
        count
    }

    /// How many wires begin before each place, from place 0 to the one after the channel.
    #[tactic(auto, using(crate::proofs::Ranges::mapped_next, crate::proofs::WireTables::before_none, crate::proofs::WireTables::before_next))]
    fn before(&self, alloc: Global) -> Result<Vec<u32>, AllocError>
        ensures { IfOk result
            (λ v. v.items ≡ map (wires_before self.now.layout.now self.now.places)
            (numbers_below (self.now.places + 2))) }
    {
        let mut before = Vec::with_capacity(alloc, self.places as usize + 2)?;
        let mut count = 0;
        for place in 0..self.places + 2 {
            before.push(count)?;
            count += self.starting_count(place);
        }
        Ok(before)
    }

    /// The wires that begin at a place; none where the channel has no such place.
    #[tactic(auto, using(crate::proofs::Ranges::kept_more, crate::proofs::Ranges::skipped_more))]
    fn push_beginnings(&self, beginnings: &mut Vec<Beginning>, place: u32) -> Result<(), AllocError>
        ensures { OnOk result
            (beginnings.new.items ≡ beginnings.old.items
            ++ map (beginning_of place) (starting_at self.now.layout.now self.now.places place)) }
    {
        if place == 0 || place > self.places {
            return Ok(());
        }
        for track in 0..self.layout.tracks() {
            if self.begins_at(track, place) {
                beginnings.push(Beginning {
                    place: place as u8,
                    track: track as u8,
                })?;
            }
        }
        Ok(())
    }

    /// The wires of a channel in their order; room is made for `count`.
    #[tactic(auto, using(crate::proofs::Windows::flat_map_next), unfolding(crate::specs::Channels::beginnings_of))]
    fn beginnings(&self, alloc: Global, count: usize) -> Result<Vec<Beginning>, AllocError>
        ensures { IfOk result
            (λ v. v.items ≡ beginnings_of self.now.layout.now self.now.places) }
    {
        let mut beginnings = Vec::with_capacity(alloc, count)?;
        for place in 0..self.places + 1 {
            self.push_beginnings(&mut beginnings, place)?;
        }
        Ok(beginnings)
    }

    /// How many places a wire goes on after the place where it begins.
    #[tactic(auto, using(crate::proofs::Ranges::first_in_range), unfolding(crate::specs::Wires::steps_of))]
    fn steps_from(&self, track: u32, place: u32) -> u32
        requires within { track < tracks_in self.now.layout.now.mode self.now.layout.now.width }
        ensures steps { result ≡ steps_of self.now.layout.now self.now.places track place }
        ensures within { result ≤ self.now.places - place }
    {
        let rest = self.places.saturating_sub(place);
        for steps in 0..rest {
            if self.begins_at(track, place + 1 + steps) {
                return steps;
            }
        }
        rest
    }

    /// The wire of a track through a place: a new one of that number, or the one through the place
    /// before.
    #[tactic(auto, using(crate::proofs::WireTables::wire_here, crate::proofs::WireTables::wire_before))]
    fn wire_through(&self, wires: &[Wire], place: u32, track: u32, number: u32) -> Wire
        requires place { (1 ≤ place) × (place ≤ self.now.places) }
        requires within { track < tracks_in self.now.layout.now.mode self.now.layout.now.width }
        requires number { number ≡ wire_number self.now.layout.now self.now.places place track }
        requires small { number < 65536 }
        requires earlier { 2 ≤ place → slice_get wires.now ((place - 2)
            * tracks_in self.now.layout.now.mode self.now.layout.now.width + track)
            ≡ Some (wire_at self.now.layout.now self.now.places (place - 1) track) }
        ensures { result ≡ wire_at self.now.layout.now self.now.places place track }
    {
        if self.begins_at(track, place) {
            Wire {
                first: place as u8,
                last: (place + self.steps_from(track, place)) as u8,
                number: number as u16,
            }
        } else {
            wires[((place - 2) * self.layout.tracks() + track) as usize]
        }
    }

    /// The wires through a place, after those through the places before it.
    #[tactic(auto, using(crate::proofs::Ranges::mapped_more, crate::proofs::WireTables::number_next, crate::proofs::WireTables::small_number))]
    fn push_place(&self, wires: &mut Vec<Wire>, place: u32, before: u32) -> Result<(), AllocError>
        requires place { (1 ≤ place) × (place ≤ self.now.places) }
        requires before { before ≡ wire_number self.now.layout.now self.now.places place 0 }
        requires earlier { wires.old.items ≡
            flat_map (λ m. wires_at self.now.layout.now self.now.places (m + 1))
            (numbers_below (place - 1)) }
        ensures { OnOk result (wires.new.items
            ≡ wires.old.items ++ wires_at self.now.layout.now self.now.places place) }
    {
        let mut number = before;
        for track in 0..self.layout.tracks() {
            let wire = self.wire_through(wires, place, track, number);
            wires.push(wire)?;
            number += u32::from(self.begins_at(track, place));
        }
        Ok(())
    }

    /// The wires through each place.
    #[tactic(auto, using(crate::proofs::Ranges::length_below, crate::proofs::Ranges::get_below, crate::proofs::Windows::flat_map_next, crate::proofs::WireTables::first_number))]
    fn wires(&self, alloc: Global, before: &[u32]) -> Result<Vec<Wire>, AllocError>
        requires before { before.now ≡ map (wires_before self.now.layout.now self.now.places)
            (numbers_below (self.now.places + 2)) }
        ensures { IfOk result (λ v. v.items ≡
            flat_map (λ m. wires_at self.now.layout.now self.now.places (m + 1))
            (numbers_below self.now.places)) }
    {
        let mut wires = Vec::with_capacity(alloc, (self.places * self.layout.tracks()) as usize)?;
        for earlier in 0..self.places {
            let place = earlier + 1;
            self.push_place(&mut wires, place, before[place as usize])?;
        }
        Ok(wires)
    }
}

impl Layout {
    /// The tables of a channel of `places` places.
    pub(crate) fn channel(&self, alloc: Global, places: u32) -> Result<Channel, AllocError>
        requires { (1 ≤ places) × (places ≤ longest_side) }
        ensures tables { IfOk result (IsChannel self.now) }
        ensures places { IfOk result (λ c. c.places ≡ places) }
    {
        let staggers = self.staggers(alloc, places)?;
        let before = staggers.before(alloc)?;
        let count = before.last().copied().unwrap_or(0);
        let beginnings = staggers.beginnings(alloc, count as usize)?;
        let wires = staggers.wires(alloc, &before)?;
        let through = ChannelWires {
            layout: self,
            places,
            list: &wires,
        };
        let order = through.order(alloc)?;
        Ok(Channel {
            places,
            before,
            beginnings,
            wires,
            order,
        })
    }

    /// How many wires of a channel begin before a place.
    #[tactic(auto, using(crate::proofs::Ranges::length_below, crate::proofs::Ranges::get_below, crate::proofs::WireTables::few_before))]
    pub(crate) fn wires_before(&self, channel: &Channel, place: u32) -> u32
        requires limits { IsFabric self.now }
        requires few { channel.now.places ≤ longest_side }
        requires within { place ≤ channel.now.places + 1 }
        requires tables { IsChannel self.now channel.now }
        ensures before { result ≡ wires_before self.now channel.now.places place }
        ensures few { result ≤ 25856 }
    {
        channel.before[place as usize]
    }

    /// The wire of a track through a place of a channel.
    #[inline(always)]
    pub(crate) fn wire_at(&self, channel: &Channel, place: u32, track: u32) -> Wire
        requires few { channel.now.places ≤ longest_side }
        requires within { (1 ≤ place) × (place ≤ channel.now.places) }
        requires track { track < tracks_in self.now.mode self.now.width }
        requires tables { IsChannel self.now channel.now }
        ensures { result ≡ wire_at self.now channel.now.places place track }
    {
        let wires = ChannelWires {
            layout: self,
            places: channel.places,
            list: &channel.wires,
        };
        wires.at(place, track)
    }

    /// The wire of an index among the wires of a channel.
    pub(crate) fn beginning_at(&self, channel: &Channel, index: u32) -> Beginning
        requires within { index <
            wires_before self.now channel.now.places (channel.now.places + 1) }
        requires tables { IsChannel self.now channel.now }
        ensures { slice_get (beginnings_of self.now channel.now.places) index ≡ Some result }
    {
        let beginnings: &[Beginning] = &channel.beginnings;
        beginnings[index as usize]
    }
}
