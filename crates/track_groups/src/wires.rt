//! The wires of a device by groups and tracks, and their look-ups.

ghost use Rattle.std.specs.Prelude.{◌≡◌, ℕ, ◌+◌, ◌*◌, ◌^◌, ◌<◌, ◌≤◌, ◌==◌, ◌&&◌, nat_le, nat_lt, ◌↔◌, IsTrue, length};
ghost use Rattle.track_groups.specs.Groups.{group_at, wire_on, place_of, IsOn, HasPlace};

use crate::group::{Group, GroupTrack};
use crate::packed::PackedGroup;
use std::marker::Model;

/// The groups of a device's wires, and the group and track of each wire. Contracts see the list of
/// the groups, and the list of the wires' places.
#[derive(Debug, Drop)]
pub(crate) struct WireGroups {
    pub(crate) first_wire: u32,
    pub(crate) groups: Vec<PackedGroup>,
    /// For each wire, from the first one on, its group and track.
    pub(crate) places: Vec<GroupTrack>,
}

impl Model for WireGroups {
    ghost use Rattle.track_groups.specs.Groups.{Grouping};

    ghost Value = { Grouping };

    ghost use Rattle.track_groups.specs.kept.Fields.{grouping_in, AreSmall};

    ghost view = { grouping_in };

    ghost invariant = { AreSmall };
}

impl WireGroups {
    /// How many groups there are; they are counted from 0.
    pub(crate) fn len(&self) -> u32
        ensures count { result ≡ length self.now.groups }
        ensures few { result ≤ 2 ^ 23 }
    {
        self.groups.len() as u32
    }

    /// The wires of a group.
    #[tactic(auto, unfolding(crate::specs::Groups::group_at))]
    pub(crate) fn group(&self, group: u32) -> Group
        requires { group < length self.now.groups }
        ensures wires { result ≡ group_at self.now.groups group }
        ensures few { result.tracks ≤ 64 }
        ensures small { result.base + 64 * result.stride < 2 ^ 30 }
    {
        self.groups[group as usize].group()
    }

    /// Whether a group has a track; false where there is no such group.
    #[tactic(auto, unfolding(crate::specs::Groups::group_at))]
    pub(crate) fn has(&self, place: GroupTrack) -> bool
        ensures has { IsTrue result ↔ IsOn self.now.groups place }
        ensures few { IsTrue result → place.track < 64 }
    {
        place.group < self.len() && place.track < self.group(place.group).tracks
    }

    /// The wire of a track of a group.
    #[tactic(auto, using(crate::proofs::OnTracks::on_within))]
    pub(crate) fn wire(&self, place: GroupTrack) -> u32
        requires { IsOn self.now.groups place }
        ensures { result ≡ wire_on self.now.groups place }
    {
        let group = self.group(place.group);
        group.base + place.track * group.stride
    }

    /// Whether a node is listed as a wire.
    pub(crate) fn is_listed(&self, id: u32) -> bool
        ensures { result ≡ (nat_le self.now.first_wire id
            && nat_lt id (self.now.first_wire + length self.now.places)) }
    {
        self.first_wire <= id && ((id - self.first_wire) as usize) < self.places.len()
    }

    /// The group and track of a wire.
    #[tactic(auto, unfolding(crate::specs::Groups::place_of))]
    pub(crate) fn place(&self, wire: u32) -> GroupTrack
        requires from { self.now.first_wire ≤ wire }
        requires below { wire < self.now.first_wire + length self.now.places }
        ensures { result ≡ place_of self.now wire }
    {
        self.places[(wire - self.first_wire) as usize]
    }

    /// Whether a listed node is the wire of the track where it is listed.
    fn is_listed_right(&self, id: u32) -> bool
        requires from { self.now.first_wire ≤ id }
        requires below { id < self.now.first_wire + length self.now.places }
        ensures listed { IsTrue result ↔ HasPlace self.now id }
        ensures few { IsTrue result → (place_of self.now id).track < 64 }
    {
        let place = self.place(id);
        self.has(place) && self.wire(place) == id
    }

    /// Whether a node is a wire of these groups.
    pub(crate) fn is_wire(&self, id: u32) -> bool
        ensures listed { IsTrue result ↔ HasPlace self.now id }
        ensures few { IsTrue result → (place_of self.now id).track < 64 }
    {
        self.is_listed(id) && self.is_listed_right(id)
    }
}
