//! Groups of wires with their edges, in tables, and what is looked up in them.

ghost use Rattle.std.specs.Prelude.{◌≡◌, ◌+◌, ◌*◌, ◌^◌, ◌<◌, ◌≤◌, ◌==◌, ◌↔◌, IsTrue, length};
ghost use Rattle.track_groups.specs.Groups.{group_at, wire_on, place_of, IsOn, HasPlace};
ghost use Rattle.track_groups.specs.Joints.{neighbours_of, taps_of};

use crate::group::{Group, GroupTrack, Tap};
use crate::rows::Rows;
use crate::wires::WireGroups;
use std::marker::Model;

/// The groups of a device's wires, their neighbours, the input pins that tap them, and the group
/// and track of each wire. Contracts see the lists of these.
#[derive(Debug, Drop)]
pub struct TrackGroups {
    pub(crate) wires: WireGroups,
    pub(crate) neighbours: Rows<u32>,
    pub(crate) taps: Rows<Tap>,
}

impl Model for TrackGroups {
    ghost use Rattle.track_groups.specs.Joints.{Tables};

    ghost Value = { Tables };

    ghost view = { λ t. record { wires = t.wires; neighbours = t.neighbours; taps = t.taps } };
}

impl TrackGroups {
    /// How many groups there are; they are counted from 0.
    pub fn len(&self) -> u32
        ensures count { result ≡ length self.now.wires.groups }
        ensures few { result ≤ 2 ^ 23 }
    {
        self.wires.len()
    }

    /// Whether there is no group.
    pub fn is_empty(&self) -> bool
        ensures { result ≡ (length self.now.wires.groups == 0) }
    {
        self.wires.len() == 0
    }

    /// The wires of a group.
    pub fn group(&self, group: u32) -> Group
        requires { group < length self.now.wires.groups }
        ensures wires { result ≡ group_at self.now.wires.groups group }
        ensures few { result.tracks ≤ 64 }
        ensures small { result.base + 64 * result.stride < 2 ^ 30 }
    {
        self.wires.group(group)
    }

    /// The neighbours of a group: edges lead from its wires to the wires of these groups, track for
    /// track.
    pub fn neighbours(&self, group: u32) -> &[u32]
        ensures { result.now ≡ neighbours_of self.now group }
    {
        self.neighbours.row(group)
    }

    /// The input pins to which edges lead from wires of a group, each with its sink and the tracks
    /// that it taps.
    pub fn taps(&self, group: u32) -> &[Tap]
        ensures { result.now ≡ taps_of self.now group }
    {
        self.taps.row(group)
    }

    /// Whether a group has a track; false where there is no such group.
    pub fn has(&self, place: GroupTrack) -> bool
        ensures has { IsTrue result ↔ IsOn self.now.wires.groups place }
        ensures few { IsTrue result → place.track < 64 }
    {
        self.wires.has(place)
    }

    /// The wire of a track of a group.
    pub fn wire(&self, place: GroupTrack) -> u32
        requires { IsOn self.now.wires.groups place }
        ensures { result ≡ wire_on self.now.wires.groups place }
    {
        self.wires.wire(place)
    }

    /// The group and track of a wire.
    pub fn place(&self, wire: u32) -> GroupTrack
        requires { HasPlace self.now.wires wire }
        ensures { result ≡ place_of self.now.wires wire }
    {
        self.wires.place(wire)
    }

    /// Whether a node is a wire of these groups.
    pub fn is_wire(&self, id: u32) -> bool
        ensures { IsTrue result ↔ HasPlace self.now.wires id }
    {
        self.wires.is_wire(id)
    }
}
