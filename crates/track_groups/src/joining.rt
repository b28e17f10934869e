//! Neighbours and pins of groups, by the edges from their wires.

ghost use Rattle.std.specs.Prelude.{◌≡◌, ◌≢◌, ◌+◌, ◌<◌, All, IsTrue, IfOk, IfSome, OnOk, Ok, None, false, [], ◌∷◌, ◌++◌, length};
ghost use Rattle.routing_problem.specs.Edges.{successors_of};
ghost use Rattle.track_groups.specs.Groups.{wire_on, IsOn, IsGrouped};
ghost use Rattle.track_groups.specs.Joints.{IsTap, TellsEdges, IsTabled};
ghost use Rattle.track_groups.specs.kept.Joining.{HasSecondTrack, Matches, AddsNeighbour, StepsTo, AddsTap, AddTaps, AreJoinedBefore, AreTold};

use crate::group::{GroupTrack, Tap};
use crate::groups::TrackGroups;
use crate::merging::with_bit;
use crate::rows::Rows;
use crate::wires::WireGroups;
use routing_problem::Device;
use smallvec::SmallVec;
use std::alloc::{AllocError, Global};

/// Notes that a pin taps a track, where it is an input pin.
fn put_tap(device: &Device, taps: &mut Vec<Tap>, pin: u32, track: u32) -> Result<(), AllocError>
    requires narrow { track < 64 }
    requires taps { All (IsTap device.now) taps.old.items }
    ensures added { OnOk result (AddsTap device.now pin track taps.old.items taps.new.items) }
    ensures taps { OnOk result (All (IsTap device.now) taps.new.items) }
{
    for index in 0..taps.len() {
        let tap = taps[index];
        if tap.pin == pin {
            taps[index] = Tap {
                pin: tap.pin,
                sink: tap.sink,
                tracks: with_bit(tap.tracks, track),
            };
            return Ok(());
        }
    }
    let Some(sink) = device.sink_of(pin) else {
        return Ok(());
    };
    taps.push(Tap {
        pin,
        sink,
        tracks: with_bit(0, track),
    })?;
    Ok(())
}

/// Notes that a node taps a track, where it comes before the wires and is an input pin.
#[tactic(auto, using(crate::proofs::Tapped::no_pin_from))]
fn put_pin(device: &Device, taps: &mut Vec<Tap>, id: u32, track: u32) -> Result<(), AllocError>
    requires narrow { track < 64 }
    requires taps { All (IsTap device.now) taps.old.items }
    ensures added { OnOk result (AddsTap device.now id track taps.old.items taps.new.items) }
    ensures taps { OnOk result (All (IsTap device.now) taps.new.items) }
{
    if device.first_wire() <= id {
        return Ok(());
    }
    put_tap(device, taps, id, track)?;
    Ok(())
}

/// Notes the input pins among these nodes.
#[tactic(auto, using(crate::proofs::Tapped::taps_none))]
fn put_taps(device: &Device, taps: &mut Vec<Tap>, ids: &[u32], track: u32) -> Result<(), AllocError>
    requires narrow { track < 64 }
    requires taps { All (IsTap device.now) taps.old.items }
    ensures added { OnOk result (AddTaps device.now ids.now track taps.old.items taps.new.items) }
    ensures taps { OnOk result (All (IsTap device.now) taps.new.items) }
{
    for id in ids {
        put_pin(device, taps, *id, track)?;
    }
    Ok(())
}

/// Lists that are filled for one group after the other.
#[derive(Drop)]
struct Scratch {
    found: SmallVec<u32, 8>,
    neighbours: Vec<u32>,
    taps: Vec<Tap>,
}

impl Scratch {
    /// Empty lists.
    fn new(alloc: Global) -> Scratch {
        Scratch {
            found: SmallVec::new(alloc),
            neighbours: Vec::new(alloc),
            taps: Vec::new(alloc),
        }
    }
}

/// The neighbours of groups, and their pins.
#[derive(Debug, Drop)]
struct Joints {
    neighbours: Rows<u32>,
    taps: Rows<Tap>,
}

impl Joints {
    /// Those of no group.
    fn new(alloc: Global) -> Joints
        ensures neighbours { result.neighbours ≡ [] }
        ensures taps { result.taps ≡ [] }
    {
        Joints {
            neighbours: Rows::new(alloc),
            taps: Rows::new(alloc),
        }
    }

    /// Puts those of one more group after the others.
    fn push(&mut self, scratch: &Scratch) -> Result<(), AllocError>
        ensures neighbours { OnOk result
            (self.new.neighbours ≡ self.old.neighbours ++ scratch.now.neighbours.items ∷ []) }
        ensures taps { OnOk result
            (self.new.taps ≡ self.old.taps ++ scratch.now.taps.items ∷ []) }
    {
        self.neighbours.push(&scratch.neighbours)?;
        self.taps.push(&scratch.taps)?;
        Ok(())
    }
}

impl WireGroups {
    /// Adds the group of a node, where it is a wire, and says whether such a wire is of a first
    /// track.
    fn put_neighbour(&self, id: u32, neighbours: &mut Vec<u32>) -> Result<bool, AllocError>
        ensures added { IfOk result (λ first. IsTrue first
            → AddsNeighbour self.now id neighbours.old.items neighbours.new.items) }
        ensures second { result ≡ Ok false → HasSecondTrack self.now }
    {
        if !self.is_wire(id) {
            return Ok(true);
        }
        let place = self.place(id);
        if place.track != 0 {
            return Ok(false);
        }
        neighbours.push(place.group)?;
        Ok(true)
    }

    /// Lists the groups of the wires among these nodes, and says whether all these wires are of
    /// first tracks.
    #[tactic(auto, using(crate::proofs::Matched::matches_none))]
    fn list_neighbours(&self, ids: &[u32], neighbours: &mut Vec<u32>) -> Result<bool, AllocError>
        ensures listed { IfOk result (λ first. IsTrue first
            → Matches self.now ids.now neighbours.new.items 0) }
        ensures second { result ≡ Ok false → HasSecondTrack self.now }
    {
        neighbours.clear();
        for id in ids {
            if !self.put_neighbour(*id, neighbours)? {
                return Ok(false);
            }
        }
        Ok(true)
    }

    /// How many of the neighbours were met with this node too; None where it is no pin and isn't
    /// that track of the next neighbour.
    fn step(&self, id: u32, neighbours: &[u32], count: usize, track: u32) -> Option<usize>
        ensures { IfSome result (StepsTo self.now id neighbours.now track count) }
    {
        if id < self.first_wire {
            return Some(count);
        }
        if count >= neighbours.len() {
            return None;
        }
        let beside = GroupTrack {
            group: neighbours[count],
            track,
        };
        if self.has(beside) && self.wire(beside) == id {
            Some(count + 1)
        } else {
            None
        }
    }

    /// Whether the wires among these nodes are that track of the neighbours.
    #[tactic(auto, using(crate::proofs::Matched::matches_none, crate::proofs::Matched::matches_all))]
    fn matches(&self, ids: &[u32], neighbours: &[u32], track: u32) -> bool
        ensures { IsTrue result → Matches self.now ids.now neighbours.now track }
    {
        let mut count = 0;
        for id in ids {
            match self.step(*id, neighbours, count, track) {
                None => return false,
                Some(next) => count = next,
            }
        }
        count == neighbours.len()
    }

    /// Lists the neighbours by the nodes that the first track leads to, and compares them with
    /// those of each other track.
    fn join_wires(
        &self,
        place: GroupTrack,
        ids: &[u32],
        neighbours: &mut Vec<u32>,
    ) -> Result<bool, AllocError>
        requires { IsOn self.now.groups place }
        ensures matched { IfOk result (λ same. IsTrue same
            → Matches self.now ids.now neighbours.new.items place.track) }
        ensures kept { place.track ≢ 0 → neighbours.new.items ≡ neighbours.old.items }
        ensures second { result ≡ Ok false → HasSecondTrack self.now }
    {
        if place.track == 0 {
            let first = self.list_neighbours(ids, neighbours)?;
            return Ok(first);
        }
        Ok(self.matches(ids, neighbours, place.track))
    }

    /// Joins one track of a group, after those before it, and says whether it has the neighbours of
    /// the first one.
    fn join_track(
        &self,
        device: &Device,
        place: GroupTrack,
        scratch: &mut Scratch,
    ) -> Result<bool, AllocError>
        requires grouped { IsGrouped device.now self.now }
        requires on { IsOn self.now.groups place }
        requires narrow { place.track < 64 }
        requires before { AreJoinedBefore device.now self.now place.group place.track
            scratch.old.neighbours.items scratch.old.taps.items }
        ensures joined { IfOk result (λ same. IsTrue same
            → AreJoinedBefore device.now self.now place.group (place.track + 1)
            scratch.new.neighbours.items scratch.new.taps.items) }
        ensures second { result ≡ Ok false → HasSecondTrack self.now }
    {
        device.successors(self.wire(place), &mut scratch.found)?;
        if !self.join_wires(place, scratch.found.as_slice(), &mut scratch.neighbours)? {
            return Ok(false);
        }
        put_taps(
            device,
            &mut scratch.taps,
            scratch.found.as_slice(),
            place.track,
        )?;
        Ok(true)
    }

    /// Joins a group, and says whether its tracks have the same neighbours.
    fn join_group(
        &self,
        device: &Device,
        group: u32,
        scratch: &mut Scratch,
    ) -> Result<bool, AllocError>
        requires grouped { IsGrouped device.now self.now }
        requires there { group < length self.now.groups }
        ensures joined { IfOk result (λ same. IsTrue same
            → TellsEdges device.now self.now.groups group
            scratch.new.neighbours.items scratch.new.taps.items) }
        ensures second { result ≡ Ok false → HasSecondTrack self.now }
    {
        scratch.neighbours.clear();
        scratch.taps.clear();
        let tracks = self.group(group).tracks;
        for track in 0..tracks {
            if !self.join_track(device, GroupTrack { group, track }, scratch)? {
                return Ok(false);
            }
        }
        Ok(true)
    }

    /// Joins all groups; None where tracks of a group don't have the same neighbours.
    #[tactic(auto, using(crate::proofs::Joined::told_none, crate::proofs::Joined::told_next))]
    fn joints(&self, alloc: Global, device: &Device) -> Result<Option<Joints>, AllocError>
        requires { IsGrouped device.now self.now }
        ensures joined { IfOk result (λ found. IfSome found
            (λ j. AreTold (length self.now.groups) device.now self.now j.neighbours j.taps)) }
        ensures count { IfOk result (λ found. IfSome found
            (λ j. length j.taps ≡ length self.now.groups)) }
        ensures second { result ≡ Ok None → HasSecondTrack self.now }
    {
        let mut scratch = Scratch::new(alloc);
        let mut joints = Joints::new(alloc);
        for group in 0..self.len() {
            if !self.join_group(device, group, &mut scratch)? {
                return Ok(None);
            }
            joints.push(&scratch)?;
        }
        Ok(Some(joints))
    }

    /// The tables of these groups; None where tracks of a group don't have the same neighbours.
    #[tactic(auto, using(crate::proofs::Joined::told_all))]
    pub(crate) fn join(
        self,
        alloc: Global,
        device: &Device,
    ) -> Result<Option<TrackGroups>, AllocError>
        requires { IsGrouped device.now self }
        ensures joined { IfOk result (λ found. IfSome found (IsTabled device.now)) }
        ensures second { result ≡ Ok None → HasSecondTrack self }
    {
        match self.joints(alloc, device)? {
            None => Ok(None),
            Some(joints) => Ok(Some(TrackGroups {
                wires: self,
                neighbours: joints.neighbours,
                taps: joints.taps,
            })),
        }
    }
}
