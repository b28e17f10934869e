//! How a wave goes on from tracks of a group: first to those neighbours from which fewer wires lead
//! on, later to all.

ghost use Rattle.std.specs.Prelude.{◌≡◌, ◌+◌, ◌*◌, ◌^◌, ◌<◌, ◌≤◌, ◌↔◌, ℕ, IsTrue, true, false};
ghost use Rattle.std.specs.Int.{bit_at};
ghost use Rattle.wave_queue.specs.kept.Bits.{IsOnlyBit, PutsBit};

use super::relaxing::Offer;
use super::{Wave, bound_over};
use std::alloc::AllocError;
use track_groups::Group;
use wave_ground::{Ground, WIRE};
use wave_queue::{Key, QueueEntry, only_bit, take_bit, with_bit};

/// Whether costs are equal.
#[inline(always)]
fn is_same<K: Key>(cost: K, other: K) -> bool
    ensures { IsTrue result ↔ (K.value cost ≡ K.value other) }
{
    !cost.is_below(other) && !other.is_below(cost)
}

/// A set with one bit more, if it is to have it.
#[inline(always)]
fn with_bit_if(bits: u64, bit: u32, has: bool) -> u64
    requires few { bit < 64 }
    ensures put { has ≡ true → PutsBit bits result bit }
    ensures kept { has ≡ false → result ≡ bits }
{
    if has { with_bit(bits, bit) } else { bits }
}

impl<K: Key> Wave<K> {
    ghost use Rattle.std.specs.Prelude.{length, Contains, OnOk};
    ghost use Rattle.track_groups.specs.Groups.{node_on};
    ghost use Rattle.track_groups.specs.Joints.{neighbours_of};
    ghost use Rattle.wave_ground.specs.kept.Boxes.{IsLow, wire_of};
    ghost use Rattle.wave_ground.specs.kept.Grounds.{IsGround};
    ghost use Rattle.wave_queue.specs.kept.Queues.{entry_of};
    ghost use Rattle.group_wave.specs.kept.Wave.{IsWave, cost_at, IsCompleteButFor};
    ghost use Rattle.group_wave.specs.kept.Steps.{GoesOn, AreTracksLeft, IsLive, Spreads, TookBefore, TookBut, TookNearer, TookNearerBefore, TookPins, TookWires, IsOut};

    /// Whether a node's label has this cost.
    #[inline(always)]
    fn has_cost(&self, node: u32, cost: K) -> bool
        requires there { node < length self.now.labels }
        requires fits { K.value cost < K.greatest }
        ensures { IsTrue result ↔ (cost_at self.now node ≡ K.value cost) }
    {
        is_same(self.labels.row(node).cost, cost)
    }

    /// Those tracks of an entry that still have its label: others have another entry too, or went
    /// on.
    #[inline(always)]
    pub(super) fn tracks_left(&self, entry: QueueEntry<K>, group: &Group) -> u64
        requires there { (j : ℕ) → bit_at entry.tracks j ≡ 1 →
            node_on group.now j < length self.now.labels }
        requires small { group.now.base + 64 * group.now.stride < 2 ^ 30 }
        requires fits { K.value entry.label < K.greatest }
        ensures { AreTracksLeft self.now group.now (entry_of K.value entry) result }
    {
        let mut rest = entry.tracks;
        let mut left = 0;
        while rest != 0 {
            let track = take_bit(&mut rest);
            let has = self.has_cost(group.base + track * group.stride, entry.label);
            left = with_bit_if(left, track, has);
        }
        left
    }

    /// Offers the wires of a neighbour the way from tracks of an entry, if it is inside the net's
    /// box.
    #[inline(always)]
    fn expand_tracks_to_one(
        &mut self,
        ground: &Ground<'_>,
        entry: QueueEntry<K>,
        group: &Group,
        neighbour: u32,
    ) -> Result<(), AllocError>
        requires out { IsOut ground.now self.old (entry_of K.value entry) K.greatest group.now }
        requires beside { Contains (neighbours_of ground.now.tables entry.group) neighbour }
        ensures spreads { OnOk result (Spreads ground.now self.old self.new) }
        ensures took { OnOk result
            (TookWires ground.now self.new (entry_of K.value entry) neighbour) }
    {
        if !ground.is_span_inside(ground.group(neighbour).span) {
            return Ok(());
        }
        let offer = Offer {
            label: entry.label,
            first: group.base,
            step: group.stride,
        };
        self.relax(ground, offer, neighbour, entry.tracks)
    }

    /// Offers them the way if fewer wires lead on from the neighbour than from the entry's group.
    #[inline(always)]
    fn expand_tracks_if_nearer(
        &mut self,
        ground: &Ground<'_>,
        entry: QueueEntry<K>,
        group: &Group,
        wires: u32,
        neighbour: u32,
    ) -> Result<(), AllocError>
        requires out { IsOut ground.now self.old (entry_of K.value entry) K.greatest group.now }
        requires beside { Contains (neighbours_of ground.now.tables entry.group) neighbour }
        ensures spreads { OnOk result (Spreads ground.now self.old self.new) }
        ensures took { OnOk result
            (TookNearer ground.now self.new (entry_of K.value entry) wires neighbour) }
    {
        if self.wires_left(ground, neighbour) >= wires {
            return Ok(());
        }
        self.expand_tracks_to_one(ground, entry, group, neighbour)
    }

    /// Offers the wires of all neighbours the way.
    fn expand_tracks(
        &mut self,
        ground: &Ground<'_>,
        entry: QueueEntry<K>,
        group: &Group,
    ) -> Result<(), AllocError>
        requires out { IsOut ground.now self.old (entry_of K.value entry) K.greatest group.now }
        ensures spreads { OnOk result (Spreads ground.now self.old self.new) }
        ensures took { OnOk result (TookBefore ground.now self.new (entry_of K.value entry)
            (neighbours_of ground.now.tables entry.group)
            (length (neighbours_of ground.now.tables entry.group))) }
    {
        let neighbours = ground.neighbours(entry.group);
        for neighbour in neighbours {
            self.expand_tracks_to_one(ground, entry, group, *neighbour)?;
        }
        Ok(())
    }

    /// The places of the neighbours that have a wire whose label the way from the one track of an
    /// entry may lower. All are looked at with no branch between, so that their rows are fetched
    /// side by side.
    #[inline(always)]
    fn unsettled(
        &self,
        ground: &Ground<'_>,
        entry: QueueEntry<K>,
        track: u32,
        neighbours: &[u32],
    ) -> u64
        requires ground { IsGround ground.now }
        requires wave { IsWave ground.now self.now }
        requires entry { IsLive ground.now self.now (entry_of K.value entry) }
        requires fits { K.value entry.label < K.greatest }
        requires track { IsOnlyBit entry.tracks track }
        requires beside { neighbours.now ≡ neighbours_of ground.now.tables entry.group }
        requires few { length neighbours.now ≤ 64 }
        ensures { TookBut ground.now self.now (entry_of K.value entry) neighbours.now
            (length neighbours.now) result }
    {
        let mut places = 0;
        for at in 0..neighbours.len() {
            let is_settled = self.is_settled(ground, entry, track, neighbours[at]);
            places = with_bit_if(places, at as u32, !is_settled);
        }
        places
    }

    /// Offers the wires of the neighbours at these places the way from the one track of an entry.
    #[inline(always)]
    fn expand_track_to_unsettled(
        &mut self,
        ground: &Ground<'_>,
        entry: QueueEntry<K>,
        group: &Group,
        track: u32,
        neighbours: &[u32],
        places: u64,
    ) -> Result<(), AllocError>
        requires out { IsOut ground.now self.old (entry_of K.value entry) K.greatest group.now }
        requires track { IsOnlyBit entry.tracks track }
        requires beside { neighbours.now ≡ neighbours_of ground.now.tables entry.group }
        requires others { TookBut ground.now self.old (entry_of K.value entry) neighbours.now
            (length neighbours.now) places }
        ensures spreads { OnOk result (Spreads ground.now self.old self.new) }
        ensures took { OnOk result (TookBefore ground.now self.new (entry_of K.value entry)
            neighbours.now (length neighbours.now)) }
    {
        let mut left = places;
        while left != 0 {
            let at = take_bit(&mut left);
            self.expand_track_to_one(ground, entry, group, track, neighbours[at as usize])?;
        }
        Ok(())
    }

    /// Offers the wires of many neighbours the way from the one track of an entry.
    fn expand_track_to_many(
        &mut self,
        ground: &Ground<'_>,
        entry: QueueEntry<K>,
        group: &Group,
        track: u32,
        neighbours: &[u32],
    ) -> Result<(), AllocError>
        requires out { IsOut ground.now self.old (entry_of K.value entry) K.greatest group.now }
        requires track { IsOnlyBit entry.tracks track }
        requires beside { neighbours.now ≡ neighbours_of ground.now.tables entry.group }
        ensures spreads { OnOk result (Spreads ground.now self.old self.new) }
        ensures took { OnOk result (TookBefore ground.now self.new (entry_of K.value entry)
            neighbours.now (length neighbours.now)) }
    {
        for neighbour in neighbours {
            self.expand_track_to_one(ground, entry, group, track, *neighbour)?;
        }
        Ok(())
    }

    /// Offers the wires of all neighbours the way from the one track of an entry.
    fn expand_track(
        &mut self,
        ground: &Ground<'_>,
        entry: QueueEntry<K>,
        group: &Group,
        track: u32,
    ) -> Result<(), AllocError>
        requires out { IsOut ground.now self.old (entry_of K.value entry) K.greatest group.now }
        requires track { IsOnlyBit entry.tracks track }
        ensures spreads { OnOk result (Spreads ground.now self.old self.new) }
        ensures took { OnOk result (TookBefore ground.now self.new (entry_of K.value entry)
            (neighbours_of ground.now.tables entry.group)
            (length (neighbours_of ground.now.tables entry.group))) }
    {
        let neighbours = ground.neighbours(entry.group);
        if neighbours.len() > 64 {
            return self.expand_track_to_many(ground, entry, group, track, neighbours);
        }
        let places = self.unsettled(ground, entry, track, neighbours);
        self.expand_track_to_unsettled(ground, entry, group, track, neighbours, places)
    }

    /// Offers the wires of all neighbours the way from the tracks of an entry.
    fn expand_to_all(
        &mut self,
        ground: &Ground<'_>,
        entry: QueueEntry<K>,
        group: &Group,
    ) -> Result<(), AllocError>
        requires out { IsOut ground.now self.old (entry_of K.value entry) K.greatest group.now }
        ensures spreads { OnOk result (Spreads ground.now self.old self.new) }
        ensures took { OnOk result (TookBefore ground.now self.new (entry_of K.value entry)
            (neighbours_of ground.now.tables entry.group)
            (length (neighbours_of ground.now.tables entry.group))) }
    {
        match only_bit(entry.tracks) {
            Some(track) => self.expand_track(ground, entry, group, track),
            None => self.expand_tracks(ground, entry, group),
        }
    }

    /// Offers the way to the wires of the neighbours that lead on to fewer wires.
    fn expand_tracks_to_nearer(
        &mut self,
        ground: &Ground<'_>,
        entry: QueueEntry<K>,
        group: &Group,
        wires: u32,
    ) -> Result<(), AllocError>
        requires out { IsOut ground.now self.old (entry_of K.value entry) K.greatest group.now }
        ensures spreads { OnOk result (Spreads ground.now self.old self.new) }
        ensures took { OnOk result (TookNearerBefore ground.now self.new (entry_of K.value entry)
            wires (neighbours_of ground.now.tables entry.group)
            (length (neighbours_of ground.now.tables entry.group))) }
    {
        let neighbours = ground.neighbours(entry.group);
        for neighbour in neighbours {
            self.expand_tracks_if_nearer(ground, entry, group, wires, *neighbour)?;
        }
        Ok(())
    }

    /// Offers input pins the way, where a sink may be adjacent.
    #[inline(always)]
    fn reach_if_beside(
        &mut self,
        ground: &Ground<'_>,
        entry: QueueEntry<K>,
        wires: u32,
    ) -> Result<(), AllocError>
        requires ground { IsGround ground.now }
        requires wave { IsWave ground.now self.old }
        requires entry { IsLive ground.now self.old (entry_of K.value entry) }
        requires fits { K.value entry.label < K.greatest }
        ensures spreads { OnOk result (Spreads ground.now self.old self.new) }
        ensures took { OnOk result
            (TookPins ground.now self.new (entry_of K.value entry) wires) }
    {
        if wires != 0 {
            return Ok(());
        }
        self.reach_all(ground, entry)
    }

    /// Goes on from an entry that is new: to pins of sinks and to nearer neighbours. It waits again
    /// for the others.
    pub(super) fn begin_at(
        &mut self,
        ground: &Ground<'_>,
        entry: QueueEntry<K>,
        group: &Group,
        wires: u32,
    ) -> Result<(), AllocError>
        requires out { IsOut ground.now self.old (entry_of K.value entry) K.greatest group.now }
        requires first { entry.is_begun ≡ false }
        requires low { IsLow self.old.boxes (wire_of group.now) wires }
        requires but { IsCompleteButFor ground.now self.old (entry_of K.value entry) }
        ensures { OnOk result
            (GoesOn ground.now self.old self.new (entry_of K.value entry)) }
    {
        self.reach_if_beside(ground, entry, wires)?;
        self.expand_tracks_to_nearer(ground, entry, group, wires)?;
        self.wait(QueueEntry {
            key: entry.label.plus(bound_over(wires)).plus(K::cut(WIRE)),
            label: entry.label,
            group: entry.group,
            tracks: entry.tracks,
            is_begun: true,
        })
    }

    /// Goes on from an entry to all neighbours.
    pub(super) fn finish(
        &mut self,
        ground: &Ground<'_>,
        entry: QueueEntry<K>,
        group: &Group,
        wires: u32,
    ) -> Result<(), AllocError>
        requires out { IsOut ground.now self.old (entry_of K.value entry) K.greatest group.now }
        requires low { IsLow self.old.boxes (wire_of group.now) wires }
        requires but { IsCompleteButFor ground.now self.old (entry_of K.value entry) }
        ensures { OnOk result
            (GoesOn ground.now self.old self.new (entry_of K.value entry)) }
    {
        self.reach_if_beside(ground, entry, wires)?;
        self.expand_to_all(ground, entry, group)
    }
}
