//! How sinks are reached from wires beside them, over input pins: neither waits, since what comes
//! after is known.

ghost use Rattle.std.specs.Prelude.{◌≡◌, ◌+◌, ◌*◌, ◌^◌, ◌<◌, ◌≤◌};
ghost use Rattle.track_groups.specs.Groups.{node_on};

use super::Wave;
use std::alloc::AllocError;
use track_groups::{Group, Tap};
use wave_ground::Ground;
use wave_queue::{Key, QueueEntry};

/// The node of a track of a group.
#[inline(always)]
fn node_on(group: &Group, track: u32) -> u32
    requires few { track < 64 }
    requires small { group.now.base + 64 * group.now.stride < 2 ^ 30 }
    ensures { result ≡ node_on group.now track }
{
    group.base + track * group.stride
}

impl<K: Key> Wave<K> {
    ghost use Rattle.std.specs.Prelude.{length, OnOk, IsTrue, ◌↔◌};
    ghost use Rattle.routing_problem.specs.InputPins.{IsPinOf};
    ghost use Rattle.track_groups.specs.Groups.{group_at};
    ghost use Rattle.track_groups.specs.Joints.{taps_of};
    ghost use Rattle.wavefront.specs.kept.Spaces.{node_count};
    ghost use Rattle.wave_ground.specs.kept.Grounds.{IsGround, groups_of};
    ghost use Rattle.wave_queue.specs.kept.Queues.{entry_of};
    ghost use Rattle.group_wave.specs.kept.Wave.{IsOpen, IsOrigin, IsWave, cost_at};
    ghost use Rattle.group_wave.specs.kept.Steps.{Enters, IsEntering, IsFrom, IsLive, IsTapOf, LowersPin, LowersSink, Spreads, TookTap, TookTaps, IsOut};
    ghost use Rattle.wavefront.specs.Space.{HasEdge, entry_cost};

    /// Whether the wave starts at a node.
    pub(crate) fn starts_at(&self, node: u32) -> bool
        requires { node < length self.now.labels }
        ensures { IsTrue result ↔ IsOrigin self.now node }
    {
        let row = self.labels.row(node);
        row.parent == node && !K::zero().is_below(row.cost)
    }

    /// Whether it is a sink that the wave has yet to take.
    fn is_open(&self, ground: &Ground<'_>, node: u32) -> bool
        requires ground { IsGround ground.now }
        requires there { node < length self.now.labels }
        ensures { IsTrue result ↔ IsOpen ground.now self.now node }
    {
        ground.wants(node) && !self.starts_at(node)
    }

    /// Lowers an open sink's label.
    fn lower_sink(&mut self, sink: u32, cost: K, pin: u32, price: K) -> Result<(), AllocError>
        requires there { sink < length self.old.labels }
        requires fits { K.value cost < K.greatest }
        ensures { OnOk result (LowersSink self.old self.new sink
            (record { cost = K.value cost; parent = pin; price = K.value price })) }
    {
        if cost.is_below(self.best) {
            self.best = cost;
        }
        self.set(sink, cost, pin, price)
    }

    /// Offers an open sink the way over an input pin of a label. A sink of the net is inside its
    /// box.
    fn enter_sink(
        &mut self,
        ground: &Ground<'_>,
        label: K,
        pin: u32,
        sink: u32,
    ) -> Result<(), AllocError>
        requires ground { IsGround ground.now }
        requires wave { IsWave ground.now self.old }
        requires sink { IsOpen ground.now self.old sink }
        requires pin { IsPinOf ground.now.space.device sink pin }
        requires from { IsFrom ground.now self.old (K.value label) pin sink }
        requires fits { K.value label < K.greatest }
        ensures { OnOk result (Enters ground.now self.old self.new (K.value label) sink) }
    {
        let row = self.labels.row(sink);
        let price = K::cut(ground.sink_cost(sink));
        let cost = label.plus(price);
        if cost.is_below(row.cost) {
            return self.lower_sink(sink, cost, pin, price);
        }
        self.keep_least(sink, pin, row, cost);
        Ok(())
    }

    /// Lowers an input pin's label, and offers its sink the way over it.
    fn lower_pin(
        &mut self,
        ground: &Ground<'_>,
        wire: u32,
        tap: Tap,
        cost: K,
        price: K,
    ) -> Result<(), AllocError>
        requires ground { IsGround ground.now }
        requires wave { IsWave ground.now self.old }
        requires tap { IsPinOf ground.now.space.device tap.sink tap.pin }
        requires sink { IsOpen ground.now self.old tap.sink }
        requires enters { IsEntering ground.now self.old (K.value cost) wire tap.pin }
        requires price { K.value price ≡ entry_cost ground.now.space tap.pin }
        requires fits { K.value cost < K.greatest }
        ensures { OnOk result (LowersPin ground.now self.old self.new tap.pin (K.value cost)) }
    {
        self.set(tap.pin, cost, wire, price)?;
        self.enter_sink(ground, cost, tap.pin, tap.sink)
    }

    /// Offers an input pin of an open sink the way from a wire. It is where its sink is: inside the
    /// net's box.
    fn enter_pin(
        &mut self,
        ground: &Ground<'_>,
        label: K,
        wire: u32,
        tap: Tap,
    ) -> Result<(), AllocError>
        requires ground { IsGround ground.now }
        requires wave { IsWave ground.now self.old }
        requires tap { IsPinOf ground.now.space.device tap.sink tap.pin }
        requires sink { IsOpen ground.now self.old tap.sink }
        requires edge { HasEdge ground.now.space wire tap.pin }
        requires from { cost_at self.old wire ≤ K.value label }
        requires fits { K.value label < K.greatest }
        ensures { OnOk result (Enters ground.now self.old self.new (K.value label) tap.pin) }
    {
        let row = self.labels.row(tap.pin);
        let price = K::cut(ground.pin_cost(tap.pin));
        let cost = label.plus(price);
        if cost.is_below(row.cost) {
            return self.lower_pin(ground, wire, tap, cost, price);
        }
        self.keep_least(tap.pin, wire, row, cost);
        Ok(())
    }

    /// Offers an input pin the way from a track of a group that it taps, if its sink is still open.
    fn reach_from(
        &mut self,
        ground: &Ground<'_>,
        label: K,
        wire: u32,
        tap: Tap,
    ) -> Result<(), AllocError>
        requires ground { IsGround ground.now }
        requires wave { IsWave ground.now self.old }
        requires tap { IsPinOf ground.now.space.device tap.sink tap.pin }
        requires edge { HasEdge ground.now.space wire tap.pin }
        requires from { cost_at self.old wire ≤ K.value label }
        requires fits { K.value label < K.greatest }
        ensures { OnOk result (Enters ground.now self.old self.new (K.value label) tap.pin) }
    {
        if !self.is_open(ground, tap.sink) {
            return Ok(());
        }
        self.enter_pin(ground, label, wire, tap)
    }

    /// Offers an input pin the way from those tracks of an entry that it taps.
    fn reach(
        &mut self,
        ground: &Ground<'_>,
        entry: QueueEntry<K>,
        group: &Group,
        tap: Tap,
    ) -> Result<(), AllocError>
        requires out { IsOut ground.now self.old (entry_of K.value entry) K.greatest group.now }
        requires tap { IsTapOf ground.now entry.group tap }
        ensures spreads { OnOk result (Spreads ground.now self.old self.new) }
        ensures took { OnOk result (TookTap ground.now self.new (entry_of K.value entry) tap) }
    {
        let tapped = entry.tracks & tap.tracks;
        if tapped == 0 {
            return Ok(());
        }
        let track = self.ties.track(group, tap.pin, tapped);
        let wire = node_on(group, track);
        self.reach_from(ground, entry.label, wire, tap)
    }

    /// Offers all input pins that tap tracks of an entry the way from them. It looks up the group
    /// itself, so that a passed one needn't be in memory where no sink is adjacent.
    #[inline(never)]
    pub(super) fn reach_all(
        &mut self,
        ground: &Ground<'_>,
        entry: QueueEntry<K>,
    ) -> Result<(), AllocError>
        requires ground { IsGround ground.now }
        requires wave { IsWave ground.now self.old }
        requires entry { IsLive ground.now self.old (entry_of K.value entry) }
        requires fits { K.value entry.label < K.greatest }
        ensures spreads { OnOk result (Spreads ground.now self.old self.new) }
        ensures took { OnOk result (TookTaps ground.now self.new (entry_of K.value entry)
            (taps_of ground.now.tables entry.group)
            (length (taps_of ground.now.tables entry.group))) }
    {
        let group = ground.group(entry.group);
        for tap in ground.taps(entry.group) {
            self.reach(ground, entry, &group, *tap)?;
        }
        Ok(())
    }
}
