//! How wires of a group are offered a way: those that get the least label there can be wait as one
//! entry, each other one by itself. What is done for each track is inlined.

ghost use Rattle.std.specs.Prelude.{◌≡◌, ◌+◌, ◌-◌, ◌*◌, ◌^◌, ◌<◌, ◌≤◌, true, min};
ghost use Rattle.routing_problem.specs.Nodes.{is_wire_at};
ghost use Rattle.wavefront.specs.Space.{entry_cost};
ghost use Rattle.wavefront.specs.kept.Bounds.{least_wire_cost};
ghost use Rattle.wavefront.specs.kept.Spaces.{node_count};

use super::{Wave, bound_over};
use crate::labels::LabelRow;
use routing_problem::Span;
use std::alloc::AllocError;
use track_groups::Group;
use wave_ground::{Ground, WIRE};
use wave_queue::{Key, QueueEntry, take_bit, with_bit};

/// Nodes of one label from which a way is offered: for track j the node `first + j * step`.
#[derive(Clone, Copy, Drop)]
pub(crate) struct Offer<K> {
    pub(crate) label: K,
    pub(crate) first: u32,
    pub(crate) step: u32,
}

/// What holds for all tracks of a group that are offered a way: the label of the nodes from which
/// it comes, and the least label that there can be then.
#[derive(Clone, Copy, Drop)]
struct Relaxing<K> {
    label: K,
    least: K,
    group: u32,
}

/// A track's wire, and the node from which it is offered a way.
#[derive(Clone, Copy, Drop)]
struct Target {
    track: u32,
    wire: u32,
    parent: u32,
}

/// What it costs to enter a wire that has no label yet.
#[inline(always)]
fn new_price<K: Key>(ground: &Ground<'_>, wire: u32) -> K
    requires node_in { wire < node_count ground.now.space }
    requires is { is_wire_at ground.now.space.device wire ≡ true }
    ensures { K.value result ≡ min (entry_cost ground.now.space wire) K.greatest }
{
    if ground.is_free(wire) {
        return K::cut(WIRE);
    }
    K::cut(ground.wire_cost(wire))
}

/// What it costs to enter a wire. Where it has a label the price is kept there.
#[inline(always)]
fn price_by<K: Key>(ground: &Ground<'_>, row: LabelRow<K>, wire: u32) -> K
    requires node_in { wire < node_count ground.now.space }
    requires is { is_wire_at ground.now.space.device wire ≡ true }
    requires kept { K.value row.cost < K.greatest →
        K.value row.price ≡ min (entry_cost ground.now.space wire) K.greatest }
    ensures { K.value result ≡ min (entry_cost ground.now.space wire) K.greatest }
{
    if row.cost.is_below(K::greatest()) {
        return row.price;
    }
    new_price(ground, wire)
}

impl<K: Key> Wave<K> {
    ghost use Rattle.std.specs.Prelude.{length, Contains, OnOk, IfOk, IsTrue, IsFalse, false};
    ghost use Rattle.track_groups.specs.Groups.{group_at};
    ghost use Rattle.track_groups.specs.Joints.{neighbours_of};
    ghost use Rattle.wave_queue.specs.kept.Bits.{IsOnlyBit};
    ghost use Rattle.wave_ground.specs.kept.Grounds.{IsGround, groups_of};
    ghost use Rattle.group_wave.specs.kept.Labels.{label_of};
    ghost use Rattle.group_wave.specs.kept.Wave.{IsBound, IsWave, cost_at, label_at};
    ghost use Rattle.group_wave.specs.kept.Steps.{Enters, IsFrom, IsLive, IsNoted, IsOffer, IsStep, IsTarget, Relaxes, RelaxesSome, RelaxesTrack, Spreads, TookWires, WaitsFresh, fresh_entry, IsOut};
    ghost use Rattle.wave_queue.specs.kept.Queues.{entry_of};

    /// Leaves out a way of this cost, if that is above the ceiling. Returns whether it is.
    #[inline(always)]
    fn drops(&mut self, cost: K) -> bool
        ensures noted { IsTrue result → IsNoted self.old self.new (K.value cost) }
        ensures known { IsTrue result → self.new.known ≡ self.old.known }
        ensures same { IsFalse result → self.new ≡ self.old }
    {
        if self.ceiling.is_below(cost) {
            self.left_out = true;
            return true;
        }
        false
    }

    /// Lowers a wire's label, and lets the wire wait by itself, by this key.
    #[inline(always)]
    fn lower_to(
        &mut self,
        ground: &Ground<'_>,
        step: Relaxing<K>,
        to: Target,
        cost: K,
        key: K,
        price: K,
    ) -> Result<(), AllocError>
        requires ground { IsGround ground.now }
        requires wave { IsWave ground.now self.old }
        requires from { IsStep ground.now self.old (K.value step.label) to.wire to.parent }
        requires to { IsTarget ground.now step.group to.track to.wire }
        requires few { to.track < 64 }
        requires price { K.value price ≡ entry_cost ground.now.space to.wire }
        requires cost { K.value cost ≡ K.value step.label + entry_cost ground.now.space to.wire }
        requires fits { K.value cost < K.greatest }
        requires less { K.value cost < cost_at self.old to.wire }
        requires key { K.value key ≤ K.greatest }
        requires low { IsBound ground.now self.old to.wire (K.value key - K.value cost) }
        ensures { OnOk result (RelaxesTrack ground.now self.old self.new
            (K.value step.label) (K.value step.least) to.wire false) }
    {
        self.set(to.wire, cost, to.parent, price)?;
        self.wait(QueueEntry {
            key,
            label: cost,
            group: step.group,
            tracks: with_bit(0, to.track),
            is_begun: false,
        })
    }

    /// Lowers a wire's label, and lets the wire wait by itself, by this key, if that isn't above
    /// the ceiling.
    #[inline(always)]
    fn lower_by(
        &mut self,
        ground: &Ground<'_>,
        step: Relaxing<K>,
        to: Target,
        cost: K,
        key: K,
        price: K,
    ) -> Result<(), AllocError>
        requires ground { IsGround ground.now }
        requires wave { IsWave ground.now self.old }
        requires from { IsStep ground.now self.old (K.value step.label) to.wire to.parent }
        requires to { IsTarget ground.now step.group to.track to.wire }
        requires few { to.track < 64 }
        requires price { K.value price ≡ entry_cost ground.now.space to.wire }
        requires cost { K.value cost ≡ K.value step.label + entry_cost ground.now.space to.wire }
        requires fits { K.value cost < K.greatest }
        requires less { K.value cost < cost_at self.old to.wire }
        requires key { K.value key ≤ K.greatest }
        requires low { IsBound ground.now self.old to.wire (K.value key - K.value cost) }
        ensures { OnOk result (RelaxesTrack ground.now self.old self.new
            (K.value step.label) (K.value step.least) to.wire false) }
    {
        if self.drops(key) {
            return Ok(());
        }
        self.lower_to(ground, step, to, cost, key, price)
    }

    /// Lowers a wire's label, and lets the wire wait by itself, if no more is left from there than
    /// the ceiling lets through.
    #[inline(always)]
    fn lower_bounded(
        &mut self,
        ground: &Ground<'_>,
        step: Relaxing<K>,
        to: Target,
        cost: K,
        price: K,
    ) -> Result<(), AllocError>
        requires ground { IsGround ground.now }
        requires wave { IsWave ground.now self.old }
        requires from { IsStep ground.now self.old (K.value step.label) to.wire to.parent }
        requires to { IsTarget ground.now step.group to.track to.wire }
        requires few { to.track < 64 }
        requires price { K.value price ≡ entry_cost ground.now.space to.wire }
        requires cost { K.value cost ≡ K.value step.label + entry_cost ground.now.space to.wire }
        requires fits { K.value cost < K.greatest }
        requires less { K.value cost < cost_at self.old to.wire }
        ensures { OnOk result (RelaxesTrack ground.now self.old self.new
            (K.value step.label) (K.value step.least) to.wire false) }
    {
        let wires = self.wires_left(ground, step.group);
        self.lower_by(ground, step, to, cost, cost.plus(bound_over(wires)), price)
    }

    /// Lowers a wire's label, and lets the wire wait by itself, if it isn't above the ceiling.
    #[inline(always)]
    fn lower_alone(
        &mut self,
        ground: &Ground<'_>,
        step: Relaxing<K>,
        to: Target,
        cost: K,
        price: K,
    ) -> Result<(), AllocError>
        requires ground { IsGround ground.now }
        requires wave { IsWave ground.now self.old }
        requires from { IsStep ground.now self.old (K.value step.label) to.wire to.parent }
        requires to { IsTarget ground.now step.group to.track to.wire }
        requires few { to.track < 64 }
        requires price { K.value price ≡ entry_cost ground.now.space to.wire }
        requires cost { K.value cost ≡ K.value step.label + entry_cost ground.now.space to.wire }
        requires fits { K.value cost < K.greatest }
        requires less { K.value cost < cost_at self.old to.wire }
        ensures { OnOk result (RelaxesTrack ground.now self.old self.new
            (K.value step.label) (K.value step.least) to.wire false) }
    {
        if self.drops(cost) {
            return Ok(());
        }
        self.lower_bounded(ground, step, to, cost, price)
    }

    /// Lowers a wire's label. If that is not the least there can be, the wire waits by itself.
    /// Otherwise it is still to wait. Returns whether it is.
    #[inline(always)]
    fn lower(
        &mut self,
        ground: &Ground<'_>,
        step: Relaxing<K>,
        to: Target,
        cost: K,
        price: K,
    ) -> Result<bool, AllocError>
        requires ground { IsGround ground.now }
        requires wave { IsWave ground.now self.old }
        requires from { IsStep ground.now self.old (K.value step.label) to.wire to.parent }
        requires to { IsTarget ground.now step.group to.track to.wire }
        requires few { to.track < 64 }
        requires price { K.value price ≡ entry_cost ground.now.space to.wire }
        requires cost { K.value cost ≡ K.value step.label + entry_cost ground.now.space to.wire }
        requires fits { K.value cost < K.greatest }
        requires least { K.value step.least ≤ K.value cost }
        requires less { K.value cost < cost_at self.old to.wire }
        ensures relaxed { IfOk result (RelaxesTrack ground.now self.old self.new
            (K.value step.label) (K.value step.least) to.wire) }
        ensures fits { IfOk result (λ fresh. IsTrue fresh → K.value step.least < K.greatest) }
    {
        if step.least.is_below(cost) {
            self.lower_alone(ground, step, to, cost, price)?;
            return Ok(false);
        }
        self.set(to.wire, cost, to.parent, price)?;
        Ok(true)
    }

    /// Offers a wire a way. Returns whether its label became the least there can be: then it is
    /// still to wait.
    #[inline(always)]
    fn relax_track(
        &mut self,
        ground: &Ground<'_>,
        step: Relaxing<K>,
        to: Target,
    ) -> Result<bool, AllocError>
        requires ground { IsGround ground.now }
        requires wave { IsWave ground.now self.old }
        requires from { IsStep ground.now self.old (K.value step.label) to.wire to.parent }
        requires to { IsTarget ground.now step.group to.track to.wire }
        requires few { to.track < 64 }
        requires least { K.value step.least ≡
            min (K.value step.label + least_wire_cost) K.greatest }
        ensures relaxed { IfOk result (RelaxesTrack ground.now self.old self.new
            (K.value step.label) (K.value step.least) to.wire) }
        ensures fits { IfOk result (λ fresh. IsTrue fresh → K.value step.least < K.greatest) }
    {
        let row = self.labels.row(to.wire);
        if row.cost.is_below(step.least) {
            return Ok(false);
        }
        let price = price_by(ground, row, to.wire);
        let cost = step.label.plus(price);
        if cost.is_below(row.cost) {
            return self.lower(ground, step, to, cost, price);
        }
        self.keep_least(to.wire, to.parent, row, cost);
        Ok(false)
    }

    /// Offers the tracks of a group a way. Returns those whose labels became the least there can
    /// be: they are still to wait.
    #[inline(always)]
    fn relax_tracks(
        &mut self,
        ground: &Ground<'_>,
        step: Relaxing<K>,
        offer: Offer<K>,
        group: &Group,
        tracks: u64,
    ) -> Result<u64, AllocError>
        requires ground { IsGround ground.now }
        requires wave { IsWave ground.now self.old }
        requires group { group.now ≡ group_at (groups_of ground.now) step.group }
        requires small { group.now.base + 64 * group.now.stride < 2 ^ 30 }
        requires offer { IsOffer ground.now self.old (K.value offer.label) offer.first offer.step
            step.group tracks }
        requires first { offer.first + 64 * offer.step < 2 ^ 30 }
        requires near { K.value offer.label < K.greatest }
        requires label { K.value step.label ≡ K.value offer.label }
        requires least { K.value step.least ≡
            min (K.value step.label + least_wire_cost) K.greatest }
        ensures relaxed { IfOk result (RelaxesSome ground.now self.old self.new
            (K.value offer.label) (K.value step.least) step.group tracks 0) }
        ensures fits { IfOk result (λ fresh. 0 < fresh → K.value step.least < K.greatest) }
    {
        let mut left = tracks;
        let mut fresh = 0;
        while left != 0 {
            let track = take_bit(&mut left);
            let to = Target {
                track,
                wire: group.base + track * group.stride,
                parent: offer.first + track * offer.step,
            };
            if self.relax_track(ground, step, to)? {
                fresh = with_bit(fresh, track);
            }
        }
        Ok(fresh)
    }

    /// Offers tracks of a group a way, by the label and the least that there can be.
    #[inline(always)]
    fn relax_by(
        &mut self,
        ground: &Ground<'_>,
        step: Relaxing<K>,
        offer: Offer<K>,
        tracks: u64,
    ) -> Result<(), AllocError>
        requires ground { IsGround ground.now }
        requires wave { IsWave ground.now self.old }
        requires there { step.group < length (groups_of ground.now) }
        requires offer { IsOffer ground.now self.old (K.value offer.label) offer.first offer.step
            step.group tracks }
        requires first { offer.first + 64 * offer.step < 2 ^ 30 }
        requires near { K.value offer.label < K.greatest }
        requires label { K.value step.label ≡ K.value offer.label }
        requires least { K.value step.least ≡
            min (K.value step.label + least_wire_cost) K.greatest }
        ensures { OnOk result (Relaxes ground.now self.old self.new (K.value offer.label)
            step.group tracks) }
    {
        let fresh = self.relax_tracks(ground, step, offer, &ground.group(step.group), tracks)?;
        self.put_fresh(ground, step, fresh)
    }

    /// Offers tracks of a group a way, if the least that it costs there isn't above the ceiling.
    #[inline(always)]
    pub(crate) fn relax(
        &mut self,
        ground: &Ground<'_>,
        offer: Offer<K>,
        group: u32,
        tracks: u64,
    ) -> Result<(), AllocError>
        requires ground { IsGround ground.now }
        requires wave { IsWave ground.now self.old }
        requires there { group < length (groups_of ground.now) }
        requires offer { IsOffer ground.now self.old (K.value offer.label) offer.first offer.step
            group tracks }
        requires first { offer.first + 64 * offer.step < 2 ^ 30 }
        requires near { K.value offer.label < K.greatest }
        ensures { OnOk result (Relaxes ground.now self.old self.new (K.value offer.label)
            group tracks) }
    {
        let step = Relaxing {
            label: offer.label,
            least: offer.label.plus(K::cut(WIRE)),
            group,
        };
        if self.drops(step.least) {
            return Ok(());
        }
        self.relax_by(ground, step, offer, tracks)
    }

    /// Lets those tracks wait whose labels are the least there can be.
    #[inline(always)]
    fn put_fresh(
        &mut self,
        ground: &Ground<'_>,
        step: Relaxing<K>,
        fresh: u64,
    ) -> Result<(), AllocError>
        requires wave { IsWave ground.now self.old }
        requires there { step.group < length (groups_of ground.now) }
        requires fits { 0 < fresh → K.value step.least < K.greatest }
        ensures none { fresh ≡ 0 → self.new ≡ self.old }
        ensures some { 0 < fresh → OnOk result (WaitsFresh ground.now self.old self.new
            (fresh_entry (K.value step.least) step.group fresh)) }
    {
        if fresh == 0 {
            return Ok(());
        }
        let wires = self.wires_left(ground, step.group);
        self.wait(QueueEntry {
            key: step.least.plus(bound_over(wires)),
            label: step.least,
            group: step.group,
            tracks: fresh,
            is_begun: false,
        })
    }

    /// Lowers a wire's label, and lets the wire wait by itself, if its group, which has this span,
    /// is inside the net's box, and no more is left from there than the ceiling lets through.
    #[inline(always)]
    fn lower_if_inside(
        &mut self,
        ground: &Ground<'_>,
        step: Relaxing<K>,
        to: Target,
        span: Span,
        cost: K,
        price: K,
    ) -> Result<(), AllocError>
        requires ground { IsGround ground.now }
        requires wave { IsWave ground.now self.old }
        requires from { IsFrom ground.now self.old (K.value step.label) to.parent to.wire }
        requires to { IsTarget ground.now step.group to.track to.wire }
        requires few { to.track < 64 }
        requires span { span ≡ (group_at (groups_of ground.now) step.group).span }
        requires price { K.value price ≡ entry_cost ground.now.space to.wire }
        requires cost { K.value cost ≡ K.value step.label + entry_cost ground.now.space to.wire }
        requires fits { K.value cost < K.greatest }
        requires less { K.value cost < cost_at self.old to.wire }
        ensures { OnOk result (Enters ground.now self.old self.new (K.value step.label) to.wire) }
    {
        if !ground.is_span_inside(span) {
            return Ok(());
        }
        self.lower_bounded(ground, step, to, cost, price)
    }

    /// Lowers a wire's label, and lets the wire wait by itself, if it isn't above the ceiling, and
    /// its group, which has this span, is inside the net's box.
    #[inline(always)]
    fn lower_alone_inside(
        &mut self,
        ground: &Ground<'_>,
        step: Relaxing<K>,
        to: Target,
        span: Span,
        cost: K,
        price: K,
    ) -> Result<(), AllocError>
        requires ground { IsGround ground.now }
        requires wave { IsWave ground.now self.old }
        requires from { IsFrom ground.now self.old (K.value step.label) to.parent to.wire }
        requires to { IsTarget ground.now step.group to.track to.wire }
        requires few { to.track < 64 }
        requires span { span ≡ (group_at (groups_of ground.now) step.group).span }
        requires price { K.value price ≡ entry_cost ground.now.space to.wire }
        requires cost { K.value cost ≡ K.value step.label + entry_cost ground.now.space to.wire }
        requires fits { K.value cost < K.greatest }
        requires less { K.value cost < cost_at self.old to.wire }
        ensures { OnOk result (Enters ground.now self.old self.new (K.value step.label) to.wire) }
    {
        if self.drops(cost) {
            return Ok(());
        }
        self.lower_if_inside(ground, step, to, span, cost, price)
    }

    /// Offers a wire of a group of this span a way, if its label is not below the least that there
    /// can be. It waits by itself if its label goes down. A wire outside the net's box gets none:
    /// that is tested late, since most wires are inside, and most labels stay.
    #[inline(always)]
    fn relax_alone(
        &mut self,
        ground: &Ground<'_>,
        step: Relaxing<K>,
        to: Target,
        span: Span,
        row: LabelRow<K>,
    ) -> Result<(), AllocError>
        requires ground { IsGround ground.now }
        requires wave { IsWave ground.now self.old }
        requires from { IsFrom ground.now self.old (K.value step.label) to.parent to.wire }
        requires to { IsTarget ground.now step.group to.track to.wire }
        requires few { to.track < 64 }
        requires span { span ≡ (group_at (groups_of ground.now) step.group).span }
        requires row { label_of K.value K.greatest row ≡ label_at self.old to.wire }
        requires fits { K.value row.cost ≤ K.greatest }
        requires some { 0 < K.value row.cost }
        ensures { OnOk result (Enters ground.now self.old self.new (K.value step.label) to.wire) }
    {
        let price = price_by(ground, row, to.wire);
        let cost = step.label.plus(price);
        if cost.is_below(row.cost) {
            return self.lower_alone_inside(ground, step, to, span, cost, price);
        }
        self.keep_least(to.wire, to.parent, row, cost);
        Ok(())
    }

    /// Whether the wire of a neighbour has a label that the way from the one track of an entry
    /// can't lower.
    #[inline(always)]
    pub(super) fn is_settled(
        &self,
        ground: &Ground<'_>,
        entry: QueueEntry<K>,
        track: u32,
        neighbour: u32,
    ) -> bool
        requires ground { IsGround ground.now }
        requires wave { IsWave ground.now self.now }
        requires entry { IsLive ground.now self.now (entry_of K.value entry) }
        requires fits { K.value entry.label < K.greatest }
        requires track { IsOnlyBit entry.tracks track }
        requires beside { Contains (neighbours_of ground.now.tables entry.group) neighbour }
        ensures { IsTrue result
            → TookWires ground.now self.now (entry_of K.value entry) neighbour }
    {
        let beside = ground.group(neighbour);
        let row = self.labels.row(beside.base + track * beside.stride);
        row.cost.is_below(entry.label.plus(K::cut(WIRE)))
    }

    /// Offers the wire of a neighbour the way from the one track of an entry.
    #[inline(always)]
    pub(super) fn expand_track_to_one(
        &mut self,
        ground: &Ground<'_>,
        entry: QueueEntry<K>,
        group: &Group,
        track: u32,
        neighbour: u32,
    ) -> Result<(), AllocError>
        requires out { IsOut ground.now self.old (entry_of K.value entry) K.greatest group.now }
        requires track { IsOnlyBit entry.tracks track }
        requires beside { Contains (neighbours_of ground.now.tables entry.group) neighbour }
        ensures spreads { OnOk result (Spreads ground.now self.old self.new) }
        ensures took { OnOk result
            (TookWires ground.now self.new (entry_of K.value entry) neighbour) }
    {
        let beside = ground.group(neighbour);
        let to = Target {
            track,
            wire: beside.base + track * beside.stride,
            parent: group.base + track * group.stride,
        };
        let step = Relaxing {
            label: entry.label,
            least: entry.label.plus(K::cut(WIRE)),
            group: neighbour,
        };
        let row = self.labels.row(to.wire);
        if row.cost.is_below(step.least) {
            return Ok(());
        }
        self.relax_alone(ground, step, to, beside.span, row)
    }
}
