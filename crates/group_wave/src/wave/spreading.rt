//! How a wave spreads until all that waits costs more than the nearest sink.

ghost use Rattle.std.specs.Prelude.{◌≡◌, ◌+◌, ◌*◌, ◌^◌, ◌<◌, ◌≤◌, ℕ};

use super::{Wave, bound_over};
use std::alloc::AllocError;
use track_groups::Group;
use wave_ground::{Ground, WIRE};
use wave_queue::{Key, QueueEntry, only_bit};

impl<K: Key> Wave<K> {
    ghost use Rattle.std.specs.Prelude.{length, OnOk, IfOk, IfSome, IfNone, IsTrue, IsFalse, None, ◌↔◌};
    ghost use Rattle.track_groups.specs.Groups.{group_at};
    ghost use Rattle.wavefront.specs.Space.{IsWanted};
    ghost use Rattle.wave_ground.specs.kept.Boxes.{IsLow, wire_of};
    ghost use Rattle.group_wave.specs.kept.WaveState.{FAR};
    ghost use Rattle.wave_ground.specs.kept.Grounds.{IsGround, groups_of};
    ghost use Rattle.wave_queue.specs.kept.Queues.{entry_of};
    ghost use Rattle.group_wave.specs.kept.Wave.{AreTracks, IsBest, IsComplete, IsOpen, IsOrigin, IsWave, cost_at, weight_of, work_of, IsCompleteButFor};
    ghost use Rattle.group_wave.specs.kept.Steps.{GoesOn, IsAbove, IsLeastKey, IsLive, IsPopped, IsPushed, IsTaken, SameOrigins, Settles, WaitsAgain, IsNearest, IsOut};

    /// Takes out an entry whose key is no more than the cost of the nearest sink.
    fn pop(&mut self) -> Option<QueueEntry<K>>
        ensures some { IfSome result (λ e. IsPopped self.old self.new (entry_of K.value e)) }
        ensures fits { IfSome result (λ e. K.value e.label < K.greatest) }
        ensures none { IfNone result (self.new ≡ self.old) }
        ensures above { IfNone result (IsAbove self.new) }
    {
        self.queue.pop_to(self.best)
    }

    /// Lets an entry wait again if its key is lower than it has to be, now that sinks were taken,
    /// and if it is not needed yet.
    fn wait_again(&mut self, entry: QueueEntry<K>, wires: u32) -> Result<bool, AllocError>
        requires fits { K.value entry.label < K.greatest }
        ensures waits { IfOk result (λ waits. IsTrue waits →
            WaitsAgain self.old self.new (entry_of K.value entry) wires) }
        ensures same { IfOk result (λ waits. IsFalse waits → self.new ≡ self.old) }
    {
        let key = entry.label.plus(bound_over(wires));
        let least = if entry.is_begun {
            key.plus(K::cut(WIRE))
        } else {
            key
        };
        if !entry.key.is_below(least) || !self.best.is_below(key) {
            return Ok(false);
        }
        self.wait(QueueEntry {
            key,
            label: entry.label,
            group: entry.group,
            tracks: entry.tracks,
            is_begun: false,
        })?;
        Ok(true)
    }

    /// Looks again at an entry, one of this many that are still to be looked at. Returns whether it
    /// waits again.
    fn look_again(
        &mut self,
        entry: QueueEntry<K>,
        wires: u32,
        waited: &mut usize,
    ) -> Result<bool, AllocError>
        requires fits { K.value entry.label < K.greatest }
        ensures waits { IfOk result (λ waits. IsTrue waits →
            WaitsAgain self.old self.new (entry_of K.value entry) wires) }
        ensures same { IfOk result (λ waits. IsFalse waits → self.new ≡ self.old) }
        ensures fewer { IfOk result (λ waits. IsTrue waits → waited.new < waited.old) }
        ensures most { waited.new ≤ waited.old }
    {
        if *waited == 0 {
            return Ok(false);
        }
        *waited -= 1;
        self.wait_again(entry, wires)
    }

    /// Goes on from tracks of a group. From one track alone to all neighbours at once: to find
    /// which are nearer takes as long as to offer them all the way.
    fn expand(
        &mut self,
        ground: &Ground<'_>,
        entry: QueueEntry<K>,
        group: &Group,
        wires: u32,
    ) -> Result<(), AllocError>
        requires out { IsOut ground.now self.old (entry_of K.value entry) K.greatest group.now }
        requires low { IsLow self.old.boxes (wire_of group.now) wires }
        requires but { IsCompleteButFor ground.now self.old (entry_of K.value entry) }
        ensures { OnOk result
            (GoesOn ground.now self.old self.new (entry_of K.value entry)) }
    {
        if entry.is_begun || only_bit(entry.tracks).is_some() {
            self.finish(ground, entry, group, wires)
        } else {
            self.begin_at(ground, entry, group, wires)
        }
    }

    /// Goes on from those tracks of an entry that still have its label, or lets them wait again.
    /// This many entries are still looked at for that.
    fn go_on_from(
        &mut self,
        ground: &Ground<'_>,
        entry: QueueEntry<K>,
        group: &Group,
        waited: &mut usize,
    ) -> Result<(), AllocError>
        requires out { IsOut ground.now self.old (entry_of K.value entry) K.greatest group.now }
        requires but { IsCompleteButFor ground.now self.old (entry_of K.value entry) }
        ensures settles { OnOk result (Settles ground.now self.old self.new) }
        ensures work { OnOk result (work_of self.new + 3 * waited.new + 1
            ≤ work_of self.old + weight_of (entry_of K.value entry) + 3 * waited.old) }
    {
        let wires = self.wires_left(ground, entry.group);
        if self.look_again(entry, wires, waited)? {
            return Ok(());
        }
        self.expand(ground, entry, group, wires)
    }

    /// Goes on from an entry that was taken out.
    fn go_on(
        &mut self,
        ground: &Ground<'_>,
        entry: QueueEntry<K>,
        waited: &mut usize,
    ) -> Result<(), AllocError>
        requires ground { IsGround ground.now }
        requires wave { IsWave ground.now self.old }
        requires tracks { AreTracks ground.now (entry_of K.value entry) }
        requires fits { K.value entry.label < K.greatest }
        requires but { IsCompleteButFor ground.now self.old (entry_of K.value entry) }
        ensures settles { OnOk result (Settles ground.now self.old self.new) }
        ensures work { OnOk result (work_of self.new + 3 * waited.new + 1
            ≤ work_of self.old + weight_of (entry_of K.value entry) + 3 * waited.old) }
    {
        if entry.tracks == 0 {
            return Ok(());
        }
        let group = ground.group(entry.group);
        let tracks = self.tracks_left(entry, &group);
        if tracks == 0 {
            return Ok(());
        }
        let left = QueueEntry {
            key: entry.key,
            label: entry.label,
            group: entry.group,
            tracks,
            is_begun: entry.is_begun,
        };
        self.go_on_from(ground, left, &group, waited)
    }

    /// Goes on until all that waits costs more than the nearest sink.
    fn spread(&mut self, ground: &Ground<'_>) -> Result<(), AllocError>
        requires ground { IsGround ground.now }
        requires wave { IsWave ground.now self.old }
        requires complete { IsComplete ground.now self.old }
        requires best { IsBest ground.now self.old }
        ensures settles { OnOk result (Settles ground.now self.old self.new) }
        ensures above { OnOk result (IsAbove self.new) }
    {
        let mut waited = self.queue.len();
        while let Some(entry) = self.pop() {
            self.go_on(ground, entry, &mut waited)?;
        }
        Ok(())
    }

    /// The place of an open sink in the order in which those of one cost are taken: first those
    /// that cost something themselves, by number; then the others, by the number of the pin before
    /// them.
    fn rank(&self, ground: &Ground<'_>, sink: u32) -> u64
        requires ground { IsGround ground.now }
        requires wave { IsWave ground.now self.now }
        requires sink { IsOpen ground.now self.now sink }
    {
        if ground.sink_cost(sink) > 0 {
            u64::from(sink)
        } else {
            (1 << 32) + u64::from(self.labels.row(sink).parent)
        }
    }

    /// Whether the wave has yet to take a sink that costs no more than the nearest.
    fn is_nearest(&self, sink: u32) -> bool
        requires there { sink < length self.now.labels }
        requires reached { self.now.best < FAR }
        ensures { IsTrue result ↔ ((IsOrigin self.now sink → ⊥)
            × (cost_at self.now sink ≤ self.now.best)) }
    {
        !self.starts_at(sink) && !self.best.is_below(self.labels.row(sink).cost)
    }

    /// The first of two sinks at the least cost.
    fn first_of(&self, ground: &Ground<'_>, first: Option<u32>, sink: u32) -> u32
        requires ground { IsGround ground.now }
        requires wave { IsWave ground.now self.now }
        requires first { IfSome first (IsNearest ground.now self.now) }
        requires sink { IsNearest ground.now self.now sink }
        ensures { IsNearest ground.now self.now result }
    {
        match first {
            Some(other) if self.rank(ground, other) <= self.rank(ground, sink) => other,
            _ => sink,
        }
    }

    /// The first of the sinks at the least cost, with one more that may be.
    fn with_nearest(&self, ground: &Ground<'_>, first: Option<u32>, sink: u32) -> Option<u32>
        requires ground { IsGround ground.now }
        requires wave { IsWave ground.now self.now }
        requires best { IsBest ground.now self.now }
        requires reached { self.now.best < FAR }
        requires sink { IsWanted ground.now.space sink }
        requires first { IfSome first (IsNearest ground.now self.now) }
        ensures some { IfSome result (IsNearest ground.now self.now) }
        ensures before { IfNone result (first ≡ None) }
        ensures none { IfNone result (IsNearest ground.now self.now sink → ⊥) }
    {
        if !self.is_nearest(sink) {
            return first;
        }
        Some(self.first_of(ground, first, sink))
    }

    /// The nearest sink, the first of those at the least cost.
    fn first_nearest(&self, ground: &Ground<'_>) -> Option<u32>
        requires ground { IsGround ground.now }
        requires wave { IsWave ground.now self.now }
        requires best { IsBest ground.now self.now }
        requires reached { self.now.best < FAR }
        ensures some { IfSome result (IsNearest ground.now self.now) }
        ensures none { IfNone result (self.now.best ≡ FAR) }
    {
        let mut first = None;
        for sink in ground.sinks() {
            first = self.with_nearest(ground, first, *sink);
        }
        first
    }

    /// Whether a sink is reached for no more than what may have been left out costs.
    fn is_reached(&self) -> bool
        ensures reached { IsTrue result → (self.now.best < FAR) × (self.now.best ≤ self.now.limit) }
        ensures none { IsFalse result → self.now.limit ≤ self.now.best }
    {
        if !self.best.is_below(K::greatest()) {
            return false;
        }
        !self.left_out || !self.ceiling.is_below(self.best)
    }

    /// The nearest sink, if one is reached.
    fn nearest_sink(&self, ground: &Ground<'_>) -> Option<u32>
        requires ground { IsGround ground.now }
        requires wave { IsWave ground.now self.now }
        requires best { IsBest ground.now self.now }
        ensures some { IfSome result (IsNearest ground.now self.now) }
        ensures reached { IfSome result
            (λ sink. (self.now.best < FAR) × (self.now.best ≤ self.now.limit)) }
        ensures none { IfNone result (self.now.limit ≤ self.now.best) }
    {
        if !self.is_reached() {
            return None;
        }
        self.first_nearest(ground)
    }

    /// Goes on to the next sink, and takes it.
    pub(crate) fn take_sink(&mut self, ground: &Ground<'_>) -> Result<Option<u32>, AllocError>
        requires ground { IsGround ground.now }
        requires wave { IsWave ground.now self.old }
        requires complete { IsComplete ground.now self.old }
        requires best { IsBest ground.now self.old }
        ensures settles { OnOk result (Settles ground.now self.old self.new) }
        ensures taken { IfOk result
            (λ taken. IfSome taken (IsTaken ground.now self.new)) }
        ensures spent { IfOk result
            (λ taken. IfNone taken (IsLeastKey ground.now self.new self.new.limit)) }
    {
        self.spread(ground)?;
        Ok(self.nearest_sink(ground))
    }
}
