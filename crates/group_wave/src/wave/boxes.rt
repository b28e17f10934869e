//! The boxes around the sinks that a wave has yet to take, by which bounds are found.

ghost use Rattle.std.specs.Prelude.{◌≡◌, ◌<◌, ◌≤◌, ℕ, get_or, slice_index, IsTrue};

use super::Wave;
use std::alloc::AllocError;
use wave_ground::{BoundingBox, Ground, SinkBox};
use wave_queue::Key;

/// How many boxes there are at most.
const MOST_BOXES: usize = 32;

/// Whether a sink is among those that a box is for.
fn is_for(around: SinkBox, sinks: &[u32], sink: u32) -> bool {
    match (
        sinks.get(around.from),
        sinks.get(around.until.saturating_sub(1)),
    ) {
        (Some(first), Some(last)) => *first <= sink && sink <= *last,
        _ => false,
    }
}

impl<K: Key> Wave<K> {
    ghost use Rattle.std.specs.Prelude.{length, OnOk};
    ghost use Rattle.wavefront.specs.kept.Spaces.{node_count};
    ghost use Rattle.wave_ground.specs.kept.Grounds.{IsGround};
    ghost use Rattle.wavefront.specs.Boxes.{box_of_node};
    ghost use Rattle.wavefront.specs.kept.Bounds.{IsInsideBox};
    ghost use Rattle.wave_ground.specs.kept.Boxes.{boxed};
    ghost use Rattle.wave_ground.specs.kept.Nearest.{sink_box};
    ghost use Rattle.group_wave.specs.kept.Wave.{IsOpen, Serves};
    ghost use Rattle.group_wave.specs.kept.Starts.{HasNoBoxes, IsAimed, IsAroundLeft, IsBoxPut, IsNarrowed, IsWithout, ServesMore};

    /// Removes all boxes.
    fn clear_boxes(&mut self)
        ensures { HasNoBoxes self.old self.new }
    {
        self.nearest.clear();
    }

    /// Puts a box around the sinks from one place of their list to the one before another.
    fn surround(&mut self, ground: &Ground<'_>, from: usize, until: usize) -> Result<(), AllocError>
        requires some { from < until }
        requires there { until ≤ length ground.now.space.net.sinks }
        ensures serves { OnOk result (ServesMore ground.now self.old self.new from until) }
        ensures rows { length self.new.labels ≡ length self.old.labels }
        ensures groups { length self.new.known ≡ length self.old.known }
    {
        let place = ground.box_around(from, until);
        self.nearest.push(place, from, until)
    }

    /// Puts boxes around the sinks, each for as many consecutive ones.
    pub(crate) fn aim(&mut self, ground: &Ground<'_>) -> Result<(), AllocError>
        ensures aimed { OnOk result (IsAimed ground.now self.old self.new) }
        ensures rows { length self.new.labels ≡ length self.old.labels }
        ensures groups { length self.new.known ≡ length self.old.known }
    {
        self.clear_boxes();
        let sinks = ground.sinks().len();
        let share = sinks / MOST_BOXES + 1;
        let mut from = 0;
        while from < sinks {
            let until = from + share.min(sinks - from);
            self.surround(ground, from, until)?;
            from = until;
        }
        Ok(())
    }

    /// Whether the wave took all sinks from one place of their list to the one before another.
    fn took_all(&self, ground: &Ground<'_>, from: usize, until: usize) -> bool
        requires ground { IsGround ground.now }
        requires rows { length self.now.labels ≡ node_count ground.now.space }
        ensures { IsTrue result → (p : ℕ) → from ≤ p → p < until →
            p < length ground.now.space.net.sinks →
            IsOpen ground.now self.now (slice_index ground.now.space.net.sinks p) → ⊥ }
    {
        let sinks = ground.sinks();
        for at in from..until.min(sinks.len()) {
            if !self.starts_at(sinks[at]) {
                return false;
            }
        }
        true
    }

    /// Removes a box.
    fn remove_box(&mut self, at: usize) -> SinkBox
        requires { at < length self.old.boxes }
        ensures gone { sink_box result ≡ get_or self.old.boxes at (sink_box result) }
        ensures left { IsWithout self.old self.new (sink_box result) }
    {
        self.nearest.remove(at)
    }

    /// Replaces a box by a narrower one.
    fn put_box(&mut self, at: usize, around: SinkBox, place: BoundingBox)
        requires { at < length self.old.boxes }
        ensures { IsBoxPut self.old self.new at
            (record { place = boxed place; from = around.from; until = around.until }) }
    {
        self.nearest.put(at, around, place);
    }

    /// The least box around another and a sink, if the wave has yet to take it.
    fn around_if_left(&self, ground: &Ground<'_>, around: BoundingBox, sink: u32) -> BoundingBox
        requires there { sink < length self.now.labels }
        ensures first { IsInsideBox (boxed around) (boxed result) }
        ensures second { IsOpen ground.now self.now sink →
            IsInsideBox (box_of_node ground.now.space.device sink) (boxed result) }
    {
        if self.starts_at(sink) {
            return around;
        }
        around.around(ground.box_of(sink))
    }

    /// A box around those sinks from one place of their list to the one before another that the
    /// wave has yet to take.
    fn box_left(&self, ground: &Ground<'_>, from: usize, until: usize) -> BoundingBox
        requires ground { IsGround ground.now }
        requires rows { length self.now.labels ≡ node_count ground.now.space }
        ensures { IsAroundLeft ground.now self.now from until (boxed result) }
    {
        let sinks = ground.sinks();
        let mut around = BoundingBox::NOTHING;
        for at in from..until.min(sinks.len()) {
            around = self.around_if_left(ground, around, sinks[at]);
        }
        around
    }

    /// Makes a box narrower after a sink that it is for was taken, or removes it.
    fn narrow_box(&mut self, ground: &Ground<'_>, at: usize)
        requires ground { IsGround ground.now }
        requires rows { length self.old.labels ≡ node_count ground.now.space }
        requires serves { Serves ground.now self.old }
        requires there { at < length self.old.boxes }
        ensures narrowed { IsNarrowed ground.now self.old self.new }
        ensures boxes { at ≤ length self.new.boxes }
    {
        let around = self.nearest.box_at(at);
        if self.took_all(ground, around.from, around.until) {
            let _gone = self.remove_box(at);
        } else {
            let left = self.box_left(ground, around.from, around.until);
            self.put_box(at, around, left.shared_with(around.place));
        }
    }

    /// Makes a box narrower or removes it, if it is for a sink.
    fn narrow_at(&mut self, ground: &Ground<'_>, sink: u32, at: usize)
        requires ground { IsGround ground.now }
        requires rows { length self.old.labels ≡ node_count ground.now.space }
        requires serves { Serves ground.now self.old }
        requires there { at < length self.old.boxes }
        ensures narrowed { IsNarrowed ground.now self.old self.new }
        ensures boxes { at ≤ length self.new.boxes }
    {
        if is_for(self.nearest.box_at(at), ground.sinks(), sink) {
            self.narrow_box(ground, at);
        }
    }

    /// Makes the box of a taken sink narrower, or removes it if that was its last.
    pub(crate) fn narrow(&mut self, ground: &Ground<'_>, sink: u32)
        requires ground { IsGround ground.now }
        requires rows { length self.old.labels ≡ node_count ground.now.space }
        requires serves { Serves ground.now self.old }
        ensures { IsNarrowed ground.now self.old self.new }
    {
        let mut left = self.nearest.boxes();
        while left > 0 {
            left -= 1;
            self.narrow_at(ground, sink, left);
        }
    }
}
