//! The tracks of a channel, and the wires in them.

ghost use Rattle.std.specs.Prelude.{◌≡◌, ℕ, ◌+◌, ◌-◌, ◌*◌, ◌^◌, ◌≤◌, ◌<◌, IfOk, length, map, if◌then◌else◌};
ghost use Rattle.arch_file.specs.Architecture.{most_segments};
ghost use Rattle.channel_tables.specs.Wires.{tracks_in, total_frequency, weight_of_first, type_of, track_type, length_of, runs_through};
ghost use Rattle.channel_tables.specs.LastPlaces.{last_by};
ghost use Rattle.channel_tables.specs.Fabric.{IsFabric, most_tracks, numbers_below};

use crate::layout::Layout;
use crate::node::{Kind, Mode, Node};
use arch_file::{Segment, SegmentLength};
use std::alloc::{AllocError, Global};

/// The frequencies of all types together.
fn total_frequency(segments: &[Segment]) -> u128
    requires { length segments.now ≤ most_segments }
    ensures { result ≡ total_frequency segments.now }
{
    let mut total = 0u128;
    for segment in segments {
        total += u128::from(segment.frequency);
    }
    total
}

/// The weight of a type, where `even` says that all frequencies are 0.
fn weight_of(segment: &Segment, even: bool) -> u64
    ensures { result ≡ (if even then 1 else segment.now.frequency) }
{
    if even { 1 } else { segment.frequency }
}

/// The weight of the first `count` types together.
#[tactic(auto, unfolding(crate::specs::Wires::weight_of_first))]
fn weight_of_first(segments: &[Segment], count: usize) -> u128
    requires few { length segments.now ≤ most_segments }
    requires within { count ≤ length segments.now }
    ensures weight { result ≡ weight_of_first segments.now count }
    ensures fits { result ≤ 2 ^ 64 * most_segments }
{
    let even = total_frequency(segments) == 0;
    let mut weight = 0u128;
    for segment in &segments[..count] {
        weight += u128::from(weight_of(segment, even));
    }
    weight
}

/// The type of a track in a channel of this width.
#[tactic(auto, using(crate::proofs::Ranges::first_below), unfolding(crate::specs::Wires::type_of))]
fn type_of(segments: &[Segment], width: u32, track: u32) -> usize
    requires few { length segments.now ≤ most_segments }
    requires narrow { width ≤ most_tracks }
    ensures { result ≡ type_of segments.now width track }
{
    let middle = (2 * u128::from(track) + 1) * weight_of_first(segments, segments.len());
    for kind in 0..segments.len() {
        if middle < 2 * u128::from(width) * weight_of_first(segments, kind + 1) {
            return kind;
        }
    }
    segments.len()
}

impl Layout {
    /// The type of a track: which of the architecture's types its wires are of.
    pub fn track_type(&self, track: u32) -> usize
        ensures { result ≡ track_type self.now track }
    {
        type_of(self.segments(), self.width(), track)
    }

    /// The types of the tracks.
    #[tactic(auto, using(crate::proofs::Ranges::mapped_next))]
    pub fn track_types(&self, alloc: Global) -> Result<Vec<usize>, AllocError>
        ensures { IfOk result
            (λ v. v.items ≡ map (track_type self.now) (numbers_below self.now.width)) }
    {
        let mut types = Vec::with_capacity(alloc, self.width() as usize)?;
        for track in 0..self.width() {
            types.push(self.track_type(track))?;
        }
        Ok(types)
    }

    /// How many wires run through a place of a channel.
    #[tactic(auto, using(crate::proofs::TrackCounts::tracks_within))]
    pub fn tracks(&self) -> u32
        ensures tracks { result ≡ tracks_in self.now.mode self.now.width }
        ensures few { result ≤ most_tracks }
        ensures within { result ≤ self.now.width }
        ensures limits { IsFabric self.now }
    {
        self.tracks
    }

    /// How many places the wires of a track pass in a channel of `places` places.
    #[tactic(auto, unfolding(crate::specs::Wires::length_of))]
    pub(crate) fn length_of(&self, places: u32, track: u32) -> u32
        requires { 1 ≤ places }
        ensures length { result ≡ length_of self.now places track }
        ensures some { 1 ≤ result }
    {
        match self.mode {
            Mode::Global => 1,
            Mode::Detailed => {
                let segments = self.arch.segments();
                match segments.get(type_of(segments, self.width, track)) {
                    None => 1,
                    Some(segment) => match segment.length {
                        SegmentLength::Places(length) => length,
                        SegmentLength::Longline => places,
                    },
                }
            }
        }
    }

    /// Whether the wire runs through the place (x, y) of a channel; `last` is its last place.
    #[tactic(auto, unfolding(crate::specs::Wires::runs_through))]
    pub(crate) fn runs_through(&self, wire: Node, last: u32, kind: Kind, x: u32, y: u32) -> bool
        requires { last ≡ last_by wire.kind self.now wire }
        ensures { result ≡ runs_through self.now wire (kind, x, y) }
    {
        match (wire.kind, kind) {
            (Kind::Chanx, Kind::Chanx) => { wire.y == y && (wire.x <= x && x <= last) }
            (Kind::Chany, Kind::Chany) => { wire.x == x && (wire.y <= y && y <= last) }
            _ => false,
        }
    }
}
