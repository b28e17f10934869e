//! How many tracks are occupied at each place of the channels of a kind.

ghost use Rattle.std.specs.Prelude.{◌≡◌, ◌==◌, ◌+◌, ◌^◌, ◌≤◌, ◌<◌, ℕ, [], Some, IfOk, length, map, get_or, replicate, if◌then◌else◌};
ghost use Rattle.routing_problem.specs.Fabric.{numbers_below};
ghost use Rattle.routing_problem.specs.Nodes.{node_at, node_count_of, wire_in};
ghost use Rattle.route_report.specs.Channels.{occupied_by, occupies, place_in, occupancies_in};
ghost use Rattle.route_report.specs.kept.Channels.{stretch_in, along, across, Adds, AddsAll, IsOccupied};

use crate::uses::use_at;
use routing_problem::{Device, Kind, Mode};
use std::alloc::{AllocError, Global};
use std::marker::Model;

/// Where a wire lies: the number of its channel, and its first and last place there.
#[derive(Clone, Copy, Debug, PartialEq, Eq)]
struct Stretch {
    channel: u32,
    first: u32,
    last: u32,
}

/// The places of one channel. Contracts see the list of how many tracks are occupied at each.
#[derive(Drop)]
pub(crate) struct Places {
    occupied: Vec<u64>,
}

impl Model for Places {
    ghost use Rattle.std.specs.Prelude.{ℕ, List};

    ghost Value = { List ℕ };

    ghost view = { λ p. p.occupied.items };
}

/// Where a node's wire lies, if it is one of this kind.
fn stretch_of(device: &Device, kind: Kind, node: u32) -> Option<Stretch>
    ensures { result ≡ stretch_in kind (wire_in device.now (node_at device.now node)) }
{
    match (device.wire(node), kind) {
        (Some((Kind::Chanx, span, _)), Kind::Chanx) => Some(Stretch {
            channel: span.y1,
            first: span.x1,
            last: span.x2,
        }),
        (Some((Kind::Chany, span, _)), Kind::Chany) => Some(Stretch {
            channel: span.x1,
            first: span.y1,
            last: span.y2,
        }),
        _ => None,
    }
}

/// How many tracks a wire occupies if this many nets cover it.
fn occupied_by(mode: Mode, nets: u32) -> u64
    requires { nets ≤ 65535 }
    ensures occupied { result ≡ occupied_by mode nets }
    ensures few { result ≤ 65535 }
{
    match mode {
        Mode::Detailed => u64::from(nets.min(1)),
        Mode::Global => u64::from(nets),
    }
}

/// Adds occupied tracks at one place, if there is such a place.
#[tactic(auto, using(crate::proofs::Occupying::adds_one, crate::proofs::Occupying::adds_none))]
fn occupy_place(places: &mut [u64], place: u32, by: u64)
    requires { get_or places.old place 0 + by < 2 ^ 63 }
    ensures { Adds places.old (λ m. if m == place then by else 0) places.new }
{
    if (place as usize) < places.len() {
        places[place as usize] += by;
    }
}

/// Adds occupied tracks along a stretch.
#[tactic(auto, using(crate::proofs::Occupying::adds_begin, crate::proofs::Occupying::adds_next, crate::proofs::Occupying::adds_end))]
fn occupy_along(places: &mut [u64], stretch: Stretch, by: u64)
    requires { (m : ℕ) → get_or places.old m 0 + by < 2 ^ 63 }
    ensures { Adds places.old (along stretch by) places.new }
{
    for place in stretch.first.saturating_sub(1)..stretch.last {
        occupy_place(places, place, by);
    }
}

impl Places {
    /// This many places, without an occupied track.
    fn new(alloc: Global, count: u32) -> Result<Places, AllocError>
        ensures { IfOk result (λ p. p ≡ replicate count 0) }
    {
        Ok(Places {
            occupied: vec![in alloc; 0; count as usize]?,
        })
    }

    /// How many tracks are occupied at each place.
    pub(crate) fn occupied(&self) -> &[u64]
        ensures { result.now ≡ self.now }
    {
        self.occupied.as_slice()
    }

    /// Adds occupied tracks along a stretch.
    fn occupy(&mut self, stretch: Stretch, by: u64)
        requires { (m : ℕ) → get_or self.old m 0 + by < 2 ^ 63 }
        ensures { Adds self.old (along stretch by) self.new }
    {
        occupy_along(&mut self.occupied, stretch, by);
    }
}

/// Channels in which no track is occupied.
#[tactic(auto, using(crate::proofs::Occupying::one_channel_more))]
fn free_channels(alloc: Global, count: u32, places: u32) -> Result<Vec<Places>, AllocError>
    ensures { IfOk result (λ v. v.items ≡ replicate count (replicate places 0)) }
{
    let mut channels = Vec::with_capacity(alloc, count as usize)?;
    for _ in 0..count {
        channels.push(Places::new(alloc, places)?)?;
    }
    Ok(channels)
}

/// Adds occupied tracks along a stretch of its channel.
fn occupy_channel(channels: &mut [Places], stretch: Stretch, by: u64)
    requires { (c : ℕ) → (m : ℕ) → get_or (get_or channels.old c []) m 0 + by < 2 ^ 63 }
    ensures { AddsAll channels.old (across (Some stretch) by) channels.new }
{
    if (stretch.channel as usize) < channels.len() {
        channels[stretch.channel as usize].occupy(stretch, by);
    }
}

/// Adds occupied tracks along a stretch, if there is one.
fn occupy_stretch(channels: &mut [Places], stretch: Option<Stretch>, by: u64)
    requires { (c : ℕ) → (m : ℕ) → get_or (get_or channels.old c []) m 0 + by < 2 ^ 63 }
    ensures { AddsAll channels.old (across stretch by) channels.new }
{
    if let Some(stretch) = stretch {
        occupy_channel(channels, stretch, by);
    }
}

/// Adds the tracks that one more node occupies.
fn occupy_node(device: &Device, uses: &[u16], kind: Kind, channels: &mut [Places], node: u32)
    requires there { node < node_count_of device.now }
    requires room { (c : ℕ) → (m : ℕ) → get_or (get_or channels.old c []) m 0 ≤ 2 ^ 40 }
    ensures { AddsAll channels.old
        (λ c m. occupies device.now uses.now (place_in kind c m) node) channels.new }
{
    let stretch = stretch_of(device, kind, node);
    let by = occupied_by(device.mode(), use_at(uses, node));
    occupy_stretch(channels, stretch, by);
}

/// How many tracks are occupied at each place of the channels of a kind: this many channels, each
/// of this many places.
#[tactic(auto, using(crate::proofs::Occupying::none_occupied, crate::proofs::Occupying::node_occupied, crate::proofs::Occupying::all_occupied))]
pub(crate) fn occupancies(
    alloc: Global,
    device: &Device,
    uses: &[u16],
    kind: Kind,
    places: u32,
    count: u32,
) -> Result<Vec<Places>, AllocError>
    ensures { IfOk result (λ v. v.items ≡
        map (occupancies_in device.now uses.now kind places) (numbers_below count)) }
{
    let mut channels = free_channels(alloc, count, places)?;
    for node in 0..device.node_count() {
        occupy_node(device, uses, kind, &mut channels, node);
    }
    Ok(channels)
}
