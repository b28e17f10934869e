//! What there is of each type of wire, and what is used of it.

ghost use Rattle.std.specs.Prelude.{◌≡◌, ◌==◌, ◌≤◌, ◌&&◌, ℕ, IfOk, if◌then◌else◌, length, map};
ghost use Rattle.routing_problem.specs.Fabric.{numbers_below};
ghost use Rattle.routing_problem.specs.Wires.{track_type};
ghost use Rattle.route_report.specs.Covered.{is_used};
ghost use Rattle.route_report.specs.Wirelength.{places_at};
ghost use Rattle.route_report.specs.WireTypes.{has_type, wire_type_of, wire_types_of};
ghost use Rattle.route_report.specs.kept.WireTypes.{tracks_with};

use crate::figures::{is_wire_kind, one_if};
use crate::uses::is_used;
use crate::wirelength::places_at;
use routing_problem::Device;
use std::alloc::{AllocError, Global};

/// What there is of a type of wire, and what nets cover of it.
#[derive(Clone, Copy, Debug, PartialEq, Eq)]
pub struct WireTypeUse {
    /// Its tracks in a channel; a global device has one track, which represents all.
    pub tracks: u32,
    pub wires: u32,
    /// The places of these wires.
    pub places: u64,
    /// The wires that some net covers.
    pub wires_used: u32,
    /// The places of those.
    pub places_used: u64,
}

/// The type of a track, from a table of their types.
#[tactic(auto, using(crate::proofs::TypesOfTracks::type_found))]
fn type_at(device: &Device, types: &[usize], track: u32) -> usize
    requires { types.now ≡ map (track_type device.now) (numbers_below device.now.width) }
    ensures { result ≡ track_type device.now track }
{
    match types.get(track as usize) {
        Some(kind) => *kind,
        None => device.track_type(track),
    }
}

/// Whether a node is a wire of this type; `types` are those of the tracks.
fn has_type(device: &Device, types: &[usize], kind: usize, node: u32) -> bool
    requires { types.now ≡ map (track_type device.now) (numbers_below device.now.width) }
    ensures { result ≡ has_type device.now kind node }
{
    match device.node(node) {
        Some(wire) => is_wire_kind(wire.kind) && type_at(device, types, wire.number) == kind,
        None => false,
    }
}

/// Whether the test holds of a node that some net covers.
fn and_used(test: bool, uses: &[u16], node: u32) -> bool
    ensures { result ≡ (test && is_used uses.now node) }
{
    test && is_used(uses, node)
}

/// The places of a node's wire, if the test holds.
fn places_if(test: bool, device: &Device, node: u32) -> u64
    ensures places { result ≡ (if test then places_at device.now node else 0) }
    ensures few { result ≤ 128 }
{
    if test { places_at(device, node) } else { 0 }
}

/// How many tracks of a channel are of this type.
#[tactic(auto, using(crate::proofs::Sums::count_next))]
fn count_tracks(device: &Device, types: &[usize], kind: usize) -> u32
    requires { types.now ≡ map (track_type device.now) (numbers_below device.now.width) }
    ensures { result ≡ tracks_with device.now kind }
{
    let mut count = 0;
    for track in 0..device.tracks() {
        count += one_if(type_at(device, types, track) == kind);
    }
    count
}

/// What there is of one type, and what nets cover of it.
#[tactic(auto, using(crate::proofs::Sums::count_next, crate::proofs::Sums::sum_more), unfolding(crate::specs::WireTypes::wire_type_of))]
fn wire_type(device: &Device, types: &[usize], uses: &[u16], kind: usize) -> WireTypeUse
    requires { types.now ≡ map (track_type device.now) (numbers_below device.now.width) }
    ensures { result ≡ wire_type_of device.now uses.now kind }
{
    let tracks = count_tracks(device, types, kind);
    let (mut wires, mut places) = (0u32, 0u64);
    let (mut wires_used, mut places_used) = (0u32, 0u64);
    for node in 0..device.node_count() {
        let is_one = has_type(device, types, kind, node);
        let used = and_used(is_one, uses, node);
        wires += one_if(is_one);
        places += places_if(is_one, device, node);
        wires_used += one_if(used);
        places_used += places_if(used, device, node);
    }
    WireTypeUse {
        tracks,
        wires,
        places,
        wires_used,
        places_used,
    }
}

/// What there is of each type of wire, in the order of the architecture, and what nets cover of it;
/// `uses` is what `node_uses` gave of a routing.
#[tactic(auto, using(crate::proofs::Sums::types_next), unfolding(crate::specs::WireTypes::wire_types_of))]
pub fn wire_type_uses(
    alloc: Global,
    device: &Device,
    uses: &[u16],
) -> Result<Vec<WireTypeUse>, AllocError>
    ensures { IfOk result (λ v. v.items ≡ wire_types_of device.now uses.now) }
{
    let types = device.track_types(alloc)?;
    let kinds = device.architecture().segments().len();
    let mut list = Vec::with_capacity(alloc, kinds)?;
    for kind in 0..kinds {
        list.push(wire_type(device, &types, uses, kind))?;
    }
    Ok(list)
}
