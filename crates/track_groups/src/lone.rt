//! Groups of one wire each, for a device whose tracks aren't evenly apart.

ghost use Rattle.std.specs.Prelude.{◌≡◌, ◌+◌, ◌^◌, ◌<◌, map, IfOk};
ghost use Rattle.routing_problem.specs.Fabric.{numbers_below};
ghost use Rattle.track_groups.specs.Groups.{IsGrouped};
ghost use Rattle.track_groups.specs.kept.Lone.{lone_wire, lone_at, first_track, AreLone};

use crate::group::{Group, GroupTrack};
use crate::packed::PackedGroup;
use crate::wires::WireGroups;
use routing_problem::{Device, Kind, Span};
use std::alloc::{AllocError, Global};

/// Where no wire is.
const NOWHERE: Span = Span {
    x1: 0,
    y1: 0,
    x2: 0,
    y2: 0,
};

/// The group of one wire.
#[tactic(auto, using(crate::proofs::SmallWires::lone_fits))]
fn lone_wire(device: &Device, wire: u32) -> PackedGroup
    requires { wire < 2 ^ 23 }
    ensures { result ≡ lone_wire device.now wire }
{
    let (kind, span, reach) = match device.wire(wire) {
        None => (Kind::Chanx, NOWHERE, 0),
        Some(told) => told,
    };
    PackedGroup::new(Group {
        kind,
        span,
        reach,
        base: wire,
        stride: 1,
        tracks: 1,
    })
}

/// The groups of so many wires.
fn lone_wires(
    alloc: Global,
    device: &Device,
    first_wire: u32,
    wires: u32,
) -> Result<Vec<PackedGroup>, AllocError>
    requires { first_wire + wires < 2 ^ 23 }
    ensures { IfOk result
        (λ v. v.items ≡ map (lone_at device.now first_wire) (numbers_below wires)) }
{
    let mut groups = Vec::with_capacity(alloc, wires as usize)?;
    for index in 0..wires {
        groups.push(lone_wire(device, first_wire + index))?;
    }
    Ok(groups)
}

/// The group of each wire, which has the wire's number among the wires.
fn lone_places(alloc: Global, wires: u32) -> Result<Vec<GroupTrack>, AllocError>
    ensures { IfOk result (λ v. v.items ≡ map first_track (numbers_below wires)) }
{
    let mut places = Vec::with_capacity(alloc, wires as usize)?;
    for group in 0..wires {
        places.push(GroupTrack { group, track: 0 })?;
    }
    Ok(places)
}

impl WireGroups {
    /// Each wire in a group of its own.
    #[tactic(auto, using(crate::proofs::SingleWires::lone_grouped, crate::proofs::SingleWires::lone_single))]
    pub(crate) fn lone(alloc: Global, device: &Device) -> Result<WireGroups, AllocError>
        ensures grouped { IfOk result (IsGrouped device.now) }
        ensures lone { IfOk result AreLone }
    {
        let first_wire = device.first_wire();
        let wires = device.node_count() - first_wire;
        let places = lone_places(alloc, wires)?;
        let groups = lone_wires(alloc, device, first_wire, wires)?;
        Ok(WireGroups {
            first_wire,
            groups,
            places,
        })
    }
}
