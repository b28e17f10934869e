//! Groups from classes of tracks. Nothing is promised about them here: they are tested.

ghost use Rattle.std.specs.Prelude.{◌^◌, ◌≤◌, length, All, IfOk, IfSome};
ghost use Rattle.track_groups.specs.kept.Fields.{IsSmall};

use crate::classes::{Class, classes_of};
use crate::group::{Group, GroupTrack};
use crate::packed::PackedGroup;
use crate::wires::WireGroups;
use routing_problem::{Device, Kind, Node};
use std::alloc::{AllocError, Global};

/// The place of a wire until its own is written; each is written.
const UNKNOWN: GroupTrack = GroupTrack { group: 0, track: 0 };

/// The most groups: a device has fewer nodes.
const MOST_GROUPS: usize = 1 << 23;

/// How much further each track's wire is than the one before, where the first wire of a class is at
/// this node.
fn stride_of(device: &Device, wire: u32, node: Node, class: Class) -> u32
    ensures { result ≤ 2 ^ 23 }
{
    if class.count < 2 {
        return 1;
    }
    let second = Node {
        number: node.number.saturating_add(class.step),
        ..node
    };
    match device.id(second) {
        None => 1,
        Some(id) => id.saturating_sub(wire).min(1 << 23),
    }
}

/// The group of a class that begins at a place; None where none of its wires begins there.
fn group_at(device: &Device, class: Class, kind: Kind, x: u32, y: u32) -> Option<Group>
    ensures { IfSome result IsSmall }
{
    let node = Node {
        kind,
        x,
        y,
        number: class.first,
    };
    let wire = device.id(node)?;
    let (kind, span, reach) = device.wire(wire)?;
    Some(Group {
        kind,
        span,
        reach,
        base: wire.min(device.node_count()),
        stride: stride_of(device, wire, node, class),
        tracks: class.count.min(64),
    })
}

/// Adds the groups that begin at a place, in the order of their first tracks.
fn push_groups(
    groups: &mut Vec<PackedGroup>,
    device: &Device,
    classes: &[Class],
    kind: Kind,
    x: u32,
    y: u32,
) -> Result<(), AllocError>
    requires small { All IsSmall groups.old.items }
    requires few { length groups.old.items ≤ 2 ^ 23 }
    ensures small { All IsSmall groups.new.items }
    ensures few { length groups.new.items ≤ 2 ^ 23 }
{
    for class in classes {
        if let Some(group) = group_at(device, *class, kind, x, y) {
            if groups.len() < MOST_GROUPS {
                groups.push(PackedGroup::new(group))?;
            }
        }
    }
    Ok(())
}

/// Adds the groups of a kind, by their places.
fn push_groups_of_kind(
    groups: &mut Vec<PackedGroup>,
    device: &Device,
    classes: &[Class],
    kind: Kind,
) -> Result<(), AllocError>
    requires small { All IsSmall groups.old.items }
    requires few { length groups.old.items ≤ 2 ^ 23 }
    ensures small { All IsSmall groups.new.items }
    ensures few { length groups.new.items ≤ 2 ^ 23 }
{
    for x in 0..device.nx() + 1 {
        for y in 0..device.ny() + 1 {
            push_groups(groups, device, classes, kind, x, y)?;
        }
    }
    Ok(())
}

/// All groups, in the order of their first wires.
fn groups_from(
    alloc: Global,
    device: &Device,
    classes: &[Class],
) -> Result<Vec<PackedGroup>, AllocError>
    ensures small { IfOk result (λ v. All IsSmall v.items) }
    ensures few { IfOk result (λ v. length v.items ≤ 2 ^ 23) }
{
    let mut groups = Vec::new(alloc);
    push_groups_of_kind(&mut groups, device, classes, Kind::Chanx)?;
    push_groups_of_kind(&mut groups, device, classes, Kind::Chany)?;
    Ok(groups)
}

/// Writes where the wires of a group are.
fn put_places(places: &mut [GroupTrack], first_wire: u32, number: u32, group: Group) {
    for track in 0..group.tracks {
        let wire = u64::from(group.base) + u64::from(track) * u64::from(group.stride);
        let index = wire.saturating_sub(u64::from(first_wire)) as usize;
        if index < places.len() {
            places[index] = GroupTrack {
                group: number,
                track,
            };
        }
    }
}

/// The group and track of each wire.
fn places_from(
    alloc: Global,
    first_wire: u32,
    wires: u32,
    groups: &[PackedGroup],
) -> Result<Vec<GroupTrack>, AllocError> {
    let mut places = vec![in alloc; UNKNOWN; wires as usize]?;
    let mut number = 0u32;
    for group in groups {
        put_places(&mut places, first_wire, number, group.group());
        number = number.saturating_add(1);
    }
    Ok(places)
}

impl WireGroups {
    /// The groups of these classes.
    fn of_classes(
        alloc: Global,
        device: &Device,
        classes: &[Class],
    ) -> Result<WireGroups, AllocError> {
        let first_wire = device.first_wire();
        let wires = device.node_count().saturating_sub(first_wire);
        let groups = groups_from(alloc, device, classes)?;
        let places = places_from(alloc, first_wire, wires, &groups)?;
        Ok(WireGroups {
            first_wire,
            groups,
            places,
        })
    }

    /// The groups of the greatest classes.
    pub(crate) fn draft(alloc: Global, device: &Device) -> Result<WireGroups, AllocError> {
        let classes = classes_of(alloc, device)?;
        WireGroups::of_classes(alloc, device, &classes)
    }
}
