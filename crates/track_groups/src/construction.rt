//! The groups of a device, with their edges.

ghost use Rattle.std.specs.Prelude.{IfOk, IfSome};
ghost use Rattle.track_groups.specs.Joints.{IsTabled};

use crate::groups::TrackGroups;
use crate::wires::WireGroups;
use routing_problem::Device;
use std::alloc::{AllocError, Global};

impl TrackGroups {
    /// Groups of the greatest classes, where their wires are evenly apart.
    fn of_classes(alloc: Global, device: &Device) -> Result<Option<TrackGroups>, AllocError>
        ensures { IfOk result (λ found. IfSome found (IsTabled device.now)) }
    {
        let draft = WireGroups::draft(alloc, device)?;
        if !draft.holds(device) {
            return Ok(None);
        }
        let found = draft.join(alloc, device)?;
        Ok(found)
    }

    /// Groups of one wire each.
    fn of_wires(alloc: Global, device: &Device) -> Result<TrackGroups, AllocError>
        ensures { IfOk result (IsTabled device.now) }
    {
        let lone = WireGroups::lone(alloc, device)?;
        match lone.join(alloc, device)? {
            Some(groups) => Ok(groups),
            None => unreachable!(),
        }
    }

    /// The groups of a device's wires: of the greatest classes of tracks, at most 64, whose wires
    /// begin at the same places; where the wires of such a class aren't evenly apart, each wire is
    /// a group of its own.
    pub fn new(alloc: Global, device: &Device) -> Result<TrackGroups, AllocError>
        ensures { IfOk result (IsTabled device.now) }
    {
        match TrackGroups::of_classes(alloc, device)? {
            Some(groups) => Ok(groups),
            None => Ok(TrackGroups::of_wires(alloc, device)?),
        }
    }
}
