//! Tracks put together by their groups.

ghost use Rattle.std.specs.Prelude.{◌≡◌, ◌<◌, OnOk};
ghost use Rattle.track_groups.specs.Groups.{IsGrouped};
ghost use Rattle.track_groups.specs.kept.Merging.{SetsBit, DrivesMore, PutsNode, AreMerged};
ghost use Rattle.routing_problem.specs.Fabric.{Fabric};

use crate::group::{Drive, GroupTrack};
use crate::wires::WireGroups;
use std::alloc::AllocError;

/// The bits with one more of them 1.
#[tactic(auto, using(crate::proofs::MoreDriven::bit_set))]
pub(crate) fn with_bit(bits: u64, bit: u32) -> u64
    requires { bit < 64 }
    ensures { SetsBit bit bits result }
{
    bits | (1 << bit)
}

/// Notes one track.
#[tactic(auto, using(crate::proofs::MoreDriven::put_set, crate::proofs::MoreDriven::put_push))]
fn put_drive(drives: &mut Vec<Drive>, place: GroupTrack) -> Result<(), AllocError>
    requires { place.track < 64 }
    ensures { OnOk result (DrivesMore place drives.old.items drives.new.items) }
{
    for index in 0..drives.len() {
        let drive = drives[index];
        if drive.group == place.group {
            drives[index] = Drive {
                group: drive.group,
                tracks: with_bit(drive.tracks, place.track),
            };
            return Ok(());
        }
    }
    drives.push(Drive {
        group: place.group,
        tracks: with_bit(0, place.track),
    })?;
    Ok(())
}

impl WireGroups {
    /// Notes the track of a node, where it is a wire.
    fn put_node(&self, id: u32, drives: &mut Vec<Drive>) -> Result<(), AllocError>
        ensures { OnOk result (PutsNode self.now id drives.old.items drives.new.items) }
    {
        if !self.is_wire(id) {
            return Ok(());
        }
        put_drive(drives, self.place(id))?;
        Ok(())
    }

    /// Lists the tracks of the wires among these nodes.
    #[tactic(auto, using(crate::proofs::MoreDriven::merged_none))]
    pub(crate) fn merge(&self, ids: &[u32], drives: &mut Vec<Drive>) -> Result<(), AllocError>
        requires { (f : Fabric) × IsGrouped f self.now }
        ensures { OnOk result (AreMerged self.now ids.now drives.new.items) }
    {
        drives.clear();
        for id in ids {
            self.put_node(*id, drives)?;
        }
        Ok(())
    }
}
