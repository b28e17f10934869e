//! What output pins drive.

ghost use Rattle.std.specs.Prelude.{◌≡◌, [], get_or, Some, IfOk, OnOk};
ghost use Rattle.routing_problem.specs.Nodes.{kind_of_node};
ghost use Rattle.track_groups.specs.Groups.{IsGrouped};
ghost use Rattle.track_groups.specs.Drives.{AreDrivenBy, AreDrives, OnlyPinsDrive};

use crate::group::Drive;
use crate::groups::TrackGroups;
use crate::rows::Rows;
use crate::wires::WireGroups;
use routing_problem::{Device, Kind};
use smallvec::SmallVec;
use std::alloc::{AllocError, Global};
use std::marker::Model;

/// The groups that output pins drive, each with the tracks driven. Contracts see a list of these
/// for each node before the first wire.
#[derive(Debug, Drop)]
pub struct PinDrives {
    rows: Rows<Drive>,
}

impl Model for PinDrives {
    ghost use Rattle.std.specs.Prelude.{List};
    ghost use Rattle.track_groups.specs.declared.group.Drive.{Drive};

    ghost Value = { List (List Drive) };

    ghost view = { λ d. d.rows };
}

/// Lists that are filled for one node after the other.
#[derive(Drop)]
struct Scratch {
    found: SmallVec<u32, 8>,
    listed: Vec<Drive>,
}

impl Scratch {
    /// Lists what a node drives, where it is an output pin.
    #[tactic(auto, using(crate::proofs::MoreDriven::driven_by))]
    fn list(&mut self, device: &Device, groups: &WireGroups, id: u32) -> Result<(), AllocError>
        requires { IsGrouped device.now groups.now }
        ensures driven { OnOk result (kind_of_node device.now id ≡ Some Kind.Opin
            → AreDrivenBy device.now groups.now id self.new.listed.items) }
        ensures others { OnOk result ((kind_of_node device.now id ≡ Some Kind.Opin → ⊥)
            → self.new.listed.items ≡ []) }
    {
        match device.kind(id) {
            Some(Kind::Opin) => {
                device.successors(id, &mut self.found)?;
                groups.merge(self.found.as_slice(), &mut self.listed)?;
            }
            _ => self.listed.clear(),
        }
        Ok(())
    }
}

impl PinDrives {
    /// What all output pins of a device drive.
    #[tactic(auto, using(crate::proofs::AllNodes::drives_next, crate::proofs::AllNodes::drives_all, crate::proofs::AllNodes::others_next, crate::proofs::AllNodes::others_all))]
    pub fn new(
        alloc: Global,
        device: &Device,
        groups: &TrackGroups,
    ) -> Result<PinDrives, AllocError>
        requires { IsGrouped device.now groups.now.wires }
        ensures driven { IfOk result (AreDrives device.now groups.now.wires) }
        ensures others { IfOk result (OnlyPinsDrive device.now) }
    {
        let mut scratch = Scratch {
            found: SmallVec::new(alloc),
            listed: Vec::new(alloc),
        };
        let mut rows = Rows::new(alloc);
        for id in 0..device.first_wire() {
            scratch.list(device, &groups.wires, id)?;
            rows.push(&scratch.listed)?;
        }
        Ok(PinDrives { rows })
    }

    /// What a pin drives: nothing, where it is no output pin.
    pub fn of(&self, pin: u32) -> &[Drive]
        ensures { result.now ≡ get_or self.now pin [] }
    {
        self.rows.row(pin)
    }
}
