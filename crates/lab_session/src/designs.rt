//! Designs that are read again from their texts.

ghost use Rattle.std.specs.Prelude.{IfOk};
ghost use Rattle.place_file.specs.Placement.{IsPlaced};

use crate::session::DesignTexts;
use crate::unanswered::Unanswered;
use net_file::Netlist;
use place_file::Placement;
use rr_graph::{Device, SuitsDesigns};
use std::alloc::Global;

/// Reads the placement of a design again, for a netlist.
pub fn placement_of(
    alloc: Global,
    design: DesignTexts<'_>,
    netlist: &Netlist<'_>,
) -> Result<Placement, Unanswered>
    ensures { IfOk result (λ p. IsPlaced design.entry.arch.now.io_rat netlist.now.blocks p) }
{
    let placement = place_file::parse(alloc, design.place, design.arch, netlist)?;
    Ok(placement)
}

/// Returns whether a device suits a netlist and the placement of a design. The placement is read
/// again for the netlist `placed`.
pub fn are_suited(
    alloc: Global,
    design: DesignTexts<'_>,
    device: &Device,
    netlist: &Netlist<'_>,
    placed: &Netlist<'_>,
) -> Result<bool, Unanswered> {
    let placement = placement_of(alloc, design, placed)?;
    Ok(device.suits(netlist, &placement))
}
