//! The bound of a placed netlist.

ghost use Rattle.std.specs.Prelude.{◌≡◌, ℕ, List, IfOk};
ghost use Rattle.net_file.specs.Reads.{ReadsBytes};
ghost use Rattle.place_file.specs.Placement.{IsPlaced};
ghost use Rattle.run_inputs.specs.Inputs.{placed_with};
ghost use Rattle.bound_run.specs.Bounds.{IsTrueOf, figures_of};

use arch_file::Arch;
use cut_search::{FoundCut, least_possible};
use net_file::Netlist;
use place_file::Placement;
use run_inputs::PlacedNetlist;
use std::alloc::{AllocError, Global};

/// Finds a cut for a netlist and a placement that were read.
fn cut_of(
    alloc: Global,
    arch: &Arch,
    netlist: &Netlist<'_>,
    placement: &Placement,
) -> Result<FoundCut, AllocError>
    requires read { (bytes : List ℕ) × ReadsBytes arch.now.pins bytes netlist.now }
    requires placed { IsPlaced arch.now.io_rat netlist.now.blocks placement.now }
    ensures figures { IfOk result (λ b. b.figures ≡
        figures_of (placed_with arch.now netlist.now placement.now) b.cut) }
    ensures sound { IfOk result (λ b. IsTrueOf
        (placed_with arch.now netlist.now placement.now) b.figures) }
{
    let _pads = arch.io_rat();
    let _nets = netlist.nets();
    let _columns = placement.nx();
    least_possible(alloc, arch, netlist, placement)
}

/// Finds a bound of a placed netlist: a cut and its figures. No routing of the netlist is legal at
/// a width that the figures rule out, in either mode. Another cut may show more.
///
/// # Errors
/// If memory ran out.
pub fn find_bound(alloc: Global, placed: &PlacedNetlist<'_>) -> Result<FoundCut, AllocError>
    ensures figures { IfOk result (λ b. b.figures ≡ figures_of placed.now b.cut) }
    ensures sound { IfOk result (λ b. IsTrueOf placed.now b.figures) }
{
    cut_of(alloc, placed.arch(), placed.netlist(), placed.placement())
}
