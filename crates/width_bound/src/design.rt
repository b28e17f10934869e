//! What a cut says about a placed design.

ghost use Rattle.std.specs.Prelude.{◌≡◌, ℕ, ◌<◌, ◌≤◌, List, length, IfOk};
ghost use Rattle.net_file.specs.Reads.{ReadsBytes};
ghost use Rattle.place_file.specs.Placement.{IsPlaced};
ghost use Rattle.rr_graph.specs.node.Mode.{Mode};
ghost use Rattle.rr_graph.specs.Fabric.{most_tracks};
ghost use Rattle.rr_graph.specs.Designs.{problem_with};
ghost use Rattle.route_tree.specs.Usage.{Lists};
ghost use Rattle.route_check.specs.Routed.{IsRouted};
ghost use Rattle.width_bound.specs.Cuts.{border_size};
ghost use Rattle.width_bound.specs.CutNets.{cut_nets_of, least_width};

use crate::cut::Cut;
use crate::figures::{CutFigures, cut_figures};
use arch_file::Arch;
use net_file::Netlist;
use place_file::Placement;
use rr_graph::{MadeOfDesigns, Mode, Problem};
use std::alloc::{AllocError, Global};

/// What the cut says about a netlist and a placement that were read: there is no routing at a width
/// below the one that follows, in either mode.
pub fn design_figures(
    alloc: Global,
    arch: &Arch,
    netlist: &Netlist<'_>,
    placement: &Placement,
    cut: &Cut,
) -> Result<CutFigures, AllocError>
    requires read { (bytes : List ℕ) × ReadsBytes arch.now.pins bytes netlist.now }
    requires placed { IsPlaced arch.now.io_rat netlist.now.blocks placement.now }
    ensures nets { IfOk result (λ c. c.nets ≡
        cut_nets_of arch.now netlist.now placement.now cut.now) }
    ensures pins { IfOk result (λ c. c.pins ≡ length cut.now.pins) }
    ensures places { IfOk result (λ c. c.places ≡
        border_size placement.now.nx placement.now.ny cut.now) }
    ensures width { IfOk result (λ c. c.width ≡ least_width c.nets c.pins c.places) }
    ensures none_below { IfOk result (λ c. (mode : Mode) (width : ℕ) (lists : Lists) →
        1 ≤ width → width ≤ most_tracks → width < c.width →
        ¬ IsRouted (problem_with mode arch.now netlist.now placement.now width) lists) }
{
    let problem = Problem::from_design(alloc, arch, netlist, placement, 1, Mode::Detailed)?;
    let _limits = problem.device();
    let _facts = netlist.nets();
    cut_figures(alloc, &problem, cut)
}
