//! The best cut that is found, and its figures.

ghost use Rattle.std.specs.Prelude.{◌≡◌, ℕ, ◌<◌, ◌≤◌, List, length, IfOk};
ghost use Rattle.net_file.specs.Reads.{ReadsBytes};
ghost use Rattle.place_file.specs.Placement.{IsPlaced};
ghost use Rattle.rr_graph.specs.node.Mode.{Mode};
ghost use Rattle.rr_graph.specs.Fabric.{most_tracks};
ghost use Rattle.rr_graph.specs.Designs.{problem_with};
ghost use Rattle.route_tree.specs.Usage.{Lists};
ghost use Rattle.route_check.specs.Routed.{IsRouted};
ghost use Rattle.width_bound.specs.Cuts.{border_size};
ghost use Rattle.width_bound.specs.CutNets.{cut_nets_of, least_width};

use crate::candidates::best_cut;
use crate::terminals::Terminals;
use arch_file::Arch;
use net_file::Netlist;
use place_file::Placement;
use rr_graph::{MadeOfDesigns, Mode, Problem};
use std::alloc::{AllocError, Global};
use width_bound::{Cut, CutFigures, design_figures};

/// A cut, and its figures.
#[derive(Drop)]
pub struct FoundCut {
    pub cut: Cut,
    pub figures: CutFigures,
}

/// Where the nets of a netlist and a placement that were read begin and end.
fn terminals_of_design(
    alloc: Global,
    arch: &Arch,
    netlist: &Netlist<'_>,
    placement: &Placement,
) -> Result<Terminals, AllocError>
    requires read { (bytes : List ℕ) × ReadsBytes arch.now.pins bytes netlist.now }
    requires placed { IsPlaced arch.now.io_rat netlist.now.blocks placement.now }
{
    let problem = Problem::from_design(alloc, arch, netlist, placement, 1, Mode::Detailed)?;
    Terminals::new(alloc, &problem)
}

/// The best cut of those that are tried.
fn best_of_design(
    alloc: Global,
    arch: &Arch,
    netlist: &Netlist<'_>,
    placement: &Placement,
) -> Result<Cut, AllocError>
    requires read { (bytes : List ℕ) × ReadsBytes arch.now.pins bytes netlist.now }
    requires placed { IsPlaced arch.now.io_rat netlist.now.blocks placement.now }
{
    let terminals = terminals_of_design(alloc, arch, netlist, placement)?;
    best_cut(alloc, arch.pins(), &terminals)
}

/// A cut of a netlist and a placement that were read, with its figures: there is no routing at a
/// width below that of the figures, in either mode.
pub fn least_possible(
    alloc: Global,
    arch: &Arch,
    netlist: &Netlist<'_>,
    placement: &Placement,
) -> Result<FoundCut, AllocError>
    requires read { (bytes : List ℕ) × ReadsBytes arch.now.pins bytes netlist.now }
    requires placed { IsPlaced arch.now.io_rat netlist.now.blocks placement.now }
    ensures nets { IfOk result (λ b. b.figures.nets ≡
        cut_nets_of arch.now netlist.now placement.now b.cut) }
    ensures pins { IfOk result (λ b. b.figures.pins ≡ length b.cut.pins) }
    ensures places { IfOk result (λ b. b.figures.places ≡
        border_size placement.now.nx placement.now.ny b.cut) }
    ensures width { IfOk result (λ b. b.figures.width ≡
        least_width b.figures.nets b.figures.pins b.figures.places) }
    ensures none_below { IfOk result (λ b. (mode : Mode) (width : ℕ) (lists : Lists) →
        1 ≤ width → width ≤ most_tracks → width < b.figures.width →
        ¬ IsRouted (problem_with mode arch.now netlist.now placement.now width) lists) }
{
    let cut = best_of_design(alloc, arch, netlist, placement)?;
    let figures = design_figures(alloc, arch, netlist, placement, &cut)?;
    Ok(FoundCut { cut, figures })
}
