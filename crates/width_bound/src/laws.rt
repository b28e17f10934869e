//! Laws of cuts: functions that do nothing, and whose contracts are theorems about the definitions.

ghost use Rattle.std.specs.Prelude.{◌≡◌, ℕ, ◌+◌, ◌*◌, ◌<◌, ◌≤◌, true, length};
ghost use Rattle.arch_file.specs.Architecture.{Architecture};
ghost use Rattle.net_file.specs.Facts.{IsNetlist};
ghost use Rattle.net_file.specs.Netlist.{Netlist};
ghost use Rattle.place_file.specs.Placement.{Placement};
ghost use Rattle.rr_graph.specs.node.Mode.{Mode};
ghost use Rattle.rr_graph.specs.Fabric.{IsFabric, fabric_with};
ghost use Rattle.rr_graph.specs.Problems.{RoutingProblem, IsProblem};
ghost use Rattle.rr_graph.specs.Designs.{problem_with, suits_design};
ghost use Rattle.route_tree.specs.Usage.{Lists};
ghost use Rattle.route_check.specs.Routed.{IsRouted};
ghost use Rattle.width_bound.specs.Cuts.{Cut, border_size};
ghost use Rattle.width_bound.specs.CutNets.{cut_nets, cut_nets_of, least_width};

/// If a routing routes a problem, no more nets are cut than pins are given up and tracks run
/// through the places of the border.
#[tactic(auto, using(crate::proofs::Bound::few_are_cut))]
pub fn few_nets_pass()
    ensures { (p : RoutingProblem) (lists : Lists) (cut : Cut) →
        IsFabric p.device → IsProblem p → IsRouted p lists →
        cut_nets p cut ≤
        length cut.pins + p.device.width * border_size p.device.nx p.device.ny cut }
{}

/// The same number of nets of a placed design are cut at every width, and in either mode.
#[tactic(auto, using(crate::proofs::SameCount::same_count))]
pub fn same_at_every_width()
    ensures { (a : Architecture) (netlist : Netlist) (placement : Placement) (cut : Cut)
        (one other : ℕ) (mode mode' : Mode) →
        IsFabric (fabric_with placement.nx placement.ny one mode a) →
        IsFabric (fabric_with placement.nx placement.ny other mode' a) →
        IsNetlist netlist →
        suits_design (fabric_with placement.nx placement.ny one mode a) netlist placement ≡ true →
        cut_nets (problem_with mode a netlist placement one) cut ≡
        cut_nets (problem_with mode' a netlist placement other) cut }
{}

/// If a routing routes a placed design, no more of its nets are cut than pins are given up and
/// tracks run through the places of the border.
#[tactic(auto, using(crate::proofs::DesignBound::few_of_design))]
pub fn few_nets_of_design_pass()
    ensures { (a : Architecture) (netlist : Netlist) (placement : Placement) (cut : Cut)
        (mode : Mode) (width : ℕ) (lists : Lists) →
        IsFabric (fabric_with placement.nx placement.ny width mode a) →
        IsNetlist netlist →
        suits_design (fabric_with placement.nx placement.ny width mode a) netlist placement ≡
        true →
        IsRouted (problem_with mode a netlist placement width) lists →
        cut_nets_of a netlist placement cut ≤
        length cut.pins + width * border_size placement.nx placement.ny cut }
{}

/// No routing routes a placed design at a width below the least that a cut leaves.
#[tactic(auto, using(crate::proofs::DesignBound::no_narrower))]
pub fn no_narrower_routing()
    ensures { (a : Architecture) (netlist : Netlist) (placement : Placement) (cut : Cut)
        (mode : Mode) (width : ℕ) (lists : Lists) →
        IsFabric (fabric_with placement.nx placement.ny width mode a) →
        IsNetlist netlist →
        suits_design (fabric_with placement.nx placement.ny width mode a) netlist placement ≡
        true →
        width < least_width (cut_nets_of a netlist placement cut) (length cut.pins)
        (border_size placement.nx placement.ny cut) →
        ¬ IsRouted (problem_with mode a netlist placement width) lists }
{}
