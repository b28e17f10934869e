//! Laws of the `.route` file: functions that do nothing, and whose contracts are theorems about the
//! definitions.

ghost use Rattle.std.specs.Prelude.{◌≡◌, ◌≤◌, ◌^◌, length, true};
ghost use Rattle.net_file.specs.Facts.{IsNetlist};
ghost use Rattle.rr_graph.specs.Fabric.{IsFabric};
ghost use Rattle.route_tree.specs.Fits.{fits_problem};
ghost use Rattle.route_file.specs.Text.{text_of};
ghost use Rattle.route_file.specs.Design.{IsDesign};
ghost use Rattle.route_file.specs.ReadBack.{TellsWhole};
ghost use Rattle.route_file.specs.Reads.{ReadsRoute, ReadsBytes};

use net_file::Netlist;
use place_file::Placement;
use route_tree::Routing;
use rr_graph::Problem;
use vpr_text::Lines;

/// Lines are read as at most one routing.
#[tactic(auto, using(crate::proofs::Related::one_reading))]
pub fn one_reading(
    lines: &Lines,
    netlist: &Netlist,
    problem: &Problem,
    one: &Routing,
    other: &Routing,
)
    requires one { ReadsRoute netlist.now problem.now lines.now one.now }
    requires other { ReadsRoute netlist.now problem.now lines.now other.now }
    ensures { one.now ≡ other.now }
{}

/// What `write` writes is read back if each list of a routing has pairs, in the order in which
/// routings are written, none of them begins at a sink, and the text isn't too long for a file.
#[tactic(auto, using(crate::proofs::ReadBack::read_back))]
pub fn read_back(netlist: &Netlist, placement: &Placement, problem: &Problem, routing: &Routing)
    requires netlist { IsNetlist netlist.now }
    requires device { IsFabric problem.now.device }
    requires design { IsDesign netlist.now placement.now problem.now }
    requires fits { fits_problem problem.now routing.now ≡ true }
    requires whole { TellsWhole problem.now routing.now }
    requires short { length (text_of netlist.now placement.now problem.now routing.now) ≤ 2 ^ 24 }
    ensures { ReadsBytes netlist.now problem.now
        (text_of netlist.now placement.now problem.now routing.now) routing.now }
{}
