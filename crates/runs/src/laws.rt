//! Laws of runs: functions that do nothing, whose contracts are theorems about the definitions.

ghost use Rattle.std.specs.Prelude.{◌≡◌, ◌≤◌, ◌^◌, Ok, length};
ghost use Rattle.route_check.specs.Routed.{IsRouted};
ghost use Rattle.route_file.specs.Text.{text_of};
ghost use Rattle.run_inputs.specs.Inputs.{routing_from};

use route_tree::Routing;
use run_inputs::Design;

/// Shows that a routing that routes a design is what reading its text gives, if the text has at
/// most 2^24 bytes. A longer one is refused.
#[tactic(auto, using(crate::proofs::ReadAgain::read_again))]
pub fn routing_is_read_back(design: &Design<'_>, routing: &Routing)
    requires routed { IsRouted design.now.problem routing.now }
    requires short { length (text_of design.now.netlist design.now.placement
        design.now.problem routing.now) ≤ 2 ^ 24 }
    ensures { routing_from design.now.netlist design.now.problem
        (text_of design.now.netlist design.now.placement design.now.problem routing.now)
        ≡ Ok routing.now }
{
    let netlist = design.netlist();
    let problem = design.problem();
    let _nets = netlist.nets().len();
    let _columns = problem.device().nx();
}
