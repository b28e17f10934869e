//! Laws of explanations: functions that do nothing, whose contracts are theorems about the
//! definitions. The first line of a net is about the fault that the verdict names, the line of a
//! step names the node at which it ends, and each use of an overused node has its line.

ghost use Rattle.std.specs.Prelude.{◌≡◌, ◌∷◌, ◌<◌, ℕ, List, None, Some, drop, length, true};
ghost use Rattle.rr_graph.specs.Problems.{net_in};
ghost use Rattle.route_check.specs.declared.fault.RouteFault.{RouteFault};
ghost use Rattle.route_check.specs.Nets.{AreJudged};
ghost use Rattle.route_file.specs.Reads.{ReadsRoute};
ghost use Rattle.route_report.specs.Covered.{uses_of};
ghost use Rattle.route_report.specs.Overused.{is_over};
ghost use Rattle.route_tree.specs.Usage.{covers_by, list_in};
ghost use Rattle.runs.specs.Verdict.{IsVerdict};
ghost use Rattle.route_explain.specs.Explanation.{IsFirstLine, pairs_in};
ghost use Rattle.route_explain.specs.Lines.{first_node_line, step_line};
ghost use Rattle.route_explain.specs.LinesNamed.{HasUseLine, IsLineOf, is_at_step, nodes_from, pairs_from};
ghost use Rattle.route_explain.specs.Steps.{pair_at};

use net_file::Netlist;
use route_check::RouteFault;
use route_tree::Routing;
use rr_graph::{Device, Problem};
use vpr_text::Lines;

/// Shows that the verdict names the fault of the first net that has a line.
pub fn first_line_is_of_the_verdict(
    problem: &Problem,
    routing: &Routing,
    faults: &[Option<RouteFault>],
    verdict: Option<RouteFault>,
)
    requires one_each { length routing.now ≡ length problem.now.nets }
    requires judged { AreJudged problem.now routing.now faults.now }
    requires verdict { IsVerdict problem.now routing.now verdict }
    ensures { (fault : RouteFault) → IsFirstLine faults.now fault → verdict ≡ Some fault }
{}

/// Shows that the line that is given for a net's first node names that node. The lines from `start`
/// on up to the next net's line are the net's section.
#[tactic(auto, using(crate::proofs::StepLines::first_is))]
pub fn first_node_is_on_its_line(device: &Device, lines: &Lines<'_>, start: usize)
    ensures { (node : ℕ) → (rest : List ℕ)
        → nodes_from device.now (drop start lines.now) ≡ node ∷ rest
        → IsLineOf device.now (drop start lines.now)
        (first_node_line device.now (drop start lines.now)) node }
{}

/// Shows that the line that is given for the step at a row of a net's list names the node at which
/// the step ends. The lines from `start` on up to the next net's line are the net's section.
#[tactic(auto, using(crate::proofs::StepLines::step_is))]
pub fn step_ends_on_its_line(device: &Device, lines: &Lines<'_>, start: usize, row: usize)
    requires { row < length (pairs_from device.now (drop start lines.now)) }
    ensures { IsLineOf device.now (drop start lines.now)
        (step_line device.now None row (drop start lines.now))
        (pair_at (pairs_from device.now (drop start lines.now)) row).1 }
{}

/// Shows that an explanation has a line for each net and each overused node that the net covers, if
/// a step of the net's list begins or ends there, and that it says that the net uses the node. A
/// net also covers its source if no step of its list is there: then the list has a fault.
#[tactic(auto, using(crate::proofs::Naming::use_line_is))]
pub fn each_use_has_its_line(
    netlist: &Netlist<'_>,
    problem: &Problem,
    lines: &Lines<'_>,
    routing: &Routing,
    net: u32,
    node: u32,
)
    requires reads { ReadsRoute netlist.now problem.now lines.now routing.now }
    requires there { net < length problem.now.nets }
    requires over { is_over problem.now.device (uses_of problem.now routing.now) node ≡ true }
    requires covers { covers_by (net_in problem.now.nets net) (list_in routing.now net) node
        ≡ true }
    requires steps { is_at_step (pairs_in (list_in routing.now net)) node ≡ true }
    ensures { HasUseLine netlist.now problem.now lines.now routing.now net node }
{}
