//! Whether the net of a section covers an overused node.

ghost use Rattle.std.specs.Prelude.{◌≡◌, ◌==◌, IfOk, map, true};
ghost use Rattle.std.specs.List.{list_any};
ghost use Rattle.rr_graph.specs.Problems.{RoutingProblem, net_in};
ghost use Rattle.route_tree.specs.Usage.{Lists};
ghost use Rattle.route_report.specs.Covered.{uses_of};
ghost use Rattle.route_report.specs.Overused.{is_over, nets_on, overused_nodes};
ghost use Rattle.route_explain.specs.Uses.{is_user};

use route_report::OverusedNode;
use rr_graph::Problem;
use run_inputs::number_of_net;
use std::alloc::{AllocError, Global};

/// Returns the numbers of these nodes.
pub(crate) fn node_numbers(alloc: Global, overused: &[OverusedNode]) -> Result<Vec<u32>, AllocError>
    ensures { IfOk result (λ v. v.items ≡ map (λ o. o.node) overused.now) }
{
    overused.iter().map(|entry| entry.node).collect(alloc)
}

/// Returns the nets that cover an overused node, ascending. The nodes have these numbers.
fn nets_on<'a>(nodes: &[u32], overused: &'a [OverusedNode], node: u32) -> &'a [u32]
    requires { nodes.now ≡ map (λ o. o.node) overused.now }
    ensures { (p : RoutingProblem) → (lists : Lists) → overused.now ≡ overused_nodes p lists
        → is_over p.device (uses_of p lists) node ≡ true → result.now ≡ nets_on p lists node }
{
    match nodes.binary_search(&node) {
        Ok(place) => {
            let entry = &overused[place];
            &entry.nets
        }
        Err(_) => &[],
    }
}

/// Returns whether one of these nets of the problem has this number in the netlist.
fn has_number(problem: &Problem, nets: &[u32], number: u32) -> bool
    ensures { result ≡ list_any (λ i. (net_in problem.now.nets i).number == number) nets.now }
{
    nets.iter()
        .any(|net| number_of_net(problem, *net) == number)
}

/// Returns whether the net with this number, if there is one, covers an overused node. The nodes
/// have these numbers.
pub(crate) fn is_user(
    problem: &Problem,
    nodes: &[u32],
    overused: &[OverusedNode],
    net: Option<u32>,
    node: u32,
) -> bool
    requires { nodes.now ≡ map (λ o. o.node) overused.now }
    ensures { (lists : Lists) → overused.now ≡ overused_nodes problem.now lists
        → is_over problem.now.device (uses_of problem.now lists) node ≡ true
        → result ≡ is_user problem.now lists net node }
{
    match net {
        None => false,
        Some(number) => {
            let nets = nets_on(nodes, overused, node);
            has_number(problem, nets, number)
        }
    }
}
