//! How many nets cover each node.

ghost use Rattle.std.specs.Prelude.{◌≡◌, ◌∷◌, [], ◌+◌, ◌<◌, ◌≤◌, ℕ, IfOk, OnOk, All, count_by, ◌==◌, length, get_or, replicate};
ghost use Rattle.routing_problem.specs.Nodes.{node_count_of};
ghost use Rattle.routing_problem.specs.Problems.{IsProblem};
ghost use Rattle.route_report.specs.Covered.{nodes_covered, uses_of, is_used};
ghost use Rattle.route_tree.specs.kept.Counting.{Counts};
ghost use Rattle.route_report.specs.kept.Counting.{AreUses};

use crate::covered::nodes_covered;
use route_tree::{Pairs, Routing};
use routing_problem::Problem;
use std::alloc::{AllocError, Global};

/// How many nets cover a node; none past the last one.
pub(crate) fn use_at(uses: &[u16], node: u32) -> u32
    ensures uses { result ≡ get_or uses.now node 0 }
    ensures few { result ≤ 65535 }
{
    match uses.get(node as usize) {
        Some(count) => u32::from(*count),
        None => 0,
    }
}

/// Whether some net covers the node.
pub(crate) fn is_used(uses: &[u16], node: u32) -> bool
    ensures { result ≡ is_used uses.now node }
{
    use_at(uses, node) > 0
}

/// Counts a node once more.
#[tactic(auto, using(route_tree::proofs::Counting::counts_one))]
fn count_node(counts: &mut [u16], node: u32)
    requires there { node < length counts.old }
    requires room { get_or counts.old node 0 < 65535 }
    ensures { Counts counts.old (node ∷ []) counts.new }
{
    counts[node as usize] += 1;
}

/// Counts each of these nodes once more.
#[tactic(auto, using(crate::proofs::Counting::counts_next, crate::proofs::Counting::counts_all, crate::proofs::Counting::node_there, crate::proofs::Counting::node_room))]
fn count_each(counts: &mut [u16], nodes: &[u32])
    requires there { All (λ a. a < length counts.old) nodes.now }
    requires room { (a : ℕ) →
        get_or counts.old a 0 + count_by (λ b. b == a) nodes.now ≤ 65535 }
    ensures { Counts counts.old nodes.now counts.new }
{
    for node in nodes {
        count_node(counts, *node);
    }
}

/// Counts the nodes that a net covers.
#[tactic(auto, using(crate::proofs::Counting::covered_there, crate::proofs::Counting::covered_room, crate::proofs::Counting::uses_more))]
fn count_net(
    alloc: Global,
    problem: &Problem,
    lists: &[Option<Pairs>],
    counts: &mut [u16],
    net: u32,
) -> Result<(), AllocError>
    requires limits { IsProblem problem.now }
    requires there { net < length problem.now.nets }
    requires so_far { AreUses problem.now lists.now net counts.old }
    ensures { OnOk result (AreUses problem.now lists.now (net + 1) counts.new) }
{
    let nodes = nodes_covered(alloc, problem, lists, net)?;
    count_each(counts, &nodes);
    Ok(())
}

/// Counts the nodes that all nets cover.
#[tactic(auto, using(crate::proofs::Counting::no_uses))]
fn count_nets(
    alloc: Global,
    problem: &Problem,
    lists: &[Option<Pairs>],
    counts: &mut [u16],
) -> Result<(), AllocError>
    requires { counts.old ≡ replicate (node_count_of problem.now.device) 0 }
    ensures { OnOk result (AreUses problem.now lists.now (length problem.now.nets) counts.new) }
{
    for net in 0..problem.nets() {
        count_net(alloc, problem, lists, counts, net)?;
    }
    Ok(())
}

/// How many nets of a routing cover each node, by its number. The routing need not be legal: an
/// entry past the last net, and a number that is no node's, count nothing.
#[tactic(auto, using(crate::proofs::Counting::all_used))]
pub fn node_uses(
    alloc: Global,
    problem: &Problem,
    routing: &Routing,
) -> Result<Vec<u16>, AllocError>
    ensures { IfOk result (λ v. v.items ≡ uses_of problem.now routing.now) }
{
    let mut counts = vec![in alloc; 0; problem.device().node_count() as usize]?;
    count_nets(alloc, problem, &routing.lists, &mut counts)?;
    Ok(counts)
}
