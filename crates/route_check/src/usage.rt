//! How many nets use each node, and which node is used beyond its capacity.

ghost use Rattle.std.specs.Prelude.{◌≡◌, ◌∷◌, [], ◌+◌, ◌<◌, ◌≤◌, ℕ, Some, IfOk, length, get_or, replicate};
ghost use Rattle.routing_problem.specs.Fabric.{IsFabric};
ghost use Rattle.routing_problem.specs.Problems.{IsProblem};
ghost use Rattle.routing_problem.specs.Nodes.{node_count_of};
ghost use Rattle.route_tree.specs.Paths.{ends_of};
ghost use Rattle.route_tree.specs.Faults.{IsRoute};
ghost use Rattle.route_check.specs.Routed.{IsNetRouted};
ghost use Rattle.route_tree.specs.Usage.{list_in};
ghost use Rattle.route_tree.specs.kept.Counting.{Counts};
ghost use Rattle.route_check.specs.kept.Counted.{HasRoom, AreUses, excess_of};
ghost use Rattle.route_check.specs.kept.Answers.{TellsExcess, JudgesRouting};

use crate::fault::RouteFault;
use route_tree::Pairs;
use routing_problem::{Device, Problem};
use std::alloc::{AllocError, Global};

/// Counts a node once more.
#[tactic(auto, using(route_tree::proofs::Counting::counts_one))]
fn count_node(counts: &mut [u16], node: u32)
    requires there { node < length counts.old }
    requires room { get_or counts.old node 0 < 65535 }
    ensures { Counts counts.old (node ∷ []) counts.new }
{
    counts[node as usize] += 1;
}

/// Counts the nodes of a net: its source, and where its pairs end.
fn count_list(source: u32, pairs: &[(u32, u32)], counts: &mut [u16])
    requires room { HasRoom counts.old (source ∷ ends_of pairs.now) }
    ensures { Counts counts.old (source ∷ ends_of pairs.now) counts.new }
{
    count_node(counts, source);
    for pair in pairs {
        count_node(counts, pair.1);
    }
}

/// Counts the nodes of a net of a routing.
fn count_net(problem: &Problem, lists: &[Option<Pairs>], counts: &mut [u16], net: u32)
    requires limits { IsProblem problem.now }
    requires there { net < length problem.now.nets }
    requires one_each { length lists.now ≡ length problem.now.nets }
    requires routed { IsNetRouted problem.now lists.now net }
    requires so_far { AreUses problem.now lists.now net counts.old }
    ensures { AreUses problem.now lists.now (net + 1) counts.new }
{
    if let Some(pairs) = &lists[net as usize] {
        count_list(problem.source(net), &pairs.items, counts);
    }
}

/// Counts the nodes of all nets of a routing.
fn count_nets(problem: &Problem, lists: &[Option<Pairs>], counts: &mut [u16])
    requires one_each { length lists.now ≡ length problem.now.nets }
    requires routed { (i : ℕ) → i < length problem.now.nets → IsNetRouted problem.now lists.now i }
    requires none { counts.old ≡ replicate (node_count_of problem.now.device) 0 }
    ensures { AreUses problem.now lists.now (length problem.now.nets) counts.new }
{
    for net in 0..problem.nets() {
        count_net(problem, lists, counts, net);
    }
}

/// How many nets use each node.
fn uses(alloc: Global, problem: &Problem, lists: &[Option<Pairs>]) -> Result<Vec<u16>, AllocError>
    requires one_each { length lists.now ≡ length problem.now.nets }
    requires routed { (i : ℕ) → i < length problem.now.nets → IsNetRouted problem.now lists.now i }
    ensures { IfOk result (λ v. AreUses problem.now lists.now (length problem.now.nets) v.items) }
{
    let mut counts = vec![in alloc; 0; problem.device().node_count() as usize]?;
    count_nets(problem, lists, &mut counts);
    Ok(counts)
}

/// By how much the count of a node is above its capacity, which is 1 at least.
#[tactic(auto, using(crate::proofs::Counting::room_for_one))]
fn excess(device: &Device, counts: &[u16], node: u32) -> u32
    requires limits { IsFabric device.now }
    requires each { length counts.now ≡ node_count_of device.now }
    requires there { node < length counts.now }
    ensures { result ≡ excess_of device.now counts.now node }
{
    let count = u32::from(counts[node as usize]);
    if count <= 1 {
        return 0;
    }
    match device.capacity(node) {
        None => count,
        Some(capacity) => count.saturating_sub(capacity),
    }
}

/// The least node whose count is above its capacity.
fn least_overused(device: &Device, counts: &[u16]) -> Option<RouteFault>
    requires limits { IsFabric device.now }
    requires each { length counts.now ≡ node_count_of device.now }
    ensures { TellsExcess device.now counts.now result }
{
    for node in 0..device.node_count() {
        let by = excess(device, counts, node);
        if by > 0 {
            return Some(RouteFault::Overused(node, by));
        }
    }
    None
}

/// The least node that a routing whose nets are all routed uses beyond its capacity.
pub(crate) fn overuse(
    alloc: Global,
    problem: &Problem,
    lists: &[Option<Pairs>],
) -> Result<Option<RouteFault>, AllocError>
    requires one_each { length lists.now ≡ length problem.now.nets }
    requires routed { (i : ℕ) → i < length problem.now.nets → IsNetRouted problem.now lists.now i }
    ensures { IfOk result (JudgesRouting problem.now lists.now) }
{
    let counts = uses(alloc, problem, lists)?;
    Ok(least_overused(problem.device(), &counts))
}
