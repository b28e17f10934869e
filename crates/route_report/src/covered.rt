//! The nodes that a net covers.

ghost use Rattle.std.specs.Prelude.{◌≡◌, ◌++◌, ◌∷◌, ◌<◌, [], nat_lt, length, IfOk, OnOk};
ghost use Rattle.std.specs.List.{filter};
ghost use Rattle.routing_problem.specs.Fabric.{numbers_below};
ghost use Rattle.routing_problem.specs.Nodes.{node_count_of};
ghost use Rattle.routing_problem.specs.Problems.{net_in};
ghost use Rattle.route_tree.specs.Paths.{ends_of};
ghost use Rattle.route_tree.specs.Usage.{covers, covers_by, list_in};
ghost use Rattle.route_report.specs.Covered.{nodes_covered};

use route_tree::Pairs;
use routing_problem::Problem;
use std::alloc::{AllocError, Global};

/// Where the pairs end, in their order; numbers from the count on are no nodes.
pub(crate) fn ends_below(
    alloc: Global,
    count: u32,
    pairs: &[(u32, u32)],
) -> Result<Vec<u32>, AllocError>
    ensures { IfOk result (λ v. v.items ≡ filter (λ a. nat_lt a count) (ends_of pairs.now)) }
{
    pairs
        .iter()
        .map(|pair| pair.1)
        .filter(|node| *node < count)
        .collect(alloc)
}

/// Pushes a number that is below the count.
fn push_below(nodes: &mut Vec<u32>, count: u32, node: u32) -> Result<(), AllocError>
    ensures { OnOk result (nodes.new.items ≡
        nodes.old.items ++ filter (λ a. nat_lt a count) (node ∷ [])) }
{
    if node < count {
        nodes.push(node)?;
    }
    Ok(())
}

/// The nodes, out of this many, that a source and pairs cover, ascending.
#[tactic(auto, using(crate::proofs::Covering::covered_in_order))]
fn covered_by(
    alloc: Global,
    count: u32,
    source: u32,
    pairs: &[(u32, u32)],
) -> Result<Vec<u32>, AllocError>
    ensures { IfOk result
        (λ v. v.items ≡ filter (covers source pairs.now) (numbers_below count)) }
{
    let mut nodes = ends_below(alloc, count, pairs)?;
    push_below(&mut nodes, count, source)?;
    nodes.sort_unstable();
    nodes.dedup();
    Ok(nodes)
}

/// The nodes that a net with this list covers, ascending.
#[tactic(auto, using(crate::proofs::Covering::none_covered))]
fn covered_by_list(
    alloc: Global,
    problem: &Problem,
    net: u32,
    list: &Option<Pairs>,
) -> Result<Vec<u32>, AllocError>
    requires { net < length problem.now.nets }
    ensures { IfOk result (λ v. v.items ≡ filter
        (covers_by (net_in problem.now.nets net) list.now)
        (numbers_below (node_count_of problem.now.device))) }
{
    match list {
        Some(pairs) => {
            let count = problem.device().node_count();
            covered_by(alloc, count, problem.source(net), &pairs.items)
        }
        None => Ok(Vec::new(alloc)),
    }
}

/// The nodes that a net covers, ascending.
#[tactic(auto, using(crate::proofs::Covering::none_covered), unfolding(crate::specs::Covered::nodes_covered))]
pub(crate) fn nodes_covered(
    alloc: Global,
    problem: &Problem,
    lists: &[Option<Pairs>],
    net: u32,
) -> Result<Vec<u32>, AllocError>
    requires { net < length problem.now.nets }
    ensures { IfOk result (λ v. v.items ≡ nodes_covered problem.now lists.now net) }
{
    match lists.get(net as usize) {
        Some(list) => covered_by_list(alloc, problem, net, list),
        None => Ok(Vec::new(alloc)),
    }
}
