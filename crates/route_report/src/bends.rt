//! Where the trees of nets turn between rows and columns.

ghost use Rattle.std.specs.Prelude.{◌≡◌, IfOk, length};
ghost use Rattle.std.specs.List.{filter};
ghost use Rattle.routing_problem.specs.Fabric.{numbers_below};
ghost use Rattle.route_tree.specs.Legality.{is_among};
ghost use Rattle.route_tree.specs.Paths.{ends_of};
ghost use Rattle.route_tree.specs.Usage.{list_in};
ghost use Rattle.route_report.specs.Bends.{bends_of, bends_of_nets, is_bend, nodes_ended, pairs_in, turns};

use crate::covered::ends_below;
use route_tree::Pairs;
use routing_problem::{Device, Kind, Problem};
use std::alloc::{AllocError, Global};

/// Whether one is a wire along a row, and the other one along a column.
fn turns(from: Option<Kind>, to: Option<Kind>) -> bool
    ensures { result ≡ turns from to }
{
    match (from, to) {
        (Some(Kind::Chanx), Some(Kind::Chany)) => true,
        (Some(Kind::Chany), Some(Kind::Chanx)) => true,
        _ => false,
    }
}

/// Whether a pair leads from a wire along a row to one along a column, or the other way round.
fn is_bend(device: &Device, pair: (u32, u32)) -> bool
    ensures { result ≡ is_bend device.now pair }
{
    turns(device.kind(pair.0), device.kind(pair.1))
}

/// The pairs that lead round a corner.
fn bent_pairs(
    alloc: Global,
    device: &Device,
    pairs: &[(u32, u32)],
) -> Result<Vec<(u32, u32)>, AllocError>
    ensures { IfOk result (λ v. v.items ≡ filter (is_bend device.now) pairs.now) }
{
    pairs
        .iter()
        .filter(|pair| is_bend(device, **pair))
        .copied()
        .collect(alloc)
}

/// The nodes, out of this many, at which pairs end, ascending.
fn ends_in_order(alloc: Global, count: u32, pairs: &[(u32, u32)]) -> Result<Vec<u32>, AllocError>
    ensures { IfOk result
        (λ v. v.items ≡ filter (is_among (ends_of pairs.now)) (numbers_below count)) }
{
    let mut nodes = ends_below(alloc, count, pairs)?;
    nodes.sort_unstable();
    nodes.dedup();
    Ok(nodes)
}

/// How many bends these pairs have: the wires to which one leads round a corner, each once.
fn bends_among(alloc: Global, device: &Device, pairs: &[(u32, u32)]) -> Result<u64, AllocError>
    ensures { IfOk result
        (λ n. n ≡ length (nodes_ended device.now (filter (is_bend device.now) pairs.now))) }
{
    let bent = bent_pairs(alloc, device, pairs)?;
    let ends = ends_in_order(alloc, device.node_count(), &bent)?;
    Ok(ends.len() as u64)
}

/// The pairs of a net; none if it has no list.
fn pairs_of(lists: &[Option<Pairs>], net: u32) -> &[(u32, u32)]
    ensures { result.now ≡ pairs_in (list_in lists.now net) }
{
    match lists.get(net as usize) {
        Some(Some(pairs)) => &pairs.items,
        _ => &[],
    }
}

/// The bends of each net.
#[tactic(auto, using(crate::proofs::Lengths::lengths_next), unfolding(crate::specs::Bends::bends_of))]
pub(crate) fn bends_of_nets(
    alloc: Global,
    problem: &Problem,
    lists: &[Option<Pairs>],
) -> Result<Vec<u64>, AllocError>
    ensures { IfOk result (λ v. v.items ≡ bends_of_nets problem.now lists.now) }
{
    let mut bends = Vec::with_capacity(alloc, problem.nets() as usize)?;
    for net in 0..problem.nets() {
        bends.push(bends_among(alloc, problem.device(), pairs_of(lists, net))?)?;
    }
    Ok(bends)
}
