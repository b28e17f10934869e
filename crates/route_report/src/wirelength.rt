//! How many places wires pass, and how long nets are.

ghost use Rattle.std.specs.Prelude.{◌≡◌, ◌*◌, ◌^◌, ◌<◌, ◌≤◌, ℕ, ◌==◌, IfOk, All, length, sum, map, get_or};
ghost use Rattle.std.specs.List.{sum_by, find};
ghost use Rattle.routing_problem.specs.Fabric.{IsFabric, numbers_below};
ghost use Rattle.routing_problem.specs.Nodes.{node_count_of};
ghost use Rattle.route_report.specs.Covered.{nodes_covered};
ghost use Rattle.route_report.specs.Wirelength.{places_along, places_at, wirelength_of, wirelengths_of, greatest_in, first_greatest};

use crate::covered::nodes_covered;
use route_tree::{Pairs, Routing};
use routing_problem::{Device, Problem, Span};
use std::alloc::{AllocError, Global};

/// The places from the first one to the last.
fn places_along(span: Span) -> u64
    ensures { result ≡ places_along span }
{
    u64::from(span.x2.saturating_sub(span.x1)) + u64::from(span.y2.saturating_sub(span.y1)) + 1
}

#[tactic(auto, unfolding(crate::specs::Wirelength::places_at))]
fn places_of_wire(device: &Device, node: u32) -> u64
    ensures places { result ≡ places_at device.now node }
    ensures limits { IsFabric device.now }
{
    match device.wire(node) {
        Some((_, span, _)) => places_along(span),
        None => 0,
    }
}

/// How many places a node's wire passes; none if the node is no wire.
#[tactic(auto, using(crate::proofs::Lengths::places_few))]
pub fn places_at(device: &Device, node: u32) -> u64
    ensures places { result ≡ places_at device.now node }
    ensures few { result ≤ 128 }
{
    places_of_wire(device, node)
}

/// The places of the wires among these nodes.
fn places_of(device: &Device, nodes: &[u32]) -> u64
    requires { length nodes.now ≤ 2 ^ 23 }
    ensures { result ≡ sum_by (places_at device.now) nodes.now }
{
    let mut places = 0u64;
    for node in nodes {
        places += places_at(device, *node);
    }
    places
}

/// The places of all wires that a net covers, each wire once.
#[tactic(auto, using(crate::proofs::Lengths::covered_few), unfolding(crate::specs::Wirelength::wirelength_of))]
fn wirelength(
    alloc: Global,
    problem: &Problem,
    lists: &[Option<Pairs>],
    net: u32,
) -> Result<u64, AllocError>
    requires { net < length problem.now.nets }
    ensures { IfOk result (λ places. places ≡ wirelength_of problem.now lists.now net) }
{
    let device = problem.device();
    let nodes = nodes_covered(alloc, problem, lists, net)?;
    Ok(places_of(device, &nodes))
}

/// The wirelength of each net.
#[tactic(auto, using(crate::proofs::Lengths::lengths_next), unfolding(crate::specs::Wirelength::wirelengths_of))]
fn lengths_of(
    alloc: Global,
    problem: &Problem,
    lists: &[Option<Pairs>],
) -> Result<Vec<u64>, AllocError>
    ensures { IfOk result (λ v. v.items ≡ wirelengths_of problem.now lists.now) }
{
    let mut lengths = Vec::with_capacity(alloc, problem.nets() as usize)?;
    for net in 0..problem.nets() {
        lengths.push(wirelength(alloc, problem, lists, net)?)?;
    }
    Ok(lengths)
}

/// The wirelength of each net of a routing: the places of all wires that it covers, each wire once;
/// 0 if it has no list.
pub fn wirelengths(
    alloc: Global,
    problem: &Problem,
    routing: &Routing,
) -> Result<Vec<u64>, AllocError>
    ensures { IfOk result (λ v. v.items ≡ wirelengths_of problem.now routing.now) }
{
    lengths_of(alloc, problem, &routing.lists)
}

/// The wirelength of all nets together.
pub(crate) fn total(lengths: &[u64]) -> u64
    requires few { length lengths.now ≤ 65535 }
    requires short { All (λ n. n ≤ 2 ^ 40) lengths.now }
    ensures { result ≡ sum lengths.now }
{
    let mut total = 0u64;
    for length in lengths {
        total += *length;
    }
    total
}

/// The greatest of these numbers; 0 if there are none.
#[tactic(auto, using(crate::proofs::Lengths::greatest_next, crate::proofs::Lengths::greatest_all))]
pub(crate) fn greatest(numbers: &[u64]) -> u64
    ensures { result ≡ greatest_in numbers.now }
{
    let mut most = 0;
    for number in numbers {
        most = most.max(*number);
    }
    most
}

/// The number at an index; 0 past the last one.
fn number_at(numbers: &[u64], index: u32) -> u64
    ensures { result ≡ get_or numbers.now index 0 }
{
    match numbers.get(index as usize) {
        Some(number) => *number,
        None => 0,
    }
}

/// The first index below the count that has this number.
fn first_at(numbers: &[u64], count: u32, wanted: u64) -> Option<u32>
    ensures { result ≡ find (λ i. get_or numbers.now i 0 == wanted) (numbers_below count) }
{
    (0..count).find(|index| number_at(numbers, *index) == wanted)
}

/// The first of this many nets that has the greatest wirelength; none if there are no nets.
#[tactic(auto, unfolding(crate::specs::Wirelength::first_greatest))]
pub(crate) fn longest(lengths: &[u64], nets: u32) -> Option<u32>
    requires { length lengths.now ≡ nets }
    ensures { result ≡ first_greatest lengths.now }
{
    first_at(lengths, nets, greatest(lengths))
}
