//! The bends, wires and places of the nets.

ghost use Rattle.std.specs.Prelude.{◌≡◌, ◌^◌, ◌<◌, ◌≤◌, All, IfOk, count_by, length, map};
ghost use Rattle.routing_problem.specs.Fabric.{numbers_below};
ghost use Rattle.routing_problem.specs.Nodes.{is_wire_at};
ghost use Rattle.route_report.specs.Bends.{bends_of_nets};
ghost use Rattle.route_report.specs.Wirelength.{wirelengths_of};
ghost use Rattle.route_report.specs.NetFigures.{net_figures_of, totals_of, wires_of, wires_of_nets};

use crate::bends::bends_of_nets;
use crate::covered::nodes_covered;
use crate::figures::{is_wire, one_if};
use crate::wirelength::{greatest, longest, total, wirelengths};
use route_tree::{Pairs, Routing};
use routing_problem::{Device, Problem};
use std::alloc::{AllocError, Global};

/// The figures of a number that each net has.
#[derive(Clone, Copy, Debug, PartialEq, Eq)]
pub struct NetTotals {
    /// The sum over all nets.
    pub total: u64,
    /// The greatest of a net.
    pub most: u64,
    /// The first net that has it; none if there are no nets.
    pub first: Option<u32>,
}

/// The bends, wires and places of the nets.
#[derive(Clone, Copy, Debug, PartialEq, Eq)]
pub struct NetFigures {
    /// Wires to which a net's pair leads from a wire of the other direction.
    pub bends: NetTotals,
    pub wires: NetTotals,
    /// The wirelengths.
    pub places: NetTotals,
}

/// How many of these nodes are wires.
fn wires_among(device: &Device, nodes: &[u32]) -> u64
    ensures { result ≡ count_by (is_wire_at device.now) nodes.now }
{
    let mut wires = 0u64;
    for node in nodes {
        wires += u64::from(one_if(is_wire(device, *node)));
    }
    wires
}

/// How many wires a net covers.
#[tactic(auto, unfolding(crate::specs::NetFigures::wires_of))]
fn wires_of_net(
    alloc: Global,
    problem: &Problem,
    lists: &[Option<Pairs>],
    net: u32,
) -> Result<u64, AllocError>
    requires { net < length problem.now.nets }
    ensures { IfOk result (λ n. n ≡ wires_of problem.now lists.now net) }
{
    let nodes = nodes_covered(alloc, problem, lists, net)?;
    Ok(wires_among(problem.device(), &nodes))
}

/// The wires of each net.
#[tactic(auto, using(crate::proofs::Lengths::lengths_next))]
fn wires_of_nets(
    alloc: Global,
    problem: &Problem,
    lists: &[Option<Pairs>],
) -> Result<Vec<u64>, AllocError>
    ensures { IfOk result (λ v. v.items ≡ wires_of_nets problem.now lists.now) }
{
    let mut wires = Vec::with_capacity(alloc, problem.nets() as usize)?;
    for net in 0..problem.nets() {
        wires.push(wires_of_net(alloc, problem, lists, net)?)?;
    }
    Ok(wires)
}

/// The figures of these numbers, one for each of this many nets.
fn totals_of(numbers: &[u64], nets: u32) -> NetTotals
    requires nets { length numbers.now ≡ nets }
    requires few { length numbers.now ≤ 65535 }
    requires small { All (λ n. n ≤ 2 ^ 40) numbers.now }
    ensures { result ≡ totals_of numbers.now }
{
    NetTotals {
        total: total(numbers),
        most: greatest(numbers),
        first: longest(numbers, nets),
    }
}

/// The figures of the nets' bends.
#[tactic(auto, using(crate::proofs::NetSums::bends_few, crate::proofs::NetSums::bends_small))]
fn bend_totals(alloc: Global, problem: &Problem, routing: &Routing) -> Result<NetTotals, AllocError>
    ensures { IfOk result (λ t. t ≡ totals_of (bends_of_nets problem.now routing.now)) }
{
    let _limits = problem.device();
    let bends = bends_of_nets(alloc, problem, &routing.lists)?;
    Ok(totals_of(&bends, problem.nets()))
}

/// The figures of the nets' wires.
#[tactic(auto, using(crate::proofs::NetSums::wires_few, crate::proofs::NetSums::wires_small))]
fn wire_totals(alloc: Global, problem: &Problem, routing: &Routing) -> Result<NetTotals, AllocError>
    ensures { IfOk result (λ t. t ≡ totals_of (wires_of_nets problem.now routing.now)) }
{
    let _limits = problem.device();
    let wires = wires_of_nets(alloc, problem, &routing.lists)?;
    Ok(totals_of(&wires, problem.nets()))
}

/// The figures of the nets' wirelengths.
#[tactic(auto, using(crate::proofs::Sums::lengths_few, crate::proofs::Sums::lengths_short))]
fn place_totals(
    alloc: Global,
    problem: &Problem,
    routing: &Routing,
) -> Result<NetTotals, AllocError>
    ensures { IfOk result (λ t. t ≡ totals_of (wirelengths_of problem.now routing.now)) }
{
    let _limits = problem.device();
    let places = wirelengths(alloc, problem, routing)?;
    Ok(totals_of(&places, problem.nets()))
}

/// The bends, wires and places of the nets of a routing, legal or not.
pub fn net_figures(
    alloc: Global,
    problem: &Problem,
    routing: &Routing,
) -> Result<NetFigures, AllocError>
    ensures { IfOk result (λ f. f ≡ net_figures_of problem.now routing.now) }
{
    Ok(NetFigures {
        bends: bend_totals(alloc, problem, routing)?,
        wires: wire_totals(alloc, problem, routing)?,
        places: place_totals(alloc, problem, routing)?,
    })
}
