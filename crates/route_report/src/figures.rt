//! The figures of a whole routing.

ghost use Rattle.std.specs.Prelude.{◌≡◌, ◌+◌, ◌<◌, ◌≤◌, ◌&&◌, ℕ, IfOk, All, length, if◌then◌else◌};
ghost use Rattle.std.specs.Option.{is_some};
ghost use Rattle.routing_problem.specs.Nodes.{node_count_of, is_wire, is_wire_at};
ghost use Rattle.route_tree.specs.Usage.{list_in};
ghost use Rattle.route_report.specs.Covered.{uses_of, is_used};
ghost use Rattle.route_report.specs.Wirelength.{places_at, wirelengths_of};
ghost use Rattle.route_report.specs.Figures.{nets_listed, wires_used, places_used, figures_of};

use crate::uses::is_used;
use crate::wirelength::{greatest, longest, places_at, total, wirelengths};
use route_tree::{Pairs, Routing};
use routing_problem::{Device, Kind, Problem};
use std::alloc::{AllocError, Global};

/// The figures of a whole routing.
#[derive(Clone, Copy, Debug, PartialEq, Eq)]
pub struct Figures {
    /// How many nets there are.
    pub nets: u32,
    /// How many of them have a list.
    pub listed: u32,
    /// How many wires some net covers.
    pub wires: u32,
    /// The places of these wires.
    pub places: u64,
    /// The wirelength of all nets together.
    pub wirelength: u64,
    /// The greatest wirelength of a net.
    pub greatest: u64,
    /// The first net that has it; none if there are no nets.
    pub longest: Option<u32>,
}

/// 1 if the test holds, else 0.
pub(crate) fn one_if(test: bool) -> u32
    ensures { result ≡ (if test then 1 else 0) }
{
    u32::from(test)
}

/// Whether a net has a list.
fn is_listed(lists: &[Option<Pairs>], net: u32) -> bool
    ensures { result ≡ is_some (list_in lists.now net) }
{
    match lists.get(net as usize) {
        Some(list) => list.is_some(),
        None => false,
    }
}

/// How many nets have a list.
#[tactic(auto, using(crate::proofs::Sums::count_next), unfolding(crate::specs::Figures::nets_listed))]
fn nets_listed(problem: &Problem, lists: &[Option<Pairs>]) -> u32
    ensures { result ≡ nets_listed problem.now lists.now }
{
    let mut count = 0;
    for net in 0..problem.nets() {
        count += one_if(is_listed(lists, net));
    }
    count
}

/// Whether a node of this kind is a wire.
pub(crate) fn is_wire_kind(kind: Kind) -> bool
    ensures { result ≡ is_wire kind }
{
    matches!(kind, Kind::Chanx | Kind::Chany)
}

/// Whether a node is a wire.
pub(crate) fn is_wire(device: &Device, node: u32) -> bool
    ensures { result ≡ is_wire_at device.now node }
{
    match device.kind(node) {
        Some(kind) => is_wire_kind(kind),
        None => false,
    }
}

/// Whether a node is a wire that some net covers.
fn is_wire_used(device: &Device, uses: &[u16], node: u32) -> bool
    ensures { result ≡ (is_wire_at device.now node && is_used uses.now node) }
{
    is_wire(device, node) && is_used(uses, node)
}

/// How many wires some net covers.
#[tactic(auto, using(crate::proofs::Sums::count_next), unfolding(crate::specs::Figures::wires_used))]
fn wires_used(device: &Device, uses: &[u16]) -> u32
    ensures { result ≡ wires_used device.now uses.now }
{
    let mut count = 0;
    for node in 0..device.node_count() {
        count += one_if(is_wire_used(device, uses, node));
    }
    count
}

/// The places of a node's wire, if some net covers it.
fn places_if_used(device: &Device, uses: &[u16], node: u32) -> u64
    ensures places { result ≡ (if is_used uses.now node then places_at device.now node else 0) }
    ensures few { result ≤ 128 }
{
    if is_used(uses, node) {
        places_at(device, node)
    } else {
        0
    }
}

/// The places of the wires that some net covers.
#[tactic(auto, using(crate::proofs::Sums::sum_more), unfolding(crate::specs::Figures::places_used))]
fn places_used(device: &Device, uses: &[u16]) -> u64
    ensures { result ≡ places_used device.now uses.now }
{
    let mut places = 0u64;
    for node in 0..device.node_count() {
        places += places_if_used(device, uses, node);
    }
    places
}

/// The figures of a routing, legal or not; `uses` is what `node_uses` gave of it.
#[tactic(auto, using(crate::proofs::Sums::lengths_few, crate::proofs::Sums::lengths_short))]
pub fn figures_of(
    alloc: Global,
    problem: &Problem,
    routing: &Routing,
    uses: &[u16],
) -> Result<Figures, AllocError>
    requires { uses.now ≡ uses_of problem.now routing.now }
    ensures { IfOk result (λ f. f ≡ figures_of problem.now routing.now) }
{
    let nets = problem.nets();
    let device = problem.device();
    let lengths = wirelengths(alloc, problem, routing)?;
    Ok(Figures {
        nets,
        listed: nets_listed(problem, &routing.lists),
        wires: wires_used(device, uses),
        places: places_used(device, uses),
        wirelength: total(&lengths),
        greatest: greatest(&lengths),
        longest: longest(&lengths, nets),
    })
}
