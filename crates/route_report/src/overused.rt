//! The overused nodes, and the nets that cover them.

ghost use Rattle.std.specs.Prelude.{◌≡◌, ◌==◌, ◌++◌, ◌∷◌, [], ◌<◌, ℕ, IfOk, OnOk, All, length, map, get_or, true};
ghost use Rattle.std.specs.List.{filter};
ghost use Rattle.std.specs.List.Sorted.{IsStrictlyIncreasing};
ghost use Rattle.routing_problem.specs.Fabric.{numbers_below};
ghost use Rattle.routing_problem.specs.Nodes.{node_at, node_count_of};
ghost use Rattle.routing_problem.specs.Problems.{IsProblem};
ghost use Rattle.route_tree.specs.Legality.{is_among};
ghost use Rattle.route_tree.specs.Usage.{room_of};
ghost use Rattle.route_report.specs.Covered.{nodes_covered, uses_of};
ghost use Rattle.route_report.specs.Overused.{is_over, overused_nodes};
ghost use Rattle.route_report.specs.kept.Overused.{bare, with_net, entry_to};

use crate::covered::nodes_covered;
use crate::uses::use_at;
use route_tree::{Pairs, Routing};
use routing_problem::{Device, Problem};
use std::alloc::{AllocError, Global};
use std::marker::Model;

/// A node that more nets cover than it has room for. Contracts see the list of the nets.
#[derive(Debug, Drop)]
pub struct OverusedNode {
    pub node: u32,
    /// How many nets cover it.
    pub used: u32,
    /// How many nets it has room for.
    pub capacity: u32,
    /// The nets that cover it, ascending.
    pub nets: Vec<u32>,
}

impl Model for OverusedNode {
    ghost use Rattle.route_report.specs.Overused.{Overuse};

    ghost Value = { Overuse };

    ghost use Rattle.route_report.specs.kept.Overused.{overuse_inside};

    ghost view = { overuse_inside };
}

impl OverusedNode {
    /// One more net covers the node.
    fn add(&mut self, net: u32) -> Result<(), AllocError>
        ensures { OnOk result (self.new ≡ with_net (λ _. true) net self.old) }
    {
        self.nets.push(net)?;
        Ok(())
    }
}

/// How many nets a node has room for; none for what is no node.
#[tactic(auto, using(crate::proofs::Overusing::room_is, crate::proofs::Overusing::no_room))]
fn room(device: &Device, node: u32) -> u32
    ensures { result ≡ room_of device.now (node_at device.now node) }
{
    match device.capacity(node) {
        Some(capacity) => capacity,
        None => 0,
    }
}

/// Whether more nets cover a node than it has room for, by any given uses.
pub fn is_over(device: &Device, uses: &[u16], node: u32) -> bool
    ensures { result ≡ is_over device.now uses.now node }
{
    room(device, node) < use_at(uses, node)
}

/// The overused nodes, ascending.
fn nodes_over(alloc: Global, device: &Device, uses: &[u16]) -> Result<Vec<u32>, AllocError>
    ensures { IfOk result (λ v. v.items ≡ filter
        (is_over device.now uses.now) (numbers_below (node_count_of device.now))) }
{
    (0..device.node_count())
        .filter(|node| is_over(device, uses, *node))
        .collect(alloc)
}

/// What is known about these nodes before any net was looked at.
fn bare_entries(
    alloc: Global,
    device: &Device,
    uses: &[u16],
    nodes: &[u32],
) -> Result<Vec<OverusedNode>, AllocError>
    ensures { IfOk result (λ v. v.items ≡ map (bare device.now uses.now) nodes.now) }
{
    let mut entries = Vec::with_capacity(alloc, nodes.len())?;
    for node in nodes {
        entries.push(OverusedNode {
            node: *node,
            used: use_at(uses, *node),
            capacity: room(device, *node),
            nets: Vec::new(alloc),
        })?;
    }
    Ok(entries)
}

/// Adds a net to the entry of a node, if it has one.
fn add_at(
    entries: &mut [OverusedNode],
    nodes: &[u32],
    node: u32,
    net: u32,
) -> Result<(), AllocError>
    requires nodes { map (λ o. o.node) entries.old ≡ nodes.now }
    requires ascending { IsStrictlyIncreasing nodes.now }
    ensures { OnOk result (entries.new ≡ map (with_net (λ a. node == a) net) entries.old) }
{
    if let Ok(place) = nodes.binary_search(&node) {
        entries[place].add(net)?;
    }
    Ok(())
}

/// Adds a net to the entries of the nodes that it covers.
fn add_net(
    entries: &mut [OverusedNode],
    nodes: &[u32],
    covered: &[u32],
    net: u32,
) -> Result<(), AllocError>
    requires nodes { map (λ o. o.node) entries.old ≡ nodes.now }
    requires ascending { IsStrictlyIncreasing nodes.now }
    requires once { IsStrictlyIncreasing covered.now }
    ensures { OnOk result (entries.new ≡ map (with_net (is_among covered.now) net) entries.old) }
{
    for node in covered {
        add_at(entries, nodes, *node, net)?;
    }
    Ok(())
}

/// Adds each net to the entries of the nodes that it covers.
fn add_nets(
    alloc: Global,
    problem: &Problem,
    lists: &[Option<Pairs>],
    entries: &mut [OverusedNode],
    nodes: &[u32],
) -> Result<(), AllocError>
    requires begin { entries.old ≡ map (entry_to problem.now lists.now 0) nodes.now }
    requires ascending { IsStrictlyIncreasing nodes.now }
    requires there { All (λ a. a < node_count_of problem.now.device) nodes.now }
    ensures { OnOk result
        (entries.new ≡ map (entry_to problem.now lists.now (length problem.now.nets)) nodes.now) }
{
    for net in 0..problem.nets() {
        let covered = nodes_covered(alloc, problem, lists, net)?;
        add_net(entries, nodes, &covered, net)?;
    }
    Ok(())
}

/// The nodes that more nets cover than they have room for, ascending, each with its nets; `uses` is
/// what `node_uses` gave of this routing.
pub fn overused_nodes(
    alloc: Global,
    problem: &Problem,
    routing: &Routing,
    uses: &[u16],
) -> Result<Vec<OverusedNode>, AllocError>
    requires { uses.now ≡ uses_of problem.now routing.now }
    ensures { IfOk result (λ v. v.items ≡ overused_nodes problem.now routing.now) }
{
    let nodes = nodes_over(alloc, problem.device(), uses)?;
    let mut entries = bare_entries(alloc, problem.device(), uses, &nodes)?;
    add_nets(alloc, problem, &routing.lists, &mut entries, &nodes)?;
    Ok(entries)
}
