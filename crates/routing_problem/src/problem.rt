//! Routing problems: what the nets of a design join on a device.

ghost use Rattle.std.specs.Prelude.{◌≡◌, ◌+◌, ◌<◌, length, IfOk};
ghost use Rattle.std.specs.List.{list_all};
ghost use Rattle.channel_tables.specs.Fabric.{IsFabric, numbers_below};
ghost use Rattle.routing_problem.specs.Problems.{IsProblem, net_in, net_fault, first_some, parts_fault, problem_of, ascends, are_sinks, is_out_of_order, rises_at};
ghost use Rattle.node_numbers.specs.Nodes.{is_sink};

use crate::device::Device;
use crate::nets::{Terminals, copy_nets, number_at};
use crate::parts_fault::PartsFault;
use std::alloc::{AllocError, Global};
use std::marker::Model;

/// A routing problem: a device, and the nets that are to be routed on it.
/// Contracts see the record of the device and of the list of its nets.
#[derive(Drop)]
pub struct Problem {
    pub(crate) device: Device,
    pub(crate) nets: Vec<Terminals>,
}

impl Model for Problem {
    ghost use Rattle.routing_problem.specs.Problems.{RoutingProblem};

    ghost Value = { RoutingProblem };

    ghost use Rattle.routing_problem.specs.kept.Fields.{problem_inside};

    ghost view = { problem_inside };

    ghost use Rattle.routing_problem.specs.Problems.{IsProblem};

    ghost invariant = { λ p. IsProblem (problem_inside p) };
}

/// Whether the number after an index is above the number there.
fn rises_at(numbers: &[u32], index: usize) -> bool
    requires { index + 1 < length numbers.now }
    ensures { result ≡ rises_at numbers.now index }
{
    numbers[index] < numbers[index + 1]
}

/// Whether each number is above the one before.
#[tactic(auto, using(crate::proofs::FirstFaults::all_below, crate::proofs::FirstFaults::one_below), unfolding(crate::specs::Problems::ascends))]
fn ascends(numbers: &[u32]) -> bool
    ensures { result ≡ ascends numbers.now }
{
    for index in 0..numbers.len().saturating_sub(1) {
        if !rises_at(numbers, index) {
            return false;
        }
    }
    true
}

/// Whether all nodes are sinks.
fn are_all_sinks(device: &Device, nodes: &[u32]) -> bool
    ensures { result ≡ list_all (is_sink device.now) nodes.now }
{
    nodes.iter().all(|node| device.is_sink(*node))
}

/// Whether the nodes are one or more sinks that ascend.
fn are_sinks(device: &Device, nodes: &[u32]) -> bool
    ensures { result ≡ are_sinks device.now nodes.now }
{
    !nodes.is_empty() && are_all_sinks(device, nodes) && ascends(nodes)
}

/// The first fault of a net.
#[tactic(auto, unfolding(crate::specs::Problems::net_fault))]
fn net_fault(device: &Device, nets: &[Terminals], index: usize) -> Option<PartsFault>
    requires there { index < length nets.now }
    requires few { length nets.now < 65536 }
    ensures { result ≡ net_fault device.now nets.now index }
{
    let net = &nets[index];
    if is_out_of_order(nets, index) {
        return Some(PartsFault::NotAscending(index as u32));
    }
    if !device.is_source(net.source) {
        return Some(PartsFault::BadSource(index as u32));
    }
    if !are_sinks(device, &net.sinks) {
        return Some(PartsFault::BadSinks(index as u32));
    }
    None
}

/// Whether a net's number is not above that of the net before.
fn is_out_of_order(nets: &[Terminals], index: usize) -> bool
    requires { index < length nets.now }
    ensures { result ≡ is_out_of_order nets.now index }
{
    index > 0 && number_at(nets, index) <= number_at(nets, index - 1)
}

/// The first fault of the first faulty net.
#[tactic(auto, using(crate::proofs::FirstFaults::first_below, crate::proofs::FirstFaults::none_below))]
fn first_net_fault(device: &Device, nets: &[Terminals]) -> Option<PartsFault>
    requires few { length nets.now < 65536 }
    ensures { result ≡ first_some (net_fault device.now nets.now)
        (numbers_below (length nets.now)) }
{
    for index in 0..nets.len() {
        if let Some(fault) = net_fault(device, nets, index) {
            return Some(fault);
        }
    }
    None
}

/// The fault of the parts of a problem.
#[tactic(auto, unfolding(crate::specs::Problems::parts_fault))]
fn parts_fault(device: &Device, nets: &[Terminals]) -> Option<PartsFault>
    ensures { result ≡ parts_fault device.now nets.now }
{
    if nets.len() > 65535 {
        return Some(PartsFault::TooMany);
    }
    first_net_fault(device, nets)
}

impl Problem {
    /// The problem of a device and of the nets that are to be routed on it. Where they are no
    /// problem, the fault named is the first one of the first faulty net.
    #[tactic(auto, using(crate::proofs::Problems::faultless))]
    pub fn from_parts(device: Device, nets: Vec<Terminals>) -> Result<Problem, PartsFault>
        ensures { result ≡ problem_of device nets.items }
    {
        match parts_fault(&device, &nets) {
            Some(fault) => Err(fault),
            None => Ok(Problem { device, nets }),
        }
    }

    /// The problem of a device and of nets that are known to be routable on it, as `from_parts`
    /// would make it.
    pub fn of_nets(device: Device, nets: Vec<Terminals>) -> Problem
        requires { IsProblem (record { device = device; nets = nets.items }) }
        ensures { result ≡ record { device = device; nets = nets.items } }
    {
        Problem { device, nets }
    }

    /// A copy of this problem.
    pub fn copy(&self, alloc: Global) -> Result<Problem, AllocError>
        ensures { IfOk result (λ p. p ≡ self.now) }
    {
        let device = self.device.copy(alloc)?;
        let nets = copy_nets(alloc, &self.nets)?;
        Ok(Problem { device, nets })
    }

    /// The device.
    #[inline(always)]
    pub fn device(&self) -> &Device
        ensures device { result.now ≡ self.now.device }
        ensures limits { IsFabric self.now.device }
    {
        let device = &self.device;
        let _limits = device.nx();
        device
    }

    /// How many nets there are; they are counted from 0.
    pub fn nets(&self) -> u32
        ensures count { result ≡ length self.now.nets }
        ensures limits { IsProblem self.now }
    {
        self.nets.len() as u32
    }

    /// The number of a net in its netlist.
    pub fn number(&self, net: u32) -> u32
        requires { net < length self.now.nets }
        ensures { result ≡ (net_in self.now.nets net).number }
    {
        let terminals = &self.nets[net as usize];
        terminals.number
    }

    /// The node at which a net begins: a source.
    pub fn source(&self, net: u32) -> u32
        requires { net < length self.now.nets }
        ensures source { result ≡ (net_in self.now.nets net).source }
        ensures limits { IsProblem self.now }
    {
        self.nets[net as usize].source
    }

    /// The nodes at which a net ends: sinks, ascending.
    pub fn sinks(&self, net: u32) -> &[u32]
        requires { net < length self.now.nets }
        ensures { result.now ≡ (net_in self.now.nets net).sinks }
    {
        &self.nets[net as usize].sinks
    }
}
