//! The nets of a routing problem.

ghost use Rattle.std.specs.Prelude.{◌≡◌, ◌<◌, length, IfOk};
ghost use Rattle.routing_problem.specs.Problems.{net_in};

use std::alloc::{AllocError, Global};
use std::marker::Model;

/// What a routed net joins: a source and one or more sinks, by the numbers of their nodes.
/// Contracts see it as these.
#[derive(Debug, Drop)]
pub struct Terminals {
    /// The number of the net in its netlist.
    pub number: u32,
    pub source: u32,
    /// Ascending.
    pub sinks: Vec<u32>,
}

impl Model for Terminals {
    ghost use Rattle.routing_problem.specs.Problems.{Net};

    ghost Value = { Net };

    ghost use Rattle.routing_problem.specs.kept.Fields.{net_of};

    ghost view = { net_of };
}

impl Terminals {
    /// A copy.
    pub fn copy(&self, alloc: Global) -> Result<Terminals, AllocError>
        ensures { IfOk result (λ t. t ≡ self.now) }
    {
        Ok(Terminals {
            number: self.number,
            source: self.source,
            sinks: Vec::from_slice(alloc, &self.sinks)?,
        })
    }
}

/// The number of a net.
pub(crate) fn number_at(nets: &[Terminals], index: usize) -> u32
    requires { index < length nets.now }
    ensures { result ≡ (net_in nets.now index).number }
{
    let net = &nets[index];
    net.number
}

/// A copy of each net.
pub(crate) fn copy_nets(alloc: Global, nets: &[Terminals]) -> Result<Vec<Terminals>, AllocError>
    ensures { IfOk result (λ v. v.items ≡ nets.now) }
{
    let mut copies = Vec::with_capacity(alloc, nets.len())?;
    for net in nets {
        copies.push(net.copy(alloc)?)?;
    }
    Ok(copies)
}
