//! What is found out about a routing before anything is printed, since that takes memory.

ghost use Rattle.std.specs.Prelude.{◌≡◌, ◌<◌, IfOk, None, get_or, is_some, length, true};
ghost use Rattle.route_explain.specs.kept.Findings.{AreFindings, AreIndexes, IsIndexOf};

use crate::index::NetIndex;
use crate::nets::{fault_at, pairs_at};
use crate::read_routing::ReadRouting;
use crate::starts::section_starts;
use crate::users::node_numbers;
use route_check::{RouteFault, net_faults};
use route_report::{OverusedNode, node_uses, overused_nodes};
use route_tree::Pairs;
use rr_graph::Problem;
use std::alloc::{AllocError, AllocGlobal, Global};
use std::thread::Threads;

/// What is wrong with a routing, and the tables for looking that up.
#[derive(Drop)]
pub(crate) struct Findings {
    /// The first fault of each net, if it has one.
    pub(crate) faults: Vec<Option<RouteFault>>,
    /// For each net that has a fault, an index of its list.
    pub(crate) indexes: Vec<NetIndex>,
    /// For each net of the netlist, the place in the file at which its section begins.
    pub(crate) starts: Vec<usize>,
    /// The number of nets that cover each node.
    pub(crate) uses: Vec<u16>,
    pub(crate) overused: Vec<OverusedNode>,
    /// The numbers of the overused nodes.
    pub(crate) nodes: Vec<u32>,
}

/// Returns an index of a net's list if the net has a fault, and otherwise an empty one.
fn index_of_net(
    alloc: Global,
    problem: &Problem,
    lists: &[Option<Pairs>],
    faults: &[Option<RouteFault>],
    net: u32,
) -> Result<NetIndex, AllocError>
    requires { net < length problem.now.nets }
    ensures { IfOk result (λ x. is_some (get_or faults.now net None) ≡ true
        → IsIndexOf problem.now lists.now net x) }
{
    match fault_at(faults, net) {
        None => Ok(NetIndex::none(alloc)),
        Some(_) => NetIndex::new(alloc, problem.sinks(net), pairs_at(lists, net)),
    }
}

/// Returns an index for each net. A net that has a fault gets an index of its list.
fn net_indexes(
    alloc: Global,
    problem: &Problem,
    lists: &[Option<Pairs>],
    faults: &[Option<RouteFault>],
) -> Result<Vec<NetIndex>, AllocError>
    ensures { IfOk result (λ v. AreIndexes problem.now lists.now faults.now
        (length problem.now.nets) v.items) }
{
    let mut indexes = Vec::new(alloc);
    for net in 0..problem.nets() {
        indexes.push(index_of_net(alloc, problem, lists, faults, net)?)?;
    }
    Ok(indexes)
}

impl Findings {
    /// Finds out what is wrong with a routing.
    pub(crate) fn new(
        rt: &(impl Threads + Sync + AllocGlobal),
        file: &ReadRouting<'_, '_, '_>,
    ) -> Result<Findings, AllocError>
        requires { length file.now.routing.now ≡ length file.now.problem.now.nets }
        ensures { IfOk result (AreFindings file.now.netlist.now file.now.problem.now
            file.now.lines.now file.now.routing.now) }
    {
        let alloc = rt.alloc();
        let (problem, routing) = (file.problem, file.routing);
        let faults = net_faults(rt, alloc, problem, &routing.lists)?;
        let indexes = net_indexes(alloc, problem, &routing.lists, &faults)?;
        let starts = section_starts(alloc, file.netlist, file.lines)?;
        let uses = node_uses(alloc, problem, routing)?;
        let overused = overused_nodes(alloc, problem, routing, &uses)?;
        let nodes = node_numbers(alloc, &overused)?;
        Ok(Findings {
            faults,
            indexes,
            starts,
            uses,
            overused,
            nodes,
        })
    }
}
