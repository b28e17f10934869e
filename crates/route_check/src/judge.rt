//! The judging of one net of a routing.

ghost use Rattle.std.specs.Prelude.{◌≡◌, ◌<◌, IfOk, length};
ghost use Rattle.route_check.specs.kept.Judged.{Judges};
ghost use Rattle.route_check.specs.Nets.{JudgesNet};

use crate::fault::RouteFault;
use crate::ladder::list_fault;
use crate::terminals::BorrowedTerminals;
use route_tree::{Pairs, TreeFault};
use routing_problem::Problem;
use std::alloc::{AllocError, Global};

/// The first fault of a list of pairs for a net that exists.
fn tree_fault(
    alloc: Global,
    problem: &Problem,
    net: u32,
    pairs: &[(u32, u32)],
) -> Result<Option<TreeFault>, AllocError>
    requires { net < length problem.now.nets }
    ensures { IfOk result (Judges problem.now net pairs.now) }
{
    let net = BorrowedTerminals {
        source: problem.source(net),
        sinks: problem.sinks(net),
    };
    list_fault(alloc, problem.device(), &net, pairs)
}

/// What is wrong with a net of a routing that has an entry for each net.
pub(crate) fn net_fault(
    alloc: Global,
    problem: &Problem,
    lists: &[Option<Pairs>],
    net: u32,
) -> Result<Option<RouteFault>, AllocError>
    requires there { net < length problem.now.nets }
    requires one_each { length lists.now ≡ length problem.now.nets }
    ensures { IfOk result (JudgesNet problem.now lists.now net) }
{
    match &lists[net as usize] {
        None => Ok(Some(RouteFault::Unrouted(net))),
        Some(pairs) => match tree_fault(alloc, problem, net, &pairs.items)? {
            None => Ok(None),
            Some(fault) => Ok(Some(RouteFault::Tree(net, fault))),
        },
    }
}
