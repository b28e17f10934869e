//! Whether a routing routes a problem.

ghost use Rattle.std.specs.Prelude.{◌≡◌, ◌≢◌, ◌↔◌, ◌<◌, ℕ, Some, None, Ok, IfOk, length};
ghost use Rattle.route_check.specs.declared.fault.RouteFault.TheVariants.{Length};
ghost use Rattle.route_check.specs.Routed.{IsRouted};
ghost use Rattle.route_check.specs.Faults.{IsFirstRouteFault};
ghost use Rattle.route_check.specs.Nets.{AreJudged, JudgesNet};
ghost use Rattle.route_check.specs.kept.Answers.{IsFirstOf, JudgesRouting};

use crate::fault::RouteFault;
use crate::judge::net_fault;
use crate::usage::overuse;
use rayon::prelude::*;
use route_tree::{Pairs, Routing};
use routing_problem::Problem;
use std::alloc::{AllocError, Global};
use std::thread::Threads;

/// The number of nets for which a thread is worth its start, which takes as long as judging some
/// hundred.
const NETS_A_THREAD: usize = 128;

/// What is wrong with each net of a routing that has an entry for each: its first fault, or none.
/// The nets are judged side by side, as by `check_routing`.
pub fn net_faults(
    rt: &(impl Threads + Sync),
    alloc: Global,
    problem: &Problem,
    lists: &[Option<Pairs>],
) -> Result<Vec<Option<RouteFault>>, AllocError>
    requires { length lists.now ≡ length problem.now.nets }
    ensures { IfOk result (λ v. AreJudged problem.now lists.now v.items) }
{
    (0..problem.nets())
        .into_par_iter()
        .with_min_len(NETS_A_THREAD)
        .map(
            |net: u32| -> Result<Option<RouteFault>, AllocError>
                requires there { net < length problem.now.nets }
                requires one_each { length lists.now ≡ length problem.now.nets }
                ensures { IfOk result (JudgesNet problem.entry.now lists.entry.now net) }
            { net_fault(alloc, problem, lists, net) },
        )
        .collect::<Result<Vec<_>, AllocError>>(rt, alloc)?
}

/// The first fault there is.
fn first_of(faults: &[Option<RouteFault>]) -> Option<RouteFault>
    ensures { IsFirstOf faults.now result }
{
    for index in 0..faults.len() {
        if let Some(fault) = faults[index] {
            return Some(fault);
        }
    }
    None
}

/// The first fault of the lists of a routing, or none.
fn lists_fault(
    rt: &(impl Threads + Sync),
    alloc: Global,
    problem: &Problem,
    lists: &[Option<Pairs>],
) -> Result<Option<RouteFault>, AllocError>
    ensures reported { IfOk result (JudgesRouting problem.now lists.now) }
    ensures length { length lists.now ≢ length problem.now.nets → result ≡ Ok (Some Length) }
{
    if lists.len() != problem.nets() as usize {
        return Ok(Some(RouteFault::Length));
    }
    let faults = net_faults(rt, alloc, problem, lists)?;
    match first_of(&faults) {
        Some(fault) => Ok(Some(fault)),
        None => overuse(alloc, problem, lists),
    }
}

/// Whether a routing routes a problem: none if it does, else its first fault in the order of
/// `RouteFault`. It judges the lists of pairs alone, which need not be those of trees. The nets are
/// judged side by side, in as many threads as the runtime gives; the answer is that of one thread.
/// A growth that is refused for any net is reported before every fault but `Length`.
///
/// The time is of the order of n log n for a net of n pairs, and the memory of the order of the
/// nodes.
pub fn check_routing(
    rt: &(impl Threads + Sync),
    alloc: Global,
    problem: &Problem,
    routing: &Routing,
) -> Result<Option<RouteFault>, AllocError>
    ensures routed { IfOk result (λ o. (o ≡ None) ↔ IsRouted problem.now routing.now) }
    ensures first { (fault : RouteFault)
        → IfOk result (λ o. (o ≡ Some fault) ↔ IsFirstRouteFault problem.now routing.now fault) }
    // Another number of entries than of nets is reported whatever memory there is.
    ensures length { length routing.now ≢ length problem.now.nets → result ≡ Ok (Some Length) }
{
    lists_fault(rt, alloc, problem, &routing.lists)
}
