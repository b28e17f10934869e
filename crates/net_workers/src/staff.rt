//! The workers of an iteration, before they begin and after they ended.

ghost use Rattle.std.specs.Prelude.{◌≡◌, ◌<◌, ◌≤◌, [], false, length, vec_len, replicate, None, Err, IfOk, IfSome};
ghost use Rattle.congestion_book.specs.Contents.{net_count};
ghost use Rattle.net_workers.specs.kept.Faults.{first_of, first_met};

use crate::board::Board;
use crate::desk::Desk;
use crate::fault::TurnFault;
use crate::history::{Front, Logged};
use crate::replica::Replica;
use crate::share::Share;
use crate::worker::Worker;
use crate::workspace::Tools;
use node_cost::View;
use std::alloc::{AllocError, Global};

/// Records that none of this many nets had a turn.
fn set_none_turned(turned: &mut Vec<bool>, nets: u32) -> Result<(), AllocError>
    ensures { IfOk result (λ done. turned.new.items ≡ replicate nets false) }
{
    turned.clear();
    turned.resize(nets as usize, false)
}

/// Returns a replica that has seen no turn. It shows the desk's book as the iteration opens.
fn replica_of<L: Logged>(
    nets: u32,
    desk: &Desk<L>,
    front: &Front<L>,
    view: View,
    turned: Vec<bool>,
) -> Result<Replica<L>, TurnFault>
    requires nets { nets ≡ net_count L.plan.opening }
    requires opens { desk.now ≡ L.plan.opening }
    requires none { front.now ≡ [] }
{
    let (mut view, mut turned) = (view, turned);
    set_none_turned(&mut turned, nets)?;
    match desk.look_at_all(&mut view) {
        Ok(()) => Ok(Replica::new(view, turned, front.again())),
        Err(_) => Err(TurnFault::Astray),
    }
}

/// Returns the worker of a share. It sees the desk's book as the iteration opens, and takes the
/// tools that another worker left, if there are any.
fn hire<L: Logged>(
    alloc: Global,
    board: &Board<'_, L>,
    desk: &Desk<L>,
    front: &Front<L>,
    share: Share<L>,
    left: Option<Tools>,
) -> Result<Worker<L>, TurnFault>
    requires opens { desk.now ≡ L.plan.opening }
    requires none { front.now ≡ [] }
{
    let Tools {
        view,
        turned,
        room,
        scratch,
    } = Tools::fitting(alloc, board.prepared(), left)?;
    let nets = board.prepared().problem().nets();
    let replica = replica_of(nets, desk, front, view, turned)?;
    Ok(Worker::new(alloc, share, replica, room, scratch))
}

/// Returns the workers of these shares. They take the tools that were left, as long as there are
/// any.
pub(crate) fn hire_all<L: Logged>(
    alloc: Global,
    board: &Board<'_, L>,
    desk: &Desk<L>,
    front: &Front<L>,
    shares: Vec<Share<L>>,
    tools: &mut Vec<Tools>,
) -> Result<Vec<Worker<L>>, TurnFault>
    requires opens { desk.now ≡ L.plan.opening }
    requires none { front.now ≡ [] }
    ensures { IfOk result (λ all. vec_len all ≡ vec_len shares) }
{
    let mut all = Vec::with_capacity(alloc, shares.len())?;
    for share in shares {
        let worker = hire(alloc, board, desk, front, share, tools.pop())?;
        all.push_reserved(worker);
    }
    Ok(all)
}

/// Returns the first of a fault and those that were met before.
fn first_of(met: Option<TurnFault>, fault: TurnFault) -> TurnFault
    ensures { result ≡ first_of met fault }
{
    match met {
        Some(met) => met.min(fault),
        None => fault,
    }
}

/// Returns the first of the workers' faults, if there are any.
fn first_fault(results: &[Result<Tools, TurnFault>]) -> Option<TurnFault>
    ensures { result ≡ first_met None results.now }
{
    let mut met = None;
    for result in results {
        met = match result {
            Ok(_) => met,
            Err(fault) => Some(first_of(met, *fault)),
        };
    }
    met
}

/// Takes back what the workers searched with, or returns the first of their faults.
pub(crate) fn dismiss_all(
    results: Vec<Result<Tools, TurnFault>>,
    tools: &mut Vec<Tools>,
) -> Result<(), TurnFault>
    ensures first { IfSome (first_met None results.items) (λ fault. result ≡ Err fault) }
{
    if let Some(fault) = first_fault(&results) {
        return Err(fault);
    }
    tools.reserve(results.len())?;
    for result in results {
        tools.push_reserved(result?);
    }
    Ok(())
}

/// Takes back what workers searched with.
pub(crate) fn leave_tools<L: Logged>(
    workers: Vec<Worker<L>>,
    tools: &mut Vec<Tools>,
) -> Result<(), AllocError> {
    tools.reserve(workers.len())?;
    for worker in workers {
        tools.push_reserved(worker.into_tools());
    }
    Ok(())
}

/// Leaves this many workers, and takes back what the others would have searched with.
pub(crate) fn send_home<L: Logged>(
    workers: &mut Vec<Worker<L>>,
    count: usize,
    tools: &mut Vec<Tools>,
) -> Result<(), AllocError>
    ensures fewer { vec_len workers.new ≤ vec_len workers.old }
{
    if count >= workers.len() {
        return Ok(());
    }
    let idle = workers.split_off(count)?;
    leave_tools(idle, tools)
}
