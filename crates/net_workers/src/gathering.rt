//! The reports of the workers, from the turns of the history.

ghost use Rattle.std.specs.Prelude.{◌≡◌, ℕ, ◌<◌, ◌==◌, [], length, vec_len, map, get_or, All, IfOk};
ghost use Rattle.std.specs.List.{filter};
ghost use Rattle.net_workers.specs.kept.TurnLogs.{entries_of, turn_in_schedule};

use crate::fault::TurnFault;
use crate::history::{Front, Logged};
use crate::made_turn::MadeTurn;
use crate::page::Cell;
use crate::report::{Report, ReportEntry};
use gates::ScheduledTurn;
use std::alloc::{AllocError, Global};

/// Returns the turns of the history, from the cells.
pub(crate) fn gather<L: Logged>(
    alloc: Global,
    row: Vec<Cell<L>>,
    front: &Front<L>,
) -> Result<Vec<MadeTurn>, TurnFault>
    ensures { IfOk result (λ turns. turns.items ≡ front.now) }
{
    let mut turns = Vec::with_capacity(alloc, row.len())?;
    for cell in row {
        let Some(page) = cell.into_inner() else {
            break;
        };
        let Some(turn) = page.into_turn(turns.len(), front) else {
            break;
        };
        turns.reserve(1)?;
        turns.push_reserved(turn);
    }
    if turns.len() as u64 != front.len() {
        return Err(TurnFault::Astray);
    }
    Ok(turns)
}

/// Returns the turns as a schedule has them.
pub(crate) fn schedule_of(
    alloc: Global,
    turns: &[MadeTurn],
) -> Result<Vec<ScheduledTurn>, AllocError>
    ensures { IfOk result (λ all. all.items ≡ map turn_in_schedule turns.now) }
{
    let mut all = Vec::with_capacity(alloc, turns.len())?;
    for turn in turns {
        all.push_reserved(ScheduledTurn {
            worker: turn.worker,
            net: turn.entry.net,
            seen: turn.entry.seen,
        });
    }
    Ok(all)
}

/// Returns an empty list of entries for each worker.
fn empty_lists(alloc: Global, workers: u32) -> Result<Vec<Report>, AllocError>
    ensures count { IfOk result (λ all. vec_len all ≡ workers) }
    ensures none { IfOk result (λ all. (w : ℕ) → get_or all.items w [] ≡ []) }
{
    let mut all = Vec::with_capacity(alloc, workers as usize)?;
    for _ in 0..workers {
        all.push(Report::of(Vec::new(alloc)))?;
    }
    Ok(all)
}

/// Returns the reports of this many workers, each with the worker's turns in order.
pub(crate) fn reports_of(
    alloc: Global,
    turns: Vec<MadeTurn>,
    workers: u32,
) -> Result<Vec<Report>, AllocError>
    requires { All (λ t. t.worker < workers) turns.items }
    ensures count { IfOk result (λ all. vec_len all ≡ workers) }
    ensures each { IfOk result (λ all. (w : ℕ) → w < workers →
        get_or all.items w [] ≡ entries_of w turns.items) }
{
    let mut all = empty_lists(alloc, workers)?;
    for turn in turns {
        let MadeTurn { worker, entry } = turn;
        all[worker as usize].add(entry)?;
    }
    Ok(all)
}
