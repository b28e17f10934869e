//! Workers that make the turns of a schedule. Each makes its own turns in order, and each turn
//! after those that it has to see and before those that come after it.

use crate::course::{Course, NumberedTurn};
use crate::fault::TurnFault;
use crate::history::Logged;
use crate::search::Searcher;
use crate::turn_desk::TurnDesk;
use crate::worker::Worker;
use crate::workspace::Tools;
use gates::{Gate, ScheduledTurn};
use std::alloc::{AllocError, Global};
use std::sync::{Mutex, Wait};

/// The number of no worker.
const NOBODY: u32 = u32::MAX;

/// Returns for each net the worker that makes its turn.
fn workers_of_nets(
    alloc: Global,
    turns: &[ScheduledTurn],
    nets: u32,
) -> Result<Vec<u32>, AllocError> {
    let mut workers = Vec::with_capacity(alloc, nets as usize)?;
    workers.resize(nets as usize, NOBODY)?;
    for turn in turns {
        if let Some(worker) = workers.get_mut(turn.net as usize) {
            *worker = turn.worker;
        }
    }
    Ok(workers)
}

/// Draws all nets, each for the worker that makes its turn.
pub(crate) fn draw_all<L: Logged, G>(
    searcher: &Searcher<'_, '_, L, G>,
    desk: &mut TurnDesk<L>,
    workers: &mut [Worker<L>],
    turns: &[ScheduledTurn],
) -> Result<(), TurnFault> {
    let nets = searcher.board.prepared().problem().nets();
    for number in workers_of_nets(searcher.alloc, turns, nets)? {
        let Some(worker) = workers.get_mut(number as usize) else {
            return Err(TurnFault::Astray);
        };
        worker.draw(desk);
    }
    Ok(())
}

/// Makes the turns of one worker. Returns what it searched with.
fn make_own_turns<L: Logged, R: Wait, G: Gate>(
    rt: &R,
    searcher: &Searcher<'_, '_, L, G>,
    desk: &Mutex<TurnDesk<L>>,
    course: &Course<'_>,
    worker: Worker<L>,
) -> Result<Tools, TurnFault> {
    let mut worker = worker;
    for (number, turn) in course.turns().iter().enumerate() {
        if turn.worker == worker.number() {
            let turn = NumberedTurn::new(number, turn);
            worker.make_scheduled(rt, searcher, desk, course, turn)?;
        }
    }
    Ok(worker.into_tools())
}

/// Makes the turns of one of several workers. If it stops before its last turn, the others no
/// longer wait for it. Returns what it searched with.
pub(crate) fn follow<L: Logged, R: Wait, G: Gate>(
    rt: &R,
    searcher: &Searcher<'_, '_, L, G>,
    desk: &Mutex<TurnDesk<L>>,
    course: &Course<'_>,
    worker: Worker<L>,
) -> Result<Tools, TurnFault> {
    let made = make_own_turns(rt, searcher, desk, course, worker);
    if made.is_err() {
        course.stop(rt);
    }
    made
}

/// Makes all turns in one thread, each by the worker whose turn it is.
pub(crate) fn follow_alone<L: Logged, R: Wait, G: Gate>(
    rt: &R,
    searcher: &Searcher<'_, '_, L, G>,
    desk: &Mutex<TurnDesk<L>>,
    course: &Course<'_>,
    workers: &mut [Worker<L>],
) -> Result<(), TurnFault> {
    for (number, turn) in course.turns().iter().enumerate() {
        let Some(worker) = workers.get_mut(turn.worker as usize) else {
            return Err(TurnFault::Astray);
        };
        let turn = NumberedTurn::new(number, turn);
        worker.make_scheduled(rt, searcher, desk, course, turn)?;
    }
    Ok(())
}
