//! The workers of an iteration, each in a thread of its own, except the last, which works in the
//! calling thread.

ghost use Rattle.std.specs.Prelude.{◌≡◌, ◌≤◌, vec_len, IfOk};

use crate::course::Course;
use crate::fault::TurnFault;
use crate::history::Logged;
use crate::scheduled::follow;
use crate::search::Searcher;
use crate::turn_desk::TurnDesk;
use crate::worker::{Worker, work_through};
use crate::workspace::Tools;
use gates::Gate;
use std::alloc::AllocError;
use std::sync::{Mutex, Wait};
use std::thread;
use std::thread::Threads;

/// Does the work of one worker: the turns of its course, or a turn for each net that it can draw.
fn work<L: Logged, R: Wait, G: Gate>(
    rt: &R,
    searcher: &Searcher<'_, '_, L, G>,
    desk: &Mutex<TurnDesk<L>>,
    course: Option<&Course<'_>>,
    worker: Worker<L>,
) -> Result<Tools, TurnFault> {
    match course {
        Some(course) => follow(rt, searcher, desk, course, worker),
        None => work_through(rt, searcher, desk, worker),
    }
}

/// Ends the waits of the workers, since one of them has no thread.
fn miss_worker<R: Wait>(rt: &R, course: Option<&Course<'_>>) {
    if let Some(course) = course {
        course.stop(rt);
    }
}

/// Starts a thread for each of the other workers, works as the last one itself, and joins them all.
/// The results are those of the threads that could be started, in order, and then its own.
fn run_in_threads<L: Logged + Send + Sync, R: Threads + Wait + Sync, G: Gate + Sync>(
    rt: &R,
    searcher: &Searcher<'_, '_, L, G>,
    desk: &Mutex<TurnDesk<L>>,
    course: Option<&Course<'_>>,
    others: Vec<Worker<L>>,
    own: Worker<L>,
) -> Result<Vec<Result<Tools, TurnFault>>, AllocError> {
    thread::scope(
        thread::scope_env(),
        rt,
        move |scope| -> Result<Vec<Result<Tools, TurnFault>>, AllocError> {
            let mut results = Vec::with_capacity(searcher.alloc, others.len() + 1)?;
            let mut handles = Vec::with_capacity(searcher.alloc, others.len())?;
            for worker in others {
                let job = move || -> Result<Tools, TurnFault> {
                    work(rt, searcher, desk, course, worker)
                };
                match scope.spawn(job) {
                    Ok(handle) => handles.push_reserved(handle),
                    Err(_) => miss_worker(rt, course),
                }
            }
            let last = work(rt, searcher, desk, course, own);
            for handle in handles {
                results.push_reserved(handle.join(rt));
            }
            results.push_reserved(last);
            Ok(results)
        },
    )
}

/// Lets all workers work, each in a thread of its own, except the last, which works in this one. So
/// one worker takes no thread. Returns the results of those whose threads could be started.
pub(crate) fn run_all<L: Logged + Send + Sync, R: Threads + Wait + Sync, G: Gate + Sync>(
    rt: &R,
    searcher: &Searcher<'_, '_, L, G>,
    desk: &Mutex<TurnDesk<L>>,
    course: Option<&Course<'_>>,
    workers: Vec<Worker<L>>,
) -> Result<Vec<Result<Tools, TurnFault>>, AllocError>
    ensures alone { IfOk result (λ all. vec_len workers ≤ 1 → vec_len all ≡ vec_len workers) }
{
    let mut others = workers;
    let Some(own) = others.pop() else {
        return Ok(Vec::new(searcher.alloc));
    };
    if others.is_empty() {
        return Ok(Vec::from_array(searcher.alloc, [work(rt, searcher, desk, course, own)])?);
    }
    run_in_threads(rt, searcher, desk, course, others, own)
}
