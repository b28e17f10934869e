//! The call that repeats a negotiation.

ghost use Rattle.std.specs.Prelude.{◌≤◌};
ghost use Rattle.node_cost.specs.Options.{most_workers};

use crate::work_calls::put_outcome;
use iteration::{Outcome, negotiate};
use lab_session::bounds::worker_count;
use lab_session::delaying::{Course, Delaying, NotedIteration, are_same};
use lab_session::session::{NO_PROBLEM, Session};
use lab_session::unanswered::Unanswered;
use lab_session::words::{Call, NO_NUMBER, number};
use node_cost::Settings;
use route_tree::{Pairs, Routing};
use rr_graph::Problem;
use std::rt::Runtime;
use std::sync::Wait;
use std::thread::Threads;

/// Makes a call, and adds its answer.
pub fn call(
    rt: &(impl Runtime + Threads + Wait + Sync + AllocGlobal),
    session: &mut Session,
    settings: &Settings,
    call: Call<'_>,
    out: &mut String,
) -> Result<(), Unanswered> {
    match call.name {
        "negotiate_again" => negotiate_again(rt, &session.problem, settings, call.given, out),
        _ => Err(Unanswered::NoCall),
    }
}

/// Negotiates a routing by workers that are delayed at random, and repeats it by its schedule: by
/// as many workers and by one, with other delays.
fn negotiate_again(
    rt: &(impl Runtime + Threads + Wait + Sync + AllocGlobal),
    problem: &Option<Problem>,
    settings: &Settings,
    given: &[&str],
    out: &mut String,
) -> Result<(), Unanswered> {
    let [workers, seed] = given else {
        return Err(Unanswered::Misread("negotiate_again WORKERS SEED"));
    };
    let workers = worker_count(workers)?;
    let Some(seed) = number(seed) else {
        return Err(NO_NUMBER);
    };
    let Some(problem) = problem else {
        return Err(NO_PROBLEM);
    };
    let first = negotiated(rt, problem, settings, workers, seed, None)?;
    put_outcome(&first.outcome, out)?;
    for is_alone in [false, true] {
        let course = Course {
            iterations: &first.noted,
            is_alone,
        };
        let again = negotiated(rt, problem, settings, workers, seed ^ 1, Some(course))?;
        put_repeated(is_same(&first, &again), is_alone, out)?;
    }
    Ok(())
}

/// The outcome of a negotiation, and what its gate recorded.
#[derive(Drop)]
struct Made {
    outcome: Outcome,
    noted: Vec<NotedIteration>,
}

/// Negotiates a routing under a gate that delays.
fn negotiated<R: Runtime + Threads + Wait + Sync + AllocGlobal>(
    rt: &R,
    problem: &Problem,
    settings: &Settings,
    workers: u32,
    seed: u32,
    course: Option<Course<'_>>,
) -> Result<Made, Unanswered>
    requires workers { (1 ≤ workers) × (workers ≤ most_workers) }
{
    let gate = Delaying::new(rt, rt.alloc(), seed, course);
    let problem = problem.copy(rt.alloc())?;
    let outcome = negotiate(rt, rt.alloc(), problem, settings, workers, &gate)?;
    Ok(Made {
        outcome,
        noted: gate.into_noted(),
    })
}

/// Adds whether a run was repeated.
fn put_repeated(is_same: bool, is_alone: bool, out: &mut String) -> Result<(), Unanswered> {
    let threads = if is_alone {
        "one thread"
    } else {
        "all workers"
    };
    let result = if is_same { "the same" } else { "another" };
    writeln!(out, "by {threads}: {result}")?;
    Ok(())
}

/// Returns whether two negotiations had the same outcome by the same turns.
fn is_same(first: &Made, again: &Made) -> bool {
    are_same(&first.noted, &again.noted) && is_same_outcome(&first.outcome, &again.outcome)
}

/// Returns whether two outcomes are the same. The figures of outcomes without a routing are
/// compared elsewhere.
fn is_same_outcome(first: &Outcome, again: &Outcome) -> bool {
    match (first, again) {
        (Outcome::Success(some, _), Outcome::Success(others, _)) => is_same_routing(some, others),
        (Outcome::NotRouted { .. }, Outcome::NotRouted { .. }) => true,
        _ => false,
    }
}

/// Returns whether two routings have the same lists.
fn is_same_routing(some: &Routing, others: &Routing) -> bool {
    let mut both = some.lists.iter().zip(others.lists.iter());
    some.lists.len() == others.lists.len() && both.all(|(one, other)| is_same_list(one, other))
}

/// Returns whether two lists, or none, have the same pairs.
fn is_same_list(one: &Option<Pairs>, other: &Option<Pairs>) -> bool {
    match (one, other) {
        (Some(one), Some(other)) => one.items.as_slice() == other.items.as_slice(),
        (None, None) => true,
        _ => false,
    }
}
