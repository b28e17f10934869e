//! Finds the code of a call by its name, and makes the call.

use lab_designs::{
    arch_calls, design_calls, device_calls, file_calls, other_calls, problem_calls, reading_back,
    report_calls, route_text_calls, routing_calls, text_calls, tree_calls, walk_calls,
};
use lab_runs::{explain_calls, fault_calls, progress_calls, run_calls};
use lab_session::answer::added;
use lab_session::session::Session;
use lab_session::sources::BELOW;
use lab_session::unanswered::Unanswered;
use lab_session::words::{Call, NO_NUMBER, number};
use lab_workers::{
    book_calls, desk_calls, event_calls, gate_calls, iteration_calls, repeated_calls, search_calls,
    settings_calls, view_calls, work_calls,
};
use std::alloc::Global;
use std::rt::Runtime;
use std::sync::Wait;
use std::thread::Threads;
use std::time::{Duration, Instant};

/// The syntax of a call that is made many times.
const MANY: &str = "time N CALL .. or repeat N CALL .., and CALL is another one";

/// Makes a call and adds its answer to `out`. If there is no answer, the session is as it was
/// before the call that failed. There are two exceptions: a list of events that runs out of memory
/// keeps the events that were run, and an iteration or a desk that fails drops the book.
pub fn make_call(
    rt: &(impl Runtime + Threads + Wait + Sync + AllocGlobal),
    session: &mut Session,
    call: Call<'_>,
    out: &mut String,
) -> Result<(), Unanswered> {
    match call.name {
        "time" | "repeat" => make_many(rt, session, call, out),
        _ => make_one(rt, session, call, out),
    }
}

/// Makes a call a given number of times. The answer is how long that took (`time`) or the last
/// answer (`repeat`).
fn make_many(
    rt: &(impl Runtime + Threads + Wait + Sync + AllocGlobal),
    session: &mut Session,
    call: Call<'_>,
    out: &mut String,
) -> Result<(), Unanswered> {
    let [count, name, given @ ..] = call.given else {
        return Err(Unanswered::Misread(MANY));
    };
    if *name == "time" || *name == "repeat" {
        return Err(Unanswered::Misread(MANY));
    }
    let Some(count) = number(count) else {
        return Err(NO_NUMBER);
    };
    if count < 1 || count > 1_000_000 {
        return Err(Unanswered::Refused("a call is made 1 to 1,000,000 times"));
    }
    let text = call.text;
    let time = time_of(rt, session, Call { name, given, text }, count, out)?;
    if call.name == "repeat" {
        return Ok(());
    }
    out.clear();
    added(writeln!(out, "{count} times, {} us", time.as_micros()))
}

/// Makes a call `count` times, and returns how long that took.
fn time_of(
    rt: &(impl Runtime + Threads + Wait + Sync + AllocGlobal),
    session: &mut Session,
    call: Call<'_>,
    count: u32,
    out: &mut String,
) -> Result<Duration, Unanswered> {
    let Ok(start) = Instant::now(rt) else {
        return Err(Unanswered::Clock);
    };
    for _ in 0..count {
        out.clear();
        make_one(rt, session, call, out)?;
    }
    match start.elapsed(rt) {
        Ok(time) => Ok(time),
        Err(_) => Err(Unanswered::Clock),
    }
}

/// Returns whether a call can read a text below it.
fn reads_text(name: &str) -> bool {
    matches!(
        name,
        "read"
            | "lines"
            | "arch"
            | "net"
            | "place"
            | "problem"
            | "routing"
            | "routing_of_trees"
            | "route"
            | "run"
            | "desk"
            | "both_gates"
            | "run_arch"
            | "run_net"
            | "run_place"
            | "run_route"
            | "progress"
            | "explain"
    )
}

/// Makes a call once. Refuses it if there is a text below it that it doesn't read.
fn make_one(
    rt: &(impl Runtime + Threads + Wait + Sync + AllocGlobal),
    session: &mut Session,
    call: Call<'_>,
    out: &mut String,
) -> Result<(), Unanswered> {
    if call.given.contains(&BELOW) && !reads_text(call.name) {
        return Err(Unanswered::Misread("the call with no text below it"));
    }
    dispatch(rt, session, call, out)
}

/// Makes a call that concerns texts or files, or passes it on to `call_workers`.
fn dispatch(
    rt: &(impl Runtime + Threads + Wait + Sync + AllocGlobal),
    session: &mut Session,
    call: Call<'_>,
    out: &mut String,
) -> Result<(), Unanswered> {
    match text_calls::call(rt, call, out) {
        Err(Unanswered::NoCall) => (),
        made => return made,
    }
    match arch_calls::call(rt, &mut session.design, call, out) {
        Err(Unanswered::NoCall) => (),
        made => return made,
    }
    match design_calls::call(rt, &mut session.design, call, out) {
        Err(Unanswered::NoCall) => (),
        made => return made,
    }
    match route_text_calls::call(rt, session, call, out) {
        Err(Unanswered::NoCall) => (),
        made => return made,
    }
    match file_calls::call(rt, &mut session.files, call, out) {
        Err(Unanswered::NoCall) => (),
        made => return made,
    }
    call_workers(rt, session, call, out)
}

/// Makes a call that needs threads, a clock or a lock, or passes it on to `call_devices`.
fn call_workers(
    rt: &(impl Runtime + Threads + Wait + Sync + AllocGlobal),
    session: &mut Session,
    call: Call<'_>,
    out: &mut String,
) -> Result<(), Unanswered> {
    let settings = session.settings();
    match routing_calls::call(rt, session, call, out) {
        Err(Unanswered::NoCall) => (),
        made => return made,
    }
    match event_calls::call(rt, &mut session.books, call, out) {
        Err(Unanswered::NoCall) => (),
        made => return made,
    }
    match iteration_calls::call(rt, session, &settings, call, out) {
        Err(Unanswered::NoCall) => (),
        made => return made,
    }
    match work_calls::call(rt, session, &settings, call, out) {
        Err(Unanswered::NoCall) => (),
        made => return made,
    }
    match repeated_calls::call(rt, session, &settings, call, out) {
        Err(Unanswered::NoCall) => (),
        made => return made,
    }
    match gate_calls::call(rt, session, call, out) {
        Err(Unanswered::NoCall) => (),
        made => return made,
    }
    match run_calls::call(rt, &session.files, &settings, call, out) {
        Err(Unanswered::NoCall) => (),
        made => return made,
    }
    match explain_calls::call(rt, session, call, out) {
        Err(Unanswered::NoCall) => (),
        made => return made,
    }
    match progress_calls::call(rt, call, out) {
        Err(Unanswered::NoCall) => (),
        made => return made,
    }
    match reading_back::call(rt, session, call, out) {
        Err(Unanswered::NoCall) => (),
        made => return made,
    }
    call_devices(rt.alloc(), session, call, out)
}

/// Makes a call that concerns devices or what is built on them, or passes it on to `call_nets`.
fn call_devices(
    alloc: Global,
    session: &mut Session,
    call: Call<'_>,
    out: &mut String,
) -> Result<(), Unanswered> {
    match problem_calls::call(alloc, session, call, out) {
        Err(Unanswered::NoCall) => (),
        made => return made,
    }
    match tree_calls::call(alloc, session, call, out) {
        Err(Unanswered::NoCall) => (),
        made => return made,
    }
    match device_calls::call(alloc, session, call, out) {
        Err(Unanswered::NoCall) => (),
        made => return made,
    }
    match walk_calls::call(alloc, &session.device, call, out) {
        Err(Unanswered::NoCall) => (),
        made => return made,
    }
    match report_calls::call(alloc, session, call, out) {
        Err(Unanswered::NoCall) => (),
        made => return made,
    }
    match fault_calls::call(alloc, session.files.out_room, call, out) {
        Err(Unanswered::NoCall) => (),
        made => return made,
    }
    call_nets(alloc, session, call, out)
}

/// Makes a call that concerns the book, what nets see and cost, or another value.
fn call_nets(
    alloc: Global,
    session: &mut Session,
    call: Call<'_>,
    out: &mut String,
) -> Result<(), Unanswered> {
    match settings_calls::call(alloc, session, call, out) {
        Err(Unanswered::NoCall) => (),
        made => return made,
    }
    match view_calls::call(alloc, session, call, out) {
        Err(Unanswered::NoCall) => (),
        made => return made,
    }
    match search_calls::call(alloc, session, call, out) {
        Err(Unanswered::NoCall) => (),
        made => return made,
    }
    match book_calls::call(alloc, session, call, out) {
        Err(Unanswered::NoCall) => (),
        made => return made,
    }
    match desk_calls::call(alloc, &mut session.books.book, call, out) {
        Err(Unanswered::NoCall) => (),
        made => return made,
    }
    other_calls::call(alloc, session, call, out)
}
