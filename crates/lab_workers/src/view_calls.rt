//! Calls of `node_cost`: what a net sees of the others.

use crate::settings_calls::{NO_HISTORY, NO_NODE, index_of, long_number, number_of_nodes};
use lab_session::answer::{added, put};
use lab_session::session::{NO_COUNTS, NO_HISTORIES, NO_PROBLEM, NO_VIEW, Session};
use lab_session::unanswered::Unanswered;
use lab_session::words::{Call, NO_NUMBER, NO_WORDS, no_words, number, numbers};
use node_cost::{Counts, GREATEST_HISTORY, GREATEST_OTHERS, Histories, View};
use rr_graph::Problem;
use std::alloc::Global;
use std::sync::Arc;

/// Makes a call, and adds its answer.
pub fn call(
    alloc: Global,
    session: &mut Session,
    call: Call<'_>,
    out: &mut String,
) -> Result<(), Unanswered> {
    match call.name {
        "view" => make(
            alloc,
            &session.problem,
            &mut session.books.view,
            call.given,
            out,
        ),
        "seen" | "is_free" => look_up_number(&session.books.view, call, out),
        "set" | "leave_out" => change_kept(&mut session.books.view, call, out),
        "look_at" => look_at_all(alloc, session, call.given, out),
        "dump_view" => dump_kept(&session.books.view, call.given, out),
        _ => Err(Unanswered::NoCall),
    }
}

/// Makes a look-up of a node by the number that a call gives.
fn look_up_number(view: &Option<View>, call: Call<'_>, out: &mut String) -> Result<(), Unanswered> {
    let [id] = numbers::<1>(call.given)?;
    match view {
        Some(view) => look_up(view, call.name, id, out),
        None => Err(NO_VIEW),
    }
}

/// Changes what the view shows of a node, and adds it.
fn change_kept(
    view: &mut Option<View>,
    call: Call<'_>,
    out: &mut String,
) -> Result<(), Unanswered> {
    match view {
        Some(view) => change(view, call.name, call.given, out),
        None => Err(NO_VIEW),
    }
}

/// Fills the view from the session's counts and histories, and adds the number of nodes.
fn look_at_all(
    alloc: Global,
    session: &mut Session,
    given: &[&str],
    out: &mut String,
) -> Result<(), Unanswered> {
    no_words(given)?;
    match &session.histories {
        Some(histories) => look_at(
            alloc,
            &session.counts,
            histories,
            &mut session.books.view,
            out,
        ),
        None => Err(NO_HISTORIES),
    }
}

/// Adds what the view shows of each node.
fn dump_kept(view: &Option<View>, given: &[&str], out: &mut String) -> Result<(), Unanswered> {
    no_words(given)?;
    match view {
        Some(view) => dump(view, out),
        None => Err(NO_VIEW),
    }
}

/// Makes a view of the problem's nodes or of a given number of nodes, and adds the number.
fn make(
    alloc: Global,
    problem: &Option<Problem>,
    kept: &mut Option<View>,
    given: &[&str],
    out: &mut String,
) -> Result<(), Unanswered> {
    let nodes = nodes(problem, given)?;
    *kept = Some(View::new(alloc, nodes)?);
    added(writeln!(out, "{nodes} nodes"))
}

/// Returns the number of nodes that a word gives, or else that of the problem.
fn nodes(problem: &Option<Problem>, given: &[&str]) -> Result<usize, Unanswered> {
    match (given, problem) {
        ([], Some(problem)) => Ok(problem.device().node_count() as usize),
        ([], None) => Err(NO_PROBLEM),
        _ => number_of_nodes(given),
    }
}

/// Makes a look-up of a node.
fn look_up(view: &View, name: &str, id: u32, out: &mut String) -> Result<(), Unanswered> {
    match name {
        "seen" => put_seen(view, id, out),
        _ => put(out, is_free(view, id)?),
    }
}

/// Adds the number of other nets that use a node, and its history.
fn put_seen(view: &View, id: u32, out: &mut String) -> Result<(), Unanswered> {
    if id as usize >= view.len() {
        return Err(NO_NODE);
    }
    added(writeln!(out, "{} {}", view.others(id), view.history(id)))
}

/// Returns whether no other net uses a node and its history is 0.
fn is_free(view: &View, id: u32) -> Result<bool, Unanswered> {
    if (id as usize) < view.len() {
        Ok(view.is_free(id))
    } else {
        Err(NO_NODE)
    }
}

/// Changes what the view shows of a node, and adds it.
fn change(view: &mut View, name: &str, given: &[&str], out: &mut String) -> Result<(), Unanswered> {
    let [id, rest @ ..] = given else {
        return Err(Unanswered::Misread("set ID: OTHERS HISTORY, or leave_out ID"));
    };
    let Some(id) = number(id.strip_suffix(':').unwrap_or(*id)) else {
        return Err(NO_NUMBER);
    };
    match name {
        "set" => set(view, id, rest)?,
        _ => {
            if !rest.is_empty() {
                return Err(NO_WORDS);
            }
            leave_out(view, id)?;
        }
    }
    put_seen(view, id, out)
}

/// Sets the number of other nets that use a node, and its history.
fn set(view: &mut View, id: u32, rest: &[&str]) -> Result<(), Unanswered> {
    let [others, history] = rest else {
        return Err(Unanswered::Misread("set ID: OTHERS HISTORY"));
    };
    let (Some(others), history) = (number(others), long_number(history)) else {
        return Err(NO_NUMBER);
    };
    let Some(history) = history else {
        return Err(NO_HISTORY);
    };
    if id as usize >= view.len() {
        return Err(NO_NODE);
    }
    if others > GREATEST_OTHERS || history > GREATEST_HISTORY {
        return Err(Unanswered::Refused("at most 65,535 others, and a history of at most 2^42"));
    }
    view.set(id, others, history);
    Ok(())
}

/// Lowers the number of other nets that use a node by one.
fn leave_out(view: &mut View, id: u32) -> Result<(), Unanswered> {
    if id as usize >= view.len() {
        return Err(NO_NODE);
    }
    if view.others(id) == 0 {
        return Err(Unanswered::Refused("no other net uses the node"));
    }
    view.leave_out(id);
    Ok(())
}

/// Fills the view from the counts and histories, and adds the number of nodes.
fn look_at(
    alloc: Global,
    counts: &Option<Counts>,
    histories: &Histories,
    view: &mut Option<View>,
    out: &mut String,
) -> Result<(), Unanswered> {
    let histories = Arc::new(alloc, histories.copy(alloc)?)?;
    match (counts, view) {
        (Some(counts), Some(view)) => look_with(counts, &histories, view, out),
        (None, _) => Err(NO_COUNTS),
        _ => Err(NO_VIEW),
    }
}

/// Fills a view from these counts and histories, and adds the number of nodes.
fn look_with(
    counts: &Counts,
    histories: &Arc<Histories, Global>,
    view: &mut View,
    out: &mut String,
) -> Result<(), Unanswered> {
    if view.len() != counts.len() || view.len() != histories.len() {
        return Err(Unanswered::Refused("view, counts and histories differ in their nodes"));
    }
    view.look_at(counts, histories);
    added(writeln!(out, "{} nodes", view.len()))
}

/// Adds a line for each node that another net uses or that has a history.
fn dump(view: &View, out: &mut String) -> Result<(), Unanswered> {
    for id in 0..view.len() {
        put_known(view, index_of(id), out)?;
    }
    Ok(())
}

/// Adds a line for a node, unless no net uses it and it has no history.
fn put_known(view: &View, id: u32, out: &mut String) -> Result<(), Unanswered> {
    if id as usize >= view.len() || (view.others(id) == 0 && view.history(id) == 0) {
        return Ok(());
    }
    write!(out, "{id}: ")?;
    put_seen(view, id, out)
}
