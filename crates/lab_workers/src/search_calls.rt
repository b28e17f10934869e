//! Calls of `group_wave`: the search of a net.

ghost use Rattle.std.specs.Prelude.{◌≡◌};
ghost use Rattle.rr_graph.specs.Nodes.{node_count_of};

use group_wave::{OldTree, Scratch, route_net};
use lab_session::answer::added;
use lab_session::session::{NO_PROBLEM, NO_VIEW, Searching, Session};
use lab_session::trees::put_tree;
use lab_session::unanswered::Unanswered;
use lab_session::words::{Call, no_words, numbers};
use node_cost::{GREATEST_PRESENT, View};
use route_tree::Tree;
use rr_graph::Problem;
use std::alloc::{AllocError, Global};
use wave_ground::PreparedProblem;
use wavefront::{Found, SearchFault};

/// Makes a call, and adds its answer.
pub fn call(
    alloc: Global,
    session: &mut Session,
    call: Call<'_>,
    out: &mut String,
) -> Result<(), Unanswered> {
    match call.name {
        "search" => search(alloc, session, call.given, out),
        "search_faults" => put_faults(call.given, out),
        _ => Err(Unanswered::NoCall),
    }
}

/// Adds the names and the messages of all faults.
fn put_faults(given: &[&str], out: &mut String) -> Result<(), Unanswered> {
    no_words(given)?;
    put_fault(SearchFault::ViewSize, out)?;
    put_fault(SearchFault::Memory, out)
}

/// Adds the name and the message of a fault.
fn put_fault(fault: SearchFault, out: &mut String) -> Result<(), Unanswered> {
    added(writeln!(out, "{fault:?}: {fault}"))
}

/// A search: the net, the present-congestion factor, and the margin by which the bounding box of
/// its terminals is widened.
#[derive(Clone, Copy)]
struct Asked {
    net: u32,
    present: u32,
    bb: u32,
}

/// Searches for a tree of a net in the session's view. Keeps and adds the tree, or adds the sink
/// that no path leads to.
fn search(
    alloc: Global,
    session: &mut Session,
    given: &[&str],
    out: &mut String,
) -> Result<(), Unanswered> {
    let [net, present, bb] = numbers::<3>(given)?;
    let asked = Asked { net, present, bb };
    prepare(alloc, &session.problem, &mut session.searching)?;
    match found(alloc, &session.books.view, &mut session.searching, asked)? {
        Found::Tree(tree) => keep_tree(&mut session.tree, tree, out),
        Found::NoPath(sink) => { added(writeln!(out, "no path to {sink}")) }
    }
}

/// Adds a tree that was found, and keeps it.
fn keep_tree(kept: &mut Option<Tree>, tree: Tree, out: &mut String) -> Result<(), Unanswered> {
    put_tree(&tree, out)?;
    *kept = Some(tree);
    Ok(())
}

/// Prepares the session's problem for searches, unless it is prepared already.
fn prepare(
    alloc: Global,
    problem: &Option<Problem>,
    searching: &mut Option<Searching>,
) -> Result<(), Unanswered> {
    if searching.is_some() {
        return Ok(());
    }
    let Some(problem) = problem else {
        return Err(NO_PROBLEM);
    };
    *searching = Some(searching_of(alloc, problem)?);
    Ok(())
}

/// Returns a copy of a problem that is prepared for searches, and the memory that they work in.
fn searching_of(alloc: Global, problem: &Problem) -> Result<Searching, AllocError> {
    let prepared = prepared_copy(alloc, problem)?;
    let scratch = Scratch::new(alloc, &prepared)?;
    Ok(Searching { prepared, scratch })
}

/// Returns a copy of a problem that is prepared for searches.
fn prepared_copy(alloc: Global, problem: &Problem) -> Result<PreparedProblem, AllocError> {
    let problem = problem.copy(alloc)?;
    PreparedProblem::new(alloc, problem)
}

/// Returns what the search of a net in the session's view finds.
fn found(
    alloc: Global,
    view: &Option<View>,
    searching: &mut Option<Searching>,
    asked: Asked,
) -> Result<Found, Unanswered> {
    let Some(view) = view else {
        return Err(NO_VIEW);
    };
    match searching {
        Some(Searching { prepared, scratch }) if scratch.fits(prepared.problem()) => {
            search_in(alloc, prepared, view, asked, scratch)
        }
        _ => Err(NO_PROBLEM),
    }
}

/// Searches for a tree of a net. Refuses a net, a factor or a margin that is out of range.
fn search_in(
    alloc: Global,
    prepared: &PreparedProblem,
    view: &View,
    asked: Asked,
    scratch: &mut Scratch,
) -> Result<Found, Unanswered>
    requires { scratch.old ≡ node_count_of prepared.now.device }
{
    let Asked { net, present, bb } = asked;
    if net >= prepared.problem().nets() {
        return Err(Unanswered::Refused("there is no such net"));
    }
    if present > GREATEST_PRESENT {
        return Err(Unanswered::Refused("a present factor is at most 2^20"));
    }
    if !(1..=255).contains(&bb) {
        return Err(Unanswered::Refused("a margin is one of 1 to 255"));
    }
    let before = OldTree {
        rows: &[],
        is_kept: false,
    };
    Ok(route_net(alloc, prepared, net, view, present, bb, before, scratch)?)
}
