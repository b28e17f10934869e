//! Calls of `route_tree`: the tree of a net.

ghost use Rattle.std.specs.Prelude.{◌≡◌};
ghost use Rattle.rr_graph.specs.Nodes.{node_count_of};

use lab_session::answer::{added, put, put_maybe, put_named, put_numbers};
use lab_session::session::{NO_PROBLEM, NO_TREE, Session};
use lab_session::trees::{attach_at, put_tree, tree_of_words};
use lab_session::unanswered::Unanswered;
use lab_session::words::{Call, NO_NUMBER, no_words, number, number_list, numbers};
use route_tree::{Marks, Tree, check_tree};
use rr_graph::Problem;
use std::alloc::Global;

/// Makes a call, and adds its answer.
pub fn call(
    alloc: Global,
    session: &mut Session,
    call: Call<'_>,
    out: &mut String,
) -> Result<(), Unanswered> {
    match call.name {
        "tree" => make(alloc, &mut session.tree, call.given, out),
        "attach" => attach(alloc, &mut session.tree, call.given, out),
        "check_tree" => check_net(alloc, session, call, out),
        "rows" | "pair_count" | "dump_tree" | "copy_tree" => {
            look_at_all(alloc, &session.tree, call, out)
        }
        "marks_fit" => put_marks_fit(&session.problem, &session.marks, call.given, out),
        "row_node" | "pair" | "covers" => look_up_number(&session.tree, call, out),
        _ => Err(Unanswered::NoCall),
    }
}

/// Adds whether the tree routes the net of the problem that a call gives.
fn check_net(
    alloc: Global,
    session: &mut Session,
    call: Call<'_>,
    out: &mut String,
) -> Result<(), Unanswered> {
    let [net] = numbers::<1>(call.given)?;
    let (problem, tree) = (&session.problem, &session.tree);
    check(alloc, problem, tree, &mut session.marks, net, out)
}

/// Returns the tree, or the refusal if there is none.
fn there(tree: &Option<Tree>) -> Result<&Tree, Unanswered> {
    match tree {
        Some(tree) => Ok(tree),
        None => Err(NO_TREE),
    }
}

/// Makes a look-up of the whole tree, by a call without words.
fn look_at_all(
    alloc: Global,
    tree: &Option<Tree>,
    call: Call<'_>,
    out: &mut String,
) -> Result<(), Unanswered> {
    no_words(call.given)?;
    look_up(alloc, there(tree)?, call.name, out)
}

/// Makes a look-up of a row, a pair or a node by the number that a call gives.
fn look_up_number(tree: &Option<Tree>, call: Call<'_>, out: &mut String) -> Result<(), Unanswered> {
    let [index] = numbers::<1>(call.given)?;
    look_at(there(tree)?, call.name, index, out)
}

/// Makes a tree, and adds its number of rows.
fn make(
    alloc: Global,
    kept: &mut Option<Tree>,
    given: &[&str],
    out: &mut String,
) -> Result<(), Unanswered> {
    let tree = tree_of_words(alloc, given)?;
    let rows = tree.rows();
    *kept = Some(tree);
    added(writeln!(out, "{rows} rows"))
}

/// Attaches a path to a row of the tree, and adds the tree's number of rows.
fn attach(
    alloc: Global,
    tree: &mut Option<Tree>,
    given: &[&str],
    out: &mut String,
) -> Result<(), Unanswered> {
    let [row, way @ ..] = given else {
        return Err(Unanswered::Misread("attach ROW: NODE .."));
    };
    let Some(row) = number(row.strip_suffix(':').unwrap_or(*row)) else {
        return Err(NO_NUMBER);
    };
    let way = number_list(alloc, way)?;
    attach_way(tree, row, way.as_slice(), out)
}

fn attach_way(
    tree: &mut Option<Tree>,
    row: u32,
    way: &[u32],
    out: &mut String,
) -> Result<(), Unanswered> {
    let Some(tree) = tree else {
        return Err(NO_TREE);
    };
    attach_at(tree, row, way)?;
    added(writeln!(out, "{} rows", tree.rows()))
}

/// Adds whether the marks of the last check fit the problem.
fn put_marks_fit(
    problem: &Option<Problem>,
    marks: &Option<Marks>,
    given: &[&str],
    out: &mut String,
) -> Result<(), Unanswered> {
    no_words(given)?;
    match (problem, marks) {
        (Some(problem), Some(marks)) => put(out, marks.fits(problem)),
        (None, _) => Err(NO_PROBLEM),
        _ => Err(Unanswered::Refused("nothing was checked")),
    }
}

/// Adds whether the tree routes a net of the problem. The next check uses the marks of this one
/// again if they fit its problem.
fn check(
    alloc: Global,
    problem: &Option<Problem>,
    tree: &Option<Tree>,
    marks: &mut Option<Marks>,
    net: u32,
    out: &mut String,
) -> Result<(), Unanswered> {
    match (tree, problem) {
        (Some(tree), Some(problem)) => check_with(alloc, problem, tree, marks, net, out),
        (None, _) => Err(NO_TREE),
        _ => Err(NO_PROBLEM),
    }
}

/// Adds whether a tree routes a net of a problem, with the marks of the last check if they fit.
fn check_with(
    alloc: Global,
    problem: &Problem,
    tree: &Tree,
    marks: &mut Option<Marks>,
    net: u32,
    out: &mut String,
) -> Result<(), Unanswered> {
    match marks {
        Some(marks) if marks.fits(problem) => put_check(problem, net, tree, marks, out),
        _ => check_anew(alloc, problem, tree, marks, net, out),
    }
}

/// Adds whether a tree routes a net, with new marks. Keeps the marks once that is added.
fn check_anew(
    alloc: Global,
    problem: &Problem,
    tree: &Tree,
    kept: &mut Option<Marks>,
    net: u32,
    out: &mut String,
) -> Result<(), Unanswered> {
    let mut marks = Marks::new(alloc, problem)?;
    put_check(problem, net, tree, &mut marks, out)?;
    *kept = Some(marks);
    Ok(())
}

/// Adds whether a tree routes a net.
fn put_check(
    problem: &Problem,
    net: u32,
    tree: &Tree,
    marks: &mut Marks,
    out: &mut String,
) -> Result<(), Unanswered>
    requires { marks.old ≡ node_count_of problem.now.device }
{
    match check_tree(problem, net, tree, marks) {
        Ok(()) => put(out, "legal"),
        Err(fault) => put_named(out, fault),
    }
}

/// Makes a look-up of the whole tree.
fn look_up(alloc: Global, tree: &Tree, name: &str, out: &mut String) -> Result<(), Unanswered> {
    match name {
        "rows" => put(out, tree.rows()),
        "pair_count" => put(out, tree.pairs()),
        "dump_tree" => put_tree(tree, out),
        _ => {
            let copy = tree.copy(alloc)?;
            put(out, copy == *tree)
        }
    }
}

/// Makes a look-up of a row, a pair or a node.
fn look_at(tree: &Tree, name: &str, index: u32, out: &mut String) -> Result<(), Unanswered> {
    match name {
        "row_node" => put_maybe(out, row_node(tree, index as usize)),
        "pair" => put_pair(tree, index as usize, out),
        _ => put(out, tree.covers(index)),
    }
}

/// Returns the node of a row, if there is such a row.
fn row_node(tree: &Tree, row: usize) -> Option<u32> {
    if row < tree.rows() {
        Some(tree.node(row))
    } else {
        None
    }
}

fn put_pair(tree: &Tree, index: usize, out: &mut String) -> Result<(), Unanswered> {
    if index >= tree.pairs() {
        return put(out, "none");
    }
    let (from, to) = tree.pair(index);
    put_numbers(out, &[from, to])
}
