//! Look-ups of a congestion book.

use crate::settings_calls::NO_NODE;
use congestion_book::{Book, OveruseRow, Turn};
use lab_session::answer::{added, put};
use lab_session::trees::put_tree;
use lab_session::unanswered::Unanswered;

/// Makes a look-up of the whole book.
pub fn look_up(book: &Book, name: &str, out: &mut String) -> Result<(), Unanswered> {
    match name {
        "rows_of_overuse" => put_rows(book.rows(), out),
        "overused" => put(out, book.overused()),
        "excess" => put(out, book.excess()),
        "unrouted" => put(out, book.unrouted()),
        "wirelength" => put(out, book.wirelength()),
        _ => put(out, book.fresh()),
    }
}

/// Makes a look-up of a net, a node or an iteration.
pub fn look_at(book: &Book, name: &str, index: u32, out: &mut String) -> Result<(), Unanswered> {
    match name {
        "book_tree" => put_tree_of(book, index, out),
        "occupancy" => put_occupancy(book, index, out),
        "history" => put_history(book, index, out),
        _ => put_turns_of(book, index as usize, out),
    }
}

/// Returns whether a node exists.
fn has_node(book: &Book, id: u32) -> bool {
    id < book.problem().device().node_count()
}

/// Adds the recorded tree of a net, or `none`.
fn put_tree_of(book: &Book, net: u32, out: &mut String) -> Result<(), Unanswered> {
    match book.tree(net) {
        Some(tree) => put_tree(tree, out),
        None => put(out, "none"),
    }
}

fn put_occupancy(book: &Book, id: u32, out: &mut String) -> Result<(), Unanswered> {
    if id < book.problem().device().node_count() {
        put(out, book.occupancy(id))
    } else {
        Err(NO_NODE)
    }
}

fn put_history(book: &Book, id: u32, out: &mut String) -> Result<(), Unanswered> {
    if id < book.problem().device().node_count() {
        put(out, book.history(id))
    } else {
        Err(NO_NODE)
    }
}

/// Adds a line for each closed iteration.
fn put_rows(rows: &[OveruseRow], out: &mut String) -> Result<(), Unanswered> {
    for (index, row) in rows.iter().enumerate() {
        write!(out, "row {}:", index.saturating_add(1))?;
        put_row(row, out)?;
    }
    Ok(())
}

/// Adds the nodes of a row, each with its overuse.
fn put_row(row: &OveruseRow, out: &mut String) -> Result<(), Unanswered> {
    for (node, amount) in row.amounts.as_slice() {
        write!(out, " {node} {amount}")?;
    }
    added(out.push('\n'))
}

/// Adds a line with the turns of an iteration.
fn put_turns_of(book: &Book, iteration: usize, out: &mut String) -> Result<(), Unanswered> {
    let last = book.rows().len().saturating_add(1);
    if iteration < 1 || iteration > last {
        return Err(Unanswered::Refused("there is no such iteration"));
    }
    if iteration > book.rows().len() + 1 {
        return Ok(());
    }
    write!(out, "turns {iteration}:")?;
    put_turns(book.turns(iteration), out)
}

/// Adds the worker and the net of each turn, and whether the net was passed.
fn put_turns(turns: &[Turn], out: &mut String) -> Result<(), Unanswered> {
    for turn in turns {
        let end = if turn.passed { " passed" } else { "" };
        write!(out, " {} {}{end}", turn.worker, turn.net)?;
    }
    added(out.push('\n'))
}

/// Adds the answers of all look-ups.
pub fn dump(book: &Book, out: &mut String) -> Result<(), Unanswered> {
    dump_trees(book, out)?;
    dump_nodes(book, out)?;
    put_rows(book.rows(), out)?;
    dump_turns(book, out)?;
    put_totals(book, out)
}

/// Adds a line: how many nodes are overused, how many nets are unrouted, and whether no net was
/// drawn in the open iteration.
fn put_totals(book: &Book, out: &mut String) -> Result<(), Unanswered> {
    let (overused, unrouted) = (book.overused(), book.unrouted());
    added(writeln!(
        out,
        "overused {overused}, unrouted {unrouted}, fresh {}",
        book.fresh()
    ))
}

/// Adds a line for each net.
fn dump_trees(book: &Book, out: &mut String) -> Result<(), Unanswered> {
    for net in 0..book.problem().nets() {
        write!(out, "tree {net}: ")?;
        put_tree_of(book, net, out)?;
    }
    Ok(())
}

/// Adds a line for each node that a net uses or that has a history.
fn dump_nodes(book: &Book, out: &mut String) -> Result<(), Unanswered> {
    for id in 0..book.problem().device().node_count() {
        dump_node(book, id, out)?;
    }
    Ok(())
}

/// Adds a line for a node, unless no net uses it and it has no history.
fn dump_node(book: &Book, id: u32, out: &mut String) -> Result<(), Unanswered> {
    if !has_node(book, id) {
        return Ok(());
    }
    let (occupancy, history) = use_of(book, id)?;
    if occupancy > 0 || history > 0 {
        writeln!(out, "node {id}: {occupancy} {history}")?;
    }
    Ok(())
}

/// Returns the number of nets that use a node, and its history.
fn use_of(book: &Book, id: u32) -> Result<(u32, u64), Unanswered> {
    if id < book.problem().device().node_count() {
        Ok((book.occupancy(id), book.history(id)))
    } else {
        Err(NO_NODE)
    }
}

/// Adds a line for each iteration.
fn dump_turns(book: &Book, out: &mut String) -> Result<(), Unanswered> {
    for index in 0..book.rows().len() {
        put_turns_of(book, index.saturating_add(1), out)?;
    }
    put_turns_of(book, book.rows().len().saturating_add(1), out)
}
