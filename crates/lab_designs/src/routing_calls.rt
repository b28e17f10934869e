//! Calls of `route_tree` and `route_check`: routings.

use lab_session::answer::{added, put, put_named};
use lab_session::session::{NO_ROUTING, RoutedProblem, Session};
use lab_session::trees::tree_of_words;
use lab_session::unanswered::Unanswered;
use lab_session::words::{Call, NO_WORDS, pairs, text_below, words};
use route_check::check_routing;
use route_tree::{Pairs, Routing, Tree, fits};
use rr_graph::Problem;
use std::alloc::Global;
use std::rt::Runtime;
use std::thread::Threads;

/// Makes a call, and adds its answer.
pub fn call(
    rt: &(impl Runtime + Threads + Sync + AllocGlobal),
    session: &mut Session,
    call: Call<'_>,
    out: &mut String,
) -> Result<(), Unanswered> {
    match call.name {
        "routing" | "routing_of_trees" => read(rt.alloc(), &mut session.routing, call, out),
        "fits" | "check" => judge_kept(rt, session, call, out),
        "dump_routing" => dump_kept(&session.routing, call.given, out),
        _ => Err(Unanswered::NoCall),
    }
}

/// Reads a routing from the text below a call, and keeps it.
fn read(
    alloc: Global,
    kept: &mut Option<Routing>,
    call: Call<'_>,
    out: &mut String,
) -> Result<(), Unanswered> {
    let text = text_below(call)?;
    let routing = match call.name {
        "routing" => of_pairs(alloc, text)?,
        _ => of_trees(alloc, text)?,
    };
    keep(kept, routing, out)
}

/// Adds whether the routing fits the problem, or its first fault.
fn judge_kept(
    rt: &(impl Runtime + Threads + Sync + AllocGlobal),
    session: &Session,
    call: Call<'_>,
    out: &mut String,
) -> Result<(), Unanswered> {
    if !call.given.is_empty() {
        return Err(NO_WORDS);
    }
    let RoutedProblem { problem, routing } = session.routed_problem()?;
    judge(rt, problem, routing, call.name, out)
}

/// Adds a line for each list of the routing.
fn dump_kept(
    routing: &Option<Routing>,
    given: &[&str],
    out: &mut String,
) -> Result<(), Unanswered> {
    if !given.is_empty() {
        return Err(NO_WORDS);
    }
    match routing {
        Some(routing) => dump(routing, out),
        None => Err(NO_ROUTING),
    }
}

/// Keeps a routing, and adds its number of lists.
pub fn keep(
    kept: &mut Option<Routing>,
    routing: Routing,
    out: &mut String,
) -> Result<(), Unanswered> {
    let lists = routing.lists.len();
    *kept = Some(routing);
    added(writeln!(out, "{lists} lists"))
}

/// Reads pairs from the words of a line, or `none`.
fn list_of_words(alloc: Global, words: &[&str]) -> Result<Option<Pairs>, Unanswered> {
    match words {
        [word] if *word == "none" => Ok(None),
        [word, rest @ ..] if *word == "pairs" => Ok(Some(Pairs {
            items: pairs(alloc, rest)?,
        })),
        _ => Ok(Some(Pairs {
            items: pairs(alloc, words)?,
        })),
    }
}

/// Reads a tree from the words of a line, or `none`.
fn tree_or_none(alloc: Global, words: &[&str]) -> Result<Option<Tree>, Unanswered> {
    match words {
        [word] if *word == "none" => Ok(None),
        _ => Ok(Some(tree_of_words(alloc, words)?)),
    }
}

/// Reads a routing from a text with the pairs of a net on each line.
fn of_pairs(alloc: Global, text: &str) -> Result<Routing, Unanswered> {
    let mut lists = Vec::new(alloc);
    for line in text.lines() {
        add_list(alloc, &mut lists, line)?;
    }
    Ok(Routing { lists })
}

/// Adds the list of a line, if it has words.
fn add_list(alloc: Global, lists: &mut Vec<Option<Pairs>>, line: &str) -> Result<(), Unanswered> {
    let words = words(alloc, line)?;
    if words.is_empty() {
        return Ok(());
    }
    let list = list_of_words(alloc, words.as_slice())?;
    Ok(lists.push(list)?)
}

/// Reads a routing from a text with the tree of a net on each line.
fn of_trees(alloc: Global, text: &str) -> Result<Routing, Unanswered> {
    let trees = trees(alloc, text)?;
    Ok(Routing::of_trees(alloc, trees.as_slice())?)
}

/// Reads trees from a text, one a line.
fn trees(alloc: Global, text: &str) -> Result<Vec<Option<Tree>>, Unanswered> {
    let mut trees = Vec::new(alloc);
    for line in text.lines() {
        add_tree(alloc, &mut trees, line)?;
    }
    Ok(trees)
}

/// Adds the tree of a line, if it has words.
fn add_tree(alloc: Global, trees: &mut Vec<Option<Tree>>, line: &str) -> Result<(), Unanswered> {
    let words = words(alloc, line)?;
    if words.is_empty() {
        return Ok(());
    }
    let tree = tree_or_none(alloc, words.as_slice())?;
    Ok(trees.push(tree)?)
}

/// Adds whether a routing fits a problem, or its first fault.
fn judge(
    rt: &(impl Runtime + Threads + Sync + AllocGlobal),
    problem: &Problem,
    routing: &Routing,
    name: &str,
    out: &mut String,
) -> Result<(), Unanswered> {
    match name {
        "fits" => put(out, fits(problem, routing)),
        _ => check(rt, problem, routing, out),
    }
}

/// Checks a routing, and adds `legal` or its first fault.
fn check(
    rt: &(impl Runtime + Threads + Sync + AllocGlobal),
    problem: &Problem,
    routing: &Routing,
    out: &mut String,
) -> Result<(), Unanswered> {
    match check_routing(rt, rt.alloc(), problem, routing)? {
        None => put(out, "legal"),
        Some(fault) => put_named(out, fault),
    }
}

/// Adds a line for each list: its pairs, or `none`.
fn dump(routing: &Routing, out: &mut String) -> Result<(), Unanswered> {
    for list in routing.lists.as_slice() {
        match list {
            Some(pairs) => put_pairs(pairs, out)?,
            None => put(out, "none")?,
        }
    }
    Ok(())
}

/// Adds a line with pairs.
fn put_pairs(pairs: &Pairs, out: &mut String) -> Result<(), Unanswered> {
    out.push_str("pairs")?;
    for (from, to) in pairs.items.as_slice() {
        write!(out, " {from} {to}")?;
    }
    added(out.push('\n'))
}
