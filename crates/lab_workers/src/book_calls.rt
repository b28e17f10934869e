//! Calls of `congestion_book`: the book, and the events that change it.

use crate::book_look_ups::{dump, look_at, look_up};
use congestion_book::{Book, CloseFault, CommitFault};
use lab_session::answer::{added, put, put_named};
use lab_session::events::{put_drawn, put_passed};
use lab_session::session::{Books, NO_BOOK, NO_PROBLEM, NO_TREE, NO_VIEW, Session};
use lab_session::trees::tree_of_words;
use lab_session::unanswered::Unanswered;
use lab_session::words::{Call, NO_NUMBER, NO_WORDS, number, numbers};
use node_cost::View;
use route_tree::Tree;
use rr_graph::Problem;
use std::alloc::Global;

/// The syntax of a commit.
pub const COMMIT: &str = "commit WORKER NET, or with the words of a tree after it";

/// Makes a call, and adds its answer.
pub fn call(
    alloc: Global,
    session: &mut Session,
    call: Call<'_>,
    out: &mut String,
) -> Result<(), Unanswered> {
    match call.name {
        "book" => make(alloc, session, call.given, out),
        "draw" => draw(
            &mut session.books.book,
            &mut session.books.view,
            call.given,
            out,
        ),
        "look" => look(
            &session.books.book,
            &mut session.books.view,
            call.given,
            out,
        ),
        "commit" => commit(
            alloc,
            &mut session.books.book,
            &session.tree,
            call.given,
            out,
        ),
        "pass" => pass(&mut session.books.book, call.given, out),
        "close" => close(alloc, &mut session.books.book, call.given, out),
        _ => read(session, call, out),
    }
}

/// Makes a call that changes nothing, and adds its answer.
fn read(session: &Session, call: Call<'_>, out: &mut String) -> Result<(), Unanswered> {
    let Books { book, view, .. } = &session.books;
    match call.name {
        "book_tree" | "occupancy" | "history" | "turns" => read_at(book, call, out),
        "rows_of_overuse" | "overused" | "excess" | "unrouted" | "wirelength" | "fresh" => read_all(
            book, call, out,
        ),
        "has_filled" => put_filled(book, &session.tree, view, call.given, out),
        "dump_book" => put_book(book, call.given, out),
        _ => Err(Unanswered::NoCall),
    }
}

/// Makes a look-up of a net, a node or an iteration.
fn read_at(book: &Option<Book>, call: Call<'_>, out: &mut String) -> Result<(), Unanswered> {
    let [index] = numbers::<1>(call.given)?;
    match book {
        Some(book) => look_at(book, call.name, index, out),
        None => Err(NO_BOOK),
    }
}

/// Makes a look-up of the whole book.
fn read_all(book: &Option<Book>, call: Call<'_>, out: &mut String) -> Result<(), Unanswered> {
    if !call.given.is_empty() {
        return Err(NO_WORDS);
    }
    match book {
        Some(book) => look_up(book, call.name, out),
        None => Err(NO_BOOK),
    }
}

/// Adds the answers of all look-ups.
fn put_book(book: &Option<Book>, given: &[&str], out: &mut String) -> Result<(), Unanswered> {
    if !given.is_empty() {
        return Err(NO_WORDS);
    }
    match book {
        Some(book) => dump(book, out),
        None => Err(NO_BOOK),
    }
}

/// Passes a net.
fn pass(book: &mut Option<Book>, given: &[&str], out: &mut String) -> Result<(), Unanswered> {
    let [worker, net] = numbers::<2>(given)?;
    match book {
        Some(book) => put_passed(book.pass(worker, net), out),
        None => Err(NO_BOOK),
    }
}

/// Closes the open iteration.
fn close(
    alloc: Global,
    book: &mut Option<Book>,
    given: &[&str],
    out: &mut String,
) -> Result<(), Unanswered> {
    if !given.is_empty() {
        return Err(NO_WORDS);
    }
    match book {
        Some(book) => put_closed(book.close(alloc), out),
        None => Err(NO_BOOK),
    }
}

/// Makes a book of the problem, and adds its number of nets.
fn make(
    alloc: Global,
    session: &mut Session,
    given: &[&str],
    out: &mut String,
) -> Result<(), Unanswered> {
    let acc = match given {
        [] => session.settings().acc(),
        _ => history_factor(given)?,
    };
    match &session.problem {
        Some(problem) => keep_new(alloc, problem, acc, &mut session.books.book, out),
        None => Err(NO_PROBLEM),
    }
}

/// Keeps a new book of a problem, and adds its number of nets.
fn keep_new(
    alloc: Global,
    problem: &Problem,
    acc: u16,
    kept: &mut Option<Book>,
    out: &mut String,
) -> Result<(), Unanswered> {
    *kept = Some(new_book(alloc, problem, acc)?);
    added(writeln!(out, "{} nets", problem.nets()))
}

/// Reads `acc`, the factor by which histories grow.
fn history_factor(given: &[&str]) -> Result<u16, Unanswered> {
    let [acc] = numbers::<1>(given)?;
    match u16::try_from(acc) {
        Ok(acc) => Ok(acc),
        Err(_) => Err(Unanswered::Refused("a factor is at most 65,535")),
    }
}

/// Returns a book of a copy of a problem.
fn new_book(alloc: Global, problem: &Problem, acc: u16) -> Result<Book, Unanswered> {
    let problem = problem.copy(alloc)?;
    Ok(Book::new(alloc, problem, acc)?)
}

/// Draws a net, and fills the session's view with what the net sees.
fn draw(
    book: &mut Option<Book>,
    view: &mut Option<View>,
    given: &[&str],
    out: &mut String,
) -> Result<(), Unanswered> {
    let [worker] = numbers::<1>(given)?;
    match (book, view) {
        (Some(book), Some(view)) => put_drawn(book.draw(worker, view), out),
        (None, _) => Err(NO_BOOK),
        _ => Err(NO_VIEW),
    }
}

/// Fills the session's view with what a net sees.
fn look(
    book: &Option<Book>,
    view: &mut Option<View>,
    given: &[&str],
    out: &mut String,
) -> Result<(), Unanswered> {
    let [net] = numbers::<1>(given)?;
    match (book, view) {
        (Some(book), Some(view)) => look_with(book, view, net, out),
        (None, _) => Err(NO_BOOK),
        _ => Err(NO_VIEW),
    }
}

/// Fills a view with what a net sees.
fn look_with(book: &Book, view: &mut View, net: u32, out: &mut String) -> Result<(), Unanswered> {
    if net >= book.problem().nets() {
        return Err(Unanswered::Refused("there is no such net"));
    }
    match book.look(net, view) {
        Ok(()) => put(out, "looked"),
        Err(fault) => put_named(out, fault),
    }
}

/// Adds whether other nets now fill a node of the session's tree that they don't fill in the
/// session's view.
fn put_filled(
    book: &Option<Book>,
    tree: &Option<Tree>,
    view: &Option<View>,
    given: &[&str],
    out: &mut String,
) -> Result<(), Unanswered> {
    let [net] = numbers::<1>(given)?;
    match (book, tree, view) {
        (Some(book), Some(tree), Some(view)) => put_whether_filled(book, net, tree, view, out),
        (None, _, _) => Err(NO_BOOK),
        (_, None, _) => Err(NO_TREE),
        _ => Err(NO_VIEW),
    }
}

/// Adds whether other nets now fill a node of a net's tree that they don't fill in a view.
fn put_whether_filled(
    book: &Book,
    net: u32,
    tree: &Tree,
    view: &View,
    out: &mut String,
) -> Result<(), Unanswered> {
    if net >= book.problem().nets() {
        return Err(Unanswered::Refused("there is no such net"));
    }
    if view.len() != book.problem().device().node_count() as usize {
        return Err(Unanswered::Refused("the view is of other nodes"));
    }
    put(out, book.has_filled(net, tree, view))
}

/// Commits the tree that words give, or else the session's.
fn commit(
    alloc: Global,
    book: &mut Option<Book>,
    kept: &Option<Tree>,
    given: &[&str],
    out: &mut String,
) -> Result<(), Unanswered> {
    let [worker, net, rest @ ..] = given else {
        return Err(Unanswered::Misread(COMMIT));
    };
    let (Some(worker), Some(net)) = (number(worker), number(net)) else {
        return Err(NO_NUMBER);
    };
    let tree = given_tree(alloc, kept, rest)?;
    commit_tree(alloc, book, worker, net, tree, out)
}

/// Returns the tree that words give, or else a copy of the kept one.
fn given_tree(alloc: Global, kept: &Option<Tree>, words: &[&str]) -> Result<Tree, Unanswered> {
    match (words, kept) {
        ([], Some(tree)) => Ok(tree.copy(alloc)?),
        ([], None) => Err(NO_TREE),
        _ => tree_of_words(alloc, words),
    }
}

/// Commits a tree.
fn commit_tree(
    alloc: Global,
    book: &mut Option<Book>,
    worker: u32,
    net: u32,
    tree: Tree,
    out: &mut String,
) -> Result<(), Unanswered> {
    let copy = tree.copy(alloc)?;
    let Some(book) = book else {
        return Err(NO_BOOK);
    };
    match book.commit(worker, net, tree) {
        Ok(()) => put(out, "committed"),
        Err((fault, back)) => put_refused(fault, &back, &copy, out),
    }
}

/// Adds why a commit was refused, or that it returned another tree than the given one.
fn put_refused(
    fault: CommitFault,
    back: &Tree,
    given: &Tree,
    out: &mut String,
) -> Result<(), Unanswered> {
    if *back == *given {
        put_named(out, fault)
    } else {
        put(out, "another tree came back")
    }
}

/// Adds the answer to a close.
pub fn put_closed(closed: Result<(), CloseFault>, out: &mut String) -> Result<(), Unanswered> {
    match closed {
        Ok(()) => put(out, "closed"),
        Err(CloseFault::Memory) => Err(Unanswered::Memory),
        Err(fault) => put_named(out, fault),
    }
}
