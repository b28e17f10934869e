//! Calls of `net_workers`: a desk, and the shares of its workers.

ghost use Rattle.std.specs.Prelude.{◌≡◌};
ghost use Rattle.congestion_book.specs.Contents.{IsFresh};

use crate::iteration_calls::take_fresh;
use congestion_book::Book;
use lab_session::bounds::worker_count;
use lab_session::events::{put_committed, put_drawn, put_passed};
use lab_session::session::NO_BOOK;
use lab_session::sources::BELOW;
use lab_session::trees::tree_of_words;
use lab_session::unanswered::Unanswered;
use lab_session::words::{Call, NO_NUMBER, number, text_of, words};
use net_workers::{Desk, Round, Share};
use node_cost::View;
use route_tree::Tree;
use std::alloc::Global;
use std::marker::Brand;
use std::sync::ledger::Blank;

/// The syntax of the call.
const DESK: &str = "desk WORKERS <<, with lines draw W, commit W NET TREE or pass W NET";

/// An act of a worker at a desk.
#[derive(Drop)]
enum Act {
    Draw,
    Commit(u32, Tree),
    Pass(u32),
}

/// A worker and its act.
#[derive(Drop)]
struct Step {
    worker: u32,
    act: Act,
}

/// What a call asks for: how many workers are at the desk, and their steps, in order.
#[derive(Drop)]
struct Asked {
    workers: u32,
    steps: Vec<Step>,
}

/// Makes a call, and adds its answer.
pub fn call(
    alloc: Global,
    book: &mut Option<Book>,
    call: Call<'_>,
    out: &mut String,
) -> Result<(), Unanswered> {
    match (call.name, call.given) {
        ("desk", [workers, below]) if *below == BELOW => {
            begin_desk(alloc, book, worker_count(workers)?, call.text, out)
        }
        ("desk", _) => Err(Unanswered::Misread(DESK)),
        _ => Err(Unanswered::NoCall),
    }
}

/// Takes the steps of a text at a desk of the book, with a view of the book's nodes.
fn begin_desk(
    alloc: Global,
    book: &mut Option<Book>,
    workers: u32,
    text: &[u8],
    out: &mut String,
) -> Result<(), Unanswered> {
    let mut view = view_of(alloc, book)?;
    let steps = steps_of_text(alloc, workers, text_of(text)?)?;
    share_desk(alloc, book, Asked { workers, steps }, &mut view, out)
}

/// Returns a view of the book's nodes.
fn view_of(alloc: Global, book: &Option<Book>) -> Result<View, Unanswered> {
    match book {
        Some(book) => Ok(View::new(alloc, book.problem().device().node_count() as usize)?),
        None => Err(NO_BOOK),
    }
}

/// Takes workers' steps at a desk. If memory runs out, the book is dropped.
fn share_desk(
    alloc: Global,
    book: &mut Option<Book>,
    asked: Asked,
    view: &mut View,
    out: &mut String,
) -> Result<(), Unanswered> {
    let taken = take_fresh(book)?;
    let blank = Blank::new(asked.workers as u64);
    let taken = at_desk::<Brand>(alloc, taken, blank, asked, view, out)?;
    *book = Some(taken);
    Ok(())
}

/// Reads the steps of `workers` workers from a text, one a line.
fn steps_of_text(alloc: Global, workers: u32, text: &str) -> Result<Vec<Step>, Unanswered> {
    let mut steps = Vec::new(alloc);
    for line in text.lines() {
        add_step(alloc, &mut steps, workers, line)?;
    }
    Ok(steps)
}

/// Adds the step of a line, if it has words.
fn add_step(
    alloc: Global,
    steps: &mut Vec<Step>,
    workers: u32,
    line: &str,
) -> Result<(), Unanswered> {
    let words = words(alloc, line)?;
    if words.is_empty() {
        return Ok(());
    }
    let step = step_of_words(alloc, workers, words.as_slice())?;
    Ok(steps.push(step)?)
}

/// Reads a step of one of `workers` workers from the words of a line.
fn step_of_words(alloc: Global, workers: u32, words: &[&str]) -> Result<Step, Unanswered> {
    let [name, worker, given @ ..] = words else {
        return Err(Unanswered::Misread(DESK));
    };
    let Some(worker) = number(worker) else {
        return Err(NO_NUMBER);
    };
    if worker >= workers {
        return Err(Unanswered::Refused("there is no such worker"));
    }
    let act = act_of_words(alloc, *name, given)?;
    Ok(Step { worker, act })
}

/// Reads an act from its name and the words after the worker.
fn act_of_words(alloc: Global, name: &str, given: &[&str]) -> Result<Act, Unanswered> {
    match (name, given) {
        ("draw", []) => Ok(Act::Draw),
        ("commit", [net, tree @ ..]) => commit_of_words(alloc, net, tree),
        ("pass", [net]) => match number(net) {
            Some(net) => Ok(Act::Pass(net)),
            None => Err(NO_NUMBER),
        },
        _ => Err(Unanswered::Misread(DESK)),
    }
}

/// Reads a commit from the words of its net and of its tree.
fn commit_of_words(alloc: Global, net: &str, tree: &[&str]) -> Result<Act, Unanswered> {
    let Some(net) = number(net) else {
        return Err(NO_NUMBER);
    };
    Ok(Act::Commit(net, tree_of_words(alloc, tree)?))
}

/// Takes workers' steps at a desk of a book, adds the number of turns that each share counts, and
/// returns the book.
fn at_desk<L: Round>(
    alloc: Global,
    book: Book,
    blank: Blank,
    asked: Asked,
    view: &mut View,
    out: &mut String,
) -> Result<Book, Unanswered>
    requires fresh { IsFresh book }
    requires workers { asked.workers ≡ L.workers }
    requires book { book ≡ L.opening }
    requires name { blank.name ≡ L.name }
    requires parts { blank.parts ≡ L.parts }
    requires one_each { blank.parts ≡ asked.workers }
{
    let Asked { workers, steps } = asked;
    let (mut desk, mut shares) = Desk::<L>::new(alloc, book, workers, blank)?;
    take_and_put(&mut desk, &mut shares, steps, view, out)?;
    Ok(desk.end())
}

/// Takes steps, and adds the number of turns that each share counts after them.
fn take_and_put<L: Round>(
    desk: &mut Desk<L>,
    shares: &mut Vec<Share<L>>,
    steps: Vec<Step>,
    view: &mut View,
    out: &mut String,
) -> Result<(), Unanswered> {
    take_steps(desk, shares, steps, view, out)?;
    put_shares(shares, out)
}

/// Takes steps one after another.
fn take_steps<L: Round>(
    desk: &mut Desk<L>,
    shares: &mut Vec<Share<L>>,
    steps: Vec<Step>,
    view: &mut View,
    out: &mut String,
) -> Result<(), Unanswered> {
    for Step { worker, act } in steps {
        if let Some(share) = shares.get_mut(worker as usize) {
            take_step(desk, share, act, view, out)?;
        }
    }
    Ok(())
}

/// Lets a worker act, and adds the desk's answer.
fn take_step<L: Round>(
    desk: &mut Desk<L>,
    share: &mut Share<L>,
    act: Act,
    view: &mut View,
    out: &mut String,
) -> Result<(), Unanswered> {
    match act {
        Act::Draw => put_drawn(desk.draw(share, view), out),
        Act::Commit(net, tree) => match desk.commit(share, net, tree) {
            Ok(()) => put_committed(Ok(()), out),
            Err((fault, _)) => put_committed(Err(fault), out),
        },
        Act::Pass(net) => put_passed(desk.pass(share, net), out),
    }
}

/// Adds a line for each share.
fn put_shares<L: Round>(shares: &Vec<Share<L>>, out: &mut String) -> Result<(), Unanswered> {
    for share in shares {
        writeln!(out, "worker {}: {} turns", share.worker(), share.turns())?;
    }
    Ok(())
}
