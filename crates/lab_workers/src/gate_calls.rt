//! The call that shows which calls the two gates of a pair get.

use congestion_book::Book;
use lab_session::listening::{Heard, Listener};
use lab_session::session::{NO_BOOK, NO_PROBLEM, NO_ROUTING, Session};
use lab_session::sources::BELOW;
use lab_session::trial_ends::tried;
use lab_session::unanswered::Unanswered;
use lab_session::words::{Call, numbers, text_of, words};
use net_workers::{BothGates, Gate, ScheduledTurn};
use route_tree::Routing;
use rr_graph::Problem;
use std::alloc::Global;
use std::sync::Wait;

/// The syntax of the call.
const BOTH: &str = "both_gates << or both_gates alone <<, with a gate's call on each line";

/// The values that calls of a gate pass.
#[derive(Clone, Copy)]
struct Passed<'a> {
    problem: &'a Option<Problem>,
    routing: &'a Option<Routing>,
    book: &'a Option<Book>,
}

impl<'a> Passed<'a> {
    fn problem(&self) -> Result<&'a Problem, Unanswered> {
        match self.problem {
            Some(problem) => Ok(problem),
            None => Err(NO_PROBLEM),
        }
    }

    fn routing(&self) -> Result<&'a Routing, Unanswered> {
        match self.routing {
            Some(routing) => Ok(routing),
            None => Err(NO_ROUTING),
        }
    }

    fn book(&self) -> Result<&'a Book, Unanswered> {
        match self.book {
            Some(book) => Ok(book),
            None => Err(NO_BOOK),
        }
    }
}

/// Makes a call, and adds its answer.
pub fn call(
    rt: &(impl Wait + AllocGlobal),
    session: &Session,
    call: Call<'_>,
    out: &mut String,
) -> Result<(), Unanswered> {
    let passed = Passed {
        problem: &session.problem,
        routing: &session.routing,
        book: &session.books.book,
    };
    match (call.name, call.given) {
        ("both_gates", [below]) if *below == BELOW => {
            show(rt, passed, true, text_of(call.text)?, out)
        }
        ("both_gates", [word, below]) if *word == "alone" && *below == BELOW => {
            show(rt, passed, false, text_of(call.text)?, out)
        }
        ("both_gates", _) => Err(Unanswered::Misread(BOTH)),
        _ => Err(Unanswered::NoCall),
    }
}

/// Makes the calls that a text lists of a pair of gates, and adds the calls that the two got. The
/// first one is no gate unless `has_first`.
fn show(
    rt: &(impl Wait + AllocGlobal),
    passed: Passed<'_>,
    has_first: bool,
    text: &str,
    out: &mut String,
) -> Result<(), Unanswered> {
    let heard = Heard::new(rt, rt.alloc());
    listen(rt.alloc(), &heard, passed, has_first, text)?;
    heard.put(out)
}

/// Makes the calls that a text lists of a pair of gates that keep their calls.
fn listen<R: Wait>(
    alloc: Global,
    heard: &Heard<'_, R>,
    passed: Passed<'_>,
    has_first: bool,
    text: &str,
) -> Result<(), Unanswered> {
    let first = Listener {
        name: "first",
        heard,
        scheduled: 1,
        is_alone: true,
        refused: 2,
    };
    let second = Listener {
        name: "second",
        heard,
        scheduled: 2,
        is_alone: false,
        refused: 3,
    };
    let maybe = has_first.then_some(first);
    call_both(alloc, heard, &maybe, &second, passed, text)
}

/// Makes the calls that a text lists of two gates as one.
fn call_both<R: Wait, A: Gate, B: Gate>(
    alloc: Global,
    heard: &Heard<'_, R>,
    first: &A,
    second: &B,
    passed: Passed<'_>,
    text: &str,
) -> Result<(), Unanswered> {
    let gates = BothGates { first, second };
    for line in text.lines() {
        call_line(alloc, heard, &gates, passed, line)?;
    }
    Ok(())
}

/// Makes the call that a line gives, if it has words.
fn call_line<R: Wait, G: Gate>(
    alloc: Global,
    heard: &Heard<'_, R>,
    gate: &G,
    passed: Passed<'_>,
    line: &str,
) -> Result<(), Unanswered> {
    let words = words(alloc, line)?;
    match words.as_slice() {
        [] => Ok(()),
        [name] => call_with_values(gate, *name, passed),
        [name, given @ ..] => call_with_numbers(heard, gate, *name, passed, given),
    }
}

/// Makes a call of a gate that takes no number.
fn call_with_values<G: Gate>(gate: &G, name: &str, passed: Passed<'_>) -> Result<(), Unanswered> {
    match name {
        "begins" => begin(gate, passed),
        "found" => find(gate, passed),
        "left" => leave(gate, passed),
        _ => Err(Unanswered::Misread(BOTH)),
    }
}

fn begin<G: Gate>(gate: &G, passed: Passed<'_>) -> Result<(), Unanswered> {
    gate.begins(passed.problem()?);
    Ok(())
}

fn find<G: Gate>(gate: &G, passed: Passed<'_>) -> Result<(), Unanswered> {
    gate.found(passed.problem()?, passed.routing()?);
    Ok(())
}

fn leave<G: Gate>(gate: &G, passed: Passed<'_>) -> Result<(), Unanswered> {
    gate.left(passed.book()?);
    Ok(())
}

/// Makes a call of a gate that takes numbers.
fn call_with_numbers<R: Wait, G: Gate>(
    heard: &Heard<'_, R>,
    gate: &G,
    name: &str,
    passed: Passed<'_>,
    given: &[&str],
) -> Result<(), Unanswered> {
    match name {
        "schedule" => ask_for_schedule(heard, gate, given),
        "accepts" => ask_whether_accepted(heard, gate, given),
        "tries" | "closed" => {
            let [number] = numbers::<1>(given)?;
            call_with_one(gate, name, passed, number)
        }
        "tried" => {
            let (width, end) = tried(given, BOTH)?;
            gate.tried(width, end);
            Ok(())
        }
        _ => {
            let [first, second] = numbers::<2>(given)?;
            call_with_two(gate, name, first, second)
        }
    }
}

/// Makes a call of a gate that takes one number.
fn call_with_one<G: Gate>(
    gate: &G,
    name: &str,
    passed: Passed<'_>,
    number: u32,
) -> Result<(), Unanswered> {
    match name {
        "closed" => return close(gate, number, passed.book()?),
        _ => gate.tries(number),
    }
    Ok(())
}

/// Tells a gate that an iteration was closed, if the book has a row for each so far.
fn close<G: Gate>(gate: &G, iteration: u32, book: &Book) -> Result<(), Unanswered> {
    if book.rows().len() != iteration as usize {
        return Err(Unanswered::Misread(BOTH));
    }
    gate.closed(iteration, book);
    Ok(())
}

/// Makes a call of a gate that takes two numbers.
fn call_with_two<G: Gate>(gate: &G, name: &str, first: u32, second: u32) -> Result<(), Unanswered> {
    match name {
        "opened" => gate.opened(first, second),
        "between" => gate.between(first, second),
        "stuck" => gate.stuck(first, second),
        "searched" => gate.searched(first, second),
        "looked" => gate.looked(first, second),
        _ => return Err(Unanswered::Misread(BOTH)),
    }
    Ok(())
}

/// Asks a gate for the schedule of an iteration, and adds its answer.
fn ask_for_schedule<R: Wait, G: Gate>(
    heard: &Heard<'_, R>,
    gate: &G,
    given: &[&str],
) -> Result<(), Unanswered> {
    let [iteration] = numbers::<1>(given)?;
    heard.add("both", schedule_word(gate, iteration), &[]);
    Ok(())
}

/// Asks a gate whether it accepts a turn of an iteration, and adds its answer.
fn ask_whether_accepted<R: Wait, G: Gate>(
    heard: &Heard<'_, R>,
    gate: &G,
    given: &[&str],
) -> Result<(), Unanswered> {
    let [iteration, worker, net] = numbers::<3>(given)?;
    heard.add("both", accepts_word(gate, iteration, worker, net), &[]);
    Ok(())
}

/// Returns a word for the schedule of an iteration.
fn schedule_word<G: Gate>(gate: &G, iteration: u32) -> &'static str {
    match gate.schedule(iteration) {
        None => "no schedule",
        Some(schedule) if schedule.is_alone => "a schedule for one thread",
        Some(_) => "a schedule for threads",
    }
}

/// Returns a word for whether a gate accepts a turn of an iteration.
fn accepts_word<G: Gate>(gate: &G, iteration: u32, worker: u32, net: u32) -> &'static str {
    let turn = ScheduledTurn {
        worker,
        net,
        seen: 0,
    };
    if gate.accepts(iteration, &[turn]) {
        "accepted"
    } else {
        "refused"
    }
}
