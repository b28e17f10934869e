//! Calls of `congestion_book`: lists of events.

use crate::book_calls::{COMMIT, put_closed};
use congestion_book::{Event, Reply, RunFault};
use lab_session::answer::added;
use lab_session::events::{put_committed, put_drawn, put_passed};
use lab_session::session::{Books, NO_BOOK, NO_VIEW};
use lab_session::sources::BELOW;
use lab_session::trees::tree_of_words;
use lab_session::unanswered::Unanswered;
use lab_session::words::{Call, NO_NUMBER, NO_WORDS, number, numbers, text_of, words};
use std::alloc::Global;
use std::rt::{Clock, Runtime};
use std::time::Instant;

/// The syntax of a line with an event.
const EVENT: &str = "draw WORKER, commit WORKER NET TREE, pass WORKER NET or close";

/// The greatest number of bytes in the line of a reply. The longest lines name a fault that
/// contains a number or another fault.
const LONGEST_REPLY: usize = 64;

/// Makes a call, and adds its answer.
pub fn call(
    rt: &(impl Runtime + AllocGlobal),
    books: &mut Books,
    call: Call<'_>,
    out: &mut String,
) -> Result<(), Unanswered> {
    match (call.name, call.given) {
        ("run", [below]) if *below == BELOW => run(rt.alloc(), books, call.text, out),
        ("run", [word, below]) if *word == "timed" && *below == BELOW => {
            run_timed(rt, books, call.text, out)
        }
        ("run", _) => Err(Unanswered::Misread("run << or run timed <<, a line for each event")),
        _ => Err(Unanswered::NoCall),
    }
}

/// Runs the events that a text lists, and adds the reply to each. Reserves memory for the replies
/// before the first event.
fn run(alloc: Global, books: &mut Books, text: &[u8], out: &mut String) -> Result<(), Unanswered> {
    let events = events(alloc, text_of(text)?)?;
    out.reserve(events.len().saturating_mul(LONGEST_REPLY))?;
    run_events(alloc, books, events.as_slice(), out)
}

/// Runs events, and adds the reply to each.
fn run_events(
    alloc: Global,
    books: &mut Books,
    events: &[Event],
    out: &mut String,
) -> Result<(), Unanswered> {
    let replies = replies(alloc, books, events)?;
    put_replies(replies.as_slice(), out)
}

/// Runs the events that a text lists, and adds the number of replies and the time taken.
fn run_timed(
    rt: &(impl Runtime + AllocGlobal),
    books: &mut Books,
    text: &[u8],
    out: &mut String,
) -> Result<(), Unanswered> {
    let events = events(rt.alloc(), text_of(text)?)?;
    time_events(rt, books, events.as_slice(), out)
}

/// Runs events, and adds the number of replies and the time taken.
fn time_events(
    rt: &(impl Clock + AllocGlobal),
    books: &mut Books,
    events: &[Event],
    out: &mut String,
) -> Result<(), Unanswered> {
    let Ok(start) = Instant::now(rt) else {
        return Err(Unanswered::Clock);
    };
    let count = count_replies(rt.alloc(), books, events)?;
    let Ok(time) = start.elapsed(rt) else {
        return Err(Unanswered::Clock);
    };
    added(writeln!(out, "{count} replies, {} us", time.as_micros()))
}

fn count_replies(alloc: Global, books: &mut Books, events: &[Event]) -> Result<usize, Unanswered> {
    let replies = replies(alloc, books, events)?;
    Ok(replies.len())
}

/// Runs events, and returns the replies. Skips the events that were run before memory ran out in an
/// earlier attempt.
fn replies(alloc: Global, books: &mut Books, events: &[Event]) -> Result<Vec<Reply>, Unanswered> {
    let stood = books.standing.min(events.len());
    let Some(book) = &mut books.book else {
        return Err(NO_BOOK);
    };
    let Some(view) = &mut books.view else {
        return Err(NO_VIEW);
    };
    let (_, rest) = events.split_at(stood);
    match book.run(alloc, rest, view) {
        Ok(replies) => {
            books.standing = 0;
            Ok(replies)
        }
        Err(RunFault::Memory(count)) => {
            books.standing = stood.saturating_add(count);
            Err(Unanswered::Stopped(books.standing))
        }
    }
}

/// Events that are read one after another.
#[derive(Drop)]
struct EventList {
    alloc: Global,
    events: Vec<Event>,
}

impl EventList {
    /// Reads the event of a line, if it has one.
    fn read(&mut self, line: &str) -> Result<(), Unanswered> {
        let words = words(self.alloc, line)?;
        match words.as_slice() {
            [name, given @ ..] => self.add(*name, given),
            [] => Ok(()),
        }
    }

    /// Adds the event that the words of a line give.
    fn add(&mut self, name: &str, given: &[&str]) -> Result<(), Unanswered> {
        let event = event(self.alloc, name, given)?;
        Ok(self.events.push(event)?)
    }

    /// Reads the events of some lines.
    fn read_all(&mut self, text: &str) -> Result<(), Unanswered> {
        for line in text.lines() {
            self.read(line)?;
        }
        Ok(())
    }
}

/// Reads events from a text, one a line.
fn events(alloc: Global, text: &str) -> Result<Vec<Event>, Unanswered> {
    let mut list = EventList {
        alloc,
        events: Vec::new(alloc),
    };
    list.read_all(text)?;
    Ok(list.events)
}

/// Reads an event from the words of a line.
fn event(alloc: Global, name: &str, given: &[&str]) -> Result<Event, Unanswered> {
    match name {
        "draw" => {
            let [worker] = numbers::<1>(given)?;
            Ok(Event::Draw(worker))
        }
        "pass" => {
            let [worker, net] = numbers::<2>(given)?;
            Ok(Event::Pass(worker, net))
        }
        "close" => {
            if !given.is_empty() {
                return Err(NO_WORDS);
            }
            Ok(Event::Close)
        }
        "commit" => commit(alloc, given),
        _ => Err(Unanswered::Misread(EVENT)),
    }
}

fn commit(alloc: Global, given: &[&str]) -> Result<Event, Unanswered> {
    let [worker, net, tree @ ..] = given else {
        return Err(Unanswered::Misread(COMMIT));
    };
    let (Some(worker), Some(net)) = (number(worker), number(net)) else {
        return Err(NO_NUMBER);
    };
    Ok(Event::Commit(worker, net, tree_of_words(alloc, tree)?))
}

/// Adds a line for each reply.
fn put_replies(replies: &[Reply], out: &mut String) -> Result<(), Unanswered> {
    for reply in replies {
        match reply {
            Reply::Drawn(drawn) => put_drawn(*drawn, out)?,
            Reply::Committed(committed) => put_committed(*committed, out)?,
            Reply::Passed(passed) => put_passed(*passed, out)?,
            Reply::Closed(closed) => put_closed(*closed, out)?,
        }
    }
    Ok(())
}
