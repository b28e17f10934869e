//! Answers to the events of a book.

use crate::answer::{put, put_maybe, put_named};
use crate::unanswered::Unanswered;
use congestion_book::{CommitFault, DrawFault, PassFault};

/// Adds the answer to a draw.
pub fn put_drawn(
    drawn: Result<Option<u32>, DrawFault>,
    out: &mut String,
) -> Result<(), Unanswered> {
    match drawn {
        Ok(net) => put_maybe(out, net),
        Err(fault) => put_named(out, fault),
    }
}

/// Adds the answer to a commit.
pub fn put_committed(
    committed: Result<(), CommitFault>,
    out: &mut String,
) -> Result<(), Unanswered> {
    match committed {
        Ok(()) => put(out, "committed"),
        Err(fault) => put_named(out, fault),
    }
}

/// Adds the answer to a pass.
pub fn put_passed(passed: Result<(), PassFault>, out: &mut String) -> Result<(), Unanswered> {
    match passed {
        Ok(()) => put(out, "passed"),
        Err(fault) => put_named(out, fault),
    }
}
