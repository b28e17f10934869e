//! Calls of `runs`: the lines of faults, and their exit statuses.

use crate::run_calls::put_taken;
use lab_session::answer::put;
use lab_session::sinks::{ShortSink, sink};
use lab_session::unanswered::Unanswered;
use lab_session::words::Call;
use run_inputs::{AppFault, InputFile, print_fault, status};
use std::alloc::Global;

/// The syntax of the call.
const FAULT: &str = "fault_line unwritten, memory, no_thread, astray, or unread and a file's kind";

/// Makes a call, and adds its answer.
pub fn call(
    alloc: Global,
    room: Option<usize>,
    call: Call<'_>,
    out: &mut String,
) -> Result<(), Unanswered> {
    match call.name {
        "fault_line" => put_line(alloc, room, fault(call.given)?, out),
        _ => Err(Unanswered::NoCall),
    }
}

/// Reads a fault from words.
fn fault(given: &[&str]) -> Result<AppFault, Unanswered> {
    match given {
        [word, file] if *word == "unread" => Ok(AppFault::Unread(input_file(*file)?)),
        [word] => other_fault(*word),
        _ => Err(Unanswered::Misread(FAULT)),
    }
}

/// Reads a fault from one word.
fn other_fault(word: &str) -> Result<AppFault, Unanswered> {
    match word {
        "unwritten" => Ok(AppFault::Unwritten),
        "memory" => Ok(AppFault::Memory),
        "no_thread" => Ok(AppFault::NoThread),
        "astray" => Ok(AppFault::Astray),
        _ => Err(Unanswered::Misread(FAULT)),
    }
}

/// Returns the file that a word names.
fn input_file(kind: &str) -> Result<InputFile, Unanswered> {
    match kind {
        "arch" => Ok(InputFile::Arch),
        "net" => Ok(InputFile::Net),
        "place" => Ok(InputFile::Place),
        "route" => Ok(InputFile::Route),
        _ => Err(Unanswered::Misread(FAULT)),
    }
}

/// Adds the status of a fault, what a sink took of its line, and `broken` if that isn't all.
fn put_line(
    alloc: Global,
    room: Option<usize>,
    fault: AppFault,
    out: &mut String,
) -> Result<(), Unanswered> {
    let mut printed = sink(alloc, room);
    let answer = print_fault(&fault, &mut printed);
    put_printed(&fault, answer.is_ok(), &printed.into_inner(), out)
}

/// Adds the status of a fault, what a sink took of its line, and `broken` if that isn't all.
fn put_printed(
    fault: &AppFault,
    is_whole: bool,
    printed: &ShortSink,
    out: &mut String,
) -> Result<(), Unanswered> {
    if printed.lacked {
        return Err(Unanswered::Memory);
    }
    writeln!(out, "status {}", status(fault))?;
    put_taken("out", printed, out)?;
    if is_whole { Ok(()) } else { put(out, "broken") }
}
