//! What `help` answers, and how a wrong call is written.

use crate::table::CALLS;
use lab_session::answer::added;
use lab_session::unanswered::Unanswered;
use lab_session::words::{Call, number};
use std::fmt;

/// The number of columns of the names of all calls.
const COLUMNS: usize = 80;

/// The end of the names of all calls.
const END: &str = "\
`help CALL` answers how a call is written. FILE is a file, or `<<` and the text below the call, up
to a line `>>`. `quit` ends.";

/// Returns the first word of a line, or no word if the line begins with a blank or is empty.
fn name_on(line: &str) -> &str {
    line.split(' ').next().unwrap_or("")
}

/// Returns whether a text has a word.
fn has_word(text: &str, word: &str) -> bool {
    text.split_whitespace().any(|other| other == word)
}

/// Adds the names of all calls to an answer, in lines of at most `COLUMNS` columns.
fn put_names(out: &mut String) -> Result<(), Unanswered> {
    let mut column = 0;
    for line in CALLS.lines() {
        let name = name_on(line);
        if name.is_empty() || has_word(out.as_str(), name) {
            continue;
        }
        column = put_name(out, column, name)?;
    }
    added(writeln!(out, "\n\n{END}"))
}

/// Adds a name after this many columns of a line, or on the next line if there is no room.
/// Returns the column after it.
fn put_name(out: &mut String, column: usize, name: &str) -> Result<usize, Unanswered> {
    let next = column.saturating_add(1).saturating_add(name.len());
    if column == 0 {
        out.push_str(name)?;
        return Ok(name.len());
    }
    if next > COLUMNS {
        write!(out, "\n{name}")?;
        return Ok(name.len());
    }
    write!(out, " {name}")?;
    Ok(next)
}

/// Adds to an answer each way to write a call, and below it what the call answers.
fn put_call(out: &mut String, name: &str) -> Result<(), Unanswered> {
    let mut is_named = false;
    let mut is_among = false;
    for line in CALLS.lines() {
        let is_answer = line.starts_with(' ');
        if !is_answer && is_named {
            is_among = false;
        }
        is_named = is_answer;
        let is_its = !is_answer && name_on(line) == name;
        is_among |= is_its;
        if is_its || (is_answer && is_among) {
            writeln!(out, "{line}")?;
        }
    }
    Ok(())
}

/// Adds what `help` answers.
pub fn put_help(out: &mut String, given: &[&str]) -> Result<(), Unanswered> {
    match given {
        [] => put_names(out),
        [name] => {
            put_call(out, name)?;
            if out.is_empty() {
                Err(Unanswered::NoCall)
            } else {
                Ok(())
            }
        }
        _ => Err(Unanswered::Misread("help, or help CALL")),
    }
}

/// Returns whether a call makes another one many times.
fn is_many(name: &str) -> bool {
    name == "time" || name == "repeat"
}

/// Returns the name of the call that was written wrong: that of the other call, if one was to be
/// made many times.
pub fn wrong_name<'a>(call: Call<'a>) -> &'a str {
    match call.given {
        [count, inner, ..] if is_many(call.name) && number(count).is_some() && !is_many(inner) => {
            inner
        }
        _ => call.name,
    }
}

/// Returns what the words of a wrong call should be.
pub fn why_of(why: &Unanswered) -> &str {
    match why {
        Unanswered::Misread(text) => *text,
        _ => "",
    }
}

/// How a wrong call is written: its name, and why it was refused.
#[derive(Clone, Copy)]
pub struct Written<'a> {
    pub name: &'a str,
    pub why: &'a str,
}

impl fmt::Display for Written<'_> {
    fn fmt<W: fmt::Write>(&self, f: &mut fmt::Formatter<W>) -> fmt::Result {
        write!(f, "the call is wanted as: ")?;
        let is_written = write_ways(f, self.name)?;
        if !is_written {
            write!(f, "{}", self.why)
        } else if name_on(self.why) == self.name {
            Ok(())
        } else {
            write!(f, " ({})", self.why)
        }
    }
}

/// Writes each way to write a call. Returns whether there is one.
fn write_ways<W: fmt::Write>(f: &mut fmt::Formatter<W>, name: &str) -> Result<bool, fmt::Error> {
    let mut is_written = false;
    for line in CALLS.lines() {
        if name_on(line) != name {
            continue;
        }
        let before = if is_written { ", or " } else { "" };
        write!(f, "{before}{line}")?;
        is_written = true;
    }
    Ok(is_written)
}
