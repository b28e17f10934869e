//! Calls of `vpr_text`: the lines and words of a text, and numbers.

use lab_session::answer::{added, put, put_maybe, put_name};
use lab_session::sources::source;
use lab_session::unanswered::Unanswered;
use lab_session::words::{Call, one};
use std::alloc::Global;
use std::rt::Runtime;
use vpr_text::{Lines, fixed, is_decimal, lines, number};

/// Makes a call, and adds its answer.
pub fn call(
    rt: &(impl Runtime + AllocGlobal),
    call: Call<'_>,
    out: &mut String,
) -> Result<(), Unanswered> {
    match call.name {
        "read" | "lines" => put_source(rt, call, out),
        "number" | "fixed" | "is_decimal" => look_up(call.name, one(call.given)?.as_bytes(), out),
        _ => Err(Unanswered::NoCall),
    }
}

/// Reads the file or the text that a call names, and adds its number of bytes, or its lines.
fn put_source(
    rt: &(impl Runtime + AllocGlobal),
    call: Call<'_>,
    out: &mut String,
) -> Result<(), Unanswered> {
    let text = source(rt, call)?;
    put_text(rt.alloc(), call.name, text.as_slice(), out)
}

/// Adds the number of bytes of a text, or its lines.
fn put_text(alloc: Global, name: &str, text: &[u8], out: &mut String) -> Result<(), Unanswered> {
    match name {
        "read" => put(out, text.len()),
        _ => put_lines(alloc, text, out),
    }
}

/// Adds the number that a word gives, or whether it is a decimal.
fn look_up(name: &str, word: &[u8], out: &mut String) -> Result<(), Unanswered> {
    match name {
        "number" => put_maybe(out, number(word)),
        "fixed" => put_maybe(out, fixed(word)),
        _ => put(out, is_decimal(word)),
    }
}

/// Adds the lines of a text, each with its number and its words.
fn put_lines(alloc: Global, text: &[u8], out: &mut String) -> Result<(), Unanswered> {
    let lines = lines(alloc, text)?;
    for i in 0..lines.len() {
        put_line(&lines, i, out)?;
    }
    Ok(())
}

/// Adds line `i` of a text, or nothing if there is none.
fn put_line(lines: &Lines<'_>, i: usize, out: &mut String) -> Result<(), Unanswered> {
    if i >= lines.len() {
        return Ok(());
    }
    write!(out, "{}:", lines.at(i))?;
    for j in 0..lines.words(i) {
        out.push(' ')?;
        put_name(out, lines.word(i, j).unwrap_or(b""))?;
    }
    added(out.push('\n'))
}
