//! The answers of calls, in lines of text.

use crate::unanswered::Unanswered;
use std::alloc::AllocError;
use std::fmt::{Debug, Display};

/// Converts the result of adding to an answer: an `AllocError` becomes `Unanswered::Memory`.
pub fn added(answer: Result<(), AllocError>) -> Result<(), Unanswered> {
    match answer {
        Ok(()) => Ok(()),
        Err(AllocError) => Err(Unanswered::Memory),
    }
}

/// Adds a line with a value.
pub fn put(out: &mut String, value: impl Display + Drop) -> Result<(), Unanswered> {
    added(writeln!(out, "{value}"))
}

/// Adds a line with a value in its `Debug` form, which has the libraries' names.
pub fn put_named(out: &mut String, value: impl Debug + Drop) -> Result<(), Unanswered> {
    added(writeln!(out, "{value:?}"))
}

/// Adds a line with a value, or with `none`.
pub fn put_maybe(out: &mut String, value: Option<impl Display + Drop>) -> Result<(), Unanswered> {
    match value {
        Some(value) => put(out, value),
        None => put(out, "none"),
    }
}

/// Adds a line with a value in its `Debug` form, or with `none`.
pub fn put_maybe_named(
    out: &mut String,
    value: Option<impl Debug + Drop>,
) -> Result<(), Unanswered> {
    match value {
        Some(value) => put_named(out, value),
        None => put(out, "none"),
    }
}

/// Adds a line with numbers, or with `none` if there are none.
pub fn put_numbers(out: &mut String, numbers: &[u32]) -> Result<(), Unanswered> {
    let [first, rest @ ..] = numbers else {
        return put(out, "none");
    };
    write!(out, "{first}")?;
    for number in rest {
        write!(out, " {number}")?;
    }
    added(out.push('\n'))
}

/// Adds names, each with its number, to a line, with commas between them.
pub fn put_labelled(out: &mut String, numbers: &[(&str, u64)]) -> Result<(), Unanswered> {
    let mut comma = "";
    for (label, number) in numbers {
        write!(out, "{comma}{label} {number}")?;
        comma = ", ";
    }
    Ok(())
}

/// Adds a name to a line. A name that isn't UTF-8 is added as a list of bytes.
pub fn put_name(out: &mut String, name: &[u8]) -> Result<(), Unanswered> {
    match str::from_utf8(name) {
        Ok(name) => out.push_str(name)?,
        Err(_) => write!(out, "{name:?}")?,
    }
    Ok(())
}
