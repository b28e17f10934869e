//! The sources that calls read texts from.

use crate::session::RunText;
use crate::unanswered::{FileFault, Unanswered};
use crate::words::{Call, NO_NUMBER, number};
use std::alloc::Global;
use std::fs;
use std::io::{Error, ErrorKind, Read, Result as IoResult};
use std::rt::Runtime;
use vpr_text::{Adapted, read_all};

/// The word for the text below the line of a call.
pub const BELOW: &str = "<<";

/// A reader that fails after a number of bytes, or never.
#[derive(Drop)]
pub struct Failing<R> {
    inner: R,
    left: Option<usize>,
}

impl<R: Read> Read for Failing<R> {
    fn read(&mut self, buffer: &mut [u8]) -> IoResult<usize> {
        let Some(left) = self.left else {
            return self.inner.read(buffer);
        };
        if left == 0 {
            return Err(Error::from(ErrorKind::Other));
        }
        let most = left.min(buffer.len());
        let count = self.inner.read(&mut buffer[..most])?;
        self.left = Some(left - count);
        Ok(count)
    }
}

/// Returns the number of bytes after which a source fails, if the last words of a call give one.
pub fn bytes_before_failing(given: &[&str]) -> Result<Option<usize>, Unanswered> {
    match given {
        [] => Ok(None),
        [word, count] if *word == "failing" => match number(count) {
            Some(count) => Ok(Some(count as usize)),
            None => Err(NO_NUMBER),
        },
        _ => Err(Unanswered::Misread("NAME FILE, NAME FILE failing N, or with `<<` for FILE")),
    }
}

/// Returns all bytes of a source that fails after `left` bytes, or never.
fn bytes_of<R: Read + Drop>(
    alloc: Global,
    inner: R,
    left: Option<usize>,
) -> Result<Vec<u8>, Unanswered> {
    let mut source = Adapted::new(Failing { inner, left });
    Ok(read_all(alloc, &mut source)?)
}

/// Returns a source of these bytes that fails after `left` of them, or never.
pub fn failing_source(bytes: &[u8], left: Option<usize>) -> Adapted<Failing<&[u8]>> {
    Adapted::new(Failing { inner: bytes, left })
}

/// Returns the bytes of the file of this name, or of the text below a call. The source that they
/// are read from fails after `left` bytes, or never.
fn named_source(
    rt: &(impl Runtime + AllocGlobal),
    name: &str,
    text: &[u8],
    left: Option<usize>,
) -> Result<Vec<u8>, Unanswered> {
    if name == BELOW {
        return bytes_of(rt.alloc(), text, left);
    }
    match fs::open(rt, name) {
        Ok(file) => bytes_of(rt.alloc(), file, left),
        Err(_) => Err(Unanswered::File(FileFault::Unopened)),
    }
}

/// The file that a call names, or `<<`, and the number of bytes after which its source fails, if it
/// does.
#[derive(Clone, Copy)]
struct NamedFile<'a> {
    name: &'a str,
    left: Option<usize>,
}

/// Reads the file that the words of a call name.
fn named_file<'a>(given: &[&'a str]) -> Result<NamedFile<'a>, Unanswered> {
    let [name, rest @ ..] = given else {
        return Err(Unanswered::Misread("NAME FILE"));
    };
    let left = bytes_before_failing(rest)?;
    Ok(NamedFile { name: *name, left })
}

/// Returns the bytes of the file that a call names, or of the text below it. If the last words of
/// the call give a number of bytes, the source fails after that many.
pub fn source(rt: &(impl Runtime + AllocGlobal), call: Call<'_>) -> Result<Vec<u8>, Unanswered> {
    let NamedFile { name, left } = named_file(call.given)?;
    named_source(rt, name, call.text, left)
}

/// Returns the text of a file for runs: all bytes of the file that a call names, or of the text
/// below it, and the number of bytes after which a run's source of them fails, if it does.
pub fn run_text(rt: &(impl Runtime + AllocGlobal), call: Call<'_>) -> Result<RunText, Unanswered> {
    let NamedFile { name, left } = named_file(call.given)?;
    let bytes = named_source(rt, name, call.text, None)?;
    Ok(RunText {
        bytes,
        failing: left,
    })
}
