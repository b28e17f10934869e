//! Texts for people: names and lines without control characters, so that no hostile text reaches a
//! terminal.

ghost use Rattle.std.specs.Prelude.{◌≤◌, length};

use std::alloc::{AllocError, Global};
use std::fmt;
use std::io::{Result as IoResult, Write};

/// The character that is shown in place of a control character.
const REPLACED: char = '?';

/// The first of the two bytes of U+0080 to U+00BF in UTF-8.
const LEAD: u8 = 0xc2;

/// Returns the character that is shown for one: `?` for a control character (U+0000 to U+001F,
/// U+007F to U+009F).
fn shown_as(letter: char) -> char {
    if letter.is_control() {
        REPLACED
    } else {
        letter
    }
}

/// A name, printed with `?` in place of each control character.
#[derive(Clone, Copy)]
pub struct Plain<'a>(pub &'a str);

impl fmt::Display for Plain<'_> {
    fn fmt<W: fmt::Write>(&self, f: &mut fmt::Formatter<W>) -> fmt::Result {
        for letter in self.0.chars() {
            f.write_char(shown_as(letter))?;
        }
        Ok(())
    }
}

/// Returns a name with `?` in place of each control character.
pub fn shown(alloc: Global, name: &str) -> Result<String, AllocError> {
    let mut text = String::new(alloc);
    for letter in name.chars() {
        text.push(shown_as(letter))?;
    }
    Ok(text)
}

/// Returns whether a byte is a control character by itself. A line feed isn't, since it ends lines.
fn is_control(byte: u8) -> bool {
    (byte < b' ' && byte != b'\n') || byte == 0x7f
}

/// Returns whether a byte after `LEAD` makes a control character with it.
fn is_second(byte: u8) -> bool {
    (0x80..=0x9f).contains(&byte)
}

/// Returns whether a byte is passed on as it is, whatever comes after it.
fn is_plain(byte: u8) -> bool {
    byte != LEAD && !is_control(byte)
}

/// Returns the length of the front that is passed on as it is.
fn plain_front(bytes: &[u8]) -> usize
    ensures { result ≤ length bytes.now }
{
    let length = bytes.iter().take_while(|byte| is_plain(**byte)).count();
    length.min(bytes.len())
}

/// A writer that passes bytes on with `?` in place of each control character other than a line
/// feed. If it isn't watched, on a terminal, it passes on all bytes as they are.
#[derive(Drop)]
pub struct PlainWriter<W> {
    out: W,
    is_watched: bool,
    /// Whether the last byte was `LEAD`, which waits for the next one.
    has_lead: bool,
}

impl<W: Write> PlainWriter<W> {
    pub fn new(out: W, is_watched: bool) -> PlainWriter<W> {
        PlainWriter {
            out,
            is_watched,
            has_lead: false,
        }
    }

    /// Passes on one byte that isn't plain.
    fn write_odd(&mut self, byte: u8) -> IoResult<()> {
        if byte == LEAD {
            self.has_lead = true;
            return Ok(());
        }
        self.out.write_all(b"?")
    }

    /// Passes on the byte after `LEAD`, together with it.
    fn write_second(&mut self, byte: u8) -> IoResult<()> {
        self.has_lead = false;
        if is_second(byte) {
            return self.out.write_all(b"?");
        }
        self.out.write_all(&[LEAD])?;
        if is_plain(byte) {
            self.out.write_all(&[byte])
        } else {
            self.write_odd(byte)
        }
    }

    /// Passes on a front of the bytes, and returns its length.
    fn write_front(&mut self, bytes: &[u8]) -> IoResult<usize> {
        let Some(first) = bytes.first() else {
            return Ok(0);
        };
        let first = *first;
        if self.has_lead {
            self.write_second(first)?;
            return Ok(1);
        }
        let length = plain_front(bytes);
        if length > 0 {
            return self.out.write(&bytes[..length]);
        }
        self.write_odd(first)?;
        Ok(1)
    }
}

impl<W: Write> Write for PlainWriter<W> {
    ghost use Rattle.std.specs.Prelude.{None, if◌then◌else◌};

    // What is passed on as it is; on a terminal other bytes may take the place of some.
    ghost contents = { λ w. if w.is_watched then None else W.contents w.out };

    fn write(&mut self, bytes: &[u8]) -> IoResult<usize> {
        if self.is_watched {
            let count = self.write_front(bytes)?;
            return Ok(count.min(bytes.len()));
        }
        self.out.write(bytes)
    }

    fn flush(&mut self) -> IoResult<()> {
        self.out.flush()
    }
}
