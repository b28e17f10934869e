//! Texts that are safe to show on a terminal.

use std::fmt;
use std::fmt::Write;

/// A text that is shown with `?` in place of each control character.
#[derive(Clone, Copy, Debug)]
pub struct Shown<'a> {
    text: &'a str,
    /// Whether line feeds are kept.
    has_lines: bool,
}

impl Shown<'_> {
    /// Returns a text to show within a line.
    pub fn within_line(text: &str) -> Shown<'_> {
        Shown {
            text,
            has_lines: false,
        }
    }

    /// Returns a text of lines to show, which keeps its line feeds.
    pub fn lines(text: &str) -> Shown<'_> {
        Shown {
            text,
            has_lines: true,
        }
    }

    /// Returns the character that is shown for a character of the text.
    fn shown_as(&self, letter: char) -> char {
        if !letter.is_control() || (self.has_lines && letter == '\n') {
            letter
        } else {
            '?'
        }
    }
}

impl fmt::Display for Shown<'_> {
    fn fmt<W: Write>(&self, f: &mut fmt::Formatter<W>) -> fmt::Result {
        for letter in self.text.chars() {
            f.write_char(self.shown_as(letter))?;
        }
        Ok(())
    }
}
