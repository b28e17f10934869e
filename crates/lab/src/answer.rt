//! The answer to the last call, and the lines that a script expects in it.

use crate::help::Written;
use crate::shown::Shown;
use lab_session::answer::added;
use lab_session::unanswered::Unanswered;
use std::fmt;

/// The answer to the last call, and how far it was compared.
#[derive(Drop)]
pub struct Answer {
    pub text: String,
    /// Where in `text` the next line to compare begins.
    compared: usize,
    /// Whether the script has an expected line for it.
    is_asked: bool,
}

/// A line that was expected, and the line of the answer in its place, if there is one.
#[derive(Clone, Copy)]
pub struct Difference<'a> {
    wanted: &'a str,
    got: Option<&'a str>,
}

impl fmt::Display for Difference<'_> {
    fn fmt<W: fmt::Write>(&self, f: &mut fmt::Formatter<W>) -> fmt::Result {
        let wanted = Shown::within_line(self.wanted);
        match self.got {
            Some(got) => {
                let got = Shown::within_line(got);
                write!(f, "wanted {wanted}, got {got}")
            }
            None => write!(f, "wanted {wanted}, got no line"),
        }
    }
}

/// Returns the length of the line at the start of a text.
fn line_length(text: &str) -> usize {
    text.as_bytes()
        .iter()
        .position(|byte| *byte == b'\n')
        .unwrap_or(text.len())
}

impl Answer {
    /// Returns an empty answer in the memory of a text.
    pub fn new(text: String) -> Answer {
        Answer {
            text,
            compared: 0,
            is_asked: false,
        }
    }

    /// Returns the next line to compare, without blanks at its end, if there is one.
    pub fn next_line(&self) -> Option<&str> {
        let rest = self.text.as_str().get(self.compared..)?;
        if rest.is_empty() {
            return None;
        }
        Some(rest.get(..line_length(rest))?.trim_ascii_end())
    }

    /// Returns how the next line of the answer differs from the expected one, if it does.
    pub fn difference<'a>(&'a self, wanted: &'a str) -> Option<Difference<'a>> {
        let got = self.next_line();
        if got == Some(wanted) {
            return None;
        }
        Some(Difference { wanted, got })
    }

    /// Moves on to the line after the one that was compared.
    pub fn go_on(&mut self) {
        self.is_asked = true;
        let rest = self.text.as_str().get(self.compared..).unwrap_or("");
        let next = self
            .compared
            .saturating_add(line_length(rest))
            .saturating_add(1);
        self.compared = next.min(self.text.len());
    }

    /// Returns whether lines are left that had to be compared.
    pub fn is_left(&self) -> bool {
        self.is_asked && self.compared < self.text.len()
    }

    /// Returns whether the last line of the answer isn't ended.
    pub fn has_open_line(&self) -> bool {
        !self.text.is_empty() && !self.text.ends_with('\n')
    }

    /// Clears the answer for another one.
    pub fn begin(&mut self) {
        self.text.clear();
        self.compared = 0;
        self.is_asked = false;
    }

    /// Replaces the answer with the reason why there is none.
    pub fn refuse(&mut self, why: &Unanswered) -> Result<(), Unanswered> {
        self.begin();
        added(writeln!(self.text, "{why}"))
    }

    /// Replaces the answer with how the call is written.
    pub fn correct(&mut self, written: Written<'_>) -> Result<(), Unanswered> {
        self.begin();
        added(writeln!(self.text, "{written}"))
    }
}
