//! The line after each answer, which shows a program that drives `lab` where the answer ends.

use lab_session::unanswered::Unanswered;
use std::alloc::Global;

/// The word of the line, if there is one.
#[derive(Drop)]
pub struct Mark {
    /// Empty if there is no line.
    word: String,
}

impl Mark {
    /// Returns that there is no line.
    pub fn none(alloc: Global) -> Mark {
        Mark {
            word: String::new(alloc),
        }
    }

    /// Returns whether there is no line.
    pub fn is_none(&self) -> bool {
        self.word.is_empty()
    }

    pub fn word(&self) -> &str {
        self.word.as_str()
    }

    /// Sets the word to the one that is given, if one is.
    pub fn set(&mut self, given: &[&str]) -> Result<(), Unanswered> {
        self.word.clear();
        match given {
            [] => Ok(()),
            [word] => Ok(self.word.push_str(word)?),
            _ => Err(Unanswered::Misread("mark WORD, or mark")),
        }
    }
}
