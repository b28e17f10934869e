//! The words of a line, from one of them on.

ghost use Rattle.std.specs.Prelude.{◌≡◌, drop, length, slice_get};
ghost use Rattle.std.specs.Option.{option_copied};
ghost use Rattle.vpr_text.specs.Words.{number_at, words_at};
ghost use Rattle.vpr_text.specs.Word.{is_text, has, word_at, is_at, number_in, fixed_in, is_number, number_or_0};

use crate::line::Lines;
use crate::numbers::{fixed, number};
use std::marker::Model;

/// How many words line `i` has; none past the last line.
fn word_count(lines: &Lines, i: usize) -> usize
    ensures { result ≡ length (words_at lines.now i) }
{
    if i < lines.len() { lines.words(i) } else { 0 }
}

/// The number of line `i`, which faults give; 0 past the last line.
pub fn line_number(lines: &Lines, i: usize) -> u32
    ensures { result ≡ number_at lines.now i }
{
    if i < lines.len() { lines.at(i) } else { 0 }
}

/// Whether a word is this text.
#[tactic(auto, unfolding(crate::specs::Word::is_text))]
pub fn is_text(word: &[u8], text: &str) -> bool
    ensures { result ≡ is_text word.now text.now }
{
    word == text.as_bytes()
}

/// The words of a line, from one of them on. As an iterator it gives them in their order.
#[derive(Drop)]
pub struct Words<'t, 'a> {
    lines: &'t Lines<'a>,
    line: usize,
    from: usize,
}

impl<'t, 'a> Model for Words<'t, 'a> {
    ghost use Rattle.std.specs.Prelude.{ℕ, List, ◌≤◌, length, drop};
    ghost use Rattle.vpr_text.specs.Words.{words_at};

    ghost Value = { List (List ℕ) };

    ghost view = { λ w. drop w.from (words_at w.lines.now w.line) };

    ghost invariant = { λ w. w.from ≤ length (words_at w.lines.now w.line) };
}

impl<'t, 'a> Words<'t, 'a> {
    /// The words of line `line`, counted from 0; none past the last line.
    pub fn new(lines: &'t Lines<'a>, line: usize) -> Self
        ensures { result ≡ words_at lines.now line }
    {
        Words {
            lines,
            line,
            from: 0,
        }
    }

    /// The words after the first `count` of these.
    pub fn rest(&self, count: usize) -> Words<'t, 'a>
        ensures { result ≡ drop count self.now }
    {
        let total = word_count(self.lines, self.line);
        Words {
            lines: self.lines,
            line: self.line,
            from: self.from + count.min(total - self.from),
        }
    }

    /// How many words there are.
    pub fn len(&self) -> usize
        ensures { result ≡ length self.now }
    {
        word_count(self.lines, self.line) - self.from
    }

    /// Whether word `j` is there. Words are counted from 0.
    pub fn has(&self, j: usize) -> bool
        ensures { result ≡ has self.now j }
    {
        j < self.len()
    }

    /// Word `j`, if there is one.
    pub fn get(&self, j: usize) -> Option<&'a [u8]>
        ensures { option_copied result ≡ slice_get self.now j }
    {
        let total = word_count(self.lines, self.line);
        if j < total - self.from {
            self.lines.word(self.line, self.from + j)
        } else {
            None
        }
    }

    /// Word `j`; past the last one a word without bytes.
    pub fn word(&self, j: usize) -> &'a [u8]
        ensures { result.now ≡ word_at self.now j }
    {
        match self.get(j) {
            Some(word) => word,
            None => &[],
        }
    }

    /// Whether word `j` is this text.
    pub fn is(&self, j: usize, text: &str) -> bool
        ensures { result ≡ is_at self.now j text.now }
    {
        match self.get(j) {
            Some(word) => is_text(word, text),
            None => false,
        }
    }

    /// Word `j` as a number, if it is one.
    pub fn number(&self, j: usize) -> Option<u32>
        ensures { result ≡ number_in self.now j }
    {
        number(self.get(j)?)
    }

    /// Word `j` as a number with decimals, in units of 10^-9, if it is one.
    pub fn fixed(&self, j: usize) -> Option<u64>
        ensures { result ≡ fixed_in self.now j }
    {
        fixed(self.get(j)?)
    }

    /// Whether word `j` is a number.
    pub fn is_number(&self, j: usize) -> bool
        ensures { result ≡ is_number self.now j }
    {
        self.number(j).is_some()
    }

    /// The number that word `j` is; 0 where it is none.
    pub fn number_or_0(&self, j: usize) -> u32
        ensures { result ≡ number_or_0 self.now j }
    {
        self.number(j).unwrap_or(0)
    }
}

impl<'t, 'a> Iterator for Words<'t, 'a> {
    type Item = &'a [u8];

    ghost use Rattle.std.specs.Iterator.{YieldsFirstRef, item_count};

    ghost next_gives = { YieldsFirstRef (λ s. s) };

    ghost remaining = { item_count (λ s. s) };

    fn next(&mut self) -> Option<&'a [u8]> {
        match self.get(0) {
            Some(word) => {
                let total = word_count(self.lines, self.line);
                prove!(self.from < total);
                self.from += 1;
                Some(word)
            }
            None => None,
        }
    }
}
