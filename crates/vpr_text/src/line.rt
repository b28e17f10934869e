//! The logical lines of a text, as ranges of its bytes.

ghost use Rattle.std.specs.Prelude.{◌≡◌, ◌<◌, ◌==◌, length, slice_get};
ghost use Rattle.std.specs.Option.{option_copied};
ghost use Rattle.vpr_text.specs.Words.{Line, number_at, words_at};

use std::marker::Model;

/// Where a word is in the source.
#[derive(Clone, Copy, Debug)]
pub(crate) struct ByteRange {
    pub(crate) start: u32,
    pub(crate) end: u32,
}

/// A line: the number of its first physical line, and its words by their place among all words.
#[derive(Clone, Copy, Debug)]
pub(crate) struct LineEntry {
    pub(crate) number: u32,
    pub(crate) first: u32,
    pub(crate) count: u32,
}

/// The logical lines of a text that have words. Words are slices of the text that was split.
#[derive(Debug, Drop)]
pub struct Lines<'a> {
    source: &'a [u8],
    ranges: Vec<ByteRange>,
    entries: Vec<LineEntry>,
}

impl<'a> Model for Lines<'a> {
    ghost use Rattle.std.specs.Prelude.{List};
    ghost use Rattle.vpr_text.specs.Words.{Line};
    ghost use Rattle.vpr_text.specs.kept.Split.{lines_in, AreEntriesOf};

    ghost Value = { List Line };

    ghost view = { λ t. lines_in t.source.now t.ranges.items t.entries.items };

    ghost invariant = { λ t. AreEntriesOf t.source.now t.ranges.items t.entries.items };
}

impl<'a> Lines<'a> {
    ghost use Rattle.vpr_text.specs.kept.Split.{lines_in, AreEntriesOf};

    pub(crate) fn from_parts(
        source: &'a [u8],
        ranges: Vec<ByteRange>,
        entries: Vec<LineEntry>,
    ) -> Lines<'a>
        requires { AreEntriesOf source.now ranges.items entries.items }
        ensures { result ≡ lines_in source.now ranges.items entries.items }
    {
        Lines {
            source,
            ranges,
            entries,
        }
    }

    /// How many lines there are.
    pub fn len(&self) -> usize
        ensures { result ≡ length self.now }
    {
        self.entries.len()
    }

    /// Whether there are none.
    pub fn is_empty(&self) -> bool
        ensures { result ≡ (length self.now == 0) }
    {
        self.entries.is_empty()
    }

    /// The number of line `i`: that of its first physical line, counted from 1.
    pub fn at(&self, i: usize) -> u32
        requires { i < length self.now }
        ensures { result ≡ number_at self.now i }
    {
        self.entries[i].number
    }

    /// How many words line `i` has.
    pub fn words(&self, i: usize) -> usize
        requires { i < length self.now }
        ensures { result ≡ length (words_at self.now i) }
    {
        self.entries[i].count as usize
    }

    /// Word `j` of line `i`, if there is that line and it has one.
    pub fn word(&self, i: usize, j: usize) -> Option<&'a [u8]>
        ensures { option_copied result ≡ slice_get (words_at self.now i) j }
    {
        let entry = *self.entries.get(i)?;
        if j < entry.count as usize {
            let range = self.ranges[entry.first as usize + j];
            let source = self.source;
            Some(&source[range.start as usize..range.end as usize])
        } else {
            None
        }
    }
}
