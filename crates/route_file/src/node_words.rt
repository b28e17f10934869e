//! The words of a node's line, where `(`, `,` and `)` separate words too.

ghost use Rattle.std.specs.Prelude.{◌≡◌, ◌<◌, ◌≤◌, ◌∷◌, ◌++◌, [], not, length, slice_get, MatchOption};
ghost use Rattle.std.specs.Option.{option_copied};
ghost use Rattle.std.specs.List.{position, position_or_len};
ghost use Rattle.vpr_text.specs.Word.{is_at, number_in};
ghost use Rattle.route_file.specs.kept.NodeTexts.{CutsPiece, CutsWords};
ghost use Rattle.route_file.specs.NodeWords.{is_mark, pieces_of, node_words};

use std::marker::Model;
use vpr_text::{Words, is_text, number};

/// The greatest number of words that a node's line may have.
const MOST_WORDS: usize = 8;

/// Whether the byte separates words in a node's line.
fn is_mark(byte: u8) -> bool
    ensures { result ≡ is_mark byte }
{
    byte == b'(' || byte == b')' || byte == b','
}

/// The place of the first byte that is no separator.
fn piece_at(word: &[u8]) -> Option<usize>
    ensures { result ≡ position (λ b. not (is_mark b)) word.now }
{
    word.iter().position(|b| !is_mark(*b))
}

/// The place of the first separator.
fn first_mark(word: &[u8]) -> Option<usize>
    ensures { result ≡ position is_mark word.now }
{
    word.iter().position(|b| is_mark(*b))
}

/// The place of the first separator, or the end.
#[tactic(auto, using(crate::proofs::Pieces::no_mark))]
fn mark_at(word: &[u8]) -> usize
    ensures place { result ≡ position_or_len is_mark word.now }
    ensures within { result ≤ length word.now }
{
    match first_mark(word) {
        Some(place) => place,
        None => word.len(),
    }
}

/// The first piece of a word, and what comes after it.
#[tactic(auto, using(crate::proofs::Pieces::no_piece, crate::proofs::Pieces::one_piece))]
fn first_piece(word: &[u8]) -> Option<(&[u8], &[u8])>
    ensures { CutsPiece word.now result }
{
    let start = piece_at(word)?;
    let rest = word.split_at(start).1;
    Some(rest.split_at(mark_at(rest)))
}

/// The words of a node's line, at most eight.
#[derive(Drop)]
pub(crate) struct NodeWords<'a> {
    words: [&'a [u8]; 8],
    count: usize,
}

impl<'a> Model for NodeWords<'a> {
    ghost use Rattle.std.specs.Prelude.{ℕ, List, ◌≤◌};
    ghost use Rattle.route_file.specs.kept.Fields.{words_in};

    ghost Value = { List (List ℕ) };

    ghost view = { words_in };

    ghost invariant = { λ w. w.count ≤ 8 };
}

impl<'a> NodeWords<'a> {
    /// No words.
    fn new() -> NodeWords<'a>
        ensures { result ≡ [] }
    {
        NodeWords {
            words: [&[]; 8],
            count: 0,
        }
    }

    pub(crate) fn len(&self) -> usize
        ensures count { result ≡ length self.now }
        ensures limit { result ≤ 8 }
    {
        self.count
    }

    /// Adds a word.
    fn push(&mut self, word: &'a [u8])
        requires { length self.old < 8 }
        ensures { self.new ≡ self.old ++ word.now ∷ [] }
    {
        self.words[self.count] = word;
        self.count += 1;
    }

    /// Adds the pieces of a word, and returns whether there was room for all of them.
    #[tactic(auto, using(crate::proofs::Pieces::piece_kept, crate::proofs::Pieces::piece_more, crate::proofs::Pieces::pieces_done))]
    fn push_pieces(&mut self, word: &'a [u8]) -> bool
        ensures { CutsWords self.old self.new (pieces_of word.now) result }
    {
        let mut rest = word;
        while let Some((piece, behind)) = first_piece(rest) {
            if self.len() == MOST_WORDS {
                return false;
            }
            self.push(piece);
            rest = behind;
        }
        true
    }

    /// The words of a node's line, unless there are more than eight.
    #[tactic(auto, using(crate::proofs::Pieces::word_kept, crate::proofs::Pieces::word_more, crate::proofs::Pieces::words_done), unfolding(crate::specs::NodeWords::node_words))]
    pub(crate) fn of_line(words: Words<'_, 'a>) -> Option<NodeWords<'a>>
        ensures { MatchOption result (8 < length (node_words words.entry))
            (λ w. w ≡ node_words words.entry) }
    {
        let mut all = NodeWords::new();
        for word in words {
            if !all.push_pieces(word) {
                return None;
            }
        }
        Some(all)
    }

    /// Word `j`, counted from 0, if there is one.
    pub(crate) fn get(&self, j: usize) -> Option<&'a [u8]>
        ensures { option_copied result ≡ slice_get self.now j }
    {
        if j < self.count {
            Some(self.words[j])
        } else {
            None
        }
    }

    /// Whether word `j` is this text.
    pub(crate) fn is(&self, j: usize, text: &str) -> bool
        ensures { result ≡ is_at self.now j text.now }
    {
        match self.get(j) {
            Some(word) => is_text(word, text),
            None => false,
        }
    }

    /// Word `j` as a number.
    pub(crate) fn number(&self, j: usize) -> Option<u32>
        ensures { result ≡ number_in self.now j }
    {
        number(self.get(j)?)
    }
}
