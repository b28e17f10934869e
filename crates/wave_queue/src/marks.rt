//! Marks of places: a bit for each place, 64 in a word.

ghost use Rattle.std.specs.Prelude.{◌≡◌, ℕ, ◌*◌, ◌<◌, ◌≤◌, length};
ghost use Rattle.wave_queue.specs.kept.Marks.{AreMarksFrom, mark_at, Marks, Unmarks};

use crate::bits::{lowest_bit, with_bit, without_bit};

/// Marks a place.
#[inline(always)]
pub(crate) fn mark(words: &mut [u64], place: usize)
    requires { place < 64 * length words.old }
    ensures { Marks words.old words.new place }
{
    let word = &mut words[place / 64];
    *word = with_bit(*word, (place % 64) as u32);
}

/// Removes the mark of a place.
#[inline(always)]
pub(crate) fn unmark(words: &mut [u64], place: usize)
    requires { place < 64 * length words.old }
    ensures { Unmarks words.old words.new place }
{
    let word = &mut words[place / 64];
    *word = without_bit(*word, (place % 64) as u32);
}

/// Returns the marks from a place on, as far as they are in its word.
#[inline(always)]
fn marks_from(words: &[u64], place: usize) -> u64
    requires { place < 64 * length words.now }
    ensures { AreMarksFrom words.now place result }
{
    words[place / 64] >> (place % 64)
}

/// Returns the first marked place from `low` on. If none is marked before `end`, the result is not
/// before `end`.
pub(crate) fn first_marked(words: &[u64], low: usize, end: usize) -> usize
    requires { end ≤ 64 * length words.now }
    ensures from { low ≤ result }
    ensures off { (i : ℕ) → low ≤ i → i < result → mark_at words.now i ≡ 0 }
    ensures on { result < end → mark_at words.now result ≡ 1 }
{
    let mut at = low;
    while at < end {
        let marks = marks_from(words, at);
        if marks != 0 {
            return at + lowest_bit(marks) as usize;
        }
        at = (at / 64 + 1).saturating_mul(64);
    }
    at
}
