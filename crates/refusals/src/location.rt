//! The line and the word of a file that a fault is on, and both as they are shown.

ghost use Rattle.std.specs.Prelude.{◌≡◌, ◌+◌, ◌<◌, ◌≤◌, ◌==◌, IfSome, length, map, slice_get, string_bytes, take};
ghost use Rattle.std.specs.Option.{option_copied};
ghost use Rattle.std.specs.List.{before_first, position, position_or_len, slice_split};
ghost use Rattle.vpr_text.specs.Words.{goes_on, is_comment_sign, is_line_feed, is_separator, words_between, words_at, words_on};
ghost use Rattle.refusals.specs.kept.Locations.{most_shown, offending_word, physical_line, place_in, shown_byte, shown_text, word_among, IsShownWord};

use crate::advice::Offender;
use std::alloc::Global;
use vpr_text::{Lines, lines};

/// The greatest number of bytes shown of a line or a word.
const MOST_SHOWN: usize = 200;

/// Returns the character that is shown for a byte.
fn shown_as(byte: u8) -> char
    ensures { result ≡ shown_byte byte }
{
    match byte {
        b'\t' => ' ',
        b' '..=b'~' => char::from(byte),
        _ => '?',
    }
}

/// Returns the first `MOST_SHOWN` bytes of a piece, or all if it has fewer.
#[tactic(auto, using(std::proofs::lemmas::List::take_min))]
fn front_of(piece: &[u8]) -> &[u8]
    ensures { result.now ≡ take most_shown piece.now }
{
    &piece[..MOST_SHOWN.min(piece.len())]
}

/// Returns bytes as they are shown. Returns `None` if memory runs out.
fn all_shown(alloc: Global, bytes: &[u8]) -> Option<String>
    ensures { IfSome result (λ text. string_bytes text ≡ map shown_byte bytes.now) }
{
    let mut text = String::new(alloc);
    for byte in bytes {
        text.push(shown_as(*byte)).ok()?;
    }
    Some(text)
}

/// Returns a piece of a file as it is shown: its first `MOST_SHOWN` bytes, with a blank for each
/// tab and `?` for each other byte that isn't printable. Returns `None` if memory runs out.
pub(crate) fn shown(alloc: Global, piece: &[u8]) -> Option<String>
    ensures { IfSome result (λ text. string_bytes text ≡ shown_text piece.now) }
{
    all_shown(alloc, front_of(piece))
}

/// Returns the physical line at a place, if there is one.
fn line_in_place(bytes: &[u8], place: usize) -> Option<&[u8]>
    ensures { option_copied result ≡ slice_get (slice_split is_line_feed bytes.now) place }
{
    bytes.split(|byte| *byte == b'\n').nth(place)
}

/// Returns the bytes of a physical line of a file, or none if there is no such line.
pub(crate) fn line_of(bytes: &[u8], number: u32) -> &[u8]
    ensures { result.now ≡ physical_line bytes.now number }
{
    match number.checked_sub(1) {
        Some(place) => line_in_place(bytes, place as usize).unwrap_or(&[]),
        None => &[],
    }
}

/// Returns the place where a comment begins, or the end if there is none.
fn comment_in(text: &[u8]) -> usize
    ensures place { result ≡ position_or_len is_comment_sign text.now }
    ensures within { result ≤ length text.now }
{
    for place in 0..text.len() {
        if text[place] == b'#' {
            return place;
        }
    }
    text.len()
}

/// Returns the bytes of a physical line before its comment.
fn before_comment(text: &[u8]) -> &[u8]
    ensures { result.now ≡ before_first is_comment_sign text.now }
{
    &text[..comment_in(text)]
}

/// Returns whether a byte separates words.
fn is_separator(byte: u8) -> bool
    ensures { result ≡ is_separator byte }
{
    matches!(byte, b'\t' | b'\x0b' | b'\x0c' | b'\r' | b' ')
}

/// Returns whether the last byte that separates no words is a backslash.
fn ends_in_backslash(text: &[u8]) -> bool
    ensures { result ≡ goes_on (words_between text.now) }
{
    let mut is_last = false;
    for byte in text {
        if !is_separator(*byte) {
            is_last = *byte == b'\\';
        }
    }
    is_last
}

/// Returns whether a physical line continues in the next one.
pub(crate) fn is_continued(text: &[u8]) -> bool
    ensures { result ≡ goes_on (words_on text.now) }
{
    ends_in_backslash(before_comment(text))
}

/// Returns the index of a line among those that have words.
pub(crate) fn line_at(lines: &Lines<'_>, number: u32) -> Option<usize>
    ensures index { result ≡ position (λ line. line.number == number) lines.now }
    ensures there { IfSome result (λ line. line < length lines.now) }
{
    for line in 0..lines.len() {
        if lines.at(line) == number {
            return Some(line);
        }
    }
    None
}

/// Returns the index of the offending word among `words` words, if there is one.
fn place_of(offender: Offender, words: usize) -> Option<usize>
    ensures { result ≡ place_in offender words }
{
    match offender {
        Offender::First => Some(0),
        Offender::Second => Some(1),
        Offender::Third => Some(2),
        Offender::Value if words == 2 => Some(1),
        Offender::Value | Offender::Names | Offender::Line | Offender::Block(_) => None,
    }
}

/// Returns the offending word of the line at an index, if there is one.
fn word_in<'a>(lines: &Lines<'a>, line: usize, offender: Offender) -> Option<&'a [u8]>
    requires { line < length lines.now }
    ensures { option_copied result ≡ word_among offender (words_at lines.now line) }
{
    match place_of(offender, lines.words(line)) {
        Some(place) => lines.word(line, place),
        None => None,
    }
}

/// Returns the offending word of the line with this number, if there is one.
#[tactic(auto, unfolding(crate::specs::kept::Locations::offending_word))]
fn word_on<'a>(lines: &Lines<'a>, number: u32, offender: Offender) -> Option<&'a [u8]>
    ensures { option_copied result ≡ offending_word offender number lines.now }
{
    match line_at(lines, number) {
        Some(line) => word_in(lines, line, offender),
        None => None,
    }
}

/// Returns the offending word of a line of a file as it is shown, if there is one. Returns `None`
/// if memory runs out.
pub(crate) fn word_of(
    alloc: Global,
    bytes: &[u8],
    number: u32,
    offender: Offender,
) -> Option<String>
    ensures { IfSome result (λ text. IsShownWord offender number bytes.now (string_bytes text)) }
{
    let lines = lines(alloc, bytes).ok()?;
    shown(alloc, word_on(&lines, number, offender)?)
}
