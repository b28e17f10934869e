//! From the bytes of a text to its logical lines.

ghost use Rattle.std.specs.Prelude.{◌≡◌, ◌+◌, ◌<◌, ◌≤◌, ◌^◌, ◌++◌, ◌==◌, length, slice_range, IfOk, OnOk, All, drop, take, vec_len};
ghost use Rattle.std.specs.List.{position_or_len};
ghost use Rattle.vpr_text.specs.Words.{Line, words_of, words_between, is_separator};
ghost use Rattle.vpr_text.specs.Readings.{Gives};
ghost use Rattle.vpr_text.specs.Text.{is_bad, bad_line_from, lines_of};
ghost use Rattle.vpr_text.specs.declared.fault.TextFault.TheVariants.{Memory};
ghost use Rattle.vpr_text.specs.kept.Split.{range_if, entry_if, IsRange, Adds, AddsLine, GivesUp};

use crate::fault::TextFault;
use crate::line::{ByteRange, LineEntry, Lines};
use std::alloc::{AllocError, Global};

const LINE_FEED: u8 = b'\n';

const COMMENT: u8 = b'#';

const BACKSLASH: u8 = b'\\';

/// How many bytes a text may have.
pub const MAX_LEN: usize = 16_777_216;

fn is_separator(byte: u8) -> bool
    ensures { result ≡ is_separator byte }
{
    byte == 9 || byte == 11 || byte == 12 || byte == 13 || byte == 32
}

fn is_bad(byte: u8) -> bool
    ensures { result ≡ is_bad byte }
{
    (byte < 32 && !(9 <= byte && byte <= 13)) || byte == 127
}

/// The first physical line with a bad byte.
fn bad_line(source: &[u8]) -> Option<u32>
    requires { length source.now ≤ 2 ^ 24 }
    ensures { result ≡ bad_line_from 1 source.now }
{
    let mut number = 1;
    for byte in source {
        if is_bad(*byte) {
            return Some(number);
        }
        if *byte == LINE_FEED {
            number += 1;
        }
    }
    None
}

/// Where the byte first occurs in a part of the source, or the part's end.
fn find(source: &[u8], byte: u8, from: usize, to: usize) -> usize
    requires ordered { from ≤ to }
    requires within { to ≤ length source.now }
    ensures found { result ≡ from + position_or_len (λ b. b == byte)
        (slice_range source.now from to) }
    ensures in_part { result ≤ to }
{
    for i in from..to {
        if source[i] == byte {
            return i;
        }
    }
    to
}

/// Notes the range, if it isn't empty.
fn push_range(ranges: &mut Vec<ByteRange>, start: usize, end: usize) -> Result<(), AllocError>
    requires { end < 2 ^ 32 }
    ensures { OnOk result (ranges.new.items ≡ ranges.old.items ++ range_if start end) }
{
    if start < end {
        ranges.push(ByteRange {
            start: start as u32,
            end: end as u32,
        })?;
    }
    Ok(())
}

/// Notes the words of a part of the source.
fn push_words(
    ranges: &mut Vec<ByteRange>,
    source: &[u8],
    from: usize,
    to: usize,
) -> Result<(), AllocError>
    requires ordered { from ≤ to }
    requires within { to ≤ length source.now }
    requires small { length source.now < 2 ^ 32 }
    ensures { OnOk result (Adds source.now ranges.old.items ranges.new.items
        (words_between (slice_range source.now from to))) }
{
    let mut start = from;
    for i in from..to {
        if is_separator(source[i]) {
            push_range(ranges, start, i)?;
            start = i + 1;
        }
    }
    push_range(ranges, start, to)
}

/// Takes the backslash off the last of the words from `first` on, if it ends in one, and says so.
fn give_up(ranges: &mut Vec<ByteRange>, source: &[u8], first: usize) -> bool
    requires within { first ≤ vec_len ranges.old }
    requires fits { All (IsRange (length source.now)) (drop first ranges.old.items) }
    ensures { GivesUp source.now first ranges.old.items ranges.new.items result }
{
    if ranges.len() == first {
        return false;
    }
    let last = ranges.len() - 1;
    let range = ranges[last];
    let end = range.end - 1;
    if source[end as usize] != BACKSLASH {
        return false;
    }
    if range.start == end {
        ranges.truncate(last);
    } else {
        ranges[last] = ByteRange {
            start: range.start,
            end,
        };
    }
    true
}

/// Notes the words of a physical line, and says whether it goes on.
fn push_line(
    ranges: &mut Vec<ByteRange>,
    source: &[u8],
    from: usize,
    to: usize,
) -> Result<bool, AllocError>
    requires ordered { from ≤ to }
    requires within { to ≤ length source.now }
    requires small { length source.now < 2 ^ 32 }
    ensures { IfOk result (AddsLine source.now ranges.old.items ranges.new.items
        (slice_range source.now from to)) }
{
    let first = ranges.len();
    let text_end = find(source, COMMENT, from, to);
    push_words(ranges, source, from, text_end)?;
    Ok(give_up(ranges, source, first))
}

/// Notes a line of the ranges from `first` to `end`, if there are any.
fn push_entry(
    entries: &mut Vec<LineEntry>,
    number: u32,
    first: usize,
    end: usize,
) -> Result<(), AllocError>
    requires { end < 2 ^ 32 }
    ensures { OnOk result (entries.new.items ≡ entries.old.items ++ entry_if number first end) }
{
    if first < end {
        entries.push(LineEntry {
            number,
            first: first as u32,
            count: (end - first) as u32,
        })?;
    }
    Ok(())
}

fn split(alloc: Global, source: &[u8]) -> Result<Lines<'_>, AllocError>
    requires { length source.now ≤ 2 ^ 24 }
    ensures { IfOk result (λ lines. lines ≡ words_of source.now) }
{
    let mut ranges = Vec::new(alloc);
    let mut entries = Vec::new(alloc);
    let mut first = 0;
    let mut open = 1;
    let mut number = 1;
    let mut at = 0;
    while at <= source.len() {
        let end = find(source, LINE_FEED, at, source.len());
        let goes_on = push_line(&mut ranges, source, at, end)?;
        at = end + 1;
        number += 1;
        if !goes_on {
            push_entry(&mut entries, open, first, ranges.len())?;
            first = ranges.len();
            open = number;
        }
    }
    push_entry(&mut entries, open, first, ranges.len())?;
    Ok(Lines::from_parts(source, ranges, entries))
}

/// The logical lines of a text, by the rules of VPR and T-VPack 4.30 for comments and
/// continuations. A physical line ends at a line feed; tabs, vertical tabs, form feeds, carriage
/// returns and spaces separate words.
///
/// A text of more than 2^24 bytes is `TooLong`; the first physical line with another control byte
/// is `BadByte`.
pub fn lines(alloc: Global, source: &[u8]) -> Result<Lines<'_>, TextFault>
    ensures { Gives Memory (λ l. l) result (lines_of source.now) }
{
    if source.len() > MAX_LEN {
        return Err(TextFault::TooLong);
    }
    if let Some(number) = bad_line(source) {
        return Err(TextFault::BadByte(number));
    }
    let lines = split(alloc, source)?;
    Ok(lines)
}
