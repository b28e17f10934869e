//! `segment` lines.

ghost use Rattle.std.specs.Prelude.{◌≡◌, length};
ghost use Rattle.arch_file.specs.Lines.{segments_of};
ghost use Rattle.arch_file.specs.SegmentLine.{is_wrong_length, wants_fixed, wants_number, wants_decimal, is_wrong_value, has_wrong_value, has_wire_keys, has_other_keys, has_segment_keys, length_in, is_unsupported, segment_in, segment_line};

use crate::entries::{Segment, SegmentLength};
use crate::fault::LineFault;
use crate::line::ArchLine;
use crate::pairs::{fixed_for, has_key, is_value, number_for, pairs_in};
use crate::values::ONE;
use vpr_text::{Words, fixed, is_decimal, is_text, number};

/// The greatest number of segments.
const MOST_SEGMENTS: usize = 16;

/// The greatest length of a wire that isn't a longline.
const LONGEST: u32 = 16;

/// How many segments the lines give.
pub(crate) fn segment_count(before: &[ArchLine]) -> usize
    ensures { result ≡ length (segments_of before.now) }
{
    before.iter().filter_map(|line| line.segment()).count()
}

/// Whether a word is no length of a wire.
fn is_wrong_length(word: &[u8]) -> bool
    ensures { result ≡ is_wrong_length word.now }
{
    !is_text(word, "longline") && number(word).unwrap_or(0) == 0
}

/// Whether the key wants a number with decimals.
#[tactic(auto, unfolding(crate::specs::SegmentLine::wants_fixed))]
fn wants_fixed(key: &[u8]) -> bool
    ensures { result ≡ wants_fixed key.now }
{
    is_text(key, "frequency:") || is_text(key, "Frac_cb:") || is_text(key, "Frac_sb:")
}

/// Whether the key wants the number of a switch.
#[tactic(auto, unfolding(crate::specs::SegmentLine::wants_number))]
fn wants_number(key: &[u8]) -> bool
    ensures { result ≡ wants_number key.now }
{
    is_text(key, "wire_switch:") || is_text(key, "opin_switch:")
}

/// Whether the key wants a decimal, which isn't used.
#[tactic(auto, unfolding(crate::specs::SegmentLine::wants_decimal))]
fn wants_decimal(key: &[u8]) -> bool
    ensures { result ≡ wants_decimal key.now }
{
    is_text(key, "Rmetal:") || is_text(key, "Cmetal:")
}

/// Whether the value isn't the number that the key wants. An unknown key wants nothing.
#[tactic(auto, unfolding(crate::specs::SegmentLine::is_wrong_value))]
fn is_wrong_value(key: &[u8], value: &[u8]) -> bool
    ensures { result ≡ is_wrong_value (key.now, value.now) }
{
    if is_text(key, "length:") {
        is_wrong_length(value)
    } else if wants_fixed(key) {
        fixed(value).is_none()
    } else if wants_number(key) {
        number(value).is_none()
    } else {
        wants_decimal(key) && !is_decimal(value)
    }
}

/// Whether some value isn't the number that its key wants.
#[tactic(auto, unfolding(crate::specs::SegmentLine::has_wrong_value))]
fn has_wrong_value(pairs: &Words) -> bool
    ensures { result ≡ has_wrong_value pairs.now }
{
    pairs_in(pairs).any(|pair| is_wrong_value(pair.0, pair.1))
}

/// Whether the pairs have the keys that say which wires there are.
#[tactic(auto, unfolding(crate::specs::SegmentLine::has_wire_keys))]
fn has_wire_keys(pairs: &Words) -> bool
    ensures { result ≡ has_wire_keys pairs.now }
{
    has_key(pairs, "frequency:")
        && has_key(pairs, "length:")
        && has_key(pairs, "wire_switch:")
        && has_key(pairs, "opin_switch:")
}

/// Whether the pairs have the keys that say what a wire connects to, and what it is made of.
#[tactic(auto, unfolding(crate::specs::SegmentLine::has_other_keys))]
fn has_other_keys(pairs: &Words) -> bool
    ensures { result ≡ has_other_keys pairs.now }
{
    has_key(pairs, "Frac_cb:")
        && has_key(pairs, "Frac_sb:")
        && has_key(pairs, "Rmetal:")
        && has_key(pairs, "Cmetal:")
}

/// Whether the words are the eight pairs: with as many words and each key among them, no key is
/// unknown, repeated or left out.
#[tactic(auto, unfolding(crate::specs::SegmentLine::has_segment_keys))]
fn has_segment_keys(pairs: &Words) -> bool
    ensures { result ≡ has_segment_keys pairs.now }
{
    pairs.len() == 16 && has_wire_keys(pairs) && has_other_keys(pairs)
}

/// The length of the segment's wires.
#[tactic(auto, unfolding(crate::specs::SegmentLine::length_in))]
fn length_in(pairs: &Words) -> SegmentLength
    ensures { result ≡ length_in pairs.now }
{
    if is_value(pairs, "length:", "longline") {
        SegmentLength::Longline
    } else {
        SegmentLength::Places(number_for(pairs, "length:"))
    }
}

/// Whether the line asks for what this project leaves out.
#[tactic(auto, unfolding(crate::specs::SegmentLine::is_unsupported))]
fn is_unsupported(pairs: &Words) -> bool
    ensures { result ≡ is_unsupported pairs.now }
{
    let too_long = match length_in(pairs) {
        SegmentLength::Places(places) => places > LONGEST,
        SegmentLength::Longline => false,
    };
    too_long || fixed_for(pairs, "Frac_cb:") != ONE || fixed_for(pairs, "Frac_sb:") != ONE
}

/// The segment that the pairs describe.
#[tactic(auto, unfolding(crate::specs::SegmentLine::segment_in))]
fn segment_in(pairs: &Words) -> Segment
    ensures { result ≡ segment_in pairs.now }
{
    Segment {
        frequency: fixed_for(pairs, "frequency:"),
        length: length_in(pairs),
        wire_switch: number_for(pairs, "wire_switch:"),
        opin_switch: number_for(pairs, "opin_switch:"),
    }
}

/// `segment` and its eight pairs.
#[tactic(auto, unfolding(crate::specs::SegmentLine::segment_line))]
pub(crate) fn segment_line(before: &[ArchLine], words: &Words) -> Result<ArchLine, LineFault>
    ensures { result ≡ segment_line before.now words.now }
{
    let pairs = words.rest(1);
    if has_wrong_value(&pairs) {
        return Err(LineFault::BadNumber);
    }
    if !has_segment_keys(&pairs) {
        return Err(LineFault::BadWord);
    }
    if is_unsupported(&pairs) {
        return Err(LineFault::Unsupported);
    }
    if segment_count(before) >= MOST_SEGMENTS {
        return Err(LineFault::TooMany);
    }
    Ok(ArchLine::Segment(segment_in(&pairs)))
}
