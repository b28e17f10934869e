//! Strings of JSON, from bytes that may be no UTF-8.

ghost use Rattle.std.specs.Prelude.{◌≡◌, ◌==◌, ◌||◌, ◌++◌, ◌<◌, nat_lt, length};
ghost use Rattle.std.specs.List.{flat_map};
ghost use Rattle.text_output.specs.Printing.{PrintsTo};
ghost use Rattle.rr_graph.specs.Fabric.{numbers_below};
ghost use Rattle.report_run.specs.Json.{byte_at, byte_text, character_size, escaped, greatest_second, hex_text, is_in_character, is_reached, is_second, is_tail, is_within, least_second, size_by, string_text};

use crate::text::digit_code;
use text_output::{ByteSink, Printer};

/// Returns whether a byte is within these bounds.
fn is_within(low: u8, high: u8, byte: u8) -> bool
    ensures { result ≡ is_within low high byte }
{
    low <= byte && byte <= high
}

/// Returns whether a byte can be the third or fourth of a character.
fn is_tail(byte: u8) -> bool
    ensures { result ≡ is_tail byte }
{
    is_within(128, 191, byte)
}

/// Returns the least byte that may come after the first one of a character.
fn least_second(first: u8) -> u8
    ensures { result ≡ least_second first }
{
    match first {
        224 => 160,
        240 => 144,
        _ => 128,
    }
}

/// Returns the greatest byte that may come after the first one of a character.
fn greatest_second(first: u8) -> u8
    ensures { result ≡ greatest_second first }
{
    match first {
        237 => 159,
        244 => 143,
        _ => 191,
    }
}

/// Returns whether a byte may come after the first one of a character.
fn is_second(first: u8, byte: u8) -> bool
    ensures { result ≡ is_second first byte }
{
    is_within(least_second(first), greatest_second(first), byte)
}

/// Returns how many bytes the character has that begins with these, or 0 if none of two or more
/// begins with them.
fn size_by(first: u8, second: u8, third: u8, fourth: u8) -> usize
    ensures { result ≡ size_by first second third fourth }
{
    if is_within(194, 223, first) && is_second(first, second) {
        2
    } else if is_within(224, 239, first) && is_second(first, second) && is_tail(third) {
        3
    } else if is_within(240, 244, first)
        && is_second(first, second)
        && is_tail(third)
        && is_tail(fourth)
    {
        4
    } else {
        0
    }
}

/// Returns the byte at an index, or 0 past the last one.
fn byte_at(bytes: &[u8], index: usize) -> u8
    ensures { result ≡ byte_at bytes.now index }
{
    match bytes.get(index) {
        Some(byte) => *byte,
        None => 0,
    }
}

/// Returns how many bytes the character has that begins at an index, or 0 if none of two or more
/// begins there.
#[tactic(auto, unfolding(crate::specs::Json::character_size))]
fn character_size(bytes: &[u8], index: usize) -> usize
    requires { index < length bytes.now }
    ensures { result ≡ character_size bytes.now index }
{
    size_by(
        byte_at(bytes, index),
        byte_at(bytes, index + 1),
        byte_at(bytes, index + 2),
        byte_at(bytes, index + 3),
    )
}

/// Returns whether the character that begins this many bytes before a byte has it.
fn is_reached(bytes: &[u8], index: usize, back: usize) -> bool
    requires { index < length bytes.now }
    ensures { result ≡ is_reached bytes.now index back }
{
    back < character_size(bytes, index.saturating_sub(back))
}

/// Returns whether a byte is one of a character of two bytes or more.
#[tactic(auto, unfolding(crate::specs::Json::is_in_character))]
fn is_in_character(bytes: &[u8], index: usize) -> bool
    requires { index < length bytes.now }
    ensures { result ≡ is_in_character bytes.now index }
{
    is_reached(bytes, index, 0)
        || is_reached(bytes, index, 1)
        || is_reached(bytes, index, 2)
        || is_reached(bytes, index, 3)
}

/// Prints two digits of base 16.
fn put_hex<W: ByteSink>(out: &mut Printer<'_, W>, byte: u8)
    ensures { PrintsTo W.ByteSink out.old out.new (hex_text byte) }
{
    let high = digit_code(u64::from(byte / 16));
    let low = digit_code(u64::from(byte % 16));
    out.push(&[high, low]);
}

/// Prints a byte of a string by these characters and two digits of base 16.
fn put_code<W: ByteSink>(out: &mut Printer<'_, W>, front: &[u8], byte: u8)
    ensures { PrintsTo W.ByteSink out.old out.new
        (front.now ++ hex_text byte) }
{
    out.push(front);
    put_hex(out, byte);
}

/// Returns whether a byte is a quote or a backslash.
fn is_quote(byte: u8) -> bool
    ensures { result ≡ (byte == 34 || byte == 92) }
{
    byte == b'"' || byte == b'\\'
}

/// Returns whether a byte is below 128, or one of a longer character.
fn is_plain(byte: u8, is_in: bool) -> bool
    ensures { result ≡ (nat_lt byte 128 || is_in) }
{
    byte < 128 || is_in
}

/// Prints a byte of a string, which is or isn't one of a character of two bytes or more.
#[tactic(auto, unfolding(crate::specs::Json::escaped))]
fn put_escaped<W: ByteSink>(out: &mut Printer<'_, W>, byte: u8, is_in: bool)
    ensures { PrintsTo W.ByteSink out.old out.new (escaped byte is_in) }
{
    if is_quote(byte) {
        out.push(&[b'\\', byte]);
    } else if byte < 32 {
        put_code(out, b"\\u00", byte);
    } else if is_plain(byte, is_in) {
        out.push(&[byte]);
    } else {
        put_code(out, b"\\udc", byte);
    }
}

/// Prints the byte of a string at an index.
fn put_byte<W: ByteSink>(out: &mut Printer<'_, W>, bytes: &[u8], index: usize)
    requires { index < length bytes.now }
    ensures { PrintsTo W.ByteSink out.old out.new
        (byte_text bytes.now index) }
{
    let is_in = is_in_character(bytes, index);
    put_escaped(out, byte_at(bytes, index), is_in);
}

/// Prints the bytes of a string.
fn put_bytes<W: ByteSink>(out: &mut Printer<'_, W>, bytes: &[u8])
    ensures { PrintsTo W.ByteSink out.old out.new
        (flat_map (byte_text bytes.now) (numbers_below (length bytes.now))) }
{
    for index in 0..bytes.len() {
        put_byte(out, bytes, index);
    }
}

/// Prints a string.
pub(crate) fn put_string<W: ByteSink>(out: &mut Printer<'_, W>, bytes: &[u8])
    ensures { PrintsTo W.ByteSink out.old out.new (string_text bytes.now) }
{
    out.push(b"\"");
    put_bytes(out, bytes);
    out.push(b"\"");
}
