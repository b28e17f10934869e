//! `switch` lines.

ghost use Rattle.std.specs.Prelude.{◌≡◌, false};
ghost use Rattle.std.specs.Option.{option_map_or};
ghost use Rattle.arch_file.specs.SwitchLine.{has_switch, is_wrong_value, has_wrong_value, has_switch_keys, is_buffer_word, switch_line};

use crate::entries::Switch;
use crate::fault::LineFault;
use crate::line::ArchLine;
use crate::pairs::{has_key, is_value, pairs_in};
use vpr_text::{Words, is_decimal, is_text};

/// The greatest number of a switch.
const GREATEST_SWITCH: u32 = 255;

/// Whether a line gives the switch of this number.
#[tactic(auto, unfolding(crate::specs::SwitchLine::has_switch))]
pub(crate) fn has_switch(lines: &[ArchLine], number: u32) -> bool
    ensures { result ≡ has_switch lines.now number }
{
    lines
        .iter()
        .filter_map(|line| line.switch())
        .any(|switch| switch.number == number)
}

/// Whether a line before gives the switch of this number.
fn repeats_switch(before: &[ArchLine], number: Option<u32>) -> bool
    ensures { result ≡ option_map_or (has_switch before.now) number false }
{
    match number {
        Some(number) => has_switch(before, number),
        None => false,
    }
}

/// Whether the value isn't the number that the key wants.
#[tactic(auto, unfolding(crate::specs::SwitchLine::is_wrong_value))]
fn is_wrong_value(key: &[u8], value: &[u8]) -> bool
    ensures { result ≡ is_wrong_value (key.now, value.now) }
{
    if is_text(key, "R:")
        || is_text(key, "Cin:")
        || is_text(key, "Cout:")
        || is_text(key, "Tdel:")
    {
        return !is_decimal(value);
    }
    false
}

/// Whether some value isn't the number that its key wants.
#[tactic(auto, unfolding(crate::specs::SwitchLine::has_wrong_value))]
fn has_wrong_value(pairs: &Words) -> bool
    ensures { result ≡ has_wrong_value pairs.now }
{
    pairs_in(pairs).any(|pair| is_wrong_value(pair.0, pair.1))
}

/// Whether the words are the five pairs: with as many words and each key among them, no key is
/// unknown, repeated or left out.
#[tactic(auto, unfolding(crate::specs::SwitchLine::has_switch_keys))]
fn has_switch_keys(pairs: &Words) -> bool
    ensures { result ≡ has_switch_keys pairs.now }
{
    pairs.len() == 10
        && has_key(pairs, "buffered:")
        && has_key(pairs, "R:")
        && has_key(pairs, "Cin:")
        && has_key(pairs, "Cout:")
        && has_key(pairs, "Tdel:")
}

/// Whether `buffered:` has one of its two words.
fn is_buffer_word(pairs: &Words) -> bool
    ensures { result ≡ is_buffer_word pairs.now }
{
    is_value(pairs, "buffered:", "yes") || is_value(pairs, "buffered:", "no")
}

/// `switch n` and its five pairs.
#[tactic(auto, unfolding(crate::specs::SwitchLine::switch_line, crate::specs::SwitchLine::has_bad_number))]
pub(crate) fn switch_line(before: &[ArchLine], words: &Words) -> Result<ArchLine, LineFault>
    ensures { result ≡ switch_line before.now words.now }
{
    let number = words.number(1);
    if repeats_switch(before, number) {
        return Err(LineFault::Repeated);
    }
    let pairs = words.rest(2);
    if (words.has(1) && number.is_none()) || has_wrong_value(&pairs) {
        return Err(LineFault::BadNumber);
    }
    if !has_switch_keys(&pairs) || !is_buffer_word(&pairs) {
        return Err(LineFault::BadWord);
    }
    let number = number.unwrap_or(0);
    if number > GREATEST_SWITCH {
        return Err(LineFault::TooMany);
    }
    Ok(ArchLine::Switch(Switch {
        number,
        buffered: is_value(&pairs, "buffered:", "yes"),
    }))
}
