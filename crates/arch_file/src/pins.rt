//! `inpin` and `outpin` lines.

ghost use Rattle.std.specs.Prelude.{◌≡◌, true, length, unwrap_or};
ghost use Rattle.std.specs.Option.{option_map_or};
ghost use Rattle.std.specs.List.{list_any, list_all};
ghost use Rattle.vpr_text.specs.Word.{is_text, number_in};
ghost use Rattle.arch_file.specs.Lines.{pins_of};
ghost use Rattle.arch_file.specs.PinLine.{mixes, is_global_pin, side_words, is_side, sides_in, pin_in, pin_line};

use crate::entries::{Direction, Pin, Sides};
use crate::fault::LineFault;
use crate::line::ArchLine;
use vpr_text::{Words, is_text};

/// The greatest number of pins of a logic block.
const MOST_PINS: usize = 64;

/// The greatest class of a pin.
const GREATEST_CLASS: u32 = 63;

/// How many pins the lines give.
pub(crate) fn pin_count(before: &[ArchLine]) -> usize
    ensures { result ≡ length (pins_of before.now) }
{
    before.iter().filter_map(|line| line.pin()).count()
}

/// Whether a class has a pin of the other direction.
#[tactic(auto, unfolding(crate::specs::PinLine::mixes))]
fn mixes(before: &[ArchLine], direction: Direction, class: u32) -> bool
    ensures { result ≡ mixes before.now direction class }
{
    before
        .iter()
        .filter_map(|line| line.pin())
        .any(|pin| pin.class == class && pin.direction != direction)
}

/// Whether the word for a class is no number, or the class mixes inputs and outputs.
fn is_wrong_class(before: &[ArchLine], direction: Direction, class: Option<u32>) -> bool
    ensures { result ≡ option_map_or (mixes before.now direction) class true }
{
    match class {
        Some(class) => mixes(before, direction, class),
        None => true,
    }
}

/// Whether the pin is marked `global`.
#[tactic(auto, unfolding(crate::specs::PinLine::is_global_pin))]
fn is_global_pin(direction: Direction, words: &Words) -> bool
    ensures { result ≡ is_global_pin direction words.now }
{
    direction == Direction::Input && words.is(3, "global")
}

/// The words that name the sides.
#[tactic(auto, unfolding(crate::specs::PinLine::side_words))]
fn side_words<'t, 'a>(direction: Direction, words: &Words<'t, 'a>) -> Words<'t, 'a>
    ensures { result ≡ side_words direction words.now }
{
    if is_global_pin(direction, words) {
        words.rest(4)
    } else {
        words.rest(3)
    }
}

#[tactic(auto, unfolding(crate::specs::PinLine::is_side))]
fn is_side(word: &[u8]) -> bool
    ensures { result ≡ is_side word.now }
{
    is_text(word, "top")
        || is_text(word, "bottom")
        || is_text(word, "left")
        || is_text(word, "right")
}

/// Whether each word is a side.
fn are_sides(words: &Words) -> bool
    ensures { result ≡ list_all is_side words.now }
{
    words.rest(0).all(|word| is_side(word))
}

/// Whether a side is among the words.
fn names(words: &Words, side: &str) -> bool
    ensures { result ≡ list_any (λ word. is_text word side.now) words.now }
{
    words.rest(0).any(|word| is_text(word, side))
}

/// The sides that the words name.
fn sides_in(words: &Words) -> Sides
    ensures { result ≡ sides_in words.now }
{
    Sides {
        top: names(words, "top"),
        bottom: names(words, "bottom"),
        left: names(words, "left"),
        right: names(words, "right"),
    }
}

/// The pin that the line describes; its class is given.
#[tactic(auto, unfolding(crate::specs::PinLine::pin_in))]
fn pin_in(direction: Direction, class: u32, words: &Words) -> Pin
    requires { class ≡ unwrap_or (number_in words.now 2) 0 }
    ensures { result ≡ pin_in direction words.now }
{
    Pin {
        class,
        direction,
        global: is_global_pin(direction, words),
        sides: sides_in(&side_words(direction, words)),
    }
}

/// `inpin class: n [global] sides` and `outpin class: n sides`.
#[tactic(auto, unfolding(crate::specs::PinLine::pin_line, crate::specs::PinLine::is_bad_class, crate::specs::PinLine::pin_in, crate::specs::PinLine::lacks_sides))]
pub(crate) fn pin_line(
    before: &[ArchLine],
    direction: Direction,
    words: &Words,
) -> Result<ArchLine, LineFault>
    ensures { result ≡ pin_line before.now direction words.now }
{
    let class = words.number(2);
    if words.has(2) && is_wrong_class(before, direction, class) {
        return Err(LineFault::BadNumber);
    }
    let pin = pin_in(direction, class.unwrap_or(0), words);
    let sides = side_words(direction, words);
    if !words.is(1, "class:") || !are_sides(&sides) || (sides.len() == 0 && !pin.global) {
        return Err(LineFault::BadWord);
    }
    if pin.class > GREATEST_CLASS || pin_count(before) >= MOST_PINS {
        return Err(LineFault::TooMany);
    }
    Ok(ArchLine::Pin(pin))
}
