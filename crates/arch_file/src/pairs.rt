//! Keys and their values: the words of a line taken two at a time.

ghost use Rattle.std.specs.Prelude.{◌≡◌};
ghost use Rattle.std.specs.Option.{option_copied, option_map};
ghost use Rattle.arch_file.specs.Pairs.{pairs_of, pair_with, value_of, has_key, is_value, number_for, fixed_for};

use vpr_text::{Words, fixed, is_text, number};

/// Each key with the word after it, in the order of the line. A last key without a value gives no
/// pair.
#[derive(Drop)]
pub(crate) struct KeyedWords<'t, 'a> {
    words: Words<'t, 'a>,
}

impl<'t, 'a> Iterator for KeyedWords<'t, 'a> {
    type Item = (&'a [u8], &'a [u8]);

    ghost use Rattle.std.specs.Iterator.{YieldsFirstBy, item_count};

    ghost next_gives = { YieldsFirstBy (λ p. (p.0.now, p.1.now)) (λ s. pairs_of s.words) };

    ghost remaining = { item_count (λ s. pairs_of s.words) };

    fn next(&mut self) -> Option<(&'a [u8], &'a [u8])> {
        let key = self.words.next()?;
        let value = self.words.next()?;
        Some((key, value))
    }
}

/// The pairs that these words make.
pub(crate) fn pairs_in<'t, 'a>(words: &Words<'t, 'a>) -> KeyedWords<'t, 'a>
    ensures { result.words ≡ words.now }
{
    KeyedWords {
        words: words.rest(0),
    }
}

/// The first pair with this key.
#[tactic(auto, unfolding(crate::specs::Pairs::pair_with))]
fn pair_with<'a>(words: &Words<'_, 'a>, key: &str) -> Option<(&'a [u8], &'a [u8])>
    ensures { option_map (λ pair. (pair.0.now, pair.1.now)) result ≡ pair_with words.now key.now }
{
    pairs_in(words).find(|pair| is_text(pair.0, key))
}

/// The value of a key, if the words have it: that of the first pair with this key.
#[tactic(auto, unfolding(crate::specs::Pairs::value_of))]
pub(crate) fn value<'a>(words: &Words<'_, 'a>, key: &str) -> Option<&'a [u8]>
    ensures { option_copied result ≡ value_of words.now key.now }
{
    let (_, value) = pair_with(words, key)?;
    Some(value)
}

/// Whether the words have a key.
pub(crate) fn has_key(words: &Words, key: &str) -> bool
    ensures { result ≡ has_key words.now key.now }
{
    value(words, key).is_some()
}

/// Whether the value of a key is this text.
pub(crate) fn is_value(words: &Words, key: &str, text: &str) -> bool
    ensures { result ≡ is_value words.now key.now text.now }
{
    match value(words, key) {
        Some(word) => is_text(word, text),
        None => false,
    }
}

/// The number that is the value of a key, or 0 where there is none.
pub(crate) fn number_for(words: &Words, key: &str) -> u32
    ensures { result ≡ number_for words.now key.now }
{
    match value(words, key) {
        Some(word) => number(word).unwrap_or(0),
        None => 0,
    }
}

/// The same for a number with decimals, in units of 10^-9.
pub(crate) fn fixed_for(words: &Words, key: &str) -> u64
    ensures { result ≡ fixed_for words.now key.now }
{
    match value(words, key) {
        Some(word) => fixed(word).unwrap_or(0),
        None => 0,
    }
}
