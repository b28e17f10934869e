//! The words of a line, and the values that they give.

use crate::sources::BELOW;
use crate::unanswered::Unanswered;
use rr_graph::Mode;
use std::alloc::Global;

/// The answer to a call with words that takes none.
pub const NO_WORDS: Unanswered = Unanswered::Misread("the call with no word after it");

/// The answer to a call with a word that should be a number and isn't.
pub const NO_NUMBER: Unanswered = Unanswered::Misread("a number below 2^32 in each place of one");

/// Refuses words that a call doesn't take.
pub fn no_words(given: &[&str]) -> Result<(), Unanswered> {
    if given.is_empty() {
        Ok(())
    } else {
        Err(NO_WORDS)
    }
}

/// A call of a script: its name, the words after it, and the text below its line.
#[derive(Clone, Copy)]
pub struct Call<'a> {
    pub name: &'a str,
    pub given: &'a [&'a str],
    pub text: &'a [u8],
}

/// Returns a line up to its comment.
pub fn code_of(line: &str) -> &str {
    match line.split_once('#') {
        Some((code, _)) => code,
        None => line,
    }
}

/// Returns the words of a line up to its comment.
pub fn words(alloc: Global, line: &str) -> Result<Vec<&str>, Unanswered> {
    Ok(code_of(line).split_whitespace().collect(alloc)?)
}

/// Returns whether a word of a line announces a text below it.
pub fn has_text(line: &str) -> bool {
    code_of(line).split_whitespace().any(|word| word == BELOW)
}

/// Returns the number that a word gives, if there is one below 2^32.
pub fn number(word: &str) -> Option<u32> {
    match word.parse::<u32>() {
        Ok(number) => Some(number),
        Err(_) => None,
    }
}

/// Returns the numbers that `N` words give.
pub fn numbers<const N: usize>(given: &[&str]) -> Result<[u32; N], Unanswered> {
    if given.len() != N {
        return Err(Unanswered::Misread("the call with another number of numbers"));
    }
    let mut found = [0; N];
    for (slot, word) in found.iter_mut().zip(given) {
        match number(word) {
            Some(number) => *slot = number,
            None => return Err(NO_NUMBER),
        }
    }
    Ok(found)
}

/// Returns the numbers that words give, however many there are.
pub fn number_list(alloc: Global, given: &[&str]) -> Result<Vec<u32>, Unanswered> {
    let mut found = Vec::with_capacity(alloc, given.len())?;
    for word in given {
        let Some(number) = number(word) else {
            return Err(NO_NUMBER);
        };
        found.push(number)?;
    }
    Ok(found)
}

/// Returns the text below a call that has no words but `<<`.
pub fn text_below<'a>(call: Call<'a>) -> Result<&'a str, Unanswered> {
    match call.given {
        [word] if *word == BELOW => text_of(call.text),
        _ => Err(Unanswered::Misread("the call with `<<` after it, and a text below")),
    }
}

/// Returns the text below a call as a string, if it is UTF-8.
pub fn text_of(text: &[u8]) -> Result<&str, Unanswered> {
    match str::from_utf8(text) {
        Ok(text) => Ok(text),
        Err(_) => Err(Unanswered::Misread("a text below the call")),
    }
}

/// Returns the only word that is given.
pub fn one<'a>(given: &[&'a str]) -> Result<&'a str, Unanswered> {
    match given {
        [word] => Ok(*word),
        _ => Err(Unanswered::Misread("the call with one word after it")),
    }
}

/// Returns the mode that the last words name: `global`, or no word for `detailed`.
pub fn mode(given: &[&str]) -> Result<Mode, Unanswered> {
    match given {
        [] => Ok(Mode::Detailed),
        [word] if *word == "global" => Ok(Mode::Global),
        _ => Err(Unanswered::Misread("the call with no more words, or with `global`")),
    }
}

/// Returns the mode, and the words after it. The mode is global if the first word is `global`, and
/// otherwise detailed.
pub fn mode_before<'a, 'b>(given: &'a [&'b str]) -> (Mode, &'a [&'b str]) {
    match given {
        [word, rest @ ..] if *word == "global" => (Mode::Global, rest),
        _ => (Mode::Detailed, given),
    }
}

/// Reads numbers as pairs.
pub fn pairs(alloc: Global, given: &[&str]) -> Result<Vec<(u32, u32)>, Unanswered> {
    let numbers = number_list(alloc, given)?;
    two_by_two(alloc, numbers.as_slice())
}

fn two_by_two(alloc: Global, numbers: &[u32]) -> Result<Vec<(u32, u32)>, Unanswered> {
    let mut pairs = Vec::with_capacity(alloc, numbers.len())?;
    let mut rest = numbers;
    for _ in 0..numbers.len() {
        match rest {
            [] => break,
            [from, to, others @ ..] => {
                pairs.push((*from, *to))?;
                rest = others;
            }
            [_] => return Err(Unanswered::Misread("numbers two by two")),
        }
    }
    Ok(pairs)
}
