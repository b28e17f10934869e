//! What the lines of a netlist are.

ghost use Rattle.std.specs.Prelude.{◌≡◌};
ghost use Rattle.net_file.specs.Lines.{kind_of, kind_at, is_element, is_pinlist, is_subblock, is_global, name_in, is_open};

use crate::terminal::BlockKind;
use vpr_text::{Words, is_text};

/// Whether the word means a pin that is connected to no net.
pub(crate) fn is_open(word: &[u8]) -> bool
    ensures { result ≡ is_open word.now }
{
    is_text(word, "open")
}

/// The kind of block that an element's first word gives.
#[tactic(auto, unfolding(crate::specs::Lines::kind_of))]
fn kind_of(word: &[u8]) -> Option<BlockKind>
    ensures { result ≡ kind_of word.now }
{
    if is_text(word, ".input") {
        return Some(BlockKind::InputPad);
    }
    if is_text(word, ".output") {
        return Some(BlockKind::OutputPad);
    }
    if is_text(word, ".clb") {
        return Some(BlockKind::LogicBlock);
    }
    None
}

/// The kind of block whose element the line is, if it is one.
pub(crate) fn kind_at(words: &Words) -> Option<BlockKind>
    ensures { result ≡ kind_at words.now }
{
    kind_of(words.get(0)?)
}

pub(crate) fn is_element(words: &Words) -> bool
    ensures { result ≡ is_element words.now }
{
    kind_at(words).is_some()
}

pub(crate) fn is_pinlist(words: &Words) -> bool
    ensures { result ≡ is_pinlist words.now }
{
    words.is(0, "pinlist:")
}

pub(crate) fn is_subblock(words: &Words) -> bool
    ensures { result ≡ is_subblock words.now }
{
    words.is(0, "subblock:")
}

pub(crate) fn is_global(words: &Words) -> bool
    ensures { result ≡ is_global words.now }
{
    words.is(0, ".global")
}

/// The name that an element gives its block.
pub(crate) fn name_in<'a>(words: &Words<'_, 'a>) -> &'a [u8]
    ensures { result.now ≡ name_in words.now }
{
    words.word(1)
}
