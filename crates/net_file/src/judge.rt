//! A line, given what the lines before it say.

ghost use Rattle.std.specs.Prelude.{◌≡◌, IfOk, false};
ghost use Rattle.std.specs.Option.{option_map_or};
ghost use Rattle.net_file.specs.Judge.{pin_count, is_logic_block, stands, is_bad_line, is_bad_count, is_double, are_too_many, first_fault};
ghost use Rattle.net_file.specs.kept.LinesSeen.{Judges};

use crate::fault::LineFault;
use crate::line::{is_element, is_global, is_pinlist, is_subblock, name_in};
use crate::names::Names;
use crate::seen::Seen;
use crate::terminal::BlockKind;
use std::alloc::AllocError;
use vpr_text::Words;

/// The greatest number of blocks.
const MOST_BLOCKS: usize = 20_000;

/// The greatest number of nets.
const MOST_NETS: usize = 65_535;

/// How many pins a block has, where a logic block has `pins`.
fn pin_count(pins: usize, kind: BlockKind) -> usize
    ensures { result ≡ pin_count pins kind }
{
    match kind {
        BlockKind::InputPad => 1,
        BlockKind::OutputPad => 1,
        BlockKind::LogicBlock => pins,
    }
}

fn is_logic_block(kind: BlockKind) -> bool
    ensures { result ≡ is_logic_block kind }
{
    match kind {
        BlockKind::InputPad => false,
        BlockKind::OutputPad => false,
        BlockKind::LogicBlock => true,
    }
}

/// Whether the last block is a logic block.
fn has_subblocks(block: Option<BlockKind>) -> bool
    ensures { result ≡ option_map_or is_logic_block block false }
{
    match block {
        Some(kind) => is_logic_block(kind),
        None => false,
    }
}

/// Whether the line is valid and no pinlist: an element with a name, names of global nets, or a
/// subblock of a logic block.
fn stands(block: Option<BlockKind>, words: &Words) -> bool
    ensures { result ≡ stands block words.now }
{
    (is_element(words) && words.len() == 2)
        || (is_global(words) && words.len() >= 2)
        || (is_subblock(words) && has_subblocks(block))
}

/// Whether the line can't follow those before it.
#[tactic(auto, unfolding(crate::specs::Judge::is_bad_line))]
fn is_bad_line(element: Option<BlockKind>, block: Option<BlockKind>, words: &Words) -> bool
    ensures { result ≡ is_bad_line element block words.now }
{
    if element.is_some() {
        !is_pinlist(words)
    } else {
        !stands(block, words)
    }
}

/// Whether the pinlist of an element has more or fewer names than the block has pins.
#[tactic(auto, unfolding(crate::specs::Judge::is_bad_count))]
fn is_bad_count(pins: usize, element: Option<BlockKind>, words: &Words) -> bool
    ensures { result ≡ is_bad_count pins element words.now }
{
    match element {
        Some(kind) => words.len().checked_sub(1) != Some(pin_count(pins, kind)),
        None => false,
    }
}

/// Whether the element has the name of an earlier block.
#[tactic(auto, unfolding(crate::specs::Judge::is_double))]
fn is_double<'a>(names: &Names<'a>, words: &Words<'_, 'a>) -> bool
    ensures { result ≡ is_double names.now words.now }
{
    is_element(words) && names.has(name_in(words))
}

/// Whether there are more blocks or nets than a netlist may have.
#[tactic(auto, unfolding(crate::specs::Judge::are_too_many))]
fn are_too_many(blocks: &Names, nets: &Names) -> bool
    ensures { result ≡ are_too_many blocks.now nets.now }
{
    blocks.len() > MOST_BLOCKS || nets.len() > MOST_NETS
}

/// The first fault of the line, apart from the limits.
fn fault_of<'a>(seen: &Seen<'a>, pins: usize, words: &Words<'_, 'a>) -> Option<LineFault>
    ensures { result ≡ first_fault (is_bad_line seen.now.opened seen.now.latest words.now)
        (is_bad_count pins seen.now.opened words.now)
        (is_double seen.now.blocks words.now)
        false }
{
    if is_bad_line(seen.opened, seen.latest, words) {
        return Some(LineFault::BadLine);
    }
    if is_bad_count(pins, seen.opened, words) {
        return Some(LineFault::PinCount);
    }
    if is_double(&seen.blocks, words) {
        return Some(LineFault::DoubleName);
    }
    None
}

/// The first fault of the line; a line without one is added.
pub(crate) fn judge<'a>(
    seen: &mut Seen<'a>,
    pins: usize,
    words: &Words<'_, 'a>,
) -> Result<Option<LineFault>, AllocError>
    ensures { IfOk result (λ fault. Judges pins seen.old seen.new words.now fault) }
{
    if let Some(fault) = fault_of(seen, pins, words) {
        return Ok(Some(fault));
    }
    seen.note(words)?;
    if are_too_many(&seen.blocks, &seen.nets) {
        return Ok(Some(LineFault::TooMany));
    }
    Ok(None)
}
