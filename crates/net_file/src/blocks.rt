//! The blocks that accepted lines describe.

ghost use Rattle.std.specs.Prelude.{◌≡◌, IfOk, map};
ghost use Rattle.net_file.specs.Blocks.{net_of, block_of, block_at, pinlists, blocks_of, pinlist_numbers};
ghost use Rattle.vpr_text.specs.Words.{number_at};

use crate::block::Block;
use crate::line::{is_open, is_pinlist, kind_at, name_in};
use crate::names::Names;
use crate::terminal::BlockKind;
use std::alloc::{AllocError, Global};
use vpr_text::{Lines, Words, line_number};

/// The places of the pinlists among the lines.
#[tactic(auto, unfolding(crate::specs::Blocks::pinlists))]
pub(crate) fn pinlists(alloc: Global, lines: &Lines) -> Result<Vec<usize>, AllocError>
    ensures { IfOk result (λ v. v.items ≡ pinlists lines.now) }
{
    (0..lines.len())
        .filter(|i| is_pinlist(&Words::new(lines, *i)))
        .collect(alloc)
}

/// The numbers of the lines at these places.
pub(crate) fn line_numbers(
    alloc: Global,
    lines: &Lines,
    places: &[usize],
) -> Result<Vec<u32>, AllocError>
    ensures { IfOk result (λ v. v.items ≡ map (number_at lines.now) places.now) }
{
    places
        .iter()
        .map(|place| line_number(lines, *place))
        .collect(alloc)
}

/// The number of the net that a word of a pinlist names.
fn net_of<'a>(nets: &Names<'a>, word: &'a [u8]) -> Option<usize>
    ensures { result ≡ net_of nets.now word.now }
{
    if is_open(word) {
        None
    } else {
        nets.number(word)
    }
}

/// The numbers of the nets that the words of a pinlist name.
fn nets_at<'a>(
    alloc: Global,
    nets: &Names<'a>,
    words: Words<'_, 'a>,
) -> Result<Vec<Option<usize>>, AllocError>
    ensures { IfOk result (λ v. v.items ≡ map (net_of nets.now) words.entry) }
{
    let mut list = Vec::new(alloc);
    for word in words {
        list.push(net_of(nets, word))?;
    }
    Ok(list)
}

/// The block of an element and its pinlist.
#[tactic(auto, unfolding(crate::specs::Blocks::block_of))]
fn block_of<'a>(
    alloc: Global,
    nets: &Names<'a>,
    element: &Words<'_, 'a>,
    pinlist: &Words<'_, 'a>,
) -> Result<Block<'a>, AllocError>
    ensures { IfOk result (λ b. b ≡ block_of nets.now element.now pinlist.now) }
{
    let nets = nets_at(alloc, nets, pinlist.rest(1))?;
    Ok(Block {
        kind: kind_at(element).unwrap_or(BlockKind::InputPad),
        name: name_in(element),
        nets,
    })
}

/// The block whose pinlist is line `i`.
#[tactic(auto, unfolding(crate::specs::Blocks::block_at))]
fn block_at<'a>(
    alloc: Global,
    nets: &Names<'a>,
    lines: &Lines<'a>,
    i: usize,
) -> Result<Block<'a>, AllocError>
    ensures { IfOk result (λ b. b ≡ block_at nets.now lines.now i) }
{
    let element = Words::new(lines, i.saturating_sub(1));
    let pinlist = Words::new(lines, i);
    let block = block_of(alloc, nets, &element, &pinlist)?;
    Ok(block)
}

/// The blocks whose pinlists are at these places.
pub(crate) fn blocks_at<'a>(
    alloc: Global,
    nets: &Names<'a>,
    lines: &Lines<'a>,
    places: &[usize],
) -> Result<Vec<Block<'a>>, AllocError>
    ensures { IfOk result (λ v. v.items ≡ map (block_at nets.now lines.now) places.now) }
{
    let mut blocks = Vec::new(alloc);
    for place in places {
        let block = block_at(alloc, nets, lines, *place)?;
        blocks.push(block)?;
    }
    Ok(blocks)
}
