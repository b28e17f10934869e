//! The nodes of a block: its classes and pins by direction.

ghost use Rattle.std.specs.Prelude.{◌≡◌, ◌≤◌, length, IfOk};
ghost use Rattle.arch_file.specs.Architecture.{most_pins};
ghost use Rattle.channel_tables.specs.Fabric.{Fabric};
ghost use Rattle.node_numbers.specs.Numbering.{block_numbers};
ghost use Rattle.node_numbers.specs.kept.Numbers.{IsBlock};

use arch_file::Direction;
use channel_tables::{ChannelTables, Kind};
use std::alloc::{AllocError, Global};

/// The numbers of a block's nodes by kind, in ascending order.
#[derive(Debug, Drop)]
pub(crate) struct BlockNumbers {
    pub(crate) sources: Vec<u32>,
    pub(crate) sinks: Vec<u32>,
    pub(crate) opins: Vec<u32>,
    pub(crate) ipins: Vec<u32>,
}

/// Lists the nodes of a block.
#[tactic(auto, unfolding(crate::specs::Numbering::block_numbers))]
pub(crate) fn block_of(alloc: Global, tables: &ChannelTables) -> Result<BlockNumbers, AllocError>
    ensures { IfOk result (IsBlock tables.now) }
{
    let layout = tables.layout();
    Ok(BlockNumbers {
        sources: layout.classes_by(alloc, Direction::Output)?,
        sinks: layout.classes_by(alloc, Direction::Input)?,
        opins: layout.pins_by(alloc, Direction::Output)?,
        ipins: layout.pins_by(alloc, Direction::Input)?,
    })
}

/// Returns the numbers of the nodes of a kind at a block. A block has no wires.
#[tactic(auto, unfolding(crate::specs::Numbering::block_numbers))]
pub(crate) fn numbers(block: &BlockNumbers, kind: Kind) -> &[u32]
    ensures { (f : Fabric) → IsBlock f block.now → result.now ≡ block_numbers f kind }
{
    match kind {
        Kind::Source => &block.sources,
        Kind::Sink => &block.sinks,
        Kind::Opin => &block.opins,
        Kind::Ipin => &block.ipins,
        Kind::Chanx | Kind::Chany => &[],
    }
}

/// Returns how many nodes of a kind a block has.
#[tactic(auto, using(crate::proofs::PlaceStarts::few_numbers))]
pub(crate) fn count_at_block(block: &BlockNumbers, kind: Kind) -> u32
    requires { (f : Fabric) × IsBlock f block.now }
    ensures count { (f : Fabric) → IsBlock f block.now
        → result ≡ length (block_numbers f kind) }
    ensures few { result ≤ most_pins }
{
    numbers(block, kind).len() as u32
}
