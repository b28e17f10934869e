//! How many nodes come before those of a kind, by arithmetic.

ghost use Rattle.std.specs.Prelude.{◌≡◌, ◌≤◌, true};
ghost use Rattle.arch_file.specs.Architecture.{most_pins};
ghost use Rattle.channel_tables.specs.Fabric.{Fabric};
ghost use Rattle.node_numbers.specs.Starts.{kind_length, kind_start};
ghost use Rattle.node_numbers.specs.Numbering.{is_terminal};
ghost use Rattle.node_numbers.specs.kept.Columns.{terminals_length};
ghost use Rattle.node_numbers.specs.kept.Numbers.{IsBlock, IsStarts};

use crate::block::{BlockNumbers, numbers};
use channel_tables::{Axis, ChannelTables, Kind, Layout};

/// How many nodes come before those of each kind, and the count of nodes.
#[derive(Clone, Copy, Debug)]
pub(crate) struct Starts {
    pub(crate) sink: u32,
    pub(crate) opin: u32,
    pub(crate) ipin: u32,
    pub(crate) chanx: u32,
    pub(crate) chany: u32,
    pub(crate) end: u32,
}

/// Returns how many terminals or pins of a kind there are, if a block has `count`.
#[tactic(auto, unfolding(crate::specs::kept::Columns::terminals_length))]
fn terminal_count(layout: &Layout, count: usize) -> u32
    requires { count ≤ most_pins }
    ensures count { result ≡ terminals_length layout.now count }
    ensures few { result ≤ 1000000 }
{
    let pads = layout.architecture().io_rat();
    let blocks = layout.ny() * count as u32;
    2 * (layout.ny() * pads) + layout.nx() * (2 * pads + blocks)
}

/// Returns how many terminals or pins of a kind there are.
#[tactic(auto, using(crate::proofs::PlaceStarts::few_numbers, crate::proofs::PlaceStarts::terminal_length))]
fn terminals_of(tables: &ChannelTables, block: &BlockNumbers, kind: Kind) -> u32
    requires terminal { is_terminal kind ≡ true }
    requires block { IsBlock tables.now block.now }
    ensures count { result ≡ kind_length tables.now kind }
    ensures few { result ≤ 1000000 }
{
    let layout = tables.layout();
    terminal_count(layout, numbers(block, kind).len())
}

/// Returns how many wires there are above rows.
#[tactic(auto, using(crate::proofs::PlaceStarts::above_count))]
fn wires_above(tables: &ChannelTables) -> u32
    ensures count { result ≡ kind_length tables.now Kind.Chanx }
    ensures few { result ≤ 2611456 }
{
    let layout = tables.layout();
    (layout.ny() + 1) * tables.wires_before(Axis::Row, layout.nx() + 1)
}

/// Returns how many wires there are right of columns.
#[tactic(auto, using(crate::proofs::PlaceStarts::right_count))]
fn wires_right(tables: &ChannelTables) -> u32
    ensures count { result ≡ kind_length tables.now Kind.Chany }
    ensures few { result ≤ 2611456 }
{
    (tables.layout().nx() + 1) * tables.right_step()
}

/// Returns how many nodes come before those of each kind, and the count of nodes.
#[tactic(auto, unfolding(crate::specs::Starts::kind_start))]
pub(crate) fn starts_of(tables: &ChannelTables, block: &BlockNumbers) -> Starts
    requires { IsBlock tables.now block.now }
    ensures { IsStarts tables.now result }
{
    let sink = terminals_of(tables, block, Kind::Source);
    let opin = sink + terminals_of(tables, block, Kind::Sink);
    let ipin = opin + terminals_of(tables, block, Kind::Opin);
    let chanx = ipin + terminals_of(tables, block, Kind::Ipin);
    let chany = chanx + wires_above(tables);
    let end = chany + wires_right(tables);
    Starts {
        sink,
        opin,
        ipin,
        chanx,
        chany,
        end,
    }
}

/// Returns how many nodes come before those of a kind.
#[tactic(auto, unfolding(crate::specs::Starts::kind_start))]
pub(crate) fn kind_start(starts: Starts, kind: Kind) -> u32
    ensures { (f : Fabric) → IsStarts f starts → result ≡ kind_start f kind }
{
    match kind {
        Kind::Source => 0,
        Kind::Sink => starts.sink,
        Kind::Opin => starts.opin,
        Kind::Ipin => starts.ipin,
        Kind::Chanx => starts.chanx,
        Kind::Chany => starts.chany,
    }
}
