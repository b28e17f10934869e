//! The reader of a netlist file.

ghost use Rattle.std.specs.Prelude.{◌≡◌, [], IfOk, Ok, None, length};
ghost use Rattle.vpr_text.specs.Readings.{Gives, unless_faulty};
ghost use Rattle.vpr_text.specs.kept.Split.{HaveWords};
ghost use Rattle.net_file.specs.declared.fault.NetFault.TheVariants.{Memory};
ghost use Rattle.net_file.specs.Blocks.{blocks_of, pinlists, pinlist_numbers};
ghost use Rattle.net_file.specs.Facts.{names_of_blocks, IsNetlist};
ghost use Rattle.net_file.specs.Netlist as netlist;
ghost use Rattle.net_file.specs.Reads.{ReadsBytes};
ghost use Rattle.net_file.specs.kept.LinesSeen.{seen_of};
ghost use Rattle.net_file.specs.Reading.{line_fault_from, nets_of, completed, rows_of, reading, netlist_of};
ghost use Rattle.net_file.specs.WholeFile.{whole_fault};

use crate::block::Block;
use crate::blocks::{blocks_at, line_numbers, pinlists};
use crate::fault::NetFault;
use crate::judge::judge;
use crate::names::Names;
use crate::net::nets_of;
use crate::netlist::Netlist;
use crate::rows::{NetRow, by_net};
use crate::seen::Seen;
use crate::whole_file::whole_fault;
use arch_file::{Arch, Pin};
use std::alloc::{AllocError, Global};
use vpr_text::{Lines, TextFault, Words, lines};

/// What the lines say, judged line by line; a logic block has `pins` pins.
fn seen_in<'a>(alloc: Global, pins: usize, lines: &Lines<'a>) -> Result<Seen<'a>, NetFault>
    ensures { Gives Memory (λ s. s) result
        (unless_faulty (line_fault_from pins [] lines.now) (Ok (seen_of lines.now))) }
{
    let mut seen = Seen::new(alloc);
    for i in 0..lines.len() {
        let words = Words::new(lines, i);
        let fault = judge(&mut seen, pins, &words)?;
        if let Some(fault) = fault {
            return Err(fault.at(lines.at(i)));
        }
    }
    if seen.opened.is_some() {
        return Err(NetFault::BadLine(0));
    }
    Ok(seen)
}

/// The blocks of the lines, whose pinlists are at these places.
#[tactic(auto, unfolding(crate::specs::Blocks::blocks_of))]
fn blocks_of<'a>(
    alloc: Global,
    nets: &Names<'a>,
    lines: &Lines<'a>,
    places: &[usize],
) -> Result<Vec<Block<'a>>, AllocError>
    requires { places.now ≡ pinlists lines.now }
    ensures { IfOk result (λ v. v.items ≡ blocks_of nets.now lines.now) }
{
    blocks_at(alloc, nets, lines, places)
}

/// The numbers of the lines that are pinlists, at these places.
#[tactic(auto, unfolding(crate::specs::Blocks::pinlist_numbers))]
fn pinlist_numbers(alloc: Global, lines: &Lines, places: &[usize]) -> Result<Vec<u32>, AllocError>
    requires { places.now ≡ pinlists lines.now }
    ensures { IfOk result (λ v. v.items ≡ pinlist_numbers lines.now) }
{
    line_numbers(alloc, lines, places)
}

/// The netlist of blocks and nets with these connections, where the lines say what was seen.
#[tactic(auto, unfolding(crate::specs::Reading::completed))]
fn completed<'a>(
    alloc: Global,
    seen: Seen<'a>,
    blocks: Vec<Block<'a>>,
    rows: &[NetRow],
) -> Result<Netlist<'a>, NetFault>
    requires names { seen.blocks ≡ names_of_blocks blocks.items }
    requires facts { whole_fault seen.nets seen.globals rows.now ≡ None
        → IsNetlist (record {
          blocks = blocks.items;
          nets = nets_of seen.nets seen.globals rows.now;
        }) }
    ensures { Gives Memory (λ n. n) result
        (completed seen.entry.nets seen.entry.globals blocks.entry.items rows.now) }
{
    if let Some(fault) = whole_fault(&seen.nets, &seen.globals, rows) {
        return Err(fault);
    }
    let nets = nets_of(alloc, &seen.nets, &seen.globals, rows)?;
    Ok(Netlist {
        blocks,
        nets,
        block_names: seen.blocks,
        net_names: seen.nets,
    })
}

/// Lines as a netlist.
#[tactic(auto, unfolding(crate::specs::Reading::reading, crate::specs::Reading::rows_of))]
fn read<'a>(alloc: Global, pins: &[Pin], lines: &Lines<'a>) -> Result<Netlist<'a>, NetFault>
    requires words { HaveWords lines.now }
    ensures { Gives Memory (λ n. n) result (reading pins.now lines.now) }
{
    let seen = seen_in(alloc, pins.len(), lines)?;
    let places = pinlists(alloc, lines)?;
    let blocks = blocks_of(alloc, &seen.nets, lines, &places)?;
    let numbers = pinlist_numbers(alloc, lines, &places)?;
    let rows = by_net(alloc, pins, &numbers, &blocks, seen.nets.len())?;
    completed(alloc, seen, blocks, &rows)
}

/// Bytes as a netlist.
#[tactic(auto, unfolding(crate::specs::Reading::netlist_of))]
fn netlist_in<'a>(alloc: Global, source: &'a [u8], pins: &[Pin]) -> Result<Netlist<'a>, NetFault>
    ensures { Gives Memory (λ n. n) result (netlist_of pins.now source.now) }
{
    match lines(alloc, source) {
        Ok(lines) => read(alloc, pins, &lines),
        Err(TextFault::Memory) => Err(NetFault::Memory),
        Err(fault) => Err(NetFault::Text(fault)),
    }
}

/// The netlist that a file's bytes describe, by "The Netlist File Format" of the VPR and T-VPack
/// manual 4.30 and the limits of this project's profile: at most 20,000 blocks and 65,535 nets. A
/// logic block has the pins of `arch`.
///
/// A fault of the text comes first, then that of the first faulty line, then that of the least
/// faulty net. If a line or net has several faults, the first in the order of `NetFault` is
/// reported.
pub fn parse<'a>(alloc: Global, source: &'a [u8], arch: &Arch) -> Result<Netlist<'a>, NetFault>
    // What is read is the netlist of the text.
    ensures found { IfOk result (λ n. ReadsBytes arch.now.pins source.now n) }
    // A text has no other netlist, and a text that has a netlist is read, unless memory runs out.
    ensures only { (n : netlist.Netlist)
        → ReadsBytes arch.now.pins source.now n → Gives Memory (λ m. m) result (Ok n) }
    // Which fault it is.
    ensures exact { Gives Memory (λ n. n) result (netlist_of arch.now.pins source.now) }
{
    netlist_in(alloc, source, arch.pins())
}
