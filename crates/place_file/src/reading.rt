//! The reader of a placement file.

ghost use Rattle.std.specs.Prelude.{◌≡◌, ◌≤◌, IfOk, Ok};
ghost use Rattle.arch_file.specs.Architecture.{most_pads};
ghost use Rattle.vpr_text.specs.Readings.{Gives};
ghost use Rattle.place_file.specs.declared.fault.PlaceFault.TheVariants.{Memory};
ghost use Rattle.place_file.specs.Placement as placement;
ghost use Rattle.place_file.specs.Placement.{IsPlaced};
ghost use Rattle.place_file.specs.Reading.{reading, placement_of};
ghost use Rattle.place_file.specs.Reads.{ReadsBytes};

use crate::fault::PlaceFault;
use crate::header::{array_on, header_fault};
use crate::placement::Placement;
use crate::rows::placing;
use arch_file::Arch;
use net_file::Netlist;
use std::alloc::Global;
use vpr_text::{Lines, TextFault, lines};

/// Lines as a placement, with `io_rat` pads at a place.
#[tactic(auto, using(crate::proofs::Steps::header_fit, crate::proofs::Steps::header_long), unfolding(crate::specs::Reading::reading))]
fn read(
    alloc: Global,
    io_rat: u32,
    netlist: &Netlist,
    lines: &Lines,
) -> Result<Placement, PlaceFault>
    requires { io_rat ≤ most_pads }
    ensures { Gives Memory (λ p. p) result (reading io_rat netlist.now.blocks lines.now) }
{
    if let Some(fault) = header_fault(io_rat, lines) {
        return Err(fault);
    }
    placing(alloc, array_on(io_rat, lines), netlist, lines)
}

/// Bytes as a placement.
#[tactic(auto, unfolding(crate::specs::Reading::placement_of))]
fn placement_in(
    alloc: Global,
    source: &[u8],
    io_rat: u32,
    netlist: &Netlist,
) -> Result<Placement, PlaceFault>
    requires { io_rat ≤ most_pads }
    ensures { Gives Memory (λ p. p) result (placement_of io_rat netlist.now.blocks source.now) }
{
    match lines(alloc, source) {
        Ok(lines) => read(alloc, io_rat, netlist, &lines),
        Err(TextFault::Memory) => Err(PlaceFault::Memory),
        Err(fault) => Err(PlaceFault::Text(fault)),
    }
}

/// The placement of a netlist's blocks that a file's bytes describe, by "The Placement File Format"
/// of the VPR and T-VPack manual 4.30 and the limits of this project's profile: 1 to 100 columns
/// and rows of logic blocks.
///
/// A fault of the text comes first, then that of the first faulty line, then the least block that
/// no line places. If a line has several faults, the first in the order of `PlaceFault` is
/// reported.
#[tactic(auto, using(crate::proofs::Placed::placed_given, crate::proofs::Related::found, crate::proofs::Related::only))]
pub fn parse(
    alloc: Global,
    source: &[u8],
    arch: &Arch,
    netlist: &Netlist,
) -> Result<Placement, PlaceFault>
    // What is read is the placement of the text.
    ensures found { IfOk result (λ p. ReadsBytes arch.now.io_rat netlist.now.blocks source.now p) }
    // A text has no other placement, and a text that has a placement is read, unless memory runs
    // out.
    ensures only { (p : placement.Placement)
        → ReadsBytes arch.now.io_rat netlist.now.blocks source.now p
        → Gives Memory (λ q. q) result (Ok p) }
    // Which fault it is.
    ensures exact { Gives Memory (λ p. p) result
        (placement_of arch.now.io_rat netlist.now.blocks source.now) }
    // All blocks are on sites of their kind, and different blocks on different sites.
    ensures placed { IfOk result (λ p. IsPlaced arch.now.io_rat netlist.now.blocks p) }
{
    placement_in(alloc, source, arch.io_rat(), netlist)
}
