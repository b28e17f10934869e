//! The reader of an architecture file.

ghost use Rattle.std.specs.Prelude.{◌≡◌, [], IfOk, Ok};
ghost use Rattle.vpr_text.specs.Readings.{Gives};
ghost use Rattle.arch_file.specs.declared.fault.ArchFault.TheVariants.{Memory};
ghost use Rattle.arch_file.specs.Architecture.{Architecture, IsWithinLimits};
ghost use Rattle.arch_file.specs.Lines.{pins_of, segments_of, switches_of, io_rat_of, fc_type_of, fc_output_of, fc_input_of, fc_pad_of};
ghost use Rattle.arch_file.specs.Reading.{entries_from, has_class, has_gap, lacks_switch, missing_of, value_in, architecture_from, reading, arch_of};
ghost use Rattle.arch_file.specs.Reads.{ReadsBytes};

use crate::arch::Arch;
use crate::entries::{FcType, Pin, Segment, Switch};
use crate::fault::{ArchFault, Entry};
use crate::judge::{has_keyword, is_passed, judge};
use crate::keyword::Keyword;
use crate::line::ArchLine;
use crate::pins::pin_count;
use crate::segments::segment_count;
use crate::switches::has_switch;
use std::alloc::{AllocError, Global};
use vpr_text::{Lines, TextFault, Words, lines};

/// What the lines say, line by line.
fn entries(alloc: Global, lines: &Lines) -> Result<Vec<ArchLine>, ArchFault>
    ensures { Gives Memory (λ v. v.items) result (entries_from [] lines.now) }
{
    let mut entries = Vec::new(alloc);
    for i in 0..lines.len() {
        let words = Words::new(lines, i);
        if !is_passed(&words) {
            match judge(&entries, &words) {
                Ok(line) => entries.push(line)?,
                Err(fault) => return Err(fault.at(lines.at(i))),
            }
        }
    }
    Ok(entries)
}

/// Whether a pin of the lines has this class.
#[tactic(auto, unfolding(crate::specs::Reading::has_class))]
fn has_class(lines: &[ArchLine], class: u32) -> bool
    ensures { result ≡ has_class lines.now class }
{
    lines
        .iter()
        .filter_map(|line| line.pin())
        .any(|pin| pin.class == class)
}

/// Whether there is a class above 0 and no pin of the class below it.
#[tactic(auto, unfolding(crate::specs::Reading::has_gap))]
fn has_gap(lines: &[ArchLine]) -> bool
    ensures { result ≡ has_gap lines.now }
{
    lines
        .iter()
        .filter_map(|line| line.pin())
        .any(|pin| pin.class > 0 && !has_class(lines, pin.class - 1))
}

/// Whether a segment names a switch that no line gives.
#[tactic(auto, unfolding(crate::specs::Reading::lacks_switch))]
fn lacks_switch(lines: &[ArchLine]) -> bool
    ensures { result ≡ lacks_switch lines.now }
{
    lines.iter().filter_map(|line| line.segment()).any(|segment| {
        !has_switch(lines, segment.wire_switch) || !has_switch(lines, segment.opin_switch)
    })
}

/// The first entry that the lines lack.
#[tactic(auto, unfolding(crate::specs::Reading::missing_of))]
fn missing(lines: &[ArchLine]) -> Option<Entry>
    ensures { result ≡ missing_of lines.now }
{
    if !has_keyword(lines, Keyword::IoRat) {
        return Some(Entry::IoRat);
    }
    if !has_keyword(lines, Keyword::ChanWidthIo) {
        return Some(Entry::ChanWidthIo);
    }
    if !has_keyword(lines, Keyword::ChanWidthX) {
        return Some(Entry::ChanWidthX);
    }
    if !has_keyword(lines, Keyword::ChanWidthY) {
        return Some(Entry::ChanWidthY);
    }
    if pin_count(lines) == 0 {
        return Some(Entry::Pin);
    }
    if has_gap(lines) {
        return Some(Entry::Class);
    }
    if !has_keyword(lines, Keyword::SwitchBlockType) {
        return Some(Entry::SwitchBlockType);
    }
    if !has_keyword(lines, Keyword::FcType) {
        return Some(Entry::FcType);
    }
    if !has_keyword(lines, Keyword::FcOutput) {
        return Some(Entry::FcOutput);
    }
    if !has_keyword(lines, Keyword::FcInput) {
        return Some(Entry::FcInput);
    }
    if !has_keyword(lines, Keyword::FcPad) {
        return Some(Entry::FcPad);
    }
    if segment_count(lines) == 0 {
        return Some(Entry::Segment);
    }
    if lacks_switch(lines) {
        return Some(Entry::Switch);
    }
    None
}

/// The value that a line gives, or 0 where none does. No two lines give one.
fn io_rat(lines: &[ArchLine]) -> u32
    ensures { result ≡ value_in io_rat_of lines.now 0 }
{
    lines
        .iter()
        .fold(0, |value, line| line.io_rat().unwrap_or(value))
}

fn fc_type(lines: &[ArchLine]) -> FcType
    ensures { result ≡ value_in fc_type_of lines.now FcType.Absolute }
{
    lines.iter().fold(
        FcType::Absolute,
        |value, line| line.fc_type().unwrap_or(value),
    )
}

fn fc_output(lines: &[ArchLine]) -> u64
    ensures { result ≡ value_in fc_output_of lines.now 0 }
{
    lines
        .iter()
        .fold(0, |value, line| line.fc_output().unwrap_or(value))
}

fn fc_input(lines: &[ArchLine]) -> u64
    ensures { result ≡ value_in fc_input_of lines.now 0 }
{
    lines
        .iter()
        .fold(0, |value, line| line.fc_input().unwrap_or(value))
}

fn fc_pad(lines: &[ArchLine]) -> u64
    ensures { result ≡ value_in fc_pad_of lines.now 0 }
{
    lines
        .iter()
        .fold(0, |value, line| line.fc_pad().unwrap_or(value))
}

fn pins(alloc: Global, lines: &[ArchLine]) -> Result<Vec<Pin>, AllocError>
    ensures { IfOk result (λ v. v.items ≡ pins_of lines.now) }
{
    lines.iter().filter_map(|line| line.pin()).collect(alloc)
}

fn segments(alloc: Global, lines: &[ArchLine]) -> Result<Vec<Segment>, AllocError>
    ensures { IfOk result (λ v. v.items ≡ segments_of lines.now) }
{
    lines
        .iter()
        .filter_map(|line| line.segment())
        .collect(alloc)
}

fn switches(alloc: Global, lines: &[ArchLine]) -> Result<Vec<Switch>, AllocError>
    ensures { IfOk result (λ v. v.items ≡ switches_of lines.now) }
{
    lines.iter().filter_map(|line| line.switch()).collect(alloc)
}

/// The architecture that the lines describe.
fn architecture(alloc: Global, lines: &[ArchLine]) -> Result<Arch, AllocError>
    requires { IsWithinLimits (architecture_from lines.now) }
    ensures { IfOk result (λ a. a ≡ architecture_from lines.now) }
{
    let pins = pins(alloc, lines)?;
    let segments = segments(alloc, lines)?;
    let switches = switches(alloc, lines)?;
    Ok(Arch {
        io_rat: io_rat(lines),
        pins,
        fc_type: fc_type(lines),
        fc_output: fc_output(lines),
        fc_input: fc_input(lines),
        fc_pad: fc_pad(lines),
        segments,
        switches,
    })
}

/// Lines as an architecture.
#[tactic(auto, unfolding(crate::specs::Reading::reading))]
fn read(alloc: Global, lines: &Lines) -> Result<Arch, ArchFault>
    ensures { Gives Memory (λ a. a) result (reading lines.now) }
{
    let entries = entries(alloc, lines)?;
    if let Some(entry) = missing(&entries) {
        return Err(ArchFault::Missing(entry));
    }
    let arch = architecture(alloc, &entries)?;
    Ok(arch)
}

/// Bytes as an architecture.
#[tactic(auto, unfolding(crate::specs::Reading::arch_of))]
fn arch_in(alloc: Global, source: &[u8]) -> Result<Arch, ArchFault>
    ensures { Gives Memory (λ a. a) result (arch_of source.now) }
{
    match lines(alloc, source) {
        Ok(lines) => read(alloc, &lines),
        Err(TextFault::Memory) => Err(ArchFault::Memory),
        Err(fault) => Err(ArchFault::Text(fault)),
    }
}

/// The architecture that a file's bytes describe, by "The Architecture File Format" of the VPR and
/// T-VPack manual 4.30 and the limits of this project's profile: 1 to 16 pads at each place of the
/// perimeter, 1 to 64 pins of a logic block in classes 0 to 63, 1 to 16 segments of 1 to 16 logic
/// blocks or longlines, and switches 0 to 255.
///
/// A fault of the text comes first, then that of the first faulty line, then the first entry that
/// is missing. If a line has several faults, the first in the order of `ArchFault` is reported.
pub fn parse(alloc: Global, source: &[u8]) -> Result<Arch, ArchFault>
    // What is read is the architecture of the text.
    ensures found { IfOk result (λ a. ReadsBytes source.now a) }
    // A text has no other architecture, and a text that has an architecture is read, unless memory
    // runs out.
    ensures only { (a : Architecture) → ReadsBytes source.now a
        → Gives Memory (λ b. b) result (Ok a) }
    // Which fault it is.
    ensures exact { Gives Memory (λ a. a) result (arch_of source.now) }
{
    arch_in(alloc, source)
}
