//! How many names a pinlist has, and how many its block should have.

use std::alloc::Global;
use std::fmt;
use vpr_text::Lines;

/// The block of a pinlist.
#[derive(Clone, Copy, Debug, PartialEq, Eq)]
enum Kind {
    Pad,
    /// A logic block with this many pins.
    Block(usize),
}

/// The number of names of a pinlist, and its block.
#[derive(Clone, Copy, Debug, PartialEq, Eq)]
pub(crate) struct PinCounts {
    names: usize,
    kind: Kind,
}

/// A number of things, in words.
#[derive(Clone, Copy)]
struct Several(usize, &'static str);

impl fmt::Display for Several {
    fn fmt<W: fmt::Write>(&self, f: &mut fmt::Formatter<W>) -> fmt::Result {
        let Several(count, what) = *self;
        let ending = if count == 1 { "" } else { "s" };
        write!(f, "{count} {what}{ending}")
    }
}

impl fmt::Display for PinCounts {
    fn fmt<W: fmt::Write>(&self, f: &mut fmt::Formatter<W>) -> fmt::Result {
        let names = Several(self.names, "name");
        match self.kind {
            Kind::Pad => write!(f, "{names}, a pad has 1 pin: write its net, or `open`"),
            Kind::Block(pins) => write_of_block(f, names, Several(pins, "pin")),
        }
    }
}

/// Writes the counts of a logic block, and what the reason may be.
fn write_of_block<W: fmt::Write>(
    f: &mut fmt::Formatter<W>,
    names: Several,
    pins: Several,
) -> fmt::Result {
    if names.0 < pins.0 {
        write!(
            f,
            "{names}, the block has {pins}: packed for another architecture, or an `open` left out?"
        )
    } else {
        write!(
            f,
            "{names}, the block has {pins}: packed for another architecture?"
        )
    }
}

/// Returns the counts of the pinlist at an index among the lines of a netlist, with the bytes of
/// the architecture. Returns `None` if memory runs out, or if these aren't the files of a run that
/// refused the line.
pub(crate) fn pin_counts(
    alloc: Global,
    lines: &Lines<'_>,
    line: usize,
    arch: &[u8],
) -> Option<PinCounts> {
    let kind = match lines.word(line.checked_sub(1)?, 0)? {
        b".clb" => Kind::Block(pins_of(alloc, arch)?),
        _ => Kind::Pad,
    };
    let names = words_at(lines, line).checked_sub(1)?;
    Some(PinCounts { names, kind })
}

/// Returns the number of words of a line, or 0 if there is no such line.
fn words_at(lines: &Lines<'_>, line: usize) -> usize {
    if line < lines.len() {
        lines.words(line)
    } else {
        0
    }
}

/// Returns the number of pins of a logic block.
fn pins_of(alloc: Global, arch: &[u8]) -> Option<usize> {
    match arch_file::parse(alloc, arch) {
        Ok(arch) => Some(arch.pins().len()),
        Err(_) => None,
    }
}
