//! Why a placement could not be read.

ghost use Rattle.std.specs.Prelude.{◌≡◌};
ghost use Rattle.place_file.specs.declared.fault.PlaceFault.TheVariants.{Memory};
ghost use Rattle.place_file.specs.Faults.{place_line, place_name, is_place_memory};

use std::alloc::{AllocError, AllocFailed};
use thiserror::Error;
use vpr_text::TextFault;

/// What is wrong with a placement. A line is the number of the faulty logical line: that of its
/// first physical line, counted from 1; 0 is the end of the file.
#[derive(Clone, Copy, Debug, PartialEq, Eq, Error)]
pub enum PlaceFault {
    /// The text has no lines.
    #[error("{0}")]
    Text(TextFault),
    /// The line is not allowed there; at line 0, one of the first two lines isn't there.
    #[error("line {0} can't stand there")]
    BadLine(u32),
    /// The array has less than 1 or more than 100 columns or rows.
    #[error("line {0} has a size out of 1 to 100")]
    ArraySize(u32),
    /// The netlist has no block of that name.
    #[error("line {0} names no block")]
    UnknownBlock(u32),
    /// A line before places the same block.
    #[error("line {0} places a block again")]
    PlacedTwice(u32),
    /// The block can't be there.
    #[error("line {0} has no site for this block")]
    OffSite(u32),
    /// Another block is there.
    #[error("line {0} has a site that is taken")]
    Occupied(u32),
    /// No line places the block, the least one that is left.
    #[error("block {0} isn't placed")]
    Missing(usize),
    /// Memory ran out.
    #[error("memory ran out")]
    Memory,
}

impl From<AllocError> for PlaceFault {
    ghost from_gives = { λ _ e. e ≡ Memory };

    fn from(_e: AllocError) -> PlaceFault {
        PlaceFault::Memory
    }
}

impl<T: Drop> From<AllocFailed<T>> for PlaceFault {
    ghost from_gives = { λ _ e. e ≡ Memory };

    fn from(_e: AllocFailed<T>) -> PlaceFault {
        PlaceFault::Memory
    }
}

impl PlaceFault {
    /// The line of the fault; 0 where it has none.
    pub fn line(self) -> u32
        ensures { result ≡ place_line self }
    {
        match self {
            PlaceFault::Text(fault) => fault.line(),
            PlaceFault::BadLine(line)
            | PlaceFault::ArraySize(line)
            | PlaceFault::UnknownBlock(line)
            | PlaceFault::PlacedTwice(line)
            | PlaceFault::OffSite(line)
            | PlaceFault::Occupied(line) => line,
            PlaceFault::Missing(_) | PlaceFault::Memory => 0,
        }
    }

    /// The name of the fault; that of a text is its own.
    pub fn name(self) -> &'static [u8]
        ensures { result.now ≡ place_name self }
    {
        match self {
            PlaceFault::Text(fault) => fault.name(),
            PlaceFault::BadLine(_) => b"BadLine",
            PlaceFault::ArraySize(_) => b"ArraySize",
            PlaceFault::UnknownBlock(_) => b"UnknownBlock",
            PlaceFault::PlacedTwice(_) => b"PlacedTwice",
            PlaceFault::OffSite(_) => b"OffSite",
            PlaceFault::Occupied(_) => b"Occupied",
            PlaceFault::Missing(_) => b"Missing",
            PlaceFault::Memory => b"Memory",
        }
    }

    /// Whether memory ran out.
    pub fn is_memory(self) -> bool
        ensures { result ≡ is_place_memory self }
    {
        matches!(
            self,
            PlaceFault::Memory | PlaceFault::Text(TextFault::Memory)
        )
    }
}
