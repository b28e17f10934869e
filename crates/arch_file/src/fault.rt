//! Why an architecture could not be read.

ghost use Rattle.std.specs.Prelude.{◌≡◌};
ghost use Rattle.arch_file.specs.declared.fault.ArchFault.TheVariants.{Memory};
ghost use Rattle.arch_file.specs.Faults.{at_line, arch_line, arch_name, is_arch_memory};

use std::alloc::{AllocError, AllocFailed};
use thiserror::Error;
use vpr_text::TextFault;

/// An entry that an architecture has to have.
#[derive(Clone, Copy, Debug, PartialEq, Eq)]
pub enum Entry {
    IoRat,
    ChanWidthIo,
    ChanWidthX,
    ChanWidthY,
    /// There is no pin.
    Pin,
    /// A class below another one has no pin.
    Class,
    SwitchBlockType,
    FcType,
    FcOutput,
    FcInput,
    FcPad,
    Segment,
    /// A segment names a switch that no line describes.
    Switch,
}

/// What is wrong with an architecture. A line is the number of the faulty logical line: that of its
/// first physical line, counted from 1.
#[derive(Clone, Copy, Debug, PartialEq, Eq, Error)]
pub enum ArchFault {
    /// The text has no lines.
    #[error("{0}")]
    Text(TextFault),
    /// No line begins with this word.
    #[error("line {0} begins with an unknown keyword")]
    UnknownKeyword(u32),
    /// The keyword, or the number of the switch, is on an earlier line.
    #[error("line {0} repeats an entry")]
    Repeated(u32),
    /// A word isn't the number that is wanted there, or a pin mixes inputs and outputs in one
    /// class.
    #[error("line {0} has a bad number")]
    BadNumber(u32),
    /// A word is wrong, left out or too many.
    #[error("line {0} has a bad word")]
    BadWord(u32),
    /// The line asks for what this project leaves out.
    #[error("line {0} is not supported")]
    Unsupported(u32),
    /// The line goes beyond a limit.
    #[error("line {0} has too many")]
    TooMany(u32),
    /// The first entry, in the order of `Entry`, that no line gives.
    #[error("an entry is missing")]
    Missing(Entry),
    /// Memory ran out.
    #[error("memory ran out")]
    Memory,
}

impl From<AllocError> for ArchFault {
    ghost from_gives = { λ _ e. e ≡ Memory };

    fn from(_e: AllocError) -> ArchFault {
        ArchFault::Memory
    }
}

impl<T: Drop> From<AllocFailed<T>> for ArchFault {
    ghost from_gives = { λ _ e. e ≡ Memory };

    fn from(_e: AllocFailed<T>) -> ArchFault {
        ArchFault::Memory
    }
}

impl ArchFault {
    /// The line of the fault; 0 where it has none.
    pub fn line(self) -> u32
        ensures { result ≡ arch_line self }
    {
        match self {
            ArchFault::Text(fault) => fault.line(),
            ArchFault::UnknownKeyword(line)
            | ArchFault::Repeated(line)
            | ArchFault::BadNumber(line)
            | ArchFault::BadWord(line)
            | ArchFault::Unsupported(line)
            | ArchFault::TooMany(line) => line,
            ArchFault::Missing(_) | ArchFault::Memory => 0,
        }
    }

    /// The name of the fault; that of a text is its own.
    pub fn name(self) -> &'static [u8]
        ensures { result.now ≡ arch_name self }
    {
        match self {
            ArchFault::Text(fault) => fault.name(),
            ArchFault::UnknownKeyword(_) => b"UnknownKeyword",
            ArchFault::Repeated(_) => b"Repeated",
            ArchFault::BadNumber(_) => b"BadNumber",
            ArchFault::BadWord(_) => b"BadWord",
            ArchFault::Unsupported(_) => b"Unsupported",
            ArchFault::TooMany(_) => b"TooMany",
            ArchFault::Missing(_) => b"Missing",
            ArchFault::Memory => b"Memory",
        }
    }

    /// Whether memory ran out.
    pub fn is_memory(self) -> bool
        ensures { result ≡ is_arch_memory self }
    {
        matches!(self, ArchFault::Memory | ArchFault::Text(TextFault::Memory))
    }
}

/// What is wrong with one line.
#[derive(Clone, Copy)]
pub(crate) enum LineFault {
    UnknownKeyword,
    Repeated,
    BadNumber,
    BadWord,
    Unsupported,
    TooMany,
}

impl LineFault {
    /// The fault of an architecture whose line `line` has this one.
    pub(crate) fn at(self, line: u32) -> ArchFault
        ensures { result ≡ at_line self line }
    {
        match self {
            LineFault::UnknownKeyword => ArchFault::UnknownKeyword(line),
            LineFault::Repeated => ArchFault::Repeated(line),
            LineFault::BadNumber => ArchFault::BadNumber(line),
            LineFault::BadWord => ArchFault::BadWord(line),
            LineFault::Unsupported => ArchFault::Unsupported(line),
            LineFault::TooMany => ArchFault::TooMany(line),
        }
    }
}
