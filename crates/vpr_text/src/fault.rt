//! Why a text could not be split.

ghost use Rattle.std.specs.Prelude.{◌≡◌};
ghost use Rattle.vpr_text.specs.Faults.{text_line, text_name, is_text_memory};
ghost use Rattle.vpr_text.specs.declared.fault.TextFault.TheVariants.{Memory};

use std::alloc::{AllocError, AllocFailed};
use thiserror::Error;

/// What is wrong with a text, before its lines are looked at.
#[derive(Clone, Copy, Debug, PartialEq, Eq, Error)]
pub enum TextFault {
    /// The text has more than 2^24 bytes.
    #[error("the text has more than 16777216 bytes")]
    TooLong,
    /// A control byte is on this physical line, counted from 1.
    #[error("line {0} has a byte that no text has")]
    BadByte(u32),
    /// Memory ran out.
    #[error("memory ran out")]
    Memory,
}

impl From<AllocError> for TextFault {
    ghost from_gives = { λ _ e. e ≡ Memory };

    fn from(_e: AllocError) -> TextFault {
        TextFault::Memory
    }
}

impl<T: Drop> From<AllocFailed<T>> for TextFault {
    ghost from_gives = { λ _ e. e ≡ Memory };

    fn from(_e: AllocFailed<T>) -> TextFault {
        TextFault::Memory
    }
}

impl TextFault {
    /// The line of the fault; 0 where it has none.
    pub fn line(self) -> u32
        ensures { result ≡ text_line self }
    {
        match self {
            TextFault::BadByte(line) => line,
            TextFault::TooLong | TextFault::Memory => 0,
        }
    }

    /// The name of the fault.
    pub fn name(self) -> &'static [u8]
        ensures { result.now ≡ text_name self }
    {
        match self {
            TextFault::TooLong => b"TooLong",
            TextFault::BadByte(_) => b"BadByte",
            TextFault::Memory => b"Memory",
        }
    }

    /// Whether memory ran out.
    pub fn is_memory(self) -> bool
        ensures { result ≡ is_text_memory self }
    {
        matches!(self, TextFault::Memory)
    }
}
