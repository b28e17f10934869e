//! Why a netlist could not be read.

ghost use Rattle.std.specs.Prelude.{◌≡◌};
ghost use Rattle.net_file.specs.declared.fault.NetFault.TheVariants.{Memory};
ghost use Rattle.net_file.specs.Faults.{net_line, net_name, is_net_memory};
ghost use Rattle.net_file.specs.Reading.{at_line};

use std::alloc::{AllocError, AllocFailed};
use thiserror::Error;
use vpr_text::TextFault;

/// What is wrong with a netlist. A line is the number of the faulty logical line: that of its first
/// physical line, counted from 1; 0 is the end of the file. The faults of nets carry the line of
/// the net's first pinlist.
#[derive(Clone, Copy, Debug, PartialEq, Eq, Error)]
pub enum NetFault {
    /// The text has no lines.
    #[error("{0}")]
    Text(TextFault),
    /// The line is not allowed there; at line 0, an element has no pinlist.
    #[error("line {0} can't stand there")]
    BadLine(u32),
    /// A pinlist has more or fewer names than its block has pins.
    #[error("line {0} has another number of nets than the block has pins")]
    PinCount(u32),
    /// An earlier block has the same name.
    #[error("line {0} names a block that is there")]
    DoubleName(u32),
    /// Nothing drives the net.
    #[error("a net first named on line {0} has no driver")]
    NoDriver(u32),
    /// Two pins drive the net.
    #[error("a net first named on line {0} has two drivers")]
    TwoDrivers(u32),
    /// Two pins of one input class of a block are on the net.
    #[error("a net first named on line {0} is twice on a class of one block")]
    DoubleSink(u32),
    /// The net has to be routed to a pin that is marked `global`.
    #[error("a net first named on line {0} isn't global and is on a global pin")]
    GlobalPin(u32),
    /// There are more than 20,000 blocks or 65,535 nets.
    #[error("line {0} has too many")]
    TooMany(u32),
    /// Memory ran out.
    #[error("memory ran out")]
    Memory,
}

impl From<AllocError> for NetFault {
    ghost from_gives = { λ _ e. e ≡ Memory };

    fn from(_e: AllocError) -> NetFault {
        NetFault::Memory
    }
}

impl<T: Drop> From<AllocFailed<T>> for NetFault {
    ghost from_gives = { λ _ e. e ≡ Memory };

    fn from(_e: AllocFailed<T>) -> NetFault {
        NetFault::Memory
    }
}

impl NetFault {
    /// The line of the fault; 0 where it has none.
    pub fn line(self) -> u32
        ensures { result ≡ net_line self }
    {
        match self {
            NetFault::Text(fault) => fault.line(),
            NetFault::BadLine(line)
            | NetFault::PinCount(line)
            | NetFault::DoubleName(line)
            | NetFault::NoDriver(line)
            | NetFault::TwoDrivers(line)
            | NetFault::DoubleSink(line)
            | NetFault::GlobalPin(line)
            | NetFault::TooMany(line) => line,
            NetFault::Memory => 0,
        }
    }

    /// The name of the fault; that of a text is its own.
    pub fn name(self) -> &'static [u8]
        ensures { result.now ≡ net_name self }
    {
        match self {
            NetFault::Text(fault) => fault.name(),
            NetFault::BadLine(_) => b"BadLine",
            NetFault::PinCount(_) => b"PinCount",
            NetFault::DoubleName(_) => b"DoubleName",
            NetFault::NoDriver(_) => b"NoDriver",
            NetFault::TwoDrivers(_) => b"TwoDrivers",
            NetFault::DoubleSink(_) => b"DoubleSink",
            NetFault::GlobalPin(_) => b"GlobalPin",
            NetFault::TooMany(_) => b"TooMany",
            NetFault::Memory => b"Memory",
        }
    }

    /// Whether memory ran out.
    pub fn is_memory(self) -> bool
        ensures { result ≡ is_net_memory self }
    {
        matches!(self, NetFault::Memory | NetFault::Text(TextFault::Memory))
    }
}

/// What is wrong with one line.
#[derive(Clone, Copy, Debug, PartialEq, Eq)]
pub(crate) enum LineFault {
    BadLine,
    PinCount,
    DoubleName,
    TooMany,
}

impl LineFault {
    /// The fault of a netlist whose line `line` has this one.
    pub(crate) fn at(self, line: u32) -> NetFault
        ensures { result ≡ at_line self line }
    {
        match self {
            LineFault::BadLine => NetFault::BadLine(line),
            LineFault::PinCount => NetFault::PinCount(line),
            LineFault::DoubleName => NetFault::DoubleName(line),
            LineFault::TooMany => NetFault::TooMany(line),
        }
    }
}
