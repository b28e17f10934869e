//! Why a routing could not be read.

ghost use Rattle.std.specs.Prelude.{◌≡◌};
ghost use Rattle.route_file.specs.declared.fault.RouteFileFault.TheVariants.{Memory};
ghost use Rattle.route_file.specs.Faults.{route_line, route_name, is_route_memory};

use std::alloc::{AllocError, AllocFailed};
use thiserror::Error;
use vpr_text::TextFault;

/// What is wrong with a `.route` file. A line is the number of the faulty logical line: that of its
/// first physical line, counted from 1; 0 is the end of the file.
#[derive(Clone, Copy, Debug, PartialEq, Eq, Error)]
pub enum RouteFileFault {
    /// The text has no lines.
    #[error("{0}")]
    Text(TextFault),
    /// The line is none that can be there; at line 0, one of the first two lines isn't there.
    #[error("line {0} can't stand there")]
    BadLine(u32),
    /// The array has another size than the device.
    #[error("line {0} has another size")]
    ArraySize(u32),
    /// The netlist has no net of that name, or none that is written in this form.
    #[error("line {0} names no net")]
    UnknownNet(u32),
    /// An earlier line begins the section of the same net.
    #[error("line {0} names a net again")]
    NetTwice(u32),
    /// The device has no such node.
    #[error("line {0} names no node")]
    NoNode(u32),
    /// The node after a sink wasn't in the net's section before.
    #[error("line {0} begins off the tree")]
    Detached(u32),
    /// Memory ran out.
    #[error("memory ran out")]
    Memory,
}

impl From<AllocError> for RouteFileFault {
    ghost from_gives = { λ _ e. e ≡ Memory };

    fn from(_e: AllocError) -> RouteFileFault {
        RouteFileFault::Memory
    }
}

impl<T: Drop> From<AllocFailed<T>> for RouteFileFault {
    ghost from_gives = { λ _ e. e ≡ Memory };

    fn from(_e: AllocFailed<T>) -> RouteFileFault {
        RouteFileFault::Memory
    }
}

impl RouteFileFault {
    /// The line of the fault; 0 if it has none.
    pub fn line(self) -> u32
        ensures { result ≡ route_line self }
    {
        match self {
            RouteFileFault::Text(fault) => fault.line(),
            RouteFileFault::BadLine(line)
            | RouteFileFault::ArraySize(line)
            | RouteFileFault::UnknownNet(line)
            | RouteFileFault::NetTwice(line)
            | RouteFileFault::NoNode(line)
            | RouteFileFault::Detached(line) => line,
            RouteFileFault::Memory => 0,
        }
    }

    /// The name of the fault; that of a text is its own.
    pub fn name(self) -> &'static [u8]
        ensures { result.now ≡ route_name self }
    {
        match self {
            RouteFileFault::Text(fault) => fault.name(),
            RouteFileFault::BadLine(_) => b"BadLine",
            RouteFileFault::ArraySize(_) => b"ArraySize",
            RouteFileFault::UnknownNet(_) => b"UnknownNet",
            RouteFileFault::NetTwice(_) => b"NetTwice",
            RouteFileFault::NoNode(_) => b"NoNode",
            RouteFileFault::Detached(_) => b"Detached",
            RouteFileFault::Memory => b"Memory",
        }
    }

    /// Whether memory ran out.
    pub fn is_memory(self) -> bool
        ensures { result ≡ is_route_memory self }
    {
        matches!(
            self,
            RouteFileFault::Memory | RouteFileFault::Text(TextFault::Memory)
        )
    }
}
