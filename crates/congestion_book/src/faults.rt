//! Why an event is refused.

ghost use Rattle.std.specs.Prelude.{◌≡◌};
ghost use Rattle.congestion_book.specs.declared.faults.CloseFault.TheVariants.{Memory};

use route_tree::TreeFault;
use std::alloc::{AllocError, AllocFailed};
use thiserror::Error;

/// Why a draw is refused.
#[derive(Clone, Copy, Debug, PartialEq, Eq, Error)]
pub enum DrawFault {
    /// The view has another number of nodes than the problem's device.
    #[error("the view is for another number of nodes")]
    ViewSize,
}

/// Why a commit is refused.
#[derive(Clone, Copy, Debug, PartialEq, Eq, Error)]
pub enum CommitFault {
    /// The worker doesn't hold the net.
    #[error("the worker does not hold the net")]
    NotHeld,
    /// The tree doesn't route the net.
    #[error("the tree does not route the net: {0}")]
    Illegal(TreeFault),
}

/// Why a pass is refused.
#[derive(Clone, Copy, Debug, PartialEq, Eq, Error)]
pub enum PassFault {
    /// The worker doesn't hold the net.
    #[error("the worker does not hold the net")]
    NotHeld,
}

/// Why a close is refused.
#[derive(Clone, Copy, Debug, PartialEq, Eq, Error)]
pub enum CloseFault {
    /// The least net that had no turn.
    #[error("net {0} had no turn")]
    Unfinished(u32),
    /// 500 iterations were closed.
    #[error("no further iteration can be closed")]
    Full,
    /// Memory ran out.
    #[error("memory ran out")]
    Memory,
}
