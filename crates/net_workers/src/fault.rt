//! Why an iteration has no result.

ghost use Rattle.std.specs.Prelude.{◌≡◌};
ghost use Rattle.net_workers.specs.declared.fault.WorkFault.TheVariants.{Memory};
ghost use Rattle.net_workers.specs.declared.fault.TurnFault.TheVariants as turn;
ghost use Rattle.net_workers.specs.kept.Faults.{work_fault};

use std::alloc::{AllocError, AllocFailed};
use thiserror::Error;

/// The reason why an iteration has no result. If there are several, the one that is listed first
/// here is returned.
#[derive(Clone, Copy, Debug, PartialEq, Eq, PartialOrd, Ord, Error)]
pub enum WorkFault {
    /// A thread could not be started.
    #[error("a thread could not be started")]
    NoThread,
    /// Memory ran out.
    #[error("memory ran out")]
    Memory,
    /// A report disagrees with the book, the book refused a call, a schedule can't be followed, or
    /// the gate didn't accept the turns.
    #[error("a report disagrees with the book")]
    Astray,
}

impl From<AllocError> for WorkFault {
    ghost from_gives = { λ _ e. e ≡ Memory };

    fn from(_e: AllocError) -> WorkFault {
        WorkFault::Memory
    }
}

impl<T: Drop> From<AllocFailed<T>> for WorkFault {
    ghost from_gives = { λ _ e. e ≡ Memory };

    fn from(_e: AllocFailed<T>) -> WorkFault {
        WorkFault::Memory
    }
}

/// The reason why a worker stops, or an iteration whose workers had their threads.
#[derive(Clone, Copy, Debug, PartialEq, Eq, PartialOrd, Ord)]
pub(crate) enum TurnFault {
    /// Memory ran out.
    Memory,
    /// The book refused a call, a schedule can't be followed, or the gate didn't accept the turns.
    Astray,
}

impl From<TurnFault> for WorkFault {
    ghost from_gives = { λ fault e. e ≡ work_fault fault };

    fn from(fault: TurnFault) -> WorkFault {
        match fault {
            TurnFault::Memory => WorkFault::Memory,
            TurnFault::Astray => WorkFault::Astray,
        }
    }
}

impl From<AllocError> for TurnFault {
    ghost from_gives = { λ _ e. e ≡ turn.Memory };

    fn from(_e: AllocError) -> TurnFault {
        TurnFault::Memory
    }
}

impl<T: Drop> From<AllocFailed<T>> for TurnFault {
    ghost from_gives = { λ _ e. e ≡ turn.Memory };

    fn from(_e: AllocFailed<T>) -> TurnFault {
        TurnFault::Memory
    }
}
