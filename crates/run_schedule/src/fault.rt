//! Why a schedule can't be read, or doesn't fit a run.

ghost use Rattle.std.specs.Prelude.{◌≡◌};
ghost use Rattle.run_schedule.specs.Faults.{is_memory, kind_name};
ghost use Rattle.run_schedule.specs.declared.fault.FaultKind.TheVariants.{Memory};

use std::alloc::{AllocError, AllocFailed};
use thiserror::Error;

/// What is wrong with a line of a schedule. `Other` are faults of a schedule of another run, `More`
/// those of a schedule that ends before the run does.
#[derive(Clone, Copy, Debug, PartialEq, Eq, Error)]
pub enum FaultKind {
    /// The text doesn't begin as that of a schedule.
    #[error("isn't the first line of a schedule")]
    NotSchedule,
    /// The head has no such line, or a number on it is out of range.
    #[error("doesn't belong in the head")]
    BadHead,
    /// The line isn't three numbers.
    #[error("isn't a turn")]
    BadTurn,
    /// The problem has no net of that number.
    #[error("names no net")]
    UnknownNet,
    /// The net has had its turn in this iteration.
    #[error("names a net that has already had its turn")]
    TurnedTwice,
    /// The run has no worker of that number.
    #[error("names no worker")]
    UnknownWorker,
    /// The worker had seen more turns than were made, or fewer than at its previous turn.
    #[error("has a number of turns that the worker can't have seen")]
    BadSeen,
    /// A net has had no turn in the iteration that ends before the line.
    #[error("ends an iteration in which some net has no turn")]
    Unturned,
    /// The line doesn't begin the next iteration, or there are more than 500.
    #[error("doesn't begin the next iteration")]
    BadIteration,
    /// The line doesn't begin the trial of a width from 1 to 256.
    #[error("doesn't begin the trial of a width")]
    BadWidth,
    /// The last line isn't `end`.
    #[error("isn't `end`")]
    BadEnd,
    /// Memory ran out.
    #[error("couldn't be read: out of memory")]
    Memory,
    #[error("is of another version of the program")]
    OtherProgram,
    #[error("is of another run")]
    OtherRun,
    #[error("is of another netlist")]
    OtherNet,
    #[error("is of another architecture")]
    OtherArch,
    #[error("is of another placement")]
    OtherPlace,
    #[error("is of another number of workers")]
    OtherWorkers,
    #[error("has another value of the option")]
    OtherOptions,
    #[error("is of another number of nets")]
    OtherNets,
    #[error("is of another width")]
    OtherWidth,
    #[error("ends the schedule, but the run makes another trial")]
    MoreTrials,
    #[error("ends a trial, but the run makes another iteration")]
    MoreIterations,
}

impl From<AllocError> for FaultKind {
    ghost from_gives = { λ _ e. e ≡ Memory };

    fn from(_e: AllocError) -> FaultKind {
        FaultKind::Memory
    }
}

impl<T: Drop> From<AllocFailed<T>> for FaultKind {
    ghost from_gives = { λ _ e. e ≡ Memory };

    fn from(_e: AllocFailed<T>) -> FaultKind {
        FaultKind::Memory
    }
}

impl FaultKind {
    /// Returns its name.
    pub fn name(self) -> &'static [u8]
        ensures { result.now ≡ kind_name self }
    {
        match self {
            FaultKind::NotSchedule => b"NotSchedule",
            FaultKind::BadHead => b"BadHead",
            FaultKind::BadTurn => b"BadTurn",
            FaultKind::UnknownNet => b"UnknownNet",
            FaultKind::TurnedTwice => b"TurnedTwice",
            FaultKind::UnknownWorker => b"UnknownWorker",
            FaultKind::BadSeen => b"BadSeen",
            FaultKind::Unturned => b"Unturned",
            FaultKind::BadIteration => b"BadIteration",
            FaultKind::BadWidth => b"BadWidth",
            FaultKind::BadEnd => b"BadEnd",
            FaultKind::Memory => b"Memory",
            FaultKind::OtherProgram => b"OtherProgram",
            FaultKind::OtherRun => b"OtherRun",
            FaultKind::OtherNet => b"OtherNet",
            FaultKind::OtherArch => b"OtherArch",
            FaultKind::OtherPlace => b"OtherPlace",
            FaultKind::OtherWorkers => b"OtherWorkers",
            FaultKind::OtherOptions => b"OtherOptions",
            FaultKind::OtherNets => b"OtherNets",
            FaultKind::OtherWidth => b"OtherWidth",
            FaultKind::MoreTrials => b"MoreTrials",
            FaultKind::MoreIterations => b"MoreIterations",
        }
    }

    /// Returns whether memory ran out.
    pub fn is_memory(self) -> bool
        ensures { result ≡ is_memory self }
    {
        matches!(self, FaultKind::Memory)
    }
}

/// What is wrong with a schedule, and on which line, counted from 1.
#[derive(Clone, Copy, Debug, PartialEq, Eq, Error)]
#[error("line {line} {kind}")]
pub struct ScheduleFault {
    pub line: u32,
    pub kind: FaultKind,
}
