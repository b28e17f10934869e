//! One iteration of a negotiation by several workers, each in a thread of its own, on one
//! congestion book under one lock.
#![tactic(auto)]

mod board;
mod comparison;
mod course;
mod desk;
mod fault;
mod gathering;
mod had_room;
mod history;
mod iterating;
mod made_turn;
mod opening;
mod page;
mod portion;
mod replica;
mod report;
mod scheduled;
mod search;
mod share;
mod staff;
mod threads;
mod turn_desk;
mod turn_or_look;
mod worker;
mod workspace;

pub use desk::Desk;
pub use fault::WorkFault;
pub use gates::{BothGates, Gate, OpenGate, Schedule, ScheduledTurn, TrialEnd};
pub use iterating::{iterate, iterate_in};
pub use report::{Report, ReportEntry};
pub use share::{Round, Share};
pub use turn_or_look::TurnOrLook;
pub use workspace::Workspace;
