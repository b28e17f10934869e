//! What is called between the steps of a negotiation and of a search of widths.
#![tactic(auto)]

mod both;
mod gate;
mod maybe;
mod schedule;
mod trial;

pub use both::BothGates;
pub use gate::{Gate, OpenGate};
pub use schedule::{Schedule, ScheduledTurn};
pub use trial::TrialEnd;
