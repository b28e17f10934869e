//! The words of a script's lines, the values of a session that its calls make and use, and the
//! gates that a call can name.
#![tactic(auto)]

pub mod answer;
pub mod asked;
pub mod bounds;
pub mod counting;
pub mod delaying;
pub mod designs;
pub mod events;
pub mod holding;
pub mod lab_gate;
pub mod listening;
pub mod meeting;
pub mod patience;
pub mod session;
pub mod sinks;
pub mod sources;
pub mod timing;
pub mod told;
pub mod trees;
pub mod trial_ends;
pub mod unanswered;
pub mod words;
