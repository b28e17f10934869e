//! The search of one net over groups of wires: what holds for all tracks of a group is done for all
//! of them at once (McMurchie and Ebeling 1995; Dijkstra 1959).
#![tactic(auto)]

mod ceiling;
mod labels;
mod route;
mod scratch;
mod ties;
mod wave;

pub use route::{OldTree, route_net};
pub use scratch::Scratch;
