//! The ground of a search: which nodes it may enter, what they cost, and lower bounds on the wires
//! to the nearest sink.
#![tactic(auto)]

mod boxes;
mod eight_boxes;
mod ground;
mod nearest;
mod tables;

pub use boxes::BoundingBox;
pub use ground::{Ground, PIN, WIRE};
pub use nearest::{Nearest, Sight, SinkBox};
pub use tables::{PreparedProblem, SearchTables};
