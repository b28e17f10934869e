//! What the search of one net answers: a tree from its source to all of its sinks, each way added
//! to it one of least cost (McMurchie and Ebeling 1995; Dijkstra 1959).
#![tactic(auto)]

mod base_costs;
mod search_outcome;

pub use base_costs::{INPUT_PIN_BASE, WIRE_BASE};
pub use search_outcome::{Found, SearchFault};
