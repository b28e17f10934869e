//! The `nets` command over any sources and sink: the routed nets of a placed design, by the numbers
//! of the nodes that they join.
#![tactic(auto)]

mod lines;
mod run;

pub use run::{NetsOptions, nets_run};
