//! What is wrong with a routing, net by net and node by node, in words.
#![tactic(auto)]

mod explained;
mod explanation;
mod findings;
mod index;
mod indexed_list;
pub mod laws;
mod lines;
mod nets;
mod order;
mod places;
mod read_routing;
mod reasons;
mod run;
mod spots;
mod starts;
mod steps;
mod switches;
mod text;
mod users;
mod uses;

pub use explained::Explained;
pub use explanation::explain;
pub use read_routing::ReadRouting;
pub use run::explain_run;
