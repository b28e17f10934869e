//! Searches for a cut of a placed design that gives a high bound of the width.
#![tactic(auto)]

mod candidates;
mod climbing;
mod draft;
mod drafted;
mod greedy;
mod masks;
mod narrow;
mod region;
mod search;
mod starts;
mod terminals;
mod worth;

pub use search::{FoundCut, least_possible};
