//! The search for the least channel width: trials of widths one after another, each a negotiation
//! of its own.
#![tactic(auto)]

mod report;
mod search;
mod trial;
mod upward;

pub use report::{LeastWidth, WidthReport};
pub use search::{Negotiating, PlacedDesign, least_width, negotiate_at};
pub use trial::Trial;
pub use upward::upward_width;
