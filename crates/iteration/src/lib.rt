//! The driver of a negotiation: iteration by iteration, until each net has a tree and no node is
//! overused (McMurchie and Ebeling 1995).
#![tactic(auto)]

mod closing;
mod negotiation;
mod outcome;
mod routing;

pub use negotiation::negotiate;
pub use outcome::Outcome;
pub use routing::routing_of;
