//! The placement of VPR 4.30: the size of the array, and the site of each block.
#![tactic(auto)]

mod fault;
mod header;
mod judge;
mod placement;
mod reading;
mod rows;
mod site;
mod sites;

pub use fault::PlaceFault;
pub use placement::Placement;
pub use reading::parse;
pub use site::Site;
