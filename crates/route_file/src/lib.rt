//! The routing file of VPR 4.30: for each net of a placed design the nodes that its routing goes
//! over. It is written, and read back.
#![tactic(auto)]

mod blocks;
mod entry;
mod fault;
mod header;
mod judge;
pub mod laws;
mod lists;
mod naming;
mod net_line;
mod node_line;
mod node_words;
mod nodes;
mod reading;
mod seen;
mod text;
mod writing;

pub use fault::RouteFileFault;
pub use naming::{begins_section, net_begun, node_named};
pub use reading::parse;
pub use writing::{WriteFault, write};
