//! The netlist of T-VPack 4.30: its blocks, the nets that connect them, and what drives each net.
#![tactic(auto)]

mod block;
mod blocks;
mod connection;
mod fault;
mod judge;
mod line;
mod names;
mod net;
mod netlist;
mod reading;
mod rows;
mod seen;
mod terminal;
mod whole_file;

pub use block::Block;
pub use fault::NetFault;
pub use net::Net;
pub use netlist::Netlist;
pub use reading::parse;
pub use terminal::{BlockKind, Terminal};
