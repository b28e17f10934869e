//! The nodes of a device's routing-resource graph: the number of a node, and the node of a number
//! (Betz, Rose and Marquardt 1999; VPR and T-VPack manual 4.30).
#![tactic(auto)]

mod block;
mod decoding;
mod divisor;
mod ids;
mod nodes;
mod numbering;
mod numbers;
mod starts;
mod strides;

pub use numbers::NodeNumbers;
