//! The edges of a device's routing-resource graph, and the successors of its nodes
//! (Betz, Rose and Marquardt 1999; VPR and T-VPack manual 4.30).
#![tactic(auto)]

mod device_graph;
mod edges;
mod fanout;
mod found_node;
mod opins;
mod successors;
mod terminals;

pub use device_graph::DeviceGraph;
pub use found_node::FoundNode;
