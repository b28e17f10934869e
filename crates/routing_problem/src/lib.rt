//! Devices, and routing problems on them: the nets that are to be routed
//! (Betz, Rose and Marquardt 1999; VPR and T-VPack manual 4.30).
#![tactic(auto)]

mod device;
mod equality;
mod fault;
mod finder;
mod nets;
mod parts_fault;
mod problem;

pub use channel_tables::{Kind, Label, MOST_TRACKS, Mode, Node, Span};
pub use device::Device;
pub use fault::DeviceFault;
pub use finder::EdgeFinder;
pub use nets::Terminals;
pub use parts_fault::PartsFault;
pub use problem::Problem;
