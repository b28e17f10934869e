//! The routing-resource graph of a device, its nodes by number and the edges among them, and the
//! routing problems of placed designs on it (Betz, Rose and Marquardt 1999; VPR and T-VPack manual
//! 4.30).
#![tactic(auto)]

mod design;
mod design_problem;

pub use arch_file::LONGEST_SIDE;
pub use channel_tables::{Kind, Label, MOST_TRACKS, Mode, Node, Span};
pub use design::SuitsDesigns;
pub use design_problem::MadeOfDesigns;
pub use routing_problem::{Device, DeviceFault, EdgeFinder, PartsFault, Problem, Terminals};
