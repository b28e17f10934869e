//! The calls of texts, architectures, netlists, placements and devices, and of problems, trees and
//! routings.
#![tactic(auto)]

pub mod arch_calls;
pub mod design_calls;
pub mod device_calls;
pub mod file_calls;
pub mod node_calls;
pub mod other_calls;
pub mod problem_calls;
pub mod reading_back;
pub mod report_calls;
pub mod route_text_calls;
pub mod routing_calls;
pub mod text_calls;
pub mod tree_calls;
pub mod walk_calls;
