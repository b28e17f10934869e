//! The calls of the runs of the program, of what they print and of their faults, and of reports and
//! explanations of a routing.
#![tactic(auto)]

pub mod explain_calls;
pub mod fault_calls;
pub mod progress_calls;
pub mod run_calls;
