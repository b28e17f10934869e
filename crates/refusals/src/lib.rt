//! Advice on what is refused, in addition to its fault: for a file the line, the word, and what to
//! do; for VPR's options what takes their places. Also which names of files are refused.
#![tactic(auto)]

mod advice;
mod foreign;
mod location;
mod pin_counts;
mod refusal;
mod standard_input;
mod vpr_options;

pub use advice::{Advice, Offender, advice_on};
pub use refusal::{FileRead, FilesRead, tell_refusal};
pub use standard_input::{NameFault, first_standard_input, input_fault, is_standard_input};
pub use vpr_options::tell_vpr_options;
