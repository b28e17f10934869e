//! The command line of the program: its commands and options, their helps, and the values that were
//! given.
#![tactic(auto)]

mod choices;
pub mod command;
mod given;
pub mod help;
mod options;
