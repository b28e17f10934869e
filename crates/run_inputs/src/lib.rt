//! The inputs of a run, file by file: the stages in which a design is read, and what can go wrong
//! in a run.
#![tactic(auto)]

mod design;
mod fault;
mod inputs;
mod net_names;
mod netlist_text;
mod placed;

pub use design::Design;
pub use fault::{AppFault, InputFile, print_fault, status};
pub use inputs::{parse_routing, read_arch, read_input, read_routing};
pub use net_names::{net_name, number_of_net};
pub use netlist_text::NetlistText;
pub use placed::PlacedNetlist;
