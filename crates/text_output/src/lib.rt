//! The pieces that make up printed texts, through a printer: numbers, places, nodes.
#![tactic(auto)]

mod node;
mod number;
mod piece;
mod place;
mod printer;
#[cfg(test)]
mod tests;

pub use node::{kind_name, label_name};
pub use piece::Piece;
pub use printer::Printer;
pub use vpr_text::ByteSink;
