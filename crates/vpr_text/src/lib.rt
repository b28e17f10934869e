//! The text of a VPR file: its logical lines and words, its numbers, and the bytes that carry it.
#![tactic(auto)]

mod array_size;
mod fault;
mod line;
mod numbers;
mod output;
mod reading;
mod sink;
mod source;
mod split;
mod std_streams;
mod words;

pub use array_size::begins_size_line;
pub use fault::TextFault;
pub use line::Lines;
pub use numbers::{fixed, is_decimal, number};
pub use output::OutputBuffer;
pub use reading::{ReadFault, read_all};
pub use sink::ByteSink;
pub use source::{Broken, ByteSource};
pub use split::lines;
pub use std_streams::Adapted;
pub use words::{Words, is_text, line_number};
