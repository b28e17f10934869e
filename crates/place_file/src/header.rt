//! The two lines that a placement begins with.

ghost use Rattle.std.specs.Prelude.{◌≡◌, ◌≤◌, length};
ghost use Rattle.place_file.specs.Judge.{header_fault};
ghost use Rattle.place_file.specs.Lines.{is_title, is_size_line, array_on};

use crate::fault::PlaceFault;
use crate::site::{Array, is_size};
use vpr_text::{Lines, Words, begins_size_line};

/// Whether the line names a netlist and an architecture.
#[tactic(auto, unfolding(crate::specs::Lines::is_title))]
fn is_title(words: &Words) -> bool
    ensures { result ≡ is_title words.now }
{
    words.len() == 6
        && words.is(0, "Netlist")
        && words.is(1, "file:")
        && words.is(3, "Architecture")
        && words.is(4, "file:")
}

/// Whether the line gives the size of the array.
#[tactic(auto, unfolding(crate::specs::Lines::is_size_line))]
fn is_size_line(words: &Words) -> bool
    ensures { result ≡ is_size_line words.now }
{
    begins_size_line(words) && words.is(6, "blocks")
}

/// The array whose size the second line gives, with `io_rat` pads at a place.
pub(crate) fn array_on(io_rat: u32, lines: &Lines) -> Array
    requires { 2 ≤ length lines.now }
    ensures { result ≡ array_on io_rat lines.now }
{
    let words = Words::new(lines, 1);
    Array {
        io_rat,
        nx: words.number_or_0(2),
        ny: words.number_or_0(4),
    }
}

/// The first fault of the two lines.
#[tactic(auto, unfolding(crate::specs::Judge::header_fault))]
pub(crate) fn header_fault(io_rat: u32, lines: &Lines) -> Option<PlaceFault>
    ensures { result ≡ header_fault io_rat lines.now }
{
    if lines.len() > 0 && !is_title(&Words::new(lines, 0)) {
        return Some(PlaceFault::BadLine(lines.at(0)));
    }
    if lines.len() < 2 {
        return Some(PlaceFault::BadLine(0));
    }
    if !is_size_line(&Words::new(lines, 1)) {
        return Some(PlaceFault::BadLine(lines.at(1)));
    }
    if !is_size(array_on(io_rat, lines)) {
        return Some(PlaceFault::ArraySize(lines.at(1)));
    }
    None
}
