//! The two lines that a routing begins with.

ghost use Rattle.std.specs.Prelude.{◌≡◌};
ghost use Rattle.route_file.specs.Judge.{ends_well, is_size_line, is_size_of, is_title, header_fault};

use crate::fault::RouteFileFault;
use rr_graph::Device;
use vpr_text::{Lines, Words, begins_size_line, line_number};

/// Whether the line ends in `blocks`, with or without a period.
fn ends_well(words: &Words) -> bool
    ensures { result ≡ ends_well words.now }
{
    words.is(6, "blocks.") || words.is(6, "blocks")
}

/// Whether the line gives the size of the array.
#[tactic(auto, unfolding(crate::specs::Judge::is_size_line))]
fn is_size_line(words: &Words) -> bool
    ensures { result ≡ is_size_line words.now }
{
    begins_size_line(words) && ends_well(words)
}

/// Whether the size is that of the device.
fn is_size_of(device: &Device, words: &Words) -> bool
    ensures { result ≡ is_size_of device.now words.now }
{
    words.number_or_0(2) == device.nx() && words.number_or_0(4) == device.ny()
}

fn is_title(words: &Words) -> bool
    ensures { result ≡ is_title words.now }
{
    words.len() == 1 && words.is(0, "Routing:")
}

/// The first fault of the two lines.
#[tactic(auto, unfolding(crate::specs::Judge::header_fault))]
pub(crate) fn header_fault(device: &Device, lines: &Lines) -> Option<RouteFileFault>
    ensures { result ≡ header_fault device.now lines.now }
{
    if lines.len() > 0 && !is_size_line(&Words::new(lines, 0)) {
        return Some(RouteFileFault::BadLine(line_number(lines, 0)));
    }
    if lines.len() > 0 && !is_size_of(device, &Words::new(lines, 0)) {
        return Some(RouteFileFault::ArraySize(line_number(lines, 0)));
    }
    if lines.len() < 2 {
        return Some(RouteFileFault::BadLine(0));
    }
    if !is_title(&Words::new(lines, 1)) {
        return Some(RouteFileFault::BadLine(line_number(lines, 1)));
    }
    None
}
