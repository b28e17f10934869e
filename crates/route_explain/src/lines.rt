//! The line of the file that a fault is about.

ghost use Rattle.std.specs.Prelude.{◌≡◌, ◌&&◌, ◌==◌, None, drop};
ghost use Rattle.std.specs.Option.{option_or};
ghost use Rattle.route_explain.specs.Lines.{ends_step, first_node_line, left_after, line_of_spot, spot_line, step_line};

use crate::spots::Spot;
use route_file::{begins_section, node_named};
use rr_graph::Device;
use vpr_text::{Lines, line_number};

/// Returns the number of the line that names the first node of a section, or 0 if none does.
fn first_node_line(device: &Device, lines: &Lines<'_>, start: usize) -> u32
    ensures { result ≡ first_node_line device.now (drop start lines.now) }
{
    for index in start..lines.len() {
        if begins_section(lines, index) {
            return 0;
        }
        if node_named(lines, device, index).is_some() {
            return lines.at(index);
        }
    }
    0
}

/// Returns whether a step from the last node ends at the node that a line names, if it names one.
fn ends_step(device: &Device, last: Option<u32>, node: Option<u32>) -> bool
    ensures { result ≡ ends_step device.now last node }
{
    match last {
        None => false,
        Some(last) => node.is_some() && !device.is_sink(last),
    }
}

/// Returns how many of the steps are left after a line. A step ends on it if `is_step`.
fn left_after(is_step: bool, left: usize) -> usize
    ensures { result ≡ left_after is_step left }
{
    if is_step {
        left.saturating_sub(1)
    } else {
        left
    }
}

/// Returns the last node after a line that names a node or none.
fn last_after(last: Option<u32>, node: Option<u32>) -> Option<u32>
    ensures { result ≡ option_or node last }
{
    match node {
        Some(_) => node,
        None => last,
    }
}

/// Returns whether a step ends and none is left.
fn is_there(is_step: bool, left: usize) -> bool
    ensures { result ≡ (is_step && left == 0) }
{
    is_step && left == 0
}

/// Returns the number of the line at which the step at a row of a section ends, or 0 if there is
/// none.
fn step_line(device: &Device, lines: &Lines<'_>, start: usize, row: usize) -> u32
    ensures { result ≡ step_line device.now None row (drop start lines.now) }
{
    let mut last = None;
    let mut left = row;
    for index in start..lines.len() {
        if begins_section(lines, index) {
            return 0;
        }
        let node = node_named(lines, device, index);
        let is_step = ends_step(device, last, node);
        if is_there(is_step, left) {
            return lines.at(index);
        }
        left = left_after(is_step, left);
        last = last_after(last, node);
    }
    0
}

/// Returns the number of a spot's line. The section's heading is before the place `start`.
fn spot_line(device: &Device, lines: &Lines<'_>, start: usize, spot: Spot) -> u32
    ensures { result ≡ spot_line device.now lines.now start spot }
{
    match spot {
        Spot::Heading => line_number(lines, start.saturating_sub(1)),
        Spot::FirstNode => first_node_line(device, lines, start),
        Spot::StepEnd(row) => step_line(device, lines, start, row),
    }
}

/// Returns the number of a spot's line, or 0 if the file has no such section.
pub(crate) fn line_of_spot(device: &Device, lines: &Lines<'_>, start: usize, spot: Spot) -> u32
    ensures { result ≡ line_of_spot device.now lines.now start spot }
{
    if start == 0 {
        return 0;
    }
    spot_line(device, lines, start, spot)
}
