//! The lines of a report on the lines of the routing file that name overused nodes.

ghost use Rattle.std.specs.Prelude.{◌≡◌, ◌<◌, length, option_copied};
ghost use Rattle.text_output.specs.Printing.{PrintsTo};
ghost use Rattle.report_run.specs.Named.{named_at, named_text, naming_line, naming_lines, overused_on};

use route_file::node_named;
use route_report::is_over;
use rr_graph::Device;
use text_output::{ByteSink, Piece, Printer};
use vpr_text::Lines;

/// Prints that a line names a node.
#[tactic(auto, unfolding(crate::specs::Named::naming_line))]
fn put_naming<W: ByteSink>(out: &mut Printer<'_, W>, line: u32, node: u32)
    ensures { PrintsTo W.ByteSink out.old out.new (naming_line line node) }
{
    out.put_pieces(&[
        Piece::Text(b"line "),
        Piece::Number(line),
        Piece::Text(b" node "),
        Piece::Number(node),
        Piece::Text(b"\n"),
    ]);
}

/// Returns the overused node that a line of the file names, if it names one.
pub fn overused_on(lines: &Lines<'_>, device: &Device, uses: &[u16], index: usize) -> Option<u32>
    ensures { result ≡ overused_on device.now uses.now lines.now index }
{
    let Some(node) = node_named(lines, device, index) else {
        return None;
    };
    if is_over(device, uses, node) {
        Some(node)
    } else {
        None
    }
}

/// Prints that a line names an overused node, if it does.
fn put_named<W: ByteSink>(out: &mut Printer<'_, W>, line: u32, node: Option<u32>)
    ensures { PrintsTo W.ByteSink out.old out.new (named_text line node) }
{
    if let Some(node) = node {
        put_naming(out, line, node);
    }
}

/// Prints that a line of the file names an overused node, if it does.
fn put_named_at<W: ByteSink>(
    out: &mut Printer<'_, W>,
    device: &Device,
    uses: &[u16],
    lines: &Lines<'_>,
    index: usize,
)
    requires { index < length lines.now }
    ensures { PrintsTo W.ByteSink out.old out.new
        (named_at device.now uses.now lines.now index) }
{
    let node = overused_on(lines, device, uses, index);
    put_named(out, lines.at(index), node);
}

/// Prints which lines of the file name nodes that are overused by these uses.
pub(crate) fn put_naming_lines<W: ByteSink>(
    out: &mut Printer<'_, W>,
    device: &Device,
    uses: &[u16],
    lines: &Lines<'_>,
)
    ensures { PrintsTo W.ByteSink out.old out.new
        (naming_lines device.now uses.now lines.now) }
{
    for index in 0..lines.len() {
        put_named_at(out, device, uses, lines, index);
    }
}
