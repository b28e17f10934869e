//! Nodes and steps, and where something is wrong, printed through a buffer.

ghost use Rattle.std.specs.Prelude.{◌≡◌, ◌++◌};
ghost use Rattle.text_output.specs.Printing.{PrintsTo};
ghost use Rattle.route_explain.specs.Lines.{line_text, where_text};
ghost use Rattle.route_explain.specs.Reasons.{end_text, node_text, pair_text, step_text};

use crate::steps::pair_at;
use rr_graph::Device;
use text_output::{ByteSink, Piece, Printer};

/// Prints words, and then a node.
pub(crate) fn put_after<'a, W: ByteSink>(
    out: &mut Printer<'_, W>,
    device: &'a Device,
    words: &'a [u8],
    node: u32,
)
    ensures { PrintsTo W.ByteSink out.old out.new
        (words.now ++ node_text device.now node) }
{
    out.put_pieces(&[Piece::Text(words), Piece::Node(device, node)]);
}

/// Prints the nodes of a step.
fn put_pair<W: ByteSink>(out: &mut Printer<'_, W>, device: &Device, pair: (u32, u32))
    ensures { PrintsTo W.ByteSink out.old out.new
        (pair_text device.now pair) }
{
    out.put_pieces(&[
        Piece::Node(device, pair.0),
        Piece::Text(b" to "),
        Piece::Node(device, pair.1),
    ]);
}

/// Prints the nodes of the step at a row, if there is one.
pub(crate) fn put_step<W: ByteSink>(
    out: &mut Printer<'_, W>,
    device: &Device,
    pairs: &[(u32, u32)],
    row: Option<usize>,
)
    ensures { PrintsTo W.ByteSink out.old out.new
        (step_text device.now pairs.now row) }
{
    if let Some(row) = row {
        put_pair(out, device, pair_at(pairs, row));
    }
}

/// Prints the node at which the step at a row ends, if there is one.
pub(crate) fn put_end<W: ByteSink>(
    out: &mut Printer<'_, W>,
    device: &Device,
    pairs: &[(u32, u32)],
    row: Option<usize>,
)
    ensures { PrintsTo W.ByteSink out.old out.new
        (end_text device.now pairs.now row) }
{
    if let Some(row) = row {
        out.put_node_of(device, pair_at(pairs, row).1);
    }
}

/// Prints the number of a line after a file's name, if there is such a line.
fn put_line<W: ByteSink>(out: &mut Printer<'_, W>, line: u32)
    ensures { PrintsTo W.ByteSink out.old out.new (line_text line) }
{
    if line != 0 {
        out.push(b":");
        out.put_number(line);
    }
}

/// Prints the file and the line in which something is wrong.
pub(crate) fn put_where<W: ByteSink>(out: &mut Printer<'_, W>, path: &[u8], line: u32)
    ensures { PrintsTo W.ByteSink out.old out.new
        (where_text path.now line) }
{
    out.push(path);
    put_line(out, line);
    out.push(b": ");
}
