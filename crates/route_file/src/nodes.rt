//! The node lines of a net.

ghost use Rattle.std.specs.Prelude.{◌≡◌};
ghost use Rattle.std.specs.List.{flat_map};
ghost use Rattle.text_output.specs.Printing.{PrintsTo};
ghost use Rattle.route_file.specs.TextLine.{NodeLine, line_text};
ghost use Rattle.route_file.specs.PrintedNodes.{goes_on, nodes_for, printed_nodes};
ghost use Rattle.route_file.specs.Text.{node_lines};

use crate::text::kind_field;
use rr_graph::{Device, Kind, Label, Span};
use text_output::{ByteSink, Printer, label_name};

/// Prints the line of a node, as ` CHANX (1,2)  Track: 0`.
fn put_node<W: ByteSink>(
    out: &mut Printer<'_, W>,
    kind: Kind,
    span: Span,
    label: Label,
    number: u32,
)
    ensures { PrintsTo W.ByteSink out.old out.new
        (line_text (NodeLine kind span label number)) }
{
    out.push(kind_field(kind));
    out.push(b" ");
    out.put_span(span);
    out.push(b"  ");
    out.push(label_name(label));
    out.put_number(number);
    out.push(b"\n");
}

/// Prints the line of the node with a number; nothing for what is no node.
fn put_node_at<W: ByteSink>(out: &mut Printer<'_, W>, device: &Device, id: u32)
    ensures { PrintsTo W.ByteSink out.old out.new
        (flat_map line_text (node_lines device.now id)) }
{
    let (node, span, label) = match device.described_node(id) {
        Some(described) => described,
        None => return,
    };
    put_node(out, node.kind, span, label, node.number);
}

/// Whether a pair goes on from where the one before it ended, which is no sink.
fn goes_on(device: &Device, before: Option<u32>, pair: (u32, u32)) -> bool
    ensures { result ≡ goes_on device.now before pair }
{
    match before {
        Some(end) => pair.0 == end && !device.is_sink(end),
        None => false,
    }
}

/// Prints the lines of the nodes that are named for a pair, after one that ended at `before`.
fn put_pair<W: ByteSink>(
    out: &mut Printer<'_, W>,
    device: &Device,
    before: Option<u32>,
    pair: (u32, u32),
)
    ensures { PrintsTo W.ByteSink out.old out.new
        (flat_map line_text (flat_map (node_lines device.now) (nodes_for device.now before pair))) }
{
    if goes_on(device, before, pair) {
        put_node_at(out, device, pair.1);
        return;
    }
    put_node_at(out, device, pair.0);
    put_node_at(out, device, pair.1);
}

/// Prints the lines of the nodes that a list of pairs names, or until the sink breaks.
pub(crate) fn put_pairs<W: ByteSink>(
    out: &mut Printer<'_, W>,
    device: &Device,
    pairs: &[(u32, u32)],
)
    ensures { PrintsTo W.ByteSink out.old out.new
        (flat_map line_text
        (flat_map (node_lines device.now) (printed_nodes device.now pairs.now))) }
{
    let mut before = None;
    for pair in pairs {
        put_pair(out, device, before, *pair);
        if out.is_broken() {
            return;
        }
        before = Some(pair.1);
    }
}
