//! Nodes.

ghost use Rattle.std.specs.Prelude.{◌≡◌};
ghost use Rattle.vpr_text.specs.Output.{SendsTo};
ghost use Rattle.routing_problem.specs.Nodes.{node_at};
ghost use Rattle.text_output.specs.NodeTexts.{kind_text, label_text, node_text, text_of_node};

use crate::number::put_number;
use crate::place::put_span;
use routing_problem::{Device, Kind, Label, Span};
use vpr_text::{ByteSink, OutputBuffer};

/// A node's kind as the routing file spells it.
pub fn kind_name(kind: Kind) -> &'static [u8]
    ensures { result.now ≡ kind_text kind }
{
    match kind {
        Kind::Source => b"SOURCE",
        Kind::Sink => b"SINK",
        Kind::Opin => b"OPIN",
        Kind::Ipin => b"IPIN",
        Kind::Chanx => b"CHANX",
        Kind::Chany => b"CHANY",
    }
}

/// What a node's number counts, as the text before the number: `Track: ` and the like.
pub fn label_name(label: Label) -> &'static [u8]
    ensures { result.now ≡ label_text label }
{
    match label {
        Label::Class => b"Class: ",
        Label::Pin => b"Pin: ",
        Label::Pad => b"Pad: ",
        Label::Track => b"Track: ",
    }
}

/// Prints a node, as `CHANX (1,2) Track: 0`.
pub(crate) fn put_node<W: ByteSink>(
    out: &mut OutputBuffer,
    sink: &mut W,
    kind: Kind,
    span: Span,
    label: Label,
    number: u32,
)
    ensures { SendsTo W.taken W.failed sink.old sink.new out.old out.new
        (node_text kind span label number) }
{
    out.push(sink, kind_name(kind));
    out.push(sink, b" ");
    put_span(out, sink, span);
    out.push(sink, b" ");
    out.push(sink, label_name(label));
    put_number(out, sink, number);
}

/// Prints the node of a number; nothing if there is none.
pub(crate) fn put_node_of<W: ByteSink>(
    out: &mut OutputBuffer,
    sink: &mut W,
    device: &Device,
    id: u32,
)
    ensures { SendsTo W.taken W.failed sink.old sink.new out.old out.new
        (text_of_node device.now (node_at device.now id)) }
{
    let (node, span, label) = match device.described_node(id) {
        Some(described) => described,
        None => return,
    };
    put_node(out, sink, node.kind, span, label, node.number);
}
