//! Places, and where nodes are.

ghost use Rattle.std.specs.Prelude.{◌≡◌};
ghost use Rattle.vpr_text.specs.Output.{SendsTo};
ghost use Rattle.text_output.specs.NodeTexts.{is_one_place, place_text, span_text};

use crate::number::put_number;
use routing_problem::Span;
use vpr_text::{ByteSink, OutputBuffer};

/// Prints a place, as `(1,2)`.
pub(crate) fn put_place<W: ByteSink>(out: &mut OutputBuffer, sink: &mut W, x: u32, y: u32)
    ensures { SendsTo W.taken W.failed sink.old sink.new out.old out.new (place_text x y) }
{
    out.push(sink, b"(");
    put_number(out, sink, x);
    out.push(sink, b",");
    put_number(out, sink, y);
    out.push(sink, b")");
}

fn is_one_place(span: Span) -> bool
    ensures { result ≡ is_one_place span }
{
    span.x1 == span.x2 && span.y1 == span.y2
}

/// Prints where a node is: its place, or the two ends of a wire of several places, as `(1,2) to
/// (4,2)`.
pub(crate) fn put_span<W: ByteSink>(out: &mut OutputBuffer, sink: &mut W, span: Span)
    ensures { SendsTo W.taken W.failed sink.old sink.new out.old out.new (span_text span) }
{
    put_place(out, sink, span.x1, span.y1);
    if is_one_place(span) {
        return;
    }
    out.push(sink, b" to ");
    put_place(out, sink, span.x2, span.y2);
}
