//! Properties of a node: its label, its capacity, and its span.

ghost use Rattle.std.specs.Prelude.{◌≡◌};
ghost use Rattle.channel_tables.specs.Fabric.{Fabric};
ghost use Rattle.channel_tables.specs.LastPlaces.{last_by};
ghost use Rattle.node_numbers.specs.Nodes.{label_of, terminal_capacity, wire_capacity, span_of};

use channel_tables::{Kind, Label, Layout, Mode, Node, Span};

/// Returns what the node's number counts.
pub(crate) fn label_of(layout: &Layout, node: Node) -> Label
    ensures { result ≡ label_of layout.now node }
{
    let block = layout.is_block(node.x, node.y);
    match node.kind {
        Kind::Source => if block { Label::Class } else { Label::Pad },
        Kind::Sink => if block { Label::Class } else { Label::Pad },
        Kind::Opin => if block { Label::Pin } else { Label::Pad },
        Kind::Ipin => if block { Label::Pin } else { Label::Pad },
        Kind::Chanx => Label::Track,
        Kind::Chany => Label::Track,
    }
}

/// Returns how many nets may use a source or a sink: the pins of a block's class, or 1 at a pad.
pub(crate) fn terminal_capacity(layout: &Layout, node: Node) -> u32
    ensures { result ≡ terminal_capacity layout.now node }
{
    if layout.is_block(node.x, node.y) {
        layout.architecture().class_size(node.number) as u32
    } else {
        1
    }
}

/// Returns how many nets may use a wire.
pub(crate) fn wire_capacity(layout: &Layout) -> u32
    ensures { result ≡ wire_capacity layout.now.mode layout.now.width }
{
    match layout.mode() {
        Mode::Detailed => 1,
        Mode::Global => layout.width(),
    }
}

/// Returns the first and the last place of the node; `last` is its last along its channel.
pub(crate) fn span_of(node: Node, last: u32) -> Span
    ensures { (f : Fabric) → last ≡ last_by node.kind f node → result ≡ span_of f node }
{
    let (x2, y2) = match node.kind {
        Kind::Chanx => (last, node.y),
        Kind::Chany => (node.x, last),
        _ => (node.x, node.y),
    };
    Span {
        x1: node.x,
        y1: node.y,
        x2,
        y2,
    }
}
