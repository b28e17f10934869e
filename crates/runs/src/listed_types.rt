//! What `graph --types` adds to the lines of a listing.

ghost use Rattle.std.specs.Prelude.{◌≡◌, slice_get};
ghost use Rattle.text_output.specs.Printing.{PrintsTo};
ghost use Rattle.rr_graph.specs.Nodes.{is_wire, is_wire_at, node_at};
ghost use Rattle.rr_graph.specs.Wires.{track_type};
ghost use Rattle.runs.specs.ListedTypes.{if_asked, switch_by, switch_into, switch_number, switch_of, switch_text, type_number, type_text};

use arch_file::Segment;
use rr_graph::{Device, Kind, Node};
use text_output::{ByteSink, Piece, Printer};

/// Returns whether a node of this kind is a wire.
fn is_wire(kind: Kind) -> bool
    ensures { result ≡ is_wire kind }
{
    match kind {
        Kind::Chanx | Kind::Chany => true,
        Kind::Source | Kind::Sink | Kind::Opin | Kind::Ipin => false,
    }
}

/// Returns whether the node of this number is a wire.
fn is_wire_at(device: &Device, id: u32) -> bool
    ensures { result ≡ is_wire_at device.now id }
{
    match device.kind(id) {
        Some(kind) => is_wire(kind),
        None => false,
    }
}

/// Prints the number of a type.
fn put_type_number<W: ByteSink>(out: &mut Printer<'_, W>, kind: usize)
    ensures { PrintsTo W.ByteSink out.old out.new (type_number kind) }
{
    out.put_pieces(&[Piece::Text(b" type "), Piece::LongNumber(kind as u64)]);
}

/// Prints the type of a wire, or nothing for another node.
fn put_type<W: ByteSink>(out: &mut Printer<'_, W>, device: &Device, node: Node)
    ensures { PrintsTo W.ByteSink out.old out.new
        (type_text device.now node) }
{
    if is_wire(node.kind) {
        put_type_number(out, device.track_type(node.number));
    }
}

/// Prints the type of a wire, if that is asked for.
pub(crate) fn put_type_if<W: ByteSink>(
    out: &mut Printer<'_, W>,
    device: &Device,
    node: Node,
    is_asked: bool,
)
    ensures { PrintsTo W.ByteSink out.old out.new
        (if_asked is_asked (type_text device.now node)) }
{
    if is_asked {
        put_type(out, device, node);
    }
}

/// Returns the switch by which a wire, or else an output pin, drives a wire of this type.
fn switch_of(segment: Segment, is_from_wire: bool) -> u32
    ensures { result ≡ switch_of is_from_wire segment }
{
    if is_from_wire {
        segment.wire_switch
    } else {
        segment.opin_switch
    }
}

/// Returns the type of a track.
fn segment_of(device: &Device, track: u32) -> Option<Segment>
    ensures { result ≡ slice_get device.now.architecture.segments (track_type device.now track) }
{
    match device
        .architecture()
        .segments()
        .get(device.track_type(track))
    {
        Some(segment) => Some(*segment),
        None => None,
    }
}

/// Prints the number of a switch.
fn put_switch_number<W: ByteSink>(out: &mut Printer<'_, W>, number: u32)
    ensures { PrintsTo W.ByteSink out.old out.new (switch_number number) }
{
    out.put_pieces(&[Piece::Text(b" switch "), Piece::Number(number)]);
}

/// Prints the switch that drives a wire of this type, if there is one.
fn put_switch_by<W: ByteSink>(
    out: &mut Printer<'_, W>,
    segment: Option<Segment>,
    is_from_wire: bool,
)
    ensures { PrintsTo W.ByteSink out.old out.new
        (switch_by is_from_wire segment) }
{
    if let Some(segment) = segment {
        put_switch_number(out, switch_of(segment, is_from_wire));
    }
}

/// Prints the switch that drives a node, if it is a wire.
fn put_switch_into<W: ByteSink>(
    out: &mut Printer<'_, W>,
    device: &Device,
    node: Option<Node>,
    is_from_wire: bool,
)
    ensures { PrintsTo W.ByteSink out.old out.new
        (switch_into is_from_wire device.now node) }
{
    let Some(node) = node else {
        return;
    };
    if is_wire(node.kind) {
        put_switch_by(out, segment_of(device, node.number), is_from_wire);
    }
}

/// Prints the switch of an edge that leads into a wire.
fn put_switch<W: ByteSink>(out: &mut Printer<'_, W>, device: &Device, from: u32, to: u32)
    ensures { PrintsTo W.ByteSink out.old out.new
        (switch_text device.now from to) }
{
    let is_from_wire = is_wire_at(device, from);
    put_switch_into(out, device, device.node(to), is_from_wire);
}

/// Prints the switch of an edge that leads into a wire, if that is asked for.
pub(crate) fn put_switch_if<W: ByteSink>(
    out: &mut Printer<'_, W>,
    device: &Device,
    from: u32,
    to: u32,
    is_asked: bool,
)
    ensures { PrintsTo W.ByteSink out.old out.new
        (if_asked is_asked (switch_text device.now from to)) }
{
    if is_asked {
        put_switch(out, device, from, to);
    }
}
