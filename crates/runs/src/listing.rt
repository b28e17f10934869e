//! The listing of a device.

ghost use Rattle.std.specs.Prelude.{◌≡◌, ℕ, ◌≤◌, length, OnOk, Some};
ghost use Rattle.std.specs.List.{flat_map};
ghost use Rattle.text_output.specs.Printing.{PrintsTo};
ghost use Rattle.rr_graph.specs.Fabric.{numbers_below};
ghost use Rattle.rr_graph.specs.Nodes.{node_at, node_count_of};
ghost use Rattle.rr_graph.specs.Edges.{successors_of};
ghost use Rattle.runs.specs.Texts.{counts_line, node_line, edge_line};
ghost use Rattle.runs.specs.Listing.{line_at, edge_lines_at, listing_of};

use crate::listed_types::{put_switch_if, put_type_if};
use rr_graph::{Device, Node};
use smallvec::SmallVec;
use std::alloc::AllocError;
use text_output::{ByteSink, Piece, Printer};

/// Prints the first line, with the numbers of nodes and edges.
#[tactic(auto, unfolding(crate::specs::Texts::counts_line))]
fn put_counts<W: ByteSink>(out: &mut Printer<'_, W>, nodes: u32, edges: u64)
    ensures { PrintsTo W.ByteSink out.old out.new (counts_line nodes edges) }
{
    out.put_pieces(&[
        Piece::Number(nodes),
        Piece::Text(b" nodes, "),
        Piece::LongNumber(edges),
        Piece::Text(b" edges\n"),
    ]);
}

/// Prints the line of the node of a number, or nothing if there is no such node.
fn put_line<W: ByteSink>(out: &mut Printer<'_, W>, device: &Device, id: u32, is_typed: bool)
    ensures { PrintsTo W.ByteSink out.old out.new
        (line_at is_typed device.now id) }
{
    let node = match device.node(id) {
        Some(node) => node,
        None => return,
    };
    let span = match device.span(id) {
        Some(span) => span,
        None => return,
    };
    let label = match device.label(id) {
        Some(label) => label,
        None => return,
    };
    let capacity = match device.capacity(id) {
        Some(capacity) => capacity,
        None => return,
    };
    out.put_number(id);
    out.push(b" ");
    out.put_node(node.kind, span, label, node.number);
    out.push(b" cap ");
    out.put_number(capacity);
    put_type_if(out, device, node, is_typed);
    out.push(b"\n");
}

/// Prints the lines of all nodes. Stops if the sink breaks.
fn put_lines<W: ByteSink>(out: &mut Printer<'_, W>, device: &Device, is_typed: bool)
    ensures { PrintsTo W.ByteSink out.old out.new
        (flat_map (line_at is_typed device.now) (numbers_below (node_count_of device.now))) }
{
    for id in 0..device.node_count() {
        put_line(out, device, id, is_typed);
        if out.is_broken() {
            return;
        }
    }
}

/// Prints the line of an edge.
fn put_edge_line<W: ByteSink>(
    out: &mut Printer<'_, W>,
    device: &Device,
    from: u32,
    to: u32,
    is_typed: bool,
)
    ensures { PrintsTo W.ByteSink out.old out.new
        (edge_line is_typed device.now from to) }
{
    out.put_number(from);
    out.push(b" -> ");
    out.put_number(to);
    put_switch_if(out, device, from, to, is_typed);
    out.push(b"\n");
}

/// Prints the lines of the edges from a node to the nodes of a list.
fn put_edge_lines<W: ByteSink>(
    out: &mut Printer<'_, W>,
    device: &Device,
    from: u32,
    list: &[u32],
    is_typed: bool,
)
    ensures { PrintsTo W.ByteSink out.old out.new
        (flat_map (edge_line is_typed device.now from) list.now) }
{
    for to in list {
        put_edge_line(out, device, from, *to, is_typed);
    }
}

/// Prints the lines of the edges from a node. Its successors fit in the list.
fn put_edges_of<W: ByteSink>(
    out: &mut Printer<'_, W>,
    device: &Device,
    id: u32,
    list: &mut SmallVec<u32, 8>,
    is_typed: bool,
)
    requires { length (successors_of device.now id) ≤ list.old.capacity }
    ensures sends { PrintsTo W.ByteSink out.old out.new
        (edge_lines_at is_typed device.now id) }
    ensures kept { list.old.capacity ≤ list.new.capacity }
{
    device.successors(id, list).unwrap();
    put_edge_lines(out, device, id, list.as_slice(), is_typed);
}

/// Makes room in a list for the successors of any node, so that no later call needs memory.
pub(crate) fn make_room(device: &Device, list: &mut SmallVec<u32, 8>) -> Result<(), AllocError>
    ensures { OnOk result ((i : ℕ) → length (successors_of device.now i) ≤ list.new.capacity) }
{
    list.reserve(device.most_successors())?;
    Ok(())
}

/// Prints the lines of all edges. Stops if the sink breaks.
fn put_edges<W: ByteSink>(
    out: &mut Printer<'_, W>,
    device: &Device,
    list: &mut SmallVec<u32, 8>,
    is_typed: bool,
)
    requires { (i : ℕ) → length (successors_of device.now i) ≤ list.old.capacity }
    ensures { PrintsTo W.ByteSink out.old out.new
        (flat_map (edge_lines_at is_typed device.now) (numbers_below (node_count_of device.now))) }
{
    for id in 0..device.node_count() {
        put_edges_of(out, device, id, list, is_typed);
        if out.is_broken() {
            return;
        }
    }
}

/// Prints the listing of a device, with the types of its wires if they are asked for. Stops if the
/// sink breaks. The list has room for the successors of any node.
pub(crate) fn put_listing<W: ByteSink>(
    out: &mut Printer<'_, W>,
    device: &Device,
    list: &mut SmallVec<u32, 8>,
    is_typed: bool,
)
    requires { (i : ℕ) → length (successors_of device.now i) ≤ list.old.capacity }
    ensures { PrintsTo W.ByteSink out.old out.new
        (listing_of is_typed device.now) }
{
    put_counts(out, device.node_count(), device.edge_count());
    put_lines(out, device, is_typed);
    put_edges(out, device, list, is_typed);
}
