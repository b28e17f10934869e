//! The members of a report in JSON on overused nodes, and on the lines of the file that name one.

ghost use Rattle.std.specs.Prelude.{◌≡◌, ◌+◌, ◌++◌, ◌<◌, ◌||◌, length};
ghost use Rattle.std.specs.List.{flat_map, list_any};
ghost use Rattle.text_output.specs.Printing.{PrintsTo};
ghost use Rattle.rr_graph.specs.Fabric.{numbers_below};
ghost use Rattle.report_run.specs.Json.{filled, members_text, next_item};
ghost use Rattle.report_run.specs.JsonReport.{comma_if, is_naming, lines_json, name_json, named_item, named_json, names_json, naming_json, node_json, over_members, overuse_json, overuses_json};

use crate::json_parts::{put_name, put_share};
use crate::named::overused_on;
use net_file::Netlist;
use route_report::OverusedNode;
use rr_graph::{Device, Problem};
use text_output::{ByteSink, Piece, Printer};
use vpr_text::Lines;

/// Prints the text of a node.
fn put_node<W: ByteSink>(out: &mut Printer<'_, W>, device: &Device, node: u32)
    ensures { PrintsTo W.ByteSink out.old out.new
        (node_json device.now node) }
{
    out.push(b"\"");
    out.put_node_of(device, node);
    out.push(b"\"");
}

/// Prints the name of a net of the problem after another one.
fn put_next_name<W: ByteSink>(
    out: &mut Printer<'_, W>,
    netlist: &Netlist<'_>,
    problem: &Problem,
    net: u32,
)
    ensures { PrintsTo W.ByteSink out.old out.new
        (next_item (name_json netlist.now problem.now) net) }
{
    out.push(b",");
    put_name(out, netlist, problem, net);
}

/// Prints the names of nets of the problem after another one.
fn put_more_names<W: ByteSink>(
    out: &mut Printer<'_, W>,
    netlist: &Netlist<'_>,
    problem: &Problem,
    nets: &[u32],
)
    ensures { PrintsTo W.ByteSink out.old out.new
        (flat_map (next_item (name_json netlist.now problem.now)) nets.now) }
{
    for net in nets {
        put_next_name(out, netlist, problem, *net);
    }
}

/// Prints the names of one or more nets.
fn put_filled_names<W: ByteSink>(
    out: &mut Printer<'_, W>,
    netlist: &Netlist<'_>,
    problem: &Problem,
    first: u32,
    rest: &[u32],
)
    ensures { PrintsTo W.ByteSink out.old out.new
        (filled (name_json netlist.now problem.now) first rest.now) }
{
    out.push(b"[");
    put_name(out, netlist, problem, first);
    put_more_names(out, netlist, problem, rest);
    out.push(b"]");
}

/// Prints the names of nets of the problem.
fn put_names<W: ByteSink>(
    out: &mut Printer<'_, W>,
    netlist: &Netlist<'_>,
    problem: &Problem,
    nets: &[u32],
)
    ensures { PrintsTo W.ByteSink out.old out.new
        (names_json netlist.now problem.now nets.now) }
{
    match nets.split_first() {
        Some((first, rest)) => put_filled_names(out, netlist, problem, *first, rest),
        None => out.push(b"[]"),
    }
}

/// Prints an overused node.
fn put_overuse<W: ByteSink>(
    out: &mut Printer<'_, W>,
    netlist: &Netlist<'_>,
    problem: &Problem,
    overuse: &OverusedNode,
)
    ensures { PrintsTo W.ByteSink out.old out.new
        (overuse_json netlist.now problem.now overuse.now) }
{
    out.push(b"{\"node\":");
    out.put_number(overuse.node);
    out.push(b",\"text\":");
    put_node(out, problem.device(), overuse.node);
    out.push(b",\"used\":");
    put_share(out, u64::from(overuse.used), u64::from(overuse.capacity));
    out.push(b",\"nets\":");
    put_names(out, netlist, problem, &overuse.nets);
    out.push(b"}");
}

/// Prints an overused node after another one.
fn put_next_overuse<W: ByteSink>(
    out: &mut Printer<'_, W>,
    netlist: &Netlist<'_>,
    problem: &Problem,
    overuse: &OverusedNode,
)
    ensures { PrintsTo W.ByteSink out.old out.new
        (next_item (overuse_json netlist.now problem.now) overuse.now) }
{
    out.push(b",");
    put_overuse(out, netlist, problem, overuse);
}

/// Prints overused nodes after another one.
fn put_more_overuses<W: ByteSink>(
    out: &mut Printer<'_, W>,
    netlist: &Netlist<'_>,
    problem: &Problem,
    nodes: &[OverusedNode],
)
    ensures { PrintsTo W.ByteSink out.old out.new
        (flat_map (next_item (overuse_json netlist.now problem.now)) nodes.now) }
{
    for overuse in nodes {
        put_next_overuse(out, netlist, problem, overuse);
    }
}

/// Prints one or more overused nodes.
fn put_filled_overuses<W: ByteSink>(
    out: &mut Printer<'_, W>,
    netlist: &Netlist<'_>,
    problem: &Problem,
    first: &OverusedNode,
    rest: &[OverusedNode],
)
    ensures { PrintsTo W.ByteSink out.old out.new
        (filled (overuse_json netlist.now problem.now) first.now rest.now) }
{
    out.push(b"[");
    put_overuse(out, netlist, problem, first);
    put_more_overuses(out, netlist, problem, rest);
    out.push(b"]");
}

/// Prints the overused nodes.
fn put_overuses<W: ByteSink>(
    out: &mut Printer<'_, W>,
    netlist: &Netlist<'_>,
    problem: &Problem,
    nodes: &[OverusedNode],
)
    ensures { PrintsTo W.ByteSink out.old out.new
        (overuses_json netlist.now problem.now nodes.now) }
{
    match nodes.split_first() {
        Some((first, rest)) => put_filled_overuses(out, netlist, problem, first, rest),
        None => out.push(b"[]"),
    }
}

/// Prints that a line of the file names a node.
#[tactic(auto, unfolding(crate::specs::JsonReport::naming_json))]
fn put_naming<W: ByteSink>(out: &mut Printer<'_, W>, line: u32, node: u32)
    ensures { PrintsTo W.ByteSink out.old out.new (naming_json line node) }
{
    out.put_pieces(&[
        Piece::Text(b"{\"line\":"),
        Piece::Number(line),
        Piece::Text(b",\"node\":"),
        Piece::Number(node),
        Piece::Text(b"}"),
    ]);
}

/// Returns the comma before an item that isn't the first.
fn comma_if(is_next: bool) -> &'static [u8]
    ensures { result.now ≡ comma_if is_next }
{
    if is_next { b"," } else { b"" }
}

/// Prints that a line names a node, after a comma if an earlier line does too.
fn put_next_naming<W: ByteSink>(out: &mut Printer<'_, W>, is_next: bool, line: u32, node: u32)
    ensures { PrintsTo W.ByteSink out.old out.new
        (comma_if is_next ++ naming_json line node) }
{
    out.push(comma_if(is_next));
    put_naming(out, line, node);
}

/// Prints that a line names a node, if it does.
fn put_named<W: ByteSink>(out: &mut Printer<'_, W>, is_next: bool, line: u32, node: Option<u32>)
    ensures { PrintsTo W.ByteSink out.old out.new
        (named_json is_next line node) }
{
    if let Some(node) = node {
        put_next_naming(out, is_next, line, node);
    }
}

/// Returns whether one of two holds.
fn either(first: bool, second: bool) -> bool
    ensures { result ≡ (first || second) }
{
    first || second
}

/// Prints that a line of the file names an overused node, if it does, after a comma if an earlier
/// line does too. Returns whether this line or an earlier one does.
#[tactic(auto, using(crate::proofs::Marking::any_next))]
fn put_named_at<W: ByteSink>(
    out: &mut Printer<'_, W>,
    device: &Device,
    uses: &[u16],
    lines: &Lines<'_>,
    index: usize,
    is_next: bool,
) -> bool
    requires there { index < length lines.now }
    requires next { is_next
        ≡ list_any (is_naming device.now uses.now lines.now) (numbers_below index) }
    ensures named { PrintsTo W.ByteSink out.old out.new
        (named_item device.now uses.now lines.now index) }
    ensures next { result
        ≡ list_any (is_naming device.now uses.now lines.now) (numbers_below (index + 1)) }
{
    let node = overused_on(lines, device, uses, index);
    put_named(out, is_next, lines.at(index), node);
    either(is_next, node.is_some())
}

/// Prints the lines of the file that name nodes that are overused by these uses.
fn put_named_lines<W: ByteSink>(
    out: &mut Printer<'_, W>,
    device: &Device,
    uses: &[u16],
    lines: &Lines<'_>,
)
    ensures { PrintsTo W.ByteSink out.old out.new
        (flat_map (named_item device.now uses.now lines.now) (numbers_below (length lines.now))) }
{
    let mut is_next = false;
    for index in 0..lines.len() {
        is_next = put_named_at(out, device, uses, lines, index, is_next);
    }
}

/// Prints the lines of the file that name overused nodes.
fn put_lines<W: ByteSink>(
    out: &mut Printer<'_, W>,
    device: &Device,
    uses: &[u16],
    lines: &Lines<'_>,
)
    ensures { PrintsTo W.ByteSink out.old out.new
        (lines_json device.now uses.now lines.now) }
{
    out.push(b"[");
    put_named_lines(out, device, uses, lines);
    out.push(b"]");
}

/// Prints the members on the overused nodes, and on the lines of the file that name one, and the
/// end of the object.
pub(crate) fn put_over_members<W: ByteSink>(
    out: &mut Printer<'_, W>,
    netlist: &Netlist<'_>,
    problem: &Problem,
    uses: &[u16],
    lines: &Lines<'_>,
    nodes: &[OverusedNode],
)
    ensures { PrintsTo W.ByteSink out.old out.new
        (members_text (over_members netlist.now problem.now uses.now lines.now nodes.now)) }
{
    out.push(b"\"overused\":");
    put_overuses(out, netlist, problem, nodes);
    out.push(b",\"lines\":");
    put_lines(out, problem.device(), uses, lines);
    out.push(b"}");
}
