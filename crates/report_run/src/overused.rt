//! The lines on overused nodes.

ghost use Rattle.std.specs.Prelude.{◌≡◌};
ghost use Rattle.std.specs.List.{flat_map};
ghost use Rattle.text_output.specs.Printing.{PrintsTo};
ghost use Rattle.report_run.specs.Overused.{names_text, overuse_line, overuse_lines, overused_line};

use crate::text::{put_name, put_share};
use net_file::Netlist;
use route_report::OverusedNode;
use rr_graph::Problem;
use text_output::{ByteSink, Piece, Printer};

/// Prints the names of nets of the problem.
fn put_names<W: ByteSink>(
    out: &mut Printer<'_, W>,
    netlist: &Netlist<'_>,
    problem: &Problem,
    nets: &[u32],
)
    ensures { PrintsTo W.ByteSink out.old out.new
        (names_text netlist.now problem.now nets.now) }
{
    for net in nets {
        put_name(out, netlist, problem, *net);
    }
}

/// Prints the line of an overused node.
fn put_overuse<W: ByteSink>(
    out: &mut Printer<'_, W>,
    netlist: &Netlist<'_>,
    problem: &Problem,
    overuse: &OverusedNode,
)
    ensures { PrintsTo W.ByteSink out.old out.new
        (overuse_line netlist.now problem.now overuse.now) }
{
    out.push(b"node ");
    out.put_number(overuse.node);
    out.push(b" ");
    out.put_node_of(problem.device(), overuse.node);
    out.push(b" used ");
    put_share(out, u64::from(overuse.used), u64::from(overuse.capacity));
    out.push(b" nets");
    put_names(out, netlist, problem, &overuse.nets);
    out.push(b"\n");
}

/// Prints the line with the number of overused nodes.
#[tactic(auto, unfolding(crate::specs::Overused::overused_line))]
fn put_count<W: ByteSink>(out: &mut Printer<'_, W>, count: usize)
    ensures { PrintsTo W.ByteSink out.old out.new (overused_line count) }
{
    out.put_pieces(&[
        Piece::Text(b"overused "),
        Piece::LongNumber(count as u64),
        Piece::Text(b"\n"),
    ]);
}

/// Prints the lines of these nodes.
fn put_each<W: ByteSink>(
    out: &mut Printer<'_, W>,
    netlist: &Netlist<'_>,
    problem: &Problem,
    nodes: &[OverusedNode],
)
    ensures { PrintsTo W.ByteSink out.old out.new
        (flat_map (overuse_line netlist.now problem.now) nodes.now) }
{
    for overuse in nodes {
        put_overuse(out, netlist, problem, overuse);
    }
}

/// Prints how many nodes are overused, and a line for each.
pub fn put_overused<W: ByteSink>(
    out: &mut Printer<'_, W>,
    netlist: &Netlist<'_>,
    problem: &Problem,
    nodes: &[OverusedNode],
)
    ensures { PrintsTo W.ByteSink out.old out.new
        (overuse_lines netlist.now problem.now nodes.now) }
{
    put_count(out, nodes.len());
    put_each(out, netlist, problem, nodes);
}
