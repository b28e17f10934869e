//! The lines of the routed nets.

ghost use Rattle.std.specs.Prelude.{◌<◌, length};
ghost use Rattle.std.specs.List.{flat_map};
ghost use Rattle.text_output.specs.Printing.{PrintsTo};
ghost use Rattle.rr_graph.specs.Problems.{net_in};
ghost use Rattle.nets_run.specs.Nets.{beginning_text, net_line, nets_text, sink_text};

use net_file::Netlist;
use rr_graph::Problem;
use run_inputs::net_name;
use text_output::{ByteSink, Piece, Printer};

/// Prints the number of a sink.
#[tactic(auto, unfolding(crate::specs::Nets::sink_text))]
fn put_sink<W: ByteSink>(out: &mut Printer<'_, W>, node: u32)
    ensures { PrintsTo W.ByteSink out.old out.new (sink_text node) }
{
    out.put_pieces(&[Piece::Text(b" "), Piece::Number(node)]);
}

/// Prints the numbers of these sinks.
fn put_sinks<W: ByteSink>(out: &mut Printer<'_, W>, nodes: &[u32])
    ensures { PrintsTo W.ByteSink out.old out.new
        (flat_map sink_text nodes.now) }
{
    for node in nodes {
        put_sink(out, *node);
    }
}

/// Prints the beginning of a net's line, up to its sinks.
#[tactic(auto, unfolding(crate::specs::Nets::beginning_text))]
fn put_beginning<W: ByteSink>(out: &mut Printer<'_, W>, number: u32, name: &[u8], source: u32)
    ensures { PrintsTo W.ByteSink out.old out.new
        (beginning_text number name.now source) }
{
    out.put_pieces(&[
        Piece::Text(b"net "),
        Piece::Number(number),
        Piece::Text(b" "),
        Piece::Text(name),
        Piece::Text(b" source "),
        Piece::Number(source),
        Piece::Text(b" sinks"),
    ]);
}

/// Prints the line of a net of the problem.
fn put_line<W: ByteSink>(
    out: &mut Printer<'_, W>,
    netlist: &Netlist<'_>,
    problem: &Problem,
    net: u32,
)
    requires { net < length problem.now.nets }
    ensures { PrintsTo W.ByteSink out.old out.new
        (net_line netlist.now (net_in problem.now.nets net)) }
{
    let number = problem.number(net);
    let name = net_name(netlist, number);
    put_beginning(out, number, name, problem.source(net));
    put_sinks(out, problem.sinks(net));
    out.push(b"\n");
}

/// Prints the lines of all nets of the problem.
pub(crate) fn put_nets<W: ByteSink>(
    out: &mut Printer<'_, W>,
    netlist: &Netlist<'_>,
    problem: &Problem,
)
    ensures { PrintsTo W.ByteSink out.old out.new
        (nets_text netlist.now problem.now) }
{
    for net in 0..problem.nets() {
        put_line(out, netlist, problem, net);
    }
}
