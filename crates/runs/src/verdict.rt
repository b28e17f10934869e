//! The line of a verdict on a routing.

ghost use Rattle.std.specs.Prelude.{◌≡◌, slice_index_or};
ghost use Rattle.text_output.specs.Printing.{PrintsTo};
ghost use Rattle.net_file.specs.Routed.{no_net};
ghost use Rattle.rr_graph.specs.Problems.{net_in};
ghost use Rattle.runs.specs.Verdict.{net_fault_text, overuse_text, status_of_verdict, text_of_net, tree_fault_text, verdict_text};

use net_file::Netlist;
use route_check::RouteFault;
use route_tree::TreeFault;
use rr_graph::{Device, Problem};
use run_inputs::{net_name, number_of_net};
use text_output::{ByteSink, Piece, Printer};

/// Returns the name of a fault of a net's list.
pub fn tree_fault_name(fault: TreeFault) -> &'static [u8]
    ensures { result.now ≡ tree_fault_text fault }
{
    match fault {
        TreeFault::NoNet => b"NoNet",
        TreeFault::WrongSource => b"WrongSource",
        TreeFault::NoSwitch => b"NoSwitch",
        TreeFault::NodeTwice => b"NodeTwice",
        TreeFault::SecondOutput => b"SecondOutput",
        TreeFault::ForeignSink => b"ForeignSink",
        TreeFault::Dangling => b"Dangling",
        TreeFault::MissingSink => b"MissingSink",
        TreeFault::Order => b"Order",
    }
}

/// Prints the line of a net that is not routed.
#[tactic(auto, unfolding(crate::specs::Verdict::net_fault_text))]
fn put_net_line<'a, W: ByteSink>(
    out: &mut Printer<'_, W>,
    number: u32,
    name: &'a [u8],
    fault: &'a [u8],
)
    ensures { PrintsTo W.ByteSink out.old out.new
        (net_fault_text number name.now fault.now) }
{
    out.put_pieces(&[
        Piece::Text(b"not legal: net "),
        Piece::Number(number),
        Piece::Text(b" ("),
        Piece::Text(name),
        Piece::Text(b"): "),
        Piece::Text(fault),
        Piece::Text(b"\n"),
    ]);
}

/// Prints the line of a net of the problem that is not routed.
fn put_net_fault<W: ByteSink>(
    out: &mut Printer<'_, W>,
    netlist: &Netlist<'_>,
    problem: &Problem,
    net: u32,
    fault: &[u8],
)
    ensures { PrintsTo W.ByteSink out.old out.new
        (text_of_net netlist.now problem.now net fault.now) }
{
    let number = number_of_net(problem, net);
    put_net_line(out, number, net_name(netlist, number), fault);
}

/// Prints the line of a node that too many nets use.
#[tactic(auto, unfolding(crate::specs::Verdict::overuse_text))]
fn put_overuse<W: ByteSink>(out: &mut Printer<'_, W>, device: &Device, id: u32, by: u32)
    ensures { PrintsTo W.ByteSink out.old out.new
        (overuse_text device.now id by) }
{
    out.put_pieces(&[
        Piece::Text(b"not legal: node "),
        Piece::Number(id),
        Piece::Text(b" "),
        Piece::Node(device, id),
        Piece::Text(b" overused by "),
        Piece::Number(by),
        Piece::Text(b"\n"),
    ]);
}

/// Prints the line of a verdict.
pub fn put_verdict<W: ByteSink>(
    out: &mut Printer<'_, W>,
    netlist: &Netlist<'_>,
    problem: &Problem,
    verdict: Option<RouteFault>,
)
    ensures { PrintsTo W.ByteSink out.old out.new
        (verdict_text netlist.now problem.now verdict) }
{
    match verdict {
        None => out.push(b"legal\n"),
        Some(RouteFault::Length) => out.push(b"not legal: Length\n"),
        Some(RouteFault::Unrouted(net)) => {
            put_net_fault(out, netlist, problem, net, b"Unrouted");
        }
        Some(RouteFault::Tree(net, fault)) => {
            put_net_fault(out, netlist, problem, net, tree_fault_name(fault));
        }
        Some(RouteFault::Overused(node, by)) => {
            put_overuse(out, problem.device(), node, by);
        }
    }
}

/// Returns the exit status of a verdict: 0 for a legal routing, 3 for one that isn't.
pub fn verdict_status(verdict: Option<RouteFault>) -> u8
    ensures { result ≡ status_of_verdict verdict }
{
    match verdict {
        None => 0,
        Some(_) => 3,
    }
}
