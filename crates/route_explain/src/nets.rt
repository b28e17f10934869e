//! The lines on the nets that have a fault.

ghost use Rattle.std.specs.Prelude.{◌≡◌, ◌<◌, None, Some, get_or, length};
ghost use Rattle.text_output.specs.Printing.{PrintsTo};
ghost use Rattle.rr_graph.specs.Problems.{net_in};
ghost use Rattle.route_tree.specs.Usage.{list_in};
ghost use Rattle.route_explain.specs.Explanation.{fault_line, fault_text, fault_words, net_lines, net_text, net_text_at, pairs_in, tree_fault_in, tree_fault_words};
ghost use Rattle.route_explain.specs.Lines.{starts_of};
ghost use Rattle.route_explain.specs.kept.Findings.{AreFindings, AreIndexes, IsIndexOf, line_from};
ghost use Rattle.route_explain.specs.kept.Places.{IsIndex};

use crate::findings::Findings;
use crate::index::NetIndex;
use crate::indexed_list::IndexedList;
use crate::lines::line_of_spot;
use crate::read_routing::ReadRouting;
use crate::reasons::put_reason;
use crate::spots::fault_spot;
use crate::starts::start_at;
use crate::text::put_where;
use report_run::put_name;
use route_check::RouteFault;
use route_tree::{Pairs, TreeFault};
use rr_graph::Problem;
use run_inputs::number_of_net;
use runs::tree_fault_name;
use text_output::{ByteSink, Printer};

/// Prints the name of a fault of a net's list, and what it means.
fn put_tree_fault<W: ByteSink>(
    out: &mut Printer<'_, W>,
    index: &NetIndex,
    problem: &Problem,
    net: u32,
    pairs: &[(u32, u32)],
    fault: TreeFault,
)
    requires there { net < length problem.now.nets }
    requires index { IsIndex (net_in problem.now.nets net).sinks pairs.now index.now }
    ensures { PrintsTo W.ByteSink out.old out.new
        (tree_fault_words problem.now.device (net_in problem.now.nets net) pairs.now fault) }
{
    let device = problem.device();
    let source = problem.source(net);
    let sinks = problem.sinks(net);
    out.push(tree_fault_name(fault));
    out.push(b": ");
    let list = IndexedList::new(sinks, pairs, index);
    put_reason(out, &list, device, source, fault);
}

/// Prints the name of a net's fault, and what it means.
fn put_fault_words<W: ByteSink>(
    out: &mut Printer<'_, W>,
    index: &NetIndex,
    problem: &Problem,
    net: u32,
    pairs: &[(u32, u32)],
    fault: Option<TreeFault>,
)
    requires there { net < length problem.now.nets }
    requires index { IsIndex (net_in problem.now.nets net).sinks pairs.now index.now }
    ensures { PrintsTo W.ByteSink out.old out.new
        (fault_words problem.now.device (net_in problem.now.nets net) pairs.now fault) }
{
    match fault {
        None => out.push(b"Unrouted: it has no list"),
        Some(fault) => put_tree_fault(out, index, problem, net, pairs, fault),
    }
}

/// Returns the fault of a net's list, if the net has a list.
pub(crate) fn tree_fault_in(fault: RouteFault) -> Option<TreeFault>
    ensures { result ≡ tree_fault_in fault }
{
    match fault {
        RouteFault::Tree(_, fault) => Some(fault),
        RouteFault::Unrouted(_) | RouteFault::Length | RouteFault::Overused(_, _) => None,
    }
}

/// Returns the pairs of a net's list, or none if it has no list.
pub(crate) fn pairs_at(lists: &[Option<Pairs>], net: u32) -> &[(u32, u32)]
    ensures { result.now ≡ pairs_in (list_in lists.now net) }
{
    match lists.get(net as usize) {
        Some(Some(pairs)) => &pairs.items,
        Some(None) => &[],
        None => &[],
    }
}

/// Returns the pairs of a net's list in a routing that was read, or none if it has no list.
fn pairs_of<'a>(file: &ReadRouting<'a, '_, '_>, net: u32) -> &'a [(u32, u32)]
    ensures { result.now ≡ pairs_in (list_in file.now.routing.now net) }
{
    let routing = file.routing;
    pairs_at(&routing.lists, net)
}

/// Returns the fault of a net, if it has one.
pub(crate) fn fault_at(faults: &[Option<RouteFault>], net: u32) -> Option<RouteFault>
    ensures { result ≡ get_or faults.now net None }
{
    match faults.get(net as usize) {
        Some(fault) => *fault,
        None => None,
    }
}

/// Returns the number of the line of the file that the fault of a net is about, or 0 if there is
/// none.
fn fault_line_number(
    file: &ReadRouting<'_, '_, '_>,
    found: &Findings,
    index: &NetIndex,
    net: u32,
    fault: RouteFault,
) -> u32
    requires there { net < length file.now.problem.now.nets }
    requires index { IsIndexOf file.now.problem.now file.now.routing.now net index.now }
    ensures { result ≡ line_from found.now.starts.items file.now.problem.now file.now.lines.now
        file.now.routing.now net fault }
{
    let problem = file.problem;
    let start = start_at(&found.starts, number_of_net(problem, net));
    let pairs = pairs_of(file, net);
    let spot = fault_spot(index, problem, net, pairs, tree_fault_in(fault));
    line_of_spot(problem.device(), file.lines, start, spot)
}

/// Prints what is wrong with a net.
fn put_fault<W: ByteSink>(
    out: &mut Printer<'_, W>,
    file: &ReadRouting<'_, '_, '_>,
    index: &NetIndex,
    net: u32,
    fault: RouteFault,
)
    requires there { net < length file.now.problem.now.nets }
    requires index { IsIndexOf file.now.problem.now file.now.routing.now net index.now }
    ensures { PrintsTo W.ByteSink out.old out.new
        (fault_text file.now.netlist.now file.now.problem.now file.now.routing.now net fault) }
{
    let pairs = pairs_of(file, net);
    let fault = tree_fault_in(fault);
    out.push(b"net");
    put_name(out, file.netlist, file.problem, net);
    out.push(b": ");
    put_fault_words(out, index, file.problem, net, pairs, fault);
    out.push(b"\n");
}

/// Prints the line of a net that has a fault.
fn put_fault_line<W: ByteSink>(
    out: &mut Printer<'_, W>,
    file: &ReadRouting<'_, '_, '_>,
    found: &Findings,
    index: &NetIndex,
    net: u32,
    fault: RouteFault,
)
    requires there { net < length file.now.problem.now.nets }
    requires index { IsIndexOf file.now.problem.now file.now.routing.now net index.now }
    requires starts { found.now.starts.items ≡ starts_of file.now.netlist.now file.now.lines.now }
    ensures { PrintsTo W.ByteSink out.old out.new
        (fault_line file.now.path.now file.now.netlist.now file.now.problem.now file.now.lines.now
        file.now.routing.now net fault) }
{
    let line = fault_line_number(file, found, index, net, fault);
    put_where(out, file.path, line);
    put_fault(out, file, index, net, fault);
}

/// Prints the line of a net, if it has a fault.
fn put_net<W: ByteSink>(
    out: &mut Printer<'_, W>,
    file: &ReadRouting<'_, '_, '_>,
    found: &Findings,
    net: u32,
    fault: Option<RouteFault>,
)
    requires there { net < length file.now.problem.now.nets }
    requires found { AreFindings file.now.netlist.now file.now.problem.now file.now.lines.now
        file.now.routing.now found.now }
    requires fault { fault ≡ get_or found.now.faults.items net None }
    ensures { PrintsTo W.ByteSink out.old out.new
        (net_text file.now.path.now file.now.netlist.now file.now.problem.now file.now.lines.now
        file.now.routing.now net fault) }
{
    if let Some(fault) = fault {
        let index = &found.indexes[net as usize];
        put_fault_line(out, file, found, index, net, fault);
    }
}

/// Looks up the fault of a net, and prints the net's line if there is one.
fn put_net_at<W: ByteSink>(
    out: &mut Printer<'_, W>,
    file: &ReadRouting<'_, '_, '_>,
    found: &Findings,
    net: u32,
)
    requires there { net < length file.now.problem.now.nets }
    requires found { AreFindings file.now.netlist.now file.now.problem.now file.now.lines.now
        file.now.routing.now found.now }
    ensures { PrintsTo W.ByteSink out.old out.new
        (net_text_at file.now.path.now file.now.netlist.now file.now.problem.now file.now.lines.now
        file.now.routing.now found.now.faults.items net) }
{
    let fault = fault_at(&found.faults, net);
    put_net(out, file, found, net, fault);
}

/// Prints a line for each net that has a fault.
pub(crate) fn put_nets<W: ByteSink>(
    out: &mut Printer<'_, W>,
    file: &ReadRouting<'_, '_, '_>,
    found: &Findings,
)
    requires { AreFindings file.now.netlist.now file.now.problem.now file.now.lines.now
        file.now.routing.now found.now }
    ensures { PrintsTo W.ByteSink out.old out.new
        (net_lines file.now.path.now file.now.netlist.now file.now.problem.now file.now.lines.now
        file.now.routing.now found.now.faults.items) }
{
    for net in 0..file.problem.nets() {
        put_net_at(out, file, found, net);
    }
}
