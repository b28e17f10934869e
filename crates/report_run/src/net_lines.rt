//! The lines on the bends, wires and places of the nets.

ghost use Rattle.std.specs.Prelude.{◌≡◌};
ghost use Rattle.text_output.specs.Printing.{PrintsTo};
ghost use Rattle.report_run.specs.NetFigures.{net_lines, totals_text};

use crate::figures::put_longest;
use crate::text::put_mean;
use net_file::Netlist;
use route_report::{NetFigures, NetTotals};
use rr_graph::Problem;
use text_output::{ByteSink, Printer};

/// Prints the totals of a number for each net: the sum, the mean over this many nets, and the
/// greatest, with the first net that has it.
fn put_totals<W: ByteSink>(
    out: &mut Printer<'_, W>,
    netlist: &Netlist<'_>,
    problem: &Problem,
    listed: u32,
    totals: NetTotals,
)
    ensures { PrintsTo W.ByteSink out.old out.new
        (totals_text netlist.now problem.now listed totals) }
{
    out.push(b" ");
    out.put_number(totals.total);
    out.push(b" mean ");
    put_mean(out, totals.total, listed);
    out.push(b" most ");
    out.put_number(totals.most);
    put_longest(out, netlist, problem, totals.first);
    out.push(b"\n");
}

/// Prints the lines on the bends, wires and places of the nets. This many nets have a list.
pub(crate) fn put_net_lines<W: ByteSink>(
    out: &mut Printer<'_, W>,
    netlist: &Netlist<'_>,
    problem: &Problem,
    listed: u32,
    nets: NetFigures,
)
    ensures { PrintsTo W.ByteSink out.old out.new
        (net_lines netlist.now problem.now listed nets) }
{
    out.push(b"net bends");
    put_totals(out, netlist, problem, listed, nets.bends);
    out.push(b"net wires");
    put_totals(out, netlist, problem, listed, nets.wires);
    out.push(b"net places");
    put_totals(out, netlist, problem, listed, nets.places);
}
