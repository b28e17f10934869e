//! The members of a report in JSON on the whole routing, and on the bends, wires and places of the
//! nets.

ghost use Rattle.std.specs.Prelude.{◌≡◌};
ghost use Rattle.text_output.specs.Printing.{PrintsTo};
ghost use Rattle.report_run.specs.JsonReport.{figure_members, longest_member, net_members, totals_json};
ghost use Rattle.report_run.specs.kept.Members.{before};

use crate::device::{global_nets, places_in, wires_in};
use crate::json_parts::{Part, put_name_or_null, put_parts};
use crate::text::put_mean;
use net_file::Netlist;
use route_report::{Figures, NetFigures, NetTotals};
use rr_graph::Problem;
use text_output::{ByteSink, Printer};
use width_bound::CutFigures;

/// Prints the members on the whole routing, without the longest net.
pub(crate) fn put_figure_members<W: ByteSink>(
    out: &mut Printer<'_, W>,
    netlist: &Netlist<'_>,
    problem: &Problem,
    bound: CutFigures,
    figures: &Figures,
)
    ensures { PrintsTo W.ByteSink out.old out.new
        (before (figure_members netlist.now problem.now bound figures.now)) }
{
    let device = problem.device();
    put_parts(
        out,
        &[
            Part::Text(b"\"columns\":"),
            Part::Number(u64::from(device.nx())),
            Part::Text(b",\"rows\":"),
            Part::Number(u64::from(device.ny())),
            Part::Text(b",\"width\":"),
            Part::Number(u64::from(device.width())),
            Part::Text(b",\"bound\":"),
            Part::Bound(bound),
            Part::Text(b",\"nets\":"),
            Part::Number(netlist.nets().len() as u64),
            Part::Text(b",\"global\":"),
            Part::Number(global_nets(netlist) as u64),
            Part::Text(b",\"trees\":"),
            Part::Share(u64::from(figures.listed), u64::from(figures.nets)),
            Part::Text(b",\"wires\":"),
            Part::Share(u64::from(figures.wires), wires_in(device)),
            Part::Text(b",\"places\":"),
            Part::Share(figures.places, places_in(device)),
            Part::Text(b",\"wirelength\":"),
            Part::Number(figures.wirelength),
            Part::Text(b",\"mean\":"),
            Part::Mean(figures.wirelength, figures.listed),
            Part::Text(b",\"greatest\":"),
            Part::Number(figures.greatest),
            Part::Text(b","),
        ],
    );
}

/// Prints the member on the longest net.
pub(crate) fn put_longest_member<W: ByteSink>(
    out: &mut Printer<'_, W>,
    netlist: &Netlist<'_>,
    problem: &Problem,
    figures: &Figures,
)
    ensures { PrintsTo W.ByteSink out.old out.new
        (before (longest_member netlist.now problem.now figures.now)) }
{
    out.push(b"\"longest\":");
    put_name_or_null(out, netlist, problem, figures.longest);
    out.push(b",");
}

/// Prints the totals of a number for each net. This many nets have a list.
fn put_totals<W: ByteSink>(
    out: &mut Printer<'_, W>,
    netlist: &Netlist<'_>,
    problem: &Problem,
    listed: u32,
    totals: NetTotals,
)
    ensures { PrintsTo W.ByteSink out.old out.new
        (totals_json netlist.now problem.now listed totals) }
{
    out.push(b"{\"total\":");
    out.put_number(totals.total);
    out.push(b",\"mean\":");
    put_mean(out, totals.total, listed);
    out.push(b",\"most\":");
    out.put_number(totals.most);
    out.push(b",\"first\":");
    put_name_or_null(out, netlist, problem, totals.first);
    out.push(b"}");
}

/// Prints the members on the bends, wires and places of the nets. This many nets have a list.
pub(crate) fn put_net_members<W: ByteSink>(
    out: &mut Printer<'_, W>,
    netlist: &Netlist<'_>,
    problem: &Problem,
    listed: u32,
    nets: NetFigures,
)
    ensures { PrintsTo W.ByteSink out.old out.new
        (before (net_members netlist.now problem.now listed nets)) }
{
    out.push(b"\"net_bends\":");
    put_totals(out, netlist, problem, listed, nets.bends);
    out.push(b",\"net_wires\":");
    put_totals(out, netlist, problem, listed, nets.wires);
    out.push(b",\"net_places\":");
    put_totals(out, netlist, problem, listed, nets.places);
    out.push(b",");
}
