//! The lines on the device, on the bound, and on the whole routing.

ghost use Rattle.std.specs.Prelude.{◌≡◌};
ghost use Rattle.text_output.specs.Printing.{PrintsTo};
ghost use Rattle.report_run.specs.Figures.{bound_line, device_lines, length_lines, longest_text, net_count_lines, use_lines};
ghost use Rattle.report_run.specs.Report.{figure_lines};

use crate::device::{global_nets, places_in, wires_in};
use crate::text::{put_mean, put_name, put_share};
use bound_run::put_width_text;
use net_file::Netlist;
use route_report::Figures;
use rr_graph::{Device, Problem};
use text_output::{ByteSink, Piece, Printer};
use width_bound::CutFigures;

/// Prints the lines on the device.
#[tactic(auto, unfolding(crate::specs::Figures::device_lines))]
fn put_device<W: ByteSink>(out: &mut Printer<'_, W>, device: &Device)
    ensures { PrintsTo W.ByteSink out.old out.new (device_lines device.now) }
{
    out.put_pieces(&[
        Piece::Text(b"array "),
        Piece::Number(device.nx()),
        Piece::Text(b" x "),
        Piece::Number(device.ny()),
        Piece::Text(b"\nwidth "),
        Piece::Number(device.width()),
        Piece::Text(b"\n"),
    ]);
}

/// Prints the line on the bound, which the figures of a cut give.
fn put_bound<W: ByteSink>(out: &mut Printer<'_, W>, bound: CutFigures)
    ensures { PrintsTo W.ByteSink out.old out.new (bound_line bound) }
{
    out.push(b"bound ");
    put_width_text(out, bound);
    out.push(b"\n");
}

/// Prints the lines on how many nets there are, how many are global, and how many have a list.
fn put_nets<W: ByteSink>(out: &mut Printer<'_, W>, netlist: &Netlist<'_>, figures: &Figures)
    ensures { PrintsTo W.ByteSink out.old out.new
        (net_count_lines netlist.now figures.now) }
{
    out.push(b"nets ");
    out.put_number(netlist.nets().len());
    out.push(b"\nglobal ");
    out.put_number(global_nets(netlist));
    out.push(b"\ntrees ");
    put_share(out, u64::from(figures.listed), u64::from(figures.nets));
    out.push(b"\n");
}

/// Prints the lines on the used wires and their places.
fn put_uses<W: ByteSink>(out: &mut Printer<'_, W>, device: &Device, figures: &Figures)
    ensures { PrintsTo W.ByteSink out.old out.new
        (use_lines device.now figures.now) }
{
    out.push(b"wires ");
    put_share(out, u64::from(figures.wires), wires_in(device));
    out.push(b"\nplaces ");
    put_share(out, figures.places, places_in(device));
    out.push(b"\n");
}

/// Prints the name of the longest net, if there is one.
pub(crate) fn put_longest<W: ByteSink>(
    out: &mut Printer<'_, W>,
    netlist: &Netlist<'_>,
    problem: &Problem,
    longest: Option<u32>,
)
    ensures { PrintsTo W.ByteSink out.old out.new
        (longest_text netlist.now problem.now longest) }
{
    if let Some(net) = longest {
        put_name(out, netlist, problem, net);
    }
}

/// Prints the lines on the wirelength.
fn put_lengths<W: ByteSink>(
    out: &mut Printer<'_, W>,
    netlist: &Netlist<'_>,
    problem: &Problem,
    figures: &Figures,
)
    ensures { PrintsTo W.ByteSink out.old out.new
        (length_lines netlist.now problem.now figures.now) }
{
    out.push(b"wirelength ");
    out.put_number(figures.wirelength);
    out.push(b"\nmean ");
    put_mean(out, figures.wirelength, figures.listed);
    out.push(b"\ngreatest ");
    out.put_number(figures.greatest);
    put_longest(out, netlist, problem, figures.longest);
    out.push(b"\n");
}

/// Prints the lines on the device, on the bound, and on the whole routing.
pub(crate) fn put_figures<W: ByteSink>(
    out: &mut Printer<'_, W>,
    netlist: &Netlist<'_>,
    problem: &Problem,
    bound: CutFigures,
    figures: &Figures,
)
    ensures { PrintsTo W.ByteSink out.old out.new
        (figure_lines netlist.now problem.now bound figures.now) }
{
    let device = problem.device();
    put_device(out, device);
    put_bound(out, bound);
    put_nets(out, netlist, figures);
    put_uses(out, device, figures);
    put_lengths(out, netlist, problem, figures);
}
