//! The result of a search of widths, printed and written.

ghost use Rattle.std.specs.Prelude.{◌≡◌, true, false, OnOk};
ghost use Rattle.route_check.specs.Routed.{IsRouted};
ghost use Rattle.route_file.specs.Design.{IsDesign};
ghost use Rattle.route_file.specs.Text.{text_of};
ghost use Rattle.run_inputs.specs.Faults.{ends_free};
ghost use Rattle.run_inputs.specs.Inputs.{ends_before};
ghost use Rattle.run_inputs.specs.Runs.{PrintsText, TakesNothing, writing_to};
ghost use Rattle.runs.specs.WidthRun.{PlacesLeast, WritesFound, WritesReport, report_text};
ghost use Rattle.runs.specs.kept.Routing.{RoutesLeast};

use crate::routing::write_routing;
use crate::trials::put_report;
use crate::whole_sink::WholeSink;
use route_tree::Routing;
use rr_graph::{Mode, Problem};
use run_inputs::{AppFault, InputFile, PlacedNetlist};
use std::alloc::Global;
use text_output::{ByteSink, Printer};
use width_search::WidthReport;

/// Prints the lines of a search.
fn print_report<W: ByteSink>(report: &WidthReport, out: &mut W) -> Result<(), AppFault>
    ensures { PrintsText (writing_to W.taken W.failed out.old out.new)
        (report_text report.now) tt result }
{
    let mut printer = Printer::new(out);
    put_report(&mut printer, report);
    match printer.finish() {
        Ok(()) => Ok(()),
        Err(_) => Err(AppFault::Unwritten),
    }
}

/// Prints the lines of a search, and then writes the routing of the least width that was routed.
fn write_found<R: WholeSink, W: ByteSink>(
    placed: &PlacedNetlist<'_>,
    problem: &Problem,
    routing: &Routing,
    report: &WidthReport,
    route: &mut R,
    out: &mut W,
) -> Result<(), AppFault>
    requires design { IsDesign placed.now.netlist placed.now.placement problem.now }
    requires routed { IsRouted problem.now routing.now }
    ensures writes { WritesFound (writing_to R.taken R.failed route.old route.new)
        (writing_to W.taken W.failed out.old out.new) (report_text report.now)
        (text_of placed.now.netlist placed.now.placement problem.now routing.now) tt result }
    ensures placed { OnOk result (R.is_placed route.new ≡ true) }
{
    print_report(report, out)?;
    write_routing(
        placed.netlist(),
        placed.placement(),
        problem,
        routing,
        route,
    )
}

/// Prints the lines of a search, and then writes the routing of the least width, if one was routed.
/// The problem of that width is made before anything is printed, so that a run that is out of
/// memory has written nothing.
pub(crate) fn write_report<R: WholeSink, W: ByteSink>(
    alloc: Global,
    placed: &PlacedNetlist<'_>,
    report: &WidthReport,
    mode: Mode,
    route: &mut R,
    out: &mut W,
) -> Result<(), AppFault>
    requires { RoutesLeast mode placed.now report.now.least }
    ensures writes { ends_free result ≡ false
        → WritesReport (writing_to R.taken R.failed route.old route.new)
        (writing_to W.taken W.failed out.old out.new)
        mode placed.now report.now tt result }
    ensures route { ends_free result ≡ true
        → TakesNothing (writing_to R.taken R.failed route.old route.new) }
    ensures out { ends_free result ≡ true
        → TakesNothing (writing_to W.taken W.failed out.old out.new) }
    ensures late { ends_before InputFile.Route result ≡ false }
    ensures placed { OnOk result (PlacesLeast (R.is_placed route.new) report.now.least) }
{
    match report.least() {
        Some(least) => {
            let problem = placed.problem(alloc, least.width, mode)?;
            write_found(placed, &problem, &least.routing, report, route, out)
        }
        None => print_report(report, out),
    }
}
