//! The `report` command over any sources and sink.

ghost use Rattle.std.specs.Prelude.{◌≡◌, ◌≢◌, ◌≤◌, true, false, map, Err, IsOk};
ghost use Rattle.vpr_text.specs.Text.{lines_of};
ghost use Rattle.net_file.specs.Routed.{routed_numbers};
ghost use Rattle.rr_graph.specs.Fabric.{most_tracks};
ghost use Rattle.run_inputs.specs.Inputs.{design_on, ends_before, placed_in};
ghost use Rattle.run_inputs.specs.Runs.{Meets, MeetsDesign, PrintsText, TakesNothing, reading, writing_to};
ghost use Rattle.report_run.specs.Report.{route_report_on, report_text};
ghost use Rattle.report_run.specs.ReportRun.{PrintsBounded, PrintsReport, RunsPlaced, RunsReport, reported_of, reported_on, reported_with};
ghost use Rattle.report_run.specs.kept.Placed.{design_with};

use crate::form::ReportForm;
use crate::report::RouteReport;
use bound_run::find_bound;
use route_tree::Routing;
use rr_graph::{Mode, Problem};
use run_inputs::{AppFault, InputFile, NetlistText, PlacedNetlist, parse_routing, read_input};
use std::alloc::Global;
use text_output::{ByteSink, Printer};
use vpr_text::{ByteSource, Lines, TextFault, lines};
use width_bound::CutFigures;

/// A placed netlist, and its routing problem on a device.
#[derive(Clone, Copy)]
struct PlacedProblem<'a, 't> {
    placed: &'a PlacedNetlist<'t>,
    problem: &'a Problem,
}

/// What is asked for: the width and the mode of the device, and the form of the report.
#[derive(Clone, Copy)]
struct ReportOptions {
    width: u32,
    mode: Mode,
    form: ReportForm,
}

/// Prints the text of a report of a routing whose file has these lines, with the bound of a cut.
fn print_report<W: ByteSink>(
    report: &RouteReport,
    design: &PlacedProblem<'_, '_>,
    bound: CutFigures,
    lines: &Lines<'_>,
    out: &mut W,
    form: ReportForm,
) -> Result<(), AppFault>
    ensures { PrintsText (writing_to W.taken W.failed out.old out.new)
        (report_text form design.now.placed.now.netlist design.now.problem.now bound lines.now
        report.now) tt result }
{
    let netlist = design.placed.netlist();
    let mut printer = Printer::new(out);
    report.put(&mut printer, netlist, design.problem, bound, lines, form);
    match printer.finish() {
        Ok(()) => Ok(()),
        Err(_) => Err(AppFault::Unwritten),
    }
}

/// Finds a bound of a placed netlist, and prints a report with it.
fn report_bounded<W: ByteSink>(
    alloc: Global,
    design: &PlacedProblem<'_, '_>,
    report: &RouteReport,
    lines: &Lines<'_>,
    out: &mut W,
    form: ReportForm,
) -> Result<(), AppFault>
    ensures prints { result ≢ Err AppFault.Memory
        → PrintsBounded form (writing_to W.taken W.failed out.old out.new)
        design.now.placed.now design.now.problem.now lines.now report.now result }
    ensures memory { result ≡ Err AppFault.Memory
        → TakesNothing (writing_to W.taken W.failed out.old out.new) }
    ensures late { ends_before InputFile.Route result ≡ false }
{
    let Ok(found) = find_bound(alloc, design.placed) else {
        return Err(AppFault::Memory);
    };
    let bound = found.figures;
    print_report(report, design, bound, lines, out, form)
}

/// Makes the report of a routing of a placed netlist, and prints it.
fn report_lines<W: ByteSink>(
    alloc: Global,
    design: &PlacedProblem<'_, '_>,
    routing: &Routing,
    lines: &Lines<'_>,
    out: &mut W,
    form: ReportForm,
) -> Result<(), AppFault>
    ensures reports { result ≢ Err AppFault.Memory
        → PrintsBounded form (writing_to W.taken W.failed out.old out.new)
        design.now.placed.now design.now.problem.now lines.now
        (route_report_on design.now.problem.now routing.now) result }
    ensures memory { result ≡ Err AppFault.Memory
        → TakesNothing (writing_to W.taken W.failed out.old out.new) }
    ensures late { ends_before InputFile.Route result ≡ false }
{
    let report = match RouteReport::new(alloc, design.problem, routing) {
        Ok(report) => report,
        Err(_) => return Err(AppFault::Memory),
    };
    report_bounded(alloc, design, &report, lines, out, form)
}

/// Prints the report of a routing of a placed netlist. The routing was read from these bytes, so
/// they have lines.
fn report_routing<W: ByteSink>(
    alloc: Global,
    design: &PlacedProblem<'_, '_>,
    routing: &Routing,
    bytes: &[u8],
    out: &mut W,
    form: ReportForm,
) -> Result<(), AppFault>
    requires { IsOk (lines_of bytes.now) }
    ensures reports { result ≢ Err AppFault.Memory
        → PrintsReport form (writing_to W.taken W.failed out.old out.new) design.now.placed.now
        (reported_with (design_with design.now.placed.now design.now.problem.now) bytes.now
        routing.now) result }
    ensures memory { result ≡ Err AppFault.Memory
        → TakesNothing (writing_to W.taken W.failed out.old out.new) }
    ensures late { ends_before InputFile.Route result ≡ false }
{
    let lines = match lines(alloc, bytes) {
        Ok(lines) => lines,
        Err(TextFault::Memory) => return Err(AppFault::Memory),
        Err(_) => unreachable!(),
    };
    report_lines(alloc, design, routing, &lines, out, form)
}

/// Reads bytes as a routing of a placed netlist, and prints its report.
fn report_bytes<W: ByteSink>(
    alloc: Global,
    placed: &PlacedNetlist<'_>,
    problem: &Problem,
    bytes: &[u8],
    out: &mut W,
    form: ReportForm,
) -> Result<(), AppFault>
    requires { map (λ n. n.number) problem.now.nets ≡ routed_numbers placed.now.netlist }
    ensures runs { result ≢ Err AppFault.Memory
        → RunsPlaced form (writing_to W.taken W.failed out.old out.new) placed.now
        (reported_of (design_with placed.now problem.now) bytes.now) result }
    ensures memory { result ≡ Err AppFault.Memory
        → TakesNothing (writing_to W.taken W.failed out.old out.new) }
    ensures late { ends_before InputFile.Route result ≡ false }
{
    let netlist = placed.netlist();
    let routing = parse_routing(alloc, bytes, netlist, problem)?;
    let design = PlacedProblem { placed, problem };
    report_routing(alloc, &design, &routing, bytes, out, form)
}

/// Reads a routing of a placed netlist from a source, and prints its report.
fn report_design<R: ByteSource, W: ByteSink>(
    alloc: Global,
    placed: &PlacedNetlist<'_>,
    problem: &Problem,
    route: &mut R,
    out: &mut W,
    form: ReportForm,
) -> Result<(), AppFault>
    requires { map (λ n. n.number) problem.now.nets ≡ routed_numbers placed.now.netlist }
    ensures runs { result ≢ Err AppFault.Memory
        → Meets (reading (R.remaining route.old) (R.failed route.new))
        (λ r. RunsPlaced form (writing_to W.taken W.failed out.old out.new) placed.now
        (reported_on (design_with placed.now problem.now) r) result) }
    ensures memory { result ≡ Err AppFault.Memory
        → TakesNothing (writing_to W.taken W.failed out.old out.new) }
    ensures late { ends_before InputFile.Route result ≡ false }
{
    let bytes = read_input(alloc, route, InputFile::Route)?;
    report_bytes(alloc, placed, problem, &bytes, out, form)
}

/// Reads a routing of a placed netlist on a device, and prints its report.
fn report_placed<R: ByteSource, W: ByteSink>(
    alloc: Global,
    placed: &PlacedNetlist<'_>,
    route: &mut R,
    out: &mut W,
    options: ReportOptions,
) -> Result<(), AppFault>
    requires tracks { (1 ≤ options.width) × (options.width ≤ most_tracks) }
    ensures runs { result ≢ Err AppFault.Memory
        → Meets (reading (R.remaining route.old) (R.failed route.new))
        (λ r. RunsPlaced options.form (writing_to W.taken W.failed out.old out.new) placed.now
        (reported_on (design_on options.width options.mode placed.now) r) result) }
    ensures memory { result ≡ Err AppFault.Memory
        → TakesNothing (writing_to W.taken W.failed out.old out.new) }
    ensures late { ends_before InputFile.Route result ≡ false }
{
    let problem = match placed.problem(alloc, options.width, options.mode) {
        Ok(problem) => problem,
        Err(_) => return Err(AppFault::Memory),
    };
    report_design(alloc, placed, &problem, route, out, options.form)
}

/// Reads an architecture, a netlist, its placement and its routing in this order, each only if
/// those before it have no fault. Finds a bound of the channel width. Prints the figures of the
/// routing, legal or not, on the device of the placement's size, with the bound.
///
/// # Errors
/// Each fault exactly when it comes first; only `Memory` is unspecified. The faults of the files
/// come in reading order, and then nothing was printed. After them comes `Unwritten`, if the sink
/// failed; it received a front of the report.
pub fn report_run<N: ByteSource, A: ByteSource, P: ByteSource, R: ByteSource, W: ByteSink>(
    alloc: Global,
    net: &mut N,
    arch: &mut A,
    place: &mut P,
    route: &mut R,
    out: &mut W,
    width: u32,
    mode: Mode,
    form: ReportForm,
) -> Result<(), AppFault>
    requires tracks { (1 ≤ width) × (width ≤ most_tracks) }
    // The files decide. If they give a placed netlist and a routing of it, the report is printed,
    // with the bound of some cut. There is no routing at a width that this rules out.
    ensures runs { result ≢ Err AppFault.Memory
        → MeetsDesign (reading (A.remaining arch.old) (A.failed arch.new))
        (reading (N.remaining net.old) (N.failed net.new))
        (reading (P.remaining place.old) (P.failed place.new))
        (λ files. Meets (reading (R.remaining route.old) (R.failed route.new))
        (λ r. RunsReport form (writing_to W.taken W.failed out.old out.new)
        width mode r (placed_in files) result)) }
    // Nothing is written if memory runs out.
    ensures memory { result ≡ Err AppFault.Memory
        → TakesNothing (writing_to W.taken W.failed out.old out.new) }
    // A file is not read if the run ended at one before it.
    ensures net { ends_before InputFile.Net result ≡ true → net.new ≡ net.old }
    ensures place { ends_before InputFile.Place result ≡ true → place.new ≡ place.old }
    ensures route { ends_before InputFile.Route result ≡ true → route.new ≡ route.old }
{
    let text = NetlistText::read(alloc, arch, net)?;
    let placed = PlacedNetlist::read(alloc, &text, place)?;
    let options = ReportOptions { width, mode, form };
    report_placed(alloc, &placed, route, out, options)
}
