//! The commands that don't negotiate. Each connects files and streams to a run, as its words say.

ghost use Rattle.std.specs.Prelude.{◌≡◌, ◌≤◌, if◌then◌else◌};
ghost use Rattle.rr_graph.specs.Fabric.{longest_side, most_tracks};
ghost use Rattle.rr_graph.specs.node.Mode.TheVariants.{Detailed, Global};

use crate::begun::OpenedRouting;
use crate::opened::{Input, OpenedDesign};
use crate::shown::PlainWriter;
use crate::terminal::{Screen, Watched, output};
use crate::written::{paths_of, written_file};
use bound_run::bound_run;
use command_line::command::{BoundWords, CheckWords, GraphWords, NetsWords, ReportWords};
use nets_run::{NetsOptions, nets_run};
use report_run::{ReportForm, report_run};
use route_check::RouteFault;
use route_explain::explain_run;
use rr_graph::Mode;
use run_inputs::AppFault;
use runs::{check_run, graph_run};
use std::io;
use std::io::Write;
use std::thread::Threads;
use vpr_text::Adapted;

/// Returns the mode in which nets are routed.
pub fn mode_of(global: bool) -> Mode
    ensures { result ≡ (if global then Global else Detailed) }
{
    if global { Mode::Global } else { Mode::Detailed }
}

/// Runs the `check` command.
pub fn check(
    handle: &(impl Threads + Sync + AllocGlobal),
    rt: &HostRuntime,
    given: CheckWords<'_>,
    files: &mut OpenedRouting,
    errors: &mut impl Write,
    watched: Watched,
) -> Result<Option<RouteFault>, AppFault>
    requires { (1 ≤ given.width) × (given.width ≤ most_tracks) }
{
    let OpenedRouting {
        names,
        design,
        route,
    } = files;
    let mut out = Adapted::new(output(rt, watched));
    let (width, mode) = (given.width, mode_of(given.global));
    if given.explain {
        let mut words = Adapted::new(PlainWriter::new(errors, true));
        let explained = explain_run(
            handle,
            names.route().as_bytes(),
            &mut design.net,
            &mut design.arch,
            &mut design.place,
            route,
            &mut out,
            &mut words,
            width,
            mode,
        )?;
        return Ok(explained.verdict);
    }
    check_run(
        handle,
        &mut design.net,
        &mut design.arch,
        &mut design.place,
        route,
        &mut out,
        width,
        mode,
    )
}

/// Returns the form of a report.
fn form_of(given: &ReportWords<'_>) -> ReportForm
    ensures full { result.full ≡ given.now.full_stats }
    ensures map { result.map ≡ given.now.map }
    ensures json { result.json ≡ given.now.json }
{
    ReportForm {
        full: given.full_stats,
        map: given.map,
        json: given.json,
    }
}

/// Runs the `report` command.
pub fn report(
    rt: &HostRuntime,
    given: ReportWords<'_>,
    design: &mut OpenedDesign,
    route: &mut Input,
    watched: Watched,
) -> Result<(), AppFault>
    requires { (1 ≤ given.width) × (given.width ≤ most_tracks) }
{
    let mut out = Adapted::new(output(rt, watched));
    let (width, mode) = (given.width, mode_of(given.global));
    report_run(
        rt.alloc(),
        &mut design.net,
        &mut design.arch,
        &mut design.place,
        route,
        &mut out,
        width,
        mode,
        form_of(&given),
    )
}

/// Runs the `bound` command.
pub fn bound<'a>(
    screen: &'a Screen<'a>,
    given: BoundWords<'a>,
    design: &mut OpenedDesign,
) -> Result<(), AppFault> {
    if let Some(name) = given.cut {
        let files = paths_of(given.net, given.arch, given.place, name);
        return certify(screen, files, design);
    }
    let mut out = Adapted::new(output(screen.rt, screen.watched));
    bound_run(
        screen.rt.alloc(),
        &mut design.net,
        &mut design.arch,
        &mut design.place,
        &mut Adapted::new(io::sink()),
        &mut out,
    )
}

/// Runs the `bound` command with a certificate. Its name comes after those of the inputs.
fn certify<'a>(
    screen: &'a Screen<'a>,
    files: [&'a str; 4],
    design: &mut OpenedDesign,
) -> Result<(), AppFault> {
    let rt = screen.rt;
    let mut cut = written_file(rt, &screen.progress, files, None)?;
    let mut out = Adapted::new(output(rt, screen.watched));
    bound_run(
        rt.alloc(),
        &mut design.net,
        &mut design.arch,
        &mut design.place,
        &mut cut,
        &mut out,
    )?;
    cut.finish().map_err(|_| AppFault::Unwritten)
}

/// Runs the `graph` command.
pub fn graph(
    rt: &HostRuntime,
    given: GraphWords<'_>,
    arch: &mut Input,
    watched: Watched,
) -> Result<(), AppFault>
    requires columns { (1 ≤ given.nx) × (given.nx ≤ longest_side) }
    requires rows { (1 ≤ given.ny) × (given.ny ≤ longest_side) }
    requires tracks { (1 ≤ given.width) × (given.width ≤ most_tracks) }
{
    let mut out = Adapted::new(output(rt, watched));
    let (nx, ny, width) = (given.nx, given.ny, given.width);
    graph_run(
        rt.alloc(),
        arch,
        nx,
        ny,
        width,
        mode_of(given.global),
        &mut out,
        given.types,
    )
}

/// Runs the `nets` command.
pub fn nets(
    rt: &HostRuntime,
    given: NetsWords<'_>,
    design: &mut OpenedDesign,
    watched: Watched,
) -> Result<(), AppFault>
    requires { (1 ≤ given.width) × (given.width ≤ most_tracks) }
{
    let mut out = Adapted::new(output(rt, watched));
    let options = NetsOptions {
        width: given.width,
        mode: mode_of(given.global),
    };
    nets_run(
        rt.alloc(),
        &mut design.net,
        &mut design.arch,
        &mut design.place,
        &mut out,
        options,
    )
}
