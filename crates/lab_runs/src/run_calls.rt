//! Calls of `runs`: the commands of the program, run on the kept files.

ghost use Rattle.std.specs.Prelude.{◌≤◌};
ghost use Rattle.rr_graph.specs.Fabric.{most_tracks};
ghost use Rattle.node_cost.specs.Options.{most_workers};

use lab_session::answer::{added, put_name};
use lab_session::asked::{AskedDevice, AskedRun, asked_device};
use lab_session::bounds::{array_side, channel_width, worker_count};
use lab_session::lab_gate::{LabGate, gate_words};
use lab_session::session::{RunFiles, RunText};
use lab_session::sinks::{ShortSink, sink};
use lab_session::sources::{Failing, failing_source};
use lab_session::unanswered::Unanswered;
use lab_session::words::{Call, mode_before};
use net_workers::WorkFault;
use node_cost::Settings;
use run_inputs::{AppFault, print_fault, status};
use runs::{
    NoFiles, SideFiles, WidthPlan, check_run, graph_run, outcome_status, report_status, route_run,
    verdict_status, width_run,
};
use std::alloc::Global;
use std::rt::Runtime;
use std::sync::Wait;
use std::thread::Threads;
use vpr_text::Adapted;

const NO_ARCH: &str = "there is no run_arch";

const NO_NET: &str = "there is no run_net";

const NO_PLACE: &str = "there is no run_place";

/// Makes a call, and adds its answer.
pub fn call(
    rt: &(impl Runtime + Threads + Wait + Sync + AllocGlobal),
    files: &RunFiles,
    settings: &Settings,
    call: Call<'_>,
    out: &mut String,
) -> Result<(), Unanswered> {
    match call.name {
        "graph_run" => run_graph(rt.alloc(), files, call.given, out),
        "route_run" => run_route(rt, files, settings, call.given, out),
        "width_run" => run_width(rt, files, settings, call.given, out),
        "check_run" => run_check(rt, files, call.given, out),
        _ => Err(Unanswered::NoCall),
    }
}

/// Returns the source that a run reads a file from.
pub fn source_of(file: &RunText) -> Adapted<Failing<&[u8]>> {
    failing_source(file.bytes.as_slice(), file.failing)
}

/// Runs `graph`.
fn run_graph(
    alloc: Global,
    files: &RunFiles,
    given: &[&str],
    out: &mut String,
) -> Result<(), Unanswered> {
    let [nx, ny, width, rest @ ..] = given else {
        return Err(Unanswered::Misread("graph_run NX NY W, or with `global` after it"));
    };
    let (nx, ny) = (array_side(nx)?, array_side(ny)?);
    let AskedDevice { width, mode } = asked_device(width, rest)?;
    let Some(arch) = &files.arch else {
        return Err(Unanswered::Refused(NO_ARCH));
    };
    let mut printed = sink(alloc, files.out_room);
    let answer = graph_run(
        alloc,
        &mut source_of(arch),
        nx,
        ny,
        width,
        mode,
        &mut printed,
        false,
    );
    put_print(alloc, answer.map(|_| 0), printed.into_inner(), out)
}

/// The files of a design that a run reads.
#[derive(Clone, Copy)]
pub struct DesignFiles<'a> {
    pub arch: &'a RunText,
    pub net: &'a RunText,
    pub place: &'a RunText,
}

/// Returns the files of the design, if all of them are kept.
pub fn kept_design(files: &RunFiles) -> Result<DesignFiles<'_>, Unanswered> {
    match (&files.arch, &files.net, &files.place) {
        (Some(arch), Some(net), Some(place)) => Ok(DesignFiles { arch, net, place }),
        (None, _, _) => Err(Unanswered::Refused(NO_ARCH)),
        (_, None, _) => Err(Unanswered::Refused(NO_NET)),
        _ => Err(Unanswered::Refused(NO_PLACE)),
    }
}

/// The files of a design and of a routing of it, which a run reads.
#[derive(Clone, Copy)]
pub struct RoutedFiles<'a> {
    pub design: DesignFiles<'a>,
    pub route: &'a RunText,
}

/// Returns the files of the design and of the routing, if all of them are kept.
pub fn kept_routed(files: &RunFiles) -> Result<RoutedFiles<'_>, Unanswered> {
    let design = kept_design(files)?;
    match &files.route {
        Some(route) => Ok(RoutedFiles { design, route }),
        None => Err(Unanswered::Refused("there is no run_route")),
    }
}

/// Runs `route`.
fn run_route(
    rt: &(impl Runtime + Threads + Wait + Sync + AllocGlobal),
    files: &RunFiles,
    settings: &Settings,
    given: &[&str],
    out: &mut String,
) -> Result<(), Unanswered> {
    let [width, workers, rest @ ..] = given else {
        return Err(Unanswered::Misread(
            "route_run W WORKERS, or with `global` and a gate after it",
        ));
    };
    let (width, workers) = (channel_width(width)?, worker_count(workers)?);
    let (mode, rest) = mode_before(rest);
    let design = kept_design(files)?;
    let gate = LabGate::new(rt, gate_words(rest, workers)?, 0)?;
    let asked = AskedRun {
        settings,
        workers,
        width,
        mode,
    };
    route_design(rt, files, design, &asked, &gate, out)
}

/// Runs `route` on the files of a design, under a gate.
fn route_design<R: Runtime + Threads + Wait + Sync + AllocGlobal>(
    rt: &R,
    files: &RunFiles,
    design: DesignFiles<'_>,
    asked: &AskedRun<'_>,
    gate: &LabGate<'_, R>,
    out: &mut String,
) -> Result<(), Unanswered>
    requires width { (1 ≤ asked.now.width) × (asked.now.width ≤ most_tracks) }
    requires workers { (1 ≤ asked.now.workers) × (asked.now.workers ≤ most_workers) }
{
    let mut written = sink(rt.alloc(), files.route_room);
    let mut printed = sink(rt.alloc(), files.out_room);
    let answer = route_run(
        rt,
        &mut source_of(design.net),
        &mut source_of(design.arch),
        &mut source_of(design.place),
        &mut written,
        &mut printed,
        asked.width,
        asked.mode,
        asked.settings,
        asked.workers,
        gate,
        &NoFiles,
    );
    let answer = answer.map(|outcome| outcome_status(&outcome));
    put_run(
        rt.alloc(),
        answer,
        printed.into_inner(),
        written.into_inner(),
        out,
    )?;
    gate.put(out)
}

/// Runs `width`.
fn run_width(
    rt: &(impl Runtime + Threads + Wait + Sync + AllocGlobal),
    files: &RunFiles,
    settings: &Settings,
    given: &[&str],
    out: &mut String,
) -> Result<(), Unanswered> {
    let [start, workers, rest @ ..] = given else {
        return Err(Unanswered::Misread(
            "width_run START WORKERS, or with `global` and a gate after it",
        ));
    };
    let (width, workers) = (channel_width(start)?, worker_count(workers)?);
    let (mode, rest) = mode_before(rest);
    let design = kept_design(files)?;
    let gate = LabGate::new(rt, gate_words(rest, workers)?, 0)?;
    let asked = AskedRun {
        settings,
        workers,
        width,
        mode,
    };
    search_design(rt, files, design, &asked, &gate, out)
}

/// Runs `width` on the files of a design, under a gate.
fn search_design<R: Runtime + Threads + Wait + Sync + AllocGlobal>(
    rt: &R,
    files: &RunFiles,
    design: DesignFiles<'_>,
    asked: &AskedRun<'_>,
    gate: &LabGate<'_, R>,
    out: &mut String,
) -> Result<(), Unanswered>
    requires width { (1 ≤ asked.now.width) × (asked.now.width ≤ most_tracks) }
    requires workers { (1 ≤ asked.now.workers) × (asked.now.workers ≤ most_workers) }
{
    let mut written = sink(rt.alloc(), files.route_room);
    let mut printed = sink(rt.alloc(), files.out_room);
    let mut words = NoFiles.words();
    let plan = WidthPlan::Search {
        start: asked.width,
        below: 0,
        shows_bound: false,
    };
    let answer = width_run(
        rt,
        &mut source_of(design.net),
        &mut source_of(design.arch),
        &mut source_of(design.place),
        &mut written,
        &mut printed,
        &mut words,
        plan,
        asked.mode,
        asked.settings,
        asked.workers,
        gate,
        &NoFiles,
    );
    let answer = answer.map(|report| report_status(&report));
    put_run(
        rt.alloc(),
        answer,
        printed.into_inner(),
        written.into_inner(),
        out,
    )?;
    gate.put(out)
}

/// Runs `check`.
fn run_check(
    rt: &(impl Runtime + Threads + Sync + AllocGlobal),
    files: &RunFiles,
    given: &[&str],
    out: &mut String,
) -> Result<(), Unanswered> {
    let [width, rest @ ..] = given else {
        return Err(Unanswered::Misread("check_run W, or with `global` after it"));
    };
    let asked = asked_device(width, rest)?;
    check_design(rt, files, kept_routed(files)?, asked, out)
}

/// Runs `check` on the files of a design and a routing.
fn check_design(
    rt: &(impl Runtime + Threads + Sync + AllocGlobal),
    files: &RunFiles,
    routed: RoutedFiles<'_>,
    asked: AskedDevice,
    out: &mut String,
) -> Result<(), Unanswered>
    requires width { (1 ≤ asked.width) × (asked.width ≤ most_tracks) }
{
    let mut printed = sink(rt.alloc(), files.out_room);
    let answer = check_run(
        rt,
        &mut source_of(routed.design.net),
        &mut source_of(routed.design.arch),
        &mut source_of(routed.design.place),
        &mut source_of(routed.route),
        &mut printed,
        asked.width,
        asked.mode,
    );
    let answer = answer.map(|verdict| verdict_status(verdict));
    put_print(rt.alloc(), answer, printed.into_inner(), out)
}

/// Adds how a run that prints ended, and what it printed.
pub fn put_print(
    alloc: Global,
    answer: Result<u8, AppFault>,
    printed: ShortSink,
    out: &mut String,
) -> Result<(), Unanswered> {
    put_end(alloc, answer, &[&printed], out)?;
    put_taken("out", &printed, out)
}

/// Adds how a run that prints and writes ended, and what it printed and wrote.
fn put_run(
    alloc: Global,
    answer: Result<u8, AppFault>,
    printed: ShortSink,
    written: ShortSink,
    out: &mut String,
) -> Result<(), Unanswered> {
    put_ran(alloc, answer, &printed, &written, out)
}

/// Adds how a run ended, and what two sinks took.
fn put_ran(
    alloc: Global,
    answer: Result<u8, AppFault>,
    printed: &ShortSink,
    written: &ShortSink,
    out: &mut String,
) -> Result<(), Unanswered> {
    put_end(alloc, answer, &[printed, written], out)?;
    put_taken("out", printed, out)?;
    put_taken("route", written, out)
}

/// Adds the status of a run, and the line of its fault. Instead it answers that memory was lacking
/// if a sink lacked it, and that memory or a thread was lacking if that is the run's fault and no
/// sink took anything.
pub fn put_end(
    alloc: Global,
    answer: Result<u8, AppFault>,
    sinks: &[&ShortSink],
    out: &mut String,
) -> Result<(), Unanswered> {
    let is_untouched = sinks.iter().all(|sink| sink.bytes.is_empty());
    match answer {
        _ if sinks.iter().any(|sink| sink.lacked) => Err(Unanswered::Memory),
        Ok(code) => { added(writeln!(out, "status {code}")) }
        Err(AppFault::Memory) if is_untouched => Err(Unanswered::Memory),
        Err(AppFault::NoThread) if is_untouched => Err(Unanswered::from(WorkFault::NoThread)),
        Err(fault) => {
            writeln!(out, "status {}", status(&fault))?;
            put_fault(alloc, &fault, out)
        }
    }
}

/// Adds the line of a fault.
fn put_fault(alloc: Global, fault: &AppFault, out: &mut String) -> Result<(), Unanswered> {
    let mut line = Adapted::new(Vec::new(alloc));
    if print_fault(fault, &mut line).is_err() {
        return Err(Unanswered::Memory);
    }
    put_name(out, line.into_inner().as_slice())
}

/// Adds the lines that a sink took, each after the sink's name. If the last line isn't whole, also
/// adds that it breaks off.
pub fn put_taken(name: &str, taken: &ShortSink, out: &mut String) -> Result<(), Unanswered> {
    let bytes = taken.bytes.as_slice();
    let Ok(text) = str::from_utf8(bytes) else {
        writeln!(out, "{name}: {bytes:?}")?;
        return Ok(());
    };
    for line in text.lines() {
        writeln!(out, "{name}: {line}")?;
    }
    if !text.is_empty() && !text.ends_with('\n') {
        writeln!(out, "{name} breaks off")?;
    }
    Ok(())
}
