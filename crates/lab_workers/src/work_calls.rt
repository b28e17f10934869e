//! Calls of `iteration` and `width_search`: negotiations and searches of widths.

ghost use Rattle.std.specs.Prelude.{◌≤◌, List, ℕ};
ghost use Rattle.net_file.specs.Reads.{ReadsBytes};
ghost use Rattle.rr_graph.specs.Fabric.{most_tracks};
ghost use Rattle.node_cost.specs.Options.{most_workers};

use iteration::{Outcome, negotiate};
use lab_session::answer::{added, put};
use lab_session::asked::AskedRun;
use lab_session::bounds::{channel_width, worker_count};
use lab_session::designs::placement_of;
use lab_session::lab_gate::{LabGate, gate_words};
use lab_session::session::{Design, DesignTexts, NO_PROBLEM, Session};
use lab_session::unanswered::Unanswered;
use lab_session::words::{Call, mode_before};
use net_file::Netlist;
use node_cost::Settings;
use route_tree::{Pairs, Routing};
use rr_graph::Problem;
use std::alloc::{AllocError, Global};
use std::rt::Runtime;
use std::sync::Wait;
use std::thread::Threads;
use std::time::Clock;
use width_search::{Trial, WidthReport, least_width};

/// Makes a call, and adds its answer.
pub fn call(
    rt: &(impl Runtime + Threads + Wait + Sync + AllocGlobal),
    session: &mut Session,
    settings: &Settings,
    call: Call<'_>,
    out: &mut String,
) -> Result<(), Unanswered> {
    match call.name {
        "negotiate" => {
            let (problem, routing) = (&session.problem, &mut session.routing);
            negotiate_routing(rt, problem, routing, settings, call.given, out)
        }
        "least_width" => {
            let (design, routing) = (&session.design, &mut session.routing);
            search_widths(rt, design, routing, settings, call.given, out)
        }
        _ => Err(Unanswered::NoCall),
    }
}

/// Negotiates a routing of a copy of the problem, and keeps it.
fn negotiate_routing(
    rt: &(impl Runtime + Threads + Wait + Sync + AllocGlobal),
    problem: &Option<Problem>,
    routing: &mut Option<Routing>,
    settings: &Settings,
    given: &[&str],
    out: &mut String,
) -> Result<(), Unanswered> {
    let [workers, rest @ ..] = given else {
        return Err(Unanswered::Misread("negotiate WORKERS, or with a gate after it"));
    };
    let workers = worker_count(workers)?;
    let words = gate_words(rest, workers)?;
    let Some(problem) = problem else {
        return Err(NO_PROBLEM);
    };
    let gate = LabGate::new(rt, words, problem.nets())?;
    let outcome = negotiate_under(rt, problem, settings, workers, &gate, out)?;
    keep_routed(routing, outcome);
    Ok(())
}

/// Negotiates a routing of a copy of the problem under a gate, adds the outcome, and returns it.
fn negotiate_under<R: Runtime + Threads + Wait + Sync + AllocGlobal>(
    rt: &R,
    problem: &Problem,
    settings: &Settings,
    workers: u32,
    gate: &LabGate<'_, R>,
    out: &mut String,
) -> Result<Outcome, Unanswered>
    requires workers { (1 ≤ workers) × (workers ≤ most_workers) }
{
    let problem = problem.copy(rt.alloc())?;
    let outcome = negotiate(rt, rt.alloc(), problem, settings, workers, gate)?;
    put_negotiation(&outcome, gate, out)?;
    Ok(outcome)
}

/// Keeps the routing of an outcome that has one.
fn keep_routed(kept: &mut Option<Routing>, outcome: Outcome) {
    if let Outcome::Success(routing, _) = outcome {
        *kept = Some(routing);
    }
}

/// Adds the outcome of a negotiation, and the gate's own lines.
fn put_negotiation<R: Wait + Clock + AllocGlobal>(
    outcome: &Outcome,
    gate: &LabGate<'_, R>,
    out: &mut String,
) -> Result<(), Unanswered> {
    put_outcome(outcome, out)?;
    gate.put(out)
}

/// Adds the outcome of a negotiation.
pub(crate) fn put_outcome(outcome: &Outcome, out: &mut String) -> Result<(), Unanswered> {
    match outcome {
        Outcome::Success(_, iterations) => writeln!(out, "routed, iterations {iterations}")?,
        Outcome::NotRouted {
            unrouted,
            overused,
            iterations,
        } => writeln!(
            out,
            "not routed: unrouted {unrouted}, overused {overused}, iterations {iterations}"
        )?,
    }
    Ok(())
}

/// Searches for the least width at which the design is routed, and keeps the routing.
fn search_widths(
    rt: &(impl Runtime + Threads + Wait + Sync + AllocGlobal),
    design: &Design,
    routing: &mut Option<Routing>,
    settings: &Settings,
    given: &[&str],
    out: &mut String,
) -> Result<(), Unanswered> {
    let [start, workers, rest @ ..] = given else {
        return Err(Unanswered::Misread(
            "least_width START WORKERS, or with `global` and a gate after it",
        ));
    };
    let (width, workers) = (channel_width(start)?, worker_count(workers)?);
    let (mode, rest) = mode_before(rest);
    let gate = LabGate::new(rt, gate_words(rest, workers)?, 0)?;
    let asked = AskedRun {
        settings,
        workers,
        width,
        mode,
    };
    search_under(rt, design, routing, &asked, &gate, out)
}

/// Searches for the least width under a gate, and keeps the routing once all is added.
fn search_under<R: Runtime + Threads + Wait + Sync + AllocGlobal>(
    rt: &R,
    design: &Design,
    routing: &mut Option<Routing>,
    asked: &AskedRun<'_>,
    gate: &LabGate<'_, R>,
    out: &mut String,
) -> Result<(), Unanswered>
    requires width { (1 ≤ asked.now.width) × (asked.now.width ≤ most_tracks) }
    requires workers { (1 ≤ asked.now.workers) × (asked.now.workers ≤ most_workers) }
{
    let report = width_report(rt, design, asked, gate)?;
    put_widths(&report, gate, out)?;
    keep_least(rt.alloc(), routing, &report)
}

/// Adds the results of a search of widths, and the gate's own lines.
fn put_widths<R: Wait + Clock + AllocGlobal>(
    report: &WidthReport,
    gate: &LabGate<'_, R>,
    out: &mut String,
) -> Result<(), Unanswered> {
    put_trials(report.trials(), out)?;
    put_least(report, out)?;
    gate.put(out)
}

/// Keeps a copy of the routing of the least width, if there is one.
fn keep_least(
    alloc: Global,
    kept: &mut Option<Routing>,
    report: &WidthReport,
) -> Result<(), Unanswered> {
    if let Some(least) = report.least() {
        *kept = Some(copy_of(alloc, &least.routing)?);
    }
    Ok(())
}

/// Searches for the least width of the design, and returns the report.
fn width_report<R: Runtime + Threads + Wait + Sync + AllocGlobal>(
    rt: &R,
    design: &Design,
    asked: &AskedRun<'_>,
    gate: &LabGate<'_, R>,
) -> Result<WidthReport, Unanswered>
    requires width { (1 ≤ asked.now.width) × (asked.now.width ≤ most_tracks) }
    requires workers { (1 ≤ asked.now.workers) × (asked.now.workers ≤ most_workers) }
{
    let design = design.texts()?;
    let netlist = net_file::parse(rt.alloc(), design.net, design.arch)?;
    report_of(rt, design, &netlist, asked, gate)
}

/// Searches for the least width of a design with this netlist, and returns the report.
fn report_of<R: Runtime + Threads + Wait + Sync + AllocGlobal>(
    rt: &R,
    design: DesignTexts<'_>,
    netlist: &Netlist<'_>,
    asked: &AskedRun<'_>,
    gate: &LabGate<'_, R>,
) -> Result<WidthReport, Unanswered>
    requires width { (1 ≤ asked.now.width) × (asked.now.width ≤ most_tracks) }
    requires workers { (1 ≤ asked.now.workers) × (asked.now.workers ≤ most_workers) }
    requires read { (bytes : List ℕ) × ReadsBytes design.arch.now.pins bytes netlist.now }
{
    let (alloc, arch) = (rt.alloc(), design.arch);
    let placement = placement_of(alloc, design, netlist)?;
    let report = least_width(
        rt,
        alloc,
        arch,
        netlist,
        &placement,
        asked.settings,
        asked.width,
        asked.mode,
        asked.workers,
        gate,
    )?;
    Ok(report)
}

/// Adds a line for each trial.
fn put_trials(trials: &[Trial], out: &mut String) -> Result<(), Unanswered> {
    for trial in trials {
        let outcome = if trial.routed { "routed" } else { "not routed" };
        writeln!(out, "width {}: {outcome}", trial.width)?;
    }
    Ok(())
}

/// Adds the least width that was routed, or `none`.
fn put_least(report: &WidthReport, out: &mut String) -> Result<(), Unanswered> {
    match report.least() {
        Some(least) => { added(writeln!(out, "least {}", least.width)) }
        None => put(out, "none"),
    }
}

/// Returns a copy of a routing.
fn copy_of(alloc: Global, routing: &Routing) -> Result<Routing, AllocError> {
    let mut lists = Vec::with_capacity(alloc, routing.lists.len())?;
    for list in routing.lists.as_slice() {
        lists.push(copy_of_list(alloc, list)?)?;
    }
    Ok(Routing { lists })
}

fn copy_of_list(alloc: Global, list: &Option<Pairs>) -> Result<Option<Pairs>, AllocError> {
    match list {
        Some(pairs) => Ok(Some(Pairs {
            items: Vec::from_slice(alloc, pairs.items.as_slice())?,
        })),
        None => Ok(None),
    }
}
