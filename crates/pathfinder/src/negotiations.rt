//! The commands that negotiate: `route` and `width`.

ghost use Rattle.std.specs.Prelude.{◌≡◌, ◌≤◌, if◌then◌else◌};
ghost use Rattle.rr_graph.specs.Fabric.{most_tracks};
ghost use Rattle.node_cost.specs.Options.{most_workers};
ghost use Rattle.runs.specs.declared.plan.WidthPlan.TheVariants.{Search, Upward};
ghost use Rattle.runs.specs.WidthRun.{start_of};

use crate::begun::RunTexts;
use crate::commands::mode_of;
use crate::files::{BehindProgress, RunFile};
use crate::opened::OpenedDesign;
use crate::run_gates::RunGates;
use crate::schedule::{
    InputSums, RunFault, ScheduleGates, route_text, schedule_in, width_text, workers_of,
};
use crate::side::{RestFile, TrialFiles, free_name, log_sink, others_of};
use crate::terminal::{Screen, output};
use crate::written::{paths_of, written_file};
use command_line::command::{RouteWords, RunWords, WidthWords};
use command_line::help::VERSION;
use iteration::Outcome;
use net_workers::Gate;
use node_cost::Settings;
use rr_graph::Mode;
use run_inputs::AppFault;
use run_log::{Log, LogHead};
use run_schedule::Summed;
use runs::{SideFiles, WidthPlan, route_run, width_run};
use std::rt::Runtime;
use std::sync::Wait;
use std::thread::Threads;
use vpr_text::{Adapted, ByteSink};
use width_search::WidthReport;

/// Routes a design while these gates watch.
fn route_watched<R, P: Gate + Sync, L: Gate + Sync>(
    handle: &R,
    gates: &ScheduleGates<'_, R>,
    progress: &P,
    log: &L,
    rest: &RestFile<'_>,
    design: &mut OpenedDesign,
    sums: &InputSums,
    route: &mut RunFile<'_>,
    out: &mut impl ByteSink,
    width: u32,
    mode: Mode,
    settings: &Settings,
    workers: u32,
) -> Result<Outcome, AppFault>
where
    R: Runtime + Threads + Wait + Sync + AllocGlobal,
    requires tracks { (1 ≤ width) × (width ≤ most_tracks) }
    requires workers { (1 ≤ workers) × (workers ≤ most_workers) }
{
    let gate = RunGates {
        follower: &gates.follower,
        recorder: &gates.recorder,
        progress,
        log,
    };
    route_run(
        handle,
        &mut Summed::new(handle, &mut design.net, gates.wanted(&sums.net)),
        &mut Summed::new(handle, &mut design.arch, gates.wanted(&sums.arch)),
        &mut Summed::new(handle, &mut design.place, gates.wanted(&sums.place)),
        route,
        out,
        width,
        mode,
        settings,
        workers,
        &gate,
        rest,
    )
}

/// Runs the `route` command. The inputs were opened in reading order, before one is read, and stay
/// open to the end. So the routing file never gets the descriptor of a standard stream that was
/// closed.
pub fn route<'a, R: Runtime + Threads + Wait + Sync + AllocGlobal>(
    handle: &'a R,
    screen: &'a Screen<'a>,
    words: RunWords<'a>,
    given: RouteWords<'a>,
    texts: &'a RunTexts,
    design: &mut OpenedDesign,
) -> Result<Outcome, RunFault>
    requires tracks { (1 ≤ given.width) × (given.width ≤ most_tracks) }
    requires workers { (1 ≤ words.workers) × (words.workers ≤ most_workers) }
{
    let (rt, progress) = (screen.rt, &screen.progress);
    let files = paths_of(words.net, words.arch, words.place, words.route);
    let mut route = written_file(rt, progress, files, words.follow)?;
    let mut out = Adapted::new(BehindProgress::new(output(rt, screen.watched), progress));
    let schedule = schedule_in(rt.alloc(), texts.followed_bytes(), words.workers)?;
    let (workers, settings) = (workers_of(&schedule, words.workers), words.settings);
    let (width, mode) = (given.width, mode_of(words.global));
    let command = route_text(rt.alloc(), width, mode, settings.is_steady())?;
    let sums = InputSums::new();
    let run = sums.description(command.as_str(), workers, settings);
    let others = others_of(files, [words.log, words.follow, given.rest]);
    let recorded = free_name(rt, words.schedule, others);
    let sink = log_sink(
        rt,
        words.log,
        others_of(files, [words.follow, None, None]),
        progress,
    );
    let head = LogHead {
        program: VERSION,
        files: texts.names.files(recorded.is_some()),
        workers,
        settings,
    };
    let log = Log::new(handle, texts.names.log(), head, sink);
    let rest = RestFile {
        rt,
        name: free_name(
            rt,
            given.rest,
            others_of(files, [words.log, words.follow, None]),
        ),
        progress,
    };
    let gates = ScheduleGates::new(handle, rt.alloc(), &schedule, &run, words.workers, recorded);
    let result = route_watched(
        handle, &gates, progress, &log, &rest, design, &sums, &mut route, &mut out, width, mode,
        &settings, workers,
    );
    let outcome = gates.result_of(result)?;
    gates.end(rt, progress, words.follow, recorded, &run);
    Ok(outcome)
}

/// Returns the plan of the widths that a search tries.
fn plan_of(start: u32, upward: bool, below: u32, shows_bound: bool) -> WidthPlan
    requires { (1 ≤ start) × (start ≤ most_tracks) }
    ensures plan { result ≡ (if upward then Upward start else Search start below shows_bound) }
    ensures start { (1 ≤ start_of result) × (start_of result ≤ most_tracks) }
{
    if upward {
        WidthPlan::Upward { start }
    } else {
        WidthPlan::Search {
            start,
            below,
            shows_bound,
        }
    }
}

/// Searches for the least width of a design while these gates watch.
fn width_watched<R, P: Gate + Sync, L: Gate + Sync>(
    handle: &R,
    gates: &ScheduleGates<'_, R>,
    progress: &P,
    log: &L,
    kept: &TrialFiles<'_>,
    design: &mut OpenedDesign,
    sums: &InputSums,
    route: &mut RunFile<'_>,
    out: &mut impl ByteSink,
    words: &mut RunFile<'_>,
    plan: WidthPlan,
    mode: Mode,
    settings: &Settings,
    workers: u32,
) -> Result<WidthReport, AppFault>
where
    R: Runtime + Threads + Wait + Sync + AllocGlobal,
    requires start { (1 ≤ start_of plan) × (start_of plan ≤ most_tracks) }
    requires workers { (1 ≤ workers) × (workers ≤ most_workers) }
{
    let gate = RunGates {
        follower: &gates.follower,
        recorder: &gates.recorder,
        progress,
        log,
    };
    width_run(
        handle,
        &mut Summed::new(handle, &mut design.net, gates.wanted(&sums.net)),
        &mut Summed::new(handle, &mut design.arch, gates.wanted(&sums.arch)),
        &mut Summed::new(handle, &mut design.place, gates.wanted(&sums.place)),
        route,
        out,
        words,
        plan,
        mode,
        settings,
        workers,
        &gate,
        kept,
    )
}

/// Runs the `width` command. Its files were opened like those of `route`.
pub fn width<'a, R: Runtime + Threads + Wait + Sync + AllocGlobal>(
    handle: &'a R,
    screen: &'a Screen<'a>,
    words: RunWords<'a>,
    given: WidthWords<'a>,
    texts: &'a RunTexts,
    design: &mut OpenedDesign,
) -> Result<WidthReport, RunFault>
    requires start { (1 ≤ given.start) × (given.start ≤ most_tracks) }
    requires workers { (1 ≤ words.workers) × (words.workers ≤ most_workers) }
{
    let (rt, progress) = (screen.rt, &screen.progress);
    let files = paths_of(words.net, words.arch, words.place, words.route);
    let mut route = written_file(rt, progress, files, words.follow)?;
    let mut out = Adapted::new(BehindProgress::new(output(rt, screen.watched), progress));
    let schedule = schedule_in(rt.alloc(), texts.followed_bytes(), words.workers)?;
    let (workers, settings) = (workers_of(&schedule, words.workers), words.settings);
    let plan = plan_of(given.start, given.upward, given.verify, !given.no_bound);
    let mode = mode_of(words.global);
    let command = width_text(rt.alloc(), &given, mode, settings.is_steady())?;
    let sums = InputSums::new();
    let run = sums.description(command.as_str(), workers, settings);
    let others = others_of(files, [words.log, words.follow, None]);
    let recorded = free_name(rt, words.schedule, others);
    let sink = log_sink(
        rt,
        words.log,
        others_of(files, [words.follow, None, None]),
        progress,
    );
    let head = LogHead {
        program: VERSION,
        files: texts.names.files(recorded.is_some()),
        workers,
        settings,
    };
    let log = Log::new(handle, texts.names.log(), head, sink);
    let kept = TrialFiles {
        rt,
        prefix: given.keep,
        others: others_of(files, [words.log, words.follow, words.schedule]),
        progress,
    };
    let gates = ScheduleGates::new(handle, rt.alloc(), &schedule, &run, words.workers, recorded);
    let mut told = kept.words();
    let result = width_watched(
        handle, &gates, progress, &log, &kept, design, &sums, &mut route, &mut out, &mut told,
        plan, mode, &settings, workers,
    );
    let report = gates.result_of(result)?;
    gates.end(rt, progress, words.follow, recorded, &run);
    Ok(report)
}
