//! The schedules of a run: the one that it follows, and the one that it writes.

ghost use Rattle.std.specs.Prelude.{◌≤◌};
ghost use Rattle.node_cost.specs.Options.{most_workers};

use crate::begun::refused;
use crate::files::RunFile;
use crate::shown::Plain;
use command_line::command::WidthWords;
use command_line::help::VERSION;
use node_cost::{MOST_WORKERS, Settings};
use rr_graph::Mode;
use run_inputs::AppFault;
use run_log::Progress;
use run_schedule::{
    FaultKind, FileSum, Follower, Recorder, RunDescription, RunSchedule, ScheduleFault, read,
};
use std::alloc::{AllocError, Global};
use std::fs;
use std::io::{Eprint, ErrorKind};
use std::sync::Wait;

/// The line of a schedule that has the number of its workers.
const WORKERS_LINE: u32 = 6;

/// The status of a schedule that doesn't fit, which is that of bad input.
const BAD_SCHEDULE: u8 = 4;

/// The status of a schedule that can't be read.
const UNREAD: u8 = 5;

/// Why a run has no result.
#[derive(Clone, Copy)]
pub enum RunFault {
    /// A fault of the run itself.
    Run(AppFault),
    /// The schedule that it follows has this fault, which is never lack of memory.
    Schedule(ScheduleFault),
}

impl From<AppFault> for RunFault {
    fn from(fault: AppFault) -> RunFault {
        RunFault::Run(fault)
    }
}

impl From<AllocError> for RunFault {
    fn from(_fault: AllocError) -> RunFault {
        RunFault::Run(AppFault::Memory)
    }
}

impl From<ScheduleFault> for RunFault {
    fn from(fault: ScheduleFault) -> RunFault {
        if fault.kind.is_memory() {
            RunFault::Run(AppFault::Memory)
        } else {
            RunFault::Schedule(fault)
        }
    }
}

/// Reads the file of a schedule that a run follows, if it follows one.
///
/// # Errors
/// The status of the fault, which is printed.
#[inline(never)]
pub fn read_followed(rt: &HostRuntime, name: Option<&str>) -> Result<Option<Vec<u8>>, u8> {
    let Some(name) = name else {
        return Ok(None);
    };
    match fs::read(rt, name) {
        Ok(bytes) => Ok(Some(bytes)),
        Err(error) if error.kind() == ErrorKind::OutOfMemory => {
            Err(refused(rt, AppFault::Memory))
        }
        Err(_) => {
            let _ = println!(rt; "error: schedule cannot be read");
            Err(UNREAD)
        }
    }
}

/// Returns the schedule that the bytes of its file give, if the run follows one, for a run by this
/// many workers.
///
/// # Errors
/// The first fault of the file, and `OtherWorkers` if the run has neither one worker nor as many
/// as the schedule.
pub fn schedule_in(
    alloc: Global,
    bytes: Option<&[u8]>,
    workers: u32,
) -> Result<Option<RunSchedule<'_>>, RunFault> {
    let Some(bytes) = bytes else {
        return Ok(None);
    };
    let schedule = read(alloc, bytes)?;
    if workers != 1 && workers != schedule.workers() {
        return Err(RunFault::Schedule(ScheduleFault {
            line: WORKERS_LINE,
            kind: FaultKind::OtherWorkers,
        }));
    }
    Ok(Some(schedule))
}

/// Returns the number of workers of a run: those of the schedule that it follows, or those that it
/// is given.
pub fn workers_of(schedule: &Option<RunSchedule<'_>>, given: u32) -> u32
    requires { (1 ≤ given) × (given ≤ most_workers) }
    ensures { (1 ≤ result) × (result ≤ most_workers) }
{
    match schedule {
        Some(schedule) => schedule.workers().max(1).min(MOST_WORKERS),
        None => given,
    }
}

/// The sums of the input files of a run.
#[derive(Drop)]
pub struct InputSums {
    pub net: FileSum,
    pub arch: FileSum,
    pub place: FileSum,
}

impl InputSums {
    pub fn new() -> InputSums {
        InputSums {
            net: FileSum::new(),
            arch: FileSum::new(),
            place: FileSum::new(),
        }
    }

    /// Returns what identifies a run with these inputs. The command includes its own options.
    pub fn description<'a>(
        &'a self,
        command: &'a str,
        workers: u32,
        settings: Settings,
    ) -> RunDescription<'a> {
        RunDescription {
            program: VERSION,
            command,
            net: &self.net,
            arch: &self.arch,
            place: &self.place,
            workers,
            settings,
        }
    }
}

/// Returns the name of a mode.
fn mode_text(mode: Mode) -> &'static str {
    match mode {
        Mode::Detailed => "detailed",
        Mode::Global => "global",
    }
}

/// Returns the end of a command if nets keep to the trees that they have, or an empty text.
fn steady_text(is_steady: bool) -> &'static str {
    if is_steady { ", steady" } else { "" }
}

/// Returns the command `route` with its own options.
pub fn route_text(
    alloc: Global,
    width: u32,
    mode: Mode,
    is_steady: bool,
) -> Result<String, RunFault> {
    let (mode, steady) = (mode_text(mode), steady_text(is_steady));
    let text = format!(in alloc; "route, {width} tracks, {mode}{steady}");
    text.map_err(|_| RunFault::Run(AppFault::Memory))
}

/// Returns the command `width` with its own options.
pub fn width_text(
    alloc: Global,
    given: &WidthWords<'_>,
    mode: Mode,
    is_steady: bool,
) -> Result<String, RunFault> {
    let (mode, steady) = (mode_text(mode), steady_text(is_steady));
    let (start, verify) = (given.start, given.verify);
    let text = if given.upward {
        format!(in alloc; "width, start {start}, upward, {mode}{steady}")
    } else {
        format!(in alloc; "width, start {start}, verify {verify}, {mode}{steady}")
    };
    text.map_err(|_| RunFault::Run(AppFault::Memory))
}

/// The gates that follow and record the schedule of a run, each if the run does so.
#[derive(Drop)]
pub struct ScheduleGates<'a, R> {
    pub follower: Option<Follower<'a, R>>,
    pub recorder: Option<Recorder<'a, R>>,
}

impl<'a, R: Wait> ScheduleGates<'a, R> {
    /// Returns the gates of a run that follows the schedule, if there is one, with this many
    /// workers given. The run is recorded if the name `recorded` is given.
    pub fn new(
        rt: &'a R,
        alloc: Global,
        schedule: &'a Option<RunSchedule<'a>>,
        run: &'a RunDescription<'a>,
        given: u32,
        recorded: Option<&str>,
    ) -> ScheduleGates<'a, R> {
        let follower = match schedule {
            Some(schedule) => Some(Follower::new(rt, alloc, schedule, run, given == 1)),
            None => None,
        };
        let recorder = match recorded {
            Some(_) => Some(Recorder::new(rt, alloc)),
            None => None,
        };
        ScheduleGates { follower, recorder }
    }

    /// Returns the sum of an input, if it is needed.
    pub fn wanted<'s>(&self, sum: &'s FileSum) -> Option<&'s FileSum> {
        if self.follower.is_some() || self.recorder.is_some() {
            Some(sum)
        } else {
            None
        }
    }

    /// Returns the result of the run, or the fault of the schedule that it follows.
    pub fn result_of<T: Drop>(&self, answer: Result<T, AppFault>) -> Result<T, RunFault> {
        let fault = match &self.follower {
            Some(follower) => follower.misfit(),
            None => None,
        };
        match fault {
            Some(fault) => Err(RunFault::from(fault)),
            None => Ok(answer?),
        }
    }

    /// Writes what was recorded, and warns if the schedule that was followed has more turns than
    /// the run.
    pub fn end<'f>(
        &self,
        rt: &'f HostRuntime,
        progress: &'f Progress<'f, HostRuntime>,
        followed: Option<&str>,
        recorded: Option<&str>,
        run: &RunDescription<'_>,
    ) {
        if let (Some(name), Some(recorder)) = (recorded, &self.recorder) {
            write_recorded(rt, progress, name, recorder, run);
        }
        if let (Some(name), Some(follower)) = (followed, &self.follower) {
            warn_unspent(rt, name, follower);
        }
    }
}

/// Warns if a schedule that was followed has more turns than the run.
#[inline(never)]
fn warn_unspent<R: Wait>(rt: &HostRuntime, name: &str, follower: &Follower<'_, R>) {
    if !follower.is_spent() {
        let name = Plain(name);
        let _ = eprintln!(rt; "warning: {name} has more turns than the run");
    }
}

/// Writes the schedule of a run to the file of this name. Warns if it can't be written.
#[inline(never)]
fn write_recorded<'f, R: Wait>(
    rt: &'f HostRuntime,
    progress: &'f Progress<'f, HostRuntime>,
    name: &str,
    recorder: &Recorder<'_, R>,
    run: &RunDescription<'_>,
) {
    let is_written = match RunFile::of_name(rt, progress, name) {
        Ok(mut file) => recorder.write(&mut file, run).is_ok() && file.finish().is_ok(),
        Err(_) => false,
    };
    if !is_written {
        let name = Plain(name);
        let _ = eprintln!(rt; "warning: {name} cannot be written");
    }
}

/// Prints the line of a schedule's fault, explains it on standard error if that is wanted, and
/// returns its status.
#[inline(never)]
pub fn refused_schedule(
    rt: &HostRuntime,
    fault: ScheduleFault,
    name: Option<&str>,
    is_explained: bool,
) -> u8 {
    let (line, kind) = (fault.line, fault.kind);
    let _ = println!(rt; "error: schedule line {line}: {kind:?}");
    if is_explained {
        let name = Plain(name.unwrap_or(""));
        let _ = eprintln!(rt; "{name}:{line}: the line {kind}");
    }
    BAD_SCHEDULE
}
