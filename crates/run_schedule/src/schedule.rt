//! The schedule of a run, as its text has it.

ghost use Rattle.std.specs.Prelude.{◌≡◌, ◌↔◌, ◌++◌, IfOk, IfSome, IsOk, MatchResult};
ghost use Rattle.std.specs.Result.{result_ok};
ghost use Rattle.run_schedule.specs.declared.fault.FaultKind.TheVariants.{Memory};
ghost use Rattle.run_schedule.specs.Follows.{HasTurns};
ghost use Rattle.run_schedule.specs.Heads.{IsHead, IsHeadRest, IsTitle, title_text};
ghost use Rattle.run_schedule.specs.Runs.{IsSchedule, RunTurns, text_of_run};
ghost use Rattle.run_schedule.specs.Schedules.{AreTrials};
ghost use Rattle.run_schedule.specs.kept.Reading.{ReadsAll};
ghost use Rattle.run_schedule.specs.ScheduleTexts.{end_text, titles_text, trials_text};
ghost use Rattle.run_schedule.specs.kept.Taking.{Passes, TakesSome};

use crate::fault::{FaultKind, ScheduleFault};
use crate::reading::read_trials;
use crate::text::{Text, line_at};
use crate::trial::{Trial, Trials};
use gates::ScheduledTurn;
use node_cost::MOST_WORKERS;
use std::alloc::Global;
use std::marker::Model;

const MOST_NETS: u32 = 65535;

/// The numbers of workers and nets of a schedule's run.
#[derive(Clone, Copy, Debug)]
struct Counts {
    workers: u32,
    nets: u32,
}

/// The schedule of a run, read from a text.
#[derive(Debug, Drop)]
pub struct RunSchedule<'a> {
    /// The lines above the titles.
    head: &'a [u8],
    workers: u32,
    nets: u32,
    trials: Trials,
}

impl<'a> Model for RunSchedule<'a> {
    ghost use Rattle.run_schedule.specs.Runs.{IsSchedule, RunTurns};

    ghost Value = { RunTurns };

    ghost use Rattle.run_schedule.specs.kept.RunFields.{run_inside};

    ghost view = { run_inside };

    ghost invariant = { λ s. IsSchedule (run_inside s) };
}

/// Reads the lines of a head after the first two.
fn take_counts(text: &mut Text<'_>) -> Option<Counts>
    ensures { TakesSome (λ counts. IsHeadRest counts.workers counts.nets) text.old text.new result }
{
    text.pass_notes(3)?;
    let workers = text.take_within(b"# workers ", 1, MOST_WORKERS)?;
    text.pass_notes(6)?;
    let nets = text.take_within(b"# nets ", 0, MOST_NETS)?;
    Some(Counts { workers, nets })
}

/// Takes off the first two lines of a head.
fn pass_title(text: &mut Text<'_>) -> Option<()>
    ensures { Passes IsTitle title_text text.old text.new result }
{
    text.pass_line(b"# pathfinder ")?;
    text.pass_line(b"# schedule of ")
}

/// Reads a head.
fn read_head(text: &mut Text<'_>) -> Result<Counts, FaultKind>
    ensures { TakesSome (λ counts. IsHead counts.workers counts.nets) text.old text.new
        (result_ok result) }
{
    pass_title(text).ok_or(FaultKind::NotSchedule)?;
    take_counts(text).ok_or(FaultKind::BadHead)
}

/// Reads the last line.
fn read_end(text: &mut Text<'_>) -> Result<(), FaultKind>
    ensures { IsOk result ↔ (text.old ≡ end_text) }
{
    text.take(b"end\n").ok_or(FaultKind::BadEnd)?;
    if text.rest().is_empty() {
        Ok(())
    } else {
        Err(FaultKind::BadEnd)
    }
}

/// Reads the trials of a run, and the last line.
fn read_to_end(alloc: Global, text: &mut Text<'_>, counts: Counts) -> Result<Trials, FaultKind>
    ensures { ReadsAll (AreTrials counts.nets counts.workers)
        (λ trials. trials_text trials ++ end_text) text.old result }
{
    let trials = read_trials(alloc, text, counts.nets, counts.workers)?;
    read_end(text)?;
    Ok(trials)
}

/// Returns whether a line ends in a text.
fn has_line(text: &[u8]) -> bool {
    text.contains(&b'\n')
}

/// Reads the titles and all that follows. A text that breaks off there has no end.
fn read_body(alloc: Global, text: &mut Text<'_>, counts: Counts) -> Result<Trials, FaultKind>
    ensures { ReadsAll (AreTrials counts.nets counts.workers)
        (λ trials. titles_text ++ (trials_text trials ++ end_text)) text.old result }
{
    text.take(b"net worker seen\n").ok_or(FaultKind::BadHead)?;
    match read_to_end(alloc, text, counts) {
        Err(kind) if !kind.is_memory() && !has_line(text.rest()) => Err(FaultKind::BadEnd),
        result => result,
    }
}

/// Reads a whole schedule.
fn read_run<'a>(alloc: Global, text: &mut Text<'a>) -> Result<RunSchedule<'a>, FaultKind>
    ensures { ReadsAll IsSchedule text_of_run text.old result }
{
    let bytes = text.rest();
    let counts = read_head(text)?;
    let head = bytes.split_at(bytes.len() - text.rest().len()).0;
    let trials = read_body(alloc, text, counts)?;
    Ok(RunSchedule {
        head,
        workers: counts.workers,
        nets: counts.nets,
        trials,
    })
}

/// Returns the schedule with these bytes as its text.
///
/// The first fault, with its line; of several faults of a line, the one that comes first in
/// `FaultKind`. If the last line after the titles breaks off, that is `BadEnd`.
pub fn read<'a>(alloc: Global, bytes: &'a [u8]) -> Result<RunSchedule<'a>, ScheduleFault>
    // What is read is the schedule of the text.
    ensures found { IfOk result (λ s. IsSchedule s × (bytes.now ≡ text_of_run s)) }
    // A text has no other schedule, and one that has a schedule is read, unless memory runs out.
    ensures only { (s : RunTurns) → IsSchedule s → bytes.now ≡ text_of_run s
        → MatchResult result (λ r. r ≡ s) (λ fault. fault.kind ≡ Memory) }
{
    let mut text = Text::new(bytes);
    match read_run(alloc, &mut text) {
        Ok(schedule) => Ok(schedule),
        Err(kind) => Err(ScheduleFault {
            line: line_at(bytes, text.rest()),
            kind,
        }),
    }
}

impl<'a> RunSchedule<'a> {
    /// Returns the lines of its head.
    pub fn head(&self) -> &'a [u8]
        ensures { result.now ≡ self.now.head }
    {
        self.head
    }

    /// Returns the number of workers of its run.
    pub fn workers(&self) -> u32
        ensures workers { result ≡ self.now.workers }
        ensures limits { IsSchedule self.now }
    {
        self.workers
    }

    /// Returns the number of nets of each problem of its run.
    pub fn nets(&self) -> u32
        ensures { result ≡ self.now.nets }
    {
        self.nets
    }

    /// Returns the turns of an iteration, counted from 1, of a trial, counted from 0.
    pub fn turns(&self, trial: usize, iteration: u32) -> Option<&[ScheduledTurn]>
        ensures { IfSome result (λ turns. HasTurns self.now iteration turns.now) }
    {
        let trial = self.trials.as_slice().get(trial)?;
        trial.turns(iteration)
    }

    /// Returns its trials.
    pub fn trials(&self) -> &[Trial]
        ensures { result.now ≡ self.now.trials }
    {
        self.trials.as_slice()
    }
}
