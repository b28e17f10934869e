//! Where a log goes: its head, and the lines of iterations and trials, each whole and at once.

ghost use Rattle.std.specs.Prelude.{◌≡◌, ◌≤◌, true, false, max, min};
ghost use Rattle.node_cost.specs.Options.{most_iterations};
ghost use Rattle.run_inputs.specs.Runs.{PrintsText, writing_to};
ghost use Rattle.run_log.specs.kept.Logged.{log_head_text, trial_text, LogStays, Logs, TakesText};
ghost use Rattle.run_log.specs.kept.LogTexts.{row_text};

use crate::log_text::{write_head, write_row};
use crate::run_files::RunFiles;
use crate::trial_text::{write_left, write_routed};
use congestion_book::Book;
use net_workers::TrialEnd;
use node_cost::{MOST_ITERATIONS, Settings};
use rr_graph::Problem;
use run_inputs::AppFault;
use vpr_text::ByteSink;

/// What the head of a log names of its run: the version of the program, the files, the number of
/// workers, and the settings.
#[derive(Clone, Copy, Debug)]
pub struct LogHead<'a> {
    pub program: &'a str,
    pub files: RunFiles<'a>,
    pub workers: u32,
    pub settings: Settings,
}

/// The sink of a log.
#[derive(Drop)]
pub(crate) struct LogSink<W> {
    /// `None` if no log is wanted, or none any more.
    pub(crate) out: Option<W>,
    /// Whether a negotiation has begun.
    pub(crate) is_begun: bool,
}

/// Writes the head. Returns the sink, unless it failed.
fn with_head<W: ByteSink + Drop>(mut sink: W, head: &LogHead<'_>, problem: &Problem) -> Option<W>
    ensures { TakesText W.taken W.failed sink result (log_head_text head.now problem.now) }
{
    let program = head.program.as_bytes();
    match write_head(
        &mut sink,
        program,
        &head.files,
        problem,
        head.workers,
        &head.settings,
    ) {
        Ok(()) => Some(sink),
        Err(_) => None,
    }
}

/// Writes the line of an iteration. Returns the sink, unless it failed.
fn with_row<W: ByteSink + Drop>(
    mut sink: W,
    settings: &Settings,
    iteration: u32,
    book: &Book,
    milliseconds: u64,
) -> Option<W>
    requires { (1 ≤ iteration) × (iteration ≤ most_iterations) }
    ensures { TakesText W.taken W.failed sink result
        (row_text settings.now iteration book.now milliseconds) }
{
    match write_row(&mut sink, settings, iteration, book, milliseconds) {
        Ok(()) => Some(sink),
        Err(_) => None,
    }
}

/// Writes the line of a trial.
fn write_trial<W: ByteSink>(sink: &mut W, width: u32, end: TrialEnd) -> Result<(), AppFault>
    ensures { PrintsText (writing_to W.taken W.failed sink.old sink.new) (trial_text width end) tt
        result }
{
    match end {
        TrialEnd::Routed { iterations } => write_routed(sink, width, iterations),
        TrialEnd::NotRouted {
            unrouted,
            overused,
            iterations,
        } => write_left(sink, width, unrouted, overused, iterations),
    }
}

/// Writes the line of a trial. Returns the sink, unless it failed.
fn with_trial<W: ByteSink + Drop>(mut sink: W, width: u32, end: TrialEnd) -> Option<W>
    ensures { TakesText W.taken W.failed sink result (trial_text width end) }
{
    match write_trial(&mut sink, width, end) {
        Ok(()) => Some(sink),
        Err(_) => None,
    }
}

/// Writes the head, if no negotiation has begun before. Returns whether that failed: then the log
/// ends.
pub(crate) fn log_head<W: ByteSink + Drop>(
    log: &mut LogSink<W>,
    head: &LogHead<'_>,
    problem: &Problem,
) -> bool
    ensures begun { log.new.is_begun ≡ true }
    ensures once { log.old.is_begun ≡ true → LogStays log.old.out log.new.out result }
    ensures first { log.old.is_begun ≡ false → Logs W.taken W.failed log.old.out log.new.out
        (log_head_text head.now problem.now) result }
{
    if log.is_begun {
        return false;
    }
    log.is_begun = true;
    let Some(sink) = log.out.take() else {
        return false;
    };
    log.out = with_head(sink, head, problem);
    log.out.is_none()
}

/// Writes the line of an iteration. Returns whether that failed: then the log ends.
pub(crate) fn log_row<W: ByteSink + Drop>(
    log: &mut LogSink<W>,
    settings: &Settings,
    iteration: u32,
    book: &Book,
    milliseconds: u64,
) -> bool
    ensures begun { log.new.is_begun ≡ log.old.is_begun }
    ensures row { Logs W.taken W.failed log.old.out log.new.out
        (row_text settings.now (min (max iteration 1) most_iterations) book.now milliseconds)
        result }
{
    let number = iteration.max(1).min(MOST_ITERATIONS);
    let Some(sink) = log.out.take() else {
        return false;
    };
    log.out = with_row(sink, settings, number, book, milliseconds);
    log.out.is_none()
}

/// Writes the line of a trial. Returns whether that failed: then the log ends.
pub(crate) fn log_trial<W: ByteSink + Drop>(log: &mut LogSink<W>, width: u32, end: TrialEnd) -> bool
    ensures begun { log.new.is_begun ≡ log.old.is_begun }
    ensures trial { Logs W.taken W.failed log.old.out log.new.out (trial_text width end) result }
{
    let Some(sink) = log.out.take() else {
        return false;
    };
    log.out = with_trial(sink, width, end);
    log.out.is_none()
}
