//! How far a schedule was followed.

ghost use Rattle.std.specs.Prelude.{IfSome, IsTrue};
ghost use Rattle.run_schedule.specs.Follows.{HasTurns};

use crate::fault::{FaultKind, ScheduleFault};
use crate::schedule::RunSchedule;
use crate::trial::Trial;
use gates::ScheduledTurn;

/// The line of the first trial.
const FIRST_LINE: u32 = 15;

/// Returns the number of lines of a trial.
fn line_count(trial: &Trial) -> u32 {
    trial.iterations().iter().fold(1, |lines, turns| {
        let turn_count = u32::try_from(turns.len()).unwrap_or(u32::MAX);
        lines.saturating_add(turn_count).saturating_add(1)
    })
}

/// Returns the line at which a trial begins, or the line after the last trial.
fn line_of(schedule: &RunSchedule<'_>, trial: usize) -> u32 {
    let before = schedule.trials().iter().take(trial);
    before.fold(FIRST_LINE, |line, trial| {
        line.saturating_add(line_count(trial))
    })
}

/// How far a schedule was followed, and the first line that isn't that of the run.
#[derive(Clone, Copy, Debug)]
pub(crate) struct Progress {
    /// The number of trials that were begun.
    trials: usize,
    /// The number of iterations of the last one that were made.
    iterations: usize,
    /// Whether a trial ended before all its iterations were made.
    is_cut: bool,
    misfit: Option<ScheduleFault>,
}

impl Progress {
    /// Returns that nothing was followed yet.
    pub(crate) fn new() -> Progress {
        Progress {
            trials: 0,
            iterations: 0,
            is_cut: false,
            misfit: None,
        }
    }

    pub(crate) fn misfit(&self) -> Option<ScheduleFault> {
        self.misfit
    }

    /// Returns whether no trial was begun.
    pub(crate) fn is_fresh(&self) -> bool {
        self.trials == 0
    }

    /// Notes a line that isn't that of the run, if it is the first one.
    pub(crate) fn note(&mut self, misfit: ScheduleFault) {
        self.misfit = Some(misfit);
    }

    /// Notes that the line at which a trial would begin isn't that of the run.
    fn note_at(&mut self, schedule: &RunSchedule<'_>, trial: usize, kind: FaultKind) {
        let line = line_of(schedule, trial);
        self.note(ScheduleFault { line, kind });
    }

    /// Returns the turns of an iteration of the trial that was begun last.
    fn turns<'s>(
        &self,
        schedule: &'s RunSchedule<'_>,
        iteration: u32,
    ) -> Option<&'s [ScheduledTurn]>
        ensures { IfSome result (λ turns. HasTurns schedule.now iteration turns.now) }
    {
        let trial = self.trials.checked_sub(1)?;
        schedule.turns(trial, iteration)
    }

    /// Returns whether all iterations of the trial that was begun last were made.
    fn has_ended(&self, schedule: &RunSchedule<'_>) -> bool {
        let Some(trial) = self.trials.checked_sub(1) else {
            return true;
        };
        match schedule.trials().get(trial) {
            Some(trial) => trial.iterations().len() == self.iterations,
            None => true,
        }
    }

    /// Begins the next trial, on a device of this width.
    pub(crate) fn begin(&mut self, schedule: &RunSchedule<'_>, width: u32) {
        if !self.has_ended(schedule) {
            self.is_cut = true;
        }
        let trial = self.trials;
        match schedule.trials().get(trial) {
            None => self.note_at(schedule, trial, FaultKind::MoreTrials),
            Some(next) if next.width() != width => {
                self.note_at(schedule, trial, FaultKind::OtherWidth);
            }
            Some(_) => {
                self.trials = trial + 1;
                self.iterations = 0;
            }
        }
    }

    /// Returns the turns to make in an iteration, or none if the schedule isn't that of the run.
    pub(crate) fn next_turns<'s>(
        &mut self,
        schedule: &'s RunSchedule<'_>,
        iteration: u32,
    ) -> &'s [ScheduledTurn] {
        if self.misfit.is_some() {
            return &[];
        }
        match self.turns(schedule, iteration) {
            Some(turns) => turns,
            None => {
                self.note_at(schedule, self.trials, FaultKind::MoreIterations);
                &[]
            }
        }
    }

    /// Notes that an iteration was made, and returns whether these are its turns in the schedule.
    pub(crate) fn accept(
        &mut self,
        schedule: &RunSchedule<'_>,
        iteration: u32,
        turns: &[ScheduledTurn],
    ) -> bool
        ensures { IsTrue result → HasTurns schedule.now iteration turns.now }
    {
        if self.misfit.is_some() {
            return false;
        }
        let Some(scheduled) = self.turns(schedule, iteration) else {
            return false;
        };
        if *scheduled != *turns {
            return false;
        }
        self.iterations = iteration as usize;
        true
    }

    /// Returns whether the run made each trial of the schedule, and each iteration.
    pub(crate) fn is_spent(&self, schedule: &RunSchedule<'_>) -> bool {
        self.misfit.is_none()
            && !self.is_cut
            && self.trials == schedule.trials().len()
            && self.has_ended(schedule)
    }
}
