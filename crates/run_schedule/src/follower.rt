//! The gate that has a run follow a schedule.

use crate::description::{RunDescription, Sums};
use crate::fault::{FaultKind, ScheduleFault};
use crate::head::head_lines;
use crate::misfit::head_misfit;
use crate::progress::Progress;
use crate::schedule::RunSchedule;
use gates::{Gate, Schedule, ScheduledTurn};
use routing_problem::Problem;
use std::alloc::Global;
use std::sync::{Mutex, Wait};

/// A gate that has the workers make the turns of a schedule. If the schedule is that of another
/// run, the gate gives no turns and accepts none, so that the negotiation has no outcome.
#[derive(Drop)]
pub struct Follower<'a, R> {
    rt: &'a R,
    alloc: Global,
    schedule: &'a RunSchedule<'a>,
    run: &'a RunDescription<'a>,
    is_alone: bool,
    progress: Mutex<Progress>,
}

impl<'a, R: Wait> Follower<'a, R> {
    /// Returns a gate that has followed nothing yet. A run by one thread (`is_alone`) counts as one
    /// by as many workers as the schedule has.
    pub fn new(
        rt: &'a R,
        alloc: Global,
        schedule: &'a RunSchedule<'a>,
        run: &'a RunDescription<'a>,
        is_alone: bool,
    ) -> Follower<'a, R> {
        Follower {
            rt,
            alloc,
            schedule,
            run,
            is_alone,
            progress: Mutex::new(Progress::new()),
        }
    }

    /// Returns the first line of the schedule that isn't that of the run, as far as this has come.
    pub fn misfit(&self) -> Option<ScheduleFault> {
        let progress = self.progress.lock(self.rt);
        progress.misfit()
    }

    /// Returns whether the run made all turns of the schedule.
    pub fn is_spent(&self) -> bool {
        let progress = self.progress.lock(self.rt);
        progress.is_spent(self.schedule)
    }

    /// Returns the number of workers that the run counts as having.
    fn workers(&self) -> u32 {
        if self.is_alone {
            self.schedule.workers()
        } else {
            self.run.workers
        }
    }

    /// Returns the first line of the head that isn't that of the run, with this number of nets.
    fn head_misfit(&self, nets: u32) -> Option<ScheduleFault> {
        let run = RunDescription {
            workers: self.workers(),
            ..*self.run
        };
        let sums = Sums::of(self.rt, &run);
        match head_lines(self.alloc, &run.head(&sums, nets)) {
            Ok(lines) => head_misfit(self.schedule.head(), &lines),
            Err(_) => Some(ScheduleFault {
                line: 1,
                kind: FaultKind::Memory,
            }),
        }
    }
}

impl<R: Wait> Gate for Follower<'_, R> {
    ghost use Rattle.run_schedule.specs.Follows.{HasTurns};

    ghost accepted = { λ gate iteration turns. HasTurns gate.schedule.now iteration turns };

    fn begins(&self, problem: &Problem) {
        let mut progress = self.progress.lock(self.rt);
        if progress.is_fresh()
            && let Some(misfit) = self.head_misfit(problem.nets())
        {
            progress.note(misfit);
        }
        if progress.misfit().is_none() {
            progress.begin(self.schedule, problem.device().width());
        }
    }

    fn schedule(&self, iteration: u32) -> Option<Schedule<'_>> {
        let mut progress = self.progress.lock(self.rt);
        Some(Schedule {
            turns: progress.next_turns(self.schedule, iteration),
            is_alone: self.is_alone,
        })
    }

    fn between(&self, _worker: u32, _net: u32) {}

    fn searched(&self, _worker: u32, _net: u32) {}

    fn accepts(&self, iteration: u32, turns: &[ScheduledTurn]) -> bool {
        let mut progress = self.progress.lock(self.rt);
        progress.accept(self.schedule, iteration, turns)
    }
}
