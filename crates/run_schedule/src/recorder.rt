//! The gate that records the turns of a run.

ghost use Rattle.std.specs.Prelude.{◌≡◌, OnOk, false};
ghost use Rattle.run_schedule.specs.kept.Growing.{with_iteration};
ghost use Rattle.run_schedule.specs.kept.Recorded.{Begins, Notes};

use crate::description::{RunDescription, Sums};
use crate::trial::{Trial, Trials, Turns};
use crate::writing::write_schedule;
use gates::{Gate, ScheduledTurn};
use routing_problem::Problem;
use std::alloc::{AllocError, Global};
use std::sync::{Mutex, Wait};
use thiserror::Error;
use vpr_text::{Broken, ByteSink};

/// Why a record can't be written.
#[derive(Clone, Copy, Debug, PartialEq, Eq, Error)]
pub enum RecordFault {
    /// Memory ran out while turns were recorded.
    #[error("memory ran out")]
    Memory,
    /// The sink broke.
    #[error("{0}")]
    Broken(Broken),
}

impl From<Broken> for RecordFault {
    fn from(fault: Broken) -> RecordFault {
        RecordFault::Broken(fault)
    }
}

/// The turns that were recorded up to now.
#[derive(Debug, Drop)]
struct Recording {
    trials: Trials,
    /// The number of nets of its problems.
    nets: u32,
    is_lost: bool,
}

impl Recording {
    /// Begins a trial of this width, of a problem with this number of nets.
    fn begin(&mut self, alloc: Global, width: u32, nets: u32)
        ensures { self.new.is_lost ≡ false → Begins self.old self.new width nets }
    {
        self.nets = nets;
        if self.trials.push(Trial::new(alloc, width)).is_err() {
            self.is_lost = true;
        }
    }

    /// Adds the turns of the next iteration to the last trial.
    fn push(&mut self, alloc: Global, turns: &[ScheduledTurn]) -> Result<(), AllocError>
        ensures { OnOk result (self.new ≡ record self.old {
          trials = with_iteration self.old.trials turns.now;
        }) }
    {
        let turns = Turns::of(alloc, turns)?;
        self.trials.push_turns(turns)
    }

    /// Notes the turns of the next iteration.
    fn note(&mut self, alloc: Global, turns: &[ScheduledTurn])
        ensures { self.new.is_lost ≡ false → Notes self.old self.new turns.now }
    {
        if self.push(alloc, turns).is_err() {
            self.is_lost = true;
        }
    }
}

/// A gate that records the turns of the workers in memory, until they are written. If memory runs
/// out, the record is lost and the run goes on.
#[derive(Drop)]
pub struct Recorder<'a, R> {
    rt: &'a R,
    alloc: Global,
    recording: Mutex<Recording>,
}

impl<'a, R: Wait> Recorder<'a, R> {
    /// Returns a gate that has recorded nothing yet.
    pub fn new(rt: &'a R, alloc: Global) -> Recorder<'a, R> {
        Recorder {
            rt,
            alloc,
            recording: Mutex::new(Recording {
                trials: Trials::new(alloc),
                nets: 0,
                is_lost: false,
            }),
        }
    }

    /// Writes the schedule of the run up to now.
    ///
    /// # Errors
    /// `Memory` if it ran out while the turns were recorded, and `Broken` if the sink broke.
    pub fn write<W: ByteSink>(
        &self,
        sink: &mut W,
        run: &RunDescription<'_>,
    ) -> Result<(), RecordFault> {
        let recording = self.recording.lock(self.rt);
        if recording.is_lost {
            return Err(RecordFault::Memory);
        }
        let sums = Sums::of(self.rt, run);
        let head = run.head(&sums, recording.nets);
        write_schedule(sink, &head, &recording.trials)?;
        Ok(())
    }
}

impl<R: Wait> Gate for Recorder<'_, R> {
    ghost accepted = { λ gate iteration turns. Unit {0} };

    fn begins(&self, problem: &Problem) {
        let mut recording = self.recording.lock(self.rt);
        recording.begin(self.alloc, problem.device().width(), problem.nets());
    }

    fn between(&self, _worker: u32, _net: u32) {}

    fn searched(&self, _worker: u32, _net: u32) {}

    fn accepts(&self, _iteration: u32, turns: &[ScheduledTurn]) -> bool {
        let mut recording = self.recording.lock(self.rt);
        recording.note(self.alloc, turns);
        true
    }
}
