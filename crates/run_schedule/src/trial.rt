//! The turns of a trial, iteration by iteration.

ghost use Rattle.run_schedule.specs.Follows.{turns_at};
ghost use Rattle.run_schedule.specs.kept.Growing.{with_iteration};
ghost use Rattle.std.specs.Option.{option_copied};
ghost use Rattle.std.specs.Prelude.{◌≡◌, ◌==◌, [], ◌∷◌, ◌++◌, IfOk, OnErr, OnOk, length};

use gates::ScheduledTurn;
use std::alloc::{AllocError, Global};
use std::marker::Model;

/// The turns of an iteration, in the order in which they were made. Contracts see their list.
#[derive(Debug, Drop)]
pub struct Turns {
    turns: Vec<ScheduledTurn>,
}

impl Model for Turns {
    ghost use Rattle.std.specs.Prelude.{List};
    ghost use Rattle.gates.specs.declared.schedule.ScheduledTurn.{ScheduledTurn};

    ghost Value = { List ScheduledTurn };

    ghost use Rattle.run_schedule.specs.kept.Fields.{turns_inside};

    ghost view = { turns_inside };
}

impl Turns {
    /// Returns an empty list.
    pub(crate) fn new(alloc: Global) -> Turns
        ensures { result ≡ [] }
    {
        Turns {
            turns: Vec::new(alloc),
        }
    }

    /// Returns a copy of these turns.
    pub fn of(alloc: Global, turns: &[ScheduledTurn]) -> Result<Turns, AllocError>
        ensures { IfOk result (λ t. t ≡ turns.now) }
    {
        let turns = Vec::from_slice(alloc, turns)?;
        Ok(Turns { turns })
    }

    /// Adds one at the end.
    pub(crate) fn push(&mut self, turn: ScheduledTurn) -> Result<(), AllocError>
        ensures ok { OnOk result (self.new ≡ self.old ++ turn ∷ []) }
        ensures err { OnErr result (self.new ≡ self.old) }
    {
        self.turns.push(turn)?;
        Ok(())
    }

    /// Returns the number of turns.
    pub(crate) fn len(&self) -> u64
        ensures { result ≡ length self.now }
    {
        self.turns.len() as u64
    }

    /// Returns them as a slice.
    pub fn as_slice(&self) -> &[ScheduledTurn]
        ensures { result.now ≡ self.now }
    {
        &self.turns
    }
}

/// A trial: the width of its device, and the turns of each iteration.
#[derive(Debug, Drop)]
pub struct Trial {
    width: u32,
    iterations: Vec<Turns>,
}

impl Model for Trial {
    ghost use Rattle.run_schedule.specs.Schedules.{TrialTurns};

    ghost Value = { TrialTurns };

    ghost use Rattle.run_schedule.specs.kept.Fields.{trial_inside};

    ghost view = { trial_inside };
}

impl Trial {
    /// Returns a trial of this width, before its first iteration.
    pub fn new(alloc: Global, width: u32) -> Trial
        ensures { result ≡ record { width = width; iterations = [] } }
    {
        Trial {
            width,
            iterations: Vec::new(alloc),
        }
    }

    /// Adds the turns of the next iteration.
    pub fn push(&mut self, turns: Turns) -> Result<(), AllocError>
        ensures ok { OnOk result (self.new ≡ record self.old {
          iterations = self.old.iterations ++ turns ∷ [];
        }) }
        ensures err { OnErr result (self.new ≡ self.old) }
    {
        self.iterations.push(turns)?;
        Ok(())
    }

    /// Returns the width of its device, in tracks.
    pub fn width(&self) -> u32
        ensures { result ≡ self.now.width }
    {
        self.width
    }

    /// Returns the turns of an iteration, counted from 1.
    pub fn turns(&self, iteration: u32) -> Option<&[ScheduledTurn]>
        ensures { option_copied result ≡ turns_at self.now iteration }
    {
        let index = iteration.checked_sub(1)?;
        let turns = self.iterations.get(index as usize)?;
        Some(turns.as_slice())
    }

    /// Returns the turns of each iteration.
    pub fn iterations(&self) -> &[Turns]
        ensures { result.now ≡ self.now.iterations }
    {
        &self.iterations
    }
}

/// The trials of a run, in the order in which they were made. Contracts see their list.
#[derive(Debug, Drop)]
pub struct Trials {
    trials: Vec<Trial>,
}

impl Model for Trials {
    ghost use Rattle.std.specs.Prelude.{List};
    ghost use Rattle.run_schedule.specs.Schedules.{TrialTurns};

    ghost Value = { List TrialTurns };

    ghost use Rattle.run_schedule.specs.kept.Fields.{trials_inside};

    ghost view = { trials_inside };
}

impl Trials {
    /// Returns an empty list.
    pub fn new(alloc: Global) -> Trials
        ensures { result ≡ [] }
    {
        Trials {
            trials: Vec::new(alloc),
        }
    }

    /// Adds one at the end.
    pub fn push(&mut self, trial: Trial) -> Result<(), AllocError>
        ensures ok { OnOk result (self.new ≡ self.old ++ trial ∷ []) }
        ensures err { OnErr result (self.new ≡ self.old) }
    {
        self.trials.push(trial)?;
        Ok(())
    }

    /// Adds the turns of the next iteration of the last trial, if there is one.
    pub(crate) fn push_turns(&mut self, turns: Turns) -> Result<(), AllocError>
        ensures ok { OnOk result (self.new ≡ with_iteration self.old turns) }
        ensures err { OnErr result (self.new ≡ self.old) }
    {
        let Some(trial) = self.trials.last_mut() else {
            return Ok(());
        };
        trial.push(turns)?;
        Ok(())
    }

    pub fn is_empty(&self) -> bool
        ensures { result ≡ (length self.now == 0) }
    {
        self.trials.is_empty()
    }

    /// Returns them as a slice.
    pub fn as_slice(&self) -> &[Trial]
        ensures { result.now ≡ self.now }
    {
        &self.trials
    }
}
