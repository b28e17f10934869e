//! The turns of an iteration that were made so far, and which turns may follow.

ghost use Rattle.std.specs.Prelude.{◌≡◌, ◌≢◌, ◌↔◌, ◌<◌, ◌≤◌, IfOk, IfSome, IsNone, MatchOption, MatchResult, OnOk, Some, length};
ghost use Rattle.std.specs.List.{All, list_all};
ghost use Rattle.gates.specs.declared.schedule.ScheduledTurn.{ScheduledTurn};
ghost use Rattle.run_schedule.specs.Schedules.{IsIteration};
ghost use Rattle.run_schedule.specs.kept.Made.{MayFollow, none_made, with_turn};
ghost use Rattle.run_schedule.specs.kept.Taking.{IsReadable};

use crate::fault::FaultKind;
use crate::trial::Turns;
use gates::ScheduledTurn;
use std::alloc::{AllocError, Global};
use std::marker::Model;

fn are_all(marks: &[bool]) -> bool
    ensures { result ≡ list_all (λ mark. mark) marks.now }
{
    marks.iter().all(|mark| *mark)
}

/// The turns of an iteration up to now, with the numbers of nets and workers.
#[derive(Drop)]
pub(crate) struct MadeTurns {
    turns: Turns,
    /// Whether each net has had its turn.
    had: Vec<bool>,
    /// The number of turns that each worker had seen at its last turn.
    last: Vec<u64>,
}

impl Model for MadeTurns {
    ghost use Rattle.run_schedule.specs.kept.Made.{AreKept, TurnsMade};
    ghost use Rattle.std.specs.Prelude.{length};

    ghost Value = { TurnsMade };

    ghost view = { λ m. record {
      nets = length m.had.items;
      workers = length m.last.items;
      turns = m.turns;
    } };

    ghost invariant = { λ m. AreKept m.had.items m.last.items m.turns };
}

impl MadeTurns {
    /// Returns an iteration without turns.
    pub(crate) fn new(alloc: Global, nets: u32, workers: u32) -> Result<MadeTurns, AllocError>
        ensures { IfOk result (λ m. m ≡ none_made nets workers) }
    {
        let had = vec![in alloc; false; nets as usize]?;
        let last = vec![in alloc; 0; workers as usize]?;
        Ok(MadeTurns {
            turns: Turns::new(alloc),
            had,
            last,
        })
    }

    /// Returns what is wrong with the net of the next turn.
    fn net_fault(&self, net: u32) -> Option<FaultKind>
        ensures { IsNone result
            ↔ ((net < self.now.nets) × All (λ s. s.net ≢ net) self.now.turns) }
    {
        match self.had.get(net as usize) {
            Some(false) => None,
            Some(true) => Some(FaultKind::TurnedTwice),
            None => Some(FaultKind::UnknownNet),
        }
    }

    /// Returns what is wrong with the worker of the next turn, and with what it has seen.
    fn worker_fault(&self, worker: u32, seen: u64) -> Option<FaultKind>
        ensures { IsNone result ↔ ((worker < self.now.workers)
            × (seen ≤ length self.now.turns)
            × All (λ s. s.worker ≡ worker → s.seen ≤ seen) self.now.turns) }
    {
        let Some(last) = self.last.get(worker as usize) else {
            return Some(FaultKind::UnknownWorker);
        };
        if seen < *last || self.turns.len() < seen {
            return Some(FaultKind::BadSeen);
        }
        None
    }

    /// Returns what is wrong with the next turn.
    fn fault_of(&self, turn: ScheduledTurn) -> Option<FaultKind>
        ensures { IsNone result ↔ MayFollow self.now turn }
    {
        match self.net_fault(turn.net) {
            None => self.worker_fault(turn.worker, turn.seen),
            fault => fault,
        }
    }

    /// Returns the next turn if the line is one that may follow.
    pub(crate) fn accepted(&self, told: Option<ScheduledTurn>) -> Result<ScheduledTurn, FaultKind>
        ensures turn { MatchResult result
            (λ turn. (told ≡ Some turn) × MayFollow self.now turn)
            (λ _. IfSome told (λ turn. MayFollow self.now turn → ⊥)) }
        ensures readable { (turn : ScheduledTurn) → MayFollow self.now turn → IsReadable turn }
    {
        let _kept = &self.turns;
        let turn = told.ok_or(FaultKind::BadTurn)?;
        match self.fault_of(turn) {
            None => Ok(turn),
            Some(kind) => Err(kind),
        }
    }

    /// Adds the next turn.
    pub(crate) fn push(&mut self, turn: ScheduledTurn) -> Result<(), AllocError>
        requires { MayFollow self.old turn }
        ensures { OnOk result (self.new ≡ with_turn self.old turn) }
    {
        self.turns.push(turn)?;
        self.had[turn.net as usize] = true;
        self.last[turn.worker as usize] = turn.seen;
        Ok(())
    }

    /// Returns all turns of the iteration, if each net has one.
    pub(crate) fn finish(self) -> Result<Turns, FaultKind>
        ensures { MatchResult result
            (λ turns. (turns ≡ self.turns) × IsIteration self.nets self.workers turns)
            (λ _. ¬ IsIteration self.nets self.workers self.turns) }
    {
        let MadeTurns {
            turns,
            had,
            last: _,
        } = self;
        if are_all(&had) {
            Ok(turns)
        } else {
            Err(FaultKind::Unturned)
        }
    }
}
