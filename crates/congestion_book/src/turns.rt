//! Who holds which net, and who had its turn at it.

ghost use Rattle.std.specs.Prelude.{◌≡◌, ◌<◌, ◌≤◌, ◌↔◌, ◌==◌, [], length, get_or, replicate, Some, None, is_some, true, IfOk, vec_capacity};
ghost use Rattle.node_cost.specs.Options.{most_iterations};
ghost use Rattle.congestion_book.specs.Turns.{TurnTable, AreInOrder, holder_in, IsFirstWaiting};
ghost use Rattle.congestion_book.specs.kept.TurnTables.{first_table, table_turned, table_closed, GivesNet};

use crate::turn::Turn;
use node_cost::MOST_ITERATIONS;
use std::alloc::{AllocError, Global};
use std::marker::Model;
use std::mem;

/// The turns of one iteration. Contracts see the list.
#[derive(Debug, Drop)]
pub(crate) struct TurnList {
    pub(crate) turns: Vec<Turn>,
}

impl Model for TurnList {
    ghost use Rattle.std.specs.Prelude.{List};
    ghost use Rattle.congestion_book.specs.declared.turn.Turn.{Turn};

    ghost Value = { List Turn };

    ghost view = { λ t. t.turns.items };
}

/// Which nets were drawn in the open iteration, which worker holds each, and the turns made, in
/// this iteration and in those before.
#[derive(Drop)]
pub(crate) struct Turns {
    drawn: u32,
    holders: Vec<Option<u32>>,
    made: Vec<Turn>,
    earlier: Vec<TurnList>,
}

impl Model for Turns {
    ghost use Rattle.congestion_book.specs.Turns.{TurnTable};

    ghost Value = { TurnTable };

    ghost use Rattle.congestion_book.specs.kept.Fields.{table_of, AreTurns};

    ghost view = { table_of };

    ghost invariant = { AreTurns };
}

/// No worker holds a net any more.
fn free_all(holders: &mut Vec<Option<u32>>)
    ensures { holders.new.items ≡ replicate (length holders.old.items) None }
{
    holders.fill(None);
}

impl Turns {
    /// No turns at this many nets.
    pub(crate) fn new(alloc: Global, nets: u32) -> Result<Turns, AllocError>
        requires { nets ≤ 65535 }
        ensures { IfOk result (λ t. t ≡ first_table nets) }
    {
        let holders = vec![in alloc; None; nets as usize]?;
        let made = Vec::with_capacity(alloc, nets as usize)?;
        let earlier = Vec::with_capacity(alloc, MOST_ITERATIONS as usize)?;
        Ok(Turns {
            drawn: 0,
            holders,
            made,
            earlier,
        })
    }

    /// Gives the worker the least net that was not drawn. The worker holds it from now on.
    pub(crate) fn draw(&mut self, worker: u32) -> Option<u32>
        ensures { GivesNet self.old worker result self.new }
    {
        let net = self.drawn;
        if net as usize == self.holders.len() {
            return None;
        }
        self.holders[net as usize] = Some(worker);
        self.drawn = net + 1;
        Some(net)
    }

    /// Whether the worker holds the net.
    pub(crate) fn holds(&self, worker: u32, net: u32) -> bool
        ensures { (result ≡ true) ↔ (holder_in self.now.holders net ≡ Some worker) }
    {
        self.holders.get(net as usize) == Some(&Some(worker))
    }

    /// Ends the worker's turn at a net that it holds.
    pub(crate) fn end_turn(&mut self, worker: u32, net: u32, passed: bool)
        requires { holder_in self.old.holders net ≡ Some worker }
        ensures { self.new ≡ table_turned self.old worker net passed }
    {
        self.holders[net as usize] = None;
        self.made.push_reserved(Turn {
            worker,
            net,
            passed,
        });
    }

    /// Whether a worker holds the net.
    fn is_held(&self, net: u32) -> bool
        ensures { result ≡ is_some (holder_in self.now.holders net) }
    {
        matches!(self.holders.get(net as usize), Some(Some(_)))
    }

    /// The least net without a turn.
    pub(crate) fn first_waiting(&self) -> Option<u32>
        ensures { IsFirstWaiting self.now.turns (length self.now.holders) result }
    {
        for net in 0..self.drawn {
            if self.is_held(net) {
                return Some(net);
            }
        }
        if (self.drawn as usize) < self.holders.len() {
            return Some(self.drawn);
        }
        None
    }

    /// Opens the next iteration. Each net had its turn in this one.
    pub(crate) fn open_next(&mut self, made: Vec<Turn>)
        requires done { IsFirstWaiting self.old.turns (length self.old.holders) None }
        requires few { length self.old.earlier < most_iterations }
        requires none { made.items ≡ [] }
        requires room { length self.old.holders ≤ vec_capacity made }
        ensures { self.new ≡ table_closed self.old }
    {
        let turns = mem::replace(&mut self.made, made);
        self.earlier.push_reserved(TurnList { turns });
        free_all(&mut self.holders);
        self.drawn = 0;
    }

    /// Whether nothing was drawn in the open iteration.
    pub(crate) fn is_fresh(&self) -> bool
        ensures { (result ≡ true) ↔ (self.now.drawn ≡ 0) }
    {
        self.drawn == 0
    }

    /// The turns of the open iteration, in the order in which they were made.
    pub(crate) fn made(&self) -> &[Turn]
        ensures { result.now ≡ self.now.turns }
    {
        &self.made
    }

    /// The turns of a closed iteration, counted from 0.
    pub(crate) fn of_closed(&self, index: usize) -> &[Turn]
        requires { index < length self.now.earlier }
        ensures { result.now ≡ get_or self.now.earlier index [] }
    {
        &self.earlier[index].turns
    }
}
