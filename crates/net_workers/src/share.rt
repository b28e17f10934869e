//! What ties the workers of an iteration to their book, and the part that each has in it.

ghost use Rattle.std.specs.Prelude.{◌≡◌, ◌+◌, ◌≤◌, ◌<◌, ℕ, [], length};
ghost use Rattle.congestion_book.specs.Contents.{Content};
ghost use Rattle.net_workers.specs.WorkerParts.{no_book, no_turns, one_more};

use std::marker::{Brand, Model};
use std::sync::ledger;
use std::sync::ledger::Ledger;

/// One iteration: the number of its workers, by how much the boxes of nets are widened, the
/// present-congestion factor, and the book that was handed in. Its ledger counts the turns.
pub trait Round: Ledger {
    ghost workers: { ℕ };

    ghost bb: { ℕ };

    ghost present: { ℕ };

    ghost opening: { Content };
}

impl Round for Brand {
    ghost workers = { 0 };

    ghost bb = { 0 };

    ghost present = { 0 };

    ghost opening = { no_book };
}

/// A worker's part in an iteration: its number, and how many turns it made. Contracts see a record
/// of both.
#[derive(Drop)]
pub struct Share<L: Round> {
    worker: u32,
    turns: usize,
    part: ledger::Share<L>,
}

impl<L: Round> Model for Share<L> {
    ghost use Rattle.std.specs.Prelude.{◌≡◌, ◌<◌};
    ghost use Rattle.net_workers.specs.WorkerParts.{Part};

    ghost Value = { Part };

    ghost view = { λ s. record { worker = s.worker; turns = s.turns } };

    ghost invariant = { λ s. (s.part.parts ≡ 1) × (s.part.amount ≡ s.turns)
        × (s.worker < L.workers) };
}

impl<L: Round> Share<L> {
    /// Returns the share of a worker that made no turn.
    pub(crate) fn new(worker: u32, part: ledger::Share<L>) -> Share<L>
        requires part { (part.parts ≡ 1) × (part.amount ≡ 0) }
        requires known { worker < L.workers }
        ensures { result ≡ no_turns worker }
    {
        Share {
            worker,
            turns: 0,
            part,
        }
    }

    /// Returns the worker's number.
    pub fn worker(&self) -> u32
        ensures exact { result ≡ self.now.worker }
        ensures known { self.now.worker < L.workers }
    {
        self.worker
    }

    /// Returns the number of turns that it made.
    pub fn turns(&self) -> usize
        ensures { result ≡ self.now.turns }
    {
        self.turns
    }

    /// Counts a turn. `all` is the number of turns that all workers have made, with this one.
    pub(crate) fn count_turn(&mut self, total: &mut ledger::Book<L>, all: usize)
        requires { total.old.total + 1 ≡ all }
        ensures share { self.new ≡ one_more self.old }
        ensures total { total.new.total ≡ total.old.total + 1 }
    {
        let Share { turns, part, .. } = self;
        total.audit(part);
        prove!(*turns < all);
        total.add(part, 1);
        *turns += 1;
    }

    /// Adds its part to another one.
    pub(crate) fn merge_into(self, rest: &mut ledger::Share<L>)
        ensures parts { rest.new.parts ≡ rest.old.parts + 1 }
        ensures amount { rest.new.amount ≡ rest.old.amount + self.turns }
    {
        let Share { part, .. } = self;
        rest.merge(part);
    }
}
