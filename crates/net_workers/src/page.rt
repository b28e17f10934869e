//! What a cell holds of a turn, for the workers that read it without a lock.

ghost use Rattle.std.specs.Prelude.{◌↔◌, ◌≡◌, ◌+◌, ◌++◌, ◌∷◌, [], length, take, IsTrue, IfSome};
ghost use Rattle.net_workers.specs.kept.Pages.{IsNext};

use crate::history::{Front, Logged};
use crate::made_turn::MadeTurn;
use boxcar::slot::{OnceSlot, SlotRule};
use boxcar::tag::Tag;
use std::alloc::{AllocError, Global};
use std::marker::Model;

/// A turn, and the history that ends with it.
#[derive(Drop)]
pub(crate) struct Page<L: Logged> {
    turn: MadeTurn,
    front: Front<L>,
}

impl<L: Logged> Model for Page<L> {
    ghost use Rattle.net_workers.specs.kept.Pages.{Written, IsPage};

    ghost Value = { Written };

    ghost view = { λ p. record { turn = p.turn; log = p.front } };

    ghost invariant = { λ p. IsPage p.front p.turn };
}

/// The rule of the cells. It promises nothing of a page but what the page's type guarantees.
pub(crate) struct Free;

impl<L: Logged> SlotRule<Page<L>> for Free {
    ghost holds = { λ tag page. Unit {0} };
}

/// A cell, written once and then read by any thread.
pub(crate) type Cell<L> = OnceSlot<Page<L>, Free>;

/// Returns a row of empty cells, one for the turn of each net.
pub(crate) fn open_row<L: Logged>(alloc: Global, nets: u32) -> Result<Vec<Cell<L>>, AllocError> {
    let mut row = Vec::with_capacity(alloc, nets as usize)?;
    for _ in 0..nets {
        row.push(OnceSlot::new(&Tag::empty()))?;
    }
    Ok(row)
}

impl<L: Logged> Page<L> {
    /// Returns the page of a turn that was added to a history.
    pub(crate) fn new(turn: MadeTurn, before: &Front<L>, front: Front<L>) -> Page<L>
        requires { front ≡ before.now ++ turn ∷ [] }
        ensures { result.log ≡ front }
    {
        let _ = before;
        Page { turn, front }
    }

    /// Returns the turn.
    pub(crate) fn turn(&self) -> &MadeTurn
        ensures { result.now ≡ self.now.turn }
    {
        &self.turn
    }

    /// Returns the history that ends with the turn.
    pub(crate) fn front(&self) -> &Front<L>
        ensures { result.now ≡ self.now.log }
    {
        &self.front
    }

    /// Returns whether its turn is the next one after these.
    pub(crate) fn is_next(&self, front: &Front<L>) -> bool
        ensures next { IsTrue result → IsNext L.plan front.now self.now.turn self.now.log }
        ensures exactly { IsTrue result ↔ (length self.now.log ≡ length front.now + 1) }
    {
        let longer = self.front.len();
        let now = front.len();
        if longer == 0 {
            return false;
        }
        if now != longer - 1 {
            return false;
        }
        front.begins(&self.front)
    }

    /// Returns the turn, if it is the one with this number in the history.
    pub(crate) fn into_turn(self, number: usize, all: &Front<L>) -> Option<MadeTurn>
        ensures { IfSome result (λ t.
            take (number + 1) all.now ≡ take number all.now ++ t ∷ []) }
    {
        let longer = self.front.len();
        if longer == 0 {
            return None;
        }
        if longer - 1 != number as u64 {
            return None;
        }
        if !self.front.begins(all) {
            return None;
        }
        let Page { turn, .. } = self;
        Some(turn)
    }
}
