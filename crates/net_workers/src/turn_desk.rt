//! What the lock of an iteration protects: the desk, and the history of the turns.

ghost use Rattle.std.specs.Prelude.{◌≡◌, ◌+◌, ◌<◌, ◌++◌, ◌∷◌, [], length, map, All, IsTrue};
ghost use Rattle.congestion_book.specs.Contents.{IsSound};
ghost use Rattle.net_workers.specs.WorkerParts.{IsOfIteration, one_more};
ghost use Rattle.net_workers.specs.kept.TurnLogs.{plan_of, lists_after, turn_in_book, IsLegal};
ghost use Rattle.net_workers.specs.kept.Pages.{IsSearched};

use crate::board::Board;
use crate::desk::Desk;
use crate::history::{Front, Logged};
use crate::made_turn::MadeTurn;
use crate::page::Page;
use crate::replica::{FoundTree, MOST_TURNS};
use crate::report::ReportEntry;
use crate::share::Share;
use congestion_book::Book;
use route_tree::Tree;
use std::marker::Model;

/// The desk of an iteration, and the history of its turns. Contracts see the turns.
#[derive(Drop)]
pub(crate) struct TurnDesk<L: Logged> {
    desk: Desk<L>,
    front: Front<L>,
}

impl<L: Logged> Model for TurnDesk<L> {
    ghost use Rattle.std.specs.Prelude.{List};
    ghost use Rattle.net_workers.specs.declared.made_turn.MadeTurn.{MadeTurn};
    ghost use Rattle.net_workers.specs.kept.TurnLogs.{plan_of};
    ghost use Rattle.net_workers.specs.kept.Pages.{IsLogged};

    ghost Value = { List MadeTurn };

    ghost view = { λ d. d.front };

    ghost invariant = { λ d.
        IsLogged L.plan (plan_of L.opening L.present L.bb L.workers) d.desk d.front };
}

/// Returns the turn of a worker with what it found.
fn turn_of<L: Logged>(worker: u32, found: FoundTree<L>) -> MadeTurn
    ensures worker { result.worker ≡ worker }
    ensures net { result.entry.net ≡ found.net }
    ensures tree { result.entry.tree ≡ found.tree }
    ensures seen { result.entry.seen ≡ length found.log }
    ensures found { IsSearched L.plan found.net found.tree found.log }
{
    let net = found.net();
    let seen = found.seen().len();
    let tree = found.into_tree();
    MadeTurn {
        worker,
        entry: ReportEntry { net, seen, tree },
    }
}

impl<L: Logged> TurnDesk<L> {
    /// Returns a desk at which no turn was made.
    pub(crate) fn new(desk: Desk<L>, front: Front<L>) -> TurnDesk<L>
        requires plan { L.plan ≡ plan_of L.opening L.present L.bb L.workers }
        requires none { front ≡ [] }
        requires opens { desk ≡ L.opening }
        requires no_turns { desk.turns ≡ [] }
        ensures { result ≡ [] }
    {
        TurnDesk { desk, front }
    }

    /// Returns the number of turns that were made.
    pub(crate) fn len(&self) -> u64
        ensures { result ≡ length self.now }
    {
        self.front.len()
    }

    /// Gives the share's worker the least net that was not drawn. Returns it with the number of
    /// turns that were made by now.
    pub(crate) fn draw(&mut self, share: &mut Share<L>) -> Option<(u32, u64)>
        ensures turns { self.new ≡ self.old }
        ensures share { share.new ≡ share.old }
    {
        let net = self.desk.draw_net(share)?;
        Some((net, self.front.len()))
    }

    /// Makes the turn of the share's worker with what it found, and writes it into its cell. `tree`
    /// is a copy of the tree that was found, and becomes the one that the net had before. Returns
    /// whether it did. It doesn't if the worker doesn't hold the net, or the cell is full.
    pub(crate) fn make_turn(
        &mut self,
        board: &Board<'_, L>,
        share: &mut Share<L>,
        found: FoundTree<L>,
        tree: &mut Option<Tree>,
    ) -> bool
        requires copy { tree.old ≡ found.tree }
    {
        let net = found.net();
        if !self.desk.holds(share, net) {
            return false;
        }
        if self.front.len() >= MOST_TURNS {
            return false;
        }
        if !found.seen().begins(&self.front) {
            return false;
        }
        let turn = turn_of(share.worker(), found);
        let mut front = self.front.again();
        if !front.add(board.head(), &turn) {
            return false;
        }
        if self.desk.exchange(share, net, tree).is_err() {
            return false;
        }
        let number = self.front.len();
        let page = Page::new(turn, &self.front, front.again());
        self.front = front;
        board.write(number, page)
    }

    /// Returns the book and the history.
    pub(crate) fn into_parts(self) -> (Book, Front<L>)
        ensures history { result.1 ≡ self }
        ensures plan { L.plan ≡ plan_of L.opening L.present L.bb L.workers }
        ensures legal { IsLegal L.plan self }
        ensures lists { result.0.lists ≡ lists_after L.opening.lists self }
        ensures turns { result.0.turns ≡ map turn_in_book self }
        ensures sound { IsSound result.0 }
        ensures within { IsOfIteration L.opening result.0 }
        ensures known { All (λ t. t.worker < L.workers) result.0.turns }
    {
        let TurnDesk { desk, front } = self;
        let _legal = front.len();
        (desk.end(), front)
    }
}
