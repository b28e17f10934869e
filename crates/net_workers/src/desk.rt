//! What the lock of an iteration protects: the book, and the total of the turns that the workers
//! made.

ghost use Rattle.std.specs.Prelude.{◌≡◌, ◌+◌, ◌<◌, ◌↔◌, true, if◌then◌else◌, [], length, vec_len, sum_by, All, Some, IfOk, IfErr, IsOk, OnOk, OnErr};
ghost use Rattle.route_tree.specs.Rows.{pairs_of};
ghost use Rattle.route_tree.specs.Faults.{IsRoute};
ghost use Rattle.congestion_book.specs.Turns.{holder_in, turns_at};
ghost use Rattle.congestion_book.specs.Totals.{ShowsAll};
ghost use Rattle.route_tree.specs.TreeLists.{list_of_tree};
ghost use Rattle.congestion_book.specs.Contents.{IsSound, IsFresh, view_of};
ghost use Rattle.congestion_book.specs.Steps.{Draws, DrawsNet, Commits, Passes, EndsTurn, fault_alone};
ghost use Rattle.net_workers.specs.WorkerParts.{AreParts, IsOfIteration, one_more};
ghost use Rattle.net_workers.specs.Searches.{IsSeenIn, ShowsNet};
ghost use Rattle.net_workers.specs.kept.Routes.{RoutesNet};
ghost use Rattle.net_workers.specs.Looks.{looks_again, CommitsOrLooks, part_with, ShowsAgain};

use crate::share::{Round, Share};
use crate::turn_or_look::TurnOrLook;
use congestion_book::{Book, CommitFault, DrawFault, PassFault, Turn};
use node_cost::View;
use route_tree::Tree;
use std::alloc::{AllocError, Global};
use std::marker::Model;
use std::sync::ledger;
use std::sync::ledger::Blank;

/// The book of an iteration, with the total of its shares. Contracts see the book's content. The
/// type guarantees that each open turn is one of a worker of the round, that the total is the
/// number of open turns, and that the book is one of the iteration that opens with the book handed
/// in. Through the type of the book it also guarantees the congestion invariant.
#[derive(Drop)]
pub struct Desk<L: Round> {
    book: Book,
    total: ledger::Book<L>,
    rest: ledger::Share<L>,
}

impl<L: Round> Model for Desk<L> {
    ghost use Rattle.std.specs.Prelude.{◌≡◌};
    ghost use Rattle.congestion_book.specs.Contents.{Content};
    ghost use Rattle.net_workers.specs.kept.Evenness.{IsEven};

    ghost Value = { Content };

    ghost view = { λ d. d.book };

    ghost invariant = { λ d. IsEven d.book d.total.total L.workers L.opening
        × (d.rest.parts ≡ 0) × (d.rest.amount ≡ 0) };
}

/// Returns the turns of the open iteration.
pub(crate) fn open_turns(book: &Book) -> &[Turn]
    ensures { result.now ≡ book.now.turns }
{
    book.turns(book.rows().len() + 1)
}

impl<L: Round> Desk<L> {
    /// Returns the desk of a book with nothing drawn in its open iteration, and a share for each
    /// worker.
    pub fn new(
        alloc: Global,
        book: Book,
        workers: u32,
        blank: Blank,
    ) -> Result<(Desk<L>, Vec<Share<L>>), AllocError>
        requires fresh { IsFresh book }
        requires workers { workers ≡ L.workers }
        requires book { book ≡ L.opening }
        requires name { blank.name ≡ L.name }
        requires parts { blank.parts ≡ L.parts }
        requires one_each { blank.parts ≡ workers }
        ensures book { IfOk result (λ r. r.0 ≡ book) }
        ensures shares { IfOk result (λ r. AreParts r.1.items workers) }
        ensures count { IfOk result (λ r. vec_len r.1 ≡ workers) }
    {
        let _sound = book.problem();
        let (total, mut rest) = blank.open::<L>();
        let mut shares = Vec::with_capacity(alloc, workers as usize)?;
        for worker in 0..workers {
            let part = rest.split_off(1, 0);
            shares.push_reserved(Share::new(worker, part));
        }
        Ok((Desk { book, total, rest }, shares))
    }

    /// Returns the book.
    pub fn book(&self) -> &Book
        ensures exact { result.now ≡ self.now }
        ensures sound { IsSound self.now }
        ensures within { IsOfIteration L.opening self.now }
        ensures known { All (λ t. t.worker < L.workers) self.now.turns }
    {
        let _sound = self.book.problem();
        &self.book
    }

    /// Returns the book, with the turns that were made.
    pub fn end(self) -> Book
        ensures exact { result ≡ self }
        ensures sound { IsSound result }
        ensures within { IsOfIteration L.opening result }
        ensures known { All (λ t. t.worker < L.workers) result.turns }
    {
        let Desk { book, .. } = self;
        let _sound = book.problem();
        book
    }

    /// Gives the share's worker the least net that was not drawn, and its view.
    pub fn draw(&mut self, share: &mut Share<L>, view: &mut View) -> Result<Option<u32>, DrawFault>
        ensures step { Draws self.old view.old share.old.worker result self.new view.new }
        ensures share { share.new ≡ share.old }
        ensures shown { ShowsNet L.opening result view.new }
    {
        let _sound = self.book.problem();
        self.book.draw(share.worker(), view)
    }

    /// Records the tree of a net that the share's worker holds, as a turn of that worker.
    pub fn commit(
        &mut self,
        share: &mut Share<L>,
        net: u32,
        tree: Tree,
    ) -> Result<(), (CommitFault, Tree)>
        ensures exactly { IsOk result ↔ (holder_in self.old.holders net ≡ Some share.old.worker)
            × IsRoute self.old.problem net (pairs_of tree) }
        ensures step { Commits self.old share.old.worker net (pairs_of tree)
            (fault_alone result) self.new }
        ensures back { IfErr result (λ e. e.1 ≡ tree) }
        ensures counted { OnOk result (share.new ≡ one_more share.old) }
        ensures uncounted { OnErr result (share.new ≡ share.old) }
    {
        let worker = share.worker();
        let Desk { book, total, .. } = self;
        match book.commit(worker, net, tree) {
            Ok(()) => {
                share.count_turn(total, open_turns(book).len());
                Ok(())
            }
            Err(refused) => Err(refused),
        }
    }

    /// Commits the tree of a net, which was found with this view, or looks again. If the other nets
    /// now fill a node of the tree that they don't fill in the view, the view becomes that of the
    /// net as the book is now, and the tree is dropped. Otherwise the tree is committed as by
    /// `commit`.
    pub fn commit_or_look(
        &mut self,
        share: &mut Share<L>,
        net: u32,
        tree: Tree,
        view: &mut View,
    ) -> Result<TurnOrLook, (CommitFault, Tree)>
        ensures step { CommitsOrLooks self.old view.old share.old.worker net tree
            (fault_alone result) self.new view.new }
        ensures back { IfErr result (λ e. e.1 ≡ tree) }
        ensures share { share.new ≡ part_with result share.old }
        ensures shown { ShowsAgain L.opening net result view.new }
    {
        if self.look_again(net, &tree, view) {
            return Ok(TurnOrLook::Look);
        }
        match self.commit(share, net, tree) {
            Ok(()) => Ok(TurnOrLook::Turn),
            Err(back) => Err(back),
        }
    }

    /// Fills the view of a net anew if the others have filled a node of its tree. Returns whether
    /// it did.
    fn look_again(&self, net: u32, tree: &Tree, view: &mut View) -> bool
        ensures exact { result ≡ looks_again self.now net view.old tree.now }
        ensures view { view.new ≡
            (if looks_again self.now net view.old tree.now
            then view_of self.now net else view.old) }
        ensures shown { result ≡ true → IsSeenIn L.opening net view.new }
    {
        let problem = self.book.problem();
        if net >= problem.nets() || view.len() != problem.device().node_count() as usize {
            return false;
        }
        self.book.has_filled(net, tree, view) && self.book.look(net, view).is_ok()
    }

    /// Passes a net that the share's worker holds, as a turn of that worker.
    pub fn pass(&mut self, share: &mut Share<L>, net: u32) -> Result<(), PassFault>
        ensures step { Passes self.old share.old.worker net result self.new }
        ensures counted { OnOk result (share.new ≡ one_more share.old) }
        ensures uncounted { OnErr result (share.new ≡ share.old) }
    {
        let worker = share.worker();
        let Desk { book, total, .. } = self;
        match book.pass(worker, net) {
            Ok(()) => {
                share.count_turn(total, open_turns(book).len());
                Ok(())
            }
            Err(fault) => Err(fault),
        }
    }

    /// Gives the share's worker the least net that was not drawn, without its view.
    pub(crate) fn draw_net(&mut self, share: &mut Share<L>) -> Option<u32>
        ensures step { DrawsNet self.old share.old.worker result self.new }
        ensures share { share.new ≡ share.old }
    {
        let _sound = self.book.problem();
        self.book.draw_net(share.worker())
    }

    /// Returns whether the share's worker holds a net. If so, the net had no turn.
    pub(crate) fn holds(&self, share: &Share<L>, net: u32) -> bool
        ensures { result ≡ true → turns_at self.now.turns net ≡ 0 }
    {
        let _sound = self.book.problem();
        self.book.holds(share.worker(), net)
    }

    /// Fills a view with what all nets use.
    pub(crate) fn look_at_all(&self, view: &mut View) -> Result<(), DrawFault>
        ensures { OnOk result (ShowsAll self.now view.new) }
    {
        self.book.look_at_all(view)
    }

    /// Ends the turn of the share's worker for a net that it holds, with a tree that is known to
    /// route the net, or with none. `tree` becomes the one that the net had before.
    pub(crate) fn exchange(
        &mut self,
        share: &mut Share<L>,
        net: u32,
        tree: &mut Option<Tree>,
    ) -> Result<(), PassFault>
        requires routes { RoutesNet L.opening.problem net tree.old }
        ensures step { EndsTurn self.old share.old.worker net (list_of_tree tree.old)
            result self.new }
        ensures counted { OnOk result (share.new ≡ one_more share.old) }
        ensures uncounted { OnErr result (share.new ≡ share.old) }
    {
        let worker = share.worker();
        let Desk { book, total, .. } = self;
        match book.exchange_routed(worker, net, tree) {
            Ok(()) => {
                share.count_turn(total, open_turns(book).len());
                Ok(())
            }
            Err(fault) => Err(fault),
        }
    }

    /// Returns the book, whose open turns are as many as all shares together have counted.
    pub fn gather(self, shares: Vec<Share<L>>) -> Book
        requires { vec_len shares ≡ L.parts }
        ensures exact { result ≡ self }
        ensures sound { IsSound result }
        ensures turns { sum_by (λ s. s.turns) shares.items ≡ length result.turns }
        ensures known { All (λ t. t.worker < L.workers) result.turns }
        ensures within { IsOfIteration L.opening result }
    {
        let Desk {
            book,
            mut total,
            mut rest,
        } = self;
        for share in shares {
            share.merge_into(&mut rest);
        }
        total.audit(&mut rest);
        let _sound = book.problem();
        book
    }
}
