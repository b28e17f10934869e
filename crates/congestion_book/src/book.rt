//! The congestion book.

ghost use Rattle.std.specs.Prelude.{◌≡◌, ◌==◌, ◌<◌, ◌≤◌, ◌↔◌, if◌then◌else◌, nat_le, length, Some, None, IsOk, IfOk, IfErr, OnOk, OnErr};
ghost use Rattle.route_tree.specs.Faults.{IsRoute};
ghost use Rattle.route_tree.specs.Rows.{pairs_of};
ghost use Rattle.route_tree.specs.TreeLists.{list_of_tree};
ghost use Rattle.route_tree.specs.Usage.{list_in};
ghost use Rattle.node_cost.specs.Options.{most_iterations};
ghost use Rattle.congestion_book.specs.Turns.{holder_in, IsFirstWaiting};
ghost use Rattle.congestion_book.specs.Recorded.{RoutesOrNone};
ghost use Rattle.congestion_book.specs.Contents.{IsSound, opening, net_count};
ghost use Rattle.congestion_book.specs.Steps.{Draws, DrawsNet, MayCommit, Commits, Passes, EndsTurn, Closes, fault_alone, after_turn, after_close};
ghost use Rattle.congestion_book.specs.kept.Closing.{TellsClosing, IsNext};

use crate::faults::{CloseFault, CommitFault, DrawFault, PassFault};
use crate::history::{History, OveruseRow};
use crate::routes::Routes;
use crate::turn::Turn;
use crate::turns::Turns;
use node_cost::{Histories, MOST_ITERATIONS, View};
use route_tree::{Marks, Tree, check_tree};
use routing_problem::Problem;
use std::alloc::{AllocError, Global};
use std::marker::Model;
use std::sync::Arc;

/// The congestion book of a negotiation: the recorded trees of the nets, how many of them use each
/// node, the history of each node, and who holds or had which net. Contracts see the record of its
/// content; that it is sound is a fact of the type.
#[derive(Drop)]
pub struct Book {
    pub(crate) problem: Problem,
    pub(crate) routes: Routes,
    pub(crate) history: History,
    pub(crate) turns: Turns,
    pub(crate) marks: Marks,
}

impl Model for Book {
    ghost use Rattle.congestion_book.specs.Contents.{Content};

    ghost Value = { Content };

    ghost use Rattle.congestion_book.specs.kept.Fields.{content_of, IsBookInside};

    ghost view = { content_of };

    ghost invariant = { IsBookInside };
}

/// What the next iteration needs: the row of the open one, the histories with it, and room for the
/// turns.
#[derive(Drop)]
pub(crate) struct NextIteration {
    row: OveruseRow,
    histories: Arc<Histories, Global>,
    made: Vec<Turn>,
}

impl Book {
    /// A book without trees and rows, with nothing drawn in its first iteration.
    pub fn new(alloc: Global, problem: Problem, acc: u16) -> Result<Book, AllocError>
        ensures { IfOk result (λ b. b ≡ opening problem acc) }
    {
        let nodes = problem.device().node_count();
        let routes = Routes::new(alloc, &problem)?;
        let history = History::new(alloc, nodes as usize, acc)?;
        let turns = Turns::new(alloc, problem.nets())?;
        let marks = Marks::new(alloc, &problem)?;
        Ok(Book {
            problem,
            routes,
            history,
            turns,
            marks,
        })
    }

    /// Gives the worker the least net that was not drawn in the open iteration, with its view. None
    /// if all were drawn. The worker holds the net until it commits or passes it. A view of another
    /// size is refused; it stays as it was if no net is given.
    pub fn draw(&mut self, worker: u32, view: &mut View) -> Result<Option<u32>, DrawFault>
        ensures step { Draws self.old view.old worker result self.new view.new }
        ensures sound { IsSound self.new }
    {
        if view.len() != self.problem.device().node_count() as usize {
            return Err(DrawFault::ViewSize);
        }
        let Some(net) = self.turns.draw(worker) else {
            return Ok(None);
        };
        self.routes.show(view, net, self.history.histories());
        Ok(Some(net))
    }

    /// Gives the worker the least net that was not drawn in the open iteration, as `draw` does,
    /// without its view.
    pub fn draw_net(&mut self, worker: u32) -> Option<u32>
        ensures step { DrawsNet self.old worker result self.new }
        ensures sound { IsSound self.new }
    {
        self.turns.draw(worker)
    }

    /// Records the tree of a net that the worker holds, in place of the one before, and ends the
    /// turn. A tree that doesn't route the net is refused, and so is another worker than the net's
    /// holder: then nothing changes, and the tree comes back.
    pub fn commit(&mut self, worker: u32, net: u32, tree: Tree) -> Result<(), (CommitFault, Tree)>
        ensures exactly { IsOk result ↔ MayCommit self.old worker net (pairs_of tree) }
        ensures step { Commits self.old worker net (pairs_of tree) (fault_alone result) self.new }
        ensures back { IfErr result (λ e. e.1 ≡ tree) }
        ensures sound { IsSound self.new }
    {
        if !self.turns.holds(worker, net) {
            return Err((CommitFault::NotHeld, tree));
        }
        if let Err(fault) = check_tree(&self.problem, net, &tree, &mut self.marks) {
            return Err((CommitFault::Illegal(fault), tree));
        }
        self.end_turn(worker, net, Some(tree));
        Ok(())
    }

    /// Records a tree that is known to route the net, as `commit` does: it isn't looked at again.
    pub fn commit_routed(
        &mut self,
        worker: u32,
        net: u32,
        tree: Tree,
    ) -> Result<(), (CommitFault, Tree)>
        requires routes { IsRoute self.old.problem net (pairs_of tree) }
        ensures exactly { IsOk result ↔ MayCommit self.old worker net (pairs_of tree) }
        ensures step { Commits self.old worker net (pairs_of tree) (fault_alone result) self.new }
        ensures back { IfErr result (λ e. e.1 ≡ tree) }
        ensures sound { IsSound self.new }
    {
        if !self.turns.holds(worker, net) {
            return Err((CommitFault::NotHeld, tree));
        }
        self.end_turn(worker, net, Some(tree));
        Ok(())
    }

    /// Ends the turn at a net that the worker holds; the net has no tree afterwards. Another worker
    /// than the net's holder is refused.
    pub fn pass(&mut self, worker: u32, net: u32) -> Result<(), PassFault>
        ensures step { Passes self.old worker net result self.new }
        ensures sound { IsSound self.new }
    {
        if !self.turns.holds(worker, net) {
            return Err(PassFault::NotHeld);
        }
        self.end_turn(worker, net, None);
        Ok(())
    }

    /// Ends the turn at a net that the worker holds. The net exchanges its recorded tree, or none,
    /// for this one, which is known to route the net, or for none. Another worker than the net's
    /// holder is refused, and nothing changes.
    pub fn exchange_routed(
        &mut self,
        worker: u32,
        net: u32,
        tree: &mut Option<Tree>,
    ) -> Result<(), PassFault>
        requires routes { RoutesOrNone self.old.problem net (list_of_tree tree.old) }
        ensures step { EndsTurn self.old worker net (list_of_tree tree.old) result self.new }
        ensures back { OnOk result (list_of_tree tree.new ≡ list_in self.old.lists net) }
        ensures same { OnErr result (tree.new ≡ tree.old) }
        ensures sound { IsSound self.new }
    {
        if self.turns.holds(worker, net) {
            self.exchange(worker, net, tree);
            Ok(())
        } else {
            Err(PassFault::NotHeld)
        }
    }

    /// Ends the turn at a net that the worker holds. From now on the net has this tree, or none.
    fn end_turn(&mut self, worker: u32, net: u32, tree: Option<Tree>)
        requires held { holder_in self.old.holders net ≡ Some worker }
        requires routes { RoutesOrNone self.old.problem net (list_of_tree tree) }
        ensures ended { self.new ≡ after_turn self.old worker net (list_of_tree tree) }
        ensures sound { IsSound self.new }
    {
        let mut tree = tree;
        self.exchange(worker, net, &mut tree);
    }

    /// Ends the turn at a net that the worker holds. The net exchanges its recorded tree, or none,
    /// for this one, or none.
    fn exchange(&mut self, worker: u32, net: u32, tree: &mut Option<Tree>)
        requires held { holder_in self.old.holders net ≡ Some worker }
        requires routes { RoutesOrNone self.old.problem net (list_of_tree tree.old) }
        ensures ended { self.new ≡ after_turn self.old worker net (list_of_tree tree.old) }
        ensures back { list_of_tree tree.new ≡ list_in self.old.lists net }
        ensures sound { IsSound self.new }
    {
        let passed = tree.is_none();
        self.routes.exchange(&self.problem, net, tree);
        self.turns.end_turn(worker, net, passed);
    }

    /// Closes the open iteration, in which each net had its turn: its row is appended, the
    /// histories grow, and the next iteration opens with nothing drawn. Everything that the next
    /// iteration needs is made first, and if memory is refused nothing changes.
    pub fn close(&mut self, alloc: Global) -> Result<(), CloseFault>
        ensures step { Closes self.old result self.new }
        ensures sound { IsSound self.new }
    {
        if let Some(fault) = self.closing_fault() {
            return Err(fault);
        }
        match self.make_next(alloc) {
            Err(_) => Err(CloseFault::Memory),
            Ok(next) => {
                self.open_next(next);
                Ok(())
            }
        }
    }

    /// Why the open iteration can't be closed yet, or any more.
    fn closing_fault(&self) -> Option<CloseFault>
        ensures told { TellsClosing self.now result }
        ensures sound { IsSound self.now }
    {
        match self.turns.first_waiting() {
            Some(net) => Some(CloseFault::Unfinished(net)),
            None => self.full(),
        }
    }

    /// Full if there are as many rows as there may be.
    fn full(&self) -> Option<CloseFault>
        ensures { result ≡
            (if nat_le most_iterations (length self.now.rows) then Some CloseFault.Full else None) }
    {
        if self.history.rows().len() >= MOST_ITERATIONS as usize {
            Some(CloseFault::Full)
        } else {
            None
        }
    }

    /// What the next iteration needs.
    fn make_next(&self, alloc: Global) -> Result<NextIteration, AllocError>
        requires { length self.now.rows < most_iterations }
        ensures { IfOk result (IsNext self.now) }
    {
        let row = self.routes.row(alloc, &self.problem)?;
        let histories = self.history.with_row(alloc, &row.amounts)?;
        let made = Vec::with_capacity(alloc, self.problem.nets() as usize)?;
        Ok(NextIteration {
            row,
            histories,
            made,
        })
    }

    /// Opens the next iteration.
    fn open_next(&mut self, next: NextIteration)
        requires done { IsFirstWaiting self.old.turns (net_count self.old) None }
        requires few { length self.old.rows < most_iterations }
        requires next { IsNext self.old next }
        ensures closed { self.new ≡ after_close self.old }
        ensures sound { IsSound self.new }
    {
        self.history.append(next.row, next.histories);
        self.turns.open_next(next.made);
    }
}
