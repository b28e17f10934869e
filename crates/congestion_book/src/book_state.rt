//! The queries on a congestion book.

ghost use Rattle.std.specs.Prelude.{◌≡◌, ◌↔◌, ◌+◌, ◌^◌, ◌<◌, ◌≤◌, true, length, get_or, Some, None, MatchOption};
ghost use Rattle.route_tree.specs.Rows.{pairs_of};
ghost use Rattle.route_tree.specs.Faults.{IsRoute};
ghost use Rattle.route_tree.specs.Usage.{use_of, list_in};
ghost use Rattle.node_cost.specs.Options.{most_iterations};
ghost use Rattle.congestion_book.specs.Recorded.{unrouted_in, overused_in, excess_in, wirelength_in};
ghost use Rattle.congestion_book.specs.Histories.{history_of};
ghost use Rattle.congestion_book.specs.Contents.{IsSound, IsFresh, net_count, node_total, turns_of};
ghost use Rattle.congestion_book.specs.Turns.{holder_in};
ghost use Rattle.congestion_book.specs.Looks.{Looks, LooksAtAll, have_filled};

use crate::book::Book;
use crate::faults::DrawFault;
use crate::history::OveruseRow;
use crate::turn::Turn;
use node_cost::View;
use route_tree::Tree;
use routing_problem::Problem;

impl Book {
    /// The problem whose nets are routed.
    pub fn problem(&self) -> &Problem
        ensures exact { result.now ≡ self.now.problem }
        ensures sound { IsSound self.now }
    {
        &self.problem
    }

    /// The recorded tree of a net, which routes it. None if it has none, or if there is no such
    /// net.
    pub fn tree(&self, net: u32) -> Option<&Tree>
        ensures exact { MatchOption result (list_in self.now.lists net ≡ None)
            (λ t. list_in self.now.lists net ≡ Some (pairs_of t.now)) }
        ensures routes { MatchOption result (Unit {0})
            (λ t. IsRoute self.now.problem net (pairs_of t.now)) }
    {
        match self.routes.trees.get(net as usize) {
            None => None,
            Some(tree) => tree.as_ref(),
        }
    }

    /// How many recorded trees use a node.
    pub fn occupancy(&self, id: u32) -> u32
        requires { id < node_total self.now }
        ensures exact { result ≡ use_of self.now.problem.nets self.now.lists id }
        ensures kept { result ≡ get_or self.now.occupancies id 0 }
    {
        self.routes.usage.counts.get(id)
    }

    /// The history of a node: acc times its overuse in all closed iterations. It is below 2^42.
    pub fn history(&self, id: u32) -> u64
        requires { id < node_total self.now }
        ensures exact { result ≡ history_of self.now.acc self.now.rows id }
        ensures kept { result ≡ get_or self.now.histories id 0 }
        ensures small { result < 2 ^ 42 }
    {
        self.history.histories().get(id)
    }

    /// The rows of the closed iterations, the earliest first. Each has the overused nodes,
    /// ascending, and by how many nets each of them is overused.
    pub fn rows(&self) -> &[OveruseRow]
        ensures exact { result.now ≡ self.now.rows }
        ensures few { length self.now.rows ≤ most_iterations }
        ensures sound { IsSound self.now }
    {
        self.history.rows()
    }

    /// The turns of an iteration, counted from 1, in the order in which they were made. The last
    /// iteration is the open one.
    pub fn turns(&self, iteration: usize) -> &[Turn]
        requires first { 1 ≤ iteration }
        requires last { iteration ≤ length self.now.rows + 1 }
        ensures { result.now ≡ turns_of self.now iteration }
    {
        let index = iteration - 1;
        if index == self.history.rows().len() {
            self.turns.made()
        } else {
            self.turns.of_closed(index)
        }
    }

    /// How many nodes more nets use than they have room for.
    pub fn overused(&self) -> u32
        ensures { result ≡ overused_in self.now.problem self.now.lists }
    {
        self.routes.usage.overused
    }

    /// How many nets have no recorded tree.
    pub fn unrouted(&self) -> u32
        ensures { result ≡ unrouted_in self.now.lists }
    {
        self.routes.unrouted
    }

    /// The overuse of all nodes together: by how many nets more than they have room for they are
    /// used. It looks at every node.
    pub fn excess(&self) -> u64
        ensures { result ≡ excess_in self.now.problem self.now.lists }
    {
        self.routes.usage.total_excess(self.problem.device())
    }

    /// The wirelength of all nets together: the places of all wires that each covers, each wire
    /// once; 0 for a net without a recorded tree. It looks at every row of every tree.
    pub fn wirelength(&self) -> u64
        ensures { result ≡ wirelength_in self.now.problem self.now.lists }
    {
        self.routes.wirelength(&self.problem)
    }

    /// Fills the view of a net as a draw does, by the trees as they are now. A view of another size
    /// is refused, and stays as it was.
    pub fn look(&self, net: u32, view: &mut View) -> Result<(), DrawFault>
        requires { net < net_count self.now }
        ensures { Looks self.now view.old net result view.new }
    {
        if view.len() != self.problem.device().node_count() as usize {
            return Err(DrawFault::ViewSize);
        }
        let histories = self.history.histories();
        self.routes.show(view, net, histories);
        Ok(())
    }

    /// Fills a view with what all nets use, by the trees as they are now, and with the histories. A
    /// view of another size is refused, and stays as it was.
    pub fn look_at_all(&self, view: &mut View) -> Result<(), DrawFault>
        ensures { LooksAtAll self.now view.old result view.new }
    {
        let nodes = self.problem.device().node_count() as usize;
        if view.len() != nodes {
            return Err(DrawFault::ViewSize);
        }
        self.routes.show_all(view, self.history.histories());
        Ok(())
    }

    /// Whether the worker holds the net.
    pub fn holds(&self, worker: u32, net: u32) -> bool
        ensures { (result ≡ true) ↔ (holder_in self.now.holders net ≡ Some worker) }
    {
        self.turns.holds(worker, net)
    }

    /// Whether a node of a tree is full now by the nets but this one, and was not by those in the
    /// view.
    pub fn has_filled(&self, net: u32, tree: &Tree, view: &View) -> bool
        requires net { net < net_count self.now }
        requires size { length view.now ≡ node_total self.now }
        ensures { result ≡ have_filled self.now net view.now tree.now }
    {
        let rows = tree.as_slice();
        self.routes.has_filled(&self.problem, net, rows, view)
    }

    /// Whether nothing was drawn in the open iteration.
    pub fn fresh(&self) -> bool
        ensures { (result ≡ true) ↔ IsFresh self.now }
    {
        self.turns.is_fresh()
    }
}
