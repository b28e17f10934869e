//! What the workers of an iteration share without a lock.

ghost use Rattle.std.specs.Prelude.{◌↔◌, ◌≡◌, ◌<◌, ◌≤◌, length, Err, IfOk};
ghost use Rattle.routing_problem.specs.Nodes.{node_count_of};
ghost use Rattle.route_tree.specs.TreeLists.{list_of_tree, lists_of_trees};
ghost use Rattle.route_tree.specs.Usage.{list_in};
ghost use Rattle.congestion_book.specs.Contents.{net_count, node_total};
ghost use Rattle.net_workers.specs.kept.Looks.{greatest_looks};
ghost use Rattle.wavefront.specs.Growth.{IsAnswer, RoutesIfFound, space_of};
ghost use Rattle.wavefront.specs.declared.search_outcome.SearchFault.TheVariants.{ViewSize};

use crate::history::{Head, Logged};
use crate::page::{Cell, Page, open_row};
use crate::portion::Portions;
use crate::search::SearchOptions;
use group_wave::{OldTree, Scratch, route_net};
use node_cost::View;
use route_tree::Tree;
use std::alloc::{AllocError, Global};
use std::marker::Model;
use wave_ground::PreparedProblem;
use wavefront::{Found, SearchFault};

/// The board of an iteration: the problem and the options, the trees with which it opens, how many
/// nets are drawn at once, the head of its history, and a cell for each turn. Contracts see only
/// what its type guarantees.
#[derive(Drop)]
pub(crate) struct Board<'a, L: Logged> {
    prepared: &'a PreparedProblem,
    options: SearchOptions,
    opening: Vec<Option<Tree>>,
    portions: Portions,
    head: Head<L>,
    row: Vec<Cell<L>>,
}

/// Returns how many nets are drawn at once: several from the second iteration on, if several
/// workers draw them, and otherwise one.
fn portions_of(
    alloc: Global,
    options: &SearchOptions,
    opening: &[Option<Tree>],
) -> Result<Portions, AllocError> {
    if options.looks == 0 {
        return Ok(Portions::single(alloc));
    }
    Portions::new(alloc, opening, options.workers)
}

impl<'a, L: Logged> Model for Board<'a, L> {
    ghost use Rattle.net_workers.specs.kept.Pages.{IsBoard};

    ghost Value = { Unit {0} };

    ghost view = { λ b. tt };

    ghost invariant = { λ b.
        IsBoard L.plan b.prepared.now b.options.present b.options.bb b.options.workers
        b.opening.items };
}

impl<'a, L: Logged> Board<'a, L> {
    /// Returns the board of an iteration that opens with these trees.
    pub(crate) fn new(
        alloc: Global,
        prepared: &'a PreparedProblem,
        options: SearchOptions,
        opening: Vec<Option<Tree>>,
        head: Head<L>,
    ) -> Result<Board<'a, L>, AllocError>
        requires problem { prepared.now ≡ L.plan.opening.problem }
        requires options { (options.present ≡ L.plan.present) × (options.bb ≡ L.plan.bb)
            × (options.workers ≡ L.plan.workers) }
        requires opening { lists_of_trees opening.items ≡ L.plan.opening.lists }
    {
        let row = open_row(alloc, prepared.problem().nets())?;
        let portions = portions_of(alloc, &options, &opening)?;
        Ok(Board {
            prepared,
            options,
            opening,
            portions,
            head,
            row,
        })
    }

    /// Returns the head of the history.
    pub(crate) fn head(&self) -> &Head<L> {
        &self.head
    }

    /// Returns how many nets are drawn at once.
    pub(crate) fn portions(&self) -> &Portions {
        &self.portions
    }

    /// Returns the number of the iteration, counted from 1.
    pub(crate) fn iteration(&self) -> u32 {
        self.options.iteration
    }

    /// Returns the number of workers.
    pub(crate) fn workers(&self) -> u32
        ensures { result ≡ L.plan.workers }
    {
        self.options.workers
    }

    /// Returns how many times a worker may look again at a net that it holds.
    pub(crate) fn looks(&self) -> u32
        ensures { result ≤ greatest_looks }
    {
        self.options.looks
    }

    /// Returns the problem, prepared for searches.
    pub(crate) fn prepared(&self) -> &PreparedProblem
        ensures { result.now ≡ L.plan.opening.problem }
    {
        self.prepared
    }

    /// Returns the tree with which the iteration opens for a net, or none.
    pub(crate) fn opening_tree(&self, net: u32) -> &Option<Tree>
        requires { net < length L.plan.opening.lists }
        ensures { list_in L.plan.opening.lists net ≡ list_of_tree result.now }
    {
        &self.opening[net as usize]
    }

    /// Returns the tree with which the iteration opens for a net, as a search takes it.
    fn old_tree(&self, net: u32) -> OldTree<'_> {
        let rows = match self.opening.get(net as usize) {
            Some(Some(tree)) => tree.as_slice(),
            _ => &[],
        };
        OldTree {
            rows,
            is_kept: self.options.is_steady,
        }
    }

    /// Searches for the tree of a net in this view.
    pub(crate) fn route(
        &self,
        alloc: Global,
        net: u32,
        view: &View,
        scratch: &mut Scratch,
    ) -> Result<Found, SearchFault>
        requires net { net < net_count L.plan.opening }
        requires fits { scratch.old ≡ node_total L.plan.opening }
        ensures found { IfOk result (IsAnswer
            (space_of L.plan.opening.problem net view.now L.plan.present L.plan.bb)) }
        ensures routed { IfOk result (RoutesIfFound L.plan.opening.problem net) }
        ensures view_size { (result ≡ Err ViewSize) ↔
            (length view.now ≡ node_total L.plan.opening → ⊥) }
        ensures fits { scratch.new ≡ scratch.old }
    {
        route_net(
            alloc,
            self.prepared,
            net,
            view,
            self.options.present,
            self.options.bb,
            self.old_tree(net),
            scratch,
        )
    }

    /// Returns the page in a cell, if there is one by now.
    pub(crate) fn page(&self, number: u64) -> Option<&Page<L>> {
        self.row.get(number as usize)?.get()
    }

    /// Writes a page into its cell. Returns false if there is no such cell, or it is full.
    pub(crate) fn write(&self, number: u64, page: Page<L>) -> bool {
        match self.row.get(number as usize) {
            Some(cell) => cell.set_written(page).is_ok(),
            None => false,
        }
    }

    /// Returns the cells, and the trees with which the iteration opened.
    pub(crate) fn into_parts(self) -> (Vec<Cell<L>>, Vec<Option<Tree>>) {
        let Board { row, opening, .. } = self;
        (row, opening)
    }
}
