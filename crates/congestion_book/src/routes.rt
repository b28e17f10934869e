//! The recorded trees, and what is counted over them.

ghost use Rattle.std.specs.Prelude.{◌≡◌, ◌<◌, ◌≤◌, ◌+◌, ℕ, true, All, length, set, replicate, Some, None, is_none, IfOk};
ghost use Rattle.std.specs.Arc.{arc_value};
ghost use Rattle.congestion_book.specs.Histories.{amount_in, row_of};
ghost use Rattle.congestion_book.specs.kept.Views.{SeesOthers};
ghost use Rattle.congestion_book.specs.Looks.{has_filled};
ghost use Rattle.std.specs.List.{list_any, zip};
ghost use Rattle.routing_problem.specs.Nodes.{node_count_of};
ghost use Rattle.routing_problem.specs.Problems.{RoutingProblem};
ghost use Rattle.route_tree.specs.Usage.{list_in};
ghost use Rattle.route_tree.specs.TreeLists.{list_of_tree};
ghost use Rattle.congestion_book.specs.kept.Fields.{AreExact, HasNet, lists_kept};
ghost use Rattle.congestion_book.specs.Turns.{one_if};
ghost use Rattle.congestion_book.specs.Recorded.{RoutesOrNone, occupancies_of};
ghost use Rattle.congestion_book.specs.kept.Counts.{IsTreeOrNone, rows_of};

use crate::filling::any_filled;
use crate::history::OveruseRow;
use crate::net_view::show;
use crate::usage::{Usage, one_if};
use node_cost::{Histories, View};
use route_tree::{Row, Tree};
use routing_problem::Problem;
use std::alloc::{AllocError, Global};
use std::mem;
use std::sync::Arc;

/// The recorded tree of each net, or none, how many nets have none, and how many nets use each
/// node.
#[derive(Drop)]
pub(crate) struct Routes {
    pub(crate) trees: Vec<Option<Tree>>,
    pub(crate) unrouted: u32,
    pub(crate) usage: Usage,
}

/// The rows of a tree; none if there is no tree.
pub(crate) fn rows_of(tree: &Option<Tree>) -> &[Row]
    ensures rows { result.now ≡ rows_of tree.now }
    ensures tree { IsTreeOrNone tree.now }
{
    match tree {
        None => &[],
        Some(tree) => tree.as_slice(),
    }
}

/// Whether two nets' trees, or none, are the same.
pub(crate) fn are_same(one: &Option<Tree>, other: &Option<Tree>) -> bool
    ensures { result ≡ true → one.now ≡ other.now }
{
    match (one, other) {
        (Some(one), Some(other)) => *one == *other,
        (None, None) => true,
        _ => false,
    }
}

/// 1 if there is no tree, else 0.
fn count_none(tree: &Option<Tree>) -> u32
    ensures { result ≡ one_if (is_none tree.now) }
{
    one_if(tree.is_none())
}

impl Routes {
    /// No net has a tree.
    pub(crate) fn new(alloc: Global, problem: &Problem) -> Result<Routes, AllocError>
        ensures lists { IfOk result
            (λ r. lists_kept r ≡ replicate (length problem.now.nets) None) }
        ensures counts { IfOk result
            (λ r. r.usage.counts ≡ replicate (node_count_of problem.now.device) 0) }
        ensures recorded { IfOk result (λ r. AreExact problem.now r) }
    {
        let trees = no_trees(alloc, problem.nets())?;
        let usage = Usage::new(alloc, problem.device())?;
        Ok(Routes {
            trees,
            unrouted: problem.nets(),
            usage,
        })
    }

    /// Replaces the recorded tree of a net, or none, by this one, or none. If both are the same
    /// nothing changes.
    pub(crate) fn exchange(&mut self, problem: &Problem, net: u32, tree: &mut Option<Tree>)
        requires there { net < length problem.now.nets }
        requires routes { RoutesOrNone problem.now net (list_of_tree tree.old) }
        requires recorded { AreExact problem.now self.old }
        ensures lists { lists_kept self.new ≡
            set (lists_kept self.old) net (list_of_tree tree.old) }
        ensures counts { self.new.usage.counts ≡
            occupancies_of problem.now (set (lists_kept self.old) net (list_of_tree tree.old)) }
        ensures recorded { AreExact problem.now self.new }
        ensures back { list_of_tree tree.new ≡ list_in (lists_kept self.old) net }
    {
        let device = problem.device();
        let before = &self.trees[net as usize];
        if are_same(before, tree) {
            return;
        }
        let old_rows = rows_of(before);
        let new_rows = rows_of(tree);
        self.usage.replace_each(device, old_rows, new_rows);
        self.unrouted -= count_none(before);
        self.unrouted += count_none(tree);
        mem::swap(&mut self.trees[net as usize], tree);
    }
}

impl Routes {
    /// The view becomes the one by what is counted and by these histories, with no net left out.
    pub(crate) fn show_all(&self, view: &mut View, histories: &Arc<Histories, Global>)
        requires size { length view.old ≡ length self.now.usage.counts }
        requires histories { length (arc_value histories.now) ≡ length self.now.usage.counts }
        ensures { view.new ≡ zip self.now.usage.counts (arc_value histories.now) }
    {
        view.look_at(&self.usage.counts, histories);
    }
}

impl Routes {
    /// The view becomes that of a net by what is counted and by these histories.
    pub(crate) fn show(&self, view: &mut View, net: u32, histories: &Arc<Histories, Global>)
        requires recorded { (p : RoutingProblem) × HasNet p self.now net }
        requires size { length view.old ≡ length self.now.usage.counts }
        requires histories { length (arc_value histories.now) ≡ length self.now.usage.counts }
        ensures { (p : RoutingProblem) → HasNet p self.now net
            → SeesOthers p net (list_in (lists_kept self.now) net)
            self.now.usage.counts (arc_value histories.now) view.new }
    {
        let tree = &self.trees[net as usize];
        show(view, rows_of(tree), &self.usage.counts, histories);
    }
}

impl Routes {
    /// Whether a node of the tree of these rows is full now by the nets but this one, and was not
    /// by those in the view.
    pub(crate) fn has_filled(&self, problem: &Problem, net: u32, rows: &[Row], view: &View) -> bool
        requires there { net < length problem.now.nets }
        requires recorded { AreExact problem.now self.now }
        requires size { length view.now ≡ node_count_of problem.now.device }
        ensures { result ≡ list_any
            (λ r. has_filled problem.now (lists_kept self.now) net view.now r.node) rows.now }
    {
        let tree = &self.trees[net as usize];
        let counts = &self.usage.counts;
        any_filled(view, problem.device(), rows_of(tree), counts, rows)
    }
}

impl Routes {
    /// The row of an iteration that ends with these trees.
    #[tactic(auto, using(crate::proofs::Rows::row_of_lists, crate::proofs::Rows::row_below, crate::proofs::Rows::row_bounded))]
    pub(crate) fn row(&self, alloc: Global, problem: &Problem) -> Result<OveruseRow, AllocError>
        requires recorded { AreExact problem.now self.now }
        ensures exact { IfOk result (λ r. r ≡ row_of problem.now (lists_kept self.now)) }
        ensures there { IfOk result (λ r. All (λ e. e.0 < node_count_of problem.now.device) r) }
        ensures bounded { IfOk result (λ r. (a : ℕ) → amount_in r a ≤ 65535) }
    {
        let amounts = self.usage.row(alloc, problem.device())?;
        Ok(OveruseRow { amounts })
    }
}

/// No tree for any of this many nets.
fn no_trees(alloc: Global, nets: u32) -> Result<Vec<Option<Tree>>, AllocError>
    ensures { IfOk result (λ ts. ts.items ≡ replicate nets None) }
{
    let mut trees = Vec::with_capacity(alloc, nets as usize)?;
    for _ in 0..nets {
        trees.push(None)?;
    }
    Ok(trees)
}
