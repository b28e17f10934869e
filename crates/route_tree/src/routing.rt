//! Routings: a list of pairs for each net, or none.

ghost use Rattle.std.specs.Prelude.{◌≡◌, IfOk};
ghost use Rattle.std.specs.List.{list_all};
ghost use Rattle.route_tree.specs.Fits.{fits_problem, are_nodes, is_below};
ghost use Rattle.route_tree.specs.Rows.{pairs_of};
ghost use Rattle.route_tree.specs.TreeLists.{list_of_tree, lists_of_trees};

use crate::tree::Tree;
use routing_problem::{Device, Problem};
use std::alloc::{AllocError, Global};
use std::marker::Model;

/// The pairs that route a net: each leads from a node to another one. Contracts see the list.
#[derive(Debug, Drop)]
pub struct Pairs {
    pub items: Vec<(u32, u32)>,
}

impl Model for Pairs {
    ghost use Rattle.std.specs.Prelude.{List};
    ghost use Rattle.route_tree.specs.Paths.{Pair};

    ghost Value = { List Pair };

    ghost use Rattle.route_tree.specs.kept.Fields.{items_of};

    ghost view = { items_of };
}

/// For each net of a problem the pairs that route it, or none. Contracts see the list of the lists.
#[derive(Debug, Drop)]
pub struct Routing {
    pub lists: Vec<Option<Pairs>>,
}

impl Model for Routing {
    ghost use Rattle.std.specs.Prelude.{List, Option};
    ghost use Rattle.route_tree.specs.Paths.{Pair};

    ghost Value = { List (Option (List Pair)) };

    ghost use Rattle.route_tree.specs.kept.Fields.{lists_of};

    ghost view = { lists_of };
}

impl Pairs {
    /// The pairs of a tree, in the order of its rows.
    fn of_tree(alloc: Global, tree: &Tree) -> Result<Pairs, AllocError>
        ensures { IfOk result (λ p. p ≡ pairs_of tree.now) }
    {
        let mut items = Vec::with_capacity(alloc, tree.pairs())?;
        for index in 0..tree.pairs() {
            items.push(tree.pair(index))?;
        }
        Ok(Pairs { items })
    }
}

/// The pairs of a tree, where there is one.
fn list_of_tree(alloc: Global, tree: &Option<Tree>) -> Result<Option<Pairs>, AllocError>
    ensures { IfOk result (λ l. l ≡ list_of_tree tree.now) }
{
    match tree {
        None => Ok(None),
        Some(tree) => Ok(Some(Pairs::of_tree(alloc, tree)?)),
    }
}

impl Routing {
    /// The routing of a list of trees, one entry a net: the pairs of its tree, or none where it has
    /// no tree.
    pub fn of_trees(alloc: Global, trees: &[Option<Tree>]) -> Result<Routing, AllocError>
        ensures { IfOk result (λ r. r ≡ lists_of_trees trees.now) }
    {
        let mut lists = Vec::with_capacity(alloc, trees.len())?;
        for tree in trees {
            lists.push(list_of_tree(alloc, tree)?)?;
        }
        Ok(Routing { lists })
    }
}

/// Whether both numbers of each pair are below a count.
fn are_below(count: u32, pairs: &[(u32, u32)]) -> bool
    ensures { result ≡ list_all (is_below count) pairs.now }
{
    pairs.iter().all(|pair| pair.0 < count && pair.1 < count)
}

/// Whether all numbers of the pairs are nodes of the device.
fn are_nodes(device: &Device, pairs: &Option<Pairs>) -> bool
    ensures { result ≡ are_nodes device.now pairs.now }
{
    match pairs {
        None => true,
        Some(pairs) => are_below(device.node_count(), &pairs.items),
    }
}

/// Whether all numbers of the lists are nodes of the device.
fn are_all_nodes(device: &Device, lists: &[Option<Pairs>]) -> bool
    ensures { result ≡ list_all (are_nodes device.now) lists.now }
{
    lists.iter().all(|pairs| are_nodes(device, pairs))
}

/// Whether the routing has one entry for each net of the problem, and all its numbers are nodes.
#[tactic(auto, unfolding(crate::specs::Fits::fits_problem))]
pub fn fits(problem: &Problem, routing: &Routing) -> bool
    ensures { result ≡ fits_problem problem.now routing.now }
{
    routing.lists.len() == problem.nets() as usize
        && are_all_nodes(problem.device(), &routing.lists)
}
