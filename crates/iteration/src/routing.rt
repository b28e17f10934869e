//! The routing that a book records.

ghost use Rattle.std.specs.Prelude.{◌≡◌, ◌<◌, length, IfOk};
ghost use Rattle.route_tree.specs.TreeLists.{list_of_tree};
ghost use Rattle.route_tree.specs.Usage.{list_in};
ghost use Rattle.congestion_book.specs.Contents.{IsSound, net_count};

use congestion_book::Book;
use route_tree::{Routing, Tree};
use std::alloc::{AllocError, Global};

/// Returns a copy of the recorded tree of a net, if it has one.
fn tree_of(alloc: Global, book: &Book, net: u32) -> Result<Option<Tree>, AllocError>
    ensures { IfOk result (λ t. list_of_tree t ≡ list_in book.now.lists net) }
{
    match book.tree(net) {
        None => Ok(None),
        Some(tree) => Ok(Some(tree.copy(alloc)?)),
    }
}

/// Returns the recorded trees of a book as a routing: the pairs of each net, or none if it has no
/// tree.
#[tactic(auto, using(crate::proofs::Routings::trees_more, crate::proofs::Routings::trees_all))]
pub fn routing_of(alloc: Global, book: &Book) -> Result<Routing, AllocError>
    ensures trees { IfOk result (λ r. r ≡ book.now.lists) }
    ensures sound { IsSound book.now }
{
    let nets = book.problem().nets();
    let mut trees = Vec::with_capacity(alloc, nets as usize)?;
    for net in 0..nets {
        trees.push_reserved(tree_of(alloc, book, net)?);
    }
    Routing::of_trees(alloc, &trees)
}
