//! The trees with which an iteration opens, for those who read them without a lock.

ghost use Rattle.std.specs.Prelude.{◌≡◌, ◌<◌, true, length, IfOk};
ghost use Rattle.route_tree.specs.TreeLists.{list_of_tree, lists_of_trees};
ghost use Rattle.route_tree.specs.Usage.{list_in};
ghost use Rattle.congestion_book.specs.Contents.{net_count};

use congestion_book::Book;
use route_tree::Tree;
use std::alloc::{AllocError, Global};

/// Returns whether a tree is the one that the book records for a net.
fn is_recorded(book: &Book, net: u32, tree: &Option<Tree>) -> bool
    ensures { result ≡ true → list_in book.now.lists net ≡ list_of_tree tree.now }
{
    match (book.tree(net), tree) {
        (Some(recorded), Some(tree)) => *recorded == *tree,
        (None, None) => true,
        _ => false,
    }
}

/// Returns a copy of the tree that the book records for a net, or none.
fn copy_recorded(alloc: Global, book: &Book, net: u32) -> Result<Option<Tree>, AllocError>
    ensures { IfOk result (λ tree. list_in book.now.lists net ≡ list_of_tree tree) }
{
    match book.tree(net) {
        None => Ok(None),
        Some(tree) => Ok(Some(tree.copy(alloc)?)),
    }
}

/// Returns the tree of a net: the kept one if the book still records it, and otherwise a copy of
/// the recorded one.
fn tree_of(
    alloc: Global,
    book: &Book,
    net: u32,
    kept: Option<Tree>,
) -> Result<Option<Tree>, AllocError>
    ensures { IfOk result (λ tree. list_in book.now.lists net ≡ list_of_tree tree) }
{
    if is_recorded(book, net, &kept) {
        return Ok(kept);
    }
    copy_recorded(alloc, book, net)
}

/// Returns the trees that the book records, net by net. A kept tree is used if the book still
/// records it for its net.
pub(crate) fn trees_of(
    alloc: Global,
    book: &Book,
    kept: Vec<Option<Tree>>,
) -> Result<Vec<Option<Tree>>, AllocError>
    ensures { IfOk result (λ trees. lists_of_trees trees.items ≡ book.now.lists) }
{
    let nets = book.problem().nets();
    let mut trees = Vec::with_capacity(alloc, nets as usize)?;
    let mut kept = kept.into_iter();
    for net in 0..nets {
        let tree = tree_of(alloc, book, net, kept.next().flatten())?;
        trees.push(tree)?;
    }
    Ok(trees)
}
