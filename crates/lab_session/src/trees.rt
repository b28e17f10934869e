//! Trees in the words of a script.

use crate::answer::added;
use crate::unanswered::Unanswered;
use crate::words::{NO_NUMBER, number};
use route_tree::{Row, Tree};
use std::alloc::{AllocError, Global};

/// The syntax of a tree: chains of nodes, each but the first after the row that it starts from.
const TREE: &str = "SOURCE NODE .., and for each further way ROW: NODE ..";

/// Reads a tree from words.
pub fn tree_of_words(alloc: Global, given: &[&str]) -> Result<Tree, Unanswered> {
    let [source, rest @ ..] = given else {
        return Err(Unanswered::Misread(TREE));
    };
    let Some(source) = number(source) else {
        return Err(NO_NUMBER);
    };
    let mut growing = Growing::new(alloc, source)?;
    growing.take_words(rest)?;
    Ok(growing.tree)
}

/// A tree that grows path by path.
#[derive(Drop)]
struct Growing {
    tree: Tree,
    /// The row that the current path is to be attached to.
    row: u32,
    way: Vec<u32>,
}

impl Growing {
    /// Returns a tree of the source only.
    fn new(alloc: Global, source: u32) -> Result<Growing, AllocError> {
        let tree = Tree::start(alloc, source)?;
        Ok(Growing {
            tree,
            row: 0,
            way: Vec::new(alloc),
        })
    }

    /// Adds all paths that words give.
    fn take_words(&mut self, words: &[&str]) -> Result<(), Unanswered> {
        for word in words {
            self.take(*word)?;
        }
        self.attach_way()
    }

    /// Takes a word: the row of another path, or the next node of the current one.
    fn take(&mut self, word: &str) -> Result<(), Unanswered> {
        let (row, node) = (word.strip_suffix(':'), number(word));
        match (row, node) {
            (None, Some(node)) => self.lengthen_way(node),
            (Some(row), _) => self.begin_way(row),
            _ => Err(NO_NUMBER),
        }
    }

    /// Attaches the current path, and begins another one, which is to be attached to a row.
    fn begin_way(&mut self, row: &str) -> Result<(), Unanswered> {
        let Some(row) = number(row) else {
            return Err(NO_NUMBER);
        };
        self.attach_way()?;
        self.row = row;
        self.way.clear();
        Ok(())
    }

    fn lengthen_way(&mut self, node: u32) -> Result<(), Unanswered> {
        Ok(self.way.push(node)?)
    }

    /// Attaches the current path.
    fn attach_way(&mut self) -> Result<(), Unanswered> {
        attach_at(&mut self.tree, self.row, self.way.as_slice())
    }
}

/// Attaches a path to a row of a tree.
pub fn attach_at(tree: &mut Tree, row: u32, way: &[u32]) -> Result<(), Unanswered> {
    let row = row as usize;
    if row >= tree.rows() {
        return Err(Unanswered::Refused("the tree has no such row"));
    }
    Ok(tree.attach(row, way)?)
}

/// Adds a tree in the syntax of `tree`: chains of nodes, each but the first after the row that it
/// starts from.
pub fn put_tree(tree: &Tree, out: &mut String) -> Result<(), Unanswered> {
    for (index, row) in tree.as_slice().iter().enumerate() {
        put_tree_row(*row, index, out)?;
    }
    added(out.push('\n'))
}

/// Adds the node of a row. If its parent is not the preceding row, adds the number of the parent
/// before it.
fn put_tree_row(row: Row, index: usize, out: &mut String) -> Result<(), Unanswered> {
    let Row { node, parent } = row;
    if index == 0 {
        write!(out, "{node}")?;
    } else if parent.saturating_add(1) == index {
        write!(out, " {node}")?;
    } else {
        write!(out, " {parent}: {node}")?;
    }
    Ok(())
}
