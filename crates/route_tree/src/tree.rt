//! Trees: a node at which they begin, and nodes that hang on others.

ghost use Rattle.std.specs.Prelude.{◌≡◌, ◌+◌, ◌-◌, ◌≤◌, ◌<◌, ◌==◌, ◌++◌, [], ◌∷◌, length, vec_len, vec_capacity, get_or, IfOk, OnOk, OnErr, IsOk};
ghost use Rattle.std.specs.List.{list_any};
ghost use Rattle.route_tree.specs.Rows.{no_row, node_in, pair_of, pairs_of, chain, pairs_along, IsTree};
ghost use Rattle.route_tree.specs.Usage.{covers};

use std::alloc::{AllocError, Global};
use std::marker::Model;

/// How many rows a tree has room for at first: most nets of small designs have fewer.
const FIRST_ROOM: usize = 16;

/// A node of a tree, and the row of the node before it.
#[derive(Clone, Copy, Debug, PartialEq, Eq)]
pub struct Row {
    /// The node's number in the device.
    pub node: u32,
    /// The row of the node before it, counted from 0; the first row is its own.
    pub parent: usize,
}

/// A tree of nodes. Contracts see the list of its rows: each but the first is one pair, from its
/// parent's node to its own.
#[derive(Debug, Drop)]
pub struct Tree {
    pub(crate) rows: Vec<Row>,
}

impl Model for Tree {
    ghost use Rattle.std.specs.Prelude.{List};
    ghost use Rattle.route_tree.specs.declared.tree.Row.{Row};

    ghost Value = { List Row };

    ghost use Rattle.route_tree.specs.kept.Fields.{rows_of};

    ghost view = { rows_of };

    ghost use Rattle.route_tree.specs.Rows.{IsTree};

    ghost invariant = { λ t. IsTree (rows_of t) };
}

impl Tree {
    /// A tree of one node.
    pub fn start(alloc: Global, node: u32) -> Result<Tree, AllocError>
        ensures { IfOk result (λ t. t ≡ record { node = node; parent = 0 } ∷ []) }
    {
        let mut rows = Vec::with_capacity(alloc, FIRST_ROOM)?;
        rows.push(Row { node, parent: 0 })?;
        Ok(Tree { rows })
    }

    /// A copy of this tree.
    pub fn copy(&self, alloc: Global) -> Result<Tree, AllocError>
        ensures { IfOk result (λ t. t ≡ self.now) }
    {
        Ok(Tree {
            rows: Vec::from_slice(alloc, &self.rows)?,
        })
    }

    /// How many nodes it has; they are counted from 0.
    pub fn rows(&self) -> usize
        ensures count { result ≡ length self.now }
        ensures tree { IsTree self.now }
    {
        self.rows.len()
    }

    /// The node of a row.
    pub fn node(&self, row: usize) -> u32
        requires { row < length self.now }
        ensures { result ≡ node_in self.now row }
    {
        self.rows[row].node
    }

    /// Its rows, for a caller that goes over them: each parent comes before its row.
    pub fn as_slice(&self) -> &[Row]
        ensures rows { result.now ≡ self.now }
        ensures tree { IsTree self.now }
    {
        &self.rows
    }

    /// How many pairs it has: one less than nodes.
    pub fn pairs(&self) -> usize
        ensures count { result ≡ length (pairs_of self.now) }
        ensures rows { result + 1 ≡ length self.now }
    {
        count_pairs(&self.rows)
    }

    /// A pair: the node that it leads from and the node that it leads to.
    pub fn pair(&self, index: usize) -> (u32, u32)
        requires { index < length (pairs_of self.now) }
        ensures { result ≡ get_or (pairs_of self.now) index (0, 0) }
    {
        pair_at(&self.rows, index)
    }

    /// Whether the node is in the tree.
    pub fn covers(&self, id: u32) -> bool
        ensures { result ≡ covers (node_in self.now 0) (pairs_of self.now) id }
    {
        covers_node(&self.rows, id)
    }

    /// Hangs a chain of nodes on a row: the first node on the row, and each next one on the one
    /// before. Where memory is refused the tree is as it was.
    pub fn attach(&mut self, row: usize, nodes: &[u32]) -> Result<(), AllocError>
        requires { row < length self.old }
        ensures rows { OnOk result (self.new ≡ self.old ++ chain (length self.old) row nodes.now) }
        ensures pairs { OnOk result (pairs_of self.new
            ≡ pairs_of self.old ++ pairs_along (node_in self.old row) nodes.now) }
        ensures refused { OnErr result (self.new ≡ self.old) }
        ensures nothing { nodes.now ≡ [] → IsOk result }
    {
        self.rows.reserve(nodes.len())?;
        hang_chain(&mut self.rows, row, nodes);
        Ok(())
    }
}

/// How many pairs the rows make.
#[tactic(auto, using(crate::proofs::Trees::length_pairs))]
pub(crate) fn count_pairs(rows: &[Row]) -> usize
    requires { IsTree rows.now }
    ensures count { result ≡ length (pairs_of rows.now) }
    ensures rows { result + 1 ≡ length rows.now }
{
    rows.len() - 1
}

/// The row of a pair: that of its end.
#[tactic(auto, using(crate::proofs::Trees::length_pairs))]
fn row_of_pair(rows: &[Row], index: usize) -> Row
    requires tree { IsTree rows.now }
    requires there { index < length (pairs_of rows.now) }
    ensures row { result ≡ get_or rows.now (index + 1) no_row }
    ensures earlier { result.parent < length rows.now }
{
    rows[index + 1]
}

/// The pair that a row is.
#[tactic(auto, using(crate::proofs::Trees::pair_at))]
pub(crate) fn pair_at(rows: &[Row], index: usize) -> (u32, u32)
    requires tree { IsTree rows.now }
    requires there { index < length (pairs_of rows.now) }
    ensures { result ≡ get_or (pairs_of rows.now) index (0, 0) }
{
    let row = row_of_pair(rows, index);
    (rows[row.parent].node, row.node)
}

/// Whether a row has the node.
fn has_node(rows: &[Row], id: u32) -> bool
    ensures { result ≡ list_any (λ r. r.node == id) rows.now }
{
    rows.iter().any(|row| row.node == id)
}

/// Whether the node is in the tree of the rows.
#[tactic(auto, using(crate::proofs::Trees::covers_rows))]
fn covers_node(rows: &[Row], id: u32) -> bool
    requires { IsTree rows.now }
    ensures { result ≡ covers (node_in rows.now 0) (pairs_of rows.now) id }
{
    has_node(rows, id)
}

/// Pushes a chain of nodes; the first hangs on a row. There is room for the chain.
fn push_chain(rows: &mut Vec<Row>, row: usize, nodes: &[u32])
    requires room { vec_len rows.old + length nodes.now ≤ vec_capacity rows.old }
    ensures { rows.new.items ≡ rows.old.items ++ chain (length rows.old.items) row nodes.now }
{
    let mut parent = row;
    for node in nodes {
        let next = rows.len();
        rows.push(Row {
            node: *node,
            parent,
        })
        .unwrap();
        parent = next;
    }
}

/// Hangs a chain of nodes on a row; there is room for it.
#[tactic(auto, using(crate::proofs::Chains::chain_tree, crate::proofs::Chains::chain_pairs))]
fn hang_chain(rows: &mut Vec<Row>, row: usize, nodes: &[u32])
    requires tree { IsTree rows.old.items }
    requires there { row < length rows.old.items }
    requires room { vec_len rows.old + length nodes.now ≤ vec_capacity rows.old }
    ensures rows { rows.new.items ≡ rows.old.items ++ chain (length rows.old.items) row nodes.now }
    ensures tree { IsTree rows.new.items }
    ensures pairs { pairs_of rows.new.items ≡ pairs_of rows.old.items
        ++ pairs_along (node_in rows.old.items row) nodes.now }
{
    push_chain(rows, row, nodes);
}
