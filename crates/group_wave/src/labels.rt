//! The labels of nodes.

ghost use Rattle.std.specs.Prelude.{◌≡◌, ◌<◌, ◌≤◌, All, length, IfOk, OnOk, OnErr, IsTrue, ◌↔◌, replicate, slice_index_or, slice_set};
ghost use Rattle.group_wave.specs.kept.Wave.{unreached};
ghost use Rattle.group_wave.specs.kept.WaveState.{FAR};
ghost use Rattle.group_wave.specs.kept.Labels.{AreNoted, IsBlank, Notes, label_of};

use std::alloc::{AllocError, Global};
use std::marker::Model;
use wave_queue::Key;

/// The cost of a way to a node, the node before it on that way, and the price of entering the node.
/// If no way was found, the cost is the greatest that there is, and the price doesn't count. At a
/// start the cost is 0, and the node is its own predecessor.
#[derive(Clone, Copy, Drop)]
pub(crate) struct LabelRow<K> {
    pub(crate) cost: K,
    pub(crate) parent: u32,
    pub(crate) price: K,
}

/// The cost of a way to a node, and the node before it. Prices have a table of their own: most
/// looks at a node need only its cost, and small rows are found faster.
#[derive(Clone, Copy, Drop)]
struct WayRow<K> {
    cost: K,
    parent: u32,
}

/// The row of a node that is not reached.
fn blank<K: Key>() -> WayRow<K>
    ensures blank { IsBlank K.value K.greatest result }
    ensures fits { K.value result.cost ≤ K.greatest }
{
    WayRow {
        cost: K::greatest(),
        parent: 0,
    }
}

/// This many rows of nodes that are not reached.
fn blank_rows<K: Key>(alloc: Global, nodes: usize) -> Result<Vec<WayRow<K>>, AllocError>
    ensures count { IfOk result (λ rows. length rows.items ≡ nodes) }
    ensures blank { IfOk result (λ rows.
        All (λ row. IsBlank K.value K.greatest row) rows.items) }
    ensures fits { IfOk result (λ rows. All (λ row. K.value row.cost ≤ K.greatest) rows.items) }
{
    let mut rows = Vec::with_capacity(alloc, nodes)?;
    for _ in 0..nodes {
        rows.push(blank())?;
    }
    Ok(rows)
}

/// As many prices, none of which counts yet.
fn blank_prices<K: Key>(alloc: Global, nodes: usize) -> Result<Vec<K>, AllocError>
    ensures { IfOk result (λ prices. length prices.items ≡ nodes) }
{
    let mut prices = Vec::with_capacity(alloc, nodes)?;
    for _ in 0..nodes {
        prices.push(K::zero())?;
    }
    Ok(prices)
}

/// Removes the labels of these nodes.
fn take_off<K: Key>(rows: &mut Vec<WayRow<K>>, nodes: &[u32])
    requires within { All (λ node. node < length rows.old.items) nodes.now }
    requires fits { All (λ row. K.value row.cost ≤ K.greatest) rows.old.items }
    requires noted { AreNoted K.value K.greatest rows.old.items nodes.now }
    ensures count { length rows.new.items ≡ length rows.old.items }
    ensures blank { All (λ row. IsBlank K.value K.greatest row) rows.new.items }
    ensures fits { All (λ row. K.value row.cost ≤ K.greatest) rows.new.items }
{
    for node in nodes {
        rows[*node as usize] = blank();
    }
}

/// Notes a node that is not reached yet. An `Err` changes nothing.
#[inline(always)]
fn note<K: Key>(reached: &mut Vec<u32>, row: WayRow<K>, node: u32) -> Result<(), AllocError>
    ensures ok { OnOk result (Notes K.value K.greatest row node
        reached.old.items reached.new.items) }
    ensures err { OnErr result (reached.new.items ≡ reached.old.items) }
{
    if row.cost.is_below(K::greatest()) {
        return Ok(());
    }
    reached.push(node)?;
    Ok(())
}

/// A label for each node. Contracts see the list of them.
#[derive(Drop)]
pub(crate) struct Labels<K: Key> {
    rows: Vec<WayRow<K>>,
    /// The price of entering each node that is reached.
    prices: Vec<K>,
    /// The nodes that are reached.
    reached: Vec<u32>,
}

impl<K: Key> Model for Labels<K> {
    ghost use Rattle.std.specs.Prelude.{List};
    ghost use Rattle.group_wave.specs.kept.WaveState.{NodeLabel};

    ghost Value = { List NodeLabel };

    ghost use Rattle.group_wave.specs.kept.Labels.{labels_of, AreLabels};

    ghost view = { labels_of K.value K.greatest };

    ghost invariant = { AreLabels K.value K.greatest };
}

impl<K: Key> Labels<K> {
    /// Labels for this many nodes, none of them reached.
    pub(crate) fn new(alloc: Global, nodes: usize) -> Result<Labels<K>, AllocError>
        ensures { IfOk result (λ l. l ≡ replicate nodes unreached) }
    {
        Ok(Labels {
            rows: blank_rows(alloc, nodes)?,
            prices: blank_prices(alloc, nodes)?,
            reached: Vec::new(alloc),
        })
    }

    /// How many nodes there are.
    pub(crate) fn len(&self) -> usize
        ensures { result ≡ length self.now }
    {
        self.rows.len()
    }

    /// A node's label.
    #[inline(always)]
    pub(crate) fn row(&self, node: u32) -> LabelRow<K>
        requires { node < length self.now }
        ensures label { label_of K.value K.greatest result
            ≡ slice_index_or self.now node unreached }
        ensures fits { K.value result.cost ≤ K.greatest }
    {
        let row = self.rows[node as usize];
        LabelRow {
            cost: row.cost,
            parent: row.parent,
            price: self.prices[node as usize],
        }
    }

    /// Puts a label on a node.
    #[inline(always)]
    pub(crate) fn set(
        &mut self,
        node: u32,
        cost: K,
        parent: u32,
        price: K,
    ) -> Result<(), AllocError>
        requires there { node < length self.old }
        requires fits { K.value cost < K.greatest }
        ensures set { OnOk result (self.new ≡ slice_set self.old node
            (record { cost = K.value cost; parent = parent; price = K.value price })) }
        ensures rows { length self.new ≡ length self.old }
    {
        let row = self.rows[node as usize];
        note(&mut self.reached, row, node)?;
        self.rows[node as usize] = WayRow { cost, parent };
        self.prices[node as usize] = price;
        Ok(())
    }

    /// Puts another node before one that is reached.
    #[inline(always)]
    pub(crate) fn set_parent(&mut self, node: u32, parent: u32)
        requires there { node < length self.old }
        requires reached { (slice_index_or self.old node unreached).cost < FAR }
        ensures { self.new ≡ slice_set self.old node (record {
          cost = (slice_index_or self.old node unreached).cost;
          parent = parent;
          price = (slice_index_or self.old node unreached).price;
        }) }
    {
        let row = self.rows[node as usize];
        self.rows[node as usize] = WayRow {
            cost: row.cost,
            parent,
        };
    }

    /// Removes all labels.
    pub(crate) fn clear(&mut self)
        ensures { self.new ≡ replicate (length self.old) unreached }
    {
        take_off(&mut self.rows, &self.reached);
        self.reached.clear();
    }
}
