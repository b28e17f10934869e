//! The rows of overuse of the closed iterations, and the histories that follow from them.

ghost use Rattle.std.specs.Prelude.{◌≡◌, ◌<◌, ◌≤◌, ◌+◌, ◌*◌, ◌^◌, ◌++◌, ◌∷◌, [], ℕ, All, length, get_or, replicate, map, IfOk};
ghost use Rattle.std.specs.Arc.{arc_value};
ghost use Rattle.node_cost.specs.Options.{most_iterations};
ghost use Rattle.congestion_book.specs.Histories.{amount_in};
ghost use Rattle.congestion_book.specs.kept.HistoryTables.{HistoryTable, AreHistories, GrowsByRow};

use node_cost::{Histories, MOST_ITERATIONS};
use std::alloc::{AllocError, Global};
use std::marker::Model;
use std::sync::Arc;

/// The nodes that were overused when an iteration was closed, ascending, each with its overuse.
/// Contracts see the list.
#[derive(Debug, Drop)]
pub struct OveruseRow {
    pub amounts: Vec<(u32, u32)>,
}

impl Model for OveruseRow {
    ghost use Rattle.std.specs.Prelude.{List};
    ghost use Rattle.congestion_book.specs.Histories.{Amount};

    ghost Value = { List Amount };

    ghost view = { λ r. r.amounts.items };
}

/// The rows of the closed iterations, and the histories of the nodes. Contracts see the record of
/// them.
#[derive(Drop)]
pub(crate) struct History {
    acc: u16,
    rows: Vec<OveruseRow>,
    histories: Arc<Histories, Global>,
}

impl Model for History {
    ghost use Rattle.congestion_book.specs.kept.HistoryTables.{HistoryTable};

    ghost Value = { HistoryTable };

    ghost use Rattle.congestion_book.specs.kept.Fields.{history_table, IsHistory};

    ghost view = { history_table };

    ghost invariant = { IsHistory };
}

/// Lets the history of each node of a row grow by its amount.
fn add_row(histories: &mut Histories, acc: u16, row: &[(u32, u32)])
    requires there { All (λ e. e.0 < length histories.old) row.now }
    requires bounded { (a : ℕ) → get_or histories.old a 0 + acc * amount_in row.now a ≤ 2 ^ 42 }
    ensures { GrowsByRow acc row.now histories.old histories.new }
{
    for amount in row {
        add_amount(histories, acc, *amount);
    }
}

/// Lets the history of a node grow by its amount.
fn add_amount(histories: &mut Histories, acc: u16, amount: (u32, u32))
    requires there { amount.0 < length histories.old }
    requires bounded { get_or histories.old amount.0 0 + acc * amount.1 ≤ 2 ^ 42 }
    ensures { GrowsByRow acc (amount ∷ []) histories.old histories.new }
{
    let (node, by) = amount;
    let history = histories.get(node) + u64::from(acc) * u64::from(by);
    histories.set(node, history);
}

impl History {
    /// No rows, and no history for any of the nodes.
    pub(crate) fn new(alloc: Global, nodes: usize, acc: u16) -> Result<History, AllocError>
        ensures { IfOk result
            (λ h. h ≡ record { acc = acc; rows = []; histories = replicate nodes 0 }) }
    {
        let rows = Vec::with_capacity(alloc, MOST_ITERATIONS as usize)?;
        let histories = Arc::new(alloc, Histories::new(alloc, nodes)?)?;
        Ok(History {
            acc,
            rows,
            histories,
        })
    }

    /// The histories with one more row.
    pub(crate) fn with_row(
        &self,
        alloc: Global,
        row: &[(u32, u32)],
    ) -> Result<Arc<Histories, Global>, AllocError>
        requires few { length self.now.rows < most_iterations }
        requires there { All (λ e. e.0 < length self.now.histories) row.now }
        requires bounded { (a : ℕ) → amount_in row.now a ≤ 65535 }
        ensures size { IfOk result (λ h. length (arc_value h) ≡ length self.now.histories) }
        ensures exact { IfOk result
            (λ h. AreHistories self.now.acc (self.now.rows ++ row.now ∷ []) (arc_value h)) }
    {
        let mut histories = self.histories.copy(alloc)?;
        add_row(&mut histories, self.acc, row);
        Ok(Arc::new(alloc, histories)?)
    }

    /// Adds one more row, and the histories that follow.
    pub(crate) fn append(&mut self, row: OveruseRow, histories: Arc<Histories, Global>)
        requires few { length self.old.rows < most_iterations }
        requires bounded { (a : ℕ) → amount_in row a ≤ 65535 }
        requires size { length (arc_value histories) ≡ length self.old.histories }
        requires exact { AreHistories self.old.acc (self.old.rows ++ row ∷ [])
            (arc_value histories) }
        ensures { self.new ≡ record {
          acc = self.old.acc;
          rows = self.old.rows ++ row ∷ [];
          histories = arc_value histories;
        } }
    {
        self.rows.push_reserved(row);
        self.histories = histories;
    }

    /// The histories, to be shared.
    pub(crate) fn histories(&self) -> &Arc<Histories, Global>
        ensures exact { arc_value result.now ≡ self.now.histories }
        ensures small { (a : ℕ) → get_or self.now.histories a 0 < 2 ^ 42 }
    {
        &self.histories
    }

    /// The rows, the earliest first.
    pub(crate) fn rows(&self) -> &[OveruseRow]
        ensures rows { result.now ≡ self.now.rows }
        ensures few { length self.now.rows ≤ most_iterations }
    {
        &self.rows
    }
}
