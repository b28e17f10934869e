//! The report of a worker on its turns.

ghost use Rattle.std.specs.Prelude.{◌≡◌, ◌++◌, ◌∷◌, [], OnOk};

use route_tree::Tree;
use std::alloc::AllocError;
use std::marker::Model;

/// A turn: the net, how many turns of the iteration the worker had seen when it searched, and a
/// copy of the tree that was committed, or none if the net was passed.
#[derive(Debug, Drop)]
pub struct ReportEntry {
    pub net: u32,
    pub seen: u64,
    pub tree: Option<Tree>,
}

/// The turns of one worker, in the order in which it made them. Contracts see the list.
#[derive(Debug, Drop)]
pub struct Report {
    entries: Vec<ReportEntry>,
}

impl Model for Report {
    ghost use Rattle.std.specs.Prelude.{List};
    ghost use Rattle.net_workers.specs.declared.report.ReportEntry.{ReportEntry};

    ghost Value = { List ReportEntry };

    ghost view = { λ r. r.entries.items };
}

impl Report {
    /// Returns the report of these turns.
    pub(crate) fn of(entries: Vec<ReportEntry>) -> Report
        ensures { result ≡ entries.items }
    {
        Report { entries }
    }

    /// Adds a turn.
    pub(crate) fn add(&mut self, entry: ReportEntry) -> Result<(), AllocError>
        ensures { OnOk result (self.new ≡ self.old ++ entry ∷ []) }
    {
        self.entries.reserve(1)?;
        self.entries.push_reserved(entry);
        Ok(())
    }

    /// Takes the report apart, and returns the turns.
    pub(crate) fn into_entries(self) -> Vec<ReportEntry>
        ensures { result.items ≡ self }
    {
        let Report { entries } = self;
        entries
    }

    /// Returns the turns.
    pub fn entries(&self) -> &[ReportEntry]
        ensures { result.now ≡ self.now }
    {
        &self.entries
    }
}
