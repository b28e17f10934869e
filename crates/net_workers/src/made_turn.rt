//! A turn of a worker, as the history of an iteration has it.

use crate::report::ReportEntry;

/// A turn: the worker that made it, and the entry of the worker's report.
#[derive(Drop)]
pub(crate) struct MadeTurn {
    pub(crate) worker: u32,
    pub(crate) entry: ReportEntry,
}
