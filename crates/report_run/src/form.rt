//! The form of a report.

/// What a report has in addition to its figures, and whether it is JSON.
#[derive(Clone, Copy, Debug, PartialEq, Eq)]
pub struct ReportForm {
    /// The bends, wires and places of the nets.
    pub full: bool,
    /// The map of the array.
    pub map: bool,
    /// Whether it is an object of JSON in place of lines.
    pub json: bool,
}
