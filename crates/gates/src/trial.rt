//! What a search of widths reports about a trial.

/// The result of the trial of a width.
#[derive(Clone, Copy, Debug, PartialEq, Eq)]
pub enum TrialEnd {
    /// A routing, after this many iterations.
    Routed {
        iterations: u32,
    },
    /// After this many iterations, this many nets have no tree, or this many nodes are overused.
    NotRouted {
        unrouted: u32,
        overused: u32,
        iterations: u32,
    },
}
