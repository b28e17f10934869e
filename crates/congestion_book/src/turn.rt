//! Turns of workers at nets.

/// A worker's turn at a net: it gave the net a tree, or passed it.
#[derive(Clone, Copy, Debug, PartialEq, Eq)]
pub struct Turn {
    pub worker: u32,
    pub net: u32,
    /// There was no tree for the net.
    pub passed: bool,
}
