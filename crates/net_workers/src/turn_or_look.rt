//! What a worker does that is about to commit a tree.

/// What a worker does that is about to commit a tree and may look again.
#[derive(Clone, Copy, Debug, PartialEq, Eq)]
pub enum TurnOrLook {
    /// Its turn: the tree is committed.
    Turn,
    /// A look: the others have filled a node of the tree, and the view is filled anew.
    Look,
}
