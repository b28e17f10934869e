//! What a search answers.

use route_tree::Tree;
use std::alloc::AllocError;
use thiserror::Error;

/// What a search finds.
#[derive(Debug, Drop)]
pub enum Found {
    /// A tree that routes the net.
    Tree(Tree),
    /// The least-numbered sink that was not reached.
    NoPath(u32),
}

/// Why a net is not searched.
#[derive(Clone, Copy, Debug, PartialEq, Eq, Error)]
pub enum SearchFault {
    /// The view's length is not the number of nodes.
    #[error("the view is of another device")]
    ViewSize,
    #[error("out of memory")]
    Memory,
}

impl From<AllocError> for SearchFault {
    ghost use Rattle.std.specs.Prelude.{◌≡◌};
    ghost use Rattle.wavefront.specs.declared.search_outcome.SearchFault.TheVariants.{Memory};

    ghost from_gives = { λ given fault. fault ≡ Memory };

    fn from(_: AllocError) -> SearchFault {
        SearchFault::Memory
    }
}
