//! The outcome of a negotiation.

use route_tree::Routing;

/// The outcome of a negotiation.
#[derive(Debug, Drop)]
pub enum Outcome {
    /// A routing in which each net has a tree and no node is overused, after this many iterations.
    Success(Routing, u32),
    /// No routing after `iterations` iterations: `unrouted` nets have no tree, or `overused` nodes
    /// are overused.
    NotRouted {
        unrouted: u32,
        overused: u32,
        iterations: u32,
    },
}
