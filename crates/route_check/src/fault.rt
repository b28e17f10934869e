//! Why a routing is refused.

use route_tree::TreeFault;
use thiserror::Error;

/// Why a routing does not route a problem, in the order in which faults are looked for. If a
/// routing has several, the first is reported: among several nets that of the first net, and among
/// several nodes that of the least.
#[derive(Clone, Copy, Debug, PartialEq, Eq, Error)]
pub enum RouteFault {
    #[error("the routing has not one entry for each net")]
    Length,
    /// A net has no list of pairs.
    #[error("net {0} is not routed")]
    Unrouted(u32),
    /// The pairs of a net do not route it.
    #[error("net {0}: {1}")]
    Tree(u32, TreeFault),
    /// A node is used by more nets than it has room for, and by how many more.
    #[error("node {0} is overused by {1}")]
    Overused(u32, u32),
}
