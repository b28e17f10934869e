//! Why a tree is refused.

use thiserror::Error;

/// Why a tree does not route a net, in the order in which faults are looked for: where a tree has
/// several, the first is named.
#[derive(Clone, Copy, Debug, PartialEq, Eq, Error)]
pub enum TreeFault {
    #[error("there is no such net")]
    NoNet,
    /// There is no pair, or the first does not begin at the net's source.
    #[error("the tree does not begin at the source")]
    WrongSource,
    /// A pair is no edge of the device.
    #[error("no switch joins two nodes")]
    NoSwitch,
    /// Two pairs end in one node, or one in the source.
    #[error("a node is reached twice")]
    NodeTwice,
    /// Two pairs begin at the source.
    #[error("the net leaves by two outputs")]
    SecondOutput,
    /// A pair ends in a sink that is not the net's.
    #[error("a sink of another net is reached")]
    ForeignSink,
    /// A pair is not on a way from the source to a sink of the net.
    #[error("a node leads to no sink")]
    Dangling,
    #[error("a sink of the net is not reached")]
    MissingSink,
    /// The pairs are not in the order in which routings are written.
    #[error("the pairs are out of order")]
    Order,
}
