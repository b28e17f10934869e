//! What a device is made of.

/// How the tracks of a channel are seen.
#[derive(Clone, Copy, Debug, PartialEq, Eq)]
pub enum Mode {
    /// Each track has wires of its own.
    Detailed,
    /// Each place of a channel is one node, as wide as the channel.
    Global,
}

/// The kinds of nodes, in the order in which nodes are numbered.
#[derive(Clone, Copy, Debug, PartialEq, Eq)]
pub enum Kind {
    /// The output pins of one class of a logic block, or an input pad.
    Source,
    /// The input pins of one class of a logic block, or an output pad.
    Sink,
    /// An output pin.
    Opin,
    /// An input pin.
    Ipin,
    /// A wire of a channel above a row.
    Chanx,
    /// A wire of a channel right of a column.
    Chany,
}

/// A node. A wire is at its first place.
#[derive(Clone, Copy, Debug, PartialEq, Eq)]
pub struct Node {
    pub kind: Kind,
    pub x: u32,
    pub y: u32,
    /// The node's `Label` says what it counts.
    pub number: u32,
}

/// What a node's number counts.
#[derive(Clone, Copy, Debug, PartialEq, Eq)]
pub enum Label {
    Class,
    Pin,
    Pad,
    Track,
}

/// The first and the last place of a node; only a wire may have two.
#[derive(Clone, Copy, Debug, PartialEq, Eq)]
pub struct Span {
    pub x1: u32,
    pub y1: u32,
    pub x2: u32,
    pub y2: u32,
}
