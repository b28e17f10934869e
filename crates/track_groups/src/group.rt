//! What groups are made of.

use routing_problem::{Kind, Span};

/// The wires of a class of tracks over one span, one of each track. Track `j` of the class, counted
/// from 0, is node `base + j * stride`.
#[derive(Clone, Copy, Debug, PartialEq, Eq)]
pub struct Group {
    pub kind: Kind,
    pub span: Span,
    /// How many places the wires of its tracks pass at most.
    pub reach: u32,
    pub base: u32,
    pub stride: u32,
    /// How many tracks there are.
    pub tracks: u32,
}

/// A track of a group.
#[derive(Clone, Copy, Debug, PartialEq, Eq)]
pub struct GroupTrack {
    pub group: u32,
    pub track: u32,
}

/// An input pin, the sink to which it leads, and which tracks of a group it taps: track `j` where
/// bit `j` is 1.
#[derive(Clone, Copy, Debug, PartialEq, Eq)]
pub struct Tap {
    pub pin: u32,
    pub sink: u32,
    pub tracks: u64,
}

/// A group, and which of its tracks a pin drives: track `j` where bit `j` is 1.
#[derive(Clone, Copy, Debug, PartialEq, Eq)]
pub struct Drive {
    pub group: u32,
    pub tracks: u64,
}
