//! The entries of an architecture.

/// Whether a pin of a logic block takes a signal in or gives one out.
#[derive(Clone, Copy, Debug, PartialEq, Eq)]
pub enum Direction {
    Input,
    Output,
}

/// The sides of a logic block on which a pin is reached.
#[derive(Clone, Copy, Debug, PartialEq, Eq)]
pub struct Sides {
    pub top: bool,
    pub bottom: bool,
    pub left: bool,
    pub right: bool,
}

/// A pin of a logic block (`inpin` and `outpin` lines; VPR and T-VPack manual 4.30).
#[derive(Clone, Copy, Debug, PartialEq, Eq)]
pub struct Pin {
    /// Pins of one class are logically equivalent.
    pub class: u32,
    pub direction: Direction,
    /// A pin that takes its signal from a dedicated network, and so taps no track.
    pub global: bool,
    pub sides: Sides,
}

/// What the values of `Fc_output`, `Fc_input` and `Fc_pad` count: tracks, or a share of a channel's
/// tracks.
#[derive(Clone, Copy, Debug, PartialEq, Eq)]
pub enum FcType {
    Absolute,
    Fractional,
}

/// How many logic blocks a wire of a segment passes.
#[derive(Clone, Copy, Debug, PartialEq, Eq)]
pub enum SegmentLength {
    Places(u32),
    /// From one end of its channel to the other.
    Longline,
}

/// A type of wire (a `segment` line).
#[derive(Clone, Copy, Debug, PartialEq, Eq)]
pub struct Segment {
    /// The weight of this type among all, in units of 10^-9.
    pub frequency: u64,
    pub length: SegmentLength,
    /// The switch that drives this wire from another wire.
    pub wire_switch: u32,
    /// The switch that drives this wire from an output pin.
    pub opin_switch: u32,
}

/// A `switch` line.
#[derive(Clone, Copy, Debug, PartialEq, Eq)]
pub struct Switch {
    pub number: u32,
    pub buffered: bool,
}
