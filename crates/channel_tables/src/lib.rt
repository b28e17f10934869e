//! The channels of a device: their tracks and wires, and the pins that tap them, in tables that are
//! made once (Betz, Rose and Marquardt 1999; VPR and T-VPack manual 4.30).
#![tactic(auto)]

mod axis;
mod channel;
mod layout;
mod node;
mod pins;
mod reaches;
mod sides;
mod tables;
mod tap_counts;
mod tracks;
mod wires;

pub use axis::Axis;
pub use channel::{Beginning, Wire};
pub use layout::{Layout, MOST_TRACKS};
pub use node::{Kind, Label, Mode, Node, Span};
pub use pins::has_class;
pub use sides::Side;
pub use tables::ChannelTables;
pub use tap_counts::TapCounts;
