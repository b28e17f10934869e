//! The architecture file of VPR 4.30: what it says about a device's blocks, pins, channels,
//! segments and switches.
#![tactic(auto)]

mod arch;
mod entries;
mod equality;
mod fault;
mod judge;
mod keyword;
mod line;
mod pairs;
mod pins;
mod reading;
mod segments;
mod switches;
mod values;

pub use arch::{Arch, LONGEST_SIDE};
pub use entries::{Direction, FcType, Pin, Segment, SegmentLength, Sides, Switch};
pub use fault::{ArchFault, Entry};
pub use reading::parse;
