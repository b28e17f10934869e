//! The wires of a device in groups: what follows from the device alone, made once for all searches.
//! Wires of tracks that begin at the same places have the same neighbours, each in its own track,
//! so that a search can look at all of them at once.
#![tactic(auto)]

mod classes;
mod construction;
mod drafts;
mod drives;
mod group;
mod groups;
mod holding;
mod joining;
mod lone;
mod merging;
mod packed;
mod rows;
mod wires;

pub use drives::PinDrives;
pub use group::{Drive, Group, GroupTrack, Tap};
pub use groups::TrackGroups;
