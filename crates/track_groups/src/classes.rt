//! Classes of tracks: tracks whose wires begin at the same places, at equal distances from each
//! other.

ghost use Rattle.std.specs.Prelude.{◌≡◌, ◌<◌, ◌≤◌, length, IfOk};

use routing_problem::{Device, Kind, Mode, Node};
use std::alloc::{AllocError, Global};

/// The most tracks of a class: a set of them is a number of 64 bits.
const MOST_TRACKS: u32 = 64;

/// The `count` tracks `first`, `first + step`, ..
#[derive(Clone, Copy, Debug)]
pub(crate) struct Class {
    pub(crate) first: u32,
    pub(crate) step: u32,
    pub(crate) count: u32,
}

/// How many tracks have wires of their own in a channel.
fn tracks_of(device: &Device) -> u32 {
    match device.mode() {
        Mode::Detailed => device.width(),
        Mode::Global => 1,
    }
}

/// Whether a wire of a track begins at a place of the first channel of a kind.
fn begins(device: &Device, kind: Kind, place: u32, track: u32) -> bool {
    let (x, y) = match kind {
        Kind::Chanx => (place, 0),
        _ => (0, place),
    };
    let node = Node {
        kind,
        x,
        y,
        number: track,
    };
    device.id(node).is_some()
}

/// Whether wires of two tracks begin at the same places of a channel.
fn begin_alike(device: &Device, kind: Kind, places: u32, one: u32, other: u32) -> bool {
    for before in 0..places {
        let place = before.saturating_add(1);
        if begins(device, kind, place, one) != begins(device, kind, place, other) {
            return false;
        }
    }
    true
}

/// How many places the wires of a track pass at most.
fn reach_of(device: &Device, track: u32) -> u32 {
    let first = Node {
        kind: Kind::Chanx,
        x: 1,
        y: 0,
        number: track,
    };
    match device.id(first) {
        None => 0,
        Some(id) => match device.wire(id) {
            None => 0,
            Some((_, _, reach)) => reach,
        },
    }
}

/// Whether the wires of two tracks begin at the same places in both directions, and pass as many.
fn are_alike(device: &Device, one: u32, other: u32) -> bool {
    reach_of(device, one) == reach_of(device, other)
        && begin_alike(device, Kind::Chanx, device.nx(), one, other)
        && begin_alike(device, Kind::Chany, device.ny(), one, other)
}

impl Class {
    /// Whether the track is the next of the class.
    fn takes(&self, device: &Device, track: u32) -> bool {
        let next = self
            .first
            .saturating_add(self.count.saturating_mul(self.step));
        self.count < MOST_TRACKS
            && (self.count == 1 || next == track)
            && are_alike(device, self.first, track)
    }

    /// The class with that track too.
    fn with(&self, track: u32) -> Class {
        let step = if self.count == 1 {
            track.saturating_sub(self.first)
        } else {
            self.step
        };
        Class {
            first: self.first,
            step,
            count: self.count.saturating_add(1),
        }
    }
}

/// Puts a track into the first class that takes it, else into a new one.
fn class_track(classes: &mut Vec<Class>, device: &Device, track: u32) -> Result<(), AllocError> {
    for index in 0..classes.len() {
        let class = classes[index];
        if class.takes(device, track) {
            classes[index] = class.with(track);
            return Ok(());
        }
    }
    classes.push(Class {
        first: track,
        step: 1,
        count: 1,
    })?;
    Ok(())
}

/// The classes of a device's tracks, in the order of their first tracks.
pub(crate) fn classes_of(alloc: Global, device: &Device) -> Result<Vec<Class>, AllocError> {
    let mut classes = Vec::new(alloc);
    for track in 0..tracks_of(device) {
        class_track(&mut classes, device, track)?;
    }
    Ok(classes)
}
