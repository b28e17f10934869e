//! The pins of logic blocks and pads, their classes, and the tracks that they tap.

ghost use Rattle.std.specs.Prelude.{◌≡◌, ◌+◌, ◌-◌, ◌%◌, ◌==◌, ◌≤◌, ◌<◌, slice_get, vec_len, IfOk};
ghost use Rattle.std.specs.List.{list_any};
ghost use Rattle.arch_file.specs.Architecture.{most_pins};
ghost use Rattle.channel_tables.specs.Wires.{runs_through};
ghost use Rattle.channel_tables.specs.LastPlaces.{last_by};
ghost use Rattle.channel_tables.specs.Pins.{has_direction, classes_of, pins_of, tap_count, tracks_by, fc_at, channels_of_pin, channel_of_pad, channels_beside, is_marked_global, has_class, taps, belongs, IsTapCounts};
ghost use Rattle.channel_tables.specs.Fabric.{most_tracks};

use crate::layout::Layout;
use crate::node::{Kind, Mode, Node};
use crate::tap_counts::TapCounts;
use arch_file::{Direction, FcType, Pin};
use std::alloc::{AllocError, Global};

/// Whether the pin has a dedicated network.
pub(crate) fn is_marked_global(pin: Option<Pin>) -> bool
    ensures { result ≡ is_marked_global pin }
{
    match pin {
        None => false,
        Some(pin) => pin.global,
    }
}

/// Whether the pin is of the class.
pub fn has_class(pin: Option<Pin>, class: u32) -> bool
    ensures { result ≡ has_class pin class }
{
    match pin {
        None => false,
        Some(pin) => pin.class == class,
    }
}

/// How many tracks a track lies after the first track of pin `number`, where track 0 comes after
/// the last.
#[tactic(auto, using(crate::proofs::Taps::steps_ahead, crate::proofs::Taps::steps_around))]
fn steps_on(width: u32, number: u32, track: u32) -> u32
    requires wide { 1 ≤ width }
    requires narrow { width ≤ most_tracks }
    requires within { track < width }
    ensures steps { result ≡ (track + width - number % width) % width }
    ensures few { result < width }
{
    let first = if number < width {
        number
    } else {
        number % width
    };
    if first <= track {
        track - first
    } else {
        track + width - first
    }
}

/// Whether pin `number` taps the track of a detailed device, where it taps `count` of `width`
/// tracks. Its tap `i` lies `i * width / count` tracks on from the first one: only the first tap
/// that is as far on as the track can be on it.
fn is_tapped(width: u32, count: u32, number: u32, track: u32) -> bool
    requires wide { 1 ≤ width }
    requires narrow { width ≤ most_tracks }
    requires some { 1 ≤ count }
    requires few { count ≤ most_tracks }
    ensures { result ≡ list_any (λ t. t == track) (tracks_by Mode.Detailed count width number) }
{
    if track >= width {
        return false;
    }
    let steps = steps_on(width, number, track);
    let tap = (steps * count + width - 1) / width;
    tap < count && tap * width < (steps + 1) * count
}

/// Whether the direction found is the one wanted.
fn has_direction(wanted: Direction, found: Option<Direction>) -> bool
    ensures { result ≡ has_direction wanted found }
{
    match found {
        None => false,
        Some(found) => match (wanted, found) {
            (Direction::Input, Direction::Input) => true,
            (Direction::Output, Direction::Output) => true,
            (Direction::Input, Direction::Output) => false,
            (Direction::Output, Direction::Input) => false,
        },
    }
}

impl Layout {
    /// The pin of a block by its number.
    pub fn pin(&self, number: u32) -> Option<Pin>
        ensures { result ≡ slice_get self.now.architecture.pins number }
    {
        self.arch.pins().get(number as usize).copied()
    }

    /// How many tracks of each channel a pin taps.
    pub(crate) fn tap_count(&self, fc: u64) -> u32
        ensures count { result ≡ tap_count self.now.architecture.fc_type fc self.now.width }
        ensures some { 1 ≤ result }
        ensures few { result ≤ most_tracks }
    {
        let tracks = match self.arch.fc_type() {
            FcType::Absolute => u128::from(fc),
            FcType::Fractional => u128::from(fc) * u128::from(self.width),
        };
        let rounded = (tracks + 500_000_000) / 1_000_000_000;
        let count = 1u128.max(u128::from(self.width).min(rounded));
        count as u32
    }

    /// Whether pin `number` taps the track, where it taps `count` tracks.
    pub fn taps_by_count(&self, count: u32, number: u32, track: u32) -> bool
        requires some { 1 ≤ count }
        requires few { count ≤ most_tracks }
        ensures { result ≡ list_any (λ t. t == track)
            (tracks_by self.now.mode count self.now.width number) }
    {
        match self.mode() {
            Mode::Global => track == 0,
            Mode::Detailed => is_tapped(self.width(), count, number, track),
        }
    }

    /// How many tracks a pin of each kind taps.
    pub(crate) fn tap_counts(&self) -> TapCounts
        ensures { IsTapCounts self.now result }
    {
        TapCounts {
            output: self.tap_count(self.arch.fc_output()),
            input: self.tap_count(self.arch.fc_input()),
            pad: self.tap_count(self.arch.fc_pad()),
        }
    }

    /// How many tracks a node of kind Opin or Ipin taps.
    fn count_at(&self, counts: TapCounts, pin: Node) -> u32
        requires { IsTapCounts self.now counts }
        ensures count { result ≡ tap_count self.now.architecture.fc_type
            (fc_at self.now pin) self.now.width }
        ensures some { 1 ≤ result }
        ensures few { result ≤ most_tracks }
    {
        if self.is_block(pin.x, pin.y) {
            match pin.kind {
                Kind::Opin => counts.output,
                _ => counts.input,
            }
        } else {
            counts.pad
        }
    }

    /// Whether the wire runs beside a side where the pin of the block at (x, y) is reached; `last`
    /// is the wire's last place.
    fn is_beside_block(&self, pin: Option<Pin>, x: u32, y: u32, wire: Node, last: u32) -> bool
        requires { last ≡ last_by wire.kind self.now wire }
        ensures { result ≡ list_any (runs_through self.now wire) (channels_of_pin pin x y) }
    {
        match pin {
            None => false,
            Some(pin) => {
                (pin.sides.top && self.runs_through(wire, last, Kind::Chanx, x, y))
                    || (pin.sides.bottom
                        && self.runs_through(wire, last, Kind::Chanx, x, y.saturating_sub(1)))
                    || (pin.sides.right && self.runs_through(wire, last, Kind::Chany, x, y))
                    || (pin.sides.left
                        && self.runs_through(wire, last, Kind::Chany, x.saturating_sub(1), y))
            }
        }
    }

    /// Whether the wire runs beside the pad at (x, y); `last` is the wire's last place.
    fn is_beside_pad(&self, x: u32, y: u32, wire: Node, last: u32) -> bool
        requires { last ≡ last_by wire.kind self.now wire }
        ensures { result ≡ runs_through self.now wire (channel_of_pad self.now x y) }
    {
        if x == 0 {
            self.runs_through(wire, last, Kind::Chany, 0, y)
        } else if x == self.nx + 1 {
            self.runs_through(wire, last, Kind::Chany, self.nx, y)
        } else if y == 0 {
            self.runs_through(wire, last, Kind::Chanx, x, 0)
        } else {
            self.runs_through(wire, last, Kind::Chanx, x, self.ny)
        }
    }

    /// Whether the wire runs beside the pin; `last` is the wire's last place.
    #[tactic(auto, unfolding(crate::specs::Pins::channels_beside))]
    fn is_beside(&self, pin: Node, wire: Node, last: u32) -> bool
        requires { last ≡ last_by wire.kind self.now wire }
        ensures { result ≡ list_any (runs_through self.now wire) (channels_beside self.now pin) }
    {
        if self.is_block(pin.x, pin.y) {
            self.is_beside_block(self.pin(pin.number), pin.x, pin.y, wire, last)
        } else {
            self.is_beside_pad(pin.x, pin.y, wire, last)
        }
    }

    /// Whether the pin, a node of kind Opin or Ipin, taps the wire; `last` is the wire's last
    /// place.
    #[inline(always)]
    #[tactic(auto, unfolding(crate::specs::Pins::taps, crate::specs::Pins::tapped_tracks))]
    pub fn taps(&self, counts: TapCounts, pin: Node, wire: Node, last: u32) -> bool
        requires counts { IsTapCounts self.now counts }
        requires last { last ≡ last_by wire.kind self.now wire }
        ensures { result ≡ taps self.now pin wire }
    {
        let is_global = self.is_block(pin.x, pin.y) && is_marked_global(self.pin(pin.number));
        !is_global
            && (self.is_beside(pin, wire, last)
                && self.taps_by_count(self.count_at(counts, pin), pin.number, wire.number))
    }

    /// Whether the pin is of the terminal, a node of kind Source or Sink.
    #[tactic(auto, unfolding(crate::specs::Pins::belongs))]
    pub fn belongs(&self, pin: Node, terminal: Node) -> bool
        ensures { result ≡ belongs self.now pin terminal }
    {
        (pin.x == terminal.x && pin.y == terminal.y)
            && (if self.is_block(pin.x, pin.y) {
                has_class(self.pin(pin.number), terminal.number)
            } else {
                pin.number == terminal.number
            })
    }
}

impl Layout {
    /// The classes of a direction, ascending.
    #[tactic(auto, using(crate::proofs::Ranges::kept_next, crate::proofs::Ranges::skipped_next), unfolding(crate::specs::Pins::classes_of))]
    pub fn classes_by(&self, alloc: Global, direction: Direction) -> Result<Vec<u32>, AllocError>
        ensures { IfOk result (λ v. v.items ≡ classes_of self.now.architecture direction) }
    {
        let mut classes = Vec::new(alloc);
        for class in 0..self.arch.class_count() {
            if has_direction(direction, self.arch.class_direction(class)) {
                classes.push(class)?;
            }
        }
        Ok(classes)
    }

    /// The pins of a direction, ascending.
    #[tactic(auto, using(crate::proofs::Ranges::kept_next, crate::proofs::Ranges::skipped_next), unfolding(crate::specs::Pins::pins_of))]
    pub fn pins_by(&self, alloc: Global, direction: Direction) -> Result<Vec<u32>, AllocError>
        ensures pins { IfOk result (λ v. v.items ≡ pins_of self.now.architecture direction) }
        ensures few { IfOk result (λ v. vec_len v ≤ most_pins) }
    {
        let mut pins = Vec::new(alloc);
        for number in 0..self.arch.pins().len() as u32 {
            if has_direction(direction, self.pin(number).map(|pin| pin.direction)) {
                pins.push(number)?;
            }
        }
        Ok(pins)
    }
}
