//! An architecture and its look-ups.

ghost use Rattle.std.specs.Prelude.{◌≡◌, IfOk};
ghost use Rattle.arch_file.specs.Architecture.{Architecture, IsWithinLimits, class_count, class_direction, class_size};

use crate::entries::{Direction, FcType, Pin, Segment, Switch};
use std::alloc::{AllocError, Global};
use std::marker::Model;

/// The greatest number of columns of logic blocks, and of rows.
pub const LONGEST_SIDE: u32 = 100;

/// An architecture, as `parse` reads it. Contracts see it as the record of its entries.
#[derive(Drop)]
pub struct Arch {
    pub(crate) io_rat: u32,
    pub(crate) pins: Vec<Pin>,
    pub(crate) fc_type: FcType,
    pub(crate) fc_output: u64,
    pub(crate) fc_input: u64,
    pub(crate) fc_pad: u64,
    pub(crate) segments: Vec<Segment>,
    pub(crate) switches: Vec<Switch>,
}

impl Model for Arch {
    ghost use Rattle.arch_file.specs.Architecture.{Architecture, IsWithinLimits};

    ghost Value = { Architecture };

    ghost use Rattle.arch_file.specs.kept.Fields.{architecture_of};

    ghost view = { architecture_of };

    ghost invariant = { λ a. IsWithinLimits (architecture_of a) };
}

impl Arch {
    /// Pads at each place of the perimeter.
    pub fn io_rat(&self) -> u32
        ensures entry { result ≡ self.now.io_rat }
        ensures limits { IsWithinLimits self.now }
    {
        self.io_rat
    }

    /// The pins of a logic block, in the order of their lines.
    pub fn pins(&self) -> &[Pin]
        ensures entry { result.now ≡ self.now.pins }
        ensures limits { IsWithinLimits self.now }
    {
        self.pins.as_slice()
    }

    /// How many classes of pins there are; they run from 0 without gaps.
    pub fn class_count(&self) -> u32
        ensures { result ≡ class_count self.now }
    {
        let mut count = 0;
        for pin in &self.pins {
            count = count.max(pin.class + 1);
        }
        count
    }

    /// How many pins a class has.
    pub fn class_size(&self, class: u32) -> usize
        ensures { result ≡ class_size self.now class }
    {
        self.pins.iter().filter(|pin| pin.class == class).count()
    }

    /// The direction of a class: that of its first pin, and so of each, since a file that mixes
    /// them is refused. None where there is no such class.
    pub fn class_direction(&self, class: u32) -> Option<Direction>
        ensures { result ≡ class_direction self.now class }
    {
        self.pins
            .iter()
            .find(|pin| pin.class == class)
            .map(|pin| pin.direction)
    }

    /// What the three Fc values count.
    pub fn fc_type(&self) -> FcType
        ensures { result ≡ self.now.fc_type }
    {
        self.fc_type
    }

    /// Fc of a logic block's output pins, in units of 10^-9.
    pub fn fc_output(&self) -> u64
        ensures { result ≡ self.now.fc_output }
    {
        self.fc_output
    }

    /// Fc of a logic block's input pins, in units of 10^-9.
    pub fn fc_input(&self) -> u64
        ensures { result ≡ self.now.fc_input }
    {
        self.fc_input
    }

    /// Fc of a pad, in units of 10^-9.
    pub fn fc_pad(&self) -> u64
        ensures { result ≡ self.now.fc_pad }
    {
        self.fc_pad
    }

    /// The types of wire, in the order of their lines.
    pub fn segments(&self) -> &[Segment]
        ensures entry { result.now ≡ self.now.segments }
        ensures limits { IsWithinLimits self.now }
    {
        self.segments.as_slice()
    }

    /// The switches, in the order of their lines.
    pub fn switches(&self) -> &[Switch]
        ensures { result.now ≡ self.now.switches }
    {
        self.switches.as_slice()
    }

    /// A copy of this architecture.
    pub fn copy(&self, alloc: Global) -> Result<Arch, AllocError>
        ensures copy { IfOk result (λ a. a ≡ self.now) }
        ensures limits { IfOk result IsWithinLimits }
    {
        Ok(Arch {
            io_rat: self.io_rat,
            pins: Vec::from_slice(alloc, &self.pins)?,
            fc_type: self.fc_type,
            fc_output: self.fc_output,
            fc_input: self.fc_input,
            fc_pad: self.fc_pad,
            segments: Vec::from_slice(alloc, &self.segments)?,
            switches: Vec::from_slice(alloc, &self.switches)?,
        })
    }
}
