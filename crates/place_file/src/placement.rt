//! A placement and its look-ups.

ghost use Rattle.std.specs.Prelude.{◌≡◌, slice_get};
ghost use Rattle.place_file.specs.Placement.{IsWithinLimits};

use crate::site::Site;
use std::marker::Model;

/// A placement, as `parse` reads it. Contracts see it as the record of its size and its sites.
#[derive(Debug, Drop)]
pub struct Placement {
    pub(crate) nx: u32,
    pub(crate) ny: u32,
    pub(crate) sites: Vec<Site>,
}

impl Model for Placement {
    ghost use Rattle.place_file.specs.Placement as placement;

    ghost Value = { placement.Placement };

    ghost use Rattle.place_file.specs.kept.Fields.{placement_in};

    ghost view = { placement_in };

    ghost use Rattle.place_file.specs.Placement.{IsWithinLimits};

    ghost invariant = { λ p. IsWithinLimits (placement_in p) };
}

impl Placement {
    /// How many columns of logic blocks the array has.
    pub fn nx(&self) -> u32
        ensures entry { result ≡ self.now.nx }
        ensures limits { IsWithinLimits self.now }
    {
        self.nx
    }

    /// How many rows of logic blocks the array has.
    pub fn ny(&self) -> u32
        ensures entry { result ≡ self.now.ny }
        ensures limits { IsWithinLimits self.now }
    {
        self.ny
    }

    /// The site of block number `block`, if there is such a block.
    pub fn site(&self, block: usize) -> Option<Site>
        ensures { result ≡ slice_get self.now.sites block }
    {
        self.sites.get(block).copied()
    }
}
