//! How many places the wires of each track pass at most, in a table that is made once.

ghost use Rattle.std.specs.Prelude.{◌≡◌, ◌<◌, IfOk};
ghost use Rattle.channel_tables.specs.Wires.{tracks_in, reach_of};
ghost use Rattle.channel_tables.specs.kept.Tables.{AreReaches};

use crate::layout::Layout;
use crate::tables::ChannelTables;
use std::alloc::{AllocError, Global};

impl Layout {
    /// How many places the wires of a track pass at most, in either direction.
    #[tactic(auto, unfolding(crate::specs::Wires::reach_of))]
    fn reach_of(&self, track: u32) -> u32
        ensures { result ≡ reach_of self.now track }
    {
        let above = self.length_of(self.nx(), track);
        above.max(self.length_of(self.ny(), track))
    }

    /// How many places the wires of each track pass at most.
    #[tactic(auto, using(crate::proofs::Ranges::mapped_next))]
    pub(crate) fn reaches(&self, alloc: Global) -> Result<Vec<u32>, AllocError>
        ensures { IfOk result (λ v. AreReaches self.now v.items) }
    {
        let mut reaches = Vec::with_capacity(alloc, self.tracks() as usize)?;
        for track in 0..self.tracks() {
            reaches.push(self.reach_of(track))?;
        }
        Ok(reaches)
    }
}

impl ChannelTables {
    /// How many places the wires of a track pass at most.
    #[inline(always)]
    #[tactic(auto, using(crate::proofs::Ranges::length_below, crate::proofs::Ranges::get_below))]
    pub fn reach_of(&self, track: u32) -> u32
        requires { track < tracks_in self.now.mode self.now.width }
        ensures { result ≡ reach_of self.now track }
    {
        let reaches: &[u32] = &self.reaches;
        reaches[track as usize]
    }
}
