//! How many tracks pins tap.

ghost use Rattle.std.specs.Prelude.{◌≤◌};
ghost use Rattle.channel_tables.specs.Fabric.{most_tracks};

/// How many tracks of each channel a pin without a dedicated network taps.
#[derive(Clone, Copy, Debug)]
pub struct TapCounts {
    /// An output pin of a block.
    pub output: u32,
    /// An input pin of a block.
    pub input: u32,
    /// A pin of a pad.
    pub pad: u32,
    ghost some: { (1 ≤ output) × (1 ≤ input) × (1 ≤ pad) },
    ghost few: { (output ≤ most_tracks) × (input ≤ most_tracks) × (pad ≤ most_tracks) },
}
