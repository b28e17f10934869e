//! The widths that a run of `width` tries.

/// The widths that a run of `width` tries.
#[derive(Clone, Copy, Debug)]
pub enum WidthPlan {
    /// Those of a search that doubles the width until one is routed, and then halves the gap.
    Search {
        /// The first width, from 1 to 256.
        start: u32,
        /// How many widths below the least of the search are tried after it. If some of them are
        /// routed, the least of these counts.
        below: u32,
        /// Whether words report at the end below which width there is no routing, and which widths
        /// from there up to the least were not tried.
        shows_bound: bool,
    },
    /// Each width upward until one is routed. The first is the width below which there is no
    /// routing, or the start if that is greater.
    Upward {
        /// The start, from 1 to 256.
        start: u32,
    },
}
