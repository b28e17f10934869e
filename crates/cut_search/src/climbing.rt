//! Regions that grow better corner by corner.

use crate::draft::Draft;

/// How often all corners are tried, at most. Three or four times are usually enough.
const MOST_PASSES: u32 = 64;

/// Flips a corner, and flips it back if that isn't worth more. Returns whether it stays flipped.
fn try_corner(draft: &mut Draft, x: u32, y: u32) -> bool {
    let before = draft.worth();
    draft.flip(x, y);
    let is_better = draft.worth().exceeds(before);
    if !is_better {
        draft.flip(x, y);
    }
    is_better
}

/// Tries both ends of a place, while it is of the border. Returns whether one stays flipped.
fn try_place(draft: &mut Draft, low: (u32, u32), high: (u32, u32)) -> bool {
    let is_low = draft.region.parts(low, high) && try_corner(draft, low.0, low.1);
    let is_high = draft.region.parts(low, high) && try_corner(draft, high.0, high.1);
    is_low || is_high
}

/// Tries the places that lead to a corner from the left and from below.
fn try_places(draft: &mut Draft, x: u32, y: u32) -> bool {
    let is_left = try_place(draft, (x.saturating_sub(1), y), (x, y));
    let is_below = try_place(draft, (x, y.saturating_sub(1)), (x, y));
    is_left || is_below
}

/// Tries the places that lead to the corners of a column.
fn try_column(draft: &mut Draft, x: u32) -> bool {
    let mut is_changed = false;
    for y in 0..draft.region.extent().rows {
        is_changed = try_places(draft, x, y) || is_changed;
    }
    is_changed
}

/// Tries all places once.
fn try_all(draft: &mut Draft) -> bool {
    let mut is_changed = false;
    for x in 0..draft.region.extent().columns {
        is_changed = try_column(draft, x) || is_changed;
    }
    is_changed
}

/// Flips corners at the border as long as nets grow more than places.
pub(crate) fn climb(draft: &mut Draft) {
    for _pass in 0..MOST_PASSES {
        if !try_all(draft) {
            return;
        }
    }
}
