//! The cuts that are tried, and the best of them.

use crate::climbing::climb;
use crate::draft::Draft;
use crate::drafted::cut_of;
use crate::greedy::{give_worthy, take_back};
use crate::narrow::narrowest;
use crate::starts::{Rectangle, Starts, fit};
use crate::terminals::Terminals;
use crate::worth::Worth;
use arch_file::Pin;
use std::alloc::{AllocError, Global};
use width_bound::Cut;

/// How many of the best lines are tried with pins given up. The best with pins was never below
/// the seventh without (README.md).
const LINES: usize = 8;

/// From how many of the best lines and rectangles the search climbs. From eight it finds a lesser
/// cut of some designs (README.md).
const CLIMBS: usize = 16;

/// The best cut so far, and what it is worth.
#[derive(Drop)]
struct Best {
    cut: Cut,
    worth: Worth,
}

/// The cut of the narrowest place.
fn best_place(alloc: Global, pins: &[Pin], terminals: &Terminals) -> Result<Best, AllocError> {
    let (places, nets) = narrowest(alloc, pins, terminals)?;
    Ok(Best {
        cut: Cut::new(Vec::new(alloc), places, Vec::new(alloc)),
        worth: Worth { nets, places: 1 },
    })
}

/// Keeps the draft, if it is worth more than the best one.
fn keep_better(
    alloc: Global,
    draft: &Draft,
    best: &mut Best,
    worth: Worth,
) -> Result<(), AllocError> {
    if worth.exceeds(best.worth) {
        let cut = cut_of(alloc, draft)?;
        *best = Best { cut, worth };
    }
    Ok(())
}

/// Keeps the draft with the pins given up that are worth it, if that is the best one. No pins are
/// given up then.
fn consider(alloc: Global, draft: &mut Draft, best: &mut Best) -> Result<(), AllocError> {
    let worth = give_worthy(draft);
    keep_better(alloc, draft, best, worth)?;
    take_back(draft);
    Ok(())
}

/// Looks at lines as they are.
fn try_lines(
    alloc: Global,
    draft: &mut Draft,
    best: &mut Best,
    lines: &[Rectangle],
) -> Result<(), AllocError> {
    for line in lines {
        fit(draft, *line);
        consider(alloc, draft, best)?;
    }
    Ok(())
}

/// Looks at what is reached by climbing from regions.
fn climb_from(
    alloc: Global,
    draft: &mut Draft,
    best: &mut Best,
    starts: &[Rectangle],
) -> Result<(), AllocError> {
    for start in starts {
        fit(draft, *start);
        climb(draft);
        consider(alloc, draft, best)?;
    }
    Ok(())
}

/// Looks at lines and climbed regions.
fn improve(alloc: Global, draft: &mut Draft, best: &mut Best) -> Result<(), AllocError> {
    let starts = Starts::new(alloc, draft)?;
    let lines = starts.best_lines(alloc, LINES)?;
    try_lines(alloc, draft, best, &lines)?;
    let chosen = starts.best_of_all(alloc, CLIMBS)?;
    climb_from(alloc, draft, best, &chosen)
}

/// The best cut of those that are tried: a place, lines, and regions that grew better corner by
/// corner.
pub(crate) fn best_cut(
    alloc: Global,
    pins: &[Pin],
    terminals: &Terminals,
) -> Result<Cut, AllocError> {
    let mut best = best_place(alloc, pins, terminals)?;
    let mut draft = Draft::new(alloc, pins, terminals)?;
    improve(alloc, &mut draft, &mut best)?;
    Ok(best.cut)
}
