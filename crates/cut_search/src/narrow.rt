//! The place of a channel at which most nets have a terminal that no other place reaches.

use crate::terminals::{Terminal, Terminals};
use arch_file::{Pin, Sides};
use rr_graph::Kind;
use std::alloc::{AllocError, Global};

/// A place of a channel, above a row or right of a column.
pub(crate) type Spot = (u32, u32, u32);

const ABOVE: u32 = 0;

const RIGHT: u32 = 1;

/// The sides on which the pins of a class are reached.
fn sides_of_class(pins: &[Pin], class: u32) -> Sides {
    let mut sides = Sides {
        top: false,
        bottom: false,
        left: false,
        right: false,
    };
    for pin in pins {
        let counts = pin.class == class && !pin.global;
        sides = Sides {
            top: sides.top || (counts && pin.sides.top),
            bottom: sides.bottom || (counts && pin.sides.bottom),
            left: sides.left || (counts && pin.sides.left),
            right: sides.right || (counts && pin.sides.right),
        };
    }
    sides
}

/// The one place on these sides of the block at (x, y), if there is one alone.
fn spot_of_sides(sides: Sides, x: u32, y: u32) -> Option<Spot> {
    match (sides.top, sides.bottom, sides.left, sides.right) {
        (true, false, false, false) => Some((ABOVE, x, y)),
        (false, true, false, false) => Some((ABOVE, x, y.saturating_sub(1))),
        (false, false, true, false) => Some((RIGHT, x.saturating_sub(1), y)),
        (false, false, false, true) => Some((RIGHT, x, y)),
        _ => None,
    }
}

/// The place of the pads at (x, y).
fn spot_of_pad(terminals: &Terminals, x: u32, y: u32) -> Spot {
    if x == 0 {
        (RIGHT, 0, y)
    } else if x > terminals.nx() {
        (RIGHT, terminals.nx(), y)
    } else if y == 0 {
        (ABOVE, x, 0)
    } else {
        (ABOVE, x, terminals.ny())
    }
}

/// The one place that reaches a terminal, if there is one alone.
fn spot_of(pins: &[Pin], terminals: &Terminals, terminal: Terminal) -> Option<Spot> {
    match terminal.class {
        Some(class) => spot_of_sides(sides_of_class(pins, class), terminal.x, terminal.y),
        None => Some(spot_of_pad(terminals, terminal.x, terminal.y)),
    }
}

/// Adds the place with each of these nets.
fn push_nets(spots: &mut Vec<(Spot, u32)>, spot: Spot, nets: &[u32]) -> Result<(), AllocError> {
    for net in nets {
        spots.push((spot, *net))?;
    }
    Ok(())
}

/// The places that are the only ones of terminals, with their nets, in order.
fn spots_of(
    alloc: Global,
    pins: &[Pin],
    terminals: &Terminals,
) -> Result<Vec<(Spot, u32)>, AllocError> {
    let mut spots = Vec::new(alloc);
    for terminal in terminals.all() {
        if let Some(spot) = spot_of(pins, terminals, *terminal) {
            push_nets(&mut spots, spot, terminals.nets_of(*terminal))?;
        }
    }
    spots.sort()?;
    Ok(spots)
}

/// The place with most nets, each counted once, of places and nets in order; and how many it has.
fn most_common(spots: &[(Spot, u32)]) -> (Option<Spot>, u32) {
    let mut best = None;
    let mut most: u32 = 0;
    let mut count: u32 = 0;
    let mut last: Option<(Spot, u32)> = None;
    for entry in spots {
        let is_again = last == Some(*entry);
        let is_there = match last {
            Some(before) => before.0 == entry.0,
            None => false,
        };
        count = match (is_again, is_there) {
            (true, _) => count,
            (false, true) => count.saturating_add(1),
            (false, false) => 1,
        };
        if count > most {
            most = count;
            best = Some(entry.0);
        }
        last = Some(*entry);
    }
    (best, most)
}

/// The place at which most nets have a terminal that no other place reaches, as that of a cut; and
/// how many nets these are.
pub(crate) fn narrowest(
    alloc: Global,
    pins: &[Pin],
    terminals: &Terminals,
) -> Result<(Vec<(Kind, u32, u32)>, u32), AllocError> {
    let spots = spots_of(alloc, pins, terminals)?;
    let (spot, most) = most_common(spots.as_slice());
    let mut places = Vec::new(alloc);
    if let Some(spot) = spot {
        let kind = if spot.0 == ABOVE {
            Kind::Chanx
        } else {
            Kind::Chany
        };
        places.push((kind, spot.1, spot.2))?;
    }
    Ok((places, most))
}
