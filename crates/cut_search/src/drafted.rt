//! The cut of a draft.

use crate::draft::Draft;
use crate::masks::pin_mask;
use crate::terminals::Terminal;
use rr_graph::{Kind, Node};
use std::alloc::{AllocError, Global};
use width_bound::Cut;

/// Adds the corners of a column.
fn push_corners(corners: &mut Vec<(u32, u32)>, draft: &Draft, x: u32) -> Result<(), AllocError> {
    for y in 0..draft.region.extent().rows {
        if draft.region.has(x, y) {
            corners.push((x, y))?;
        }
    }
    Ok(())
}

/// The corners of a draft's region.
fn corners_of(alloc: Global, draft: &Draft) -> Result<Vec<(u32, u32)>, AllocError> {
    let mut corners = Vec::new(alloc);
    for x in 0..draft.region.extent().columns {
        push_corners(&mut corners, draft, x)?;
    }
    Ok(corners)
}

/// Adds the pins of a terminal that are given up, on these sides.
fn push_pins(
    pins: &mut Vec<Node>,
    draft: &Draft,
    terminal: Terminal,
    sides: u8,
) -> Result<(), AllocError> {
    let around = draft.around(terminal);
    let kind = if terminal.is_source {
        Kind::Opin
    } else {
        Kind::Ipin
    };
    let mut number: u32 = 0;
    for pin in draft.pins {
        if terminal.class == Some(pin.class) && pin_mask(around, pin) & sides != 0 {
            pins.push(Node {
                kind,
                x: terminal.x,
                y: terminal.y,
                number,
            })?;
        }
        number = number.saturating_add(1);
    }
    Ok(())
}

/// Adds the pins that the terminal of this index gives up.
fn push_given(pins: &mut Vec<Node>, draft: &Draft, at: usize) -> Result<(), AllocError> {
    match draft.terminals.get(at) {
        Some(terminal) => push_pins(pins, draft, terminal, draft.given_up(at)),
        None => Ok(()),
    }
}

/// The pins that a draft gives up.
fn pins_of(alloc: Global, draft: &Draft) -> Result<Vec<Node>, AllocError> {
    let mut pins = Vec::new(alloc);
    for at in 0..draft.terminals.all().len() {
        if draft.given_up(at) != 0 {
            push_given(&mut pins, draft, at)?;
        }
    }
    Ok(pins)
}

/// The cut of a draft.
pub(crate) fn cut_of(alloc: Global, draft: &Draft) -> Result<Cut, AllocError> {
    let corners = corners_of(alloc, draft)?;
    let pins = pins_of(alloc, draft)?;
    Ok(Cut::new(corners, Vec::new(alloc), pins))
}
