//! On which sides of a region's border pins are reached: a bit for the inner side, one for the
//! outer.

use arch_file::Pin;

/// The bit of the inner side.
pub(crate) const INNER: u8 = 1;

/// The bit of the outer side.
pub(crate) const OUTER: u8 = 2;

/// The sides of the four places around a block. Around pads it is four times the side of their one
/// place.
#[derive(Clone, Copy, Debug)]
pub(crate) struct Around {
    pub(crate) top: u8,
    pub(crate) bottom: u8,
    pub(crate) left: u8,
    pub(crate) right: u8,
}

/// How many output pins of a source reach the inner side alone, the outer side alone, and both.
#[derive(Clone, Copy, Debug)]
pub(crate) struct Outlets {
    pub(crate) inner: u32,
    pub(crate) outer: u32,
    pub(crate) both: u32,
}

/// The mask if the test holds, else none.
fn when(test: bool, mask: u8) -> u8 {
    if test { mask } else { 0 }
}

/// The sides on which a pin of a block is reached.
pub(crate) fn pin_mask(around: Around, pin: &Pin) -> u8 {
    if pin.global {
        return 0;
    }
    when(pin.sides.top, around.top)
        | when(pin.sides.bottom, around.bottom)
        | when(pin.sides.left, around.left)
        | when(pin.sides.right, around.right)
}

/// The sides on which the pins of a class are reached, together, but for the pins with one of the
/// given sides.
fn class_mask(pins: &[Pin], around: Around, class: u32, given_up: u8) -> u8 {
    let mut mask = 0;
    for pin in pins {
        if pin.class == class {
            let sides = pin_mask(around, pin);
            mask |= when(sides & given_up == 0, sides);
        }
    }
    mask
}

/// The sides on which the pins of a terminal are reached, together, but for the pins with one of
/// the given sides. A pad has no class.
pub(crate) fn terminal_mask(pins: &[Pin], around: Around, class: Option<u32>, given_up: u8) -> u8 {
    match class {
        Some(class) => class_mask(pins, around, class, given_up),
        None => around.top,
    }
}

/// The outlets with one pin more, which has these sides.
fn with_outlet(outlets: Outlets, mask: u8) -> Outlets {
    let Outlets { inner, outer, both } = outlets;
    Outlets {
        inner: inner.saturating_add(u32::from(mask == INNER)),
        outer: outer.saturating_add(u32::from(mask == OUTER)),
        both: both.saturating_add(u32::from(mask == INNER | OUTER)),
    }
}

/// The pins of a source by the sides that they reach.
pub(crate) fn outlets_of(pins: &[Pin], around: Around, class: Option<u32>) -> Outlets {
    let mut outlets = Outlets {
        inner: 0,
        outer: 0,
        both: 0,
    };
    match class {
        Some(class) => {
            for pin in pins {
                if pin.class == class {
                    outlets = with_outlet(outlets, pin_mask(around, pin));
                }
            }
            outlets
        }
        None => with_outlet(outlets, around.top),
    }
}

/// How many pins of a class reach one of these sides.
pub(crate) fn count_pins(pins: &[Pin], around: Around, class: u32, sides: u8) -> u32 {
    let mut count: u32 = 0;
    for pin in pins {
        let counts = pin.class == class && pin_mask(around, pin) & sides != 0;
        count = count.saturating_add(u32::from(counts));
    }
    count
}

/// Whether the pins of a class are reached otherwise than all on one same side alone.
fn is_class_astride(pins: &[Pin], around: Around, class: u32) -> bool {
    let mut inner = true;
    let mut outer = true;
    for pin in pins {
        if pin.class == class {
            let sides = pin_mask(around, pin);
            inner = inner && sides == INNER;
            outer = outer && sides == OUTER;
        }
    }
    !inner && !outer
}

/// Whether the pins of a block's terminal are reached otherwise than all on one same side alone.
pub(crate) fn is_astride(pins: &[Pin], around: Around, class: Option<u32>) -> bool {
    match class {
        Some(class) => is_class_astride(pins, around, class),
        None => false,
    }
}
