//! Which pins are worth giving up: of each terminal at the border those that reach some sides.

use crate::draft::{Draft, Lacks};
use crate::masks::{Around, INNER, OUTER, count_pins, is_astride, pin_mask};
use crate::terminals::Terminal;
use crate::worth::Worth;
use arch_file::Pin;

/// Whether some sink lacks a pin on the sides that a pin of the source reaches.
fn is_parted(lacks: Lacks, mask: u8) -> bool {
    match mask {
        INNER => lacks.inner > 0,
        OUTER => lacks.outer > 0,
        0 => true,
        _ => lacks.any > 0,
    }
}

/// Whether each pin of a class is given up, or parted from some sink.
fn is_class_parted(pins: &[Pin], class: u32, around: Around, given_up: u8, lacks: Lacks) -> bool {
    let mut parted = true;
    for pin in pins {
        if pin.class == class {
            let mask = pin_mask(around, pin);
            parted = parted && (mask & given_up != 0 || is_parted(lacks, mask));
        }
    }
    parted
}

/// Whether a net from the source of this index is cut.
fn is_cut_from(draft: &Draft, at: usize, source: Terminal, net: u32) -> bool {
    let around = draft.around(source);
    let lacks = draft.lacks(net);
    match source.class {
        Some(class) => is_class_parted(draft.pins, class, around, draft.given_up(at), lacks),
        None => is_parted(lacks, around.top),
    }
}

/// Whether a net is cut.
fn is_cut(draft: &Draft, net: u32) -> bool {
    let at = draft.terminals.source_of(net);
    match draft.terminals.get(at) {
        Some(source) => is_cut_from(draft, at, source, net),
        None => false,
    }
}

/// How many nets of a terminal are cut.
fn cut_at(draft: &Draft, terminal: Terminal) -> u32 {
    let mut count: u32 = 0;
    for net in draft.terminals.nets_of(terminal) {
        count = count.saturating_add(u32::from(is_cut(draft, *net)));
    }
    count
}

/// How many nets are cut.
fn cut_nets(draft: &Draft) -> u32 {
    let mut count: u32 = 0;
    for net in 0..draft.terminals.net_count() {
        count = count.saturating_add(u32::from(is_cut(draft, net)));
    }
    count
}

/// How many pins of a terminal reach one of these sides.
fn pins_on(draft: &Draft, terminal: Terminal, sides: u8) -> u32 {
    match terminal.class {
        Some(class) => count_pins(draft.pins, draft.around(terminal), class, sides),
        None => 0,
    }
}

/// How many pins of the terminal of this index are given up.
fn pins_given_at(draft: &Draft, at: usize) -> u32 {
    let sides = draft.given_up(at);
    match (sides, draft.terminals.get(at)) {
        (0, _) | (_, None) => 0,
        (_, Some(terminal)) => pins_on(draft, terminal, sides),
    }
}

/// How many pins are given up.
fn pins_given(draft: &Draft) -> u32 {
    let mut count: u32 = 0;
    for at in 0..draft.terminals.all().len() {
        count = count.saturating_add(pins_given_at(draft, at));
    }
    count
}

/// By how many nets more than pins it pays to give up the pins of a terminal on these sides, if
/// this many of its nets are cut before.
fn gain(draft: &mut Draft, at: usize, terminal: Terminal, before: u32, sides: u8) -> u32 {
    draft.give(at, sides);
    let after = cut_at(draft, terminal);
    draft.give(at, 0);
    after
        .saturating_sub(before)
        .saturating_sub(pins_on(draft, terminal, sides))
}

/// The best of three, each by its sides; none if all are 0.
fn best_of(inner: u32, outer: u32, both: u32) -> u8 {
    if inner == 0 && outer == 0 && both == 0 {
        0
    } else if inner >= outer && inner >= both {
        INNER
    } else if outer >= both {
        OUTER
    } else {
        INNER | OUTER
    }
}

/// Gives up the pins of a terminal that are worth it.
fn give_best(draft: &mut Draft, at: usize, terminal: Terminal) {
    let before = cut_at(draft, terminal);
    let inner = gain(draft, at, terminal, before, INNER);
    let outer = gain(draft, at, terminal, before, OUTER);
    let both = gain(draft, at, terminal, before, INNER | OUTER);
    let sides = best_of(inner, outer, both);
    if sides != 0 {
        draft.give(at, sides);
    }
}

/// Gives up the pins of the terminal of this index that are worth it, if it is a source or a sink
/// as asked.
fn give_at(draft: &mut Draft, at: usize, is_source: bool) {
    if let Some(terminal) = draft.terminals.get(at) {
        if terminal.is_source == is_source
            && is_astride(draft.pins, draft.around(terminal), terminal.class)
        {
            give_best(draft, at, terminal);
        }
    }
}

/// Gives up the pins of the sources that are worth it, or of the sinks, one terminal after another.
fn give_all(draft: &mut Draft, is_source: bool) {
    for at in 0..draft.terminals.all().len() {
        give_at(draft, at, is_source);
    }
}

/// Gives up the pins that are worth it, first those of sources and then those of sinks. Returns the
/// nets that are cut then, less these pins, for the places.
pub(crate) fn give_worthy(draft: &mut Draft) -> Worth {
    give_all(draft, true);
    give_all(draft, false);
    Worth {
        nets: cut_nets(draft).saturating_sub(pins_given(draft)),
        places: draft.region.places(),
    }
}

/// Takes all pins back.
pub(crate) fn take_back(draft: &mut Draft) {
    for at in 0..draft.terminals.all().len() {
        if draft.given_up(at) != 0 {
            draft.give(at, 0);
        }
    }
}
