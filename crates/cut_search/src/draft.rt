//! A cut that is being drafted: a region, pins that are given up, and how many nets are cut.

use crate::masks::{Around, INNER, OUTER, Outlets, outlets_of, terminal_mask};
use crate::region::Region;
use crate::terminals::{Terminal, Terminals};
use crate::worth::Worth;
use arch_file::Pin;
use std::alloc::{AllocError, Global};

/// What a draft keeps for a terminal.
#[derive(Clone, Copy, Debug)]
pub(crate) struct Seen {
    /// The sides that the pins left to a sink reach.
    mask: u8,
    /// The sides whose pins are given up.
    pub(crate) given_up: u8,
    /// The pins of a source by their sides.
    outlets: Outlets,
    /// What a source adds to the nets of the draft.
    share: u32,
}

/// How many sinks of a net have no pin on the inner side, on the outer one, on either.
#[derive(Clone, Copy, Debug)]
pub(crate) struct Lacks {
    pub(crate) inner: u32,
    pub(crate) outer: u32,
    pub(crate) any: u32,
}

/// How many nets of a source can leave it by pins of the inner side alone, by those of the outer
/// side alone, by pins of either side, only by pins that reach both sides, and by none.
#[derive(Clone, Copy, Debug)]
struct Exits {
    inner: u32,
    outer: u32,
    either: u32,
    both: u32,
    none: u32,
}

/// A cut that is being drafted.
#[derive(Drop)]
pub(crate) struct Draft<'a> {
    pub(crate) pins: &'a [Pin],
    pub(crate) terminals: &'a Terminals,
    pub(crate) region: Region,
    seen: Vec<Seen>,
    lacks: Vec<Lacks>,
    /// The shares of all sources.
    nets: u32,
}

/// How many lack something, after one of them began or ceased to lack it.
fn counted(count: u32, lacked: bool, lacks: bool) -> u32 {
    match (lacked, lacks) {
        (true, false) => count.saturating_sub(1),
        (false, true) => count.saturating_add(1),
        _ => count,
    }
}

/// The lacks of a net, after a sink's mask changed.
fn lacks_after(lacks: Lacks, before: u8, after: u8) -> Lacks {
    Lacks {
        inner: counted(lacks.inner, before & INNER == 0, after & INNER == 0),
        outer: counted(lacks.outer, before & OUTER == 0, after & OUTER == 0),
        any: counted(lacks.any, before == 0, after == 0),
    }
}

/// The exits with those of one more net.
fn with_net(mut exits: Exits, lacks: Lacks) -> Exits {
    match (lacks.inner == 0, lacks.outer == 0, lacks.any == 0) {
        (true, true, _) => exits.either = exits.either.saturating_add(1),
        (true, false, _) => exits.inner = exits.inner.saturating_add(1),
        (false, true, _) => exits.outer = exits.outer.saturating_add(1),
        (false, false, true) => exits.both = exits.both.saturating_add(1),
        (false, false, false) => exits.none = exits.none.saturating_add(1),
    }
    exits
}

/// How many nets of a source are cut, less the pins that are given up for it, at best. A net that
/// isn't cut leaves by a pin of its own, on a side that all its sinks have. If nets share too few
/// such pins, the others are cut; or the pins are given up, and all of the nets are cut: less the
/// pins, that is the same number.
fn share_of(outlets: Outlets, exits: Exits) -> u32 {
    let inner = outlets.inner.saturating_add(outlets.both);
    let outer = outlets.outer.saturating_add(outlets.both);
    let all = inner.saturating_add(outlets.outer);
    let to_inner = exits.inner.saturating_add(exits.both);
    let to_outer = exits.outer.saturating_add(exits.both);
    let to_all = to_inner
        .saturating_add(exits.outer)
        .saturating_add(exits.either);
    exits
        .both
        .saturating_sub(outlets.both)
        .max(to_inner.saturating_sub(inner))
        .max(to_outer.saturating_sub(outer))
        .max(to_all.saturating_sub(all))
        .saturating_add(exits.none)
}

impl<'a> Draft<'a> {
    /// No region yet and no pins given up.
    pub(crate) fn new(
        alloc: Global,
        pins: &'a [Pin],
        terminals: &'a Terminals,
    ) -> Result<Draft<'a>, AllocError> {
        let unseen = Seen {
            mask: INNER | OUTER,
            given_up: 0,
            outlets: Outlets {
                inner: 0,
                outer: 0,
                both: 0,
            },
            share: 0,
        };
        let none = Lacks {
            inner: 0,
            outer: 0,
            any: 0,
        };
        let region = Region::new(alloc, terminals.nx(), terminals.ny())?;
        let seen = vec![in alloc; unseen; terminals.all().len()]?;
        let lacks = vec![in alloc; none; terminals.net_count() as usize]?;
        let mut draft = Draft {
            pins,
            terminals,
            region,
            seen,
            lacks,
            nets: 0,
        };
        draft.look_at_all();
        Ok(draft)
    }

    /// Looks at all terminals.
    fn look_at_all(&mut self) {
        for at in 0..self.terminals.all().len() {
            self.look_again(at);
        }
    }

    /// The nets that are cut, less the pins of sources that are given up for it at best, for the
    /// places of the border.
    pub(crate) fn worth(&self) -> Worth {
        Worth {
            nets: self.nets,
            places: self.region.places(),
        }
    }

    /// The sides of the places around a terminal.
    pub(crate) fn around(&self, terminal: Terminal) -> Around {
        self.region.around(terminal.x, terminal.y)
    }

    /// The sides of a terminal whose pins are given up.
    pub(crate) fn given_up(&self, at: usize) -> u8 {
        match self.seen.get(at) {
            Some(seen) => seen.given_up,
            None => 0,
        }
    }

    /// What the sinks of a net lack.
    pub(crate) fn lacks(&self, net: u32) -> Lacks {
        match self.lacks.get(net as usize) {
            Some(lacks) => *lacks,
            None => Lacks {
                inner: 0,
                outer: 0,
                any: 0,
            },
        }
    }

    /// The exits of the nets of a source.
    fn exits_of(&self, source: Terminal) -> Exits {
        let mut exits = Exits {
            inner: 0,
            outer: 0,
            either: 0,
            both: 0,
            none: 0,
        };
        for net in self.terminals.nets_of(source) {
            exits = with_net(exits, self.lacks(*net));
        }
        exits
    }

    /// Counts the share of a source anew.
    fn recount(&mut self, at: usize) {
        if let Some(source) = self.terminals.get(at) {
            let exits = self.exits_of(source);
            if let Some(seen) = self.seen.get_mut(at) {
                let share = share_of(seen.outlets, exits);
                self.nets = self.nets.saturating_add(share).saturating_sub(seen.share);
                seen.share = share;
            }
        }
    }

    /// Looks at a source's pins, after places around it changed.
    fn look_at_source(&mut self, at: usize, source: Terminal, around: Around) {
        let outlets = outlets_of(self.pins, around, source.class);
        if let Some(seen) = self.seen.get_mut(at) {
            seen.outlets = outlets;
        }
        self.recount(at);
    }

    /// Puts a new mask of a sink in place of the one before, and returns that.
    fn put_mask(&mut self, at: usize, mask: u8) -> u8 {
        match self.seen.get_mut(at) {
            Some(seen) => {
                let before = seen.mask;
                seen.mask = mask;
                before
            }
            None => mask,
        }
    }

    /// Changes what a net lacks, after a sink's mask changed.
    fn change(&mut self, net: u32, before: u8, after: u8) {
        if let Some(lacks) = self.lacks.get_mut(net as usize) {
            *lacks = lacks_after(*lacks, before, after);
        }
        self.recount(self.terminals.source_of(net));
    }

    /// Looks at a sink's pins, after places around it or pins that are given up changed.
    fn look_at_sink(&mut self, at: usize, sink: Terminal, around: Around) {
        let mask = terminal_mask(self.pins, around, sink.class, self.given_up(at));
        let before = self.put_mask(at, mask);
        if mask != before {
            let terminals = self.terminals;
            for net in terminals.nets_of(sink) {
                self.change(*net, before, mask);
            }
        }
    }

    /// Looks at a terminal's pins.
    fn look(&mut self, at: usize, around: Around) {
        if let Some(terminal) = self.terminals.get(at) {
            if terminal.is_source {
                self.look_at_source(at, terminal, around);
            } else {
                self.look_at_sink(at, terminal, around);
            }
        }
    }

    /// Looks at a terminal's pins again.
    fn look_again(&mut self, at: usize) {
        if let Some(terminal) = self.terminals.get(at) {
            self.look(at, self.around(terminal));
        }
    }

    /// Looks at the pins of the block or the pads at (x, y).
    fn look_around(&mut self, x: u32, y: u32) {
        let around = self.region.around(x, y);
        let (first, end) = self.terminals.span(x, y);
        for at in first..end {
            self.look(at, around);
        }
    }

    /// Takes a corner into the region, or out of it.
    pub(crate) fn flip(&mut self, x: u32, y: u32) {
        let right = x.saturating_add(1);
        let above = y.saturating_add(1);
        self.region.flip(x, y);
        self.look_around(x, y);
        self.look_around(right, y);
        self.look_around(x, above);
        self.look_around(right, above);
    }

    /// Gives up the pins of a terminal on these sides, and no others of it.
    pub(crate) fn give(&mut self, at: usize, sides: u8) {
        if let Some(seen) = self.seen.get_mut(at) {
            seen.given_up = sides;
        }
        self.look_again(at);
    }
}
