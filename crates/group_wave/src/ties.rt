//! Which of several ways of equal cost a net keeps: that of the tree to which it keeps, or else the
//! one over the least node. Each of them is right, so contracts say little about it.

ghost use Rattle.std.specs.Prelude.{◌≡◌, ◌<◌, IfSome};
ghost use Rattle.std.specs.Int.{bit_at};

use route_tree::Row;
use std::alloc::{AllocError, Global};
use track_groups::Group;
use wave_queue::{lowest_bit, with_bit};

/// No node.
const NONE: u32 = u32::MAX;

/// The track of a group that a node is.
fn track_of(group: &Group, node: u32) -> Option<u32>
    ensures { IfSome result (λ track. track < 64) }
{
    let offset = node.checked_sub(group.base)?;
    if offset.checked_rem(group.stride)? != 0 {
        return None;
    }
    let track = offset.checked_div(group.stride)?;
    if track < 64 { Some(track) } else { None }
}

/// The node of the row before a row.
fn node_before(rows: &[Row], row: Row) -> u32 {
    match rows.get(row.parent) {
        Some(before) => before.node,
        None => NONE,
    }
}

/// Puts a number into a list, if it is long enough.
fn put(list: &mut [u32], at: u32, number: u32) {
    if let Some(place) = list.get_mut(at as usize) {
        *place = number;
    }
}

/// The tree to which a net keeps where other ways cost the same.
#[derive(Drop)]
pub(crate) struct Ties {
    /// For each node of the tree the one before it there, and `NONE` for each other node. It is
    /// empty until a net keeps to a tree.
    before: Vec<u32>,
    /// The nodes of the tree.
    nodes: Vec<u32>,
}

impl Ties {
    /// No tree.
    pub(crate) fn new(alloc: Global) -> Ties {
        Ties {
            before: Vec::new(alloc),
            nodes: Vec::new(alloc),
        }
    }

    /// Forgets the tree.
    fn forget(&mut self) {
        for node in &self.nodes {
            put(&mut self.before, *node, NONE);
        }
        self.nodes.clear();
    }

    /// Makes room for nodes below a number.
    fn make_room(&mut self, nodes: usize) -> Result<(), AllocError> {
        for _ in self.before.len()..nodes {
            self.before.push(NONE)?;
        }
        Ok(())
    }

    /// Puts the rows of a tree in.
    fn put_rows(&mut self, rows: &[Row]) -> Result<(), AllocError> {
        for row in rows {
            self.nodes.push(row.node)?;
            put(&mut self.before, row.node, node_before(rows, *row));
        }
        Ok(())
    }

    /// From now on a net of this many nodes keeps to this tree, or to none if it has no rows.
    pub(crate) fn keep_to(&mut self, rows: &[Row], nodes: usize) -> Result<(), AllocError> {
        self.forget();
        if rows.is_empty() {
            return Ok(());
        }
        self.make_room(nodes)?;
        self.put_rows(rows)
    }

    /// The node before a node of the tree, and `NONE` for another.
    fn before(&self, node: u32) -> u32 {
        match self.before.get(node as usize) {
            Some(before) => *before,
            None => NONE,
        }
    }

    /// Whether a node is entered from this one rather than from that one, at the same cost.
    pub(crate) fn prefers(&self, node: u32, this: u32, that: u32) -> bool {
        let before = self.before(node);
        if before == that {
            return false;
        }
        before == this || this < that
    }

    /// The tracks of a group from which the tree enters a pin, as a set: one or none.
    fn tracks_before(&self, group: &Group, pin: u32) -> u64 {
        let before = self.before(pin);
        if before == NONE {
            return 0;
        }
        match track_of(group, before) {
            Some(track) => with_bit(0, track),
            None => 0,
        }
    }

    /// Returns the track that enters a pin, one of these tracks of a group: the tree's track if it
    /// is among them, or else the least.
    #[tactic(auto, using(crate::proofs::Tapped::first_one))]
    pub(crate) fn track(&self, group: &Group, pin: u32, tracks: u64) -> u32
        requires { 0 < tracks }
        ensures within { result < 64 }
        ensures one { bit_at tracks result ≡ 1 }
    {
        let kept = tracks & self.tracks_before(group, pin);
        if kept == 0 {
            lowest_bit(tracks)
        } else {
            lowest_bit(kept)
        }
    }
}
