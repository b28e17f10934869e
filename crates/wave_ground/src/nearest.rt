//! Lower bounds on the wires from a group to the nearest sink.

ghost use Rattle.std.specs.Prelude.{◌≡◌, ◌<◌, ◌≤◌, ◌*◌, ◌∷◌, ◌++◌, ℕ, [], All, Some, None, length, map, replicate, get_or, slice_set, IfOk, IfSome, OnOk};
ghost use Rattle.std.specs.List.Sorted.{IsPermutation};
ghost use Rattle.wavefront.specs.Boxes as plain;
ghost use Rattle.wave_ground.specs.kept.Boxes.{IsLow, boxed, wire_of};
ghost use Rattle.wave_ground.specs.kept.EightBoxes.{StandsAt};
ghost use Rattle.wave_ground.specs.kept.Nearest.{sink_box};

use crate::boxes::BoundingBox;
use crate::eight_boxes::{EightBoxes, fewest_in, make_room, put_box};
use std::alloc::{AllocError, Global};
use std::marker::Model;
use track_groups::Group;

/// A box around the sinks of a net from place `from` of their list to the one before `until`.
#[derive(Clone, Copy, Drop)]
pub struct SinkBox {
    pub place: BoundingBox,
    pub from: usize,
    pub until: usize,
    /// The number by which the bounds of groups refer to the box.
    number: u16,
}

/// A lower bound on the wires to the nearest box, and the number of that box.
#[derive(Clone, Copy, Drop)]
pub struct Sight {
    pub wires: u16,
    number: u16,
}

/// The bound of a group, and the stamp when it was found.
#[derive(Clone, Copy, Drop)]
pub(crate) struct Known {
    sight: Sight,
    stamp: u32,
}

/// Makes the rows of groups without bounds.
fn nothing_known(alloc: Global, groups: usize) -> Result<Vec<Known>, AllocError>
    ensures count { IfOk result (λ known. length known.items ≡ groups) }
    ensures blank { IfOk result (λ known. All (λ k. k.stamp ≡ 0) known.items) }
{
    let mut known = Vec::with_capacity(alloc, groups)?;
    for _ in 0..groups {
        known.push(Known {
            sight: Sight {
                wires: 0,
                number: 0,
            },
            stamp: 0,
        })?;
    }
    Ok(known)
}

/// Removes all stamps.
fn take_stamps_off(known: &mut Vec<Known>)
    ensures count { length known.new.items ≡ length known.old.items }
    ensures blank { All (λ k. k.stamp ≡ 0) known.new.items }
{
    for at in 0..known.len() {
        known[at].stamp = 0;
    }
}

/// Makes a number the current number of a box. Its last six bits say which box it is, the others
/// how often the box was made narrower.
fn make_live(live: &mut [u16; 64], number: u16) {
    live[usize::from(number % 64)] = number;
}

/// Returns whether a number is the current number of a box.
#[inline(always)]
fn is_live(live: &[u16; 64], number: u16) -> bool {
    live[usize::from(number % 64)] == number
}

/// Copies the box at a place of the list into the groups of eight, if there is one.
fn put_again(eights: &mut Vec<EightBoxes>, boxes: &[SinkBox], at: usize)
    requires { at < 8 * length eights.old.items }
    ensures count { length eights.new.items ≡ length eights.old.items }
    ensures put { (d : SinkBox) → at < length boxes.now
        → StandsAt eights.new.items at (boxed (get_or boxes.now at d).place) }
    ensures others { (other : ℕ) (place : plain.BoundingBox) → (other ≡ at → ⊥)
        → StandsAt eights.old.items other place → StandsAt eights.new.items other place }
{
    if at < boxes.len() {
        put_box(eights, at, boxes[at].place, boxes[at].number);
    }
}

/// Boxes around the sinks that are left, and the bounds of groups that were found: lower bounds on
/// the wires to the nearest box. Contracts see both.
#[derive(Drop)]
pub struct Nearest {
    boxes: Vec<SinkBox>,
    /// The same boxes in groups of eight, filled up with boxes at the greatest distance.
    eights: Vec<EightBoxes>,
    /// The current numbers of the boxes. A box that is removed or made narrower gets another
    /// number.
    live: [u16; 64],
    known: Vec<Known>,
    /// Bounds with an earlier stamp were found before all boxes were last removed.
    stamp: u32,
}

impl Model for Nearest {
    ghost use Rattle.wave_ground.specs.kept.Nearest.{Sights};

    ghost Value = { Sights };

    ghost use Rattle.wave_ground.specs.kept.Nearest.{sights_of, IsNearestInside};

    ghost view = { sights_of };

    ghost invariant = { IsNearestInside };
}

impl Nearest {
    /// Makes a list without boxes, for this many groups.
    pub fn new(alloc: Global, groups: usize) -> Result<Nearest, AllocError>
        ensures boxes { IfOk result (λ n. n.boxes ≡ []) }
        ensures known { IfOk result (λ n. n.known ≡ replicate groups None) }
    {
        Ok(Nearest {
            boxes: Vec::new(alloc),
            eights: Vec::new(alloc),
            live: [0; 64],
            known: nothing_known(alloc, groups)?,
            stamp: 1,
        })
    }

    /// Returns the count of groups.
    pub fn len(&self) -> usize
        ensures { result ≡ length self.now.known }
    {
        self.known.len()
    }

    /// Removes all boxes and bounds.
    pub fn clear(&mut self)
        ensures boxes { self.new.boxes ≡ [] }
        ensures known { self.new.known ≡ replicate (length self.old.known) None }
    {
        if self.stamp == u32::MAX {
            take_stamps_off(&mut self.known);
            self.stamp = 0;
        }
        self.stamp += 1;
        self.boxes.clear();
        self.eights.clear();
    }

    /// Adds a box around the sinks from place `from` of their list to the one before `until`.
    /// Bounds of groups stay, and may be too high with one more box. So add all boxes before any
    /// bound is found.
    pub fn push(&mut self, place: BoundingBox, from: usize, until: usize) -> Result<(), AllocError>
        ensures boxes { OnOk result (self.new.boxes ≡ self.old.boxes
            ++ record { place = boxed place; from = from; until = until } ∷ []) }
        ensures known { self.new.known ≡ self.old.known }
    {
        let at = self.boxes.len();
        let number = (at % 64) as u16;
        make_live(&mut self.live, number);
        make_room(&mut self.eights, at)?;
        self.boxes.push(SinkBox {
            place,
            from,
            until,
            number,
        })?;
        put_box(&mut self.eights, at, place, number);
        Ok(())
    }

    /// Returns the count of boxes.
    pub fn boxes(&self) -> usize
        ensures { result ≡ length self.now.boxes }
    {
        self.boxes.len()
    }

    /// Returns a box.
    pub fn box_at(&self, at: usize) -> SinkBox
        requires { at < length self.now.boxes }
        ensures { sink_box result ≡ get_or self.now.boxes at (sink_box result) }
    {
        self.boxes[at]
    }

    /// Replaces a box by one inside it. Bounds of groups stay, and remain lower bounds.
    pub fn put(&mut self, at: usize, around: SinkBox, place: BoundingBox)
        requires { at < length self.old.boxes }
        ensures boxes { self.new.boxes ≡ slice_set self.old.boxes at
            (record { place = boxed place; from = around.from; until = around.until }) }
        ensures known { self.new.known ≡ self.old.known }
    {
        let number = around.number.wrapping_add(64);
        make_live(&mut self.live, number);
        self.boxes[at] = SinkBox {
            place,
            from: around.from,
            until: around.until,
            number,
        };
        put_box(&mut self.eights, at, place, number);
    }

    /// Removes a box. Bounds of groups stay, and remain lower bounds.
    pub fn remove(&mut self, at: usize) -> SinkBox
        requires { at < length self.old.boxes }
        ensures gone { sink_box result ≡ get_or self.old.boxes at (sink_box result) }
        ensures boxes { IsPermutation self.old.boxes (sink_box result ∷ self.new.boxes) }
        ensures known { self.new.known ≡ self.old.known }
    {
        let gone = self.boxes.swap_remove(at);
        make_live(&mut self.live, gone.number.wrapping_add(64));
        let last = self.boxes.len();
        put_box(&mut self.eights, last, BoundingBox::NOTHING, 0);
        put_again(&mut self.eights, &self.boxes, at);
        gone
    }

    /// Returns the bound of a group, unless it is of a box that was removed or made narrower.
    #[inline(always)]
    pub fn known(&self, group: u32) -> Option<u32>
        requires { group < length self.now.known }
        ensures { IfSome result (λ wires. get_or self.now.known group None ≡ Some wires) }
    {
        let known = self.known[group as usize];
        if known.stamp == self.stamp && is_live(&self.live, known.sight.number) {
            Some(u32::from(known.sight.wires))
        } else {
            None
        }
    }

    /// Keeps the bound of a group.
    pub fn keep(&mut self, group: u32, sight: Sight)
        requires { group < length self.old.known }
        ensures boxes { self.new.boxes ≡ self.old.boxes }
        ensures known { self.new.known ≡ slice_set self.old.known group (Some sight.wires) }
    {
        self.known[group as usize] = Known {
            sight,
            stamp: self.stamp,
        };
    }

    /// Returns a lower bound on the wires from a group to the nearest box.
    #[inline(always)]
    pub fn fewest(&self, group: &Group) -> Sight
        ensures { IsLow self.now.boxes (wire_of group.now) result.wires }
    {
        let fewest = fewest_in(&self.eights, self.boxes.len(), group);
        Sight {
            wires: fewest / 64,
            number: self.live[usize::from(fewest % 64)],
        }
    }
}
