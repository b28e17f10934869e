//! Boxes in groups of eight, so that a loop over eight becomes vector instructions.

ghost use Rattle.std.specs.Prelude.{◌≡◌, ◌<◌, ◌≤◌, ◌+◌, ◌*◌, ◌/◌, ℕ, IfSome, OnOk, length};
ghost use Rattle.wavefront.specs.Boxes as plain;
ghost use Rattle.wavefront.specs.kept.Bounds.{WireShape, gap, wires_for, wires_over, wires_to};
ghost use Rattle.wave_ground.specs.kept.Boxes.{boxed, wire_of};
ghost use Rattle.wave_ground.specs.kept.EightBoxes.{IsOutlook, IsShare, KeepsBox, StandsAt, columns_of, cut, gap_at, gap_beside, rows_of};

use crate::boxes::BoundingBox;
use routing_problem::Kind;
use std::alloc::AllocError;
use track_groups::Group;

/// Returns a coordinate in 16 bits: itself, or the greatest number if it doesn't fit.
#[inline(always)]
fn cut(coordinate: u32) -> u16
    ensures { result ≡ cut coordinate }
{
    coordinate.min(65_535) as u16
}

/// Returns the distance between the numbers from `first` to `last` and those from `low` to `high`,
/// or the greatest number if the distance doesn't fit.
#[inline(always)]
fn gap(low: u16, high: u16, first: u16, last: u16) -> u16
    ensures { result ≤ gap low high first last }
{
    low.saturating_sub(last)
        .saturating_add(first.saturating_sub(high))
}

/// Returns 65,536 divided by `steps + 1`, rounded up. The quotients for short wires are constants:
/// a division takes as long as the bound to eight boxes.
#[inline(always)]
fn share_of(steps: u16) -> u16
    requires some { 0 < steps }
    requires few { steps < 128 }
    ensures { IsShare steps result }
{
    match steps {
        1 => 32_768,
        2 => 21_846,
        3 => 16_384,
        4 => 13_108,
        5 => 10_923,
        6 => 9_363,
        7 => 8_192,
        _ => 65_535 / (steps + 1) + 1,
    }
}

/// A bound leaves out places beyond this many: with them a product may be too great.
const MOST_ROUNDED: u16 = 383;

/// Returns a lower bound on the wires that cover this many places.
#[inline(always)]
fn wires_over(share: u16, steps: u16, places: u16) -> u16
    requires { IsShare steps share }
    ensures { result ≤ wires_over steps places }
{
    let rounded = places.min(MOST_ROUNDED) + steps;
    (u32::from(rounded) * u32::from(share) / 65_536) as u16
}

/// Returns a lower bound on the wires to a box at these distances along and across the channel of
/// the first wire, if every wire has one place.
#[inline(always)]
#[tactic(auto, using(wavefront::proofs::WiresOver::one_place))]
fn short_wires(along: u16, across: u16) -> u16
    ensures { result ≤ wires_for 0 along across }
{
    along.max(across.min(1)).saturating_add(across)
}

/// Returns the same bound for wires that have at most `steps + 1` places.
#[inline(always)]
fn long_wires(share: u16, steps: u16, along: u16, across: u16) -> u16
    requires { IsShare steps share }
    ensures { result ≤ wires_for steps along across }
{
    let last_along = wires_over(share, steps, along.max(across.min(1))).saturating_add(wires_over(
        share, steps, across,
    ));
    let last_across = wires_over(share, steps, along.saturating_sub(1)).saturating_add(wires_over(
        share,
        steps,
        across.saturating_add(1),
    ));
    last_along.min(last_across)
}

/// Packs a count of wires and a number below 64. A greater count becomes 1,023.
#[inline(always)]
fn numbered(wires: u16, number: u16) -> u16
    requires { number < 64 }
    ensures { result / 64 ≤ wires }
{
    wires.min(1023) * 64 + number
}

/// The sides of eight boxes in one direction, and the first and last place of a wire in it.
#[derive(Clone, Copy, Drop)]
struct BoxSides {
    lows: [u16; 8],
    highs: [u16; 8],
    first: u16,
    last: u16,
}

impl BoxSides {
    /// Returns the distance from the wire to one of the boxes.
    #[inline(always)]
    fn gap_at(&self, lane: usize) -> u16
        requires { lane < 8 }
        ensures { result ≤ gap_at self.now lane }
    {
        gap(self.lows[lane], self.highs[lane], self.first, self.last)
    }

    /// Returns the distance from the wire to one of the boxes or to the place before it.
    #[inline(always)]
    fn gap_beside(&self, lane: usize) -> u16
        requires { lane < 8 }
        ensures { result ≤ gap_beside self.now lane }
    {
        let low = self.lows[lane].saturating_sub(1);
        gap(low, self.highs[lane], self.first, self.last)
    }
}

/// Returns the bound to the first box if every wire has one place, with the last six bits of the
/// box's number.
#[inline(always)]
fn first_short(along: &BoxSides, across: &BoxSides, numbers: &[u16; 8]) -> u16
    ensures { result / 64 ≤ wires_for 0 (gap_at along.now 0) (gap_beside across.now 0) }
{
    let wires = short_wires(along.gap_at(0), across.gap_beside(0));
    numbered(wires, numbers[0] % 64)
}

/// Returns the least of the bounds to eight boxes if every wire has one place, with the last six
/// bits of its box's number.
#[inline(always)]
fn fewest_short(along: &BoxSides, across: &BoxSides, numbers: &[u16; 8]) -> u16
    ensures { (lane : ℕ) → lane < 8
        → result / 64 ≤ wires_for 0 (gap_at along.now lane) (gap_beside across.now lane) }
{
    let mut fewest = u16::MAX;
    for lane in 0..8 {
        let wires = short_wires(along.gap_at(lane), across.gap_beside(lane));
        fewest = fewest.min(numbered(wires, numbers[lane] % 64));
    }
    fewest
}

/// Returns the same for wires that have at most `steps + 1` places.
#[inline(always)]
fn fewest_long(
    along: &BoxSides,
    across: &BoxSides,
    numbers: &[u16; 8],
    share: u16,
    steps: u16,
) -> u16
    requires { IsShare steps share }
    ensures { (lane : ℕ) → lane < 8
        → result / 64 ≤ wires_for steps (gap_at along.now lane) (gap_beside across.now lane) }
{
    let mut fewest = u16::MAX;
    for lane in 0..8 {
        let wires = long_wires(share, steps, along.gap_at(lane), across.gap_beside(lane));
        fewest = fewest.min(numbered(wires, numbers[lane] % 64));
    }
    fewest
}

/// Eight boxes, one array for each side.
#[derive(Clone, Copy, Drop)]
pub(crate) struct EightBoxes {
    left: [u16; 8],
    right: [u16; 8],
    bottom: [u16; 8],
    top: [u16; 8],
    /// The numbers of the boxes. A bound has only their last six bits.
    numbers: [u16; 8],
}

impl EightBoxes {
    /// Eight boxes at the greatest distance from every wire.
    pub(crate) const FAR: EightBoxes = EightBoxes {
        left: [u16::MAX; 8],
        right: [0; 8],
        bottom: [u16::MAX; 8],
        top: [0; 8],
        numbers: [0; 8],
    };

    /// Puts a box with a number into one of the eight places.
    pub(crate) fn put(&mut self, lane: usize, place: BoundingBox, number: u16)
        requires { lane < 8 }
        ensures put { KeepsBox self.new lane (boxed place) }
        ensures others { (other : ℕ) (place : plain.BoundingBox) → (other ≡ lane → ⊥)
            → KeepsBox self.old other place → KeepsBox self.new other place }
    {
        self.left[lane] = cut(place.left);
        self.right[lane] = cut(place.right);
        self.bottom[lane] = cut(place.bottom);
        self.top[lane] = cut(place.top);
        self.numbers[lane] = number;
    }
}

/// A wire from which bounds are computed.
#[derive(Clone, Copy, Drop)]
pub(crate) struct Outlook {
    is_column: bool,
    steps: u16,
    x1: u16,
    x2: u16,
    y1: u16,
    y2: u16,
}

impl Outlook {
    /// Makes the outlook of a group's wires. None if the group has no wires, or if they have more
    /// places than a channel.
    #[inline(always)]
    pub(crate) fn of(group: &Group) -> Option<Outlook>
        ensures { IfSome result (λ outlook. IsOutlook outlook (wire_of group.now)) }
    {
        let steps = group.reach.saturating_sub(1);
        if steps >= 128 {
            return None;
        }
        let is_column = match group.kind {
            Kind::Chanx => false,
            Kind::Chany => true,
            Kind::Source | Kind::Sink | Kind::Opin | Kind::Ipin => return None,
        };
        Some(Outlook {
            is_column,
            steps: steps as u16,
            x1: cut(group.span.x1),
            x2: cut(group.span.x2),
            y1: cut(group.span.y1),
            y2: cut(group.span.y2),
        })
    }

    /// Returns the sides of eight boxes along a row.
    #[inline(always)]
    fn columns(self, boxes: &EightBoxes) -> BoxSides
        ensures { result ≡ columns_of self boxes.now }
    {
        BoxSides {
            lows: boxes.left,
            highs: boxes.right,
            first: self.x1,
            last: self.x2,
        }
    }

    /// Returns the sides of eight boxes along a column.
    #[inline(always)]
    fn rows(self, boxes: &EightBoxes) -> BoxSides
        ensures { result ≡ rows_of self boxes.now }
    {
        BoxSides {
            lows: boxes.bottom,
            highs: boxes.top,
            first: self.y1,
            last: self.y2,
        }
    }

    /// Returns the bound to the first of eight boxes if every wire has one place, with the last six
    /// bits of the box's number.
    #[inline(always)]
    fn first_short(self, boxes: &EightBoxes) -> u16
        requires steps { self.steps ≡ 0 }
        ensures { (wire : WireShape) (place : plain.BoundingBox) → IsOutlook self wire
            → KeepsBox boxes.now 0 place → result / 64 ≤ wires_to place wire }
    {
        let columns = self.columns(boxes);
        let rows = self.rows(boxes);
        if self.is_column {
            first_short(&rows, &columns, &boxes.numbers)
        } else {
            first_short(&columns, &rows, &boxes.numbers)
        }
    }

    /// Returns the least of the bounds to eight boxes if every wire has one place, with the last
    /// six bits of its box's number.
    #[inline(always)]
    fn fewest_short(self, boxes: &EightBoxes) -> u16
        requires steps { self.steps ≡ 0 }
        ensures { (wire : WireShape) (lane : ℕ) (place : plain.BoundingBox) → IsOutlook self wire
            → lane < 8 → KeepsBox boxes.now lane place → result / 64 ≤ wires_to place wire }
    {
        let columns = self.columns(boxes);
        let rows = self.rows(boxes);
        if self.is_column {
            fewest_short(&rows, &columns, &boxes.numbers)
        } else {
            fewest_short(&columns, &rows, &boxes.numbers)
        }
    }

    /// Returns the same for wires that have more places.
    #[inline(always)]
    fn fewest_long(self, share: u16, boxes: &EightBoxes) -> u16
        requires share { IsShare self.steps share }
        ensures { (wire : WireShape) (lane : ℕ) (place : plain.BoundingBox) → IsOutlook self wire
            → lane < 8 → KeepsBox boxes.now lane place → result / 64 ≤ wires_to place wire }
    {
        let columns = self.columns(boxes);
        let rows = self.rows(boxes);
        if self.is_column {
            fewest_long(&rows, &columns, &boxes.numbers, share, self.steps)
        } else {
            fewest_long(&columns, &rows, &boxes.numbers, share, self.steps)
        }
    }
}

/// Makes room for one box after this many others, if there is none.
pub(crate) fn make_room(eights: &mut Vec<EightBoxes>, count: usize) -> Result<(), AllocError>
    requires { count ≤ 8 * length eights.old.items }
    ensures room { OnOk result (count < 8 * length eights.new.items) }
    ensures fits { count ≤ 8 * length eights.new.items }
    ensures others { (at : ℕ) (place : plain.BoundingBox) → at < 8 * length eights.old.items
        → StandsAt eights.old.items at place → StandsAt eights.new.items at place }
{
    if count / 8 == eights.len() {
        eights.push(EightBoxes::FAR)?;
    }
    Ok(())
}

/// Puts a box with a number into one of the places.
pub(crate) fn put_box(eights: &mut Vec<EightBoxes>, at: usize, place: BoundingBox, number: u16)
    requires { at < 8 * length eights.old.items }
    ensures count { length eights.new.items ≡ length eights.old.items }
    ensures put { StandsAt eights.new.items at (boxed place) }
    ensures others { (other : ℕ) (place : plain.BoundingBox) → (other ≡ at → ⊥)
        → StandsAt eights.old.items other place → StandsAt eights.new.items other place }
{
    eights[at / 8].put(at % 8, place, number);
}

/// Returns the least of the bounds to boxes if every wire has one place, with the last six bits of
/// its box's number.
#[inline(always)]
fn fewest_short_in(eights: &[EightBoxes], outlook: Outlook) -> u16
    requires steps { outlook.steps ≡ 0 }
    ensures { (wire : WireShape) (at : ℕ) (place : plain.BoundingBox) → IsOutlook outlook wire
        → at < 8 * length eights.now → StandsAt eights.now at place
        → result / 64 ≤ wires_to place wire }
{
    let mut fewest = u16::MAX;
    for at in 0..eights.len() {
        fewest = fewest.min(outlook.fewest_short(&eights[at]));
    }
    fewest
}

/// Returns the same for wires that have more places.
#[inline(always)]
fn fewest_long_in(eights: &[EightBoxes], outlook: Outlook) -> u16
    requires some { 0 < outlook.steps }
    requires few { outlook.steps < 128 }
    ensures { (wire : WireShape) (at : ℕ) (place : plain.BoundingBox) → IsOutlook outlook wire
        → at < 8 * length eights.now → StandsAt eights.now at place
        → result / 64 ≤ wires_to place wire }
{
    let share = share_of(outlook.steps);
    let mut fewest = u16::MAX;
    for at in 0..eights.len() {
        fewest = fewest.min(outlook.fewest_long(share, &eights[at]));
    }
    fewest
}

/// Returns a lower bound on the wires from a group to the nearest of this many boxes, times 64,
/// plus the last six bits of that box's number.
#[inline(always)]
pub(crate) fn fewest_in(eights: &[EightBoxes], boxes: usize, group: &Group) -> u16
    requires { boxes ≤ 8 * length eights.now }
    ensures { (at : ℕ) (place : plain.BoundingBox) → at < boxes → StandsAt eights.now at place
        → result / 64 ≤ wires_to place (wire_of group.now) }
{
    let Some(outlook) = Outlook::of(group) else {
        return 0;
    };
    if outlook.steps > 0 {
        return fewest_long_in(eights, outlook);
    }
    if boxes == 1 {
        return outlook.first_short(&eights[0]);
    }
    fewest_short_in(eights, outlook)
}
