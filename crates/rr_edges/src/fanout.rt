//! What a wire leads to, in numbers that are counted and listed by arithmetic.

ghost use Rattle.std.specs.Prelude.{◌≡◌, OnOk, OnErr, IsOk, ◌+◌, ◌*◌, ◌<◌, ◌≤◌, ◌++◌, ◌∷◌, [], length, map};
ghost use Rattle.std.specs.List.{flat_map};
ghost use Rattle.smallvec.specs.SmallVec.{HasRoomFor};
ghost use Rattle.channel_tables.specs.Fabric.{numbers_below};
ghost use Rattle.channel_tables.specs.Pins.{when};
ghost use Rattle.rr_edges.specs.kept.Pushes.{Pushes};
ghost use Rattle.rr_edges.specs.kept.Fanouts.{numbers_of, runs_of, number_in, run_list, by_run, by_place, pins_at, row_list, column_list, fanout_list, IsSmallRun, IsSmallMeeting, IsSmallTaps, IsSmallFanout};

use channel_tables::Axis;
use smallvec::SmallVec;
use std::alloc::AllocError;

/// Up to two numbers.
#[derive(Clone, Copy, Debug)]
pub(crate) struct Pair {
    pub(crate) one: Option<u32>,
    pub(crate) two: Option<u32>,
}

/// Numbers at even distances.
#[derive(Clone, Copy, Debug)]
pub(crate) struct NumberRun {
    pub(crate) first: u32,
    pub(crate) step: u32,
}

/// The wires of a track that meet at the corners of a row or column: one or two at each corner.
#[derive(Clone, Copy, Debug)]
pub(crate) struct Meeting {
    pub(crate) one: NumberRun,
    pub(crate) two: Option<NumberRun>,
}

/// The pins that tap a wire on one side of it.
#[derive(Clone, Copy)]
pub(crate) struct Taps<'a> {
    /// Which of the pins at a place.
    pub(crate) places: &'a [u8],
    /// The number of the first pin at the wire's first place, and by how much it grows from one
    /// place to the next.
    pub(crate) start: u32,
    pub(crate) step: u32,
}

/// What a wire leads to.
#[derive(Clone, Copy)]
pub(crate) struct Fanout<'a> {
    /// The axis of the wire: it decides the order of the nodes.
    pub(crate) axis: Axis,
    /// The pins under it or left of it, and those over it or right of it.
    pub(crate) low: Taps<'a>,
    pub(crate) high: Taps<'a>,
    /// How many places the wire passes.
    pub(crate) places: u32,
    pub(crate) beside: Pair,
    pub(crate) crossing: Meeting,
}

/// Pushes the number if the test holds.
pub(crate) fn push_if(list: &mut SmallVec<u32, 8>, test: bool, number: u32)
    requires { HasRoomFor list.old (length (when test number)) }
    ensures { Pushes list.old (when test number) list.new }
{
    if test {
        list.push_reserved(number);
    }
}

impl Pair {
    #[inline(always)]
    fn push(self, list: &mut SmallVec<u32, 8>)
        requires { HasRoomFor list.old (length (numbers_of self)) }
        ensures { Pushes list.old (numbers_of self) list.new }
    {
        if let Some(one) = self.one {
            list.push_reserved(one);
        }
        if let Some(two) = self.two {
            list.push_reserved(two);
        }
    }

    #[inline(always)]
    fn count(self) -> u32
        ensures count { result ≡ length (numbers_of self) }
        ensures few { result ≤ 2 }
    {
        u32::from(self.one.is_some()) + u32::from(self.two.is_some())
    }
}

impl NumberRun {
    #[inline(always)]
    #[tactic(auto, using(crate::proofs::Pushes::room_mapped))]
    fn push(self, list: &mut SmallVec<u32, 8>, count: u32)
        requires room { HasRoomFor list.old (length (run_list count self)) }
        requires small { IsSmallRun self }
        requires few { count ≤ 101 }
        ensures { Pushes list.old (run_list count self) list.new }
    {
        let mut number = self.first;
        for _place in 0..count {
            list.push_reserved(number);
            number += self.step;
        }
    }

    /// The numbers of two runs, by turns.
    #[inline(always)]
    fn push_with(self, other: NumberRun, list: &mut SmallVec<u32, 8>, count: u32)
        requires room { HasRoomFor list.old (length
            (flat_map (λ k. number_in k self ∷ number_in k other ∷ []) (numbers_below count))) }
        requires small { IsSmallRun self }
        requires other { IsSmallRun other }
        requires few { count ≤ 101 }
        ensures { Pushes list.old (flat_map (λ k. number_in k self ∷ number_in k other ∷ [])
            (numbers_below count)) list.new }
    {
        let mut one = self.first;
        let mut two = other.first;
        for _place in 0..count {
            list.push_reserved(one);
            list.push_reserved(two);
            one += self.step;
            two += other.step;
        }
    }
}

impl Meeting {
    #[inline(always)]
    fn push_by_run(self, list: &mut SmallVec<u32, 8>, count: u32)
        requires room { HasRoomFor list.old (length (by_run self count)) }
        requires small { IsSmallMeeting self }
        requires few { count ≤ 101 }
        ensures { Pushes list.old (by_run self count) list.new }
    {
        self.one.push(list, count);
        if let Some(two) = self.two {
            two.push(list, count);
        }
    }

    #[inline(always)]
    fn push_by_place(self, list: &mut SmallVec<u32, 8>, count: u32)
        requires room { HasRoomFor list.old (length (by_place self count)) }
        requires small { IsSmallMeeting self }
        requires few { count ≤ 101 }
        ensures { Pushes list.old (by_place self count) list.new }
    {
        match self.two {
            None => self.one.push(list, count),
            Some(two) => self.one.push_with(two, list, count),
        }
    }

    #[inline(always)]
    fn count(self) -> u32
        ensures count { result ≡ length (runs_of self) }
        ensures few { result ≤ 2 }
    {
        1 + u32::from(self.two.is_some())
    }
}

impl Taps<'_> {
    /// The pins at a place whose first pin has number `start`.
    #[inline(always)]
    #[tactic(auto, using(crate::proofs::Pushes::pushed_taken))]
    fn push_from(self, list: &mut SmallVec<u32, 8>, start: u32)
        requires room { HasRoomFor list.old (length self.places.now) }
        requires small { start < 2147483648 }
        ensures { Pushes list.old (map (λ j. start + j) self.entry.places.now) list.new }
    {
        for place in self.places {
            list.push_reserved(start + u32::from(*place));
        }
    }

    /// How many pins at each place.
    #[inline(always)]
    fn count(self) -> u32
        requires { IsSmallTaps self }
        ensures { result ≡ length self.entry.places.now }
    {
        self.places.len() as u32
    }

    /// The pins at `count` places.
    #[inline(always)]
    fn push(self, list: &mut SmallVec<u32, 8>, count: u32)
        requires room { HasRoomFor list.old (length
            (flat_map (pins_at self) (numbers_below count))) }
        requires small { IsSmallTaps self }
        requires few { count ≤ 101 }
        ensures { Pushes list.old (flat_map (pins_at self.entry) (numbers_below count)) list.new }
    {
        let mut start = self.start;
        for _place in 0..count {
            self.push_from(list, start);
            start += self.step;
        }
    }

    /// The pins on both sides at `count` places.
    #[inline(always)]
    fn push_with(self, other: Taps, list: &mut SmallVec<u32, 8>, count: u32)
        requires room { HasRoomFor list.old (length
            (flat_map (λ k. pins_at self k ++ pins_at other k) (numbers_below count))) }
        requires small { IsSmallTaps self }
        requires other { IsSmallTaps other }
        requires few { count ≤ 101 }
        ensures { Pushes list.old (flat_map (λ k. pins_at self.entry k ++ pins_at other.entry k)
            (numbers_below count)) list.new }
    {
        let mut one = self.start;
        let mut two = other.start;
        for _place in 0..count {
            self.push_from(list, one);
            other.push_from(list, two);
            one += self.step;
            two += other.step;
        }
    }
}

impl Fanout<'_> {
    #[inline(always)]
    pub(crate) fn push(self, list: &mut SmallVec<u32, 8>)
        requires room { HasRoomFor list.old (length (fanout_list self)) }
        requires small { IsSmallFanout self }
        ensures { Pushes list.old (fanout_list self.entry) list.new }
    {
        self.push_along(list, self.places);
    }

    /// Pushes it; for a number of places that is known when this is inlined, without loops.
    #[inline(always)]
    fn push_along(self, list: &mut SmallVec<u32, 8>, places: u32)
        requires room { HasRoomFor list.old (length (fanout_list self)) }
        requires small { IsSmallFanout self }
        requires places { places ≡ self.places }
        ensures { Pushes list.old (fanout_list self.entry) list.new }
    {
        match self.axis {
            Axis::Row => self.push_along_row(list, places),
            Axis::Column => self.push_along_column(list, places),
        }
    }

    /// Pushes it as of a wire above a row.
    #[inline(always)]
    #[tactic(auto, using(crate::proofs::Pushes::pushed_then, crate::proofs::Pushes::room_first, crate::proofs::Pushes::room_then), unfolding(crate::specs::kept::Fanouts::row_list))]
    fn push_along_row(self, list: &mut SmallVec<u32, 8>, places: u32)
        requires room { HasRoomFor list.old (length (row_list self)) }
        requires small { IsSmallFanout self }
        requires places { places ≡ self.places }
        ensures { Pushes list.old (row_list self.entry) list.new }
    {
        self.low.push_with(self.high, list, places);
        self.beside.push(list);
        self.crossing.push_by_place(list, places + 1);
    }

    /// Pushes it as of a wire right of a column.
    #[inline(always)]
    #[tactic(auto, using(crate::proofs::Pushes::pushed_then, crate::proofs::Pushes::room_first, crate::proofs::Pushes::room_then), unfolding(crate::specs::kept::Fanouts::column_list))]
    fn push_along_column(self, list: &mut SmallVec<u32, 8>, places: u32)
        requires room { HasRoomFor list.old (length (column_list self)) }
        requires small { IsSmallFanout self }
        requires places { places ≡ self.places }
        ensures { Pushes list.old (column_list self.entry) list.new }
    {
        self.low.push(list, places);
        self.high.push(list, places);
        self.crossing.push_by_run(list, places + 1);
        self.beside.push(list);
    }

    #[inline(always)]
    pub(crate) fn count(self) -> u32
        requires { IsSmallFanout self }
        ensures count { result ≡ length (fanout_list self.entry) }
        ensures few { result ≤ 20000 }
    {
        self.count_along(self.places)
    }

    #[inline(always)]
    #[tactic(auto, using(crate::proofs::Fanouts::fanout_length))]
    fn count_along(self, places: u32) -> u32
        requires small { IsSmallFanout self }
        requires places { places ≡ self.places }
        ensures count { result ≡ length (fanout_list self.entry) }
        ensures few { result ≤ 20000 }
    {
        let pins = self.low.count() + self.high.count();
        places * pins + self.beside.count() + (places + 1) * self.crossing.count()
    }

    /// Pushes it, if memory is found for all of it.
    #[inline(always)]
    pub(crate) fn fill(self, list: &mut SmallVec<u32, 8>) -> Result<(), AllocError>
        requires { IsSmallFanout self }
        ensures filled { OnOk result (list.new.items ≡ list.old.items ++ fanout_list self.entry) }
        ensures refused { OnErr result (list.new ≡ list.old) }
        ensures room { HasRoomFor list.old (length (fanout_list self.entry)) → IsOk result }
        ensures kept { list.old.capacity ≤ list.new.capacity }
    {
        if self.places == 1 {
            self.fill_along(list, 1)?;
        } else {
            self.fill_along(list, self.places)?;
        }
        Ok(())
    }

    #[inline(always)]
    fn fill_along(self, list: &mut SmallVec<u32, 8>, places: u32) -> Result<(), AllocError>
        requires small { IsSmallFanout self }
        requires places { places ≡ self.places }
        ensures filled { OnOk result (list.new.items ≡ list.old.items ++ fanout_list self.entry) }
        ensures refused { OnErr result (list.new ≡ list.old) }
        ensures room { HasRoomFor list.old (length (fanout_list self.entry)) → IsOk result }
        ensures kept { list.old.capacity ≤ list.new.capacity }
    {
        list.reserve(self.count_along(places) as usize)?;
        self.push_along(list, places);
        Ok(())
    }
}
