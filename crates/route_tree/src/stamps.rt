//! Marks on numbers that are all taken off at once: a number is marked if it has the current stamp.

ghost use Rattle.std.specs.Prelude.{◌≡◌, ◌<◌, ◌≤◌, All, false, true, length, replicate, get_or, set, IfOk};
ghost use Rattle.route_tree.specs.kept.Marked.{IsMarked};

use std::alloc::{AllocError, Global};
use std::marker::Model;

/// Marks on the numbers below a count. Contracts see the list of which numbers are marked.
#[derive(Debug, Drop)]
pub(crate) struct Stamps {
    marks: Vec<u32>,
    stamp: u32,
}

impl Model for Stamps {
    ghost use Rattle.std.specs.Prelude.{List, Bool, All, ◌≤◌};

    ghost Value = { List Bool };

    ghost use Rattle.route_tree.specs.kept.Fields.{flags_of};

    ghost view = { flags_of };

    ghost invariant = { λ s. All (λ m. m ≤ s.stamp) s.marks.items };
}

/// A stamp above all marks: the next one, until there is none; then all marks are set back to 0.
fn next_stamp(marks: &mut Vec<u32>, stamp: u32) -> u32
    requires { All (λ m. m ≤ stamp) marks.old.items }
    ensures length { length marks.new.items ≡ length marks.old.items }
    ensures above { All (λ m. m < result) marks.new.items }
{
    if stamp == u32::MAX {
        marks.fill(0);
        return 1;
    }
    stamp + 1
}

impl Stamps {
    /// Marks for the numbers below `count`.
    pub(crate) fn new(alloc: Global, count: usize) -> Result<Stamps, AllocError>
        ensures { IfOk result (λ s. length s ≡ count) }
    {
        Ok(Stamps {
            marks: vec![in alloc; 0; count]?,
            stamp: 0,
        })
    }

    /// How many numbers there are.
    pub(crate) fn len(&self) -> usize
        ensures { result ≡ length self.now }
    {
        self.marks.len()
    }

    /// Takes all marks off: what is marked has the current stamp, so another stamp will do, until
    /// there is no other.
    #[tactic(auto, using(crate::proofs::Marking::cleared, crate::proofs::Marking::all_below))]
    pub(crate) fn clear(&mut self)
        ensures { self.new ≡ replicate (length self.old) false }
    {
        self.stamp = next_stamp(&mut self.marks, self.stamp);
    }

    /// Marks a number.
    pub(crate) fn mark(&mut self, number: u32)
        requires { number < length self.old }
        ensures { self.new ≡ set self.old number true }
    {
        self.marks[number as usize] = self.stamp;
    }

    /// Whether a number is marked; a number not below the count is not.
    pub(crate) fn is_marked(&self, number: u32) -> bool
        ensures { result ≡ get_or self.now number false }
    {
        match self.marks.get(number as usize) {
            None => false,
            Some(mark) => *mark == self.stamp,
        }
    }
}

/// Takes all marks off and marks these numbers.
#[tactic(auto, using(crate::proofs::Marking::none_marked, crate::proofs::Marking::one_more_marked))]
pub(crate) fn mark_only(stamps: &mut Stamps, numbers: &[u32])
    requires { All (λ a. a < length stamps.old) numbers.now }
    ensures marked { IsMarked stamps.new numbers.now }
    ensures length { length stamps.new ≡ length stamps.old }
{
    stamps.clear();
    for number in numbers {
        stamps.mark(*number);
    }
}
