//! Marks on the corners or the places of an array.

ghost use Rattle.std.specs.Prelude.{◌≡◌, ℕ, ◌||◌, Bool, IfOk, length, false};
ghost use Rattle.rr_graph.specs.Edges.{is_same_corner};
ghost use Rattle.rr_graph.specs.Nodes.{rank_of_kind};
ghost use Rattle.width_bound.specs.Cuts.{is_same_place};
ghost use Rattle.width_bound.specs.kept.Marks.{AreMarks, mark_count, some_corner, some_place};

use rr_graph::Kind;
use std::alloc::{AllocError, Global};

/// Marks that are all unset.
fn no_marks(alloc: Global) -> Result<Vec<bool>, AllocError>
    ensures { IfOk result (λ v. AreMarks (λ x y. false) v.items) }
{
    vec![in alloc; false; 10404]
}

/// Sets the mark at a column and a row, if there is one.
#[tactic(auto, using(crate::proofs::Marking::mark_set, crate::proofs::Marking::mark_far))]
fn set_mark(marks: &mut Vec<bool>, x: u32, y: u32)
    requires whole { length marks.old.items ≡ mark_count }
    ensures { (test : (x y : ℕ) → Bool) → AreMarks test marks.old.items →
        AreMarks (λ i j. test i j || is_same_corner (i, j) (x, y)) marks.new.items }
{
    if x < 102 && y < 102 {
        marks[x as usize * 102 + y as usize] = true;
    }
}

/// The marks of these corners.
pub(crate) fn corner_marks(alloc: Global, corners: &[(u32, u32)]) -> Result<Vec<bool>, AllocError>
    ensures { IfOk result (λ v. AreMarks (some_corner corners.now) v.items) }
{
    let mut marks = no_marks(alloc)?;
    for corner in corners {
        set_mark(&mut marks, corner.0, corner.1);
    }
    Ok(marks)
}

/// The place of a kind among the kinds.
pub(crate) fn rank_of_kind(kind: Kind) -> u32
    ensures { result ≡ rank_of_kind kind }
{
    match kind {
        Kind::Source => 0,
        Kind::Sink => 1,
        Kind::Opin => 2,
        Kind::Ipin => 3,
        Kind::Chanx => 4,
        Kind::Chany => 5,
    }
}

/// Sets the mark of a place, if it is of the kind.
#[tactic(auto, using(crate::proofs::Marking::place_set, crate::proofs::Marking::place_kept))]
fn set_place(marks: &mut Vec<bool>, kind: Kind, place: (Kind, u32, u32))
    requires whole { length marks.old.items ≡ mark_count }
    ensures { (test : (x y : ℕ) → Bool) → AreMarks test marks.old.items →
        AreMarks (λ i j. test i j || is_same_place (kind, i, j) place) marks.new.items }
{
    if rank_of_kind(kind) == rank_of_kind(place.0) {
        set_mark(marks, place.1, place.2);
    }
}

/// The marks of the places of a kind.
pub(crate) fn place_marks(
    alloc: Global,
    kind: Kind,
    places: &[(Kind, u32, u32)],
) -> Result<Vec<bool>, AllocError>
    ensures { IfOk result (λ v. AreMarks (some_place kind places.now) v.items) }
{
    let mut marks = no_marks(alloc)?;
    for place in places {
        set_place(&mut marks, kind, *place);
    }
    Ok(marks)
}
