//! How many places the border of a cut has.

ghost use Rattle.std.specs.Prelude.{◌≡◌, ◌≤◌, ◌+◌, if◌then◌else◌, count_by, map};
ghost use Rattle.std.specs.List.{range_with_len, flat_map};
ghost use Rattle.rr_graph.specs.Fabric.{longest_side, numbers_below};
ghost use Rattle.rr_graph.specs.node.Kind.TheVariants.{Chanx, Chany};
ghost use Rattle.width_bound.specs.Cuts.{is_border, border_size, places_of_array};

use crate::sides::Sides;
use rr_graph::Kind;

/// One if a test passes.
fn one_if(test: bool) -> u32
    ensures { result ≡ (if test then 1 else 0) }
{
    u32::from(test)
}

/// How many places above a row are of the border.
fn border_of_row(sides: &Sides, nx: u32, y: u32) -> u32
    requires { nx ≤ longest_side }
    ensures count { result ≡ count_by (is_border sides.now)
        (map (λ x. (Chanx, x, y)) (range_with_len 1 nx)) }
    ensures few { result ≤ longest_side }
{
    let mut count = 0;
    for column in 0..nx {
        count += one_if(sides.is_border(Kind::Chanx, column + 1, y));
    }
    count
}

/// How many places right of a column are of the border.
fn border_of_column(sides: &Sides, ny: u32, x: u32) -> u32
    requires { ny ≤ longest_side }
    ensures count { result ≡ count_by (is_border sides.now)
        (map (λ y. (Chany, x, y)) (range_with_len 1 ny)) }
    ensures few { result ≤ longest_side }
{
    let mut count = 0;
    for row in 0..ny {
        count += one_if(sides.is_border(Kind::Chany, x, row + 1));
    }
    count
}

/// How many places above rows are of the border.
fn border_above(sides: &Sides, nx: u32, ny: u32) -> u32
    requires columns { nx ≤ longest_side }
    requires rows { ny ≤ longest_side }
    ensures count { result ≡ count_by (is_border sides.now)
        (flat_map (λ y. map (λ x. (Chanx, x, y)) (range_with_len 1 nx)) (numbers_below (ny + 1))) }
    ensures few { result ≤ 10100 }
{
    let mut count = 0;
    for y in 0..ny + 1 {
        count += border_of_row(sides, nx, y);
    }
    count
}

/// How many places right of columns are of the border.
fn border_right(sides: &Sides, nx: u32, ny: u32) -> u32
    requires columns { nx ≤ longest_side }
    requires rows { ny ≤ longest_side }
    ensures count { result ≡ count_by (is_border sides.now)
        (flat_map (λ x. map (λ y. (Chany, x, y)) (range_with_len 1 ny)) (numbers_below (nx + 1))) }
    ensures few { result ≤ 10100 }
{
    let mut count = 0;
    for x in 0..nx + 1 {
        count += border_of_column(sides, ny, x);
    }
    count
}

/// How many places of an array are of the border.
#[tactic(auto, using(crate::proofs::BorderCount::both_counted))]
pub(crate) fn count_border(sides: &Sides, nx: u32, ny: u32) -> u32
    requires columns { nx ≤ longest_side }
    requires rows { ny ≤ longest_side }
    ensures count { result ≡ border_size nx ny sides.now }
    ensures few { result ≤ 20200 }
{
    border_above(sides, nx, ny) + border_right(sides, nx, ny)
}
