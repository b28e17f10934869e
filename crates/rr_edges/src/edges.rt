//! The edges of a device.

ghost use Rattle.std.specs.Prelude.{◌≡◌, ◌==◌, ◌&&◌};
ghost use Rattle.channel_tables.specs.LastPlaces.{last_by};
ghost use Rattle.rr_edges.specs.kept.Channels.{is_next_to, passes_corner};
ghost use Rattle.rr_edges.specs.Edges.{is_edge};
ghost use Rattle.channel_tables.specs.Pins.{IsTapCounts};

use channel_tables::{Kind, Layout, Node, TapCounts};

/// Whether two wires of one track of a channel are different and touch a common corner.
fn is_next_to(first: u32, last: u32, other: u32, other_last: u32) -> bool
    ensures { result ≡ is_next_to first last other other_last }
{
    other != first && (other <= last.saturating_add(1) && first <= other_last.saturating_add(1))
}

/// Whether a wire touches a corner of its channel.
fn passes_corner(first: u32, last: u32, corner: u32) -> bool
    ensures { result ≡ passes_corner first last corner }
{
    first <= corner.saturating_add(1) && corner <= last
}

/// Whether two wires above rows are of one track, different, and have a common corner.
fn rows_join(a: Node, a_last: u32, b: Node, b_last: u32) -> bool
    ensures { result ≡ ((b.number == a.number) &&
        ((b.y == a.y) && is_next_to a.x a_last b.x b_last)) }
{
    b.number == a.number && (b.y == a.y && is_next_to(a.x, a_last, b.x, b_last))
}

/// Whether a wire above a row and one right of a column are of one track and have a common corner.
fn row_and_column_join(a: Node, a_last: u32, b: Node, b_last: u32) -> bool
    ensures { result ≡ ((b.number == a.number) &&
        (passes_corner a.x a_last b.x && passes_corner b.y b_last a.y)) }
{
    b.number == a.number && (passes_corner(a.x, a_last, b.x) && passes_corner(b.y, b_last, a.y))
}

/// Whether a wire right of a column and one above a row are of one track and have a common corner.
fn column_and_row_join(a: Node, a_last: u32, b: Node, b_last: u32) -> bool
    ensures { result ≡ ((b.number == a.number) &&
        (passes_corner a.y a_last b.y && passes_corner b.x b_last a.x)) }
{
    b.number == a.number && (passes_corner(a.y, a_last, b.y) && passes_corner(b.x, b_last, a.x))
}

/// Whether two wires right of columns are of one track, different, and have a common corner.
fn columns_join(a: Node, a_last: u32, b: Node, b_last: u32) -> bool
    ensures { result ≡ ((b.number == a.number) &&
        ((b.x == a.x) && is_next_to a.y a_last b.y b_last)) }
{
    b.number == a.number && (b.x == a.x && is_next_to(a.y, a_last, b.y, b_last))
}

/// Whether an edge leads from a to b, given their last places and how many tracks pins tap.
#[inline(always)]
#[tactic(auto, using(crate::proofs::JoinTests::rows_join, crate::proofs::JoinTests::row_and_column_join, crate::proofs::JoinTests::column_and_row_join, crate::proofs::JoinTests::columns_join), unfolding(crate::specs::Edges::is_edge))]
pub(crate) fn is_edge(
    layout: &Layout,
    counts: TapCounts,
    a: Node,
    a_last: u32,
    b: Node,
    b_last: u32,
) -> bool
    requires counts { IsTapCounts layout.now counts }
    requires a_last { a_last ≡ last_by a.kind layout.now a }
    requires b_last { b_last ≡ last_by b.kind layout.now b }
    ensures { result ≡ is_edge layout.now a b }
{
    match (a.kind, b.kind) {
        (Kind::Source, Kind::Opin) => layout.belongs(b, a),
        (Kind::Opin, Kind::Chanx | Kind::Chany) => layout.taps(counts, a, b, b_last),
        (Kind::Chanx | Kind::Chany, Kind::Ipin) => layout.taps(counts, b, a, a_last),
        (Kind::Ipin, Kind::Sink) => layout.belongs(a, b),
        (Kind::Chanx, Kind::Chanx) => rows_join(a, a_last, b, b_last),
        (Kind::Chanx, Kind::Chany) => row_and_column_join(a, a_last, b, b_last),
        (Kind::Chany, Kind::Chanx) => column_and_row_join(a, a_last, b, b_last),
        (Kind::Chany, Kind::Chany) => columns_join(a, a_last, b, b_last),
        _ => false,
    }
}
