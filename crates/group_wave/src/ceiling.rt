//! The present cost of the tree that a net had before. The tree has a way to each sink, so no sink
//! that is left costs more, and the search looks for no way that does.

ghost use Rattle.std.specs.Prelude.{◌≡◌, Some, true};
ghost use Rattle.routing_problem.specs.Nodes.{is_wire_at, kind_of_node};

use route_tree::Row;
use routing_problem::Kind;
use wave_ground::{Ground, WIRE};
use wave_queue::Key;

/// What it costs to enter a wire.
fn wire_price(ground: &Ground<'_>, wire: u32) -> u128
    requires { is_wire_at ground.now.space.device wire ≡ true }
{
    if ground.is_free(wire) {
        WIRE
    } else {
        ground.wire_cost(wire)
    }
}

/// What it costs to enter a node of a tree again. The source is never entered, nor is the output
/// pin if ways start there.
#[tactic(auto, using(crate::proofs::PricedNodes::kind_sink, crate::proofs::PricedNodes::kind_within))]
fn price(ground: &Ground<'_>, node: u32, enters_output: bool) -> u128 {
    match ground.kind(node) {
        Some(Kind::Chanx | Kind::Chany) => wire_price(ground, node),
        Some(Kind::Ipin) => ground.pin_cost(node),
        Some(Kind::Sink) => ground.sink_cost(node),
        Some(Kind::Opin) if enters_output => ground.cost(node),
        _ => 0,
    }
}

/// What it costs to enter all nodes of a tree again.
fn total(ground: &Ground<'_>, rows: &[Row], enters_output: bool) -> u128 {
    let mut sum: u128 = 0;
    for row in rows {
        sum = sum.saturating_add(price(ground, row.node, enters_output));
    }
    sum
}

/// The ceiling by a tree that the net had before. None if it had no tree, or one whose cost doesn't
/// fit.
pub(crate) fn ceiling_of<K: Key>(ground: &Ground<'_>, rows: &[Row], enters_output: bool) -> K {
    if rows.is_empty() {
        return K::greatest();
    }
    K::cut(total(ground, rows, enters_output))
}

/// The ceiling after the first way from the source: none, if the way leaves it over another output
/// pin than the tree that the net had before.
pub(crate) fn ceiling_after<K: Key>(ceiling: K, way: &[u32], rows: &[Row]) -> K {
    match (way.first(), rows.get(1)) {
        (Some(pin), Some(row)) if *pin == row.node => ceiling,
        _ => K::greatest(),
    }
}
