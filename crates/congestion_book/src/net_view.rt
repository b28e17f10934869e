//! What a net sees of the others.

ghost use Rattle.std.specs.Prelude.{◌≡◌, ◌<◌, ◌≤◌, ◌∷◌, [], ℕ, All, length, get_or};
ghost use Rattle.std.specs.List.{zip};
ghost use Rattle.std.specs.Arc.{arc_value};
ghost use Rattle.node_cost.specs.Views.{others_in};
ghost use Rattle.route_tree.specs.kept.Marked.{nodes_of};
ghost use Rattle.congestion_book.specs.kept.Usage.{times_in};
ghost use Rattle.congestion_book.specs.kept.Views.{LeavesOut};

use node_cost::{Counts, Histories, View};
use route_tree::Row;
use std::alloc::Global;
use std::sync::Arc;

/// One fewer net uses a node.
#[tactic(auto, using(crate::proofs::Seeing::leaves_one))]
fn leave_node(view: &mut View, id: u32)
    requires there { id < length view.old }
    requires used { 1 ≤ others_in view.old id }
    ensures { LeavesOut (id ∷ []) view.old view.new }
{
    view.leave_out(id);
}

/// One fewer net uses each node of a tree.
pub(crate) fn leave_rows(view: &mut View, rows: &[Row])
    requires there { All (λ r. r.node < length view.old) rows.now }
    requires used { (a : ℕ) → times_in (nodes_of rows.now) a ≤ others_in view.old a }
    ensures { LeavesOut (nodes_of rows.now) view.old view.new }
{
    for row in rows {
        leave_node(view, row.node);
    }
}

/// The view becomes the one by these counts and histories without the net whose tree has these
/// rows.
#[tactic(auto, using(node_cost::proofs::Views::length_seen, node_cost::proofs::Views::others_at))]
pub(crate) fn show(
    view: &mut View,
    own: &[Row],
    counts: &Counts,
    histories: &Arc<Histories, Global>,
)
    requires there { All (λ r. r.node < length counts.now) own.now }
    requires size { length view.old ≡ length counts.now }
    requires histories { length (arc_value histories.now) ≡ length counts.now }
    requires used { (a : ℕ) → times_in (nodes_of own.now) a ≤ get_or counts.now a 0 }
    ensures { LeavesOut (nodes_of own.now)
        (zip counts.now (arc_value histories.now)) view.new }
{
    view.look_at(counts, histories);
    leave_rows(view, own);
}
