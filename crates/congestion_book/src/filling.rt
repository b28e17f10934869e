//! Whether the others have filled a node since a net looked.

ghost use Rattle.std.specs.Prelude.{◌≡◌, ◌<◌, ◌≤◌, ℕ, get_or, length, true};
ghost use Rattle.std.specs.List.{list_any};
ghost use Rattle.routing_problem.specs.Nodes.{node_count_of};
ghost use Rattle.node_cost.specs.Views.{others_in};
ghost use Rattle.congestion_book.specs.Turns.{one_if};
ghost use Rattle.congestion_book.specs.kept.Views.{stands_in, others_by, is_newly_full, filled_by};

use crate::usage::one_if;
use node_cost::{Counts, View};
use route_tree::Row;
use routing_problem::Device;

/// Whether a node is in this row of a tree.
#[tactic(auto, using(crate::proofs::Filled::stands_there))]
fn stands_at(own: &[Row], row: usize, id: u32) -> bool
    ensures { result ≡ true → stands_in own.now id ≡ true }
{
    row < own.len() && own[row].node == id
}

/// Whether a node is in a row of a tree.
fn stands_in(own: &[Row], id: u32) -> bool
    ensures { result ≡ stands_in own.now id }
{
    own.iter().any(|row| row.node == id)
}

/// What a net whose tree has these rows adds to the use of a node, which is usually in this row.
fn own_use(own: &[Row], row: usize, id: u32) -> u32
    ensures { result ≡ one_if (stands_in own.now id) }
{
    one_if(stands_at(own, row, id) || stands_in(own, id))
}

/// Whether no more other nets use a node than the view shows, as far as that is seen without going
/// over the tree, where the node may be in this row.
fn none_came(view: &View, own: &[Row], counts: &Counts, row: usize, id: u32) -> bool
    requires seen { id < length view.now }
    requires there { id < length counts.now }
    ensures { result ≡ true → others_by own.now counts.now id ≤ others_in view.now id }
{
    let count = counts.get(id);
    let others = view.others(id);
    count <= others || (count - 1 <= others && stands_at(own, row, id))
}

/// Whether a node with so much room is full by these counts without the net's own, and was not by
/// the view. The tree, where it may be in this row, is gone over only if the counts with the net's
/// own fill the node.
#[tactic(auto, using(crate::proofs::Filled::few_there, crate::proofs::Filled::was_filled, crate::proofs::Filled::filled_now))]
fn fills_room(view: &View, own: &[Row], counts: &Counts, row: usize, id: u32, room: u32) -> bool
    requires seen { id < length view.now }
    requires there { id < length counts.now }
    requires used { one_if (stands_in own.now id) ≤ get_or counts.now id 0 }
    ensures { result ≡
        is_newly_full room (others_by own.now counts.now id) (others_in view.now id) }
{
    let count = counts.get(id);
    if count < room {
        return false;
    }
    if room <= view.others(id) {
        return false;
    }
    room <= count - own_use(own, row, id)
}

/// Whether a node is full by these counts without the net's own, and was not by the view. It may be
/// in this row of the tree.
#[tactic(auto, using(crate::proofs::Filled::not_filled, crate::proofs::Filled::outside, crate::proofs::Filled::none_came, crate::proofs::Filled::by_room))]
fn is_filled(
    view: &View,
    device: &Device,
    own: &[Row],
    counts: &Counts,
    row: usize,
    id: u32,
) -> bool
    requires size { length view.now ≡ node_count_of device.now }
    requires counts { length counts.now ≡ node_count_of device.now }
    requires used { (a : ℕ) → one_if (stands_in own.now a) ≤ get_or counts.now a 0 }
    ensures { result ≡ filled_by device.now own.now counts.now view.now id }
{
    if id >= device.node_count() {
        return false;
    }
    if none_came(view, own, counts, row, id) {
        return false;
    }
    match device.capacity(id) {
        None => false,
        Some(room) => fills_room(view, own, counts, row, id, room),
    }
}

/// Whether some node of these rows is full by these counts without the net's own, and was not by
/// the view. The other rows are those of the net's own tree, most of them in the same places as
/// here.
pub(crate) fn any_filled(
    view: &View,
    device: &Device,
    own: &[Row],
    counts: &Counts,
    rows: &[Row],
) -> bool
    requires size { length view.now ≡ node_count_of device.now }
    requires counts { length counts.now ≡ node_count_of device.now }
    requires used { (a : ℕ) → one_if (stands_in own.now a) ≤ get_or counts.now a 0 }
    ensures { result ≡
        list_any (λ r. filled_by device.now own.now counts.now view.now r.node) rows.now }
{
    for row in 0..rows.len() {
        if is_filled(view, device, own, counts, row, rows[row].node) {
            return true;
        }
    }
    false
}
