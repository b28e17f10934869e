//! Views in which no net is left out, brought up to date turn by turn.

ghost use Rattle.std.specs.Prelude.{◌≡◌, ◌<◌, ◌≤◌, ◌+◌, ◌∷◌, [], ℕ, All, length};
ghost use Rattle.route_tree.specs.TreeLists.{list_of_tree};
ghost use Rattle.route_tree.specs.kept.Marked.{nodes_of};
ghost use Rattle.node_cost.specs.Views.{others_in};
ghost use Rattle.congestion_book.specs.Contents.{Content, view_of};
ghost use Rattle.congestion_book.specs.Totals.{ShowsAll, ShowsNet, LacksNet, MayReplace, with_list};
ghost use Rattle.congestion_book.specs.kept.Usage.{times_in};
ghost use Rattle.congestion_book.specs.kept.Views.{LeavesOut};

use crate::net_view::leave_rows;
use crate::routes::{are_same, rows_of};
use node_cost::View;
use route_tree::{Row, Tree};

/// One more net uses a node.
#[tactic(auto, using(crate::proofs::Seeing::leaves_back))]
fn return_node(view: &mut View, id: u32)
    requires there { id < length view.old }
    requires room { others_in view.old id < 65535 }
    ensures { LeavesOut (id ∷ []) view.new view.old }
{
    view.take_back(id);
}

/// One more net uses each node of a tree.
fn return_rows(view: &mut View, rows: &[Row])
    requires there { All (λ r. r.node < length view.old) rows.now }
    requires room { (a : ℕ) → others_in view.old a + times_in (nodes_of rows.now) a ≤ 65535 }
    ensures { LeavesOut (nodes_of rows.now) view.new view.old }
{
    for row in rows {
        return_node(view, row.node);
    }
}

/// Leaves the tree of a net, if it has one, out of a view that shows all nets: then it is the view
/// of the net.
pub fn leave_net(view: &mut View, net: u32, own: &Option<Tree>)
    requires shown { (c : Content) × ShowsNet c net own.now view.old }
    ensures { (c : Content) → ShowsNet c net own.now view.old → view.new ≡ view_of c net }
{
    leave_rows(view, rows_of(own));
}

/// Puts the tree of a net, if it has one, back into the view of the net: then it shows all nets.
pub fn return_net(view: &mut View, net: u32, own: &Option<Tree>)
    requires lacks { (c : Content) × LacksNet c net own.now view.old }
    ensures { (c : Content) → LacksNet c net own.now view.old → ShowsAll c view.new }
{
    return_rows(view, rows_of(own));
}

/// Replaces the tree of a net, or none, by another one, or none, in a view that shows all nets.
pub fn replace_net(view: &mut View, net: u32, before: &Option<Tree>, after: &Option<Tree>)
    requires shown { (c : Content) × MayReplace c net before.now after.now view.old }
    ensures { (c : Content) → MayReplace c net before.now after.now view.old →
        ShowsAll (with_list c net (list_of_tree after.now)) view.new }
{
    if are_same(before, after) {
        return;
    }
    leave_rows(view, rows_of(before));
    return_rows(view, rows_of(after));
}
