//! The tests of a tree, each a pass over its rows.

ghost use Rattle.std.specs.Prelude.{◌≡◌, ◌+◌, ◌<◌, ◌==◌, ◌&&◌, not, false, All, count_by, drop, length, get_or};
ghost use Rattle.std.specs.List.{list_any};
ghost use Rattle.routing_problem.specs.Edges.{edge_between};
ghost use Rattle.routing_problem.specs.Problems.{is_sink};
ghost use Rattle.route_tree.specs.Legality.{has_twice};
ghost use Rattle.route_tree.specs.Rows.{no_row, node_in, pairs_of, IsTree};
ghost use Rattle.route_tree.specs.Faults.{begins_elsewhere, lacks_switch, leaves_twice, has_foreign_sink};
ghost use Rattle.route_tree.specs.kept.Ladder.{has_dead_end, breaks_at, breaks_off};
ghost use Rattle.route_tree.specs.kept.Marked.{IsMarked, nodes_of};

use crate::stamps::{Stamps, mark_only};
use crate::tree::{Row, count_pairs, pair_at};
use routing_problem::{Device, EdgeFinder};

/// Whether there is no pair, or the first one begins elsewhere than at the source.
#[tactic(auto, using(crate::proofs::RowTests::begins))]
pub(crate) fn begins_elsewhere(rows: &[Row], source: u32) -> bool
    requires { IsTree rows.now }
    ensures { result ≡ begins_elsewhere source (pairs_of rows.now) }
{
    rows.len() < 2 || rows[0].node != source
}

/// Whether a pair is no edge of the device.
#[tactic(auto, using(crate::proofs::RowTests::none_passes))]
pub(crate) fn lacks_switch(device: &Device, rows: &[Row]) -> bool
    requires { IsTree rows.now }
    ensures { result ≡ lacks_switch device.now (pairs_of rows.now) }
{
    let mut finder = EdgeFinder::new(device);
    for index in 0..count_pairs(rows) {
        let pair = pair_at(rows, index);
        if !finder.joins(pair.0, pair.1) {
            return true;
        }
    }
    false
}

/// Whether two rows have the same node. All marks are taken off first; if no two rows do, their
/// nodes are marked then.
#[tactic(auto, using(crate::proofs::RowTests::met_twice, crate::proofs::RowTests::met_once))]
pub(crate) fn has_node_twice(rows: &[Row], stamps: &mut Stamps) -> bool
    requires { All (λ r. r.node < length stamps.old) rows.now }
    ensures twice { result ≡ has_twice (nodes_of rows.now) }
    ensures marked { result ≡ false → IsMarked stamps.new (nodes_of rows.now) }
    ensures length { length stamps.new ≡ length stamps.old }
{
    stamps.clear();
    for row in rows {
        if stamps.is_marked(row.node) {
            return true;
        }
        stamps.mark(row.node);
    }
    false
}

/// Whether one of the numbers is not marked.
pub(crate) fn is_one_unmarked(numbers: &[u32], stamps: &Stamps) -> bool
    ensures { result ≡ list_any (λ s. not (get_or stamps.now s false)) numbers.now }
{
    numbers.iter().any(|number| !stamps.is_marked(*number))
}

/// Whether a pair begins at the source.
fn begins_at(rows: &[Row], index: usize, source: u32) -> bool
    requires tree { IsTree rows.now }
    requires there { index < length (pairs_of rows.now) }
    ensures { result ≡ ((get_or (pairs_of rows.now) index (0, 0)).0 == source) }
{
    pair_at(rows, index).0 == source
}

/// How many pairs begin at the source.
#[tactic(auto, using(crate::proofs::RowTests::count_next))]
fn count_leaving(rows: &[Row], source: u32) -> usize
    requires { IsTree rows.now }
    ensures { result ≡ count_by (λ p. p.0 == source) (pairs_of rows.now) }
{
    let mut count = 0;
    for index in 0..count_pairs(rows) {
        count += usize::from(begins_at(rows, index, source));
    }
    count
}

/// Whether two pairs begin at the source.
pub(crate) fn leaves_twice(rows: &[Row], source: u32) -> bool
    requires { IsTree rows.now }
    ensures { result ≡ leaves_twice source (pairs_of rows.now) }
{
    count_leaving(rows, source) > 1
}

/// Whether a node is a sink that is not marked.
fn is_foreign(device: &Device, stamps: &Stamps, node: u32) -> bool
    ensures { result ≡ (is_sink device.now node && not (get_or stamps.now node false)) }
{
    device.is_sink(node) && !stamps.is_marked(node)
}

/// Whether a row but the first is a sink that is not marked.
fn has_foreign_row(device: &Device, rows: &[Row], stamps: &Stamps) -> bool
    ensures { result ≡ list_any (λ r. is_sink device.now r.node && not
        (get_or stamps.now r.node false)) (drop 1 rows.now) }
{
    rows.iter()
        .skip(1)
        .any(|row| is_foreign(device, stamps, row.node))
}

/// Whether a pair ends in a sink that is not among those given. These are marked.
pub(crate) fn has_foreign_sink(
    device: &Device,
    rows: &[Row],
    sinks: &[u32],
    stamps: &mut Stamps,
) -> bool
    requires { All (λ s. s < length stamps.old) sinks.now }
    ensures foreign { result ≡ has_foreign_sink device.now sinks.now (pairs_of rows.now) }
    ensures length { length stamps.new ≡ length stamps.old }
{
    mark_only(stamps, sinks);
    has_foreign_row(device, rows, stamps)
}

/// Whether a pair ends neither in one of the sinks nor where a later pair begins. The sinks are
/// marked; where pairs begin is marked after them, from the last pair on.
#[tactic(auto, using(crate::proofs::DeadEnds::dead, crate::proofs::DeadEnds::alive))]
pub(crate) fn has_dead_end(rows: &[Row], sinks: &[u32], stamps: &mut Stamps) -> bool
    requires tree { IsTree rows.now }
    requires below { All (λ r. r.node < length stamps.old) rows.now }
    requires sinks { All (λ s. s < length stamps.old) sinks.now }
    ensures dead { result ≡ has_dead_end sinks.now (pairs_of rows.now) }
    ensures length { length stamps.new ≡ length stamps.old }
{
    mark_only(stamps, sinks);
    let count = count_pairs(rows);
    for behind in 0..count {
        let pair = pair_at(rows, count - 1 - behind);
        if !stamps.is_marked(pair.1) {
            return true;
        }
        stamps.mark(pair.0);
    }
    false
}

/// Whether a pair ends in no sink, and the next one does not begin there.
#[tactic(auto, using(crate::proofs::Trees::length_pairs))]
fn breaks_at(device: &Device, rows: &[Row], index: usize) -> bool
    requires tree { IsTree rows.now }
    requires there { index + 1 < length (pairs_of rows.now) }
    ensures { result ≡ breaks_at device.now (pairs_of rows.now) index }
{
    let end = pair_at(rows, index).1;
    pair_at(rows, index + 1).0 != end && !device.is_sink(end)
}

/// Whether a pair begins elsewhere than the one before ended, which was no sink.
pub(crate) fn breaks_off(device: &Device, rows: &[Row]) -> bool
    requires { IsTree rows.now }
    ensures { result ≡ breaks_off device.now (pairs_of rows.now) }
{
    for index in 0..count_pairs(rows).saturating_sub(1) {
        if breaks_at(device, rows, index) {
            return true;
        }
    }
    false
}
