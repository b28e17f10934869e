//! Whether a tree routes a net.

ghost use Rattle.std.specs.Prelude.{◌≡◌, ◌↔◌, ◌<◌, All, length, false, Err, IsOk};
ghost use Rattle.routing_problem.specs.Nodes.{node_count_of};
ghost use Rattle.routing_problem.specs.Problems.{IsProblem, net_in};
ghost use Rattle.route_tree.specs.Rows.{pairs_of, IsTree};
ghost use Rattle.route_tree.specs.Legality.{is_among};
ghost use Rattle.route_tree.specs.Faults.{begins_elsewhere, misses_sink, IsFirstFault, IsRoute};
ghost use Rattle.route_tree.specs.kept.Ladder.{sink_fault_of, marked_fault_of, net_fault_of, fault_of, or_ok};

use crate::fault::TreeFault;
use crate::marks::Marks;
use crate::passes::{
    begins_elsewhere, breaks_off, has_dead_end, has_foreign_sink, has_node_twice, is_one_unmarked,
    lacks_switch, leaves_twice,
};
use crate::stamps::Stamps;
use crate::tree::{Row, Tree};
use routing_problem::{Device, Problem};

/// The first fault among those for which the sinks are marked. The caller has found whether a sink
/// is missed.
fn sink_fault(
    device: &Device,
    sinks: &[u32],
    rows: &[Row],
    misses: bool,
    stamps: &mut Stamps,
) -> Option<TreeFault>
    requires tree { IsTree rows.now }
    requires below { All (λ r. r.node < length stamps.old) rows.now }
    requires sinks { All (λ s. s < length stamps.old) sinks.now }
    requires reported { misses ≡ misses_sink sinks.now (pairs_of rows.now) }
    ensures fault { result ≡ sink_fault_of device.now sinks.now (pairs_of rows.now) }
    ensures length { length stamps.new ≡ length stamps.old }
{
    if has_foreign_sink(device, rows, sinks, stamps) {
        return Some(TreeFault::ForeignSink);
    }
    if has_dead_end(rows, sinks, stamps) {
        return Some(TreeFault::Dangling);
    }
    if misses {
        return Some(TreeFault::MissingSink);
    }
    if breaks_off(device, rows) {
        return Some(TreeFault::Order);
    }
    None
}

/// The first fault of pairs that are switches and begin at the source.
#[tactic(auto, using(crate::proofs::RowTests::nodes_are))]
fn marked_fault(
    device: &Device,
    source: u32,
    sinks: &[u32],
    rows: &[Row],
    stamps: &mut Stamps,
) -> Option<TreeFault>
    requires tree { IsTree rows.now }
    requires below { All (λ r. r.node < length stamps.old) rows.now }
    requires sinks { All (λ s. s < length stamps.old) sinks.now }
    requires apart { is_among sinks.now source ≡ false }
    requires begins { begins_elsewhere source (pairs_of rows.now) ≡ false }
    ensures fault { result ≡ marked_fault_of device.now source sinks.now (pairs_of rows.now) }
    ensures length { length stamps.new ≡ length stamps.old }
{
    if has_node_twice(rows, stamps) {
        return Some(TreeFault::NodeTwice);
    }
    let misses = is_one_unmarked(sinks, stamps);
    if leaves_twice(rows, source) {
        return Some(TreeFault::SecondOutput);
    }
    sink_fault(device, sinks, rows, misses, stamps)
}

/// The first fault of pairs for a net that exists.
#[tactic(auto, using(crate::proofs::Bounds::rows_below))]
fn net_fault(
    device: &Device,
    source: u32,
    sinks: &[u32],
    rows: &[Row],
    stamps: &mut Stamps,
) -> Option<TreeFault>
    requires tree { IsTree rows.now }
    requires fits { length stamps.old ≡ node_count_of device.now }
    requires sinks { All (λ s. s < node_count_of device.now) sinks.now }
    requires apart { is_among sinks.now source ≡ false }
    ensures fault { result ≡ net_fault_of device.now source sinks.now (pairs_of rows.now) }
    ensures length { length stamps.new ≡ length stamps.old }
{
    if begins_elsewhere(rows, source) {
        return Some(TreeFault::WrongSource);
    }
    if lacks_switch(device, rows) {
        return Some(TreeFault::NoSwitch);
    }
    marked_fault(device, source, sinks, rows, stamps)
}

/// The first fault of a tree for a net.
#[tactic(auto, using(crate::proofs::Bounds::sinks_below, crate::proofs::Bounds::source_apart), unfolding(crate::specs::kept::Ladder::fault_of))]
fn fault(problem: &Problem, net: u32, rows: &[Row], stamps: &mut Stamps) -> Option<TreeFault>
    requires tree { IsTree rows.now }
    requires fits { length stamps.old ≡ node_count_of problem.now.device }
    ensures fault { result ≡ fault_of problem.now net (pairs_of rows.now) }
    ensures length { length stamps.new ≡ length stamps.old }
    ensures limits { IsProblem problem.now }
{
    if net >= problem.nets() {
        return Some(TreeFault::NoNet);
    }
    let source = problem.source(net);
    let sinks = problem.sinks(net);
    net_fault(problem.device(), source, sinks, rows, stamps)
}

/// Ok where there is no fault.
fn or_ok(fault: Option<TreeFault>) -> Result<(), TreeFault>
    ensures { result ≡ or_ok fault }
{
    match fault {
        None => Ok(()),
        Some(fault) => Err(fault),
    }
}

/// Whether a tree routes a net: it joins the net's source to exactly its sinks, through switches of
/// the device, and its pairs are in the order in which routings are written. If not, the first
/// fault in the order of `TreeFault` is reported. It takes time of the order of the tree's rows.
/// The marks fit afterwards, whatever the answer.
pub fn check_tree(
    problem: &Problem,
    net: u32,
    tree: &Tree,
    marks: &mut Marks,
) -> Result<(), TreeFault>
    requires fits { marks.old ≡ node_count_of problem.now.device }
    ensures route { IsOk result ↔ IsRoute problem.now net (pairs_of tree.now) }
    ensures faults { (fault : TreeFault) → (result ≡ Err fault)
        ↔ IsFirstFault problem.now net (pairs_of tree.now) fault }
    ensures fits { marks.new ≡ marks.old }
{
    or_ok(fault(problem, net, &tree.rows, &mut marks.stamps))
}
