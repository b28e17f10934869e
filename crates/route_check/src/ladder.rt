//! The tests of a net's list, one after the other.

ghost use Rattle.std.specs.Prelude.{◌≡◌, ◌==◌, ◌&&◌, not, false, None, length, get_or, ◌<◌, IfOk, count_by};
ghost use Rattle.std.specs.List.{list_any};
ghost use Rattle.std.specs.List.Sorted.{IsStrictlyIncreasing};
ghost use Rattle.routing_problem.specs.Edges.{edge_between};
ghost use Rattle.routing_problem.specs.Problems.{is_sink};
ghost use Rattle.route_tree.specs.Paths.{ends_of};
ghost use Rattle.route_tree.specs.Legality.{is_among, is_listed};
ghost use Rattle.route_tree.specs.Faults.{begins_elsewhere, lacks_switch, reaches_twice, leaves_twice, has_foreign_sink, misses_sink};
ghost use Rattle.route_check.specs.kept.Ends.{no_end};
ghost use Rattle.route_check.specs.kept.Judged.{net_of, is_foreign, early_fault_of, late_fault_of, TellsDangling, IsReportedBy};

use crate::listing::{End, Listing};
use crate::order::is_listed;
use crate::terminals::BorrowedTerminals;
use crate::walks::dangles;
use route_tree::TreeFault;
use routing_problem::Device;
use std::alloc::{AllocError, Global};

/// Whether there is no pair, or the first one begins elsewhere than at the source.
fn begins_elsewhere(source: u32, pairs: &[(u32, u32)]) -> bool
    ensures { result ≡ begins_elsewhere source pairs.now }
{
    match pairs.first() {
        None => true,
        Some(pair) => pair.0 != source,
    }
}

/// Whether a pair is no edge of the device.
fn lacks_switch(device: &Device, pairs: &[(u32, u32)]) -> bool
    ensures { result ≡ lacks_switch device.now pairs.now }
{
    device.lacks_edge(pairs)
}

/// How many pairs begin at the source.
fn count_leaving(source: u32, pairs: &[(u32, u32)]) -> usize
    ensures { result ≡ count_by (λ p. p.0 == source) pairs.now }
{
    pairs.iter().filter(|pair| pair.0 == source).count()
}

/// Whether two pairs begin at the source.
fn leaves_twice(source: u32, pairs: &[(u32, u32)]) -> bool
    ensures { result ≡ leaves_twice source pairs.now }
{
    count_leaving(source, pairs) > 1
}

/// Whether a node is one of the sinks. Among them it is usually at this place.
fn is_one_of(sinks: &[u32], place: usize, node: u32) -> bool
    requires { IsStrictlyIncreasing sinks.now }
    ensures { result ≡ is_among sinks.now node }
{
    if place < sinks.len() && sinks[place] == node {
        return true;
    }
    sinks.binary_search(&node).is_ok()
}

/// Whether an end is in a sink of the device that is none of these.
fn is_foreign(device: &Device, sinks: &[u32], ends: &[End], place: usize) -> bool
    requires ascending { IsStrictlyIncreasing sinks.now }
    requires there { place < length ends.now }
    ensures { result ≡ is_foreign device.now sinks.now (get_or ends.now place no_end) }
{
    let node = ends[place].node;
    device.is_sink(node) && !is_one_of(sinks, place, node)
}

/// Whether a pair ends in a sink of the device that is none of these. In order of node, sinks come
/// before wires and input pins.
fn has_foreign_end(device: &Device, sinks: &[u32], ends: &[End]) -> bool
    requires { IsStrictlyIncreasing sinks.now }
    ensures { result ≡ list_any (is_foreign device.now sinks.now) ends.now }
{
    for place in 0..ends.len() {
        if is_foreign(device, sinks, ends, place) {
            return true;
        }
    }
    false
}

/// Whether the nodes in which pairs end include a sink of the device that is none of these.
fn has_foreign_sink(device: &Device, sinks: &[u32], listing: &Listing<'_>) -> bool
    requires { IsStrictlyIncreasing sinks.now }
    ensures { result ≡ has_foreign_sink device.now sinks.now listing.now }
{
    has_foreign_end(device, sinks, listing.ends())
}

/// Whether no pair ends in the sink of this place.
fn is_missed(sinks: &[u32], listing: &Listing<'_>, place: usize) -> bool
    requires { place < length sinks.now }
    ensures { result ≡ not (is_among (ends_of listing.now) (get_or sinks.now place 0)) }
{
    match listing.row_at(place, sinks[place]) {
        None => true,
        Some(_) => false,
    }
}

/// Whether the sinks include one in which no pair ends.
fn misses_sink(sinks: &[u32], listing: &Listing<'_>) -> bool
    ensures { result ≡ misses_sink sinks.now listing.now }
{
    for place in 0..sinks.len() {
        if is_missed(sinks, listing, place) {
            return true;
        }
    }
    false
}

/// The first fault of those that are seen pair by pair.
#[tactic(auto, unfolding(crate::specs::kept::Judged::early_fault_of))]
fn early_fault(
    device: &Device,
    net: &BorrowedTerminals<'_>,
    listing: &Listing<'_>,
) -> Option<TreeFault>
    requires { IsStrictlyIncreasing net.now.sinks.now }
    ensures { result ≡ early_fault_of device.now net.now.source net.now.sinks.now listing.now }
{
    let pairs = listing.pairs();
    if begins_elsewhere(net.source, pairs) {
        return Some(TreeFault::WrongSource);
    }
    if lacks_switch(device, pairs) {
        return Some(TreeFault::NoSwitch);
    }
    if listing.reaches_twice(net.source) {
        return Some(TreeFault::NodeTwice);
    }
    if leaves_twice(net.source, pairs) {
        return Some(TreeFault::SecondOutput);
    }
    if has_foreign_sink(device, net.sinks, listing) {
        return Some(TreeFault::ForeignSink);
    }
    None
}

/// The first fault of the others, where it is known whether a pair dangles, and whether the pairs
/// are in order.
#[tactic(auto, unfolding(crate::specs::kept::Judged::late_fault_of))]
fn late_fault(
    dangles: bool,
    listed: bool,
    sinks: &[u32],
    listing: &Listing<'_>,
) -> Option<TreeFault>
    ensures { result ≡ late_fault_of dangles listed sinks.now listing.now }
{
    if dangles {
        return Some(TreeFault::Dangling);
    }
    if misses_sink(sinks, listing) {
        return Some(TreeFault::MissingSink);
    }
    if !listed {
        return Some(TreeFault::Order);
    }
    None
}

/// The first fault of a list for a net.
pub(crate) fn list_fault(
    alloc: Global,
    device: &Device,
    net: &BorrowedTerminals<'_>,
    pairs: &[(u32, u32)],
) -> Result<Option<TreeFault>, AllocError>
    requires { IsStrictlyIncreasing net.now.sinks.now }
    ensures { IfOk result (IsReportedBy device.now net.now.source net.now.sinks.now pairs.now) }
{
    let listing = Listing::new(alloc, pairs)?;
    match early_fault(device, net, &listing) {
        Some(fault) => Ok(Some(fault)),
        None => {
            let listed = is_listed(device, net, &listing);
            let reported = dangles(alloc, listed, device, net, &listing)?;
            Ok(late_fault(reported, listed, net.sinks, &listing))
        }
    }
}
