//! Walks from the sinks of a net up to its source: what none of them meets dangles.

ghost use Rattle.std.specs.Prelude.{◌≡◌, ◌≢◌, ◌+◌, ◌<◌, ◌≤◌, ◌==◌, false, length, get_or, IfOk, Contains, replicate};
ghost use Rattle.std.specs.Bool.{MatchBool};
ghost use Rattle.std.specs.List.{list_any};
ghost use Rattle.route_tree.specs.Legality.{is_listed};
ghost use Rattle.route_tree.specs.Faults.{reaches_twice, has_foreign_sink};
ghost use Rattle.route_check.specs.kept.Ends.{end_in};
ghost use Rattle.route_check.specs.kept.Judged.{net_of, Dangles, TellsDangling};
ghost use Rattle.route_check.specs.kept.Walks.{AreWalked, IsWalkedFrom, AreAllWalked};

use crate::listing::Listing;
use crate::order::ends_in_sink;
use crate::terminals::BorrowedTerminals;
use routing_problem::Device;
use std::alloc::{AllocError, Global};

/// Walks from a pair up to the source, or to what an earlier walk met, and writes the walk's number
/// to each pair that it meets. Returns whether it gets there: if not, it goes in a circle, or ends
/// at a node that is not the source.
fn climb(
    net: &BorrowedTerminals<'_>,
    listing: &Listing<'_>,
    walks: &mut [usize],
    start: usize,
    walk: usize,
) -> bool
    requires once { reaches_twice net.now.source listing.now ≡ false }
    requires walked { AreWalked net.now.source net.now.sinks.now listing.now walk walks.old }
    requires there { start < length listing.now }
    requires sink { Contains net.now.sinks.now (end_in listing.now start) }
    requires numbered { 0 < walk }
    ensures { MatchBool result (IsWalkedFrom net.now.source net.now.sinks.now listing.now walk
        (end_in listing.now start) walks.old walks.new)
        (Dangles net.now.source net.now.sinks.now listing.now) }
{
    let mut row = start;
    while walks[row] == 0 {
        walks[row] = walk;
        match listing.parent_of(row) {
            Some(parent) => row = parent,
            None => return listing.begin(row) == net.source,
        }
    }
    walks[row] != walk
}

/// Walks from a sink, if a pair ends there.
fn climb_from(
    net: &BorrowedTerminals<'_>,
    listing: &Listing<'_>,
    walks: &mut [usize],
    index: usize,
) -> bool
    requires once { reaches_twice net.now.source listing.now ≡ false }
    requires walked { AreWalked net.now.source net.now.sinks.now listing.now (index + 1) walks.old }
    requires there { index < length net.now.sinks.now }
    ensures { MatchBool result (IsWalkedFrom net.now.source net.now.sinks.now listing.now
        (index + 1) (get_or net.now.sinks.now index 0) walks.old walks.new)
        (Dangles net.now.source net.now.sinks.now listing.now) }
{
    match listing.row_of(net.sinks[index]) {
        None => true,
        Some(row) => climb(net, listing, walks, row, index + 1),
    }
}

/// Walks from each sink.
fn climb_from_all(net: &BorrowedTerminals<'_>, listing: &Listing<'_>, walks: &mut [usize]) -> bool
    requires once { reaches_twice net.now.source listing.now ≡ false }
    requires none { walks.old ≡ replicate (length listing.now) 0 }
    ensures { MatchBool result (AreAllWalked net.now.source net.now.sinks.now listing.now walks.new)
        (Dangles net.now.source net.now.sinks.now listing.now) }
{
    for index in 0..net.sinks.len() {
        if !climb_from(net, listing, walks, index) {
            return false;
        }
    }
    true
}

/// Whether a pair was met by no walk.
fn is_one_unmet(walks: &[usize]) -> bool
    ensures { result ≡ list_any (λ w. w == 0) walks.now }
{
    walks.iter().any(|walk| *walk == 0)
}

/// Whether a pair is on no way from the source to a sink. No pair was met before.
#[tactic(auto, using(crate::proofs::Walked::reported))]
fn has_unmet(net: &BorrowedTerminals<'_>, listing: &Listing<'_>, walks: &mut [usize]) -> bool
    requires once { reaches_twice net.now.source listing.now ≡ false }
    requires none { walks.old ≡ replicate (length listing.now) 0 }
    ensures { TellsDangling result net.now.source net.now.sinks.now listing.now }
{
    if !climb_from_all(net, listing, walks) {
        return true;
    }
    is_one_unmet(walks)
}

/// Whether a pair is on no way from the source to a sink, by walks.
fn is_unmet(
    alloc: Global,
    net: &BorrowedTerminals<'_>,
    listing: &Listing<'_>,
) -> Result<bool, AllocError>
    requires once { reaches_twice net.now.source listing.now ≡ false }
    ensures { IfOk result
        (λ reported. TellsDangling reported net.now.source net.now.sinks.now listing.now) }
{
    let mut walks = vec![in alloc; 0; listing.len()]?;
    Ok(has_unmet(net, listing, &mut walks))
}

/// Whether a pair is on no way from the source to a sink, where it is known whether the pairs are
/// in order. If they are and the last one ends in a sink, each is on a way: no walk is needed then.
pub(crate) fn dangles(
    alloc: Global,
    listed: bool,
    device: &Device,
    net: &BorrowedTerminals<'_>,
    listing: &Listing<'_>,
) -> Result<bool, AllocError>
    requires once { reaches_twice net.now.source listing.now ≡ false }
    requires own { has_foreign_sink device.now net.now.sinks.now listing.now ≡ false }
    requires some { 1 ≤ length listing.now }
    requires listed { listed
        ≡ is_listed device.now (net_of net.now.source net.now.sinks.now) listing.now }
    ensures { IfOk result
        (λ reported. TellsDangling reported net.now.source net.now.sinks.now listing.now) }
{
    if listed && ends_in_sink(device, listing) {
        return Ok(false);
    }
    is_unmet(alloc, net, listing)
}
