//! Whether pairs are in the order in which routings are written.

ghost use Rattle.std.specs.Prelude.{◌≡◌, ◌<◌, ◌≤◌, ◌∷◌, false, length};
ghost use Rattle.route_tree.specs.Faults.{reaches_twice};
ghost use Rattle.route_tree.specs.Legality.{is_among, is_listed, may_begin};
ghost use Rattle.route_check.specs.kept.Ends.{begin_in};
ghost use Rattle.route_check.specs.kept.Judged.{net_of};
ghost use Rattle.route_check.specs.kept.Listed.{earlier_ends, ends_in_sink};

use crate::listing::Listing;
use crate::terminals::BorrowedTerminals;
use routing_problem::Device;

/// Whether a pair begins at the source or where an earlier one ends.
fn begins_after(source: u32, listing: &Listing<'_>, row: usize) -> bool
    requires once { reaches_twice source listing.now ≡ false }
    requires there { row < length listing.now }
    ensures { result ≡ is_among (source ∷ earlier_ends listing.now row)
        (begin_in listing.now row) }
{
    let begin = listing.begin(row);
    if begin == source {
        return true;
    }
    match listing.row_of(begin) {
        None => false,
        Some(parent) => parent < row,
    }
}

/// Whether a pair may begin where it does, after those before it.
fn may_begin(device: &Device, source: u32, listing: &Listing<'_>, row: usize) -> bool
    requires once { reaches_twice source listing.now ≡ false }
    requires there { row < length listing.now }
    ensures { result ≡ may_begin device.now source (earlier_ends listing.now row)
        (begin_in listing.now row) }
{
    let begin = listing.begin(row);
    if row == 0 {
        return begin == source;
    }
    let end = listing.end(row - 1);
    end == begin || (device.is_sink(end) && begins_after(source, listing, row))
}

/// Whether the pairs are in order.
pub(crate) fn is_listed(device: &Device, net: &BorrowedTerminals<'_>, listing: &Listing<'_>) -> bool
    requires { reaches_twice net.now.source listing.now ≡ false }
    ensures { result
        ≡ is_listed device.now (net_of net.now.source net.now.sinks.now) listing.now }
{
    for row in 0..listing.len() {
        if !may_begin(device, net.source, listing, row) {
            return false;
        }
    }
    true
}

/// Whether the last pair ends in a sink.
pub(crate) fn ends_in_sink(device: &Device, listing: &Listing<'_>) -> bool
    requires { 1 ≤ length listing.now }
    ensures { result ≡ ends_in_sink device.now listing.now }
{
    device.is_sink(listing.end(listing.len() - 1))
}
