//! The first step that is out of order.

ghost use Rattle.std.specs.Prelude.{◌≡◌};
ghost use Rattle.route_explain.specs.Steps.{is_in_order, may_follow, row_out_of_order};

use crate::indexed_list::IndexedList;
use rr_graph::Device;

/// Returns whether the step at a row may begin where it does, after one that ends at this node.
fn may_follow(list: &IndexedList<'_>, device: &Device, source: u32, row: usize, last: u32) -> bool
    ensures { result ≡ may_follow device.now source list.now.pairs row last }
{
    let node = list.pair_at(row).0;
    last == node || (device.is_sink(last) && (source == node || list.ends_before(row, node)))
}

/// Returns whether the step at a row is in order.
fn is_in_order(list: &IndexedList<'_>, device: &Device, source: u32, row: usize) -> bool
    ensures { result ≡ is_in_order device.now source list.now.pairs row }
{
    if row == 0 {
        return list.pair_at(row).0 == source;
    }
    let last = list.pair_at(row - 1).1;
    may_follow(list, device, source, row, last)
}

/// Returns the row of the first step that is out of order.
pub(crate) fn row_out_of_order(
    list: &IndexedList<'_>,
    device: &Device,
    source: u32,
) -> Option<usize>
    ensures { result ≡ row_out_of_order device.now source list.now.pairs }
{
    (0..list.len()).find(|row| !is_in_order(list, device, source, *row))
}
