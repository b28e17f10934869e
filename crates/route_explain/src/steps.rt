//! The step of a net's list that a fault is about: the row of the first step that shows it.

ghost use Rattle.std.specs.Prelude.{◌≡◌};
ghost use Rattle.route_explain.specs.Steps.{ends_again, is_cut_off, is_dead_end, is_foreign, lacks_switch, leaves_again, pair_at, row_cut_off, row_leaving_again, row_that_ends_again, row_to_dead_end, row_to_foreign_sink, row_without_switch};

use crate::indexed_list::IndexedList;
use rr_graph::Device;

/// Returns the step at a row, or `(0, 0)` past the last one.
pub(crate) fn pair_at(pairs: &[(u32, u32)], row: usize) -> (u32, u32)
    ensures { result ≡ pair_at pairs.now row }
{
    match pairs.get(row) {
        Some(pair) => *pair,
        None => (0, 0),
    }
}

/// Returns whether a step is no switch of the device.
fn lacks_switch(device: &Device, pair: (u32, u32)) -> bool
    ensures { result ≡ lacks_switch device.now pair }
{
    !device.edge(pair.0, pair.1)
}

/// Returns whether the step at a row ends at the source, or where an earlier one does.
fn ends_again(list: &IndexedList<'_>, source: u32, row: usize) -> bool
    ensures { result ≡ ends_again source list.now.pairs row }
{
    let end = list.pair_at(row).1;
    end == source || list.ends_before(row, end)
}

/// Returns whether the step at a row leaves the source and isn't the first one.
fn leaves_again(source: u32, pairs: &[(u32, u32)], row: usize) -> bool
    ensures { result ≡ leaves_again source pairs.now row }
{
    row > 0 && pair_at(pairs, row).0 == source
}

/// Returns whether a step ends at a sink of the device that isn't one of the net's.
fn is_foreign(list: &IndexedList<'_>, device: &Device, pair: (u32, u32)) -> bool
    ensures { result ≡ is_foreign device.now list.now.sinks pair }
{
    device.is_sink(pair.1) && !list.has_sink(pair.1)
}

/// Returns whether a step ends at a node that isn't one of the net's sinks, and at which no step
/// begins.
fn is_dead_end(list: &IndexedList<'_>, pair: (u32, u32)) -> bool
    ensures { result ≡ is_dead_end list.now.sinks list.now.pairs pair }
{
    !list.has_sink(pair.1) && !list.begins_at(pair.1)
}

/// Returns whether a step begins at a node that isn't the source, and at which no step ends.
fn is_cut_off(list: &IndexedList<'_>, source: u32, pair: (u32, u32)) -> bool
    ensures { result ≡ is_cut_off source list.now.pairs pair }
{
    pair.0 != source && !list.ends_at(pair.0)
}

/// Returns the row of the first step that is no switch of the device.
pub(crate) fn row_without_switch(device: &Device, pairs: &[(u32, u32)]) -> Option<usize>
    ensures { result ≡ row_without_switch device.now pairs.now }
{
    (0..pairs.len()).find(|row| lacks_switch(device, pair_at(pairs, *row)))
}

/// Returns the row of the first step that ends at the source, or where an earlier one does.
pub(crate) fn row_that_ends_again(list: &IndexedList<'_>, source: u32) -> Option<usize>
    ensures { result ≡ row_that_ends_again source list.now.pairs }
{
    (0..list.len()).find(|row| ends_again(list, source, *row))
}

/// Returns the row of the first step that leaves the source, apart from the first step of all.
pub(crate) fn row_leaving_again(source: u32, pairs: &[(u32, u32)]) -> Option<usize>
    ensures { result ≡ row_leaving_again source pairs.now }
{
    (0..pairs.len()).find(|row| leaves_again(source, pairs, *row))
}

/// Returns the row of the first step that ends at a sink of the device that isn't one of the net's.
pub(crate) fn row_to_foreign_sink(list: &IndexedList<'_>, device: &Device) -> Option<usize>
    ensures { result ≡ row_to_foreign_sink device.now list.now.sinks list.now.pairs }
{
    (0..list.len()).find(|row| is_foreign(list, device, list.pair_at(*row)))
}

/// Returns the row of the first step that ends at none of the net's sinks, and where no step
/// begins.
pub(crate) fn row_to_dead_end(list: &IndexedList<'_>) -> Option<usize>
    ensures { result ≡ row_to_dead_end list.now.sinks list.now.pairs }
{
    (0..list.len()).find(|row| is_dead_end(list, list.pair_at(*row)))
}

/// Returns the row of the first step that begins neither at the source nor where a step ends.
pub(crate) fn row_cut_off(list: &IndexedList<'_>, source: u32) -> Option<usize>
    ensures { result ≡ row_cut_off source list.now.pairs }
{
    (0..list.len()).find(|row| is_cut_off(list, source, list.pair_at(*row)))
}
