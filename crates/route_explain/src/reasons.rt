//! What a fault of a net's list means, in words.

ghost use Rattle.std.specs.Prelude.{◌≡◌, ◌++◌, codes};
ghost use Rattle.std.specs.List.{flat_map};
ghost use Rattle.text_output.specs.Printing.{PrintsTo};
ghost use Rattle.route_explain.specs.Reasons.{apart_text, beginning_text, dangling_text, foreign_sink_text, leaving_text, loose_text, met_again_text, missing_sinks_text, missing_text, no_switch_text, other_beginning_text, out_of_order_text, outputs_text, reason_text, why_text};

use crate::indexed_list::IndexedList;
use crate::order::row_out_of_order;
use crate::steps::{
    pair_at, row_cut_off, row_that_ends_again, row_to_dead_end, row_to_foreign_sink,
    row_without_switch,
};
use crate::switches::switch_reason;
use crate::text::{put_after, put_end, put_step};
use route_tree::TreeFault;
use rr_graph::Device;
use text_output::{ByteSink, Piece, Printer};

/// Prints the node at which a list begins, and the one at which it should begin.
#[tactic(auto, unfolding(crate::specs::Reasons::other_beginning_text))]
fn put_other_beginning<W: ByteSink>(
    out: &mut Printer<'_, W>,
    device: &Device,
    source: u32,
    node: u32,
)
    ensures { PrintsTo W.ByteSink out.old out.new
        (other_beginning_text device.now source node) }
{
    out.put_pieces(&[
        Piece::Text(b"the first step leaves "),
        Piece::Node(device, node),
        Piece::Text(b" and not "),
        Piece::Node(device, source),
    ]);
}

/// Prints where a list begins that doesn't begin at the source of its net.
fn put_beginning<W: ByteSink>(
    out: &mut Printer<'_, W>,
    device: &Device,
    source: u32,
    pairs: &[(u32, u32)],
)
    ensures { PrintsTo W.ByteSink out.old out.new
        (beginning_text device.now source pairs.now) }
{
    if pairs.is_empty() {
        return put_after(out, device, b"no step leaves ", source);
    }
    put_other_beginning(out, device, source, pair_at(pairs, 0).0);
}

/// Prints a reason.
fn put_because<W: ByteSink>(out: &mut Printer<'_, W>, reason: &[u8])
    ensures { PrintsTo W.ByteSink out.old out.new
        (codes ": " ++ reason.now) }
{
    out.put_pieces(&[Piece::Text(b": "), Piece::Text(reason)]);
}

/// Prints why there is no switch for the step at a row, if there is one.
fn put_why<W: ByteSink>(
    out: &mut Printer<'_, W>,
    device: &Device,
    pairs: &[(u32, u32)],
    row: Option<usize>,
)
    ensures { PrintsTo W.ByteSink out.old out.new
        (why_text device.now pairs.now row) }
{
    if let Some(row) = row {
        put_because(out, switch_reason(device, pair_at(pairs, row)));
    }
}

/// Prints the first step for which there is no switch, and why there is none.
fn put_no_switch<W: ByteSink>(out: &mut Printer<'_, W>, device: &Device, pairs: &[(u32, u32)])
    ensures { PrintsTo W.ByteSink out.old out.new
        (no_switch_text device.now pairs.now) }
{
    let row = row_without_switch(device, pairs);
    out.push(b"no switch from ");
    put_step(out, device, pairs, row);
    put_why(out, device, pairs, row);
}

/// Prints the first node that the steps reach again.
fn put_met_again<W: ByteSink>(
    out: &mut Printer<'_, W>,
    list: &IndexedList<'_>,
    device: &Device,
    source: u32,
)
    ensures { PrintsTo W.ByteSink out.old out.new
        (met_again_text device.now source list.now.pairs) }
{
    let row = row_that_ends_again(list, source);
    out.push(b"the steps come again to ");
    put_end(out, device, list.pairs(), row);
}

/// Prints the node that a step leads to, if the step leaves the source.
fn put_leaving<W: ByteSink>(
    out: &mut Printer<'_, W>,
    device: &Device,
    source: u32,
    pair: (u32, u32),
)
    ensures { PrintsTo W.ByteSink out.old out.new
        (leaving_text device.now source pair) }
{
    if pair.0 == source {
        put_after(out, device, b"; to ", pair.1);
    }
}

/// Prints the nodes that steps from the source lead to.
fn put_all_leaving<W: ByteSink>(
    out: &mut Printer<'_, W>,
    device: &Device,
    source: u32,
    pairs: &[(u32, u32)],
)
    ensures { PrintsTo W.ByteSink out.old out.new
        (flat_map (leaving_text device.now source) pairs.now) }
{
    for pair in pairs {
        put_leaving(out, device, source, *pair);
    }
}

/// Prints the source, and the nodes that steps from it lead to.
fn put_outputs<W: ByteSink>(
    out: &mut Printer<'_, W>,
    device: &Device,
    source: u32,
    pairs: &[(u32, u32)],
)
    ensures { PrintsTo W.ByteSink out.old out.new
        (outputs_text device.now source pairs.now) }
{
    out.push(b"more than one step leaves ");
    out.put_node_of(device, source);
    put_all_leaving(out, device, source, pairs);
}

/// Prints the first sink that isn't one of the net's.
fn put_foreign_sink<W: ByteSink>(out: &mut Printer<'_, W>, list: &IndexedList<'_>, device: &Device)
    ensures { PrintsTo W.ByteSink out.old out.new
        (foreign_sink_text device.now list.now.sinks list.now.pairs) }
{
    let row = row_to_foreign_sink(list, device);
    out.push(b"no sink of the net is ");
    put_end(out, device, list.pairs(), row);
}

/// Prints the node that no step leads to, if a step begins at one, and otherwise that there is a
/// circle.
fn put_apart<W: ByteSink>(
    out: &mut Printer<'_, W>,
    device: &Device,
    pairs: &[(u32, u32)],
    row: Option<usize>,
)
    ensures { PrintsTo W.ByteSink out.old out.new
        (apart_text device.now pairs.now row) }
{
    match row {
        None => out.push(b"steps go round in a circle"),
        Some(row) => put_after(out, device, b"no step leads to ", pair_at(pairs, row).0),
    }
}

/// Prints the node that no step goes on from, if a step ends at one, and otherwise what is apart.
fn put_loose<W: ByteSink>(
    out: &mut Printer<'_, W>,
    list: &IndexedList<'_>,
    device: &Device,
    source: u32,
    row: Option<usize>,
)
    ensures { PrintsTo W.ByteSink out.old out.new
        (loose_text device.now source list.now.pairs row) }
{
    match row {
        None => put_apart(out, device, list.pairs(), row_cut_off(list, source)),
        Some(row) => put_after(out, device, b"no step goes on from ", list.pair_at(row).1),
    }
}

/// Prints what dangles.
fn put_dangling<W: ByteSink>(
    out: &mut Printer<'_, W>,
    list: &IndexedList<'_>,
    device: &Device,
    source: u32,
)
    ensures { PrintsTo W.ByteSink out.old out.new
        (dangling_text device.now source list.now.sinks list.now.pairs) }
{
    let row = row_to_dead_end(list);
    put_loose(out, list, device, source, row);
}

/// Prints a sink, unless a step leads to it.
fn put_missing<W: ByteSink>(
    out: &mut Printer<'_, W>,
    list: &IndexedList<'_>,
    device: &Device,
    node: u32,
)
    ensures { PrintsTo W.ByteSink out.old out.new
        (missing_text device.now list.now.pairs node) }
{
    if !list.ends_at(node) {
        put_after(out, device, b"; none to ", node);
    }
}

/// Prints the sinks that no step leads to.
fn put_all_missing<W: ByteSink>(out: &mut Printer<'_, W>, list: &IndexedList<'_>, device: &Device)
    ensures { PrintsTo W.ByteSink out.old out.new
        (flat_map (missing_text device.now list.now.pairs) list.now.sinks) }
{
    let sinks = list.sinks();
    for node in sinks {
        put_missing(out, list, device, *node);
    }
}

/// Prints that sinks are missing, and which.
fn put_missing_sinks<W: ByteSink>(out: &mut Printer<'_, W>, list: &IndexedList<'_>, device: &Device)
    ensures { PrintsTo W.ByteSink out.old out.new
        (missing_sinks_text device.now list.now.sinks list.now.pairs) }
{
    out.push(b"no step leads to a sink of the net");
    put_all_missing(out, list, device);
}

/// Prints the first step that is out of order.
fn put_out_of_order<W: ByteSink>(
    out: &mut Printer<'_, W>,
    list: &IndexedList<'_>,
    device: &Device,
    source: u32,
)
    ensures { PrintsTo W.ByteSink out.old out.new
        (out_of_order_text device.now source list.now.pairs) }
{
    let row = row_out_of_order(list, device, source);
    out.push(b"out of order is ");
    put_step(out, device, list.pairs(), row);
}

/// Prints what a fault of a list means, for a net with this source.
pub(crate) fn put_reason<W: ByteSink>(
    out: &mut Printer<'_, W>,
    list: &IndexedList<'_>,
    device: &Device,
    source: u32,
    fault: TreeFault,
)
    ensures { PrintsTo W.ByteSink out.old out.new
        (reason_text device.now source list.now.sinks list.now.pairs fault) }
{
    let pairs = list.pairs();
    match fault {
        TreeFault::NoNet => out.push(b"there is no such net"),
        TreeFault::WrongSource => put_beginning(out, device, source, pairs),
        TreeFault::NoSwitch => put_no_switch(out, device, pairs),
        TreeFault::NodeTwice => put_met_again(out, list, device, source),
        TreeFault::SecondOutput => put_outputs(out, device, source, pairs),
        TreeFault::ForeignSink => put_foreign_sink(out, list, device),
        TreeFault::Dangling => put_dangling(out, list, device, source),
        TreeFault::MissingSink => put_missing_sinks(out, list, device),
        TreeFault::Order => put_out_of_order(out, list, device, source),
    }
}
