//! The writer of routings.

ghost use Rattle.std.specs.Prelude.{◌≡◌, true, ◌<◌, length, slice_index_or, Some, None, if◌then◌else◌};
ghost use Rattle.std.specs.List.{flat_map};
ghost use Rattle.text_output.specs.Printing.{PrintsTo};
ghost use Rattle.net_file.specs.Blocks.{numbers_below};
ghost use Rattle.net_file.specs.Routed.{is_routed_net};
ghost use Rattle.route_tree.specs.Fits.{fits_problem};
ghost use Rattle.route_file.specs.TextLine.{Size, RoutedNet, line_text};
ghost use Rattle.route_file.specs.Text.{routed_net_lines, lines_of_net, net_lines, text_of};
ghost use Rattle.route_file.specs.Design.{IsDesign};
ghost use Rattle.route_file.specs.Writes.{Writes};

use crate::blocks::put_global_net;
use crate::nodes::put_pairs;
use crate::text::{put_blank, put_heading, put_line};
use net_file::{Net, Netlist};
use place_file::Placement;
use route_tree::{Pairs, Routing};
use rr_graph::{Device, Problem};
use text_output::{ByteSink, Piece, Printer};
use thiserror::Error;

/// Why a routing could not be written.
#[derive(Clone, Copy, Debug, PartialEq, Eq, Error)]
pub enum WriteFault {
    /// The sink broke, and took no more than a front of the text.
    #[error("the routing could not be written")]
    Failed,
}

/// Prints the line with the size of the array.
#[tactic(auto, unfolding(crate::specs::TextLine::bytes_on))]
fn put_size<W: ByteSink>(out: &mut Printer<'_, W>, nx: u32, ny: u32)
    ensures { PrintsTo W.ByteSink out.old out.new (line_text (Size nx ny)) }
{
    put_line(
        out,
        &[
            Piece::Text(b"Array size: "),
            Piece::Number(nx),
            Piece::Text(b" x "),
            Piece::Number(ny),
            Piece::Text(b" logic blocks."),
        ],
    );
}

/// Prints the line that begins a routed net.
#[tactic(auto, unfolding(crate::specs::TextLine::bytes_on))]
fn put_net_heading<W: ByteSink>(out: &mut Printer<'_, W>, number: usize, name: &[u8])
    ensures { PrintsTo W.ByteSink out.old out.new
        (line_text (RoutedNet number name.now)) }
{
    put_heading(out, number, name, b")");
}

/// Prints the lines of a net that is routed by a list of pairs.
fn put_listed_net<W: ByteSink>(
    out: &mut Printer<'_, W>,
    device: &Device,
    number: usize,
    name: &[u8],
    pairs: &[(u32, u32)],
)
    ensures { PrintsTo W.ByteSink out.old out.new
        (flat_map line_text (routed_net_lines device.now number name.now (Some pairs.now))) }
{
    put_blank(out);
    put_net_heading(out, number, name);
    put_blank(out);
    put_pairs(out, device, pairs);
}

/// Prints the lines of a routed net; none if it has no list.
fn put_list<W: ByteSink>(
    out: &mut Printer<'_, W>,
    device: &Device,
    number: usize,
    name: &[u8],
    list: &Option<Pairs>,
)
    ensures { PrintsTo W.ByteSink out.old out.new
        (flat_map line_text (routed_net_lines device.now number name.now list.now)) }
{
    match list {
        Some(pairs) => put_listed_net(out, device, number, name, &pairs.items),
        None => {}
    }
}

/// Prints the lines of a routed net, whose list is at a place of the routing.
fn put_routed_net<W: ByteSink>(
    out: &mut Printer<'_, W>,
    device: &Device,
    number: usize,
    name: &[u8],
    lists: &[Option<Pairs>],
    place: usize,
)
    ensures { PrintsTo W.ByteSink out.old out.new
        (flat_map line_text
        (routed_net_lines device.now number name.now (slice_index_or lists.now place None))) }
{
    match lists.get(place) {
        Some(list) => put_list(out, device, number, name, list),
        None => {}
    }
}

/// Whether the net is to be routed: it isn't global, and something takes its signal.
fn is_routed(net: &Net<'_>) -> bool
    ensures { result ≡ is_routed_net net.now }
{
    !net.is_global() && !net.sinks().is_empty()
}

/// How many lists of a routing are those of the net.
fn list_count(net: &Net<'_>) -> usize
    ensures { result ≡ (if is_routed_net net.now then 1 else 0) }
{
    usize::from(is_routed(net))
}

/// A placed netlist, and the device on which it is routed.
#[derive(Clone, Copy)]
struct PlacedNets<'a, 'b> {
    netlist: &'a Netlist<'b>,
    placement: &'a Placement,
    device: &'a Device,
}

/// Prints the lines of a net. Its list, if it is routed, is at a place of the routing.
fn put_net<W: ByteSink>(
    out: &mut Printer<'_, W>,
    placed: &PlacedNets<'_, '_>,
    number: usize,
    net: &Net<'_>,
    lists: &[Option<Pairs>],
    place: usize,
)
    ensures { PrintsTo W.ByteSink out.old out.new (flat_map line_text
        (lines_of_net placed.now.netlist.now placed.now.placement.now placed.now.device.now number
        net.now (slice_index_or lists.now place None))) }
{
    if net.is_global() {
        put_global_net(out, placed.netlist, placed.placement, number, net);
        return;
    }
    if is_routed(net) {
        put_routed_net(out, placed.device, number, net.name(), lists, place);
    }
}

/// Prints the lines of all nets, or until the sink breaks.
fn put_nets<W: ByteSink>(
    out: &mut Printer<'_, W>,
    placed: &PlacedNets<'_, '_>,
    lists: &[Option<Pairs>],
)
    ensures { PrintsTo W.ByteSink out.old out.new (flat_map line_text (flat_map
        (net_lines placed.now.netlist.now placed.now.placement.now placed.now.device.now lists.now)
        (numbers_below (length placed.now.netlist.now.nets)))) }
{
    let nets = placed.netlist.nets();
    let mut place = 0;
    for number in 0..nets.len() {
        let net = &nets[number];
        put_net(out, placed, number, net, lists, place);
        if out.is_broken() {
            return;
        }
        place += list_count(net);
    }
}

/// Prints the text of a routing, or until the sink breaks.
fn put_text<W: ByteSink>(
    out: &mut Printer<'_, W>,
    netlist: &Netlist<'_>,
    placement: &Placement,
    problem: &Problem,
    routing: &Routing,
)
    ensures { PrintsTo W.ByteSink out.old out.new
        (text_of netlist.now placement.now problem.now routing.now) }
{
    let device = problem.device();
    put_size(out, device.nx(), device.ny());
    put_blank(out);
    out.push(b"Routing:");
    out.push(b"\n");
    let placed = PlacedNets {
        netlist,
        placement,
        device,
    };
    put_nets(out, &placed, &routing.lists);
}

/// Writes the routing of a placed design, in one pass over its nets and without memory.
///
/// # Errors
/// Failed exactly if the sink broke: it took a front of the text.
pub fn write<W: ByteSink>(
    netlist: &Netlist<'_>,
    placement: &Placement,
    problem: &Problem,
    routing: &Routing,
    sink: &mut W,
) -> Result<(), WriteFault>
    requires fits { fits_problem problem.now routing.now ≡ true }
    requires design { IsDesign netlist.now placement.now problem.now }
    ensures { Writes (W.failed sink.new) (W.taken sink.old) (W.taken sink.new)
        (text_of netlist.now placement.now problem.now routing.now) result }
{
    let mut printer = Printer::new(sink);
    put_text(&mut printer, netlist, placement, problem, routing);
    match printer.finish() {
        Ok(()) => Ok(()),
        Err(_) => Err(WriteFault::Failed),
    }
}
