//! Calls of `route_report`: the figures of the routing.

use lab_session::answer::{added, put, put_labelled, put_maybe};
use lab_session::session::{RoutedProblem, Session};
use lab_session::unanswered::Unanswered;
use lab_session::words::{Call, no_words};
use route_report::{
    ChannelUse, Figures, NetFigures, NetTotals, OverusedNode, WireTypeUse, channel_uses,
    figures_of, net_figures, node_uses, overused_nodes, wire_type_uses, wirelengths,
};
use route_tree::Routing;
use rr_graph::Problem;
use std::alloc::Global;

/// Makes a call, and adds its answer.
pub fn call(
    alloc: Global,
    session: &Session,
    call: Call<'_>,
    out: &mut String,
) -> Result<(), Unanswered> {
    match call.name {
        "node_uses"
        | "wirelengths"
        | "overused_nodes"
        | "figures_of"
        | "net_figures"
        | "channel_uses"
        | "wire_type_uses" => report_kept(alloc, session, call, out),
        _ => Err(Unanswered::NoCall),
    }
}

/// Adds the figures of a kind of the session's routing.
fn report_kept(
    alloc: Global,
    session: &Session,
    call: Call<'_>,
    out: &mut String,
) -> Result<(), Unanswered> {
    no_words(call.given)?;
    let RoutedProblem { problem, routing } = session.routed_problem()?;
    report(alloc, problem, routing, call.name, out)
}

/// Adds the figures of a kind.
fn report(
    alloc: Global,
    problem: &Problem,
    routing: &Routing,
    name: &str,
    out: &mut String,
) -> Result<(), Unanswered> {
    match name {
        "node_uses" => put_uses(alloc, problem, routing, out),
        "wirelengths" => put_wirelengths(alloc, problem, routing, out),
        "overused_nodes" => put_overused(alloc, problem, routing, out),
        "figures_of" => put_figures(alloc, problem, routing, out),
        "net_figures" => put_net_figures(alloc, problem, routing, out),
        "channel_uses" => put_channels(alloc, problem, routing, out),
        _ => put_wire_types(alloc, problem, routing, out),
    }
}

/// Adds a line for each node that a net covers.
fn put_uses(
    alloc: Global,
    problem: &Problem,
    routing: &Routing,
    out: &mut String,
) -> Result<(), Unanswered> {
    let uses = node_uses(alloc, problem, routing)?;
    put_each_use(uses.as_slice(), out)
}

fn put_each_use(uses: &[u16], out: &mut String) -> Result<(), Unanswered> {
    for (id, used) in uses.iter().enumerate() {
        if *used > 0 {
            writeln!(out, "{id}: {used}")?;
        }
    }
    Ok(())
}

/// Adds a line for each net.
fn put_wirelengths(
    alloc: Global,
    problem: &Problem,
    routing: &Routing,
    out: &mut String,
) -> Result<(), Unanswered> {
    let lengths = wirelengths(alloc, problem, routing)?;
    put_each_length(lengths.as_slice(), out)
}

fn put_each_length(lengths: &[u64], out: &mut String) -> Result<(), Unanswered> {
    for (net, length) in lengths.iter().enumerate() {
        writeln!(out, "net {net}: {length}")?;
    }
    Ok(())
}

/// Adds a line for each overused node, or `none`.
fn put_overused(
    alloc: Global,
    problem: &Problem,
    routing: &Routing,
    out: &mut String,
) -> Result<(), Unanswered> {
    let uses = node_uses(alloc, problem, routing)?;
    let nodes = overused_nodes(alloc, problem, routing, uses.as_slice())?;
    put_nodes(nodes.as_slice(), out)
}

fn put_nodes(nodes: &[OverusedNode], out: &mut String) -> Result<(), Unanswered> {
    if nodes.is_empty() {
        return put(out, "none");
    }
    for node in nodes {
        put_node(node, out)?;
    }
    Ok(())
}

/// Adds a node: the number of nets that use it, its capacity, and the nets that cover it.
fn put_node(node: &OverusedNode, out: &mut String) -> Result<(), Unanswered> {
    let (id, used, capacity) = (node.node, node.used, node.capacity);
    write!(out, "{id}: {used} of {capacity}, nets")?;
    for net in node.nets.as_slice() {
        write!(out, " {net}")?;
    }
    added(out.push('\n'))
}

/// Adds a line with the figures of the whole routing.
fn put_figures(
    alloc: Global,
    problem: &Problem,
    routing: &Routing,
    out: &mut String,
) -> Result<(), Unanswered> {
    let uses = node_uses(alloc, problem, routing)?;
    let figures = figures_of(alloc, problem, routing, uses.as_slice())?;
    put_whole(figures, out)
}

fn put_whole(figures: Figures, out: &mut String) -> Result<(), Unanswered> {
    let numbers = [
        ("nets", u64::from(figures.nets)),
        ("listed", u64::from(figures.listed)),
        ("wires", u64::from(figures.wires)),
        ("places", figures.places),
        ("wirelength", figures.wirelength),
        ("greatest", figures.greatest),
    ];
    put_labelled(out, &numbers)?;
    out.push_str(", longest ")?;
    put_maybe(out, figures.longest)
}

/// Adds a line for each of the bends, wires and places of the nets.
fn put_net_figures(
    alloc: Global,
    problem: &Problem,
    routing: &Routing,
    out: &mut String,
) -> Result<(), Unanswered> {
    let nets = net_figures(alloc, problem, routing)?;
    put_all_totals(nets, out)
}

fn put_all_totals(nets: NetFigures, out: &mut String) -> Result<(), Unanswered> {
    put_totals("bends", nets.bends, out)?;
    put_totals("wires", nets.wires, out)?;
    put_totals("places", nets.places, out)
}

/// Adds the sum of a number of each net, and the greatest of these numbers with its net.
fn put_totals(name: &str, totals: NetTotals, out: &mut String) -> Result<(), Unanswered> {
    write!(out, "{name} {}, most {}, net ", totals.total, totals.most)?;
    put_maybe(out, totals.first)
}

/// Adds a line for each channel.
fn put_channels(
    alloc: Global,
    problem: &Problem,
    routing: &Routing,
    out: &mut String,
) -> Result<(), Unanswered> {
    let uses = node_uses(alloc, problem, routing)?;
    let channels = channel_uses(alloc, problem.device(), uses.as_slice())?;
    put_each_channel(channels.as_slice(), out)
}

fn put_each_channel(channels: &[ChannelUse], out: &mut String) -> Result<(), Unanswered> {
    for channel in channels {
        put_channel(channel, out)?;
    }
    Ok(())
}

/// Adds a channel: how much of it is occupied at each place, the greatest of these numbers, and
/// their sum.
fn put_channel(channel: &ChannelUse, out: &mut String) -> Result<(), Unanswered> {
    write!(out, "{:?} {}:", channel.kind, channel.number)?;
    for occupied in channel.occupied.as_slice() {
        write!(out, " {occupied}")?;
    }
    added(writeln!(out, ", most {}, sum {}", channel.most, channel.total))
}

/// Adds a line for each type of wire.
fn put_wire_types(
    alloc: Global,
    problem: &Problem,
    routing: &Routing,
    out: &mut String,
) -> Result<(), Unanswered> {
    let uses = node_uses(alloc, problem, routing)?;
    let types = wire_type_uses(alloc, problem.device(), uses.as_slice())?;
    put_each_type(types.as_slice(), out)
}

fn put_each_type(types: &[WireTypeUse], out: &mut String) -> Result<(), Unanswered> {
    for wire_type in types {
        put_type(wire_type, out)?;
    }
    Ok(())
}

/// Adds a type: its tracks, its wires and their places, and how many of both are used.
fn put_type(wire_type: &WireTypeUse, out: &mut String) -> Result<(), Unanswered> {
    let (wires, places) = (wire_type.wires, wire_type.places);
    let (wires_used, places_used) = (wire_type.wires_used, wire_type.places_used);
    write!(
        out,
        "tracks {}, wires {wires} of {places} places, ",
        wire_type.tracks
    )?;
    added(writeln!(out, "used {wires_used} of {places_used} places"))
}
