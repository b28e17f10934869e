//! Which nets a cut parts.

ghost use Rattle.std.specs.Prelude.{◌≡◌, ◌<◌, ◌≤◌, ◌&&◌, not, false, count_by, length, take};
ghost use Rattle.std.specs.Option.{option_map_or};
ghost use Rattle.std.specs.List.{list_any, list_all, filter_map};
ghost use Rattle.rr_graph.specs.Fabric.{numbers_below};
ghost use Rattle.rr_graph.specs.Nodes.{node_at, node_of};
ghost use Rattle.rr_graph.specs.Problems.{net_in};
ghost use Rattle.rr_graph.specs.node.Kind.TheVariants.{Opin, Ipin};
ghost use Rattle.width_bound.specs.Cuts.{share_side, pins_left, is_parted_from, is_cut};
ghost use Rattle.width_bound.specs.CutNets.{is_cut_from, is_cut_net, cut_nets};
ghost use Rattle.width_bound.specs.kept.Terminals.{is_left, pin_count};

use crate::sides::Sides;
use crate::terminals::pin_count;
use rr_graph::{Device, Kind, Node, Problem};

/// Whether the input pin or pad of this number is left to the sink and shares a side with the
/// output pin.
fn is_way_in(sides: &Sides, device: &Device, output: Node, sink: Node, number: u32) -> bool
    ensures { result ≡ (is_left device.now sides.now Ipin sink number
        && share_side device.now sides.now output (node_of Ipin sink.x sink.y number)) }
{
    let pin = Node {
        kind: Kind::Ipin,
        x: sink.x,
        y: sink.y,
        number,
    };
    sides.is_left(device, Kind::Ipin, sink, number) && sides.share_side(device, output, pin)
}

/// Whether some of these are.
fn some_way_in(sides: &Sides, device: &Device, output: Node, sink: Node, count: u32) -> bool
    ensures { result ≡ list_any (λ i. is_left device.now sides.now Ipin sink i
        && share_side device.now sides.now output (node_of Ipin sink.x sink.y i))
        (numbers_below count) }
{
    (0..count).any(|number| is_way_in(sides, device, output, sink, number))
}

/// Whether some pin that is left to the sink shares a side with the output pin.
#[tactic(auto, using(crate::proofs::PinsLeft::way_in))]
fn has_way_in(sides: &Sides, device: &Device, output: Node, sink: Node) -> bool
    ensures { result ≡ list_any (share_side device.now sides.now output)
        (pins_left device.now sides.now Ipin sink) }
{
    let count = pin_count(device, sink.x, sink.y);
    some_way_in(sides, device, output, sink, count)
}

/// Whether the node of this number is a sink that is parted from the output pin.
fn is_parted(sides: &Sides, device: &Device, output: Node, id: u32) -> bool
    ensures { result ≡ option_map_or (is_parted_from device.now sides.now output)
        (node_at device.now id) false }
{
    match device.node(id) {
        Some(sink) => !has_way_in(sides, device, output, sink),
        None => false,
    }
}

/// Whether some of these nodes is a sink that is parted from the output pin.
fn some_is_parted(sides: &Sides, device: &Device, output: Node, sinks: &[u32]) -> bool
    ensures { result ≡ list_any (λ s. option_map_or (is_parted_from device.now sides.now output)
        (node_at device.now s) false) sinks.now }
{
    sinks.iter().any(|id| is_parted(sides, device, output, *id))
}

/// Whether the output pin or pad of this number is left to the source, and no sink is parted from
/// it.
fn is_way_out(sides: &Sides, device: &Device, source: Node, sinks: &[u32], number: u32) -> bool
    ensures { result ≡ (is_left device.now sides.now Opin source number
        && not (list_any (λ s. option_map_or (is_parted_from device.now sides.now
        (node_of Opin source.x source.y number)) (node_at device.now s) false) sinks.now)) }
{
    let pin = Node {
        kind: Kind::Opin,
        x: source.x,
        y: source.y,
        number,
    };
    sides.is_left(device, Kind::Opin, source, number) && !some_is_parted(sides, device, pin, sinks)
}

/// Whether some of these are.
fn some_way_out(sides: &Sides, device: &Device, source: Node, sinks: &[u32], count: u32) -> bool
    ensures { result ≡ list_any (λ i. is_left device.now sides.now Opin source i
        && not (list_any (λ s. option_map_or (is_parted_from device.now sides.now
        (node_of Opin source.x source.y i)) (node_at device.now s) false) sinks.now))
        (numbers_below count) }
{
    (0..count).any(|number| is_way_out(sides, device, source, sinks, number))
}

/// Whether the net from the source to these nodes is cut.
fn is_cut(sides: &Sides, device: &Device, source: Node, sinks: &[u32]) -> bool
    ensures { result ≡ is_cut device.now sides.now source
        (filter_map (node_at device.now) sinks.now) }
{
    let count = pin_count(device, source.x, source.y);
    !some_way_out(sides, device, source, sinks, count)
}

/// Whether the net from one node to others is cut.
fn is_cut_from(sides: &Sides, device: &Device, source: u32, sinks: &[u32]) -> bool
    ensures { result ≡ is_cut_from device.now sides.now (node_at device.now source)
        (filter_map (node_at device.now) sinks.now) }
{
    match device.node(source) {
        Some(node) => is_cut(sides, device, node, sinks),
        None => false,
    }
}

/// Whether net i of the problem is cut.
fn is_net_cut(sides: &Sides, problem: &Problem, net: u32) -> bool
    requires { net < length problem.now.nets }
    ensures { result ≡ is_cut_net problem.now.device sides.now (net_in problem.now.nets net) }
{
    is_cut_from(
        sides,
        problem.device(),
        problem.source(net),
        problem.sinks(net),
    )
}

/// How many nets of the problem are cut.
#[tactic(auto, unfolding(crate::specs::CutNets::cut_nets))]
pub(crate) fn count_cut_nets(sides: &Sides, problem: &Problem) -> u32
    ensures count { result ≡ cut_nets problem.now sides.now }
    ensures few { result ≤ 65535 }
{
    let mut count = 0;
    for net in 0..problem.nets() {
        count += u32::from(is_net_cut(sides, problem, net));
    }
    count
}
