//! Why no switch leads from one node to another, in words.

ghost use Rattle.std.specs.Prelude.{◌≡◌};
ghost use Rattle.route_explain.specs.Switches.{reason_between, reason_by, switch_reason, wires_reason};

use rr_graph::{Device, Kind, Node};

/// Returns why two wires are not joined.
fn wires_reason(is_one_track: bool) -> &'static [u8]
    ensures { result.now ≡ wires_reason is_one_track }
{
    if is_one_track {
        b"they touch no common corner"
    } else {
        b"they are of two tracks"
    }
}

/// Returns why nodes of these kinds are not joined.
fn kinds_reason(from: Kind, to: Kind, is_one_track: bool) -> &'static [u8]
    ensures { result.now ≡ reason_by from to is_one_track }
{
    match (from, to) {
        (Kind::Source, Kind::Opin) | (Kind::Ipin, Kind::Sink) => b"the pin does not belong to it",
        (Kind::Opin, Kind::Chanx | Kind::Chany) => b"the pin does not tap the wire",
        (Kind::Chanx | Kind::Chany, Kind::Ipin) => b"the pin does not tap the wire",
        (Kind::Chanx | Kind::Chany, Kind::Chanx | Kind::Chany) => wires_reason(is_one_track),
        _ => b"such nodes are never joined",
    }
}

/// Returns why two nodes are not joined, or an empty text if one of them is no node.
fn nodes_reason(from: Option<Node>, to: Option<Node>) -> &'static [u8]
    ensures { result.now ≡ reason_between from to }
{
    match from {
        None => b"",
        Some(from) => match to {
            None => b"",
            Some(to) => kinds_reason(from.kind, to.kind, from.number == to.number),
        },
    }
}

/// Returns why no switch leads from the first node of a step to the second.
pub(crate) fn switch_reason(device: &Device, pair: (u32, u32)) -> &'static [u8]
    ensures { result.now ≡ switch_reason device.now pair }
{
    if pair.0 == pair.1 {
        return b"it is the same node";
    }
    nodes_reason(device.node(pair.0), device.node(pair.1))
}
