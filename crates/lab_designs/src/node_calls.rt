//! Calls of `rr_graph`: the nodes and edges of a device, by their numbers.

use lab_session::answer::{added, put, put_maybe, put_maybe_named, put_numbers};
use lab_session::session::NO_DEVICE;
use lab_session::unanswered::Unanswered;
use lab_session::words::{Call, NO_NUMBER, no_words, number, numbers, pairs};
use rr_graph::{Device, EdgeFinder, Kind, Node, Span};
use smallvec::SmallVec;
use std::alloc::Global;

/// Makes a call, and adds its answer.
pub fn call(
    alloc: Global,
    device: &Option<Device>,
    call: Call<'_>,
    out: &mut String,
) -> Result<(), Unanswered> {
    match call.name {
        "id" | "edge" | "lacks_edge" | "joins" => look_for(alloc, device, call, out),
        "successors"
        | "node"
        | "kind"
        | "label"
        | "capacity"
        | "span"
        | "wire"
        | "sink_of"
        | "is_source"
        | "is_sink"
        | "track_type" => look_up_number(alloc, device, call, out),
        "node_count"
        | "edge_count"
        | "first_wire"
        | "most_successors"
        | "tracks"
        | "track_types"
        | "parts"
        | "dump_device"
        | "copy_device" => look_at_whole(alloc, device, call, out),
        _ => Err(Unanswered::NoCall),
    }
}

/// Returns the device, or the refusal if there is none.
fn there(device: &Option<Device>) -> Result<&Device, Unanswered> {
    match device {
        Some(device) => Ok(device),
        None => Err(NO_DEVICE),
    }
}

/// Makes a look-up of a node or a track by the number that a call gives.
fn look_up_number(
    alloc: Global,
    device: &Option<Device>,
    call: Call<'_>,
    out: &mut String,
) -> Result<(), Unanswered> {
    let [id] = numbers::<1>(call.given)?;
    look_up(alloc, there(device)?, call.name, id, out)
}

/// Makes a look-up of the whole device, by a call without words.
fn look_at_whole(
    alloc: Global,
    device: &Option<Device>,
    call: Call<'_>,
    out: &mut String,
) -> Result<(), Unanswered> {
    no_words(call.given)?;
    look_at_all(alloc, there(device)?, call.name, out)
}

/// Looks up the number of a node, or edges.
fn look_for(
    alloc: Global,
    device: &Option<Device>,
    call: Call<'_>,
    out: &mut String,
) -> Result<(), Unanswered> {
    let device = there(device)?;
    match call.name {
        "id" => put_id(device, call.given, out),
        "edge" => put_edge(device, call.given, out),
        "lacks_edge" => put_lacks_edge(alloc, device, call.given, out),
        _ => put_joins(alloc, device, call.given, out),
    }
}

/// Makes a look-up of a node or a track by its number.
fn look_up(
    alloc: Global,
    device: &Device,
    name: &str,
    id: u32,
    out: &mut String,
) -> Result<(), Unanswered> {
    match name {
        "successors" => put_successors(alloc, device, id, out),
        "node" => put_node(device.node(id), out),
        "kind" => put_maybe_named(out, device.kind(id)),
        "label" => put_maybe_named(out, device.label(id)),
        "capacity" => put_maybe(out, device.capacity(id)),
        "span" => put_span(device.span(id), out),
        "wire" => put_wire(device, id, out),
        "sink_of" => put_maybe(out, device.sink_of(id)),
        "is_source" => put(out, device.is_source(id)),
        "is_sink" => put(out, device.is_sink(id)),
        _ => put(out, device.track_type(id)),
    }
}

/// Makes a look-up of the whole device.
fn look_at_all(
    alloc: Global,
    device: &Device,
    name: &str,
    out: &mut String,
) -> Result<(), Unanswered> {
    match name {
        "node_count" => put(out, device.node_count()),
        "edge_count" => put(out, device.edge_count()),
        "first_wire" => put(out, device.first_wire()),
        "most_successors" => put(out, device.most_successors()),
        "tracks" => put(out, device.tracks()),
        "track_types" => put_types(alloc, device, out),
        "parts" => put_parts(device, out),
        "dump_device" => dump(alloc, device, out),
        _ => copy(alloc, device, out),
    }
}

/// Copies the device, and adds whether the copy is equal.
fn copy(alloc: Global, device: &Device, out: &mut String) -> Result<(), Unanswered> {
    let copy = device.copy(alloc)?;
    put(out, copy == *device)
}

/// Adds a node: its kind, its place and its number there.
fn put_node(node: Option<Node>, out: &mut String) -> Result<(), Unanswered> {
    match node {
        Some(Node { kind, x, y, number }) => { added(writeln!(out, "{kind:?} {x} {y} {number}")) }
        None => put(out, "none"),
    }
}

/// Adds a span: its lower end, and its upper end.
fn put_span(span: Option<Span>, out: &mut String) -> Result<(), Unanswered> {
    match span {
        Some(Span { x1, y1, x2, y2 }) => put_numbers(out, &[x1, y1, x2, y2]),
        None => put(out, "none"),
    }
}

/// Adds a wire: its kind, the greatest number of places that a wire of its track passes, and its
/// span.
fn put_wire(device: &Device, id: u32, out: &mut String) -> Result<(), Unanswered> {
    match device.wire(id) {
        Some((kind, span, reach)) => {
            write!(out, "{kind:?} {reach} ")?;
            put_span(Some(span), out)
        }
        None => put(out, "none"),
    }
}

/// Adds the type of each track.
fn put_types(alloc: Global, device: &Device, out: &mut String) -> Result<(), Unanswered> {
    let types = device.track_types(alloc)?;
    put_each(types.as_slice(), out)
}

fn put_each(numbers: &[usize], out: &mut String) -> Result<(), Unanswered> {
    for number in numbers {
        put(out, *number)?;
    }
    Ok(())
}

/// Adds the array, the width and the mode.
fn put_parts(device: &Device, out: &mut String) -> Result<(), Unanswered> {
    let (nx, ny) = (device.nx(), device.ny());
    let (width, mode) = (device.width(), device.mode());
    added(writeln!(out, "{nx} x {ny}, W {width}, {mode:?}"))
}

/// Returns the kind that a word names.
fn kind(word: &str) -> Result<Kind, Unanswered> {
    match word {
        "Source" => Ok(Kind::Source),
        "Sink" => Ok(Kind::Sink),
        "Opin" => Ok(Kind::Opin),
        "Ipin" => Ok(Kind::Ipin),
        "Chanx" => Ok(Kind::Chanx),
        "Chany" => Ok(Kind::Chany),
        _ => Err(Unanswered::Misread("id KIND X Y NUMBER")),
    }
}

/// Adds the number of a node.
fn put_id(device: &Device, given: &[&str], out: &mut String) -> Result<(), Unanswered> {
    let [word, x, y, number_word] = given else {
        return Err(Unanswered::Misread("id KIND X Y NUMBER"));
    };
    let kind = kind(word)?;
    let (Some(x), Some(y), Some(number)) = (number(x), number(y), number(number_word)) else {
        return Err(NO_NUMBER);
    };
    put_maybe(out, device.id(Node { kind, x, y, number }))
}

fn put_edge(device: &Device, given: &[&str], out: &mut String) -> Result<(), Unanswered> {
    let [from, to] = numbers::<2>(given)?;
    put(out, device.edge(from, to))
}

fn put_lacks_edge(
    alloc: Global,
    device: &Device,
    given: &[&str],
    out: &mut String,
) -> Result<(), Unanswered> {
    let pairs = pairs(alloc, given)?;
    put(out, device.lacks_edge(pairs.as_slice()))
}

/// Adds for each pair of nodes whether an edge joins them. One finder answers for all pairs.
fn put_joins(
    alloc: Global,
    device: &Device,
    given: &[&str],
    out: &mut String,
) -> Result<(), Unanswered> {
    let pairs = pairs(alloc, given)?;
    put_each_join(device, pairs.as_slice(), out)
}

fn put_each_join(
    device: &Device,
    pairs: &[(u32, u32)],
    out: &mut String,
) -> Result<(), Unanswered> {
    let mut finder = EdgeFinder::new(device);
    for (from, to) in pairs {
        put(out, finder.joins(*from, *to))?;
    }
    Ok(())
}

/// Adds the numbers of all nodes that an edge leads to from a node.
pub fn put_successors(
    alloc: Global,
    device: &Device,
    id: u32,
    out: &mut String,
) -> Result<(), Unanswered> {
    let mut list: SmallVec<u32, 8> = SmallVec::new(alloc);
    device.successors(id, &mut list)?;
    put_numbers(out, list.as_slice())
}

/// Adds a line for each node: its number, the answers of its look-ups, and its successors.
fn dump(alloc: Global, device: &Device, out: &mut String) -> Result<(), Unanswered> {
    for id in 0..device.node_count() {
        write!(out, "{id} ")?;
        dump_node(device, id, out)?;
        put_successors(alloc, device, id, out)?;
    }
    Ok(())
}

/// Adds the answers of a node's look-ups: kind, place, number, label, capacity and span.
fn dump_node(device: &Device, id: u32, out: &mut String) -> Result<(), Unanswered> {
    if let (Some(node), Some(label), Some(room)) = (
        device.node(id),
        device.label(id),
        device.capacity(id),
    ) {
        let Node { kind, x, y, number } = node;
        write!(out, "{kind:?} {x} {y} {number} {label:?} {room} ")?;
    }
    if let Some(Span { x1, y1, x2, y2 }) = device.span(id) {
        write!(out, "{x1} {y1} {x2} {y2}: ")?;
    }
    Ok(())
}
