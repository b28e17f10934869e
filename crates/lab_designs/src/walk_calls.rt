//! Calls of `rr_graph` that walk over a device. They make enough look-ups to be timed.

use lab_session::answer::added;
use lab_session::session::NO_DEVICE;
use lab_session::unanswered::Unanswered;
use lab_session::words::{Call, NO_NUMBER, number};
use rr_graph::{Device, EdgeFinder};
use smallvec::SmallVec;
use std::alloc::{AllocError, Global};

/// A prime above any number of nodes. For `n` nodes, its first `n` multiples modulo `n` are each
/// number below `n` once.
const STRIDE: u64 = 8_388_617;

/// The look-ups of a walk.
#[derive(Clone, Copy)]
enum Walk {
    /// All nodes.
    Nodes,
    /// All nodes, and the number of each.
    Numbers,
    /// The successors of all nodes.
    Successors,
    /// The successors of all wires.
    WireSuccessors,
    /// All edges, one by one.
    Edges,
    /// All edges, by one finder.
    Joins,
}

/// The number of things that a walk found, and the sum of one number of each.
#[derive(Clone, Copy)]
struct Walked {
    found: u64,
    sum: u64,
}

impl Walked {
    const NOTHING: Walked = Walked { found: 0, sum: 0 };

    /// Adds a thing that was found, with its number.
    fn add(&mut self, number: u32) {
        self.found = self.found.saturating_add(1);
        self.sum = self.sum.saturating_add(u64::from(number));
    }

    /// Adds what another walk found.
    fn add_all(&mut self, other: Walked) {
        self.found = self.found.saturating_add(other.found);
        self.sum = self.sum.saturating_add(other.sum);
    }
}

/// Makes a call, and adds its answer.
pub fn call(
    alloc: Global,
    device: &Option<Device>,
    call: Call<'_>,
    out: &mut String,
) -> Result<(), Unanswered> {
    match (walk_named(call.name), device) {
        (Some(walk), Some(device)) => put_walk(alloc, device, walk, call.given, out),
        (Some(_), None) => Err(NO_DEVICE),
        _ => Err(Unanswered::NoCall),
    }
}

/// Returns the walk that a call's name means.
fn walk_named(name: &str) -> Option<Walk> {
    match name {
        "walk_nodes" => Some(Walk::Nodes),
        "walk_numbers" => Some(Walk::Numbers),
        "walk_successors" => Some(Walk::Successors),
        "walk_wires" => Some(Walk::WireSuccessors),
        "walk_edges" => Some(Walk::Edges),
        "walk_joins" => Some(Walk::Joins),
        _ => None,
    }
}

/// Reads the number of times that a walk is made.
fn rounds(given: &[&str]) -> Result<u32, Unanswered> {
    match given {
        [word] => match number(word) {
            Some(rounds) => Ok(rounds),
            None => Err(NO_NUMBER),
        },
        _ => Err(Unanswered::Misread("the walk, and how many times it is made")),
    }
}

/// Walks as often as the words say, and adds what was found.
fn put_walk(
    alloc: Global,
    device: &Device,
    walk: Walk,
    given: &[&str],
    out: &mut String,
) -> Result<(), Unanswered> {
    let rounds = rounds(given)?;
    let Walked { found, sum } = walk_again(alloc, device, walk, rounds)?;
    added(writeln!(out, "{found}, sum {sum}"))
}

/// Walks `rounds` times, and returns what was found in all rounds.
fn walk_again(
    alloc: Global,
    device: &Device,
    walk: Walk,
    rounds: u32,
) -> Result<Walked, AllocError> {
    let mut walked = Walked::NOTHING;
    for _ in 0..rounds {
        walked.add_all(walk_once(alloc, device, walk)?);
    }
    Ok(walked)
}

fn walk_once(alloc: Global, device: &Device, walk: Walk) -> Result<Walked, AllocError> {
    match walk {
        Walk::Nodes => Ok(walk_nodes(device)),
        Walk::Numbers => Ok(walk_numbers(device)),
        Walk::Successors => walk_successors(alloc, device),
        Walk::WireSuccessors => walk_wires(alloc, device),
        Walk::Edges => walk_edges(alloc, device),
        Walk::Joins => walk_joins(alloc, device),
    }
}

/// Returns the number below `count` that a turn of a walk visits, or 0 if there is none. The walk
/// jumps about.
fn spread(turn: u32, count: u32) -> u32 {
    (u64::from(turn) * STRIDE % u64::from(count.max(1))) as u32
}

/// Looks up all nodes. The sum is that of their numbers at their places.
fn walk_nodes(device: &Device) -> Walked {
    let count = device.node_count();
    let mut walked = Walked::NOTHING;
    for turn in 0..count {
        if let Some(node) = device.node(spread(turn, count)) {
            walked.add(node.number);
        }
    }
    walked
}

/// Looks up all nodes, and the number of each. The sum is that of these numbers.
fn walk_numbers(device: &Device) -> Walked {
    let count = device.node_count();
    let mut walked = Walked::NOTHING;
    for turn in 0..count {
        if let Some(id) = number_again(device, spread(turn, count)) {
            walked.add(id);
        }
    }
    walked
}

/// Looks up the node of a number, and returns the number of that node.
fn number_again(device: &Device, id: u32) -> Option<u32> {
    match device.node(id) {
        Some(node) => device.id(node),
        None => None,
    }
}

/// Lists the successors of all nodes, jumping about, in one list that is reused. The sum is that of
/// all numbers in it.
fn walk_successors(alloc: Global, device: &Device) -> Result<Walked, AllocError> {
    let count = device.node_count();
    let mut list: SmallVec<u32, 8> = SmallVec::new(alloc);
    let mut walked = Walked::NOTHING;
    for turn in 0..count {
        device.successors(spread(turn, count), &mut list)?;
        add_each(&mut walked, list.as_slice());
    }
    Ok(walked)
}

/// Lists the successors of all wires, one wire after another, in one list that is reused. The sum
/// is that of all numbers in it.
fn walk_wires(alloc: Global, device: &Device) -> Result<Walked, AllocError> {
    let mut list: SmallVec<u32, 8> = SmallVec::new(alloc);
    let mut walked = Walked::NOTHING;
    for id in device.first_wire()..device.node_count() {
        device.successors(id, &mut list)?;
        add_each(&mut walked, list.as_slice());
    }
    Ok(walked)
}

fn add_each(walked: &mut Walked, list: &[u32]) {
    for id in list {
        walked.add(*id);
    }
}

/// Looks up each edge, from nodes that jump about. The sum is that of the nodes that the edges lead
/// to.
fn walk_edges(alloc: Global, device: &Device) -> Result<Walked, AllocError> {
    let count = device.node_count();
    let mut list: SmallVec<u32, 8> = SmallVec::new(alloc);
    let mut walked = Walked::NOTHING;
    for turn in 0..count {
        let from = spread(turn, count);
        device.successors(from, &mut list)?;
        add_edges(&mut walked, device, from, list.as_slice());
    }
    Ok(walked)
}

/// Adds each node of a list that an edge leads to from this node.
fn add_edges(walked: &mut Walked, device: &Device, from: u32, list: &[u32]) {
    for to in list {
        if device.edge(from, *to) {
            walked.add(*to);
        }
    }
}

/// Asks one finder for each edge, from nodes that jump about. The sum is that of the nodes that the
/// edges lead to.
fn walk_joins(alloc: Global, device: &Device) -> Result<Walked, AllocError> {
    let count = device.node_count();
    let mut finder = EdgeFinder::new(device);
    let mut list: SmallVec<u32, 8> = SmallVec::new(alloc);
    let mut walked = Walked::NOTHING;
    for turn in 0..count {
        let from = spread(turn, count);
        device.successors(from, &mut list)?;
        add_joins(&mut walked, &mut finder, from, list.as_slice());
    }
    Ok(walked)
}

/// Adds each node of a list that an edge leads to from this node, as a finder answers.
fn add_joins(walked: &mut Walked, finder: &mut EdgeFinder<'_>, from: u32, list: &[u32]) {
    for to in list {
        if finder.joins(from, *to) {
            walked.add(*to);
        }
    }
}
