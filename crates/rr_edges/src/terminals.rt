//! The successors of sources and input pins, from their places by arithmetic.

ghost use Rattle.std.specs.Prelude.{◌≡◌, ℕ, ◌+◌, ◌<◌, ◌≤◌, ◌==◌, length, slice_get};
ghost use Rattle.arch_file.specs.Architecture.{most_pins};
ghost use Rattle.smallvec.specs.SmallVec.{HasRoomFor};
ghost use Rattle.channel_tables.specs.Pins.{has_class};
ghost use Rattle.channel_tables.specs.Picks.{picks};
ghost use Rattle.rr_edges.specs.kept.PinSuccessors.{source_successors, sink_of_pin, ipin_successors};
ghost use Rattle.rr_edges.specs.kept.Pushes.{Pushes};
ghost use Rattle.rr_edges.specs.kept.Terminals.{IsTerminal, sink_label, sink_beside};

use crate::device_graph::DeviceGraph;
use crate::fanout::push_if;
use arch_file::Pin;
use channel_tables::{Kind, Layout, Node, has_class};
use smallvec::SmallVec;

/// Those of the pins that are of a class; the first of the pins has number `start`.
#[tactic(auto, using(crate::proofs::Pushes::pushed_next, crate::proofs::Pushes::room_next))]
fn push_class(layout: &Layout, list: &mut SmallVec<u32, 8>, pins: &[u32], class: u32, start: u32)
    requires room { HasRoomFor list.old (length
        (picks (λ p. has_class (slice_get layout.now.architecture.pins p) class) start pins.now)) }
    requires few { length pins.now ≤ most_pins }
    requires small { start < 16777216 }
    ensures { Pushes list.old (picks (λ p. has_class
        (slice_get layout.now.architecture.pins p) class) start pins.now) list.new }
{
    for (place, pin) in pins.iter().enumerate() {
        let is_of_class = has_class(layout.pin(*pin), class);
        push_if(list, is_of_class, start + place as u32);
    }
}

/// How many pins are of a class.
#[tactic(auto, using(crate::proofs::Pushes::count_picked, crate::proofs::Pushes::count_passed))]
fn count_class(layout: &Layout, pins: &[u32], class: u32) -> u32
    requires { length pins.now ≤ most_pins }
    ensures { result ≡ length (picks (λ p. has_class
        (slice_get layout.now.architecture.pins p) class) 0 pins.now) }
{
    let mut count = 0;
    for (_place, pin) in pins.iter().enumerate() {
        if has_class(layout.pin(*pin), class) {
            count += 1;
        }
    }
    count
}

/// Those of the classes that are this one; the first of the classes has number `start`.
#[tactic(auto, using(crate::proofs::Pushes::pushed_next, crate::proofs::Pushes::room_next))]
fn push_equal(list: &mut SmallVec<u32, 8>, classes: &[u32], class: u32, start: u32)
    requires room { HasRoomFor list.old (length (picks (λ c. c == class) start classes.now)) }
    requires few { length classes.now ≤ most_pins }
    requires small { start < 16777216 }
    ensures { Pushes list.old (picks (λ c. c == class) start classes.now) list.new }
{
    for (place, other) in classes.iter().enumerate() {
        push_if(list, *other == class, start + place as u32);
    }
}

/// How many of the classes are this one.
#[tactic(auto, using(crate::proofs::Pushes::count_picked, crate::proofs::Pushes::count_passed))]
fn count_equal(classes: &[u32], class: u32) -> u32
    requires { length classes.now ≤ most_pins }
    ensures { result ≡ length (picks (λ c. c == class) 0 classes.now) }
{
    let mut count = 0;
    for (_place, other) in classes.iter().enumerate() {
        if *other == class {
            count += 1;
        }
    }
    count
}

impl DeviceGraph {
    /// The successors of a source at (x, y).
    #[tactic(auto, using(crate::proofs::TerminalPlaces::source_of_block, node_numbers::proofs::PlaceStarts::few_numbers), unfolding(crate::specs::kept::PinSuccessors::source_successors))]
    pub(crate) fn push_pins_of_source(&self, list: &mut SmallVec<u32, 8>, node: Node)
        requires room { HasRoomFor list.old (length (source_successors self.now node)) }
        requires place { IsTerminal self.now node.x node.y node.number }
        ensures { Pushes list.old (source_successors self.now node) list.new }
    {
        let start = self.nodes.terminal_start(Kind::Opin, node.x, node.y);
        if self.layout().is_block(node.x, node.y) {
            push_class(
                self.layout(),
                list,
                self.nodes.numbers(Kind::Opin),
                node.number,
                start,
            );
        } else {
            list.push_reserved(start + node.number);
        }
    }

    /// How many successors a source has.
    #[tactic(auto, using(crate::proofs::TerminalPlaces::source_of_block, crate::proofs::Pushes::count_shifted, crate::proofs::Pushes::few_picked, node_numbers::proofs::PlaceStarts::few_numbers), unfolding(crate::specs::kept::PinSuccessors::source_successors))]
    pub(crate) fn count_pins_of_source(&self, node: Node) -> u32
        ensures { result ≡ length (source_successors self.now node) }
    {
        if self.layout().is_block(node.x, node.y) {
            count_class(self.layout(), self.nodes.numbers(Kind::Opin), node.number)
        } else {
            1
        }
    }

    /// The sink of an input pin of a block whose first sink has number `start`.
    #[tactic(auto, using(crate::proofs::TerminalPlaces::sink_of_class, crate::proofs::TerminalPlaces::no_sink_of_pin, node_numbers::proofs::PlaceStarts::few_numbers))]
    fn push_sink_of_pin(&self, list: &mut SmallVec<u32, 8>, pin: Option<Pin>, x: u32, y: u32)
        requires room { HasRoomFor list.old (length (sink_of_pin self.now pin x y)) }
        requires column { x ≤ self.now.nx + 1 }
        requires row { y ≤ self.now.ny + 1 }
        ensures { Pushes list.old (sink_of_pin self.now pin x y) list.new }
    {
        match pin {
            None => {}
            Some(pin) => {
                let start = self.nodes.terminal_start(Kind::Sink, x, y);
                push_equal(list, self.nodes.numbers(Kind::Sink), pin.class, start);
            }
        }
    }

    /// How many sinks an input pin of a block has.
    #[tactic(auto, using(crate::proofs::TerminalPlaces::sink_of_class, crate::proofs::TerminalPlaces::no_sink_of_pin, crate::proofs::Pushes::count_shifted, node_numbers::proofs::PlaceStarts::few_numbers))]
    fn count_sink_of_pin(&self, pin: Option<Pin>) -> u32
        ensures { (x y : ℕ) → result ≡ length (sink_of_pin self.now pin x y) }
    {
        match pin {
            None => 0,
            Some(pin) => count_equal(self.nodes.numbers(Kind::Sink), pin.class),
        }
    }

    /// The successors of an input pin at (x, y).
    #[tactic(auto, unfolding(crate::specs::kept::PinSuccessors::ipin_successors))]
    pub(crate) fn push_sink_of_ipin(&self, list: &mut SmallVec<u32, 8>, node: Node)
        requires room { HasRoomFor list.old (length (ipin_successors self.now node)) }
        requires place { IsTerminal self.now node.x node.y node.number }
        ensures { Pushes list.old (ipin_successors self.now node) list.new }
    {
        if self.layout().is_block(node.x, node.y) {
            self.push_sink_of_pin(list, self.layout().pin(node.number), node.x, node.y);
        } else {
            let start = self.nodes.terminal_start(Kind::Sink, node.x, node.y);
            list.push_reserved(start + node.number);
        }
    }

    /// How many successors an input pin has.
    #[tactic(auto, unfolding(crate::specs::kept::PinSuccessors::ipin_successors))]
    pub(crate) fn count_sink_of_ipin(&self, node: Node) -> u32
        ensures { result ≡ length (ipin_successors self.now node) }
    {
        if self.layout().is_block(node.x, node.y) {
            self.count_sink_of_pin(self.layout().pin(node.number))
        } else {
            1
        }
    }

    /// What the sink of an input pin is numbered by: the pin's class at a block, its position at a
    /// pad.
    fn sink_label(&self, pin: Node) -> Option<u32>
        ensures { result ≡ sink_label self.now pin }
    {
        if self.layout().is_block(pin.x, pin.y) {
            self.layout().pin(pin.number).map(|pin| pin.class)
        } else {
            Some(pin.number)
        }
    }

    /// The sink of an input pin, at the pin's place.
    pub(crate) fn sink_beside(&self, pin: Node) -> Option<u32>
        ensures { result ≡ sink_beside self.now pin }
    {
        let number = self.sink_label(pin)?;
        self.nodes.id(Node {
            kind: Kind::Sink,
            x: pin.x,
            y: pin.y,
            number,
        })
    }
}
