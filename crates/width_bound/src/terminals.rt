//! Which pins blocks and pads have, and to which terminals they belong.

ghost use Rattle.std.specs.Prelude.{◌≡◌, ◌≤◌, slice_get, length};
ghost use Rattle.std.specs.Option.{option_map};
ghost use Rattle.arch_file.specs.Architecture.{most_pins};
ghost use Rattle.rr_graph.specs.Fabric.{is_block, is_pad};
ghost use Rattle.rr_graph.specs.Pins.{belongs, has_class, is_global_pin, is_marked_global, has_direction};
ghost use Rattle.width_bound.specs.kept.Terminals.{pin_count, has_pin, direction_for};

use arch_file::{Direction, Pin};
use rr_graph::{Device, Kind, Node};

/// A logic block is at (x, y).
pub(crate) fn is_block(device: &Device, x: u32, y: u32) -> bool
    ensures { result ≡ is_block device.now x y }
{
    (1 <= x && x <= device.nx()) && (1 <= y && y <= device.ny())
}

/// Pads are at (x, y).
fn is_pad(device: &Device, x: u32, y: u32) -> bool
    ensures { result ≡ is_pad device.now x y }
{
    ((x == 0 || x == device.nx() + 1) && (1 <= y && y <= device.ny()))
        || ((y == 0 || y == device.ny() + 1) && (1 <= x && x <= device.nx()))
}

/// A pin of a logic block.
pub(crate) fn pin_at(device: &Device, number: u32) -> Option<Pin>
    ensures { result ≡ slice_get device.now.architecture.pins number }
{
    device.architecture().pins().get(number as usize).copied()
}

/// Whether the pin has a dedicated network.
fn is_marked_global(pin: Option<Pin>) -> bool
    ensures { result ≡ is_marked_global pin }
{
    match pin {
        None => false,
        Some(pin) => pin.global,
    }
}

/// Whether the node is a pin with a dedicated network.
pub(crate) fn is_global_pin(device: &Device, pin: Node) -> bool
    ensures { result ≡ is_global_pin device.now pin }
{
    is_block(device, pin.x, pin.y) && is_marked_global(pin_at(device, pin.number))
}

/// Whether the pin is of the class.
fn has_class(pin: Option<Pin>, class: u32) -> bool
    ensures { result ≡ has_class pin class }
{
    match pin {
        None => false,
        Some(pin) => pin.class == class,
    }
}

/// Whether the pin is of the terminal.
#[tactic(auto, unfolding(channel_tables::specs::Pins::belongs))]
pub(crate) fn belongs(device: &Device, pin: Node, terminal: Node) -> bool
    ensures { result ≡ belongs device.now pin terminal }
{
    (pin.x == terminal.x && pin.y == terminal.y)
        && (if is_block(device, pin.x, pin.y) {
            has_class(pin_at(device, pin.number), terminal.number)
        } else {
            pin.number == terminal.number
        })
}

/// How many pins the block at (x, y) has, or how many pads are there.
pub(crate) fn pin_count(device: &Device, x: u32, y: u32) -> u32
    ensures { result ≡ pin_count device.now x y }
{
    if is_block(device, x, y) {
        device.architecture().pins().len() as u32
    } else if is_pad(device, x, y) {
        device.architecture().io_rat()
    } else {
        0
    }
}

/// Whether the pin has the direction of the kind of nodes.
fn is_for(kind: Kind, pin: Option<Pin>) -> bool
    ensures { result ≡ has_direction (direction_for kind) (option_map (λ q. q.direction) pin) }
{
    match (kind, pin) {
        (_, None) => false,
        (Kind::Opin, Some(pin)) => matches!(pin.direction, Direction::Output),
        (_, Some(pin)) => matches!(pin.direction, Direction::Input),
    }
}

/// Whether a node of the kind is at (x, y) for the pin or pad of this number.
pub(crate) fn has_pin(device: &Device, kind: Kind, x: u32, y: u32, number: u32) -> bool
    ensures { result ≡ has_pin device.now kind x y number }
{
    if is_block(device, x, y) {
        is_for(kind, pin_at(device, number))
    } else {
        true
    }
}
