//! How the pins of a block are connected.

ghost use Rattle.std.specs.Prelude.{◌≡◌, IfOk};
ghost use Rattle.net_file.specs.Connections.{is_output, role_of_pin, role_of_pad, role_of, net_at, are_alike, is_repeated, connection_at, connections_of};

use crate::block::Block;
use crate::terminal::{BlockKind, Terminal};
use arch_file::{Direction, Pin};
use std::alloc::{AllocError, Global};

/// What a pin is to its net.
#[derive(Clone, Copy, Debug)]
pub(crate) struct Role {
    /// The class of the pin, if it is one of a logic block.
    pub(crate) class: Option<u32>,
    pub(crate) drives: bool,
    /// Whether the architecture marks the pin `global`.
    pub(crate) marked: bool,
}

/// A pin that is connected to a net.
#[derive(Clone, Copy, Debug)]
pub(crate) struct Connection {
    pub(crate) net: usize,
    pub(crate) terminal: Terminal,
    pub(crate) drives: bool,
    pub(crate) marked: bool,
    /// Whether a pin before it of the same block has its class and its net.
    pub(crate) repeated: bool,
    /// The line of the block's pinlist.
    pub(crate) line: u32,
}

fn is_output(direction: Direction) -> bool
    ensures { result ≡ is_output direction }
{
    match direction {
        Direction::Input => false,
        Direction::Output => true,
    }
}

fn role_of_pin(pin: Pin) -> Role
    ensures { result ≡ role_of_pin pin }
{
    Role {
        class: Some(pin.class),
        drives: is_output(pin.direction),
        marked: pin.global,
    }
}

/// What a pin of a pad is to its net.
fn role_of_pad(drives: bool) -> Role
    ensures { result ≡ role_of_pad drives }
{
    Role {
        class: None,
        drives,
        marked: false,
    }
}

/// What pin `p` of a block is to its net.
fn role_of(pins: &[Pin], kind: BlockKind, p: usize) -> Role
    ensures { result ≡ role_of pins.now kind p }
{
    match kind {
        BlockKind::InputPad => role_of_pad(true),
        BlockKind::OutputPad => role_of_pad(false),
        BlockKind::LogicBlock => match pins.get(p) {
            Some(pin) => role_of_pin(*pin),
            None => role_of_pad(false),
        },
    }
}

/// Whether pins `q` and `p` of a block are of one class and on one net.
fn are_alike(pins: &[Pin], block: &Block, p: usize, q: usize) -> bool
    ensures { result ≡ are_alike pins.now block.now p q }
{
    role_of(pins, block.kind(), q).class == role_of(pins, block.kind(), p).class
        && block.net(q) == block.net(p)
}

/// Whether a pin before `p` is of its class and on its net.
#[tactic(auto, unfolding(crate::specs::Connections::is_repeated))]
fn is_repeated(pins: &[Pin], block: &Block, p: usize) -> bool
    ensures { result ≡ is_repeated pins.now block.now p }
{
    (0..p).any(|q| are_alike(pins, block, p, q))
}

/// How pin `p` of block number `number` is connected, if it is.
#[tactic(auto, unfolding(crate::specs::Connections::connection_at))]
fn connection_at(
    pins: &[Pin],
    line: u32,
    number: usize,
    block: &Block,
    p: usize,
) -> Option<Connection>
    ensures { result ≡ connection_at pins.now line number block.now p }
{
    let net = block.net(p)?;
    let role = role_of(pins, block.kind(), p);
    Some(Connection {
        net,
        terminal: Terminal {
            block: number,
            class: role.class,
        },
        drives: role.drives,
        marked: role.marked,
        repeated: is_repeated(pins, block, p),
        line,
    })
}

/// The connections of block number `number`, pin by pin.
#[tactic(auto, unfolding(crate::specs::Connections::connections_of))]
pub(crate) fn connections_of(
    alloc: Global,
    pins: &[Pin],
    line: u32,
    number: usize,
    block: &Block,
) -> Result<Vec<Connection>, AllocError>
    ensures { IfOk result (λ v. v.items ≡ connections_of pins.now line number block.now) }
{
    (0..block.nets().len())
        .filter_map(|p| connection_at(pins, line, number, block, p))
        .collect(alloc)
}
