//! A block of a netlist.

ghost use Rattle.std.specs.Prelude.{◌≡◌};
ghost use Rattle.net_file.specs.Connections.{net_at};

use crate::terminal::BlockKind;
use std::marker::Model;

/// A block: a pad or a logic block, with its name and the nets of its pins.
#[derive(Drop)]
pub struct Block<'a> {
    pub(crate) kind: BlockKind,
    pub(crate) name: &'a [u8],
    pub(crate) nets: Vec<Option<usize>>,
}

impl<'a> Model for Block<'a> {
    ghost use Rattle.net_file.specs.Netlist as netlist;

    ghost Value = { netlist.Block };

    ghost view = { λ b. record { kind = b.kind; name = b.name.now; nets = b.nets.items } };
}

impl<'a> Block<'a> {
    pub fn kind(&self) -> BlockKind
        ensures { result ≡ self.now.kind }
    {
        self.kind
    }

    /// The bytes of the name.
    pub fn name(&self) -> &'a [u8]
        ensures { result.now ≡ self.now.name }
    {
        self.name
    }

    /// For each pin the number of its net, if it is connected: a pad has one pin, a logic block
    /// those of the architecture.
    pub fn nets(&self) -> &[Option<usize>]
        ensures { result.now ≡ self.now.nets }
    {
        self.nets.as_slice()
    }

    /// The net at pin `p`, if there is such a pin and it is connected.
    pub fn net(&self, p: usize) -> Option<usize>
        ensures { result ≡ net_at self.now p }
    {
        match self.nets.get(p) {
            Some(net) => *net,
            None => None,
        }
    }
}
