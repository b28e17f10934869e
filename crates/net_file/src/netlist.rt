//! A netlist and its look-ups.

ghost use Rattle.std.specs.Prelude.{◌≡◌};
ghost use Rattle.net_file.specs.Facts.{names_of_blocks, names_of_nets, IsNetlist};
ghost use Rattle.net_file.specs.Names.{number_among};

use crate::block::Block;
use crate::names::Names;
use crate::net::Net;
use std::marker::Model;

/// A netlist, as `parse` reads it: names are slices of the source. Contracts see it as the record
/// of its blocks and nets.
#[derive(Drop)]
pub struct Netlist<'a> {
    pub(crate) blocks: Vec<Block<'a>>,
    pub(crate) nets: Vec<Net<'a>>,
    /// The names of the blocks and of the nets, to find them by.
    pub(crate) block_names: Names<'a>,
    pub(crate) net_names: Names<'a>,
}

impl<'a> Model for Netlist<'a> {
    ghost use Rattle.net_file.specs.Netlist as netlist;
    ghost use Rattle.net_file.specs.kept.Fields.{netlist_in, IsIndexed};

    ghost Value = { netlist.Netlist };

    ghost view = { netlist_in };

    ghost invariant = { IsIndexed };
}

impl<'a> Netlist<'a> {
    /// The blocks, in the order of their elements.
    pub fn blocks(&self) -> &[Block<'a>]
        ensures entry { result.now ≡ self.now.blocks }
        ensures facts { IsNetlist self.now }
    {
        self.blocks.as_slice()
    }

    /// The nets, in the order in which pinlists first name them.
    pub fn nets(&self) -> &[Net<'a>]
        ensures entry { result.now ≡ self.now.nets }
        ensures facts { IsNetlist self.now }
    {
        self.nets.as_slice()
    }

    /// The number of the block with this name, if there is one. It takes a number of comparisons
    /// that grows with the logarithm of how many blocks there are.
    pub fn block_named(&self, name: &[u8]) -> Option<usize>
        ensures { result ≡ number_among (names_of_blocks self.now.blocks) name.now }
    {
        self.block_names.number(name)
    }

    /// The number of the net with this name, if there is one, found as quickly.
    pub fn net_named(&self, name: &[u8]) -> Option<usize>
        ensures { result ≡ number_among (names_of_nets self.now.nets) name.now }
    {
        self.net_names.number(name)
    }
}
