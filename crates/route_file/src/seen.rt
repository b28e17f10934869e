//! What is kept from the lines so far.

ghost use Rattle.std.specs.Prelude.{◌≡◌, [], true, false, IfOk, OnOk, slice_index_or, slice_set};
ghost use Rattle.std.specs.Option.{option_map_or};
ghost use Rattle.rr_graph.specs.Problems.{is_sink};
ghost use Rattle.route_file.specs.kept.LinesSeen.{IsSeen, NotesNet, NotesNode, Notes, had_net, is_off, no_owner, pair_after};

use crate::entry::FileEntry;
use crate::lists::{add_pair, no_lists};
use net_file::Netlist;
use route_tree::Pairs;
use rr_graph::Device;
use std::alloc::{AllocError, Global};

/// What the lines so far say, as far as later lines depend on it, and the lists that they give.
#[derive(Drop)]
pub(crate) struct Seen {
    /// The net whose section has the next line.
    pub(crate) net: Option<u32>,
    /// The last node of that section.
    pub(crate) last: Option<u32>,
    /// For each net, whether one of the lines is its own.
    pub(crate) had: Vec<bool>,
    /// For each node, the net whose section had it last; `NO_OWNER` if none had it.
    pub(crate) owners: Vec<u32>,
    /// For each net, the list that the lines give for it.
    pub(crate) lists: Vec<Option<Pairs>>,
}

/// The owner of a node that was in no section.
const NO_OWNER: u32 = u32::MAX;

/// Marks number `n`, if it is one of them.
fn mark(marks: &mut Vec<bool>, n: usize)
    ensures { marks.new.items ≡ slice_set marks.old.items n true }
{
    if n < marks.len() {
        marks[n] = true;
    }
}

/// Gives a node to a net, if it is one of them.
fn give(owners: &mut Vec<u32>, node: usize, net: u32)
    ensures { owners.new.items ≡ slice_set owners.old.items node net }
{
    if node < owners.len() {
        owners[node] = net;
    }
}

/// The pair that a node makes with the one before it, if there is one and it is no sink.
fn pair_after(device: &Device, last: Option<u32>, node: u32) -> Option<(u32, u32)>
    ensures { result ≡ pair_after device.now last node }
{
    match last {
        None => None,
        Some(before) => {
            if device.is_sink(before) {
                None
            } else {
                Some((before, node))
            }
        }
    }
}

impl Seen {
    /// What no lines say.
    pub(crate) fn new(alloc: Global, netlist: &Netlist, device: &Device) -> Result<Seen, AllocError>
        ensures { IfOk result (IsSeen netlist.now device.now []) }
    {
        let count = netlist.nets().len();
        let had = vec![in alloc; false; count]?;
        let owners = vec![in alloc; NO_OWNER; device.node_count() as usize]?;
        let lists = no_lists(alloc, count)?;
        Ok(Seen {
            net: None,
            last: None,
            had,
            owners,
            lists,
        })
    }

    /// Whether one of the lines is that of net `n`.
    pub(crate) fn had(&self, n: u32) -> bool
        ensures { result ≡ had_net self.now n }
    {
        match self.had.get(n as usize) {
            Some(had) => *had,
            None => false,
        }
    }

    /// Whether the last node is a sink, and this one isn't in the section of net `n`.
    pub(crate) fn is_off(&self, device: &Device, n: u32, node: u32) -> bool
        ensures { result ≡ is_off device.now self.now n node }
    {
        self.ends_in_sink(device) && self.owner(node) != n
    }

    /// Whether the last node is a sink.
    fn ends_in_sink(&self, device: &Device) -> bool
        ensures { result ≡ option_map_or (is_sink device.now) self.now.last false }
    {
        match self.last {
            Some(last) => device.is_sink(last),
            None => false,
        }
    }

    /// The net whose section had a node last.
    fn owner(&self, node: u32) -> u32
        ensures { result ≡ slice_index_or self.now.owners.items node no_owner }
    {
        match self.owners.get(node as usize) {
            Some(owner) => *owner,
            None => NO_OWNER,
        }
    }

    /// Adds the line of a net.
    fn begin(&mut self, net: u32)
        ensures { NotesNet self.old self.new net }
    {
        self.net = Some(net);
        self.last = None;
        mark(&mut self.had, net as usize);
    }

    /// Adds the line of a node.
    fn add_node(&mut self, alloc: Global, device: &Device, node: u32) -> Result<(), AllocError>
        ensures { OnOk result (NotesNode device.now self.old self.new node) }
    {
        if let Some(net) = self.net {
            let pair = pair_after(device, self.last, node);
            add_pair(alloc, &mut self.lists, net as usize, pair)?;
            give(&mut self.owners, node as usize, net);
        }
        self.last = Some(node);
        Ok(())
    }

    /// Adds a line without a fault.
    pub(crate) fn note(
        &mut self,
        alloc: Global,
        device: &Device,
        entry: FileEntry,
    ) -> Result<(), AllocError>
        ensures { OnOk result (Notes device.now self.old self.new entry) }
    {
        match entry {
            FileEntry::NetLine(net) => self.begin(net),
            FileEntry::BlockLine => {}
            FileEntry::NodeLine(node) => self.add_node(alloc, device, node)?,
        }
        Ok(())
    }

    /// The lists that the lines give, by the numbers of their nets.
    pub(crate) fn into_lists(self) -> Vec<Option<Pairs>>
        ensures { result.items ≡ self.lists.items }
    {
        let Seen {
            net: _,
            last: _,
            had: _,
            owners: _,
            lists,
        } = self;
        lists
    }
}
