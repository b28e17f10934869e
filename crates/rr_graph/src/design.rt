//! Placed designs: what the nets of a netlist join on a device.

ghost use Rattle.std.specs.Prelude.{◌≡◌, ℕ, ◌||◌, not, true, map, List, IfOk};
ghost use Rattle.std.specs.List.{list_all, filter_map};
ghost use Rattle.net_file.specs.Facts.{IsNetlist};
ghost use Rattle.net_file.specs.Reads.{ReadsBytes};
ghost use Rattle.net_file.specs.Routed.{is_routed_net, routed_numbers};
ghost use Rattle.place_file.specs.Placement.{IsPlaced};
ghost use Rattle.channel_tables.specs.Fabric.{IsFabric, is_block};
ghost use Rattle.rr_graph.specs.Designs.{label_on, node_on, terminal_node, has_node, has_nodes, has_size_of, are_on_sites, suits_design, nodes_of_sinks, net_on_device, net_of_design};

use channel_tables::{Kind, Node};
use net_file::{Net, Netlist, Terminal};
use place_file::{Placement, Site};
use routing_problem::{Device, Terminals};
use std::alloc::{AllocError, Global};

/// Whether each of so many blocks has a site.
fn are_on_sites(placement: &Placement, blocks: usize) -> bool
    ensures { result ≡ are_on_sites placement.now blocks }
{
    (0..blocks).all(|block| placement.site(block).is_some())
}

/// Whether a net is routed.
fn is_routed(net: &Net) -> bool
    ensures { result ≡ is_routed_net net.now }
{
    !net.is_global() && !net.sinks().is_empty()
}

/// Whether the placement's array has the size of the device's.
fn has_size_of(device: &Device, placement: &Placement) -> bool
    ensures limits { IsFabric device.now }
    ensures same { result ≡ has_size_of device.now placement.now }
{
    device.nx() == placement.nx() && device.ny() == placement.ny()
}

/// Whether a logic block is at (x, y).
fn is_block(device: &Device, x: u32, y: u32) -> bool
    ensures { result ≡ is_block device.now x y }
{
    (1 <= x && x <= device.nx()) && (1 <= y && y <= device.ny())
}

/// What a terminal's node is numbered by: at a logic block the class of its pin, at pads the
/// position of its site.
fn label_on(device: &Device, class: Option<u32>, site: Site) -> Option<u32>
    ensures { result ≡ label_on (is_block device.now site.x site.y) class site }
{
    match (is_block(device, site.x, site.y), class) {
        (true, Some(class)) => Some(class),
        (false, None) => Some(site.subblk),
        _ => None,
    }
}

/// The node of a kind on a site, for a pin of this class.
fn node_on(device: &Device, kind: Kind, class: Option<u32>, site: Site) -> Option<u32>
    ensures { result ≡ node_on device.now kind class site }
{
    let number = label_on(device, class, site)?;
    device.id(Node {
        kind,
        x: site.x,
        y: site.y,
        number,
    })
}

/// The node of a terminal on the site of its block: a source for what drives a net, a sink for what
/// takes its signal. None where its block has no site, or there is no such node.
#[tactic(auto, unfolding(crate::specs::Designs::terminal_node))]
fn node_of_terminal(
    device: &Device,
    kind: Kind,
    placement: &Placement,
    terminal: Terminal,
) -> Option<u32>
    ensures { result ≡ terminal_node device.now kind placement.now terminal }
{
    let site = placement.site(terminal.block)?;
    node_on(device, kind, terminal.class, site)
}

/// Whether all of these terminals have nodes.
fn have_nodes(device: &Device, kind: Kind, placement: &Placement, terminals: &[Terminal]) -> bool
    ensures { result ≡ list_all (has_node device.now kind placement.now) terminals.now }
{
    terminals.iter().all(|terminal| node_of_terminal(device, kind, placement, *terminal).is_some())
}

/// Whether what drives the net and all that takes its signal have nodes.
fn has_nodes(device: &Device, placement: &Placement, net: &Net) -> bool
    ensures { result ≡ has_nodes device.now placement.now net.now }
{
    node_of_terminal(device, Kind::Source, placement, net.driver()).is_some()
        && have_nodes(device, Kind::Sink, placement, net.sinks())
}

/// Whether the net is not routed, or all its terminals have nodes.
fn suits_net(device: &Device, placement: &Placement, net: &Net) -> bool
    ensures { result ≡ (not (is_routed_net net.now) || has_nodes device.now placement.now net.now) }
{
    !is_routed(net) || has_nodes(device, placement, net)
}

/// Whether all terminals of routed nets have nodes.
fn suits_nets(device: &Device, placement: &Placement, nets: &[Net]) -> bool
    ensures { result
        ≡ list_all (λ net. not (is_routed_net net) || has_nodes device.now placement.now net)
        nets.now }
{
    nets.iter().all(|net| suits_net(device, placement, net))
}

#[tactic(auto, unfolding(crate::specs::Designs::suits_design))]
fn suits_design(device: &Device, netlist: &Netlist, placement: &Placement) -> bool
    ensures limits { IsFabric device.now }
    ensures suits { result ≡ suits_design device.now netlist.now placement.now }
{
    has_size_of(device, placement)
        && (are_on_sites(placement, netlist.blocks().len())
            && suits_nets(device, placement, netlist.nets()))
}

/// The nodes of the sinks that have one, in the order of the sinks.
fn sinks_found(
    alloc: Global,
    device: &Device,
    placement: &Placement,
    sinks: &[Terminal],
) -> Result<Vec<u32>, AllocError>
    ensures { IfOk result
        (λ v. v.items ≡ filter_map (terminal_node device.now Kind.Sink placement.now) sinks.now) }
{
    sinks
        .iter()
        .filter_map(|sink| node_of_terminal(device, Kind::Sink, placement, *sink))
        .collect(alloc)
}

/// The nodes of sinks, ascending.
#[tactic(auto, using(crate::proofs::Designs::sinks_in_order))]
fn nodes_of_sinks(
    alloc: Global,
    device: &Device,
    placement: &Placement,
    sinks: &[Terminal],
) -> Result<Vec<u32>, AllocError>
    ensures { IfOk result (λ v. v.items ≡ nodes_of_sinks device.now placement.now sinks.now) }
{
    let mut nodes = sinks_found(alloc, device, placement, sinks)?;
    nodes.sort_unstable();
    nodes.dedup();
    Ok(nodes)
}

/// What a net with this number joins.
fn net_on_device(
    alloc: Global,
    device: &Device,
    placement: &Placement,
    number: u32,
    net: &Net,
) -> Result<Terminals, AllocError>
    ensures { IfOk result (λ t. t ≡ net_on_device device.now placement.now number net.now) }
{
    let sinks = nodes_of_sinks(alloc, device, placement, net.sinks())?;
    Ok(Terminals {
        number,
        source: node_of_terminal(device, Kind::Source, placement, net.driver()).unwrap_or(0),
        sinks,
    })
}

/// What each routed net joins, by number.
#[tactic(auto, using(channel_tables::proofs::Ranges::kept_more, channel_tables::proofs::Ranges::skipped_more), unfolding(crate::specs::Designs::net_of_design))]
pub(crate) fn nets_of_design(
    alloc: Global,
    device: &Device,
    netlist: &Netlist,
    placement: &Placement,
) -> Result<Vec<Terminals>, AllocError>
    ensures facts { IsNetlist netlist.now }
    ensures nets { IfOk result
        (λ v. v.items ≡ map (net_of_design device.now netlist.now placement.now)
        (routed_numbers netlist.now)) }
{
    let nets = netlist.nets();
    let mut list = Vec::new(alloc);
    for n in 0..nets.len() {
        let net = &nets[n];
        if is_routed(net) {
            list.push(net_on_device(alloc, device, placement, n as u32, net)?)?;
        }
    }
    Ok(list)
}

/// What devices are asked about placed designs.
pub trait SuitsDesigns {
    /// Whether the placed design fits the device: the arrays agree in size, all blocks have sites,
    /// and all terminals of routed nets have nodes.
    fn suits(&self, netlist: &Netlist, placement: &Placement) -> bool;
}

impl SuitsDesigns for Device {
    /// Whether the placed design fits the device: the arrays agree in size, all blocks have sites,
    /// and all terminals of routed nets have nodes.
    fn suits(&self, netlist: &Netlist, placement: &Placement) -> bool
        ensures exact { result ≡ suits_design self.now netlist.now placement.now }
        // A netlist that was read for the device's architecture, and a placement of its blocks on
        // an array of the device's size.
        ensures read { (bytes : List ℕ) → ReadsBytes self.now.architecture.pins bytes netlist.now
            → IsPlaced self.now.architecture.io_rat netlist.now.blocks placement.now
            → self.now.nx ≡ placement.now.nx → self.now.ny ≡ placement.now.ny → result ≡ true }
    {
        suits_design(self, netlist, placement)
    }
}
