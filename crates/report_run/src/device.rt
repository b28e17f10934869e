//! The numbers of wires and places of a device, and of global nets of a netlist.

ghost use Rattle.std.specs.Prelude.{◌≡◌, if◌then◌else◌};
ghost use Rattle.rr_graph.specs.Nodes.{is_wire_at};
ghost use Rattle.report_run.specs.Figures.{global_nets, places_in, wires_in};

use net_file::Netlist;
use route_report::places_at;
use rr_graph::{Device, Kind};

/// Returns 1 if a node is a wire, and otherwise 0.
fn one_if_wire(device: &Device, node: u32) -> u64
    ensures { result ≡ (if is_wire_at device.now node then 1 else 0) }
{
    match device.kind(node) {
        Some(Kind::Chanx | Kind::Chany) => 1,
        _ => 0,
    }
}

/// Returns the number of wires.
#[tactic(auto, using(route_report::proofs::Sums::count_next), unfolding(crate::specs::Figures::wires_in))]
pub(crate) fn wires_in(device: &Device) -> u64
    ensures { result ≡ wires_in device.now }
{
    let mut wires = 0;
    for node in 0..device.node_count() {
        wires += one_if_wire(device, node);
    }
    wires
}

/// Returns the number of places that the wires pass.
#[tactic(auto, using(route_report::proofs::Sums::sum_more), unfolding(crate::specs::Figures::places_in))]
pub(crate) fn places_in(device: &Device) -> u64
    ensures { result ≡ places_in device.now }
{
    let mut places = 0;
    for node in 0..device.node_count() {
        places += places_at(device, node);
    }
    places
}

/// Returns the number of nets that a dedicated network carries.
#[tactic(auto, unfolding(crate::specs::Figures::global_nets))]
pub(crate) fn global_nets(netlist: &Netlist<'_>) -> usize
    ensures { result ≡ global_nets netlist.now }
{
    netlist.nets().iter().filter(|net| net.is_global()).count()
}
