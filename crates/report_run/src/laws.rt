//! Laws of the map: functions that do nothing, whose contracts are theorems about the definitions.
//! Each number of the map is the occupancy of its place, and each `!` an overused wire.

ghost use Rattle.std.specs.Prelude.{◌≡◌, ◌≤◌, ◌<◌, nat_lt};
ghost use Rattle.std.specs.List.{list_any};
ghost use Rattle.rr_graph.specs.Fabric.{numbers_below};
ghost use Rattle.rr_graph.specs.Nodes.{node_count_of};
ghost use Rattle.rr_graph.specs.node.Kind.TheVariants.{Chanx, Chany};
ghost use Rattle.route_report.specs.Channels.{channels_of, occupancy_at, place_in};
ghost use Rattle.report_run.specs.Map.{is_over_at, occupied_at, overused_channels, right_of};

use rr_graph::Device;

/// Shows that the map has the occupancy of a place, counted from 0, of the channel above a row.
#[tactic(auto, using(crate::proofs::Places::above_is))]
pub fn mapped_above(device: &Device, uses: &[u16], row: u32, place: u32)
    requires row { row ≤ device.now.ny }
    requires place { place < device.now.nx }
    ensures { occupied_at (channels_of device.now uses.now) row place
        ≡ occupancy_at device.now uses.now (place_in Chanx row place) }
{}

/// Shows that the map has the occupancy of a place, counted from 0, of the channel right of a
/// column.
#[tactic(auto, using(crate::proofs::Places::right_is))]
pub fn mapped_right(device: &Device, uses: &[u16], column: u32, place: u32)
    requires column { column ≤ device.now.nx }
    requires place { place < device.now.ny }
    ensures { occupied_at (channels_of device.now uses.now) (right_of device.now column) place
        ≡ occupancy_at device.now uses.now (place_in Chany column place) }
{}

/// Shows that a place of the channel above a row is marked exactly if an overused wire runs through
/// it.
#[tactic(auto, using(crate::proofs::Marking::above_marked))]
pub fn marked_above(device: &Device, uses: &[u16], row: u32, place: u32)
    requires row { row ≤ device.now.ny }
    requires place { place < device.now.nx }
    ensures { nat_lt 0 (occupied_at (overused_channels device.now uses.now) row place)
        ≡ list_any (is_over_at device.now uses.now (place_in Chanx row place))
        (numbers_below (node_count_of device.now)) }
{}

/// Shows that a place of the channel right of a column is marked exactly if an overused wire runs
/// through it.
#[tactic(auto, using(crate::proofs::Marking::right_marked))]
pub fn marked_right(device: &Device, uses: &[u16], column: u32, place: u32)
    requires column { column ≤ device.now.nx }
    requires place { place < device.now.ny }
    ensures { nat_lt 0
        (occupied_at (overused_channels device.now uses.now) (right_of device.now column) place)
        ≡ list_any (is_over_at device.now uses.now (place_in Chany column place))
        (numbers_below (node_count_of device.now)) }
{}
