//! Laws of the figures: functions that do nothing, and whose contracts are theorems about the
//! definitions.

ghost use Rattle.std.specs.Prelude.{◌≡◌, ℕ, sum};
ghost use Rattle.std.specs.List.{sum_by};
ghost use Rattle.routing_problem.specs.node.Mode.TheVariants.{Detailed, Global};
ghost use Rattle.routing_problem.specs.Fabric.{IsFabric};
ghost use Rattle.route_tree.specs.Usage.{overuse_of};
ghost use Rattle.route_report.specs.Channels.{channels_of};
ghost use Rattle.route_report.specs.Covered.{uses_of};
ghost use Rattle.route_report.specs.Figures.{places_covered, wires_used, places_used};
ghost use Rattle.route_report.specs.WireTypes.{wire_types_of};
ghost use Rattle.route_report.specs.Wirelength.{wirelengths_of};

use route_tree::Routing;
use routing_problem::{Device, Problem};

/// The wirelength of all nets together is the number of places of all wires, those of each wire
/// counted as often as nets cover it.
#[tactic(auto, using(crate::proofs::Totals::wirelength_by_wires))]
pub fn wirelength_by_wires(problem: &Problem, routing: &Routing)
    ensures { sum (wirelengths_of problem.now routing.now) ≡
        places_covered problem.now routing.now }
{}

/// If no node of a detailed device is overused, the places that are used are the wirelength of all
/// nets together.
#[tactic(auto, using(crate::proofs::Totals::places_once))]
pub fn places_once(problem: &Problem, routing: &Routing)
    requires detailed { problem.now.device.mode ≡ Detailed }
    requires within { (a : ℕ) → overuse_of problem.now routing.now a ≡ 0 }
    ensures { places_used problem.now.device (uses_of problem.now routing.now) ≡
        sum (wirelengths_of problem.now routing.now) }
{}

/// The occupancy of all channels of a detailed device is the places that are used.
#[tactic(auto, using(crate::proofs::ChannelTotals::occupied_places))]
pub fn occupied_places(device: &Device, uses: &[u16])
    requires { device.now.mode ≡ Detailed }
    ensures { sum_by (λ c. c.total) (channels_of device.now uses.now) ≡
        places_used device.now uses.now }
{}

/// The occupancy of all channels of a global device is the wirelength of all nets together.
#[tactic(auto, using(crate::proofs::ChannelTotals::global_occupancy))]
pub fn global_occupancy(problem: &Problem, routing: &Routing)
    requires { problem.now.device.mode ≡ Global }
    ensures { sum_by (λ c. c.total)
        (channels_of problem.now.device (uses_of problem.now routing.now)) ≡
        sum (wirelengths_of problem.now routing.now) }
{}

/// The used wires of all types together are all the used wires, and so are their places.
#[tactic(auto, using(crate::proofs::TypeTotals::wires_together, crate::proofs::TypeTotals::places_together))]
pub fn types_together(device: &Device, uses: &[u16])
    requires { IsFabric device.now }
    ensures wires { sum_by (λ t. t.wires_used) (wire_types_of device.now uses.now) ≡
        wires_used device.now uses.now }
    ensures places { sum_by (λ t. t.places_used) (wire_types_of device.now uses.now) ≡
        places_used device.now uses.now }
{}
