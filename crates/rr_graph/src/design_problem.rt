//! The routing problems of placed designs.

ghost use Rattle.std.specs.Prelude.{◌≡◌, ℕ, ◌≤◌, List, true, map, IfOk};
ghost use Rattle.net_file.specs.Reads.{ReadsBytes};
ghost use Rattle.net_file.specs.Routed.{routed_numbers};
ghost use Rattle.place_file.specs.Placement.{IsPlaced};
ghost use Rattle.channel_tables.specs.Fabric.{most_tracks};
ghost use Rattle.rr_graph.specs.Designs.{suits_design, problem_from, problem_with};

use crate::design::{SuitsDesigns, nets_of_design};
use arch_file::Arch;
use channel_tables::Mode;
use net_file::Netlist;
use place_file::Placement;
use routing_problem::{Device, Problem};
use std::alloc::{AllocError, Global};

/// The routing problems of placed designs.
pub trait MadeOfDesigns {
    /// The routing problem of a placed design that suits the device: its routed nets, by their
    /// numbers in the netlist.
    fn new(
        alloc: Global,
        device: Device,
        netlist: &Netlist,
        placement: &Placement,
    ) -> Result<Problem, AllocError>
        requires { suits_design device netlist.now placement.now ≡ true }
        ensures made { IfOk result (λ p. p ≡ problem_from device netlist.now placement.now) }
        // The nets keep the numbers that they have in the netlist.
        ensures numbers { IfOk result (λ p. map (λ n. n.number) p.nets
            ≡ routed_numbers netlist.now) };

    /// The routing problem of a netlist and a placement that were read, on the device of the
    /// placement's array: its routed nets, by their numbers in the netlist.
    fn from_design(
        alloc: Global,
        arch: &Arch,
        netlist: &Netlist<'_>,
        placement: &Placement,
        width: u32,
        mode: Mode,
    ) -> Result<Problem, AllocError>
        requires tracks { (1 ≤ width) × (width ≤ most_tracks) }
        requires read { (bytes : List ℕ) × ReadsBytes arch.now.pins bytes netlist.now }
        requires placed { IsPlaced arch.now.io_rat netlist.now.blocks placement.now }
        ensures made { IfOk result (λ p. p ≡ problem_with mode arch.now netlist.now
            placement.now width) }
        // The nets keep the numbers that they have in the netlist.
        ensures numbers { IfOk result (λ p. map (λ n. n.number) p.nets
            ≡ routed_numbers netlist.now) };
}

impl MadeOfDesigns for Problem {
    /// The routing problem of a placed design that suits the device: its routed nets, by their
    /// numbers in the netlist.
    #[tactic(auto, using(crate::proofs::Designs::is_problem, crate::proofs::Designs::numbers_kept), unfolding(crate::specs::Designs::problem_from))]
    fn new(
        alloc: Global,
        device: Device,
        netlist: &Netlist,
        placement: &Placement,
    ) -> Result<Problem, AllocError> {
        let nets = nets_of_design(alloc, &device, netlist, placement)?;
        Ok(Problem::of_nets(device, nets))
    }

    /// The routing problem of a netlist and a placement that were read, on the device of the
    /// placement's array: its routed nets, by their numbers in the netlist.
    fn from_design(
        alloc: Global,
        arch: &Arch,
        netlist: &Netlist<'_>,
        placement: &Placement,
        width: u32,
        mode: Mode,
    ) -> Result<Problem, AllocError> {
        let (nx, ny) = (placement.nx(), placement.ny());
        let device = Device::with_mode(alloc, arch, nx, ny, width, mode)?;
        prove!(device.suits(netlist, placement));
        Problem::new(alloc, device, netlist, placement)
    }
}
