//! A netlist that is read and placed, before a device of some width is chosen.

ghost use Rattle.std.specs.Prelude.{◌≡◌, ℕ, ◌≤◌, true, false, List, map, IfOk};
ghost use Rattle.net_file.specs.Reads.{ReadsBytes};
ghost use Rattle.net_file.specs.Routed.{routed_numbers};
ghost use Rattle.place_file.specs.Placement.{IsPlaced};
ghost use Rattle.rr_graph.specs.Fabric.{most_tracks};
ghost use Rattle.route_file.specs.Design.{IsDesign};
ghost use Rattle.rr_graph.specs.Designs.{problem_with};
ghost use Rattle.run_inputs.specs.Inputs.{ends_before, placed_problem};
ghost use Rattle.run_inputs.specs.Runs.{Meets, reading};
ghost use Rattle.vpr_text.specs.Readings.{Gives};
ghost use Rattle.run_inputs.specs.declared.fault.AppFault.TheVariants.{Memory};
ghost use Rattle.run_inputs.specs.Stages.{placed_of};

use crate::fault::{AppFault, InputFile};
use crate::inputs::{parse_netlist, read_placement};
use crate::netlist_text::NetlistText;
use arch_file::Arch;
use net_file::Netlist;
use place_file::Placement;
use rr_graph::{MadeOfDesigns, Mode, Problem, SuitsDesigns};
use std::alloc::{AllocError, Global};
use std::marker::Model;
use vpr_text::ByteSource;

/// Returns the problem of a design that was read and placed, on the device of its array. The design
/// suits that device.
fn problem_of(
    alloc: Global,
    arch: &Arch,
    netlist: &Netlist<'_>,
    placement: &Placement,
    width: u32,
    mode: Mode,
) -> Result<Problem, AllocError>
    requires tracks { (1 ≤ width) × (width ≤ most_tracks) }
    requires read { (bytes : List ℕ) × ReadsBytes arch.now.pins bytes netlist.now }
    requires placed { IsPlaced arch.now.io_rat netlist.now.blocks placement.now }
    ensures made { IfOk result
        (λ p. p ≡ problem_with mode arch.now netlist.now placement.now width) }
    ensures fits { IfOk result (IsDesign netlist.now placement.now) }
    ensures numbers { IfOk result (λ p. map (λ n. n.number) p.nets ≡ routed_numbers netlist.now) }
{
    let problem = Problem::from_design(alloc, arch, netlist, placement, width, mode)?;
    let device = problem.device();
    prove!(device.suits(netlist, placement));
    Ok(problem)
}

/// A netlist that was read and placed for an architecture.
#[derive(Drop)]
pub struct PlacedNetlist<'a> {
    arch: &'a Arch,
    netlist: Netlist<'a>,
    placement: Placement,
}

impl<'a> Model for PlacedNetlist<'a> {
    ghost use Rattle.std.specs.Prelude.{ℕ, List};
    ghost use Rattle.net_file.specs.Reads.{ReadsBytes};
    ghost use Rattle.place_file.specs.Placement.{IsPlaced};
    ghost use Rattle.run_inputs.specs.Inputs.{PlacedNetlist};

    ghost Value = { PlacedNetlist };

    ghost view = { λ p. record {
      arch = p.arch.now;
      netlist = p.netlist;
      placement = p.placement;
    } };

    ghost invariant = { λ p. ((bytes : List ℕ) × ReadsBytes p.arch.now.pins bytes p.netlist)
        × IsPlaced p.arch.now.io_rat p.netlist.blocks p.placement };
}

impl<'a> PlacedNetlist<'a> {
    /// Parses the netlist of a text, and reads its placement.
    pub fn read<P: ByteSource>(
        alloc: Global,
        text: &'a NetlistText,
        place: &mut P,
    ) -> Result<PlacedNetlist<'a>, AppFault>
        ensures given { Meets (reading (P.remaining place.old) (P.failed place.new))
            (λ p. Gives Memory (λ n. n) result (placed_of text.now p)) }
        ensures late { ends_before InputFile.Net result ≡ false }
        ensures turn { ends_before InputFile.Place result ≡ true → place.new ≡ place.old }
    {
        let arch = text.arch();
        let netlist = parse_netlist(alloc, text.bytes(), arch)?;
        let placement = read_placement(alloc, place, arch, &netlist)?;
        Ok(PlacedNetlist {
            arch,
            netlist,
            placement,
        })
    }

    pub fn arch(&self) -> &Arch
        ensures { result.now ≡ self.now.arch }
    {
        self.arch
    }

    /// Returns the netlist, which was read for the architecture.
    pub fn netlist(&self) -> &Netlist<'a>
        ensures netlist { result.now ≡ self.now.netlist }
        ensures read { (bytes : List ℕ) × ReadsBytes self.now.arch.pins bytes self.now.netlist }
    {
        &self.netlist
    }

    /// Returns the placement of the netlist's blocks.
    pub fn placement(&self) -> &Placement
        ensures placement { result.now ≡ self.now.placement }
        ensures placed { IsPlaced self.now.arch.io_rat self.now.netlist.blocks self.now.placement }
    {
        &self.placement
    }

    /// Returns the problem on the device of the placement's array.
    pub fn problem(&self, alloc: Global, width: u32, mode: Mode) -> Result<Problem, AllocError>
        requires tracks { (1 ≤ width) × (width ≤ most_tracks) }
        ensures made { IfOk result (λ p. p ≡ placed_problem mode self.now width) }
        ensures fits { IfOk result (IsDesign self.now.netlist self.now.placement) }
        ensures numbers { IfOk result
            (λ p. map (λ n. n.number) p.nets ≡ routed_numbers self.now.netlist) }
    {
        let problem = problem_of(
            alloc,
            self.arch,
            &self.netlist,
            &self.placement,
            width,
            mode,
        )?;
        Ok(problem)
    }
}
