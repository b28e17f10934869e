//! A placed design on a device, read from its three files.

ghost use Rattle.std.specs.Prelude.{◌≡◌, ◌≤◌, true, false, map};
ghost use Rattle.net_file.specs.Routed.{routed_numbers};
ghost use Rattle.rr_graph.specs.Fabric.{most_tracks};
ghost use Rattle.route_file.specs.Design.{IsDesign};
ghost use Rattle.run_inputs.specs.Inputs.{ends_before};
ghost use Rattle.run_inputs.specs.Runs.{Meets, reading};
ghost use Rattle.vpr_text.specs.Readings.{Gives};
ghost use Rattle.run_inputs.specs.declared.fault.AppFault.TheVariants.{Memory};
ghost use Rattle.run_inputs.specs.Stages.{design_of};

use crate::fault::{AppFault, InputFile};
use crate::netlist_text::NetlistText;
use crate::placed::PlacedNetlist;
use net_file::Netlist;
use place_file::Placement;
use rr_graph::{Mode, Problem};
use std::alloc::Global;
use std::marker::Model;
use vpr_text::ByteSource;

/// A placed design, and the problem of routing it on the device of its array.
#[derive(Drop)]
pub struct Design<'a> {
    placed: PlacedNetlist<'a>,
    problem: Problem,
}

impl<'a> Model for Design<'a> {
    ghost use Rattle.std.specs.Prelude.{◌≡◌, map};
    ghost use Rattle.net_file.specs.Routed.{routed_numbers};
    ghost use Rattle.route_file.specs.Design.{IsDesign};
    ghost use Rattle.run_inputs.specs.Inputs.{PlacedDesign};

    ghost Value = { PlacedDesign };

    ghost view = { λ d. record {
      netlist = d.placed.netlist;
      placement = d.placed.placement;
      problem = d.problem;
    } };

    ghost invariant = { λ d. IsDesign d.placed.netlist d.placed.placement d.problem
        × (map (λ n. n.number) d.problem.nets ≡ routed_numbers d.placed.netlist) };
}

impl<'a> Design<'a> {
    /// Reads the placement for a netlist's text. Returns the netlist, the placement, and their
    /// problem on the device of the placement's array.
    pub fn read<P: ByteSource>(
        alloc: Global,
        text: &'a NetlistText,
        place: &mut P,
        width: u32,
        mode: Mode,
    ) -> Result<Design<'a>, AppFault>
        requires tracks { (1 ≤ width) × (width ≤ most_tracks) }
        ensures given { Meets (reading (P.remaining place.old) (P.failed place.new))
            (λ p. Gives Memory (λ d. d) result (design_of width mode text.now p)) }
        ensures late { ends_before InputFile.Net result ≡ false }
        ensures turn { ends_before InputFile.Place result ≡ true → place.new ≡ place.old }
    {
        let placed = PlacedNetlist::read(alloc, text, place)?;
        let problem = placed.problem(alloc, width, mode)?;
        Ok(Design { placed, problem })
    }

    pub fn netlist(&self) -> &Netlist<'a>
        ensures { result.now ≡ self.now.netlist }
    {
        self.placed.netlist()
    }

    pub fn placement(&self) -> &Placement
        ensures { result.now ≡ self.now.placement }
    {
        self.placed.placement()
    }

    /// Returns the problem. Its nets have the numbers of the netlist's routed nets.
    pub fn problem(&self) -> &Problem
        ensures problem { result.now ≡ self.now.problem }
        ensures design { IsDesign self.now.netlist self.now.placement self.now.problem }
        ensures numbers { map (λ n. n.number) self.now.problem.nets
            ≡ routed_numbers self.now.netlist }
    {
        &self.problem
    }
}
