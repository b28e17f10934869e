//! The rows of a placement.

ghost use Rattle.std.specs.Prelude.{◌≡◌, ◌≤◌, [], Ok, length};
ghost use Rattle.vpr_text.specs.Readings.{Gives, unless_faulty};
ghost use Rattle.place_file.specs.declared.fault.PlaceFault.TheVariants.{Memory};
ghost use Rattle.place_file.specs.Judge.{rows_fault_from};
ghost use Rattle.place_file.specs.kept.OccupiedSites.{IsFit};
ghost use Rattle.place_file.specs.Lines.{rows_of};
ghost use Rattle.place_file.specs.Reading.{completed, placing};
ghost use Rattle.place_file.specs.Sites.{sites_in};

use crate::fault::PlaceFault;
use crate::judge::judge;
use crate::placement::Placement;
use crate::site::Array;
use crate::sites::Sites;
use net_file::Netlist;
use std::alloc::Global;
use vpr_text::{Lines, Words};

/// The sites that the rows give, judged row by row.
fn sites_in(
    alloc: Global,
    array: Array,
    netlist: &Netlist,
    lines: &Lines,
) -> Result<Sites, PlaceFault>
    requires fit { IsFit array }
    requires count { 2 ≤ length lines.now }
    ensures { Gives Memory (λ s. s.sites) result (unless_faulty
        (rows_fault_from array netlist.now.blocks [] (rows_of lines.now))
        (Ok (sites_in netlist.now.blocks (rows_of lines.now)))) }
{
    let blocks = netlist.blocks();
    let mut sites = Sites::new(alloc, array, blocks.len())?;
    for row in 0..lines.len() - 2 {
        let words = Words::new(lines, row + 2);
        if let Some(fault) = judge(array, netlist, &mut sites, lines.at(row + 2), &words) {
            return Err(fault);
        }
    }
    Ok(sites)
}

/// The placement with these sites.
#[tactic(auto, unfolding(crate::specs::Reading::completed))]
fn completed(alloc: Global, array: Array, sites: &Sites) -> Result<Placement, PlaceFault>
    requires { IsFit array }
    ensures { Gives Memory (λ p. p) result (completed array sites.now.sites) }
{
    if let Some(block) = sites.first_missing() {
        return Err(PlaceFault::Missing(block));
    }
    let sites = sites.known(alloc)?;
    Ok(Placement {
        nx: array.nx,
        ny: array.ny,
        sites,
    })
}

/// The rows of the lines as a placement.
#[tactic(auto, unfolding(crate::specs::Reading::placing))]
pub(crate) fn placing(
    alloc: Global,
    array: Array,
    netlist: &Netlist,
    lines: &Lines,
) -> Result<Placement, PlaceFault>
    requires fit { IsFit array }
    requires count { 2 ≤ length lines.now }
    ensures { Gives Memory (λ p. p) result (placing array netlist.now.blocks (rows_of lines.now)) }
{
    let sites = sites_in(alloc, array, netlist, lines)?;
    completed(alloc, array, &sites)
}
