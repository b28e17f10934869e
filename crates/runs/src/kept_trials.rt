//! The routing of each trial of a search of widths, written as soon as it is found.

ghost use Rattle.std.specs.Prelude.{◌≡◌, ◌↔◌, false, true, Err, IfOk};
ghost use Rattle.std.specs.List.{list_all};
ghost use Rattle.route_file.specs.Design.{IsDesign};
ghost use Rattle.route_file.specs.Text.{text_of};
ghost use Rattle.route_tree.specs.Fits.{are_nodes, fits_problem, is_below};
ghost use Rattle.run_inputs.specs.Faults.{ends_free};
ghost use Rattle.run_inputs.specs.Runs.{PrintsText, TakesNothing, writing_to};
ghost use Rattle.runs.specs.kept.Trials.{IsOfItsWidth, IsTrial};

use crate::routing::write_trees;
use crate::side_files::SideFiles;
use crate::whole_sink::WholeSink;
use net_workers::{Gate, ScheduledTurn};
use route_tree::{Pairs, Routing};
use rr_graph::{Device, Problem};
use run_inputs::{AppFault, PlacedNetlist};
use std::alloc::{AllocError, Global};

/// Returns whether a problem is that of a placed netlist at its own width and mode.
fn is_of_placed(
    alloc: Global,
    placed: &PlacedNetlist<'_>,
    problem: &Problem,
) -> Result<bool, AllocError>
    ensures own { IfOk result (λ is. (is ≡ true) ↔ IsOfItsWidth placed.now problem.now) }
    ensures design { IfOk result (λ is. is ≡ true
        → IsDesign placed.now.netlist placed.now.placement problem.now) }
{
    let device = problem.device();
    let (width, mode) = (device.width(), device.mode());
    let made = placed.problem(alloc, width, mode)?;
    Ok(*problem == made)
}

/// Returns whether all these numbers are below the count.
fn are_below(count: u32, pairs: &[(u32, u32)]) -> bool
    ensures { result ≡ list_all (is_below count) pairs.now }
{
    pairs.iter().all(|pair| pair.0 < count && pair.1 < count)
}

/// Returns whether a list, if there is one, names only nodes of the device.
fn names_nodes(device: &Device, list: &Option<Pairs>) -> bool
    ensures { result ≡ are_nodes device.now list.now }
{
    match list {
        Some(pairs) => are_below(device.node_count(), &pairs.items),
        None => true,
    }
}

/// Returns whether all these lists name only nodes of the device.
fn name_nodes(device: &Device, lists: &[Option<Pairs>]) -> bool
    ensures { result ≡ list_all (are_nodes device.now) lists.now }
{
    lists.iter().all(|list| names_nodes(device, list))
}

/// Returns whether a routing has an entry for each net of a problem, and names only nodes of its
/// device.
#[tactic(auto, unfolding(route_tree::specs::Fits::fits_problem))]
fn fits(problem: &Problem, routing: &Routing) -> bool
    ensures { result ≡ fits_problem problem.now routing.now }
{
    routing.lists.len() == problem.nets() as usize && name_nodes(problem.device(), &routing.lists)
}

/// Returns whether a routing fits a problem, and this is the problem of a placed netlist at its own
/// width and mode.
fn is_trial(
    alloc: Global,
    placed: &PlacedNetlist<'_>,
    problem: &Problem,
    routing: &Routing,
) -> Result<bool, AllocError>
    ensures trial { IfOk result (λ is. (is ≡ true)
        ↔ IsTrial placed.now problem.now routing.now) }
    ensures design { IfOk result (λ is. is ≡ true
        → IsDesign placed.now.netlist placed.now.placement problem.now) }
{
    let is_own = is_of_placed(alloc, placed, problem)?;
    Ok(fits(problem, routing) && is_own)
}

/// Writes the text of a routing of a problem of a placed netlist to the file of the problem's
/// width. Returns `Astray` if the problem is another one, or the routing doesn't fit it.
fn write_trial<W: WholeSink>(
    alloc: Global,
    placed: &PlacedNetlist<'_>,
    problem: &Problem,
    routing: &Routing,
    file: &mut W,
) -> Result<(), AppFault>
    requires { W.is_at file.old problem.now.device.width }
    ensures writes { ends_free result ≡ false
        → PrintsText (writing_to W.taken W.failed file.old file.new)
        (text_of placed.now.netlist placed.now.placement problem.now routing.now) tt result }
    // The problem is that of the placed netlist at the width of the file.
    ensures trial { ends_free result ≡ false → IsTrial placed.now problem.now routing.now }
    ensures nothing { ends_free result ≡ true
        → TakesNothing (writing_to W.taken W.failed file.old file.new) }
    // Such a routing is written, unless memory runs out.
    ensures memory { IsTrial placed.now problem.now routing.now → ends_free result ≡ true
        → result ≡ Err AppFault.Memory }
{
    if !is_trial(alloc, placed, problem, routing)? {
        return Err(AppFault::Astray);
    }
    write_trees(placed.netlist(), placed.placement(), problem, routing, file)
}

/// A gate of a search of widths that writes each routing that is found, if its file is wanted.
#[derive(Drop)]
pub(crate) struct KeptTrials<'a, 'b, S> {
    alloc: Global,
    placed: &'a PlacedNetlist<'b>,
    files: &'a S,
}

impl<'a, 'b, S> KeptTrials<'a, 'b, S> {
    pub(crate) fn new(
        alloc: Global,
        placed: &'a PlacedNetlist<'b>,
        files: &'a S,
    ) -> KeptTrials<'a, 'b, S> {
        KeptTrials {
            alloc,
            placed,
            files,
        }
    }
}

impl<S: SideFiles> Gate for KeptTrials<'_, '_, S> {
    ghost accepted = { λ gate k turns. Unit {0} };

    fn between(&self, _worker: u32, _net: u32) {}

    fn searched(&self, _worker: u32, _net: u32) {}

    fn accepts(&self, _iteration: u32, _turns: &[ScheduledTurn]) -> bool {
        true
    }

    fn found(&self, problem: &Problem, routing: &Routing) {
        let width = problem.device().width();
        let Some(mut file) = self.files.file(width) else {
            return;
        };
        if write_trial(self.alloc, self.placed, problem, routing, &mut file).is_err() {
            self.files.unwritten(width);
        }
    }
}
