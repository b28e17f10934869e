//! The file of a routing.

ghost use Rattle.std.specs.Prelude.{◌≡◌, OnOk, false, true};
ghost use Rattle.route_check.specs.Routed.{IsRouted};
ghost use Rattle.route_file.specs.Design.{IsDesign};
ghost use Rattle.route_file.specs.Text.{text_of};
ghost use Rattle.route_tree.specs.Fits.{fits_problem};
ghost use Rattle.run_inputs.specs.Runs.{PrintsText, writing_to};
ghost use Rattle.runs.specs.kept.Routing.{PutsInPlace};

use crate::whole_sink::WholeSink;
use net_file::Netlist;
use place_file::Placement;
use route_file::WriteFault;
use route_tree::Routing;
use rr_graph::Problem;
use run_inputs::AppFault;

/// Puts a file that was written to its end into its place.
fn put_in_place<W: WholeSink>(file: &mut W) -> Result<(), AppFault>
    requires { W.failed file.old ≡ false }
    ensures puts { PutsInPlace (writing_to W.taken W.failed file.old file.new) result }
    ensures placed { OnOk result (W.is_placed file.new ≡ true) }
{
    match file.complete() {
        Ok(()) => Ok(()),
        Err(_) => Err(AppFault::Unwritten),
    }
}

/// Writes the text of trees of a placed netlist. Some nets may have none.
#[inline(never)]
fn write_text<W: WholeSink>(
    netlist: &Netlist<'_>,
    placement: &Placement,
    problem: &Problem,
    trees: &Routing,
    file: &mut W,
) -> Result<(), AppFault>
    requires design { IsDesign netlist.now placement.now problem.now }
    requires fits { fits_problem problem.now trees.now ≡ true }
    ensures writes { PrintsText (writing_to W.taken W.failed file.old file.new)
        (text_of netlist.now placement.now problem.now trees.now) tt result }
{
    match route_file::write(netlist, placement, problem, trees, file) {
        Ok(()) => Ok(()),
        Err(WriteFault::Failed) => Err(AppFault::Unwritten),
    }
}

/// Writes the text of trees of a placed netlist, and puts it into its place. Some nets may have
/// none.
pub(crate) fn write_trees<W: WholeSink>(
    netlist: &Netlist<'_>,
    placement: &Placement,
    problem: &Problem,
    trees: &Routing,
    file: &mut W,
) -> Result<(), AppFault>
    requires design { IsDesign netlist.now placement.now problem.now }
    requires fits { fits_problem problem.now trees.now ≡ true }
    ensures writes { PrintsText (writing_to W.taken W.failed file.old file.new)
        (text_of netlist.now placement.now problem.now trees.now) tt result }
    ensures placed { OnOk result (W.is_placed file.new ≡ true) }
{
    match write_text(netlist, placement, problem, trees, file) {
        Ok(()) => put_in_place(file),
        Err(fault) => Err(fault),
    }
}

/// Writes the text of a routing of a placed netlist, and puts it into its place.
#[tactic(auto, using(route_check::proofs::Fitting::routed_fits))]
pub(crate) fn write_routing<R: WholeSink>(
    netlist: &Netlist<'_>,
    placement: &Placement,
    problem: &Problem,
    routing: &Routing,
    route: &mut R,
) -> Result<(), AppFault>
    requires design { IsDesign netlist.now placement.now problem.now }
    requires routed { IsRouted problem.now routing.now }
    ensures writes { PrintsText (writing_to R.taken R.failed route.old route.new)
        (text_of netlist.now placement.now problem.now routing.now) tt result }
    ensures placed { OnOk result (R.is_placed route.new ≡ true) }
{
    write_trees(netlist, placement, problem, routing, route)
}
