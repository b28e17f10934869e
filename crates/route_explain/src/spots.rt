//! Where a fault of a net's list shows in the net's section of the file.

ghost use Rattle.std.specs.Prelude.{◌≡◌, ◌<◌, length};
ghost use Rattle.route_explain.specs.Spots.{at_row, fault_spot, loose_spot, spot_of};
ghost use Rattle.route_explain.specs.kept.Places.{IsIndex};
ghost use Rattle.rr_graph.specs.Problems.{net_in};

use crate::index::NetIndex;
use crate::indexed_list::IndexedList;
use crate::order::row_out_of_order;
use crate::steps::{
    row_cut_off, row_leaving_again, row_that_ends_again, row_to_dead_end, row_to_foreign_sink,
    row_without_switch,
};
use route_tree::TreeFault;
use rr_graph::{Device, Problem};

/// A place in the section of a net.
#[derive(Clone, Copy, Debug)]
pub(crate) enum Spot {
    /// The line that begins the section.
    Heading,
    /// The first line that names a node.
    FirstNode,
    /// The line at which the step at a row ends.
    StepEnd(usize),
}

/// Returns the spot at which the step at a row ends, or the heading if there is no step.
fn at_row(row: Option<usize>) -> Spot
    ensures { result ≡ at_row row }
{
    match row {
        None => Spot::Heading,
        Some(row) => Spot::StepEnd(row),
    }
}

/// Returns the spot of a step that ends at a dead end, or else of one that is cut off.
fn loose_spot(dead_end: Option<usize>, cut_off: Option<usize>) -> Spot
    ensures { result ≡ loose_spot dead_end cut_off }
{
    match dead_end {
        None => at_row(cut_off),
        Some(row) => Spot::StepEnd(row),
    }
}

/// Returns where a fault of a list shows, for a net with this source.
fn spot_of(list: &IndexedList<'_>, device: &Device, source: u32, fault: TreeFault) -> Spot
    ensures { result ≡ spot_of device.now source list.now.sinks list.now.pairs fault }
{
    let pairs = list.pairs();
    match fault {
        TreeFault::NoNet | TreeFault::MissingSink => Spot::Heading,
        TreeFault::WrongSource => Spot::FirstNode,
        TreeFault::NoSwitch => at_row(row_without_switch(device, pairs)),
        TreeFault::NodeTwice => at_row(row_that_ends_again(list, source)),
        TreeFault::SecondOutput => at_row(row_leaving_again(source, pairs)),
        TreeFault::ForeignSink => at_row(row_to_foreign_sink(list, device)),
        TreeFault::Dangling => loose_spot(row_to_dead_end(list), row_cut_off(list, source)),
        TreeFault::Order => at_row(row_out_of_order(list, device, source)),
    }
}

/// Returns where the fault of a net shows.
pub(crate) fn fault_spot(
    index: &NetIndex,
    problem: &Problem,
    net: u32,
    pairs: &[(u32, u32)],
    fault: Option<TreeFault>,
) -> Spot
    requires there { net < length problem.now.nets }
    requires index { IsIndex (net_in problem.now.nets net).sinks pairs.now index.now }
    ensures { result ≡ fault_spot problem.now.device
        (net_in problem.now.nets net) pairs.now fault }
{
    let device = problem.device();
    let source = problem.source(net);
    let sinks = problem.sinks(net);
    let list = IndexedList::new(sinks, pairs, index);
    match fault {
        None => Spot::Heading,
        Some(fault) => spot_of(&list, device, source, fault),
    }
}
