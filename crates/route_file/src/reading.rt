//! The reader of a `.route` file.

ghost use Rattle.std.specs.Prelude.{◌≡◌, ◌≤◌, [], IfOk, List, Ok, Option, drop, length, map};
ghost use Rattle.vpr_text.specs.Readings.{Gives, unless_faulty};
ghost use Rattle.route_file.specs.declared.fault.RouteFileFault.TheVariants.{Memory};
ghost use Rattle.net_file.specs.Routed.{routed_numbers};
ghost use Rattle.route_file.specs.Judge.{fault_from};
ghost use Rattle.route_file.specs.Reading.{reading, routing_of};
ghost use Rattle.route_file.specs.Reads.{ReadsBytes};
ghost use Rattle.route_file.specs.kept.LinesSeen.{lists_by_net};
ghost use Rattle.route_tree.specs.Paths.{Pair};

use crate::fault::RouteFileFault;
use crate::header::header_fault;
use crate::judge::judge;
use crate::lists::in_order;
use crate::seen::Seen;
use net_file::Netlist;
use route_tree::{Pairs, Routing};
use rr_graph::{Device, Problem};
use std::alloc::Global;
use vpr_text::{Lines, TextFault, Words, line_number, lines};

/// The lists that the lines after the first two give, by the numbers of their nets.
fn lists_by_net(
    alloc: Global,
    netlist: &Netlist,
    device: &Device,
    lines: &Lines,
) -> Result<Vec<Option<Pairs>>, RouteFileFault>
    requires { 2 ≤ length lines.now }
    ensures { Gives Memory (λ v. v.items) result (unless_faulty
        (fault_from netlist.now device.now [] (drop 2 lines.now))
        (Ok (lists_by_net netlist.now device.now (drop 2 lines.now)))) }
{
    let mut seen = Seen::new(alloc, netlist, device)?;
    for i in 0..lines.len() - 2 {
        let words = Words::new(lines, i + 2);
        let entry = judge(&seen, netlist, device, line_number(lines, i + 2), &words)?;
        seen.note(alloc, device, entry)?;
    }
    Ok(seen.into_lists())
}

/// Lines as a routing.
#[tactic(auto, using(crate::proofs::Related::header_long, crate::proofs::Related::lists_by_number), unfolding(crate::specs::Reading::reading))]
fn read(
    alloc: Global,
    netlist: &Netlist,
    problem: &Problem,
    lines: &Lines,
) -> Result<Routing, RouteFileFault>
    requires { map (λ n. n.number) problem.now.nets ≡ routed_numbers netlist.now }
    ensures { Gives Memory (λ r. r) result (reading netlist.now problem.now lines.now) }
{
    if let Some(fault) = header_fault(problem.device(), lines) {
        return Err(fault);
    }
    let lists = lists_by_net(alloc, netlist, problem.device(), lines)?;
    let routing = in_order(alloc, problem, lists)?;
    Ok(routing)
}

/// Bytes as a routing.
#[tactic(auto, unfolding(crate::specs::Reading::routing_of))]
fn routing_in(
    alloc: Global,
    source: &[u8],
    netlist: &Netlist,
    problem: &Problem,
) -> Result<Routing, RouteFileFault>
    requires { map (λ n. n.number) problem.now.nets ≡ routed_numbers netlist.now }
    ensures { Gives Memory (λ r. r) result (routing_of netlist.now problem.now source.now) }
{
    match lines(alloc, source) {
        Ok(lines) => read(alloc, netlist, problem, &lines),
        Err(TextFault::Memory) => Err(RouteFileFault::Memory),
        Err(fault) => Err(RouteFileFault::Text(fault)),
    }
}

/// The routing that a file's bytes describe, by "The Routing File Format" of the VPR and T-VPack
/// manual 4.30: for each net of the problem the pairs of nodes of its section, or none. The
/// problem's nets are the routed nets of the netlist.
///
/// Whether the lists route their nets isn't judged. A fault of the text comes first, then that of
/// the first faulty line. Of the faults of one line it is the first in the order of
/// `RouteFileFault`.
pub fn parse(
    alloc: Global,
    source: &[u8],
    netlist: &Netlist,
    problem: &Problem,
) -> Result<Routing, RouteFileFault>
    requires { map (λ n. n.number) problem.now.nets ≡ routed_numbers netlist.now }
    // What is read is the routing of the text.
    ensures found { IfOk result (λ r. ReadsBytes netlist.now problem.now source.now r) }
    // A text has no other routing, and one that has a routing is read, unless memory runs out.
    ensures only { (r : List (Option (List Pair)))
        → ReadsBytes netlist.now problem.now source.now r → Gives Memory (λ v. v) result (Ok r) }
    // Which fault it is.
    ensures exact { Gives Memory (λ r. r) result (routing_of netlist.now problem.now source.now) }
{
    routing_in(alloc, source, netlist, problem)
}
