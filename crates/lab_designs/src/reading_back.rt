//! A call of `route_file` and its laws: the text of a routing is read back as the routing.

ghost use Rattle.std.specs.Prelude.{◌≡◌, IfOk, map, true};
ghost use Rattle.net_file.specs.Routed.{routed_numbers};
ghost use Rattle.route_tree.specs.Fits.{fits_problem};
ghost use Rattle.route_file.specs.Design.{IsDesign};
ghost use Rattle.route_file.specs.Text.{text_of};
ghost use Rattle.route_check.specs.Routed.{IsRouted};

use crate::route_text_calls::problem_of;
use lab_session::answer::put;
use lab_session::session::{DesignTexts, RoutedDevice, Session};
use lab_session::unanswered::Unanswered;
use lab_session::words::{Call, NO_WORDS};
use net_file::Netlist;
use place_file::Placement;
use route_check::check_routing;
use route_file::laws::{one_reading, read_back};
use route_file::{parse, write};
use route_tree::{Routing, fits};
use rr_graph::Problem;
use std::alloc::Global;
use std::rt::Runtime;
use std::thread::Threads;
use vpr_text::{Adapted, lines};

/// Makes a call, and adds its answer.
pub fn call(
    rt: &(impl Runtime + Threads + Sync + AllocGlobal),
    session: &Session,
    call: Call<'_>,
    out: &mut String,
) -> Result<(), Unanswered> {
    match call.name {
        "read_back" => {
            if !call.given.is_empty() {
                return Err(NO_WORDS);
            }
            put(out, is_read_back(rt, session)?)
        }
        _ => Err(Unanswered::NoCall),
    }
}

/// Returns whether the text of the design's routing on the device is read as the routing. The
/// routing must be legal.
fn is_read_back(
    rt: &(impl Runtime + Threads + Sync + AllocGlobal),
    session: &Session,
) -> Result<bool, Unanswered> {
    let design = session.design.texts()?;
    let routed = session.routed_device()?;
    let netlist = net_file::parse(rt.alloc(), design.net, design.arch)?;
    is_read_back_on(rt, design, routed, &netlist)
}

/// Does the same for a design with this netlist.
fn is_read_back_on(
    rt: &(impl Runtime + Threads + Sync + AllocGlobal),
    design: DesignTexts<'_>,
    routed: RoutedDevice<'_>,
    netlist: &Netlist<'_>,
) -> Result<bool, Unanswered> {
    let placement = place_file::parse(rt.alloc(), design.place, design.arch, netlist)?;
    is_placed_read_back(rt, routed, netlist, &placement)
}

/// Does the same for a placed design.
fn is_placed_read_back(
    rt: &(impl Runtime + Threads + Sync + AllocGlobal),
    routed: RoutedDevice<'_>,
    netlist: &Netlist<'_>,
    placement: &Placement,
) -> Result<bool, Unanswered> {
    let RoutedDevice { device, routing } = routed;
    let problem = problem_of(rt.alloc(), device, netlist, placement)?;
    is_legal_read_back(rt, netlist, placement, &problem, routing)
}

/// Does the same for a problem of the design.
fn is_legal_read_back(
    rt: &(impl Runtime + Threads + Sync + AllocGlobal),
    netlist: &Netlist<'_>,
    placement: &Placement,
    problem: &Problem,
    routing: &Routing,
) -> Result<bool, Unanswered>
    requires numbers { map (λ n. n.number) problem.now.nets ≡ routed_numbers netlist.now }
    requires design { IsDesign netlist.now placement.now problem.now }
{
    match check_routing(rt, rt.alloc(), problem, routing)? {
        None => is_text_read_back(rt.alloc(), netlist, placement, problem, routing),
        Some(_) => Err(Unanswered::Refused("the routing is not legal")),
    }
}

/// Does the same for a legal routing.
fn is_text_read_back(
    alloc: Global,
    netlist: &Netlist<'_>,
    placement: &Placement,
    problem: &Problem,
    routing: &Routing,
) -> Result<bool, Unanswered>
    requires numbers { map (λ n. n.number) problem.now.nets ≡ routed_numbers netlist.now }
    requires design { IsDesign netlist.now placement.now problem.now }
    requires routed { IsRouted problem.now routing.now }
{
    if !fits(problem, routing) {
        return Err(Unanswered::Refused("the routing does not fit the problem"));
    }
    let text = text_again(alloc, netlist, placement, problem, routing)?;
    is_again(alloc, netlist, placement, problem, routing, text.as_slice())
}

/// Returns the text of a routing.
fn text_again(
    alloc: Global,
    netlist: &Netlist<'_>,
    placement: &Placement,
    problem: &Problem,
    routing: &Routing,
) -> Result<Vec<u8>, Unanswered>
    requires design { IsDesign netlist.now placement.now problem.now }
    requires fits { fits_problem problem.now routing.now ≡ true }
    ensures { IfOk result (λ text.
        text.items ≡ text_of netlist.now placement.now problem.now routing.now) }
{
    let mut sink = Adapted::new(Vec::new(alloc));
    if write(netlist, placement, problem, routing, &mut sink).is_err() {
        return Err(Unanswered::Memory);
    }
    Ok(sink.into_inner())
}

/// Returns whether the text of a legal routing is read as the routing. The laws say that it is, and
/// the code also reads and compares.
#[tactic(auto, using(route_file::proofs::RoutesReported::reported_routing))]
fn is_again(
    alloc: Global,
    netlist: &Netlist<'_>,
    placement: &Placement,
    problem: &Problem,
    routing: &Routing,
    text: &[u8],
) -> Result<bool, Unanswered>
    requires numbers { map (λ n. n.number) problem.now.nets ≡ routed_numbers netlist.now }
    requires design { IsDesign netlist.now placement.now problem.now }
    requires fits { fits_problem problem.now routing.now ≡ true }
    requires routed { IsRouted problem.now routing.now }
    requires text { text.now ≡ text_of netlist.now placement.now problem.now routing.now }
{
    if text.len() > 1 << 24 {
        return Err(Unanswered::Refused("the text is too long for a file"));
    }
    let _nets = netlist.nets().len();
    let _columns = problem.device().nx();
    read_back(netlist, placement, problem, routing);
    let again = parse(alloc, text, netlist, problem)?;
    let lines = lines(alloc, text)?;
    one_reading(&lines, netlist, problem, routing, &again);
    Ok(are_same(routing, &again))
}

/// Returns whether two routings have the same lists.
fn are_same(one: &Routing, other: &Routing) -> bool {
    one.lists.len() == other.lists.len()
        && one.lists.iter().zip(&other.lists).all(|(one, other)| match (one, other) {
            (Some(one), Some(other)) => one.items == other.items,
            (None, None) => true,
            _ => false,
        })
}
