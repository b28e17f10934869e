//! Calls of `route_file`: the text of a routing, written and read.

ghost use Rattle.std.specs.Prelude.{◌≡◌, IfOk, map, true};
ghost use Rattle.net_file.specs.Routed.{routed_numbers};
ghost use Rattle.rr_graph.specs.Designs.{suits_design};
ghost use Rattle.route_file.specs.Design.{IsDesign};

use crate::routing_calls::keep;
use lab_session::answer::{added, put_name};
use lab_session::session::{Design, DesignTexts, NO_DEVICE, RoutedDevice, Session};
use lab_session::sinks::{ShortSink, sink};
use lab_session::sources::{bytes_before_failing, source};
use lab_session::unanswered::Unanswered;
use lab_session::words::Call;
use net_file::Netlist;
use place_file::Placement;
use route_file::{parse, write};
use route_tree::{Routing, fits};
use rr_graph::{Device, MadeOfDesigns, Problem, SuitsDesigns};
use std::alloc::{AllocError, Global};
use std::rt::Runtime;

/// Makes a call, and adds its answer.
pub fn call(
    rt: &(impl Runtime + AllocGlobal),
    session: &mut Session,
    call: Call<'_>,
    out: &mut String,
) -> Result<(), Unanswered> {
    match call.name {
        "route" => read_source(rt, session, call, out),
        "write" => put_text(rt.alloc(), session, call.given, out),
        _ => Err(Unanswered::NoCall),
    }
}

/// Returns the routing problem of a design that suits the device.
#[tactic(auto, using(route_file::proofs::DesignProblems::design_made))]
fn problem_on(
    alloc: Global,
    device: Device,
    netlist: &Netlist<'_>,
    placement: &Placement,
) -> Result<Problem, AllocError>
    requires { suits_design device netlist.now placement.now ≡ true }
    ensures design { IfOk result (λ p. IsDesign netlist.now placement.now p) }
    ensures numbers { IfOk result (λ p.
        map (λ n. n.number) p.nets ≡ routed_numbers netlist.now) }
{
    Problem::new(alloc, device, netlist, placement)
}

/// Returns the problem of a design on a device, if the design suits the device.
pub fn problem_of(
    alloc: Global,
    device: &Device,
    netlist: &Netlist<'_>,
    placement: &Placement,
) -> Result<Problem, Unanswered>
    ensures design { IfOk result (λ p. IsDesign netlist.now placement.now p) }
    ensures numbers { IfOk result (λ p.
        map (λ n. n.number) p.nets ≡ routed_numbers netlist.now) }
{
    let device = device.copy(alloc)?;
    if !device.suits(netlist, placement) {
        return Err(Unanswered::Refused("the design does not suit the device"));
    }
    let problem = problem_on(alloc, device, netlist, placement)?;
    Ok(problem)
}

/// Reads a routing from the file or the text that a call names, and keeps it.
fn read_source(
    rt: &(impl Runtime + AllocGlobal),
    session: &mut Session,
    call: Call<'_>,
    out: &mut String,
) -> Result<(), Unanswered> {
    let text = source(rt, call)?;
    let (design, device) = (&session.design, &session.device);
    let routing = read(rt.alloc(), design, device, text.as_slice())?;
    keep(&mut session.routing, routing, out)
}

/// Reads a routing of the design on the device.
fn read(
    alloc: Global,
    design: &Design,
    device: &Option<Device>,
    text: &[u8],
) -> Result<Routing, Unanswered> {
    let design = design.texts()?;
    let Some(device) = device else {
        return Err(NO_DEVICE);
    };
    let netlist = net_file::parse(alloc, design.net, design.arch)?;
    read_placed(alloc, design, device, &netlist, text)
}

/// Reads a routing of a design with this netlist on a device.
fn read_placed(
    alloc: Global,
    design: DesignTexts<'_>,
    device: &Device,
    netlist: &Netlist<'_>,
    text: &[u8],
) -> Result<Routing, Unanswered> {
    let placement = place_file::parse(alloc, design.place, design.arch, netlist)?;
    read_on(alloc, device, netlist, &placement, text)
}

/// Reads a routing of a placed design on a device.
fn read_on(
    alloc: Global,
    device: &Device,
    netlist: &Netlist<'_>,
    placement: &Placement,
    text: &[u8],
) -> Result<Routing, Unanswered> {
    let problem = problem_of(alloc, device, netlist, placement)?;
    Ok(parse(alloc, text, netlist, &problem)?)
}

/// Writes the routing of the design on the device, and adds its text. The words of a call give the
/// number of bytes after which the sink fails, if it does.
fn put_text(
    alloc: Global,
    session: &Session,
    given: &[&str],
    out: &mut String,
) -> Result<(), Unanswered> {
    let left = bytes_before_failing(given)?;
    let design = session.design.texts()?;
    let routed = session.routed_device()?;
    let netlist = net_file::parse(alloc, design.net, design.arch)?;
    put_placed(alloc, design, routed, &netlist, left, out)
}

/// Writes a routing of a design with this netlist on a device, and adds its text.
fn put_placed(
    alloc: Global,
    design: DesignTexts<'_>,
    routed: RoutedDevice<'_>,
    netlist: &Netlist<'_>,
    left: Option<usize>,
    out: &mut String,
) -> Result<(), Unanswered> {
    let placement = place_file::parse(alloc, design.place, design.arch, netlist)?;
    put_on(alloc, routed, netlist, &placement, left, out)
}

/// Writes a routing of a placed design on a device, and adds its text.
fn put_on(
    alloc: Global,
    routed: RoutedDevice<'_>,
    netlist: &Netlist<'_>,
    placement: &Placement,
    left: Option<usize>,
    out: &mut String,
) -> Result<(), Unanswered> {
    let RoutedDevice { device, routing } = routed;
    let problem = problem_of(alloc, device, netlist, placement)?;
    if !fits(&problem, routing) {
        return Err(Unanswered::Refused("the routing does not fit the problem"));
    }
    let mut taken = sink(alloc, left);
    let is_whole = write(netlist, placement, &problem, routing, &mut taken).is_ok();
    put_written(&taken.into_inner(), is_whole, out)
}

/// Adds what was written, or the number of bytes that were taken before the sink failed.
fn put_written(sink: &ShortSink, is_whole: bool, out: &mut String) -> Result<(), Unanswered> {
    let bytes = sink.bytes.as_slice();
    if sink.lacked {
        return Err(Unanswered::Memory);
    }
    if is_whole {
        return put_name(out, bytes);
    }
    let count = bytes.len();
    added(writeln!(out, "fault: write: Failed, {count} bytes were taken"))
}
