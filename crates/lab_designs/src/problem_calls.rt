//! Calls of `rr_graph`: routing problems.

ghost use Rattle.std.specs.Prelude.{◌≤◌, List, ℕ};
ghost use Rattle.net_file.specs.Reads.{ReadsBytes};
ghost use Rattle.rr_graph.specs.Fabric.{most_tracks};

use crate::route_text_calls::problem_of;
use lab_session::answer::{added, put, put_numbers};
use lab_session::asked::{AskedDevice, asked_device};
use lab_session::session::{Design, DesignTexts, NO_DEVICE, NO_PROBLEM, Searching, Session};
use lab_session::sources::BELOW;
use lab_session::unanswered::Unanswered;
use lab_session::words::{Call, NO_NUMBER, no_words, number, number_list, numbers, text_of, words};
use net_file::Netlist;
use rr_graph::{Device, MadeOfDesigns, Problem, Terminals};
use std::alloc::{AllocError, Global};

/// The syntax of a line with a net of a problem.
const NET_LINE: &str = "net NUMBER: SOURCE -> SINK ..";

/// Makes a call, and adds its answer.
pub fn call(
    alloc: Global,
    session: &mut Session,
    call: Call<'_>,
    out: &mut String,
) -> Result<(), Unanswered> {
    match call.name {
        "problem" => make(alloc, session, call, out),
        "net_number" | "source" | "sinks" => look_up_number(&session.problem, call, out),
        "nets" | "copy_problem" | "dump_problem" => look_at(alloc, &session.problem, call, out),
        _ => Err(Unanswered::NoCall),
    }
}

/// Returns the problem, or the refusal if there is none.
fn there(problem: &Option<Problem>) -> Result<&Problem, Unanswered> {
    match problem {
        Some(problem) => Ok(problem),
        None => Err(NO_PROBLEM),
    }
}

/// Makes a look-up of a net by the number that a call gives.
fn look_up_number(
    problem: &Option<Problem>,
    call: Call<'_>,
    out: &mut String,
) -> Result<(), Unanswered> {
    let [net] = numbers::<1>(call.given)?;
    look_up(there(problem)?, call.name, net, out)
}

/// Makes a look-up of the whole problem, by a call without words.
fn look_at(
    alloc: Global,
    problem: &Option<Problem>,
    call: Call<'_>,
    out: &mut String,
) -> Result<(), Unanswered> {
    no_words(call.given)?;
    look_at_all(alloc, there(problem)?, call.name, out)
}

/// Makes a look-up of the whole problem.
fn look_at_all(
    alloc: Global,
    problem: &Problem,
    name: &str,
    out: &mut String,
) -> Result<(), Unanswered> {
    match name {
        "nets" => put(out, problem.nets()),
        "copy_problem" => copy(alloc, problem, out),
        _ => dump(problem, out),
    }
}

/// Makes a problem, and adds its number of nets. The device of a problem at a width becomes the
/// device.
fn make(
    alloc: Global,
    session: &mut Session,
    call: Call<'_>,
    out: &mut String,
) -> Result<(), Unanswered> {
    let problem = made(alloc, &session.design, &session.device, call)?;
    let nets = problem.nets();
    let device = device_at_width(alloc, &problem, call.given)?;
    keep_device(&mut session.device, device);
    keep_problem(&mut session.problem, &mut session.searching, problem);
    added(writeln!(out, "{nets} nets"))
}

/// Returns a copy of the problem's device, if the words of a call give its width.
fn device_at_width(
    alloc: Global,
    problem: &Problem,
    given: &[&str],
) -> Result<Option<Device>, AllocError> {
    if !has_width(given) {
        return Ok(None);
    }
    let device = problem.device().copy(alloc)?;
    Ok(Some(device))
}

/// Keeps a device if there is one.
fn keep_device(kept: &mut Option<Device>, device: Option<Device>) {
    if let Some(device) = device {
        *kept = Some(device);
    }
}

/// Keeps a problem, and drops what was prepared for searches in the one before.
fn keep_problem(kept: &mut Option<Problem>, searching: &mut Option<Searching>, problem: Problem) {
    *kept = Some(problem);
    *searching = None;
}

/// Returns whether the words of a call give the width of a device.
fn has_width(given: &[&str]) -> bool {
    match given {
        [] => false,
        [word] => *word != BELOW,
        _ => true,
    }
}

/// Returns the problem that a call asks for.
fn made(
    alloc: Global,
    design: &Design,
    device: &Option<Device>,
    call: Call<'_>,
) -> Result<Problem, Unanswered> {
    match call.given {
        [] => of_design(alloc, design, device),
        [word] if *word == BELOW => of_parts(alloc, device, call.text),
        [width, rest @ ..] => at_width(alloc, design, asked_device(width, rest)?),
    }
}

/// Returns the problem of the netlist and the placement on the device.
fn of_design(
    alloc: Global,
    design: &Design,
    device: &Option<Device>,
) -> Result<Problem, Unanswered> {
    let design = design.texts()?;
    let Some(device) = device else {
        return Err(NO_DEVICE);
    };
    let netlist = net_file::parse(alloc, design.net, design.arch)?;
    of_netlist(alloc, design, device, &netlist)
}

/// Returns the problem of a design with this netlist on a device.
fn of_netlist(
    alloc: Global,
    design: DesignTexts<'_>,
    device: &Device,
    netlist: &Netlist<'_>,
) -> Result<Problem, Unanswered> {
    let placement = place_file::parse(alloc, design.place, design.arch, netlist)?;
    problem_of(alloc, device, netlist, &placement)
}

/// Returns the problem of the netlist and the placement on the device that a call asks for.
fn at_width(alloc: Global, design: &Design, asked: AskedDevice) -> Result<Problem, Unanswered>
    requires width { (1 ≤ asked.width) × (asked.width ≤ most_tracks) }
{
    let design = design.texts()?;
    let netlist = net_file::parse(alloc, design.net, design.arch)?;
    of_netlist_at(alloc, design, &netlist, asked)
}

/// Returns the problem of a design with this netlist on the device that a call asks for.
fn of_netlist_at(
    alloc: Global,
    design: DesignTexts<'_>,
    netlist: &Netlist<'_>,
    asked: AskedDevice,
) -> Result<Problem, Unanswered>
    requires width { (1 ≤ asked.width) × (asked.width ≤ most_tracks) }
    requires read { (bytes : List ℕ) × ReadsBytes design.arch.now.pins bytes netlist.now }
{
    let AskedDevice { width, mode } = asked;
    let arch = design.arch;
    let placement = place_file::parse(alloc, design.place, arch, netlist)?;
    Ok(Problem::from_design(alloc, arch, netlist, &placement, width, mode)?)
}

/// Returns the problem of the nets that a text lists, on a device.
fn of_parts(alloc: Global, device: &Option<Device>, text: &[u8]) -> Result<Problem, Unanswered> {
    let Some(device) = device else {
        return Err(NO_DEVICE);
    };
    let nets = net_lines(alloc, text_of(text)?)?;
    Ok(Problem::from_parts(device.copy(alloc)?, nets)?)
}

/// Reads nets from a text, one a line.
fn net_lines(alloc: Global, text: &str) -> Result<Vec<Terminals>, Unanswered> {
    let mut nets = Vec::new(alloc);
    for line in text.lines() {
        add_net(alloc, &mut nets, line)?;
    }
    Ok(nets)
}

/// Adds the net of a line, if it has words.
fn add_net(alloc: Global, nets: &mut Vec<Terminals>, line: &str) -> Result<(), Unanswered> {
    let words = words(alloc, line)?;
    if words.is_empty() {
        return Ok(());
    }
    let net = net_line(alloc, words.as_slice())?;
    Ok(nets.push(net)?)
}

/// Reads a net from the words of a line.
fn net_line(alloc: Global, words: &[&str]) -> Result<Terminals, Unanswered> {
    let [_, name, source, _, sinks @ ..] = words else {
        return Err(Unanswered::Misread(NET_LINE));
    };
    let Some(name) = name.strip_suffix(':') else {
        return Err(Unanswered::Misread(NET_LINE));
    };
    let (Some(number), Some(source)) = (number(name), number(source)) else {
        return Err(NO_NUMBER);
    };
    let sinks = number_list(alloc, sinks)?;
    Ok(Terminals {
        number,
        source,
        sinks,
    })
}

/// Makes a look-up of a net.
fn look_up(problem: &Problem, name: &str, net: u32, out: &mut String) -> Result<(), Unanswered> {
    if net >= problem.nets() {
        return Err(Unanswered::Refused("there is no such net"));
    }
    match name {
        "net_number" => put(out, problem.number(net)),
        "source" => put(out, problem.source(net)),
        _ => put_numbers(out, problem.sinks(net)),
    }
}

/// Copies the problem, and adds whether the copy is equal.
fn copy(alloc: Global, problem: &Problem, out: &mut String) -> Result<(), Unanswered> {
    let copy = problem.copy(alloc)?;
    put(out, copy == *problem)
}

/// Adds a line for each net.
fn dump(problem: &Problem, out: &mut String) -> Result<(), Unanswered> {
    for net in 0..problem.nets() {
        write!(
            out,
            "net {}: {} -> ",
            problem.number(net),
            problem.source(net)
        )?;
        put_numbers(out, problem.sinks(net))?;
    }
    Ok(())
}
