//! Calls of `rr_graph` that make a device or compare it with a design.

use crate::design_calls::suits;
use crate::node_calls::call as node_call;
use lab_session::answer::{added, put};
use lab_session::session::{Design, NO_DEVICE, Session};
use lab_session::unanswered::Unanswered;
use lab_session::words::{Call, NO_NUMBER, mode, no_words, number};
use rr_graph::{Device, Mode};
use std::alloc::Global;

/// Makes a call, and adds its answer.
pub fn call(
    alloc: Global,
    session: &mut Session,
    call: Call<'_>,
    out: &mut String,
) -> Result<(), Unanswered> {
    match call.name {
        "device" => make(alloc, session, call.given, out),
        "has_architecture" => {
            put_architecture(&session.device, &session.design, call.given, out)
        }
        "suits" => put_suits(alloc, session, call.given, out),
        _ => node_call(alloc, &session.device, call, out),
    }
}

/// Adds whether the device has the design's architecture.
fn put_architecture(
    device: &Option<Device>,
    design: &Design,
    given: &[&str],
    out: &mut String,
) -> Result<(), Unanswered> {
    no_words(given)?;
    put(out, has_architecture(device, design)?)
}

/// Adds whether the netlist and the placement suit the device.
fn put_suits(
    alloc: Global,
    session: &Session,
    given: &[&str],
    out: &mut String,
) -> Result<(), Unanswered> {
    no_words(given)?;
    put(out, suits(alloc, &session.design, &session.device)?)
}

/// Returns whether the device has the design's architecture.
fn has_architecture(device: &Option<Device>, design: &Design) -> Result<bool, Unanswered> {
    match device {
        Some(device) => Ok(*device.architecture() == *design.arch()?),
        None => Err(NO_DEVICE),
    }
}

/// Makes a device, and adds its number of nodes.
fn make(
    alloc: Global,
    session: &mut Session,
    given: &[&str],
    out: &mut String,
) -> Result<(), Unanswered> {
    let [nx, ny, width, rest @ ..] = given else {
        return Err(Unanswered::Misread("device NX NY W, or with `global` after it"));
    };
    let (Some(nx), Some(ny), Some(width)) = (number(nx), number(ny), number(width)) else {
        return Err(NO_NUMBER);
    };
    let mode = mode(rest)?;
    let arch = session.design.arch()?;
    if nx < 1 || nx > 100 || ny < 1 || ny > 100 {
        return Err(Unanswered::Refused("an array has 1 to 100 columns and rows"));
    }
    let device = match mode {
        Mode::Detailed => Device::new(alloc, arch, nx, ny, width)?,
        Mode::Global => Device::global(alloc, arch, nx, ny, width)?,
    };
    let nodes = device.node_count();
    session.device = Some(device);
    added(writeln!(out, "{nodes} nodes"))
}
