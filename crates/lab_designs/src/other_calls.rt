//! Calls that exchange a value with another one of its kind, or compare the two.

use lab_session::answer::put;
use lab_session::designs::are_suited;
use lab_session::session::{
    Design, DesignTexts, NO_ARCHITECTURE, NO_DEVICE, NO_PROBLEM, NO_TREE, Session,
};
use lab_session::unanswered::Unanswered;
use lab_session::words::{Call, no_words, one};
use net_file::Netlist;
use rr_graph::Device;
use std::alloc::Global;

/// The syntax of the calls, with the kinds that have another value.
const KINDS: &str = "other or same, and arch, net, device, problem, tree, counts or view";

/// Makes a call, and adds its answer.
pub fn call(
    alloc: Global,
    session: &mut Session,
    call: Call<'_>,
    out: &mut String,
) -> Result<(), Unanswered> {
    match call.name {
        "other" => put_exchange(session, call.given, out),
        "same" => put_same(session, call.given, out),
        "suits_other" => put_suits_other(alloc, session, call.given, out),
        _ => Err(Unanswered::NoCall),
    }
}

/// Exchanges the value of a kind with the other one, and adds whether there is a value afterwards.
fn put_exchange(session: &mut Session, given: &[&str], out: &mut String) -> Result<(), Unanswered> {
    let is_there = exchange(session, one(given)?)?;
    put(out, if is_there { "there is one" } else { "none" })
}

/// Adds whether the value of a kind and the other one are equal.
fn put_same(session: &Session, given: &[&str], out: &mut String) -> Result<(), Unanswered> {
    put(out, are_same(session, one(given)?)?)
}

/// Adds whether the device suits the netlist with the other netlist's placement.
fn put_suits_other(
    alloc: Global,
    session: &Session,
    given: &[&str],
    out: &mut String,
) -> Result<(), Unanswered> {
    no_words(given)?;
    let (design, device) = (&session.design, &session.device);
    put(
        out,
        suits_other(alloc, design, device, &session.others.net)?,
    )
}

/// Exchanges two values, and returns whether the first one is there afterwards.
fn swap<T: Drop>(one: &mut Option<T>, other: &mut Option<T>) -> bool {
    let held = one.take();
    *one = other.take();
    *other = held;
    one.is_some()
}

/// Exchanges the value of a kind with the other one, and returns whether there is a value
/// afterwards.
fn exchange(session: &mut Session, kind: &str) -> Result<bool, Unanswered> {
    let others = &mut session.others;
    match kind {
        "arch" => Ok(swap(&mut session.design.arch, &mut others.arch)),
        "net" => Ok(swap(&mut session.design.net, &mut others.net)),
        "device" => Ok(swap(&mut session.device, &mut others.device)),
        "problem" => {
            session.searching = None;
            Ok(swap(&mut session.problem, &mut others.problem))
        }
        "tree" => Ok(swap(&mut session.tree, &mut others.tree)),
        "counts" => Ok(swap(&mut session.counts, &mut others.counts)),
        "view" => Ok(swap(&mut session.books.view, &mut others.view)),
        _ => Err(Unanswered::Misread(KINDS)),
    }
}

/// Returns whether the value of a kind and the other one are equal, compared both ways round.
fn are_same(session: &Session, kind: &str) -> Result<bool, Unanswered> {
    let others = &session.others;
    match kind {
        "arch" => same(&session.design.arch, &others.arch, NO_ARCHITECTURE),
        "device" => same(&session.device, &others.device, NO_DEVICE),
        "problem" => same(&session.problem, &others.problem, NO_PROBLEM),
        "tree" => same(&session.tree, &others.tree, NO_TREE),
        _ => Err(Unanswered::Misread(KINDS)),
    }
}

/// Returns whether two values are equal, compared both ways round. If the first one is missing,
/// returns `missing`.
fn same<T: PartialEq>(
    one: &Option<T>,
    other: &Option<T>,
    missing: Unanswered,
) -> Result<bool, Unanswered> {
    match (one, other) {
        (Some(one), Some(other)) => Ok(*one == *other && *other == *one),
        (None, _) => Err(missing),
        _ => Err(Unanswered::Refused("there is no other one")),
    }
}

/// Returns whether the device suits the netlist, and the placement as it is read for the other
/// netlist.
fn suits_other(
    alloc: Global,
    design: &Design,
    device: &Option<Device>,
    other: &Option<Vec<u8>>,
) -> Result<bool, Unanswered> {
    let Some(other) = other else {
        return Err(Unanswered::Refused("there is no other netlist"));
    };
    let design = design.texts()?;
    let Some(device) = device else {
        return Err(NO_DEVICE);
    };
    let netlist = net_file::parse(alloc, design.net, design.arch)?;
    suits_both(alloc, design, device, &netlist, other.as_slice())
}

/// Returns whether a device suits a netlist, and the placement of a design as it is read for the
/// netlist of a text.
fn suits_both(
    alloc: Global,
    design: DesignTexts<'_>,
    device: &Device,
    netlist: &Netlist<'_>,
    other: &[u8],
) -> Result<bool, Unanswered> {
    let other = net_file::parse(alloc, other, design.arch)?;
    are_suited(alloc, design, device, netlist, &other)
}
