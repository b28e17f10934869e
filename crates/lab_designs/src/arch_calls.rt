//! Calls of `arch_file`: architectures.

use arch_file::{Arch, parse};
use lab_session::answer::{added, put, put_maybe_named, put_named};
use lab_session::session::Design;
use lab_session::sources::source;
use lab_session::unanswered::Unanswered;
use lab_session::words::{Call, no_words, numbers};
use std::alloc::Global;
use std::fmt::Debug;
use std::rt::Runtime;

/// Makes a call, and adds its answer.
pub fn call(
    rt: &(impl Runtime + AllocGlobal),
    design: &mut Design,
    call: Call<'_>,
    out: &mut String,
) -> Result<(), Unanswered> {
    match call.name {
        "arch" => read(rt, design, call, out),
        _ => look_into(rt.alloc(), design, call, out),
    }
}

/// Makes a look-up of the design's architecture.
fn look_into(
    alloc: Global,
    design: &Design,
    call: Call<'_>,
    out: &mut String,
) -> Result<(), Unanswered> {
    match call.name {
        "class_size" | "class_direction" => look_at_class(design, call, out),
        "io_rat"
        | "class_count"
        | "fc_output"
        | "fc_input"
        | "fc_pad"
        | "fc_type"
        | "pins"
        | "segments"
        | "switches"
        | "copy_arch" => look_at_all(alloc, design, call, out),
        _ => Err(Unanswered::NoCall),
    }
}

/// Makes a look-up of a class of the design's architecture.
fn look_at_class(design: &Design, call: Call<'_>, out: &mut String) -> Result<(), Unanswered> {
    let arch = design.arch()?;
    let [class] = numbers::<1>(call.given)?;
    look_at(arch, call.name, class, out)
}

/// Makes a look-up of the whole architecture of the design.
fn look_at_all(
    alloc: Global,
    design: &Design,
    call: Call<'_>,
    out: &mut String,
) -> Result<(), Unanswered> {
    no_words(call.given)?;
    look_up(alloc, design.arch()?, call.name, out)
}

/// Reads an architecture. Drops the netlist and the placement that were read for the one before.
fn read(
    rt: &(impl Runtime + AllocGlobal),
    design: &mut Design,
    call: Call<'_>,
    out: &mut String,
) -> Result<(), Unanswered> {
    let text = source(rt, call)?;
    read_text(rt.alloc(), design, text.as_slice(), out)
}

/// Reads an architecture from its text.
fn read_text(
    alloc: Global,
    design: &mut Design,
    text: &[u8],
    out: &mut String,
) -> Result<(), Unanswered> {
    let arch = parse(alloc, text)?;
    put_counts(&arch, out)?;
    design.arch = Some(arch);
    design.net = None;
    design.place = None;
    Ok(())
}

/// Adds the number of entries of each kind in an architecture.
fn put_counts(arch: &Arch, out: &mut String) -> Result<(), Unanswered> {
    let (pins, classes) = (arch.pins().len(), arch.class_count());
    let (segments, switches) = (arch.segments().len(), arch.switches().len());
    added(writeln!(
        out,
        "{pins} pins, {classes} classes, {segments} segments, {switches} switches"
    ))
}

/// Makes a look-up of the whole architecture.
fn look_up(alloc: Global, arch: &Arch, name: &str, out: &mut String) -> Result<(), Unanswered> {
    match name {
        "io_rat" => put(out, arch.io_rat()),
        "class_count" => put(out, arch.class_count()),
        "fc_output" => put(out, arch.fc_output()),
        "fc_input" => put(out, arch.fc_input()),
        "fc_pad" => put(out, arch.fc_pad()),
        "fc_type" => put_named(out, arch.fc_type()),
        "pins" => put_each(arch.pins(), out),
        "segments" => put_each(arch.segments(), out),
        "switches" => put_each(arch.switches(), out),
        _ => copy(alloc, arch, out),
    }
}

/// Adds a line for each entry.
fn put_each<T: Debug>(entries: &[T], out: &mut String) -> Result<(), Unanswered> {
    for entry in entries {
        put_named(out, entry)?;
    }
    Ok(())
}

/// Makes a look-up of a class.
fn look_at(arch: &Arch, name: &str, class: u32, out: &mut String) -> Result<(), Unanswered> {
    match name {
        "class_size" => put(out, arch.class_size(class)),
        _ => put_maybe_named(out, arch.class_direction(class)),
    }
}

/// Copies the architecture, and adds whether the copy is equal.
fn copy(alloc: Global, arch: &Arch, out: &mut String) -> Result<(), Unanswered> {
    let copy = arch.copy(alloc)?;
    put(out, copy == *arch)
}
