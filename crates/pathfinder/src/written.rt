//! The file that a run writes: ROUTE or a certificate.

use crate::files::RunFile;
use crate::identity::{STANDARD_ERROR, STANDARD_OUTPUT, is_name_of, leads_to, path_of};
use crate::shown::Plain;
use crate::warning::hindrance_of;
use run_inputs::AppFault;
use run_log::Progress;
use std::fs::Files;
use std::io;

/// Returns the paths of the inputs, and the name of the file that is written.
pub fn paths_of<'a>(net: &'a str, arch: &'a str, place: &'a str, written: &'a str) -> [&'a str; 4] {
    [path_of(net), path_of(arch), path_of(place), written]
}

/// Returns the input that the name ROUTE also leads to, if there is one.
#[inline(never)]
fn input_at(
    rt: &HostRuntime,
    route: &str,
    files: [&str; 4],
    schedule: Option<&str>,
) -> Result<Option<&'static str>, AppFault> {
    let [net, arch, place, _] = files;
    for (input, name) in [
        (net, "the netlist"),
        (arch, "the architecture"),
        (place, "the placement"),
        (schedule.unwrap_or(net), "the schedule"),
    ] {
        match is_name_of(rt, route, input) {
            Ok(false) => {}
            Ok(true) => return Ok(Some(name)),
            Err(error) if error.kind() == io::ErrorKind::OutOfMemory => {
                return Err(AppFault::Memory);
            }
            Err(_) => {}
        }
    }
    Ok(None)
}

/// Returns whether ROUTE leads to the file that a standard stream goes to.
#[inline(never)]
fn is_stream(rt: &HostRuntime, route: &str, stream: &str) -> bool {
    match rt.metadata(route) {
        Ok(found) if found.is_file() => leads_to(rt, stream, &found),
        _ => false,
    }
}

/// Warns of what is wrong with the name of the routing file, before anything is routed.
#[inline(never)]
fn warn(rt: &HostRuntime, route: &str) {
    let plain = Plain(route);
    if let Some(doubt) = hindrance_of(rt, route) {
        let _ = eprintln!(rt; "warning: {plain} {doubt}");
    }
    if is_stream(rt, route, STANDARD_OUTPUT) {
        let _ = eprintln!(rt; "warning: standard output goes to {plain} too");
    } else if is_stream(rt, route, STANDARD_ERROR) {
        let _ = eprintln!(rt; "warning: standard error goes to {plain} too");
    }
}

/// Returns the file that a run writes, ROUTE or a certificate. Before anything is read, refuses it
/// if it is also an input, and warns of what else is wrong with its name.
///
/// # Errors
/// `Unwritten` if it is an input, and `Memory`.
#[inline(never)]
pub fn written_file<'a>(
    rt: &'a HostRuntime,
    progress: &'a Progress<'a, HostRuntime>,
    files: [&'a str; 4],
    schedule: Option<&'a str>,
) -> Result<RunFile<'a>, AppFault> {
    let [_, _, _, route] = files;
    if let Some(input) = input_at(rt, route, files, schedule)? {
        let plain = Plain(route);
        let _ = eprintln!(rt; "{plain} is {input}");
        return Err(AppFault::Unwritten);
    }
    warn(rt, route);
    RunFile::of_name(rt, progress, route).map_err(|_| AppFault::Memory)
}
