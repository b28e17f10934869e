//! The beginning of the runs with a design, and the end of any run by a fault.

use crate::BAD_WORDS;
use crate::identity::lacks_standard_input;
use crate::names::{FurtherNames, ShownNames};
use crate::opened::{Input, OpenedDesign, open, open_design};
use crate::schedule::{RunFault, read_followed, refused_schedule};
use command_line::command::RunWords;
use refusals::{
    FilesRead, NameFault, first_standard_input, input_fault, is_standard_input, tell_refusal,
};
use run_inputs::{AppFault, InputFile, print_fault, status};
use std::io;
use vpr_text::Adapted;

/// The names of a run's files, and the opened files of its design.
#[derive(Drop)]
pub struct OpenedNames {
    pub names: ShownNames,
    pub design: OpenedDesign,
}

/// The names of a run's files, the opened files of its design, and the opened ROUTE.
#[derive(Drop)]
pub struct OpenedRouting {
    pub names: ShownNames,
    pub design: OpenedDesign,
    pub route: Input,
}

/// The names of a run's files, and the bytes of the schedule that it follows, if it follows one.
#[derive(Drop)]
pub struct RunTexts {
    pub names: ShownNames,
    followed: Option<Vec<u8>>,
}

impl RunTexts {
    /// Returns the bytes of the schedule that the run follows, if it follows one.
    pub fn followed_bytes(&self) -> Option<&[u8]> {
        match &self.followed {
            Some(bytes) => Some(bytes.as_slice()),
            None => None,
        }
    }
}

/// The texts of a run, and the opened files of its design.
#[derive(Drop)]
pub struct OpenedRun {
    pub texts: RunTexts,
    pub design: OpenedDesign,
}

/// Opens the files of a design: NET, ARCH and PLACE, before ROUTE. `further` names the other files
/// of the run.
///
/// # Errors
/// The exit status of the fault, which is printed.
#[inline(never)]
pub fn begin(
    rt: &HostRuntime,
    files: [&str; 4],
    further: FurtherNames<'_>,
    is_explained: bool,
) -> Result<OpenedNames, u8> {
    let [net, arch, place, _] = files;
    test_inputs(rt, [net, arch, place, ""])?;
    let Ok(names) = ShownNames::of(rt.alloc(), files, further) else {
        return Err(refused(rt, AppFault::Memory));
    };
    match open_design(rt, arch, net, place, is_explained) {
        Ok(design) => Ok(OpenedNames { names, design }),
        Err(fault) => Err(refused_with(rt, fault, is_explained, names.without_bytes())),
    }
}

/// Opens the files of a design and then ROUTE, all before one is read.
///
/// # Errors
/// As for `begin`.
#[inline(never)]
pub fn begin_with_route(
    rt: &HostRuntime,
    files: [&str; 4],
    is_explained: bool,
) -> Result<OpenedRouting, u8> {
    let [_, _, _, route] = files;
    test_inputs(rt, files)?;
    let OpenedNames { names, design } = begin(rt, files, FurtherNames::none(), is_explained)?;
    match open(rt, route, InputFile::Route, is_explained) {
        Ok(route) => Ok(OpenedRouting {
            names,
            design,
            route,
        }),
        Err(fault) => Err(refused_with(rt, fault, is_explained, names.without_bytes())),
    }
}

/// Opens the files of a design for `route` or `width`, and reads the schedule that the run follows.
///
/// # Errors
/// As for `begin`, and for a ROUTE that can't be written or a schedule that can't be read.
#[inline(never)]
pub fn begin_run(
    rt: &HostRuntime,
    words: &RunWords<'_>,
    is_explained: bool,
) -> Result<OpenedRun, u8> {
    if is_standard_input(words.route) {
        return Err(refused_name(rt, NameFault::Written));
    }
    let files = [words.net, words.arch, words.place, words.route];
    let further = FurtherNames {
        log: words.log,
        schedule: words.schedule,
        follow: words.follow,
    };
    let OpenedNames { names, design } = begin(rt, files, further, is_explained)?;
    let followed = read_followed(rt, words.follow)?;
    Ok(OpenedRun {
        texts: RunTexts { names, followed },
        design,
    })
}

/// Tests, before an input is opened, that at most one is standard input, and that standard input
/// exists then: an opened file would take the descriptor of a standard input that was closed.
///
/// # Errors
/// The exit status of the fault, which is printed.
#[inline(never)]
fn test_inputs(rt: &HostRuntime, files: [&str; 4]) -> Result<(), u8> {
    if let Some(fault) = input_fault(files) {
        return Err(refused_name(rt, fault));
    }
    match first_standard_input(files) {
        Some(file) if lacks_standard_input(rt) => Err(refused(rt, AppFault::Unread(file))),
        _ => Ok(()),
    }
}

/// Prints why the name of a file of the run is refused, and returns the exit status.
pub fn refused_name(rt: &HostRuntime, fault: NameFault) -> u8 {
    let _ = println!(rt; "error: {fault}");
    BAD_WORDS
}

/// Returns the files of a run with what was read from them.
pub fn read_of<'a>(
    names: &'a ShownNames,
    design: &'a OpenedDesign,
    route: &'a [u8],
) -> FilesRead<'a> {
    names.with_bytes(
        design.net.get_ref().bytes(),
        design.arch.get_ref().bytes(),
        design.place.get_ref().bytes(),
        route,
    )
}

/// Prints a fault's line, and returns the fault's exit status, even if the line can't be printed.
#[inline(never)]
pub fn refused(rt: &HostRuntime, fault: AppFault) -> u8 {
    let _ = print_fault(&fault, &mut Adapted::new(io::writer(rt)));
    status(&fault)
}

/// Prints a fault's line, and explains the fault on standard error if that is wanted. Returns the
/// exit status.
pub fn refused_with(rt: &HostRuntime, fault: AppFault, explain: bool, files: FilesRead<'_>) -> u8 {
    let status = refused(rt, fault);
    if explain {
        tell_refusal(rt, &fault, files);
    }
    status
}

/// Prints the line of the fault of a run that may follow a schedule, explains it on standard error
/// if that is wanted, and returns its status.
pub fn refused_run(
    rt: &HostRuntime,
    fault: RunFault,
    schedule: Option<&str>,
    is_explained: bool,
    files: FilesRead<'_>,
) -> u8 {
    match fault {
        RunFault::Run(fault) => refused_with(rt, fault, is_explained, files),
        RunFault::Schedule(fault) => refused_schedule(rt, fault, schedule, is_explained),
    }
}
