//! `pathfinder`: routes placed designs in the text formats of VPR 4.30.
#![tactic(auto)]

mod begun;
mod commands;
mod files;
mod identity;
mod log_file;
mod names;
mod negotiations;
mod opened;
mod replacement;
mod run_gates;
mod schedule;
mod shown;
mod side;
mod target;
mod terminal;
mod warning;
mod written;

ghost use Rattle.std.specs.Prelude.{◌≤◌};
ghost use Rattle.rr_graph.specs.Fabric.{longest_side, most_tracks};

use begun::{
    OpenedNames, OpenedRouting, OpenedRun, begin, begin_run, begin_with_route, read_of, refused,
    refused_run, refused_with,
};
use clap::error::ErrorKind;
use clap::{ArgMatches, Error as ClapError};
use command_line::command;
use command_line::command::GraphWords;
use names::{FurtherNames, ShownNames};
use opened::{Input, open, standard_input};
use refusals::tell_vpr_options;
use run_inputs::{AppFault, InputFile, status};
use runs::{outcome_status, report_status, verdict_status};
use std::io::{IsTerminal, Write};
use std::process::ExitCode;
use std::rt::Runtime;
use std::sync::Wait;
use std::thread::Threads;
use std::{env, io};
use terminal::{Screen, Watched, output};

/// The exit status of an invalid command line.
const BAD_WORDS: u8 = 2;

fn main(rt: HostRuntime) -> ExitCode {
    let mut errors = rt.stderr();
    let watched = Watched {
        output: rt.stdout().is_terminal(),
        errors: errors.is_terminal(),
    };
    ExitCode::from(run(&rt, &rt, &mut errors, watched))
}

/// Runs the command that the command line names, and returns its exit status. If standard error is
/// a terminal, it shows how far a negotiation is.
fn run<R: Runtime + Threads + Wait + Sync + AllocGlobal>(
    handle: &R,
    rt: &HostRuntime,
    errors: &mut impl Write,
    watched: Watched,
) -> u8 {
    let words = match words(rt) {
        Ok(words) => words,
        Err(error) if error.kind() == io::ErrorKind::OutOfMemory => return refused(
            rt,
            AppFault::Memory,
        ),
        Err(_) => {
            let _ = println!(rt; "error: a word of the command line is no text");
            return BAD_WORDS;
        }
    };
    let Ok(command) = command::command(rt.alloc()) else {
        return refused(rt, AppFault::Memory);
    };
    let matches = match command.try_get_matches_from(words.as_slice()) {
        Ok(matches) => matches,
        Err(error) => return explained(rt, &error, words.as_slice(), watched),
    };
    match matches.subcommand() {
        Some(("route", given)) => run_route(handle, rt, given, watched),
        Some(("width", given)) => run_width(handle, rt, given, watched),
        Some(("check", given)) => run_check(handle, rt, given, errors, watched),
        Some(("report", given)) => run_report(rt, given, watched),
        Some(("bound", given)) => run_bound(rt, given, watched),
        Some(("graph", given)) => run_graph(rt, given, watched),
        Some(("nets", given)) => run_nets(rt, given, watched),
        _ => BAD_WORDS,
    }
}

/// Runs `route`, and returns its exit status.
#[inline(never)]
fn run_route<R: Runtime + Threads + Wait + Sync + AllocGlobal>(
    handle: &R,
    rt: &HostRuntime,
    given: &ArgMatches<'_>,
    watched: Watched,
) -> u8 {
    let (Some(words), Some(given)) = (command::run_words(given), command::route_words(given)) else {
        return BAD_WORDS;
    };
    let (is_explained, follow) = (watched.explains(words.explain), words.follow);
    let OpenedRun { texts, mut design } = match begin_run(rt, &words, is_explained) {
        Ok(opened) => opened,
        Err(status) => return status,
    };
    let screen = Screen::new(rt, watched);
    let answer = negotiations::route(handle, &screen, words, given, &texts, &mut design);
    screen.progress.end();
    match answer {
        Ok(outcome) => outcome_status(&outcome),
        Err(fault) => {
            let files = read_of(&texts.names, &design, &[]);
            refused_run(rt, fault, follow, is_explained, files)
        }
    }
}

/// Runs `width`, and returns its exit status.
#[inline(never)]
fn run_width<R: Runtime + Threads + Wait + Sync + AllocGlobal>(
    handle: &R,
    rt: &HostRuntime,
    given: &ArgMatches<'_>,
    watched: Watched,
) -> u8 {
    let (Some(words), Some(given)) = (command::run_words(given), command::width_words(given)) else {
        return BAD_WORDS;
    };
    let (is_explained, follow) = (watched.explains(words.explain), words.follow);
    let OpenedRun { texts, mut design } = match begin_run(rt, &words, is_explained) {
        Ok(opened) => opened,
        Err(status) => return status,
    };
    let screen = Screen::new(rt, watched);
    let answer = negotiations::width(handle, &screen, words, given, &texts, &mut design);
    screen.progress.end();
    match answer {
        Ok(report) => report_status(&report),
        Err(fault) => {
            let files = read_of(&texts.names, &design, &[]);
            refused_run(rt, fault, follow, is_explained, files)
        }
    }
}

/// Runs `check`, and returns its exit status. All files are opened in reading order, before one is
/// read.
fn run_check(
    handle: &(impl Threads + Sync + AllocGlobal),
    rt: &HostRuntime,
    given: &ArgMatches<'_>,
    errors: &mut impl Write,
    watched: Watched,
) -> u8 {
    let Some(given) = command::check_words(given) else {
        return BAD_WORDS;
    };
    let files = [given.net, given.arch, given.place, given.route];
    let is_explained = watched.explains(given.explain);
    let mut opened = match begin_with_route(rt, files, is_explained) {
        Ok(opened) => opened,
        Err(status) => return status,
    };
    match commands::check(handle, rt, given, &mut opened, errors, watched) {
        Ok(verdict) => verdict_status(verdict),
        Err(fault) => {
            let bytes = opened.route.get_ref().bytes();
            refused_with(
                rt,
                fault,
                is_explained,
                read_of(&opened.names, &opened.design, bytes),
            )
        }
    }
}

/// Runs `report`, and returns its exit status. Its files are opened like those of `check`.
fn run_report(rt: &HostRuntime, given: &ArgMatches<'_>, watched: Watched) -> u8 {
    let Some(given) = command::report_words(given) else {
        return BAD_WORDS;
    };
    let files = [given.net, given.arch, given.place, given.route];
    let is_explained = watched.explains(given.explain);
    let OpenedRouting {
        names,
        mut design,
        mut route,
    } = match begin_with_route(rt, files, is_explained) {
        Ok(opened) => opened,
        Err(status) => return status,
    };
    match commands::report(rt, given, &mut design, &mut route, watched) {
        Ok(()) => 0,
        Err(fault) => {
            let bytes = route.get_ref().bytes();
            refused_with(rt, fault, is_explained, read_of(&names, &design, bytes))
        }
    }
}

/// Runs `bound`, and returns its exit status.
fn run_bound(rt: &HostRuntime, given: &ArgMatches<'_>, watched: Watched) -> u8 {
    let Some(given) = command::bound_words(given) else {
        return BAD_WORDS;
    };
    let files = [given.net, given.arch, given.place, ""];
    let is_explained = watched.explains(given.explain);
    let OpenedNames { names, mut design } = match begin(
        rt,
        files,
        FurtherNames::none(),
        is_explained,
    ) {
        Ok(opened) => opened,
        Err(status) => return status,
    };
    let screen = Screen::new(rt, watched);
    match commands::bound(&screen, given, &mut design) {
        Ok(()) => 0,
        Err(fault) => refused_with(rt, fault, is_explained, read_of(&names, &design, &[])),
    }
}

/// Runs `graph`, and returns its exit status.
fn run_graph(rt: &HostRuntime, given: &ArgMatches<'_>, watched: Watched) -> u8 {
    let Some(given) = command::graph_words(given) else {
        return BAD_WORDS;
    };
    let Ok(names) = ShownNames::of(rt.alloc(), ["", given.arch, "", ""], FurtherNames::none())
    else {
        return refused(rt, AppFault::Memory);
    };
    let is_explained = watched.explains(given.explain);
    if given.arch == "stdin" {
        return list_graph(rt, given, &names, standard_input(rt, is_explained), watched);
    }
    match open(rt, given.arch, InputFile::Arch, is_explained) {
        Ok(arch) => list_graph(rt, given, &names, arch, watched),
        Err(fault) => refused_with(rt, fault, is_explained, names.without_bytes()),
    }
}

/// Prints the listing of a device of an architecture, and returns the exit status.
fn list_graph(
    rt: &HostRuntime,
    given: GraphWords<'_>,
    names: &ShownNames,
    mut arch: Input,
    watched: Watched,
) -> u8
    requires columns { (1 ≤ given.nx) × (given.nx ≤ longest_side) }
    requires rows { (1 ≤ given.ny) × (given.ny ≤ longest_side) }
    requires tracks { (1 ≤ given.width) × (given.width ≤ most_tracks) }
{
    let is_explained = watched.explains(given.explain);
    match commands::graph(rt, given, &mut arch, watched) {
        Ok(()) => 0,
        Err(fault) => {
            let bytes = arch.get_ref().bytes();
            refused_with(
                rt,
                fault,
                is_explained,
                names.with_bytes(&[], bytes, &[], &[]),
            )
        }
    }
}

/// Runs `nets`, and returns its exit status.
fn run_nets(rt: &HostRuntime, given: &ArgMatches<'_>, watched: Watched) -> u8 {
    let Some(given) = command::nets_words(given) else {
        return BAD_WORDS;
    };
    let files = [given.net, given.arch, given.place, ""];
    let is_explained = watched.explains(given.explain);
    let OpenedNames { names, mut design } = match begin(
        rt,
        files,
        FurtherNames::none(),
        is_explained,
    ) {
        Ok(opened) => opened,
        Err(status) => return status,
    };
    match commands::nets(rt, given, &mut design, watched) {
        Ok(()) => 0,
        Err(fault) => refused_with(rt, fault, is_explained, read_of(&names, &design, &[])),
    }
}

/// Returns the words of the command line. `help --help` asks for the same as `help`.
#[inline(never)]
fn words(rt: &HostRuntime) -> io::Result<Vec<String>> {
    let mut words: Vec<String> = env::args(rt)?.collect(rt.alloc())?;
    let is_help = words.get(1).is_some_and(|word| word.as_str() == "help");
    if is_help {
        words.retain(|word| word.as_str() != "--help" && word.as_str() != "-h");
    }
    Ok(words)
}

/// Prints clap's message about the words, and on standard error what takes the places of VPR's
/// options among them. Returns the exit status: 0 for help or the version if it was asked for and
/// could be printed.
#[inline(never)]
fn explained(rt: &HostRuntime, error: &ClapError, words: &[String], watched: Watched) -> u8 {
    if error.kind() == ErrorKind::OutOfMemory {
        return refused(rt, AppFault::Memory);
    }
    let printed = write!(output(rt, watched), "{error}");
    match error.kind() {
        ErrorKind::DisplayHelp | ErrorKind::DisplayVersion if printed.is_err() => {
            status(&AppFault::Unwritten)
        }
        ErrorKind::DisplayHelp | ErrorKind::DisplayVersion => 0,
        _ => {
            tell_vpr_options(rt, words);
            BAD_WORDS
        }
    }
}
