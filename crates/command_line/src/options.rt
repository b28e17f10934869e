//! The words and options that commands have.

use crate::choices::{Choice, from_to, setting_choices};
use crate::help;
use clap::{Arg, ArgAction, Command, value_parser};
use node_cost::MOST_WORKERS;
use rr_graph::MOST_TRACKS;
use std::alloc::{AllocError, Global};

pub(crate) fn ranged<'a>(alloc: Global, name: &'a str, most: u32, help: &'a str) -> Arg<'a> {
    Arg::new(alloc, name)
        .required(true)
        .value_parser(value_parser!(u32).range(1..=i64::from(most)))
        .help(help)
}

pub(crate) fn input<'a>(alloc: Global, name: &'a str, help: &'a str) -> Arg<'a> {
    Arg::new(alloc, name).required(true).help(help)
}

pub(crate) fn global_flag<'a>(alloc: Global) -> Arg<'a> {
    Arg::new(alloc, "global")
        .long("global")
        .action(ArgAction::SetTrue)
        .help("Global routing: each place of a channel is one node with room for W nets")
}

/// Returns the `--explain` option with this help.
pub(crate) fn explain_flag<'a>(alloc: Global, help: &'a str) -> Arg<'a> {
    Arg::new(alloc, "explain")
        .long("explain")
        .action(ArgAction::SetTrue)
        .help(help)
}

pub(crate) fn width<'a>(alloc: Global) -> Arg<'a> {
    ranged(
        alloc,
        "width",
        MOST_TRACKS,
        "Tracks in each channel, 1 to 256",
    )
    .long("width")
    .value_name("W")
}

/// Returns an option with a number for negotiations. It has a default.
pub(crate) fn setting<'a>(
    alloc: Global,
    name: &'a str,
    choice: Choice<'a>,
    help: &'a str,
) -> Arg<'a> {
    Arg::new(alloc, name)
        .long(name)
        .value_name("N")
        .value_parser(value_parser!(u32).range(i64::from(choice.least)..=i64::from(choice.most)))
        .help(help)
        .default_value(choice.standard)
}

/// Adds the options for negotiations to a command.
pub(crate) fn with_settings<'a>(
    alloc: Global,
    command: Command<'a>,
) -> Result<Command<'a>, AllocError> {
    let choices = setting_choices();
    command
        .arg(setting(
            alloc,
            "workers",
            from_to(1, MOST_WORKERS, "1"),
            help::WORKERS,
        ))?
        .arg(setting(alloc, "iterations", choices.iterations, help::ITERATIONS))?
        .arg(setting(alloc, "first-pres", choices.first, help::FIRST_PRES))?
        .arg(setting(alloc, "init-pres", choices.init, help::INIT_PRES))?
        .arg(setting(alloc, "mult", choices.mult, help::MULT))?
        .arg(setting(alloc, "acc", choices.acc, help::ACC))?
        .arg(setting(alloc, "bb", choices.bb, help::BB))?
        .arg(steady_flag(alloc))?
        .arg(side_file(alloc, "log", "FILE", help::LOG))?
        .arg(side_file(alloc, "schedule", "FILE", help::SCHEDULE))?
        .arg(side_file(alloc, "follow", "FILE", help::FOLLOW))
}

/// Returns the `--steady` option: nets keep to the trees that they have where other ways cost the
/// same.
fn steady_flag<'a>(alloc: Global) -> Arg<'a> {
    Arg::new(alloc, "steady")
        .long("steady")
        .action(ArgAction::SetTrue)
        .help(help::STEADY)
}

/// Returns an option that names a further file of a run.
pub(crate) fn side_file<'a>(
    alloc: Global,
    name: &'a str,
    value: &'a str,
    help: &'a str,
) -> Arg<'a> {
    Arg::new(alloc, name)
        .long(name)
        .value_name(value)
        .help(help)
}

/// Adds the three files of a placed design to a command.
pub(crate) fn with_design<'a>(
    alloc: Global,
    command: Command<'a>,
) -> Result<Command<'a>, AllocError> {
    command
        .arg(input(alloc, "NET", "The netlist, a .net file of VPR 4.30"))?
        .arg(input(alloc, "ARCH", "The architecture file, .arch"))?
        .arg(input(
            alloc,
            "PLACE",
            "The placement of the netlist; one of the inputs may be -, standard input",
        ))
}

/// Returns the `--upward` option: a search from the bound on, in which there is no lesser width to
/// verify.
pub(crate) fn upward_flag<'a>(alloc: Global) -> Result<Arg<'a>, AllocError> {
    Arg::new(alloc, "upward")
        .long("upward")
        .action(ArgAction::SetTrue)
        .help(help::UPWARD)
        .conflicts_with("verify")?
        .conflicts_with("no-bound")
}
