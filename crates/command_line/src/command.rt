//! The commands and options of the command line, and the values that were given.

ghost use Rattle.std.specs.Prelude.{◌≤◌, IfSome};
ghost use Rattle.rr_graph.specs.Fabric.{longest_side, most_tracks};
ghost use Rattle.node_cost.specs.Options.{most_workers};
ghost use Rattle.command_line.specs.Given.{IsRunGiven, IsRouteGiven, IsWidthGiven, IsCheckGiven, IsReportGiven, IsBoundGiven, IsGraphGiven, IsNetsGiven};

use crate::choices::from_to;
use crate::given::{
    design_files, flag, number, number_within, optional, settings, side_files, text,
};
use crate::help;
use crate::options::{
    explain_flag, global_flag, input, ranged, setting, side_file, upward_flag, width, with_design,
    with_settings,
};
use clap::{Arg, ArgAction, ArgMatches, Command};
use node_cost::{MOST_WORKERS, Settings};
use rr_graph::{LONGEST_SIDE, MOST_TRACKS};
use std::alloc::{AllocError, Global};

fn route_command<'a>(alloc: Global) -> Result<Command<'a>, AllocError> {
    let command = Command::new(alloc, "route")
        .about("Route a placed netlist at a channel width")
        .after_help(help::ROUTE);
    let command = with_design(alloc, command)?
        .arg(input(
            alloc,
            "ROUTE",
            "The routing file that is written; without a routing it is left alone",
        ))?
        .arg(width(alloc))?
        .arg(global_flag(alloc))?
        .arg(explain_flag(alloc, help::EXPLAIN))?
        .arg(side_file(alloc, "rest", "FILE", help::REST))?;
    with_settings(alloc, command)
}

fn width_command<'a>(alloc: Global) -> Result<Command<'a>, AllocError> {
    let command = Command::new(alloc, "width")
        .about("Search for the least channel width at which a placed netlist is routed")
        .after_help(help::WIDTH);
    let command = with_design(alloc, command)?
        .arg(input(
            alloc,
            "ROUTE",
            "The routing file that is written, of the least width; without one it is left alone",
        ))?
        .arg(setting(alloc, "start", from_to(1, MOST_TRACKS, "12"), help::START).default_value_if(
            "upward",
            "true",
            Some("1"),
        )?)?
        .arg(upward_flag(alloc)?)?
        .arg(setting(alloc, "verify", from_to(0, MOST_TRACKS, "0"), help::VERIFY))?
        .arg(
            Arg::new(alloc, "no-bound")
                .long("no-bound")
                .action(ArgAction::SetTrue)
                .help(help::NO_BOUND),
        )?
        .arg(side_file(alloc, "keep", "PREFIX", help::KEEP))?
        .arg(global_flag(alloc))?
        .arg(explain_flag(alloc, help::EXPLAIN))?;
    with_settings(alloc, command)
}

fn check_command<'a>(alloc: Global) -> Result<Command<'a>, AllocError> {
    let command = Command::new(alloc, "check")
        .about("Judge a routing of a placed netlist")
        .after_help(help::CHECK);
    with_design(alloc, command)?
        .arg(input(alloc, "ROUTE", "The routing file that is judged"))?
        .arg(width(alloc))?
        .arg(global_flag(alloc))?
        .arg(explain_flag(alloc, help::EXPLAIN_CHECK))
}

fn report_command<'a>(alloc: Global) -> Result<Command<'a>, AllocError> {
    let command = Command::new(alloc, "report")
        .about("Print the figures of a routing, legal or not")
        .after_help(help::REPORT);
    with_design(alloc, command)?
        .arg(input(alloc, "ROUTE", "The routing file whose figures are printed"))?
        .arg(width(alloc))?
        .arg(global_flag(alloc))?
        .arg(
            Arg::new(alloc, "full-stats")
                .long("full-stats")
                .action(ArgAction::SetTrue)
                .help("Also bends, wires and places a net: in all, the mean and the most"),
        )?
        .arg(
            Arg::new(alloc, "map")
                .long("map")
                .action(ArgAction::SetTrue)
                .help("Also the array, with the occupancy of each place of its channels"),
        )?
        .arg(
            Arg::new(alloc, "json")
                .long("json")
                .action(ArgAction::SetTrue)
                .help("The same as one JSON object, in place of lines"),
        )?
        .arg(explain_flag(alloc, help::EXPLAIN))
}

fn bound_command<'a>(alloc: Global) -> Result<Command<'a>, AllocError> {
    let command = Command::new(alloc, "bound")
        .about("Print below which channel width a placed netlist has no routing")
        .after_help(help::BOUND);
    with_design(alloc, command)?
        .arg(side_file(alloc, "cut", "FILE", help::CUT))?
        .arg(explain_flag(alloc, help::EXPLAIN))
}

fn graph_command<'a>(alloc: Global) -> Result<Command<'a>, AllocError> {
    Command::new(alloc, "graph")
        .about("Print the nodes and edges of a device's routing-resource graph")
        .after_help(help::GRAPH)
        .arg(input(
            alloc,
            "ARCH",
            "The architecture file, .arch; - or stdin is standard input",
        ))?
        .arg(ranged(alloc, "NX", LONGEST_SIDE, "Logic blocks in a row, 1 to 100"))?
        .arg(ranged(
            alloc,
            "NY",
            LONGEST_SIDE,
            "Logic blocks in a column, 1 to 100",
        ))?
        .arg(ranged(alloc, "W", MOST_TRACKS, "Tracks in each channel, 1 to 256"))?
        .arg(global_flag(alloc))?
        .arg(
            Arg::new(alloc, "types")
                .long("types")
                .action(ArgAction::SetTrue)
                .help("Also the type of each wire, and the switch of each edge into a wire")
                .conflicts_with("global")?,
        )?
        .arg(explain_flag(alloc, help::EXPLAIN))
}

fn nets_command<'a>(alloc: Global) -> Result<Command<'a>, AllocError> {
    let command = Command::new(alloc, "nets")
        .about("Print the nodes that the nets of a placed netlist join")
        .after_help(help::NETS);
    with_design(alloc, command)?
        .arg(width(alloc))?
        .arg(global_flag(alloc))?
        .arg(explain_flag(alloc, help::EXPLAIN))
}

/// Returns the command line of the program.
#[inline(never)]
pub fn command<'a>(alloc: Global) -> Result<Command<'a>, AllocError> {
    Command::new(alloc, "pathfinder")
        .about("Routes placed designs in the text formats of VPR 4.30, and judges routings")
        .version(help::VERSION)
        .after_help(help::PROGRAM)
        .subcommand_required(true)
        .arg_required_else_help(true)
        .subcommand(route_command(alloc)?)?
        .subcommand(width_command(alloc)?)?
        .subcommand(check_command(alloc)?)?
        .subcommand(report_command(alloc)?)?
        .subcommand(bound_command(alloc)?)?
        .subcommand(graph_command(alloc)?)?
        .subcommand(nets_command(alloc)?)
}

/// The values that `route` and `width` share.
#[derive(Clone, Copy)]
pub struct RunWords<'a> {
    pub net: &'a str,
    pub arch: &'a str,
    pub place: &'a str,
    pub route: &'a str,
    pub global: bool,
    pub explain: bool,
    pub workers: u32,
    pub settings: Settings,
    /// The file of the log, if one is wanted; `-` is standard error.
    pub log: Option<&'a str>,
    /// The file of the schedule, if one is wanted.
    pub schedule: Option<&'a str>,
    /// The file of the schedule that is followed, if there is one.
    pub follow: Option<&'a str>,
}

/// The other values given to the `route` command.
#[derive(Clone, Copy)]
pub struct RouteWords<'a> {
    pub width: u32,
    /// The file of the trees that were left, if one is wanted.
    pub rest: Option<&'a str>,
}

/// The other values given to the `width` command.
#[derive(Clone, Copy)]
pub struct WidthWords<'a> {
    pub start: u32,
    /// The prefix of the names of the trials' files, if they are wanted.
    pub keep: Option<&'a str>,
    /// How many widths below the least are also tried.
    pub verify: u32,
    /// Whether each width from the bound on is tried, upward.
    pub upward: bool,
    /// Whether the bound is left out.
    pub no_bound: bool,
}

/// The values given to the `check` command.
#[derive(Clone, Copy)]
pub struct CheckWords<'a> {
    pub net: &'a str,
    pub arch: &'a str,
    pub place: &'a str,
    pub route: &'a str,
    pub width: u32,
    pub global: bool,
    pub explain: bool,
}

/// The values given to the `report` command.
#[derive(Clone, Copy)]
pub struct ReportWords<'a> {
    pub net: &'a str,
    pub arch: &'a str,
    pub place: &'a str,
    pub route: &'a str,
    pub width: u32,
    pub global: bool,
    pub explain: bool,
    pub full_stats: bool,
    pub map: bool,
    pub json: bool,
}

/// The values given to the `bound` command.
#[derive(Clone, Copy)]
pub struct BoundWords<'a> {
    pub net: &'a str,
    pub arch: &'a str,
    pub place: &'a str,
    /// The file of the certificate, if one is wanted.
    pub cut: Option<&'a str>,
    pub explain: bool,
}

/// The values given to the `graph` command.
#[derive(Clone, Copy)]
pub struct GraphWords<'a> {
    pub arch: &'a str,
    pub nx: u32,
    pub ny: u32,
    pub width: u32,
    pub global: bool,
    pub types: bool,
    pub explain: bool,
}

/// The values given to the `nets` command.
#[derive(Clone, Copy)]
pub struct NetsWords<'a> {
    pub net: &'a str,
    pub arch: &'a str,
    pub place: &'a str,
    pub width: u32,
    pub global: bool,
    pub explain: bool,
}

/// Returns the values that `route` and `width` share, or `None` if one is out of its range.
pub fn run_words<'a>(matches: &ArgMatches<'a>) -> Option<RunWords<'a>>
    ensures workers { IfSome result (λ r. (1 ≤ r.workers) × (r.workers ≤ most_workers)) }
    ensures given { IfSome result (λ w. IsRunGiven matches.now w) }
{
    let design = design_files(matches)?;
    let side = side_files(matches);
    Some(RunWords {
        net: design.net,
        arch: design.arch,
        place: design.place,
        route: text(matches, "ROUTE")?,
        global: flag(matches, "global"),
        explain: flag(matches, "explain"),
        workers: number_within(matches, "workers", MOST_WORKERS)?,
        settings: settings(matches)?,
        log: side.log,
        schedule: side.schedule,
        follow: side.follow,
    })
}

/// Returns the other values given to the `route` command, or `None` if one is out of its range.
pub fn route_words<'a>(matches: &ArgMatches<'a>) -> Option<RouteWords<'a>>
    ensures tracks { IfSome result (λ r. (1 ≤ r.width) × (r.width ≤ most_tracks)) }
    ensures given { IfSome result (λ w. IsRouteGiven matches.now w) }
{
    Some(RouteWords {
        width: number_within(matches, "width", MOST_TRACKS)?,
        rest: optional(matches, "rest"),
    })
}

/// Returns the other values given to the `width` command, or `None` if one is out of its range.
pub fn width_words<'a>(matches: &ArgMatches<'a>) -> Option<WidthWords<'a>>
    ensures start { IfSome result (λ w. (1 ≤ w.start) × (w.start ≤ most_tracks)) }
    ensures given { IfSome result (λ w. IsWidthGiven matches.now w) }
{
    Some(WidthWords {
        start: number_within(matches, "start", MOST_TRACKS)?,
        keep: optional(matches, "keep"),
        verify: number(matches, "verify")?,
        upward: flag(matches, "upward"),
        no_bound: flag(matches, "no-bound"),
    })
}

/// Returns the values given to the `check` command, or `None` if one is out of its range.
pub fn check_words<'a>(matches: &ArgMatches<'a>) -> Option<CheckWords<'a>>
    ensures tracks { IfSome result (λ c. (1 ≤ c.width) × (c.width ≤ most_tracks)) }
    ensures given { IfSome result (λ w. IsCheckGiven matches.now w) }
{
    let design = design_files(matches)?;
    Some(CheckWords {
        net: design.net,
        arch: design.arch,
        place: design.place,
        route: text(matches, "ROUTE")?,
        width: number_within(matches, "width", MOST_TRACKS)?,
        global: flag(matches, "global"),
        explain: flag(matches, "explain"),
    })
}

/// Returns the values given to the `report` command, or `None` if one is out of its range.
pub fn report_words<'a>(matches: &ArgMatches<'a>) -> Option<ReportWords<'a>>
    ensures tracks { IfSome result (λ r. (1 ≤ r.width) × (r.width ≤ most_tracks)) }
    ensures given { IfSome result (λ w. IsReportGiven matches.now w) }
{
    let design = design_files(matches)?;
    Some(ReportWords {
        net: design.net,
        arch: design.arch,
        place: design.place,
        route: text(matches, "ROUTE")?,
        width: number_within(matches, "width", MOST_TRACKS)?,
        global: flag(matches, "global"),
        explain: flag(matches, "explain"),
        full_stats: flag(matches, "full-stats"),
        map: flag(matches, "map"),
        json: flag(matches, "json"),
    })
}

/// Returns the values given to the `bound` command, or `None` if one of its files is not named.
pub fn bound_words<'a>(matches: &ArgMatches<'a>) -> Option<BoundWords<'a>>
    ensures { IfSome result (λ w. IsBoundGiven matches.now w) }
{
    let design = design_files(matches)?;
    Some(BoundWords {
        net: design.net,
        arch: design.arch,
        place: design.place,
        cut: optional(matches, "cut"),
        explain: flag(matches, "explain"),
    })
}

/// Returns the values given to the `graph` command, or `None` if one is out of its range.
pub fn graph_words<'a>(matches: &ArgMatches<'a>) -> Option<GraphWords<'a>>
    ensures columns { IfSome result (λ g. (1 ≤ g.nx) × (g.nx ≤ longest_side)) }
    ensures rows { IfSome result (λ g. (1 ≤ g.ny) × (g.ny ≤ longest_side)) }
    ensures tracks { IfSome result (λ g. (1 ≤ g.width) × (g.width ≤ most_tracks)) }
    ensures given { IfSome result (λ w. IsGraphGiven matches.now w) }
{
    Some(GraphWords {
        arch: text(matches, "ARCH")?,
        nx: number_within(matches, "NX", LONGEST_SIDE)?,
        ny: number_within(matches, "NY", LONGEST_SIDE)?,
        width: number_within(matches, "W", MOST_TRACKS)?,
        global: flag(matches, "global"),
        types: flag(matches, "types"),
        explain: flag(matches, "explain"),
    })
}

/// Returns the values given to the `nets` command, or `None` if one is out of its range.
pub fn nets_words<'a>(matches: &ArgMatches<'a>) -> Option<NetsWords<'a>>
    ensures tracks { IfSome result (λ n. (1 ≤ n.width) × (n.width ≤ most_tracks)) }
    ensures given { IfSome result (λ w. IsNetsGiven matches.now w) }
{
    let design = design_files(matches)?;
    Some(NetsWords {
        net: design.net,
        arch: design.arch,
        place: design.place,
        width: number_within(matches, "width", MOST_TRACKS)?,
        global: flag(matches, "global"),
        explain: flag(matches, "explain"),
    })
}
