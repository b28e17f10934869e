//! Calls of `report_run` and `route_explain`: reports and explanations of routings.

ghost use Rattle.std.specs.Prelude.{◌≡◌, ◌≤◌, length};
ghost use Rattle.rr_graph.specs.Fabric.{most_tracks};

use crate::run_calls::{RoutedFiles, kept_routed, put_end, put_print, put_taken, source_of};
use lab_session::asked::{AskedDevice, asked_device};
use lab_session::bounds::channel_width;
use lab_session::session::{DesignTexts, RoutedProblem, RunFiles, Session};
use lab_session::sinks::sink;
use lab_session::sources::source;
use lab_session::unanswered::Unanswered;
use lab_session::words::{Call, mode_before};
use net_file::Netlist;
use report_run::{ReportForm, report_run};
use route_explain::{Explained, ReadRouting, explain, explain_run};
use run_inputs::AppFault;
use runs::verdict_status;
use std::alloc::Global;
use std::rt::Runtime;
use std::thread::Threads;
use vpr_text::{Lines, lines};

/// The name of a routing's file in explanations.
const ROUTE: &[u8] = b"route";

/// The answer to a call of `report_run` with other words.
const REPORT: Unanswered = Unanswered::Misread(
    "report_run W, or with `global`, and then `full`, `map` and `json`, after it",
);

/// Makes a call, and adds its answer.
pub fn call(
    rt: &(impl Runtime + Threads + Sync + AllocGlobal),
    session: &Session,
    call: Call<'_>,
    out: &mut String,
) -> Result<(), Unanswered> {
    match call.name {
        "report_run" => run_report(rt.alloc(), &session.files, call.given, out),
        "explain_run" => run_explain(rt, &session.files, call.given, out),
        "explain" => explain_source(rt, session, call, out),
        _ => Err(Unanswered::NoCall),
    }
}

/// Adds what a word asks for in a report.
fn with_word(form: ReportForm, word: &str) -> Result<ReportForm, Unanswered> {
    match word {
        "full" => Ok(ReportForm { full: true, ..form }),
        "map" => Ok(ReportForm { map: true, ..form }),
        "json" => Ok(ReportForm { json: true, ..form }),
        _ => Err(REPORT),
    }
}

/// Returns the form of a report that words ask for.
fn form_of(given: &[&str]) -> Result<ReportForm, Unanswered> {
    let mut form = ReportForm {
        full: false,
        map: false,
        json: false,
    };
    for word in given {
        form = with_word(form, word)?;
    }
    Ok(form)
}

/// Runs `report`.
fn run_report(
    alloc: Global,
    files: &RunFiles,
    given: &[&str],
    out: &mut String,
) -> Result<(), Unanswered> {
    let [width, rest @ ..] = given else {
        return Err(REPORT);
    };
    let width = channel_width(width)?;
    let (mode, rest) = mode_before(rest);
    let form = form_of(rest)?;
    let routed = kept_routed(files)?;
    report_design(alloc, files, routed, AskedDevice { width, mode }, form, out)
}

/// Runs `report` on the files of a design and a routing.
fn report_design(
    alloc: Global,
    files: &RunFiles,
    routed: RoutedFiles<'_>,
    asked: AskedDevice,
    form: ReportForm,
    out: &mut String,
) -> Result<(), Unanswered>
    requires width { (1 ≤ asked.width) × (asked.width ≤ most_tracks) }
{
    let mut printed = sink(alloc, files.out_room);
    let answer = report_run(
        alloc,
        &mut source_of(routed.design.net),
        &mut source_of(routed.design.arch),
        &mut source_of(routed.design.place),
        &mut source_of(routed.route),
        &mut printed,
        asked.width,
        asked.mode,
        form,
    );
    put_print(alloc, answer.map(|_| 0), printed.into_inner(), out)
}

/// Runs `check` with explanations.
fn run_explain(
    rt: &(impl Threads + Sync + AllocGlobal),
    files: &RunFiles,
    given: &[&str],
    out: &mut String,
) -> Result<(), Unanswered> {
    let [width, rest @ ..] = given else {
        return Err(Unanswered::Misread("explain_run W, or with `global` after it"));
    };
    let asked = asked_device(width, rest)?;
    explain_design(rt, files, kept_routed(files)?, asked, out)
}

/// Returns whether memory ran out before a verdict was explained.
fn lacks_memory(answer: &Result<Explained, AppFault>) -> bool {
    match answer {
        Ok(explained) => matches!(explained.told, Err(AppFault::Memory)),
        Err(_) => false,
    }
}

/// Runs `check` with explanations on the files of a design and a routing.
fn explain_design(
    rt: &(impl Threads + Sync + AllocGlobal),
    files: &RunFiles,
    routed: RoutedFiles<'_>,
    asked: AskedDevice,
    out: &mut String,
) -> Result<(), Unanswered>
    requires width { (1 ≤ asked.width) × (asked.width ≤ most_tracks) }
{
    let mut printed = sink(rt.alloc(), files.out_room);
    let mut words = sink(rt.alloc(), files.words_room);
    let answer = explain_run(
        rt,
        ROUTE,
        &mut source_of(routed.design.net),
        &mut source_of(routed.design.arch),
        &mut source_of(routed.design.place),
        &mut source_of(routed.route),
        &mut printed,
        &mut words,
        asked.width,
        asked.mode,
    );
    let (printed, words) = (printed.into_inner(), words.into_inner());
    if lacks_memory(&answer) {
        return Err(Unanswered::Memory);
    }
    let answer = answer.map(|explained| verdict_status(explained.verdict));
    put_end(rt.alloc(), answer, &[&printed, &words], out)?;
    put_taken("out", &printed, out)?;
    put_taken("words", &words, out)
}

/// Explains the routing of the problem, with the netlist's names and the lines of a text.
fn explain_source(
    rt: &(impl Runtime + Threads + Sync + AllocGlobal),
    session: &Session,
    call: Call<'_>,
    out: &mut String,
) -> Result<(), Unanswered> {
    let text = source(rt, call)?;
    let lines = lines(rt.alloc(), text.as_slice())?;
    explain_lines(rt, session, &lines, out)
}

/// Explains the routing of the problem, with the netlist's names and these lines.
fn explain_lines(
    rt: &(impl Threads + Sync + AllocGlobal),
    session: &Session,
    lines: &Lines<'_>,
    out: &mut String,
) -> Result<(), Unanswered> {
    let design = session.design.texts()?;
    let routed = session.routed_problem()?;
    explain_named(rt, design, routed, lines, session.files.words_room, out)
}

/// Explains a routing of a problem, with the names of a design.
fn explain_named(
    rt: &(impl Threads + Sync + AllocGlobal),
    design: DesignTexts<'_>,
    routed: RoutedProblem<'_>,
    lines: &Lines<'_>,
    room: Option<usize>,
    out: &mut String,
) -> Result<(), Unanswered> {
    let RoutedProblem { problem, routing } = routed;
    if routing.lists.len() != problem.nets() as usize {
        return Err(Unanswered::Refused("the routing has not an entry for each net"));
    }
    let netlist = net_file::parse(rt.alloc(), design.net, design.arch)?;
    explain_to(rt, &netlist, routed, lines, room, out)
}

/// Explains a routing of a problem, and adds the explanation.
fn explain_to(
    rt: &(impl Threads + Sync + AllocGlobal),
    netlist: &Netlist<'_>,
    routed: RoutedProblem<'_>,
    lines: &Lines<'_>,
    room: Option<usize>,
    out: &mut String,
) -> Result<(), Unanswered>
    requires { length routed.routing.now ≡ length routed.problem.now.nets }
{
    let RoutedProblem { problem, routing } = routed;
    let mut words = sink(rt.alloc(), room);
    let file = ReadRouting {
        path: ROUTE,
        netlist,
        problem,
        lines,
        routing,
    };
    let answer = explain(rt, &file, &mut words);
    let words = words.into_inner();
    if matches!(answer, Err(AppFault::Memory)) {
        return Err(Unanswered::Memory);
    }
    put_end(rt.alloc(), answer.map(|_| 0), &[&words], out)?;
    put_taken("words", &words, out)
}
