//! Calls of `net_workers`: iterations of the book, and workspaces.

ghost use Rattle.std.specs.Prelude.{◌≡◌, ◌≤◌, IfOk, IsTrue};
ghost use Rattle.node_cost.specs.Options.{most_iterations, most_workers};
ghost use Rattle.congestion_book.specs.Contents.{IsFresh};

use congestion_book::Book;
use lab_session::answer::{added, put};
use lab_session::bounds::{iteration_number, worker_count};
use lab_session::lab_gate::{GateWords, LabGate, gate_words};
use lab_session::session::{NO_BOOK, Session};
use lab_session::trees::put_tree;
use lab_session::unanswered::Unanswered;
use lab_session::words::{Call, NO_WORDS};
use net_workers::{Report, ReportEntry, Workspace, iterate, iterate_in};
use node_cost::Settings;
use std::alloc::Global;
use std::rt::Runtime;
use std::sync::Wait;
use std::thread::Threads;
use std::time::Clock;

/// The refusal of a book with a net drawn in its open iteration.
const BEGUN: Unanswered = Unanswered::Refused("the open iteration is begun");

/// Makes a call, and adds its answer.
pub fn call(
    rt: &(impl Runtime + Threads + Wait + Sync + AllocGlobal),
    session: &mut Session,
    settings: &Settings,
    call: Call<'_>,
    out: &mut String,
) -> Result<(), Unanswered> {
    match call.name {
        "iterate" | "iterate_nets" => {
            make_iteration(rt, &mut session.books.book, settings, call, out)
        }
        "workspace" => make_workspace(rt.alloc(), session, call.given, out),
        "iterate_in" | "iterate_nets_in" => {
            let (book, workspace) = (&mut session.books.book, &mut session.workspace);
            make_iteration_in(rt, book, workspace, settings, call, out)
        }
        _ => Err(Unanswered::NoCall),
    }
}

/// Takes the book if no net was drawn in its open iteration. Otherwise the book stays.
pub fn take_fresh(kept: &mut Option<Book>) -> Result<Book, Unanswered>
    ensures { IfOk result IsFresh }
{
    match kept {
        Some(book) if book.fresh() => (),
        Some(_) => return Err(BEGUN),
        None => return Err(NO_BOOK),
    }
    match kept.take() {
        Some(book) => Ok(book),
        None => Err(NO_BOOK),
    }
}

/// An iteration that a call asks for: the settings, its number, the number of workers and their
/// gate, and whether the answer lists turns net by net instead of worker by worker.
#[derive(Clone, Copy)]
struct AskedIteration<'a> {
    settings: &'a Settings,
    iteration: u32,
    workers: u32,
    gate: GateWords,
    is_by_net: bool,
}

/// Reads an iteration from a call with this syntax.
fn asked_iteration<'a>(
    settings: &'a Settings,
    call: Call<'_>,
    syntax: &'static str,
) -> Result<AskedIteration<'a>, Unanswered>
    ensures iteration { IfOk result
        (λ asked. (1 ≤ asked.iteration) × (asked.iteration ≤ most_iterations)) }
    ensures workers { IfOk result
        (λ asked. (1 ≤ asked.workers) × (asked.workers ≤ most_workers)) }
{
    let [iteration, workers, rest @ ..] = call.given else {
        return Err(Unanswered::Misread(syntax));
    };
    let iteration = iteration_number(iteration)?;
    let workers = worker_count(workers)?;
    let gate = gate_words(rest, workers)?;
    Ok(AskedIteration {
        settings,
        iteration,
        workers,
        gate,
        is_by_net: matches!(call.name, "iterate_nets" | "iterate_nets_in"),
    })
}

/// Makes an iteration of the book by several workers, and adds their reports. If it fails, the book
/// is dropped.
fn make_iteration(
    rt: &(impl Runtime + Threads + Wait + Sync + AllocGlobal),
    book: &mut Option<Book>,
    settings: &Settings,
    call: Call<'_>,
    out: &mut String,
) -> Result<(), Unanswered> {
    let asked = asked_iteration(settings, call, "iterate K WORKERS, or with a gate after it")?;
    let gate = LabGate::new(rt, asked.gate, net_count(book)?)?;
    iterate_under(rt, book, &asked, &gate, out)
}

/// Returns the number of nets of the book's problem.
fn net_count(book: &Option<Book>) -> Result<u32, Unanswered> {
    match book {
        Some(book) => Ok(book.problem().nets()),
        None => Err(NO_BOOK),
    }
}

/// Makes an iteration of the book under a gate, and adds what was done. Puts the book back once all
/// is added.
fn iterate_under<R: Runtime + Threads + Wait + Sync + AllocGlobal>(
    rt: &R,
    kept: &mut Option<Book>,
    asked: &AskedIteration<'_>,
    gate: &LabGate<'_, R>,
    out: &mut String,
) -> Result<(), Unanswered>
    requires iteration { (1 ≤ asked.now.iteration) × (asked.now.iteration ≤ most_iterations) }
    requires workers { (1 ≤ asked.now.workers) × (asked.now.workers ≤ most_workers) }
{
    let book = take_fresh(kept)?;
    let book = iterated(rt, book, asked, gate, out)?;
    *kept = Some(book);
    Ok(())
}

/// Makes an iteration of a book, adds what was done, and returns the book.
fn iterated<R: Runtime + Threads + Wait + Sync + AllocGlobal>(
    rt: &R,
    book: Book,
    asked: &AskedIteration<'_>,
    gate: &LabGate<'_, R>,
    out: &mut String,
) -> Result<Book, Unanswered>
    requires fresh { IsFresh book }
    requires iteration { (1 ≤ asked.now.iteration) × (asked.now.iteration ≤ most_iterations) }
    requires workers { (1 ≤ asked.now.workers) × (asked.now.workers ≤ most_workers) }
{
    let AskedIteration {
        settings,
        iteration,
        workers,
        is_by_net,
        ..
    } = *asked;
    let (book, reports) = iterate(rt, rt.alloc(), book, settings, iteration, workers, gate)?;
    put_iteration(&book, reports.as_slice(), gate, is_by_net, out)?;
    Ok(book)
}

/// Makes a workspace of the book's problem, and adds its number of nets.
fn make_workspace(
    alloc: Global,
    session: &mut Session,
    given: &[&str],
    out: &mut String,
) -> Result<(), Unanswered> {
    if !given.is_empty() {
        return Err(NO_WORDS);
    }
    let workspace = workspace_of(alloc, &session.books.book)?;
    let nets = workspace.problem().nets();
    session.workspace = Some(workspace);
    added(writeln!(out, "{nets} nets"))
}

/// Returns a workspace of the problem of the kept book.
fn workspace_of(alloc: Global, book: &Option<Book>) -> Result<Workspace, Unanswered> {
    let Some(book) = book else {
        return Err(NO_BOOK);
    };
    let problem = book.problem().copy(alloc)?;
    Ok(Workspace::new(alloc, problem)?)
}

/// Makes an iteration of the book by several workers in the workspace, and adds their reports. If
/// it fails, the book is dropped.
fn make_iteration_in(
    rt: &(impl Runtime + Threads + Wait + Sync + AllocGlobal),
    book: &mut Option<Book>,
    workspace: &mut Option<Workspace>,
    settings: &Settings,
    call: Call<'_>,
    out: &mut String,
) -> Result<(), Unanswered> {
    let asked = asked_iteration(
        settings,
        call,
        "iterate_in K WORKERS, or with a gate after it",
    )?;
    let gate = LabGate::new(rt, asked.gate, net_count(book)?)?;
    iterate_in_under(rt, book, workspace, &asked, &gate, out)
}

/// Returns whether a workspace is of a book's problem.
fn is_of(workspace: &Workspace, book: &Book) -> bool
    ensures { IsTrue result → workspace.now ≡ book.now.problem }
{
    *workspace.problem() == *book.problem()
}

/// Takes the book that is kept, if nothing was drawn in its open iteration and the workspace is of
/// its problem.
fn take_of(kept: &mut Option<Book>, workspace: &Workspace) -> Result<Book, Unanswered>
    ensures problem { IfOk result (λ book. workspace.now ≡ book.problem) }
    ensures fresh { IfOk result IsFresh }
{
    match kept {
        Some(book) if !book.fresh() => return Err(BEGUN),
        Some(book) if is_of(workspace, book) => (),
        Some(_) => return Err(Unanswered::Refused("the workspace is of another problem")),
        None => return Err(NO_BOOK),
    }
    match kept.take() {
        Some(book) => Ok(book),
        None => Err(NO_BOOK),
    }
}

/// Makes an iteration of the book in the workspace under a gate, and adds what was done. Puts the
/// book back once all is added.
fn iterate_in_under<R: Runtime + Threads + Wait + Sync + AllocGlobal>(
    rt: &R,
    kept: &mut Option<Book>,
    workspace: &mut Option<Workspace>,
    asked: &AskedIteration<'_>,
    gate: &LabGate<'_, R>,
    out: &mut String,
) -> Result<(), Unanswered>
    requires iteration { (1 ≤ asked.now.iteration) × (asked.now.iteration ≤ most_iterations) }
    requires workers { (1 ≤ asked.now.workers) × (asked.now.workers ≤ most_workers) }
{
    let Some(workspace) = workspace else {
        return Err(Unanswered::Refused("there is no workspace"));
    };
    let book = take_of(kept, workspace)?;
    let book = iterated_in(rt, workspace, book, asked, gate, out)?;
    *kept = Some(book);
    Ok(())
}

/// Makes an iteration of a book in the workspace, adds what was done, and returns the book.
fn iterated_in<R: Runtime + Threads + Wait + Sync + AllocGlobal>(
    rt: &R,
    workspace: &mut Workspace,
    book: Book,
    asked: &AskedIteration<'_>,
    gate: &LabGate<'_, R>,
    out: &mut String,
) -> Result<Book, Unanswered>
    requires problem { workspace.old ≡ book.problem }
    requires fresh { IsFresh book }
    requires iteration { (1 ≤ asked.now.iteration) × (asked.now.iteration ≤ most_iterations) }
    requires workers { (1 ≤ asked.now.workers) × (asked.now.workers ≤ most_workers) }
{
    let AskedIteration {
        settings,
        iteration,
        workers,
        is_by_net,
        ..
    } = *asked;
    let (book, reports) = iterate_in(
        rt,
        rt.alloc(),
        workspace,
        book,
        settings,
        iteration,
        workers,
        gate,
    )?;
    put_iteration(&book, reports.as_slice(), gate, is_by_net, out)?;
    Ok(book)
}

/// Adds what was done in an iteration, and the gate's own lines.
fn put_iteration<R: Wait + Clock + AllocGlobal>(
    book: &Book,
    reports: &[Report],
    gate: &LabGate<'_, R>,
    is_by_net: bool,
    out: &mut String,
) -> Result<(), Unanswered> {
    if is_by_net {
        put_nets(reports, book.problem().nets(), out)?;
    } else {
        put_reports(reports, out)?;
    }
    gate.put(out)
}

/// Adds the report of each worker.
fn put_reports(reports: &[Report], out: &mut String) -> Result<(), Unanswered> {
    for (worker, report) in reports.iter().enumerate() {
        writeln!(out, "worker {worker}:")?;
        put_entries(report.entries(), out)?;
    }
    Ok(())
}

/// Adds a line for each turn of a worker.
fn put_entries(entries: &[ReportEntry], out: &mut String) -> Result<(), Unanswered> {
    for entry in entries {
        put_entry(entry, out)?;
    }
    Ok(())
}

/// Adds the turn of each net, whichever worker made it.
fn put_nets(reports: &[Report], nets: u32, out: &mut String) -> Result<(), Unanswered> {
    for net in 0..nets {
        match reports.iter().find_map(|report| entry_of(report, net)) {
            Some(entry) => put_entry(entry, out)?,
            None => writeln!(out, "net {net}: none")?,
        }
    }
    Ok(())
}

/// Returns the turn of a worker at a net, if the worker made one.
fn entry_of(report: &Report, net: u32) -> Option<&ReportEntry> {
    report.entries().iter().find(|entry| entry.net == net)
}

fn put_entry(entry: &ReportEntry, out: &mut String) -> Result<(), Unanswered> {
    write!(out, "net {}: ", entry.net)?;
    match &entry.tree {
        Some(tree) => put_tree(tree, out),
        None => put(out, "passed"),
    }
}
