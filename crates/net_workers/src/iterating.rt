//! An iteration of several workers on one book.

ghost use Rattle.std.specs.Prelude.{◌≡◌, ◌≢◌, ◌<◌, ◌≤◌, true, map, [], vec_len, IfOk, IfErr};
ghost use Rattle.node_cost.specs.Options.{present_of, most_iterations, most_workers};
ghost use Rattle.congestion_book.specs.Contents.{IsSound, IsFresh};
ghost use Rattle.net_workers.specs.declared.fault.WorkFault.TheVariants.{NoThread};
ghost use Rattle.net_workers.specs.Agreement.{Agrees};
ghost use Rattle.net_workers.specs.Schedules.{AreAllowed};
ghost use Rattle.net_workers.specs.kept.TurnLogs.{plan_of, turn_in_schedule};

use crate::board::Board;
use crate::comparison::is_done;
use crate::course::Course;
use crate::desk::Desk;
use crate::fault::{TurnFault, WorkFault};
use crate::gathering::{gather, reports_of, schedule_of};
use crate::history::{Front, Head, Logged, Opened};
use crate::made_turn::MadeTurn;
use crate::opening::trees_of;
use crate::page::Cell;
use crate::report::Report;
use crate::scheduled::{draw_all, follow_alone};
use crate::search::{SearchOptions, Searcher};
use crate::staff::{dismiss_all, hire_all, leave_tools, send_home};
use crate::threads::run_all;
use crate::turn_desk::TurnDesk;
use crate::worker::Worker;
use crate::workspace::{Tools, Workspace};
use congestion_book::Book;
use gates::{Gate, Schedule};
use node_cost::Settings;
use route_tree::Tree;
use std::alloc::{AllocError, Global};
use std::marker::Brand;
use std::mem;
use std::sync::ledger::Blank;
use std::sync::{Mutex, Wait};
use std::thread::Threads;
use wave_ground::PreparedProblem;

/// Returns whether the gate accepts the turns of an iteration.
fn are_accepted<G: Gate>(
    alloc: Global,
    turns: &[MadeTurn],
    iteration: u32,
    gate: &G,
) -> Result<bool, AllocError>
    ensures { IfOk result (λ are. are ≡ true
        → G.accepted gate.now iteration (map turn_in_schedule turns.now)) }
{
    let schedule = schedule_of(alloc, turns)?;
    Ok(gate.accepts(iteration, &schedule))
}

/// Returns the turns of the history, from the cells, if the gate accepts them.
fn accepted_turns<L: Logged, G: Gate>(
    alloc: Global,
    row: Vec<Cell<L>>,
    front: &Front<L>,
    iteration: u32,
    gate: &G,
) -> Result<Vec<MadeTurn>, TurnFault>
    ensures turns { IfOk result (λ turns. turns.items ≡ front.now) }
    ensures accepted { IfOk result
        (λ turns. G.accepted gate.now iteration (map turn_in_schedule turns.items)) }
{
    let turns = gather(alloc, row, front)?;
    if !are_accepted(alloc, &turns, iteration, gate)? {
        return Err(TurnFault::Astray);
    }
    Ok(turns)
}

/// Returns the book and the reports, if each net had its turn and the gate accepts the turns.
fn book_and_reports<L: Logged, G: Gate>(
    alloc: Global,
    desk: TurnDesk<L>,
    row: Vec<Cell<L>>,
    options: SearchOptions,
    gate: &G,
) -> Result<(Book, Vec<Report>), TurnFault>
    requires workers { options.workers ≡ L.workers }
    ensures sound { IfOk result (λ r. IsSound r.0) }
    ensures agrees { IfOk result (λ r. Agrees L.opening r.0 L.present L.bb L.workers r.1.items) }
    ensures allowed { IfOk result
        (λ r. AreAllowed (G.accepted gate.now) options.iteration r.0 r.1.items) }
{
    let (book, front) = desk.into_parts();
    if !is_done(&book) {
        return Err(TurnFault::Astray);
    }
    let turns = accepted_turns(alloc, row, &front, options.iteration, gate)?;
    let reports = reports_of(alloc, turns, options.workers)?;
    Ok((book, reports))
}

/// Tests that as many workers worked as there are.
///
/// # Errors
/// `NoThread` exactly if not.
fn test_all_worked(worked: usize, workers: usize) -> Result<(), WorkFault>
    ensures all { IfOk result (λ _. worked ≡ workers) }
    ensures missing { IfErr result (λ fault. (fault ≡ NoThread) × (worked ≢ workers)) }
{
    if worked == workers {
        Ok(())
    } else {
        Err(WorkFault::NoThread)
    }
}

/// Lets workers work at a desk, each in a thread, until no net is left or the turns of the course
/// are made. They leave their tools.
fn work_together<L: Logged + Send + Sync, R: Threads + Wait + Sync, G: Gate + Sync>(
    rt: &R,
    searcher: &Searcher<'_, '_, L, G>,
    desk: TurnDesk<L>,
    course: Option<&Course<'_>>,
    workers: Vec<Worker<L>>,
    tools: &mut Vec<Tools>,
) -> Result<TurnDesk<L>, WorkFault>
    ensures { IfErr result (λ fault. fault ≡ NoThread → 1 < vec_len workers) }
{
    let all = workers.len();
    let desk = Mutex::new(desk);
    let results = run_all(rt, searcher, &desk, course, workers)?;
    test_all_worked(results.len(), all)?;
    dismiss_all(results, tools)?;
    Ok(desk.into_inner())
}

/// Lets workers work at a desk, in one thread, until the turns of a course are made. They leave
/// their tools.
fn work_alone<L: Logged, R: Wait, G: Gate>(
    rt: &R,
    searcher: &Searcher<'_, '_, L, G>,
    desk: TurnDesk<L>,
    course: &Course<'_>,
    workers: Vec<Worker<L>>,
    tools: &mut Vec<Tools>,
) -> Result<TurnDesk<L>, TurnFault> {
    let desk = Mutex::new(desk);
    let mut workers = workers;
    follow_alone(rt, searcher, &desk, course, &mut workers)?;
    leave_tools(workers, tools)?;
    Ok(desk.into_inner())
}

/// Lets the workers of a round work at a desk until the turns of a schedule are made. They leave
/// their tools.
fn work_by<L: Logged + Send + Sync, R: Threads + Wait + Sync, G: Gate + Sync>(
    rt: &R,
    searcher: &Searcher<'_, '_, L, G>,
    desk: TurnDesk<L>,
    schedule: Schedule<'_>,
    workers: Vec<Worker<L>>,
    tools: &mut Vec<Tools>,
) -> Result<TurnDesk<L>, WorkFault>
    ensures { IfErr result (λ fault. fault ≡ NoThread → 1 < vec_len workers) }
{
    let (mut desk, mut workers) = (desk, workers);
    draw_all(searcher, &mut desk, &mut workers, schedule.turns)?;
    let course = Course::new(schedule.turns);
    if schedule.is_alone {
        Ok(work_alone(rt, searcher, desk, &course, workers, tools)?)
    } else {
        work_together(rt, searcher, desk, Some(&course), workers, tools)
    }
}

/// Lets the workers of a round work at a desk, until no net is left or the turns of the gate's
/// schedule are made. Without a schedule only as many work as have enough work for their threads.
/// All leave their tools.
fn work_at<L: Logged + Send + Sync, R: Threads + Wait + Sync, G: Gate + Sync>(
    rt: &R,
    searcher: &Searcher<'_, '_, L, G>,
    desk: TurnDesk<L>,
    workers: Vec<Worker<L>>,
    tools: &mut Vec<Tools>,
) -> Result<TurnDesk<L>, WorkFault>
    ensures { IfErr result (λ fault. fault ≡ NoThread → 1 < vec_len workers) }
{
    let board = searcher.board;
    if let Some(schedule) = searcher.gate.schedule(board.iteration()) {
        return work_by(rt, searcher, desk, schedule, workers, tools);
    }
    let mut workers = workers;
    let busy = board.portions().busy_workers(workers.len());
    send_home(&mut workers, busy, tools)?;
    work_together(rt, searcher, desk, None, workers, tools)
}

/// Returns the board of an iteration that opens with the trees of a book. `kept` are some that it
/// may record.
fn board_of<'a, L: Logged>(
    alloc: Global,
    prepared: &'a PreparedProblem,
    options: SearchOptions,
    book: &Book,
    kept: Vec<Option<Tree>>,
    head: Head<L>,
) -> Result<Board<'a, L>, AllocError>
    requires problem { prepared.now ≡ book.now.problem }
    requires book { book.now ≡ L.opening }
    requires options { (options.present ≡ L.present) × (options.bb ≡ L.bb)
        × (options.workers ≡ L.workers) }
    requires plan { L.plan ≡ plan_of L.opening L.present L.bb L.workers }
{
    let opening = trees_of(alloc, book, kept)?;
    Board::new(alloc, prepared, options, opening, head)
}

/// Opens a desk of a book, and lets workers work at it until no net is left, or until the turns of
/// the gate's schedule are made. They take the tools that were left, and leave theirs.
fn work_on<L: Logged + Send + Sync, R: Threads + Wait + Sync, G: Gate + Sync>(
    rt: &R,
    searcher: &Searcher<'_, '_, L, G>,
    book: Book,
    blank: Blank,
    front: Front<L>,
    tools: &mut Vec<Tools>,
) -> Result<TurnDesk<L>, WorkFault>
    requires fresh { IsFresh book }
    requires book { book ≡ L.opening }
    requires plan { L.plan ≡ plan_of L.opening L.present L.bb L.workers }
    requires name { blank.name ≡ L.name }
    requires parts { blank.parts ≡ L.parts }
    requires one_each { blank.parts ≡ L.workers }
    requires none { front ≡ [] }
    ensures { IfErr result (λ fault. fault ≡ NoThread → 1 < L.workers) }
{
    let Searcher { alloc, board, .. } = *searcher;
    let (desk, shares) = Desk::<L>::new(alloc, book, board.workers(), blank)?;
    let staff = hire_all(alloc, board, &desk, &front, shares, tools)?;
    let desk = TurnDesk::new(desk, front);
    work_at(rt, searcher, desk, staff, tools)
}

/// A book whose iteration begins, and what its round begins with: a ledger and a history in which
/// there is no turn, and which have no name yet.
struct Beginning {
    book: Book,
    blank: Blank,
    opened: Opened,
}

/// Makes an iteration in a round that names its options and its book. The workers take the tools
/// that were left in the workspace, and leave theirs.
fn iterate_as<L: Logged + Send + Sync, R: Threads + Wait + Sync, G: Gate + Sync>(
    rt: &R,
    alloc: Global,
    workspace: &mut Workspace,
    beginning: Beginning,
    options: SearchOptions,
    gate: &G,
) -> Result<(Book, Vec<Report>), WorkFault>
    requires problem { workspace.old ≡ beginning.book.problem }
    requires fresh { IsFresh beginning.book }
    requires workers { options.workers ≡ L.workers }
    requires book { beginning.book ≡ L.opening }
    requires options { (options.present ≡ L.present) × (options.bb ≡ L.bb) }
    requires plan { L.plan ≡ plan_of L.opening L.present L.bb L.workers }
    requires history { beginning.opened.seen.book ≡ L.history }
    requires name { beginning.blank.name ≡ L.name }
    requires parts { beginning.blank.parts ≡ L.parts }
    requires one_each { beginning.blank.parts ≡ options.workers }
    ensures sound { IfOk result (λ r. IsSound r.0) }
    ensures agrees { IfOk result (λ r. Agrees L.opening r.0 L.present L.bb L.workers r.1.items) }
    ensures allowed { IfOk result
        (λ r. AreAllowed (G.accepted gate.now) options.iteration r.0 r.1.items) }
    ensures thread { IfErr result (λ fault. fault ≡ NoThread → 1 < L.workers) }
    ensures workspace { workspace.new ≡ workspace.old }
{
    let Beginning {
        book,
        blank,
        opened,
    } = beginning;
    let (head, front) = opened.named::<L>();
    let kept = mem::replace(&mut workspace.trees, Vec::new(alloc));
    let board = board_of(alloc, &workspace.prepared, options, &book, kept, head)?;
    let searcher = Searcher {
        alloc,
        board: &board,
        gate,
    };
    let desk = work_on(rt, &searcher, book, blank, front, &mut workspace.tools)?;
    let (row, opening) = board.into_parts();
    workspace.trees = opening;
    Ok(book_and_reports(alloc, desk, row, options, gate)?)
}

/// Makes an iteration of a negotiation. Nothing was drawn yet in the book's open iteration. This
/// many workers draw the nets of the book, search for their trees, and make a turn for each. If the
/// gate has a schedule for the iteration, they make its turns. After the first iteration, a worker
/// that is about to commit a tree looks and searches again if the others have filled a node of the
/// tree, up to four times; and if there is little to do, only some of the workers work, at least
/// four. The workers wait for one another at the book's lock, and the call waits for all of them.
/// The book comes back sound, with the iteration still open, and with a report of each worker. The
/// turns and trees of the reports are those of the book.
///
/// The workers search in the workspace, which is of the book's problem. They leave there what they
/// searched with, so that the next iteration needn't make it again. Contracts see only its problem.
///
/// `NoThread` if a thread couldn't be started, which never happens with one worker. `Memory` if
/// memory ran out. `Astray` if the book refused a call, a report disagrees with it, a schedule
/// can't be followed or the gate didn't accept the turns. If there are several, the first of these
/// is returned. The book is then dropped.
pub fn iterate_in<R: Threads + Wait + Sync, G: Gate + Sync>(
    rt: &R,
    alloc: Global,
    workspace: &mut Workspace,
    book: Book,
    settings: &Settings,
    iteration: u32,
    workers: u32,
    gate: &G,
) -> Result<(Book, Vec<Report>), WorkFault>
    requires problem { workspace.old ≡ book.problem }
    requires fresh { IsFresh book }
    requires iteration { (1 ≤ iteration) × (iteration ≤ most_iterations) }
    requires workers { (1 ≤ workers) × (workers ≤ most_workers) }
    ensures sound { IfOk result (λ r. IsSound r.0) }
    ensures agrees { IfOk result (λ r. Agrees book r.0 (present_of settings.now iteration)
        settings.now.bb workers r.1.items) }
    ensures allowed { IfOk result
        (λ r. AreAllowed (G.accepted gate.now) iteration r.0 r.1.items) }
    ensures thread { IfErr result (λ fault. fault ≡ NoThread → 1 < workers) }
    ensures workspace { workspace.new ≡ workspace.old }
{
    let options = SearchOptions::of(settings, iteration, workers);
    let beginning = Beginning {
        book,
        blank: Blank::new(workers as u64),
        opened: Opened::new(),
    };
    iterate_as::<Brand, R, G>(rt, alloc, workspace, beginning, options, gate)
}

/// Returns a workspace of a copy of the book's problem.
fn workspace_of(alloc: Global, book: &Book) -> Result<Workspace, AllocError>
    ensures { IfOk result (λ workspace. workspace ≡ book.now.problem) }
{
    let problem = book.problem().copy(alloc)?;
    Workspace::new(alloc, problem)
}

/// Makes an iteration like `iterate_in`, in a workspace of its own. This is for a caller that makes
/// no further iteration of the book.
///
/// `NoThread`, `Memory` and `Astray` as `iterate_in` returns them. `Memory` also if it runs out for
/// the workspace.
pub fn iterate<R: Threads + Wait + Sync, G: Gate + Sync>(
    rt: &R,
    alloc: Global,
    book: Book,
    settings: &Settings,
    iteration: u32,
    workers: u32,
    gate: &G,
) -> Result<(Book, Vec<Report>), WorkFault>
    requires fresh { IsFresh book }
    requires iteration { (1 ≤ iteration) × (iteration ≤ most_iterations) }
    requires workers { (1 ≤ workers) × (workers ≤ most_workers) }
    ensures sound { IfOk result (λ r. IsSound r.0) }
    ensures agrees { IfOk result (λ r. Agrees book r.0 (present_of settings.now iteration)
        settings.now.bb workers r.1.items) }
    ensures allowed { IfOk result
        (λ r. AreAllowed (G.accepted gate.now) iteration r.0 r.1.items) }
    ensures thread { IfErr result (λ fault. fault ≡ NoThread → 1 < workers) }
{
    let mut workspace = workspace_of(alloc, &book)?;
    iterate_in(
        rt,
        alloc,
        &mut workspace,
        book,
        settings,
        iteration,
        workers,
        gate,
    )
}
