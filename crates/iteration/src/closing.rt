//! An iteration, from its first draw to its close.

ghost use Rattle.std.specs.Prelude.{◌≡◌, ◌+◌, ◌<◌, ◌≤◌, length, None, IfOk, IfErr, OnOk};
ghost use Rattle.node_cost.specs.Options.{most_iterations, most_workers};
ghost use Rattle.congestion_book.specs.Turns.{IsFirstWaiting};
ghost use Rattle.congestion_book.specs.Contents.{IsFresh, IsSound, net_count};
ghost use Rattle.congestion_book.specs.Steps.{after_close};
ghost use Rattle.net_workers.specs.declared.fault.WorkFault.TheVariants.{Memory, NoThread};
ghost use Rattle.iteration.specs.Progress.{IsIteration};

use congestion_book::Book;
use net_workers::{Gate, WorkFault, Workspace, iterate_in};
use node_cost::Settings;
use std::alloc::Global;
use std::sync::Wait;
use std::thread::Threads;

/// Closes the open iteration, in which each net had its turn.
fn close(alloc: Global, book: &mut Book) -> Result<(), WorkFault>
    requires done { IsFirstWaiting book.old.turns (net_count book.old) None }
    requires few { length book.old.rows < most_iterations }
    ensures closed { OnOk result (book.new ≡ after_close book.old) }
    ensures sound { IsSound book.new }
    ensures memory { IfErr result (λ fault. fault ≡ Memory) }
{
    match book.close(alloc) {
        Ok(()) => Ok(()),
        // with a turn for each net and room for a row, a close can lack only memory
        Err(_) => Err(WorkFault::Memory),
    }
}

/// How an iteration is made: the settings, the number of workers, and the gate that is called.
#[derive(Clone, Copy)]
pub(crate) struct Rules<'a, G> {
    pub(crate) settings: &'a Settings,
    pub(crate) workers: u32,
    pub(crate) gate: &'a G,
}

/// Makes the next iteration of a book by workers that search in the workspace, and closes it. The
/// gate is called before and after.
pub(crate) fn make_iteration<R: Threads + Wait + Sync, G: Gate + Sync>(
    rt: &R,
    alloc: Global,
    workspace: &mut Workspace,
    book: Book,
    rules: &Rules<'_, G>,
) -> Result<Book, WorkFault>
    requires problem { workspace.old ≡ book.problem }
    requires fresh { IsFresh book }
    requires few { length book.rows < most_iterations }
    requires workers { (1 ≤ rules.now.workers) × (rules.now.workers ≤ most_workers) }
    ensures made { IfOk result (IsIteration rules.now.settings.now rules.now.workers
        (G.accepted rules.now.gate.now) book) }
    ensures thread { IfErr result (λ fault. fault ≡ NoThread → 1 < rules.now.workers) }
    ensures workspace { workspace.new ≡ workspace.old }
{
    let Rules {
        settings,
        workers,
        gate,
    } = *rules;
    let iteration = book.rows().len() as u32 + 1;
    gate.opened(iteration, book.problem().nets());
    let (mut book, reports) = iterate_in(
        rt, alloc, workspace, book, settings, iteration, workers, gate,
    )?;
    workspace.keep(reports);
    close(alloc, &mut book)?;
    gate.closed(iteration, &book);
    Ok(book)
}
