//! A negotiation, iteration by iteration.

ghost use Rattle.std.specs.Prelude.{◌≡◌, ◌<◌, ◌≤◌, false, length, IfOk, IfErr, OnOk};
ghost use Rattle.node_cost.specs.Options.{AreWithinLimits, most_iterations, most_workers};
ghost use Rattle.congestion_book.specs.Contents.{opening};
ghost use Rattle.net_workers.specs.declared.fault.WorkFault.TheVariants.{Memory, NoThread};
ghost use Rattle.iteration.specs.Progress.{IsIteration, IsReached, goes_on, unrouted_of, overused_of};
ghost use Rattle.iteration.specs.Outcomes.{IsOutcomeOf, EndsNegotiation, IsOutcome};

use crate::closing::{Rules, make_iteration};
use crate::outcome::Outcome;
use crate::routing::routing_of;
use congestion_book::Book;
use net_workers::{Gate, WorkFault, Workspace};
use node_cost::Settings;
use route_check::check_routing;
use route_tree::Routing;
use routing_problem::Problem;
use std::alloc::{AllocError, Global};
use std::marker::Model;
use std::sync::Wait;
use std::thread::Threads;

/// The state of a negotiation between two iterations: its book, and the workspace of the same
/// problem in which the workers of all iterations search. Contracts see the content of the book.
#[derive(Drop)]
struct Negotiation {
    book: Book,
    workspace: Workspace,
}

impl Model for Negotiation {
    ghost use Rattle.std.specs.Prelude.{◌≡◌};
    ghost use Rattle.congestion_book.specs.Contents.{Content, IsFresh};

    ghost Value = { Content };

    ghost view = { λ n. n.book };

    ghost invariant = { λ n. IsFresh n.book × (n.workspace ≡ n.book.problem) };
}

/// Returns a workspace of a copy of the problem.
fn workspace_of(alloc: Global, problem: &Problem) -> Result<Workspace, AllocError>
    ensures { IfOk result (λ workspace. workspace ≡ problem.now) }
{
    let own = problem.copy(alloc)?;
    Workspace::new(alloc, own)
}

impl Negotiation {
    /// Returns the state before the first iteration.
    #[tactic(auto, using(crate::proofs::Advancing::fresh_opening))]
    fn begin(
        alloc: Global,
        problem: Problem,
        settings: &Settings,
    ) -> Result<Negotiation, AllocError>
        ensures { IfOk result (λ n. n ≡ opening problem settings.now.acc) }
    {
        let workspace = workspace_of(alloc, &problem)?;
        Ok(Negotiation {
            book: Book::new(alloc, problem, settings.acc())?,
            workspace,
        })
    }

    /// Returns whether another iteration follows.
    fn goes_on(&self, settings: &Settings) -> bool
        ensures goes_on { result ≡ goes_on settings.now self.now }
        ensures limits { AreWithinLimits settings.now }
    {
        let limit = settings.iterations() as usize;
        let made = self.book.rows().len();
        made == 0 || (self.book.unrouted() == 0 && 0 < self.book.overused() && made < limit)
    }

    /// Makes the next iteration, by all workers.
    #[tactic(auto, using(crate::proofs::Advancing::fresh_after, crate::proofs::Advancing::problem_after))]
    fn advance<R: Threads + Wait + Sync, G: Gate + Sync>(
        self,
        rt: &R,
        alloc: Global,
        settings: &Settings,
        workers: u32,
        gate: &G,
    ) -> Result<Negotiation, WorkFault>
        requires workers { (1 ≤ workers) × (workers ≤ most_workers) }
        requires few { length self.rows < most_iterations }
        ensures made { IfOk result (IsIteration settings.now workers (G.accepted gate.now) self) }
        ensures thread { IfErr result (λ fault. fault ≡ NoThread → 1 < workers) }
    {
        let Negotiation {
            book,
            mut workspace,
        } = self;
        let rules = Rules {
            settings,
            workers,
            gate,
        };
        let book = make_iteration(rt, alloc, &mut workspace, book, &rules)?;
        Ok(Negotiation { book, workspace })
    }

    /// Returns the outcome of a negotiation that ends here.
    fn outcome<R: Threads + Wait + Sync>(&self, rt: &R, alloc: Global) -> Result<Outcome, WorkFault>
        ensures reported { IfOk result (IsOutcomeOf self.now) }
        ensures memory { IfErr result (λ fault. fault ≡ Memory) }
    {
        let unrouted = self.book.unrouted();
        let overused = self.book.overused();
        let iterations = self.book.rows().len() as u32;
        if unrouted > 0 || overused > 0 {
            return Ok(Outcome::NotRouted {
                unrouted,
                overused,
                iterations,
            });
        }
        let routing = success(rt, alloc, self.workspace.problem(), &self.book)?;
        Ok(Outcome::Success(routing, iterations))
    }

    /// Calls the gate with the outcome.
    fn tell<G: Gate>(&self, outcome: &Outcome, gate: &G) {
        match outcome {
            Outcome::Success(routing, _) => gate.found(self.workspace.problem(), routing),
            Outcome::NotRouted { .. } => gate.left(&self.book),
        }
    }

    /// Returns the outcome of a negotiation that ends here, and calls the gate with it.
    fn end<R: Threads + Wait + Sync, G: Gate>(
        &self,
        rt: &R,
        alloc: Global,
        gate: &G,
    ) -> Result<Outcome, WorkFault>
        ensures outcome { IfOk result (IsOutcomeOf self.now) }
        ensures memory { IfErr result (λ fault. fault ≡ Memory) }
    {
        let outcome = self.outcome(rt, alloc)?;
        self.tell(&outcome, gate);
        Ok(outcome)
    }
}

/// Returns the routing of a book in which each net has a tree and no node is overused, judged again
/// on a copy of the book's problem.
fn success<R: Threads + Wait + Sync>(
    rt: &R,
    alloc: Global,
    problem: &Problem,
    book: &Book,
) -> Result<Routing, AllocError>
    requires problem { problem.now ≡ book.now.problem }
    requires routed { unrouted_of book.now ≡ 0 }
    requires within { overused_of book.now ≡ 0 }
    ensures { IfOk result (λ r. r ≡ book.now.lists) }
{
    let routing = routing_of(alloc, book)?;
    match check_routing(rt, alloc, problem, &routing)? {
        None => Ok(routing),
        Some(_) => unreachable!(),
    }
}

/// Makes iterations until none follows.
fn run<R: Threads + Wait + Sync, G: Gate + Sync>(
    rt: &R,
    alloc: Global,
    problem: Problem,
    settings: &Settings,
    workers: u32,
    gate: &G,
) -> Result<Negotiation, WorkFault>
    requires { (1 ≤ workers) × (workers ≤ most_workers) }
    ensures reached { IfOk result
        (IsReached problem settings.now workers (G.accepted gate.now)) }
    ensures ended { IfOk result (λ n. goes_on settings.now n ≡ false) }
    ensures thread { IfErr result (λ fault. fault ≡ NoThread → 1 < workers) }
    ensures limit { OnOk result (1 ≤ settings.now.iterations) }
{
    let mut negotiation = Negotiation::begin(alloc, problem, settings)?;
    while negotiation.goes_on(settings) {
        negotiation = negotiation.advance(rt, alloc, settings, workers, gate)?;
    }
    Ok(negotiation)
}

/// Negotiates a routing of the problem, on one congestion book. In each iteration this many workers
/// route each net anew, and then the iteration is closed: nodes that stay overused cost more from
/// then on. The negotiation ends when each net has a tree and no node is overused. Otherwise it
/// ends after the iteration in which a net found no path, or after the last one that the settings
/// allow. The gate is called before the first iteration, before each iteration, after its close,
/// and at the end.
///
/// `NoThread`, `Memory` and `Astray` as `iterate` returns them. `Memory` also if it runs out for a
/// copy, a close or the last check. The call waits for the workers.
pub fn negotiate<R: Threads + Wait + Sync, G: Gate + Sync>(
    rt: &R,
    alloc: Global,
    problem: Problem,
    settings: &Settings,
    workers: u32,
    gate: &G,
) -> Result<Outcome, WorkFault>
    requires workers { (1 ≤ workers) × (workers ≤ most_workers) }
    // A success routes the problem. Otherwise the outcome reports what is left.
    ensures outcome { IfOk result (IsOutcome problem settings.now) }
    // The outcome is that of the first state at which iterations by these rules end.
    ensures run { IfOk result
        (EndsNegotiation problem settings.now workers (G.accepted gate.now)) }
    // One worker needs no thread.
    ensures thread { IfErr result (λ fault. fault ≡ NoThread → 1 < workers) }
{
    gate.begins(&problem);
    let negotiation = run(rt, alloc, problem, settings, workers, gate)?;
    negotiation.end(rt, alloc, gate)
}
