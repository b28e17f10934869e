//! How workers search in an iteration.

ghost use Rattle.std.specs.Prelude.{◌≡◌, ◌<◌, ◌≤◌, length, IfOk, IfErr};
ghost use Rattle.congestion_book.specs.Contents.{net_count, node_total};
ghost use Rattle.node_cost.specs.Options.{greatest_present, present_of, most_iterations};
ghost use Rattle.wavefront.specs.Growth.{space_of};
ghost use Rattle.net_workers.specs.Searches.{IsFoundIn};
ghost use Rattle.net_workers.specs.kept.Routes.{RoutesNet};
ghost use Rattle.net_workers.specs.kept.Looks.{greatest_looks, most_looks};
ghost use Rattle.net_workers.specs.declared.fault.TurnFault.TheVariants.{Memory};

use crate::board::Board;
use crate::fault::TurnFault;
use crate::history::Logged;
use gates::Gate;
use group_wave::Scratch;
use node_cost::{Settings, View};
use route_tree::Tree;
use std::alloc::Global;
use wavefront::{Found, SearchFault};

/// The number of times that a worker may look again at a net that it holds.
const MOST_LOOKS: u32 = 4;

/// The number of an iteration and that of its workers, its present-congestion factor, by how much
/// the boxes of nets are widened, whether nets keep to their trees where other ways cost the same,
/// and how many times a worker may look again at a net.
#[derive(Clone, Copy)]
pub(crate) struct SearchOptions {
    pub(crate) iteration: u32,
    pub(crate) workers: u32,
    pub(crate) present: u32,
    pub(crate) bb: u32,
    pub(crate) is_steady: bool,
    pub(crate) looks: u32,
    pub(crate) ghost present_within: { present ≤ greatest_present },
    pub(crate) ghost bb_within: { (1 ≤ bb) × (bb ≤ 255) },
    pub(crate) ghost looks_within: { looks ≤ greatest_looks },
}

/// Returns how many times one of this many workers may look again at a net, in an iteration.
fn looks_of(iteration: u32, workers: u32) -> u32
    ensures exact { result ≡ most_looks iteration workers }
    ensures few { result ≤ greatest_looks }
{
    if iteration == 1 || workers == 1 {
        0
    } else {
        MOST_LOOKS
    }
}

impl SearchOptions {
    /// Returns the options of an iteration, counted from 1, by this many workers.
    pub(crate) fn of(settings: &Settings, iteration: u32, workers: u32) -> SearchOptions
        requires { (1 ≤ iteration) × (iteration ≤ most_iterations) }
        ensures iteration { result.iteration ≡ iteration }
        ensures workers { result.workers ≡ workers }
        ensures present { result.present ≡ present_of settings.now iteration }
        ensures bb { result.bb ≡ settings.now.bb }
        ensures looks { result.looks ≡ most_looks iteration workers }
    {
        SearchOptions {
            iteration,
            workers,
            present: settings.present(iteration),
            bb: settings.bb(),
            is_steady: settings.is_steady(),
            looks: looks_of(iteration, workers),
        }
    }
}

/// What all workers of an iteration search with: the board, the gate that they call, and what gives
/// them memory.
#[derive(Clone, Copy)]
pub(crate) struct Searcher<'a, 'b, L: Logged, G> {
    pub(crate) alloc: Global,
    pub(crate) board: &'a Board<'b, L>,
    pub(crate) gate: &'a G,
}

impl<L: Logged, G: Gate> Searcher<'_, '_, L, G> {
    /// Searches for the tree of a net in this view. Returns the tree, or none if the net is stuck.
    /// In that case the gate is called.
    pub(crate) fn search(
        &self,
        net: u32,
        view: &View,
        scratch: &mut Scratch,
    ) -> Result<Option<Tree>, TurnFault>
        requires net { net < net_count L.plan.opening }
        requires fits { scratch.old ≡ node_total L.plan.opening }
        ensures found { IfOk result (IsFoundIn
            (space_of L.plan.opening.problem net view.now L.plan.present L.plan.bb)) }
        ensures routes { IfOk result (RoutesNet L.plan.opening.problem net) }
        ensures memory { length view.now ≡ node_total L.plan.opening →
            IfErr result (λ fault. fault ≡ Memory) }
        ensures fits { scratch.new ≡ scratch.old }
    {
        match self.board.route(self.alloc, net, view, scratch) {
            Ok(Found::Tree(tree)) => Ok(Some(tree)),
            Ok(Found::NoPath(sink)) => {
                self.gate.stuck(net, sink);
                Ok(None)
            }
            Err(SearchFault::Memory) => Err(TurnFault::Memory),
            Err(SearchFault::ViewSize) => Err(TurnFault::Astray),
        }
    }
}
