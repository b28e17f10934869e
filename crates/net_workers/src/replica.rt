//! A worker's replica of what all nets use. The worker brings it up to date by reading turns
//! without a lock.

ghost use Rattle.std.specs.Prelude.{◌↔◌, ◌≡◌, ◌<◌, ◌++◌, ◌∷◌, [], false, length, replicate, slice_index_or, IfOk, IsTrue, MatchBool};
ghost use Rattle.congestion_book.specs.Contents.{net_count, node_total};
ghost use Rattle.congestion_book.specs.Totals.{ShowsAll};
ghost use Rattle.net_workers.specs.kept.TurnLogs.{book_after};
ghost use Rattle.wavefront.specs.Growth.{space_of};
ghost use Rattle.net_workers.specs.Searches.{IsFoundIn};
ghost use Rattle.net_workers.specs.kept.Routes.{RoutesNet};
ghost use Rattle.net_workers.specs.kept.Pages.{IsSearched};

use crate::board::Board;
use crate::fault::TurnFault;
use crate::had_room::HadRoom;
use crate::history::{Front, Logged};
use crate::page::Page;
use crate::search::Searcher;
use congestion_book::{leave_net, replace_net, return_net};
use gates::Gate;
use group_wave::Scratch;
use node_cost::View;
use route_tree::Tree;
use std::alloc::{AllocError, Global};
use std::marker::Model;

/// The greatest number of turns that a replica reads.
pub(crate) const MOST_TURNS: u64 = 1 << 32;

/// What a search found for a net, a tree or none, and the turns that the search had seen.
#[derive(Drop)]
pub(crate) struct FoundTree<L: Logged> {
    net: u32,
    tree: Option<Tree>,
    seen: Front<L>,
}

impl<L: Logged> Model for FoundTree<L> {
    ghost use Rattle.net_workers.specs.kept.Pages.{IsSearched, Searched};

    ghost Value = { Searched };

    ghost view = { λ f. record { net = f.net; tree = f.tree; log = f.seen } };

    ghost invariant = { λ f. IsSearched L.plan f.net f.tree f.seen };
}

impl<L: Logged> FoundTree<L> {
    fn new(net: u32, tree: Option<Tree>, seen: Front<L>) -> FoundTree<L>
        requires { IsSearched L.plan net tree seen }
        ensures { result.net ≡ net }
    {
        FoundTree { net, tree, seen }
    }

    /// Returns the net.
    pub(crate) fn net(&self) -> u32
        ensures { result ≡ self.now.net }
    {
        self.net
    }

    /// Returns the turns that were seen.
    pub(crate) fn seen(&self) -> &Front<L>
        ensures { result.now ≡ self.now.log }
    {
        &self.seen
    }

    /// Returns a copy of the tree.
    pub(crate) fn copy_tree(&self, alloc: Global) -> Result<Option<Tree>, AllocError>
        ensures { IfOk result (λ tree. tree ≡ self.now.tree) }
    {
        match &self.tree {
            None => Ok(None),
            Some(tree) => Ok(Some(tree.copy(alloc)?)),
        }
    }

    /// Returns the tree, which is what a search finds after the turns that were seen.
    pub(crate) fn into_tree(self) -> Option<Tree>
        ensures tree { result ≡ self.tree }
        ensures found { IsSearched L.plan self.net self.tree self.log }
    {
        let FoundTree { tree, .. } = self;
        tree
    }
}

/// The view of all nets after the first turns of the history, and which nets had one of these
/// turns. Contracts see the turns.
#[derive(Drop)]
pub(crate) struct Replica<L: Logged> {
    view: View,
    turned: Vec<bool>,
    front: Front<L>,
}

impl<L: Logged> Model for Replica<L> {
    ghost use Rattle.std.specs.Prelude.{List};
    ghost use Rattle.net_workers.specs.declared.made_turn.MadeTurn.{MadeTurn};
    ghost use Rattle.net_workers.specs.kept.Pages.{IsReplica};

    ghost Value = { List MadeTurn };

    ghost view = { λ r. r.front };

    ghost invariant = { λ r. IsReplica L.plan r.view r.turned.items r.front };
}

/// Returns whether the net exists and had none of the turns.
fn is_open(turned: &[bool], net: u32) -> bool
    ensures { IsTrue result ↔ (net < length turned.now)
        × (slice_index_or turned.now net false ≡ false) }
{
    turned.get(net as usize) == Some(&false)
}

/// Searches for the tree of a net in this view. Records at which nodes of the tree the others leave
/// room.
fn search_noting<L: Logged, G: Gate>(
    searcher: &Searcher<'_, '_, L, G>,
    net: u32,
    view: &View,
    scratch: &mut Scratch,
    room: &mut HadRoom,
) -> Result<Option<Tree>, TurnFault>
    requires net { net < net_count L.plan.opening }
    requires fits { scratch.old ≡ node_total L.plan.opening }
    ensures found { IfOk result (IsFoundIn
        (space_of L.plan.opening.problem net view.now L.plan.present L.plan.bb)) }
    ensures routes { IfOk result (RoutesNet L.plan.opening.problem net) }
    ensures fits { scratch.new ≡ scratch.old }
{
    let found = searcher.search(net, view, scratch)?;
    room.note(searcher.board, view, &found)?;
    Ok(found)
}

impl<L: Logged> Replica<L> {
    /// Returns a replica that has seen no turn, with a view of all nets as the iteration opens.
    pub(crate) fn new(view: View, turned: Vec<bool>, front: Front<L>) -> Replica<L>
        requires none { front ≡ [] }
        requires shows { ShowsAll L.plan.opening view }
        requires nets { turned.items ≡ replicate (net_count L.plan.opening) false }
        ensures { result ≡ [] }
    {
        Replica {
            view,
            turned,
            front,
        }
    }

    /// Returns the number of turns that it has seen.
    pub(crate) fn len(&self) -> u64
        ensures { result ≡ length self.now }
    {
        self.front.len()
    }

    /// Replays a turn if it comes next, and returns whether it did.
    fn replay(&mut self, board: &Board<'_, L>, page: &Page<L>) -> bool
        ensures { MatchBool result (self.new ≡ self.old ++ page.now.turn ∷ [])
            (self.new ≡ self.old) }
    {
        if self.front.len() >= MOST_TURNS {
            return false;
        }
        if !page.is_next(&self.front) {
            return false;
        }
        let entry = &page.turn().entry;
        let before = board.opening_tree(entry.net);
        replace_net(&mut self.view, entry.net, before, &entry.tree);
        self.turned[entry.net as usize] = true;
        self.front = page.front().again();
        true
    }

    /// Replays the turns that it has not seen, up to this many in all or up to an empty cell.
    pub(crate) fn catch_up(&mut self, board: &Board<'_, L>, turns: u64) {
        for number in self.front.len()..turns {
            let Some(page) = board.page(number) else {
                return;
            };
            if !self.replay(board, page) {
                return;
            }
        }
    }

    /// Returns what a search finds for a net after the turns of the replica, and records at which
    /// nodes of it the others leave room. Returns `Astray` if the net had a turn.
    pub(crate) fn search<G: Gate>(
        &mut self,
        searcher: &Searcher<'_, '_, L, G>,
        net: u32,
        scratch: &mut Scratch,
        room: &mut HadRoom,
    ) -> Result<FoundTree<L>, TurnFault>
        requires fits { scratch.old ≡ node_total L.plan.opening }
        ensures turns { self.new ≡ self.old }
        ensures fits { scratch.new ≡ scratch.old }
    {
        if !is_open(&self.turned, net) {
            return Err(TurnFault::Astray);
        }
        let own = searcher.board.opening_tree(net);
        leave_net(&mut self.view, net, own);
        let found = search_noting(searcher, net, &self.view, scratch, room);
        return_net(&mut self.view, net, own);
        Ok(FoundTree::new(net, found?, self.front.again()))
    }

    /// Returns whether the others have filled a node of what was found for a net since the search,
    /// which recorded where there was room.
    pub(crate) fn is_filled(
        &mut self,
        board: &Board<'_, L>,
        found: &FoundTree<L>,
        room: &HadRoom,
    ) -> bool
        ensures { self.new ≡ self.old }
    {
        let net = found.net;
        if !is_open(&self.turned, net) {
            return false;
        }
        let own = board.opening_tree(net);
        leave_net(&mut self.view, net, own);
        let is_filled = room.is_filled(board, &self.view, &found.tree);
        return_net(&mut self.view, net, own);
        is_filled
    }

    /// Returns the view and the flags, for another iteration.
    pub(crate) fn into_parts(self) -> (View, Vec<bool>) {
        let Replica { view, turned, .. } = self;
        (view, turned)
    }
}
