//! A worker: it draws nets, searches for their trees, and makes a turn for each.

ghost use Rattle.std.specs.Prelude.{◌≡◌, ◌<◌, [], false, replicate, IfOk};
ghost use Rattle.congestion_book.specs.Contents.{node_total};

use crate::board::Board;
use crate::course::{Course, NumberedTurn};
use crate::fault::TurnFault;
use crate::had_room::HadRoom;
use crate::history::{Front, Logged};
use crate::replica::{FoundTree, MOST_TURNS, Replica};
use crate::search::Searcher;
use crate::share::Share;
use crate::turn_desk::TurnDesk;
use crate::workspace::Tools;
use gates::Gate;
use group_wave::Scratch;
use std::alloc::Global;
use std::marker::Model;
use std::sync::{Mutex, MutexGuard, Wait};
use std::{hint, mem};

/// The number of times that a worker tries before it may sleep.
const MOST_TRIES: u32 = 300;

/// Locks the desk.
fn hold<'a, L: Logged, R: Wait>(
    rt: &R,
    desk: &'a Mutex<TurnDesk<L>>,
) -> MutexGuard<'a, TurnDesk<L>> {
    for _ in 0..MOST_TRIES {
        if let Some(guard) = desk.try_lock() {
            return guard;
        }
        hint::spin_loop();
    }
    desk.lock(rt)
}

/// Waits until this many turns were made. Returns `Astray` if a worker stopped before.
fn await_turns<L: Logged, R: Wait>(
    rt: &R,
    board: &Board<'_, L>,
    course: &Course<'_>,
    turns: u64,
) -> Result<(), TurnFault> {
    for _ in 0..MOST_TRIES {
        if turns == 0 || board.page(turns - 1).is_some() {
            return Ok(());
        }
        hint::spin_loop();
    }
    if course.wait_for(rt, turns) {
        Ok(())
    } else {
        Err(TurnFault::Astray)
    }
}

/// A worker: its share, its replica, what it searches with, and the nets that it drew.
#[derive(Drop)]
pub(crate) struct Worker<L: Logged> {
    share: Share<L>,
    replica: Replica<L>,
    room: HadRoom,
    scratch: Scratch,
    held: Vec<u32>,
}

impl<L: Logged> Model for Worker<L> {
    ghost use Rattle.std.specs.Prelude.{◌≡◌};
    ghost use Rattle.congestion_book.specs.Contents.{node_total};

    ghost Value = { Unit {0} };

    ghost view = { λ w. tt };

    ghost invariant = { λ w. w.scratch ≡ node_total L.plan.opening };
}

impl<L: Logged> Worker<L> {
    /// Returns the worker of a share, which has seen no turn.
    pub(crate) fn new(
        alloc: Global,
        share: Share<L>,
        replica: Replica<L>,
        room: HadRoom,
        scratch: Scratch,
    ) -> Worker<L>
        requires fits { scratch ≡ node_total L.plan.opening }
    {
        Worker {
            share,
            replica,
            room,
            scratch,
            held: Vec::new(alloc),
        }
    }

    /// Returns its number.
    pub(crate) fn number(&self) -> u32 {
        self.share.worker()
    }

    /// Draws the least net that was not drawn. Returns it with the number of turns that were made
    /// by now.
    pub(crate) fn draw(&mut self, desk: &mut TurnDesk<L>) -> Option<(u32, u64)> {
        desk.draw(&mut self.share)
    }

    /// Searches for the tree of a net, after the turns that the replica has seen.
    fn search<G: Gate>(
        &mut self,
        searcher: &Searcher<'_, '_, L, G>,
        net: u32,
    ) -> Result<FoundTree<L>, TurnFault> {
        let Worker {
            replica,
            room,
            scratch,
            ..
        } = self;
        replica.search(searcher, net, scratch, room)
    }

    /// Looks: replays the turns up to now, and returns whether they have filled a node of what was
    /// found.
    fn look(&mut self, board: &Board<'_, L>, found: &FoundTree<L>) -> bool {
        let Worker { replica, room, .. } = self;
        let seen = replica.len();
        replica.catch_up(board, MOST_TURNS);
        replica.len() != seen && replica.is_filled(board, found, room)
    }

    /// Makes the turn with what was found. If it may look and the others have filled a node of what
    /// was found, makes no turn and returns what was found.
    fn try_turn<R: Wait, G: Gate>(
        &mut self,
        rt: &R,
        searcher: &Searcher<'_, '_, L, G>,
        desk: &Mutex<TurnDesk<L>>,
        found: FoundTree<L>,
        may_look: bool,
    ) -> Result<Option<FoundTree<L>>, TurnFault> {
        let board = searcher.board;
        let mut tree = found.copy_tree(searcher.alloc)?;
        if may_look && self.look(board, &found) {
            return Ok(Some(found));
        }
        let mut desk = hold(rt, desk);
        if may_look && desk.len() != self.replica.len() && self.look(board, &found) {
            return Ok(Some(found));
        }
        let made = desk.make_turn(board, &mut self.share, found, &mut tree);
        // the tree that the net had before is freed after the lock is released
        drop(desk);
        if made {
            Ok(None)
        } else {
            Err(TurnFault::Astray)
        }
    }

    /// Makes its turn for a net with what it found. If the others have filled a node of the tree,
    /// it looks and searches again, as often as the board allows.
    fn make_turn_looking<R: Wait, G: Gate>(
        &mut self,
        rt: &R,
        searcher: &Searcher<'_, '_, L, G>,
        desk: &Mutex<TurnDesk<L>>,
        found: FoundTree<L>,
    ) -> Result<(), TurnFault> {
        let mut found = found;
        for _ in 0..searcher.board.looks() {
            let Some(filled) = self.try_turn(rt, searcher, desk, found, true)? else {
                return Ok(());
            };
            searcher.gate.looked(self.share.worker(), filled.net());
            found = self.search(searcher, filled.net())?;
        }
        self.try_turn(rt, searcher, desk, found, false)?;
        Ok(())
    }

    /// Searches for the tree of a net that it drew, after this many turns.
    fn search_drawn<G: Gate>(
        &mut self,
        searcher: &Searcher<'_, '_, L, G>,
        net: u32,
        turns: u64,
    ) -> Result<FoundTree<L>, TurnFault> {
        let worker = self.number();
        searcher.gate.between(worker, net);
        self.replica.catch_up(searcher.board, turns);
        let found = self.search(searcher, net)?;
        searcher.gate.searched(worker, net);
        Ok(found)
    }

    /// Draws a net, or several at once, and holds them. Returns how many turns were made by now, or
    /// `None` if there was no net to draw.
    fn draw_portion<R: Wait>(
        &mut self,
        rt: &R,
        desk: &Mutex<TurnDesk<L>>,
        board: &Board<'_, L>,
    ) -> Result<Option<u64>, TurnFault> {
        let Worker { share, held, .. } = self;
        held.clear();
        let mut desk = hold(rt, desk);
        let Some((net, turns)) = desk.draw(share) else {
            return Ok(None);
        };
        held.push(net)?;
        for _ in 1..board.portions().count(net) {
            let Some((net, _)) = desk.draw(share) else {
                break;
            };
            held.push(net)?;
        }
        Ok(Some(turns))
    }

    /// Draws a net, or several, searches for the tree of each, and makes a turn for it. Returns
    /// false if there was none to draw.
    fn make_turns<R: Wait, G: Gate>(
        &mut self,
        rt: &R,
        searcher: &Searcher<'_, '_, L, G>,
        desk: &Mutex<TurnDesk<L>>,
    ) -> Result<bool, TurnFault> {
        let Some(made) = self.draw_portion(rt, desk, searcher.board)? else {
            return Ok(false);
        };
        let mut seen = made;
        let held = mem::replace(&mut self.held, Vec::new(searcher.alloc));
        for net in held.iter() {
            let found = self.search_drawn(searcher, *net, seen)?;
            self.make_turn_looking(rt, searcher, desk, found)?;
            seen = MOST_TURNS;
        }
        self.held = held;
        Ok(true)
    }

    /// Makes a turn of a schedule in its place, for a net that it drew: waits for the turns that it
    /// has to see, and for those that come before its own. It doesn't look again.
    pub(crate) fn make_scheduled<R: Wait, G: Gate>(
        &mut self,
        rt: &R,
        searcher: &Searcher<'_, '_, L, G>,
        desk: &Mutex<TurnDesk<L>>,
        course: &Course<'_>,
        numbered: NumberedTurn,
    ) -> Result<(), TurnFault> {
        let NumberedTurn { number, turn } = numbered;
        await_turns(rt, searcher.board, course, turn.seen)?;
        let found = self.search_drawn(searcher, turn.net, turn.seen)?;
        await_turns(rt, searcher.board, course, number)?;
        self.try_turn(rt, searcher, desk, found, false)?;
        course.count(rt);
        Ok(())
    }

    /// Returns what it searched with.
    pub(crate) fn into_tools(self) -> Tools {
        let Worker {
            replica,
            room,
            scratch,
            ..
        } = self;
        let (view, turned) = replica.into_parts();
        Tools {
            view,
            turned,
            room,
            scratch,
        }
    }
}

/// Draws nets until there is none, and makes a turn for each. Stops at a refusal. Returns what it
/// searched with.
pub(crate) fn work_through<L: Logged, R: Wait, G: Gate>(
    rt: &R,
    searcher: &Searcher<'_, '_, L, G>,
    desk: &Mutex<TurnDesk<L>>,
    worker: Worker<L>,
) -> Result<Tools, TurnFault> {
    let mut worker = worker;
    for _ in rt.forever() {
        if !worker.make_turns(rt, searcher, desk)? {
            return Ok(worker.into_tools());
        }
    }
    unreachable!()
}
