//! Lists of events on a congestion book.

ghost use Rattle.std.specs.Prelude.{◌≡◌, ◌<◌, OnOk, OnErr, IfOk, IfErr};
ghost use Rattle.route_tree.specs.Rows.{pairs_of};
ghost use Rattle.congestion_book.specs.Contents.{IsSound};
ghost use Rattle.congestion_book.specs.Steps.{Commits};
ghost use Rattle.congestion_book.specs.Runs.{Steps, Runs, TakesMemory, StopsAfter};

use crate::book::Book;
use crate::faults::{CloseFault, CommitFault, DrawFault, PassFault};
use node_cost::View;
use route_tree::Tree;
use std::alloc::{AllocError, Global};
use thiserror::Error;

/// What may happen to a book: a call and its arguments.
#[derive(Debug, Drop)]
pub enum Event {
    /// This worker draws.
    Draw(u32),
    /// This worker commits a tree for this net.
    Commit(u32, u32, Tree),
    /// This worker passes this net.
    Pass(u32, u32),
    /// The iteration is closed.
    Close,
}

/// The answer to an event; that to a refused commit is without the tree.
#[derive(Clone, Copy, Debug, PartialEq, Eq)]
pub enum Reply {
    Drawn(Result<Option<u32>, DrawFault>),
    Committed(Result<(), CommitFault>),
    Passed(Result<(), PassFault>),
    Closed(Result<(), CloseFault>),
}

/// Why a list of events was not run to its end.
#[derive(Clone, Copy, Debug, PartialEq, Eq, Error)]
pub enum RunFault {
    /// Memory ran out at an event that takes some, or before all events. This many events, the
    /// first ones, happened, and no other.
    #[error("memory ran out after {0} events")]
    Memory(usize),
}

impl Book {
    /// Lets the events happen, one after another, and gives their replies. The view is that of the
    /// last draw that gave a net, or as it was. Trees are copied. A book is sound after each event.
    pub fn run(
        &mut self,
        alloc: Global,
        events: &[Event],
        view: &mut View,
    ) -> Result<Vec<Reply>, RunFault>
        ensures done { IfOk result
            (λ replies. Runs self.old view.old events.now replies.items self.new view.new) }
        ensures stopped { IfErr result
            (λ fault. StopsAfter self.old view.old events.now fault self.new view.new) }
    {
        let mut replies = match Vec::with_capacity(alloc, events.len()) {
            Ok(replies) => replies,
            Err(_) => return Err(RunFault::Memory(0)),
        };
        for (index, event) in events.iter().enumerate() {
            match self.step(alloc, event, view) {
                Ok(reply) => replies.push_reserved(reply),
                Err(_) => return Err(RunFault::Memory(index)),
            }
        }
        Ok(replies)
    }

    /// Lets an event happen.
    fn step(&mut self, alloc: Global, event: &Event, view: &mut View) -> Result<Reply, AllocError>
        ensures step { IfOk result
            (λ reply. Steps self.old view.old event.now reply self.new view.new) }
        ensures sound { OnOk result (IsSound self.new) }
        ensures refused { OnErr result (self.new ≡ self.old) }
        ensures unseen { OnErr result (view.new ≡ view.old) }
        ensures wants { OnErr result (TakesMemory self.old event.now) }
    {
        match event {
            Event::Draw(worker) => Ok(Reply::Drawn(self.draw(*worker, view))),
            Event::Commit(worker, net, tree) => {
                let tree = tree.copy(alloc)?;
                Ok(Reply::Committed(self.commit_alone(*worker, *net, tree)))
            }
            Event::Pass(worker, net) => Ok(Reply::Passed(self.pass(*worker, *net))),
            Event::Close => match self.close(alloc) {
                Ok(()) => Ok(Reply::Closed(Ok(()))),
                Err(CloseFault::Unfinished(net)) => {
                    Ok(Reply::Closed(Err(CloseFault::Unfinished(net))))
                }
                Err(CloseFault::Full) => Ok(Reply::Closed(Err(CloseFault::Full))),
                Err(CloseFault::Memory) => Err(AllocError),
            },
        }
    }

    /// Commits a tree, which is dropped if it is refused.
    fn commit_alone(&mut self, worker: u32, net: u32, tree: Tree) -> Result<(), CommitFault>
        ensures step { Commits self.old worker net (pairs_of tree) result self.new }
        ensures sound { IsSound self.new }
    {
        match self.commit(worker, net, tree) {
            Ok(()) => Ok(()),
            Err((fault, _tree)) => Err(fault),
        }
    }
}
