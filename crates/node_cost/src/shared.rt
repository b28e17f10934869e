//! Histories that may be shared.

ghost use Rattle.std.specs.Prelude.{◌≡◌, ℕ, ◌≤◌, ◌<◌, ◌^◌, All, length, get_or, set, replicate, IfOk};
ghost use Rattle.std.specs.Arc.{arc_value};

use crate::entry_cost::GREATEST_HISTORY;
use crate::histories::Histories;
use std::alloc::{AllocError, Global};
use std::marker::Model;
use std::sync::Arc;

/// Histories that are shared with others, or its own ones. Contracts see the list of histories.
#[derive(Drop)]
pub(crate) struct SharedHistories {
    shared: Option<Arc<Histories, Global>>,
    /// Histories of as many nodes, in use if none are shared.
    own: Histories,
}

impl Model for SharedHistories {
    ghost use Rattle.std.specs.Prelude.{List, ℕ, ◌≡◌, length};

    ghost Value = { List ℕ };

    ghost use Rattle.node_cost.specs.kept.Fields.{histories_of};

    ghost view = { histories_of };

    ghost invariant = { λ h. length h.own ≡ length (histories_of h) };
}

impl SharedHistories {
    /// Makes histories of 0 for so many nodes.
    pub(crate) fn new(alloc: Global, nodes: usize) -> Result<SharedHistories, AllocError>
        ensures { IfOk result (λ h. h ≡ replicate nodes 0) }
    {
        let own = Histories::new(alloc, nodes)?;
        Ok(SharedHistories { shared: None, own })
    }

    /// Returns the count of nodes.
    pub(crate) fn len(&self) -> usize
        ensures count { result ≡ length self.now }
        ensures bounded { (id : ℕ) → get_or self.now id 0 ≤ GREATEST_HISTORY }
    {
        match &self.shared {
            Some(shared) => shared.len(),
            None => self.own.len(),
        }
    }

    /// Returns the list of histories.
    #[inline(always)]
    pub(crate) fn values(&self) -> &[u64]
        ensures values { result.now ≡ self.now }
        ensures bounded { All (λ k. k ≤ 2 ^ 42) result.now }
    {
        match &self.shared {
            Some(shared) => shared.values(),
            None => self.own.values(),
        }
    }

    /// Sets the history of a node. Others don't see it.
    pub(crate) fn set(&mut self, id: u32, history: u64)
        requires there { id < length self.old }
        requires bounded { history ≤ GREATEST_HISTORY }
        ensures { self.new ≡ set self.old id history }
    {
        if let Some(shared) = &self.shared {
            self.own.copy_from(shared);
            self.shared = None;
        }
        self.own.set(id, history);
    }

    /// Shares histories of as many nodes, or copies them if there are too many sharers.
    pub(crate) fn share(&mut self, histories: &Arc<Histories, Global>)
        requires { length self.old ≡ length (arc_value histories.now) }
        ensures { self.new ≡ arc_value histories.now }
    {
        match Arc::try_clone(histories) {
            Ok(shared) => self.shared = Some(shared),
            Err(_) => {
                self.own.copy_from(histories);
                self.shared = None;
            }
        }
    }
}
