//! Marks on the nodes of a device, made once and used for many checks.

ghost use Rattle.std.specs.Prelude.{◌≡◌, ◌==◌, IfOk};
ghost use Rattle.routing_problem.specs.Nodes.{node_count_of};

use crate::stamps::Stamps;
use routing_problem::Problem;
use std::alloc::{AllocError, Global};
use std::marker::Model;

/// What a check of a tree marks nodes with. Contracts see how many nodes it is for: what an earlier
/// check left in it changes no answer.
#[derive(Debug, Drop)]
pub struct Marks {
    pub(crate) stamps: Stamps,
}

impl Model for Marks {
    ghost use Rattle.std.specs.Prelude.{ℕ};

    ghost Value = { ℕ };

    ghost use Rattle.route_tree.specs.kept.Fields.{count_of};

    ghost view = { count_of };
}

impl Marks {
    /// Marks that fit the problem.
    pub fn new(alloc: Global, problem: &Problem) -> Result<Marks, AllocError>
        ensures { IfOk result (λ m. m ≡ node_count_of problem.now.device) }
    {
        Ok(Marks {
            stamps: Stamps::new(alloc, problem.device().node_count() as usize)?,
        })
    }

    /// Whether they are for as many nodes as the problem's device has.
    pub fn fits(&self, problem: &Problem) -> bool
        ensures { result ≡ (self.now == node_count_of problem.now.device) }
    {
        self.stamps.len() == problem.device().node_count() as usize
    }
}
