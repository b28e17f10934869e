//! What the workers of a problem's iterations search with.

ghost use Rattle.std.specs.Prelude.{◌≡◌, IfOk, IsTrue};
ghost use Rattle.routing_problem.specs.Nodes.{node_count_of};

use crate::had_room::HadRoom;
use crate::report::{Report, ReportEntry};
use group_wave::Scratch;
use node_cost::View;
use route_tree::Tree;
use routing_problem::Problem;
use std::alloc::{AllocError, Global};
use std::marker::Model;
use wave_ground::PreparedProblem;

/// What a worker searches with. It may be used again, whatever an earlier iteration left in it.
#[derive(Drop)]
pub(crate) struct Tools {
    pub(crate) view: View,
    pub(crate) turned: Vec<bool>,
    pub(crate) room: HadRoom,
    pub(crate) scratch: Scratch,
}

impl Tools {
    /// Returns tools for the nets of a problem.
    fn new(alloc: Global, prepared: &PreparedProblem) -> Result<Tools, AllocError>
        ensures { IfOk result (λ tools. tools.scratch ≡ node_count_of prepared.now.device) }
    {
        let nodes = prepared.problem().device().node_count() as usize;
        Ok(Tools {
            view: View::new(alloc, nodes)?,
            turned: Vec::new(alloc),
            room: HadRoom::new(alloc),
            scratch: Scratch::new(alloc, prepared)?,
        })
    }

    /// Returns whether they are for as many nodes as the problem's device has.
    fn fits(&self, problem: &Problem) -> bool
        ensures { IsTrue result → self.now.scratch ≡ node_count_of problem.now.device }
    {
        self.scratch.fits(problem) && self.view.len() == problem.device().node_count() as usize
    }

    /// Returns the tools that a worker left, if they fit the problem, and otherwise new ones.
    pub(crate) fn fitting(
        alloc: Global,
        prepared: &PreparedProblem,
        left: Option<Tools>,
    ) -> Result<Tools, AllocError>
        ensures { IfOk result (λ tools. tools.scratch ≡ node_count_of prepared.now.device) }
    {
        if let Some(tools) = left {
            if tools.fits(prepared.problem()) {
                return Ok(tools);
            }
        }
        Tools::new(alloc, prepared)
    }
}

/// What the workers of a problem's iterations search with: the problem, prepared for searches; the
/// tools that workers left, kept for those of the next iteration; and the trees with which an
/// iteration opened. Contracts see the problem.
#[derive(Drop)]
pub struct Workspace {
    pub(crate) prepared: PreparedProblem,
    pub(crate) tools: Vec<Tools>,
    pub(crate) trees: Vec<Option<Tree>>,
}

impl Model for Workspace {
    ghost use Rattle.routing_problem.specs.Problems.{RoutingProblem};

    ghost Value = { RoutingProblem };

    ghost view = { λ w. w.prepared };
}

/// Keeps the trees that a worker reports.
fn keep_entries(trees: &mut Vec<Option<Tree>>, report: Report) {
    for entry in report.into_entries() {
        let ReportEntry { net, tree, .. } = entry;
        if (net as usize) < trees.len() {
            trees[net as usize] = tree;
        }
    }
}

impl Workspace {
    /// Returns a workspace of a problem, in which nobody has worked yet.
    ///
    /// # Errors
    ///
    /// If memory ran out.
    pub fn new(alloc: Global, problem: Problem) -> Result<Workspace, AllocError>
        ensures { IfOk result (λ workspace. workspace ≡ problem) }
    {
        let prepared = PreparedProblem::new(alloc, problem)?;
        Ok(Workspace {
            prepared,
            tools: Vec::new(alloc),
            trees: Vec::new(alloc),
        })
    }

    /// Keeps the trees that workers report, so that the next iteration of the book needn't copy
    /// them.
    pub fn keep(&mut self, reports: Vec<Report>)
        ensures { self.new ≡ self.old }
    {
        for report in reports {
            keep_entries(&mut self.trees, report);
        }
    }

    /// Returns the problem.
    pub fn problem(&self) -> &Problem
        ensures { result.now ≡ self.now }
    {
        self.prepared.problem()
    }
}
