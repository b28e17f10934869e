//! A problem with the tables that all searches share.

ghost use Rattle.std.specs.Prelude.{◌≡◌, IfOk};
ghost use Rattle.wave_ground.specs.kept.Tables.{AreTablesOf};

use crate::boxes::{BoundingBox, terminal_boxes};
use routing_problem::{Device, Problem};
use std::alloc::{AllocError, Global};
use std::marker::Model;
use track_groups::{PinDrives, TrackGroups};

/// The tables that all searches over a device share: the groups of its wires, the groups that its
/// output pins drive, and the boxes of its sources and sinks. Contracts see all three.
#[derive(Debug, Drop)]
pub struct SearchTables {
    pub groups: TrackGroups,
    pub drives: PinDrives,
    pub boxes: Vec<BoundingBox>,
}

impl Model for SearchTables {
    ghost use Rattle.wave_ground.specs.kept.Tables.{DeviceTables};

    ghost Value = { DeviceTables };

    ghost view = { λ t. record { groups = t.groups; drives = t.drives; boxes = t.boxes.items } };
}

impl SearchTables {
    /// Makes the tables of a device.
    ///
    /// # Errors
    ///
    /// If memory runs out.
    fn new(alloc: Global, device: &Device) -> Result<SearchTables, AllocError>
        ensures { IfOk result (AreTablesOf device.now) }
    {
        let groups = TrackGroups::new(alloc, device)?;
        let drives = PinDrives::new(alloc, device, &groups)?;
        let boxes = terminal_boxes(alloc, device)?;
        Ok(SearchTables {
            groups,
            drives,
            boxes,
        })
    }
}

/// A problem with the tables that all searches for its nets share. Contracts see the problem.
#[derive(Drop)]
pub struct PreparedProblem {
    problem: Problem,
    tables: SearchTables,
}

impl Model for PreparedProblem {
    ghost use Rattle.routing_problem.specs.Problems.{RoutingProblem};
    ghost use Rattle.wave_ground.specs.kept.Tables.{AreTablesOf};

    ghost Value = { RoutingProblem };

    ghost view = { λ p. p.problem };

    ghost invariant = { λ p. AreTablesOf p.problem.device p.tables };
}

impl PreparedProblem {
    /// Makes the tables of a problem's device.
    ///
    /// # Errors
    ///
    /// If memory runs out.
    pub fn new(alloc: Global, problem: Problem) -> Result<PreparedProblem, AllocError>
        ensures { IfOk result (λ prepared. prepared ≡ problem) }
    {
        let tables = SearchTables::new(alloc, problem.device())?;
        Ok(PreparedProblem { problem, tables })
    }

    /// Returns the problem.
    pub fn problem(&self) -> &Problem
        ensures { result.now ≡ self.now }
    {
        &self.problem
    }

    /// Returns the tables.
    pub fn tables(&self) -> &SearchTables
        ensures { AreTablesOf self.now.device result.now }
    {
        &self.tables
    }
}
