//! At which nodes of a tree there was room when the tree was found.

use crate::board::Board;
use crate::history::Logged;
use node_cost::View;
use route_tree::{Row, Tree};
use routing_problem::Device;
use std::alloc::{AllocError, Global};

/// For each row of a tree, whether its node had room when the tree was found.
#[derive(Drop)]
pub(crate) struct HadRoom {
    rows: Vec<bool>,
}

/// Returns whether the other nets of a view leave no room at a node.
fn is_full(device: &Device, view: &View, id: u32) -> bool {
    if id >= device.node_count() || id as usize >= view.len() {
        return false;
    }
    match device.capacity(id) {
        Some(room) => room <= view.others(id),
        None => false,
    }
}

impl HadRoom {
    /// Returns an empty list.
    pub(crate) fn new(alloc: Global) -> HadRoom {
        HadRoom {
            rows: Vec::new(alloc),
        }
    }

    /// Records where the other nets of a view leave room for what was found, if the worker may look
    /// again.
    pub(crate) fn note<L: Logged>(
        &mut self,
        board: &Board<'_, L>,
        view: &View,
        found: &Option<Tree>,
    ) -> Result<(), AllocError> {
        self.rows.clear();
        match found {
            Some(tree) if board.looks() > 0 => {
                self.note_rows(board.prepared().problem().device(), view, tree.as_slice())
            }
            _ => Ok(()),
        }
    }

    fn note_rows(&mut self, device: &Device, view: &View, rows: &[Row]) -> Result<(), AllocError> {
        for row in rows {
            self.rows.push(!is_full(device, view, row.node))?;
        }
        Ok(())
    }

    /// Returns whether a node that had room has none now, because of the other nets of a view.
    pub(crate) fn is_filled<L: Logged>(
        &self,
        board: &Board<'_, L>,
        view: &View,
        tree: &Option<Tree>,
    ) -> bool {
        let Some(tree) = tree else {
            return false;
        };
        let device = board.prepared().problem().device();
        let mut rows = tree.as_slice().iter().zip(self.rows.iter());
        rows.any(|(row, had_room)| *had_room && is_full(device, view, row.node))
    }
}
