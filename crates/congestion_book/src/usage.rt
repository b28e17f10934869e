//! How many nets use each node, and how many nodes are overused.

ghost use Rattle.std.specs.Prelude.{◌≡◌, ◌≤◌, ◌<◌, ◌+◌, ◌-◌, ◌==◌, ◌++◌, ℕ, All, OnOk, length, get_or, set, replicate, IfOk};
ghost use Rattle.routing_problem.specs.Fabric.{IsFabric};
ghost use Rattle.routing_problem.specs.Nodes.{node_at, node_count_of};
ghost use Rattle.route_tree.specs.kept.Marked.{nodes_of};
ghost use Rattle.route_tree.specs.Usage.{room_of};
ghost use Rattle.congestion_book.specs.Turns.{one_if};
ghost use Rattle.congestion_book.specs.kept.Usage.{overused_by, excess_of, row_by, entry_of, excess_by, times_in, AddsEach, TakesEach, ReplacesEach, HasRoomInPlace};

use node_cost::Counts;
use route_tree::Row;
use routing_problem::Device;
use std::alloc::{AllocError, Global};

/// How many nets use each node of a device, and how many nodes more nets use than they have room
/// for.
#[derive(Drop)]
pub(crate) struct Usage {
    pub(crate) counts: Counts,
    pub(crate) overused: u32,
}

/// Whether a node has room for exactly this many nets. It has room for one at least.
#[tactic(auto, using(crate::proofs::Counting::some_room, route_report::proofs::Overusing::room_is, route_report::proofs::Overusing::no_room))]
fn fills(device: &Device, id: u32, count: u32) -> bool
    requires limits { IsFabric device.now }
    requires there { id < node_count_of device.now }
    ensures { result ≡ (room_of device.now (node_at device.now id) == count) }
{
    if count == 0 {
        return false;
    }
    match device.capacity(id) {
        Some(capacity) => capacity == count,
        None => false,
    }
}

/// 1 if the test holds, else 0.
pub(crate) fn one_if(test: bool) -> u32
    ensures { result ≡ one_if test }
{
    u32::from(test)
}

impl Usage {
    /// Nothing is used.
    pub(crate) fn new(alloc: Global, device: &Device) -> Result<Usage, AllocError>
        ensures counts { IfOk result (λ u. u.counts ≡ replicate (node_count_of device.now) 0) }
        ensures overused { IfOk result (λ u. u.overused ≡ 0) }
    {
        let counts = Counts::new(alloc, device.node_count() as usize)?;
        Ok(Usage {
            counts,
            overused: 0,
        })
    }

    /// One more net uses a node.
    #[tactic(auto, using(crate::proofs::Counting::adds_over, crate::proofs::Counting::overused_few))]
    fn add_node(&mut self, device: &Device, id: u32)
        requires limits { IsFabric device.now }
        requires each { length self.old.counts ≡ node_count_of device.now }
        requires there { id < node_count_of device.now }
        requires room { get_or self.old.counts id 0 < 65535 }
        requires counted { self.old.overused ≡ overused_by device.now self.old.counts }
        ensures counts { self.new.counts ≡
            set self.old.counts id (get_or self.old.counts id 0 + 1) }
        ensures counted { self.new.overused ≡ overused_by device.now self.new.counts }
    {
        let count = self.counts.get(id);
        self.overused += one_if(fills(device, id, count));
        self.counts.add_one(id);
    }

    /// One fewer net uses a node.
    #[tactic(auto, using(crate::proofs::Counting::takes_over, crate::proofs::Counting::takes_within))]
    fn take_node(&mut self, device: &Device, id: u32)
        requires limits { IsFabric device.now }
        requires each { length self.old.counts ≡ node_count_of device.now }
        requires there { id < node_count_of device.now }
        requires used { 1 ≤ get_or self.old.counts id 0 }
        requires counted { self.old.overused ≡ overused_by device.now self.old.counts }
        ensures counts { self.new.counts ≡
            set self.old.counts id (get_or self.old.counts id 0 - 1) }
        ensures counted { self.new.overused ≡ overused_by device.now self.new.counts }
    {
        let count = self.counts.get(id) - 1;
        self.overused -= one_if(fills(device, id, count));
        self.counts.take_one(id);
    }

    /// One more net uses each node of a tree.
    pub(crate) fn add_each(&mut self, device: &Device, rows: &[Row])
        requires limits { IsFabric device.now }
        requires each { length self.old.counts ≡ node_count_of device.now }
        requires there { All (λ r. r.node < node_count_of device.now) rows.now }
        requires room { (a : ℕ) →
            get_or self.old.counts a 0 + times_in (nodes_of rows.now) a ≤ 65535 }
        requires counted { self.old.overused ≡ overused_by device.now self.old.counts }
        ensures counts { AddsEach self.old.counts (nodes_of rows.now) self.new.counts }
        ensures counted { self.new.overused ≡ overused_by device.now self.new.counts }
    {
        for row in rows {
            self.add_node(device, row.node);
        }
    }

    /// One fewer net uses each node of a tree.
    pub(crate) fn take_each(&mut self, device: &Device, rows: &[Row])
        requires limits { IsFabric device.now }
        requires each { length self.old.counts ≡ node_count_of device.now }
        requires there { All (λ r. r.node < node_count_of device.now) rows.now }
        requires used { (a : ℕ) →
            times_in (nodes_of rows.now) a ≤ get_or self.old.counts a 0 }
        requires counted { self.old.overused ≡ overused_by device.now self.old.counts }
        ensures counts { TakesEach self.old.counts (nodes_of rows.now) self.new.counts }
        ensures counted { self.new.overused ≡ overused_by device.now self.new.counts }
    {
        for row in rows {
            self.take_node(device, row.node);
        }
    }

    /// One net uses the nodes of a tree in place of those of the tree before.
    pub(crate) fn replace_each(&mut self, device: &Device, before: &[Row], after: &[Row])
        requires limits { IsFabric device.now }
        requires each { length self.old.counts ≡ node_count_of device.now }
        requires before { All (λ r. r.node < node_count_of device.now) before.now }
        requires after { All (λ r. r.node < node_count_of device.now) after.now }
        requires used { (a : ℕ) →
            times_in (nodes_of before.now) a ≤ get_or self.old.counts a 0 }
        requires room { HasRoomInPlace self.old.counts (nodes_of before.now) (nodes_of after.now) }
        requires counted { self.old.overused ≡ overused_by device.now self.old.counts }
        ensures counts { ReplacesEach self.old.counts
            (nodes_of before.now) (nodes_of after.now) self.new.counts }
        ensures counted { self.new.overused ≡ overused_by device.now self.new.counts }
    {
        self.take_each(device, before);
        self.add_each(device, after);
    }

    /// The overuse of a node: by how many nets more than it has room for it is used. A node has
    /// room for one at least.
    #[tactic(auto, using(crate::proofs::Counting::some_room, route_report::proofs::Overusing::room_is, route_report::proofs::Overusing::no_room))]
    fn excess(&self, device: &Device, id: u32) -> u32
        requires limits { IsFabric device.now }
        requires each { length self.now.counts ≡ node_count_of device.now }
        requires there { id < node_count_of device.now }
        ensures { result ≡ excess_of device.now self.now.counts id }
    {
        let count = self.counts.get(id);
        if count <= 1 {
            return 0;
        }
        match device.capacity(id) {
            Some(capacity) => count.saturating_sub(capacity),
            None => count,
        }
    }

    /// The overuse of all nodes together: by how many nets more than they have room for they are
    /// used.
    #[tactic(auto, using(crate::proofs::Counting::sum_next), unfolding(crate::specs::kept::Usage::excess_by))]
    pub(crate) fn total_excess(&self, device: &Device) -> u64
        requires limits { IsFabric device.now }
        requires each { length self.now.counts ≡ node_count_of device.now }
        ensures { result ≡ excess_by device.now self.now.counts }
    {
        let mut total = 0u64;
        for id in 0..device.node_count() {
            total += u64::from(self.excess(device, id));
        }
        total
    }

    /// The overused nodes, ascending, each with its overuse.
    #[tactic(auto, using(crate::proofs::Rows::row_next))]
    pub(crate) fn row(&self, alloc: Global, device: &Device) -> Result<Vec<(u32, u32)>, AllocError>
        requires limits { IsFabric device.now }
        requires each { length self.now.counts ≡ node_count_of device.now }
        ensures { IfOk result (λ r. r.items ≡ row_by device.now self.now.counts) }
    {
        let mut row = Vec::with_capacity(alloc, self.overused as usize)?;
        for id in 0..device.node_count() {
            push_overuse(&mut row, id, self.excess(device, id))?;
        }
        Ok(row)
    }
}

/// Pushes a node with its overuse, if there is any.
fn push_overuse(row: &mut Vec<(u32, u32)>, id: u32, by: u32) -> Result<(), AllocError>
    ensures { OnOk result (row.new.items ≡ row.old.items ++ entry_of (id, by)) }
{
    if by > 0 {
        row.push((id, by))?;
    }
    Ok(())
}
