//! A wave of labels that spreads from a tree over groups of wires.

ghost use Rattle.std.specs.Prelude.{◌≡◌, ◌<◌, ◌≤◌};
ghost use Rattle.group_wave.specs.kept.WaveState.{FAR};
ghost use Rattle.wavefront.specs.kept.Bounds.{left_over};

mod boxes;
mod expanding;
mod reaching;
mod relaxing;
mod spreading;
mod starting;
mod tracing;

use crate::labels::{LabelRow, Labels};
use crate::ties::Ties;
use route_tree::Row;
use std::alloc::{AllocError, Global};
use std::marker::Model;
use wave_ground::{Ground, Nearest, PIN, WIRE};
use wave_queue::{Key, Queue, QueueEntry};

/// A label for each node, and the entries that wait. Contracts see the record of what counts.
#[derive(Drop)]
pub(crate) struct Wave<K: Key> {
    labels: Labels<K>,
    queue: Queue<K>,
    nearest: Nearest,
    /// The least cost of a way that was found to a sink that the wave has yet to take.
    best: K,
    /// No way that costs more is looked for.
    ceiling: K,
    /// Whether a way may have been left out, since its cost doesn't fit or is above the ceiling.
    left_out: bool,
    /// Which of several ways of equal cost is kept.
    ties: Ties,
}

impl<K: Key> Model for Wave<K> {
    ghost use Rattle.group_wave.specs.kept.WaveState.{Wave};

    ghost Value = { Wave };

    ghost use Rattle.group_wave.specs.kept.WaveFields.{wave_of, IsWaveInside};

    ghost view = { wave_of K.value K.greatest };

    ghost invariant = { IsWaveInside K.value K.greatest };
}

/// A cost as a ceiling. There is none if all costs fit.
fn as_ceiling<K: Key>(cost: K) -> K
    ensures { FAR ≤ K.greatest → K.greatest ≤ K.value result }
{
    if K::greatest().wide() < u128::MAX {
        cost
    } else {
        K::greatest()
    }
}

/// A lower bound on the cost of the rest of a way, over this many wires and an input pin.
fn bound_over<K: Key>(wires: u32) -> K
    ensures { K.value result ≤ left_over wires }
{
    K::cut(WIRE * u128::from(wires) + PIN)
}

impl<K: Key> Wave<K> {
    ghost use Rattle.std.specs.Prelude.{length, OnOk};
    ghost use Rattle.track_groups.specs.Groups.{group_at};
    ghost use Rattle.wave_ground.specs.kept.Boxes.{IsLow, wire_of};
    ghost use Rattle.wave_ground.specs.kept.Grounds.{groups_of};
    ghost use Rattle.wave_queue.specs.kept.Queues.{entry_of};
    ghost use Rattle.group_wave.specs.kept.Labels.{label_of};
    ghost use Rattle.group_wave.specs.kept.Wave.{IsWave, cost_at, label_at, price_of};
    ghost use Rattle.group_wave.specs.kept.Steps.{IsLabelled, IsNoted, IsPushed, KeepsLabel};

    /// Puts a label on a node.
    #[inline(always)]
    fn set(&mut self, node: u32, cost: K, parent: u32, price: K) -> Result<(), AllocError>
        requires there { node < length self.old.labels }
        requires fits { K.value cost < K.greatest }
        ensures set { OnOk result (IsLabelled self.old self.new node
            (record { cost = K.value cost; parent = parent; price = K.value price })) }
        ensures best { self.new.best ≡ self.old.best }
        ensures rows { length self.new.labels ≡ length self.old.labels }
    {
        self.labels.set(node, cost, parent, price)
    }

    /// Lets an entry wait.
    #[inline(always)]
    fn wait(&mut self, entry: QueueEntry<K>) -> Result<(), AllocError>
        requires label { K.value entry.label < K.greatest }
        requires key { K.value entry.key ≤ K.greatest }
        ensures pushed { OnOk result (IsPushed self.old self.new (entry_of K.value entry)) }
        ensures rows { length self.new.labels ≡ length self.old.labels }
    {
        self.queue.push(entry)
    }

    /// Puts another node before one that is reached.
    fn set_parent(&mut self, node: u32, parent: u32)
        requires there { node < length self.old.labels }
        requires reached { cost_at self.old node < FAR }
        ensures set { IsLabelled self.old self.new node (record {
          cost = cost_at self.old node;
          parent = parent;
          price = price_of self.old node;
        }) }
        ensures best { self.new.best ≡ self.old.best }
    {
        self.labels.set_parent(node, parent);
    }

    /// Keeps the way that the ties prefer among those that cost the same, if none costs less than
    /// the offered one. If the offered one doesn't fit, notes that it is left out.
    fn keep_least(&mut self, node: u32, parent: u32, row: LabelRow<K>, cost: K)
        requires there { node < length self.old.labels }
        requires row { label_of K.value K.greatest row ≡ label_at self.old node }
        requires fits { K.value row.cost ≤ K.greatest }
        requires cost { K.value cost ≤ K.greatest }
        requires no_less { K.value row.cost ≤ K.value cost }
        ensures { KeepsLabel self.old self.new node (K.value cost) parent K.greatest }
    {
        if !row.cost.is_below(K::greatest()) {
            self.leave_out();
        } else if !row.cost.is_below(cost) && self.ties.prefers(node, parent, row.parent) {
            self.set_parent(node, parent);
        }
    }

    /// From now on a net keeps to this tree where other ways cost the same, or to none if it has no
    /// rows.
    pub(crate) fn keep_to(&mut self, rows: &[Row]) -> Result<(), AllocError>
        ensures { self.new ≡ self.old }
    {
        let nodes = self.labels.len();
        self.ties.keep_to(rows, nodes)
    }

    /// Notes that something was left out.
    fn leave_out(&mut self)
        ensures noted { IsNoted self.old self.new K.greatest }
        ensures known { self.new.known ≡ self.old.known }
    {
        self.left_out = true;
    }

    /// A lower bound on how many wires lead on from one of a group to the nearest sink.
    #[inline(always)]
    fn wires_left(&mut self, ground: &Ground<'_>, group: u32) -> u32
        requires wave { IsWave ground.now self.old }
        requires group { group < length (groups_of ground.now) }
        ensures low { IsLow self.new.boxes (wire_of (group_at (groups_of ground.now) group))
            result }
        ensures noted { IsNoted self.old self.new FAR }
        ensures wave { IsWave ground.now self.new }
    {
        if let Some(wires) = self.nearest.known(group) {
            return wires;
        }
        self.find_wires(ground, group)
    }

    /// The same, found anew and kept.
    fn find_wires(&mut self, ground: &Ground<'_>, group: u32) -> u32
        requires wave { IsWave ground.now self.old }
        requires group { group < length (groups_of ground.now) }
        ensures low { IsLow self.new.boxes (wire_of (group_at (groups_of ground.now) group))
            result }
        ensures noted { IsNoted self.old self.new FAR }
        ensures wave { IsWave ground.now self.new }
    {
        let sight = self.nearest.fewest(&ground.group(group));
        self.nearest.keep(group, sight);
        u32::from(sight.wires)
    }
}
