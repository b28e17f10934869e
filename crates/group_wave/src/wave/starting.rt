//! How a wave begins, and starts at the nodes of a tree.

ghost use Rattle.std.specs.Prelude.{◌≡◌, ◌<◌, ◌≤◌, ◌↔◌, ℕ, [], get_or, IsTrue, Some};
ghost use Rattle.routing_problem.specs.node.Kind.TheVariants.{Opin};

use super::relaxing::Offer;
use super::{Wave, as_ceiling, bound_over};
use crate::labels::Labels;
use crate::ties::Ties;
use routing_problem::Kind;
use smallvec::SmallVec;
use std::alloc::{AllocError, Global};
use wave_ground::{Ground, Nearest};
use wave_queue::{Key, Queue, QueueEntry, with_bit};

/// Whether a kind is that of output pins.
fn is_output(kind: Option<Kind>) -> bool
    ensures { IsTrue result ↔ (kind ≡ Some Opin) }
{
    match kind {
        Some(Kind::Opin) => true,
        None | Some(Kind::Source | Kind::Sink | Kind::Ipin | Kind::Chanx | Kind::Chany) => false,
    }
}

impl<K: Key> Wave<K> {
    ghost use Rattle.std.specs.Prelude.{length, Contains, IfOk, IsFalse, OnOk};
    ghost use Rattle.routing_problem.specs.Nodes.{kind_of_node};
    ghost use Rattle.track_groups.specs.Groups.{HasPlace};
    ghost use Rattle.wavefront.specs.Space.{HasEdge, IsInside, entry_cost};
    ghost use Rattle.wavefront.specs.kept.Spaces.{node_count};
    ghost use Rattle.wave_ground.specs.kept.Grounds.{IsGround, groups_of};
    ghost use Rattle.group_wave.specs.kept.Labels.{widened};
    ghost use Rattle.group_wave.specs.kept.WaveState.{FAR};
    ghost use Rattle.group_wave.specs.kept.Wave.{IsBest, IsComplete, IsOrigin, IsWave, WentAlong, WentOn, cost_at};
    ghost use Rattle.group_wave.specs.kept.Steps.{Enters, IsStarted, LeadsToSink, MoreOrigins, NoOrigins, SameOrigins, Spreads};
    ghost use Rattle.group_wave.specs.kept.Starts.{IsBestPut, IsCleared, IsLeastCost, IsNearerOf, MayStart, StartsAt, TookDrive};

    /// A wave over this many nodes and groups that reaches no node.
    pub(crate) fn new(alloc: Global, nodes: usize, groups: usize) -> Result<Wave<K>, AllocError>
        ensures rows { IfOk result (λ w. length w.labels ≡ nodes) }
        ensures groups { IfOk result (λ w. length w.known ≡ groups) }
    {
        let labels = Labels::new(alloc, nodes)?;
        let queue = Queue::new(alloc)?;
        let nearest = Nearest::new(alloc, groups)?;
        Ok(Wave {
            labels,
            queue,
            nearest,
            best: K::greatest(),
            ceiling: K::greatest(),
            left_out: false,
            ties: Ties::new(alloc),
        })
    }

    /// Whether it is over this many nodes and groups.
    pub(crate) fn fits(&self, nodes: usize, groups: usize) -> bool
        ensures { IsTrue result ↔ ((length self.now.labels ≡ nodes)
            × (length self.now.known ≡ groups)) }
    {
        self.labels.len() == nodes && self.nearest.len() == groups
    }

    /// The cost above which it looks for no way.
    pub(crate) fn ceiling(&self) -> K {
        self.ceiling
    }

    /// Whether a way may have been left out.
    pub(crate) fn leaves_out(&self) -> bool
        ensures narrow { IsTrue result → K.greatest < FAR }
        ensures all { IsFalse result → self.now.limit ≡ FAR }
    {
        let greatest = K::greatest().wide();
        self.left_out && greatest < u128::MAX
    }

    /// The cost of a node, as it is kept.
    fn cost(&self, node: u32) -> K
        requires { node < length self.now.labels }
        ensures cost { widened K.greatest (K.value result) ≡ cost_at self.now node }
        ensures fits { K.value result ≤ K.greatest }
    {
        self.labels.row(node).cost
    }

    /// Removes all labels and entries.
    fn clear(&mut self, ceiling: K)
        ensures { IsCleared self.old self.new }
    {
        self.labels.clear();
        self.queue.clear();
        self.best = K::greatest();
        self.ceiling = as_ceiling(ceiling);
        self.left_out = false;
    }

    /// Removes all labels and entries, and puts boxes around the sinks. From here on no way that
    /// costs more than the ceiling is looked for, if costs may not fit.
    pub(crate) fn begin(&mut self, ground: &Ground<'_>, ceiling: K) -> Result<(), AllocError>
        requires ground { IsGround ground.now }
        requires rows { length self.old.labels ≡ node_count ground.now.space }
        requires known { length self.old.known ≡ length (groups_of ground.now) }
        ensures wave { OnOk result (IsWave ground.now self.new) }
        ensures complete { OnOk result (IsComplete ground.now self.new) }
        ensures best { OnOk result (IsBest ground.now self.new) }
        ensures origins { OnOk result (NoOrigins self.new) }
        ensures rows { length self.new.labels ≡ length self.old.labels }
        ensures groups { length self.new.known ≡ length self.old.known }
    {
        self.clear(ceiling);
        self.aim(ground)
    }

    /// Offers tracks of a group that an output pin drives the way from it, if the group is inside
    /// the net's box.
    fn drive_tracks(
        &mut self,
        ground: &Ground<'_>,
        pin: u32,
        label: K,
        group: u32,
        tracks: u64,
    ) -> Result<(), AllocError>
        requires ground { IsGround ground.now }
        requires wave { IsWave ground.now self.old }
        requires pin { kind_of_node ground.now.space.device pin ≡ Some Opin }
        requires there { pin < node_count ground.now.space }
        requires from { cost_at self.old pin ≤ K.value label }
        requires near { K.value label < K.greatest }
        requires drive { Contains (get_or ground.now.drives pin [])
            (record { group = group; tracks = tracks }) }
        ensures spreads { OnOk result (Spreads ground.now self.old self.new) }
        ensures took { OnOk result (TookDrive ground.now self.new (K.value label)
            (record { group = group; tracks = tracks })) }
    {
        if tracks == 0 {
            return Ok(());
        }
        if !ground.is_span_inside(ground.group(group).span) {
            return Ok(());
        }
        let offer = Offer {
            label,
            first: pin,
            step: 0,
        };
        self.relax(ground, offer, group, tracks)
    }

    /// Offers the wires that an output pin of a label drives the way from it.
    fn drive(&mut self, ground: &Ground<'_>, pin: u32, label: K) -> Result<(), AllocError>
        requires ground { IsGround ground.now }
        requires wave { IsWave ground.now self.old }
        requires pin { kind_of_node ground.now.space.device pin ≡ Some Opin }
        requires there { pin < node_count ground.now.space }
        requires from { cost_at self.old pin ≤ K.value label }
        requires near { K.value label < K.greatest }
        ensures spreads { OnOk result (Spreads ground.now self.old self.new) }
        ensures went { OnOk result (WentAlong ground.now self.new pin (K.value label)) }
    {
        let drives = ground.drives(pin);
        for drive in drives {
            self.drive_tracks(ground, pin, label, drive.group, drive.tracks)?;
        }
        Ok(())
    }

    /// Lowers an output pin's label, and offers what it drives the way from there.
    fn lower_output(&mut self, ground: &Ground<'_>, pin: u32, cost: K) -> Result<(), AllocError>
        requires ground { IsGround ground.now }
        requires wave { IsWave ground.now self.old }
        requires start { IsOrigin self.old ground.now.space.net.source }
        requires edge { HasEdge ground.now.space ground.now.space.net.source pin }
        requires inside { IsInside ground.now.space pin }
        requires cost { K.value cost ≡ entry_cost ground.now.space pin }
        requires fits { K.value cost < K.greatest }
        requires less { K.value cost < cost_at self.old pin }
        ensures { OnOk result (Enters ground.now self.old self.new 0 pin) }
    {
        self.set(pin, cost, ground.source(), cost)?;
        self.drive(ground, pin, cost)
    }

    /// Offers an output pin the way from the source, and what it drives the way from there.
    fn enter_output(&mut self, ground: &Ground<'_>, pin: u32) -> Result<(), AllocError>
        requires ground { IsGround ground.now }
        requires wave { IsWave ground.now self.old }
        requires start { IsOrigin self.old ground.now.space.net.source }
        requires edge { HasEdge ground.now.space ground.now.space.net.source pin }
        ensures { OnOk result (Enters ground.now self.old self.new 0 pin) }
    {
        if !ground.is_inside(pin) {
            return Ok(());
        }
        let row = self.labels.row(pin);
        let cost = K::cut(ground.cost(pin));
        if cost.is_below(row.cost) {
            return self.lower_output(ground, pin, cost);
        }
        self.keep_least(pin, ground.source(), row, cost);
        Ok(())
    }

    /// Offers all of these output pins the way from the source.
    fn enter_outputs(&mut self, ground: &Ground<'_>, pins: &[u32]) -> Result<(), AllocError>
        requires ground { IsGround ground.now }
        requires wave { IsWave ground.now self.old }
        requires start { IsOrigin self.old ground.now.space.net.source }
        requires edges { (pin : ℕ) → Contains pins.now pin →
            HasEdge ground.now.space ground.now.space.net.source pin }
        ensures spreads { OnOk result (Spreads ground.now self.old self.new) }
        ensures went { OnOk result ((pin : ℕ) → Contains pins.now pin →
            IsInside ground.now.space pin → WentOn ground.now self.new 0 pin) }
    {
        for pin in pins {
            self.enter_output(ground, *pin)?;
        }
        Ok(())
    }

    /// Lets the wave start at the source.
    pub(crate) fn start_source(
        &mut self,
        ground: &Ground<'_>,
        next: &mut SmallVec<u32, 8>,
    ) -> Result<(), AllocError>
        requires ground { IsGround ground.now }
        requires wave { IsWave ground.now self.old }
        requires complete { IsComplete ground.now self.old }
        requires best { IsBest ground.now self.old }
        ensures wave { OnOk result (IsWave ground.now self.new) }
        ensures complete { OnOk result (IsComplete ground.now self.new) }
        ensures best { OnOk result (IsBest ground.now self.new) }
        ensures origins { OnOk result
            (MoreOrigins self.old self.new ground.now.space.net.source) }
    {
        let source = ground.source();
        let label = K::zero();
        self.set(source, label, source, label)?;
        ground.successors(source, next)?;
        self.enter_outputs(ground, next)
    }

    /// Lets the wave start at a wire too.
    fn start_wire(&mut self, ground: &Ground<'_>, wire: u32) -> Result<(), AllocError>
        requires ground { IsGround ground.now }
        requires wave { IsWave ground.now self.old }
        requires complete { IsComplete ground.now self.old }
        requires place { HasPlace ground.now.tables.wires wire }
        ensures { OnOk result (StartsAt ground.now self.old self.new wire) }
    {
        let place = ground.place(wire);
        let _few = ground.group(place.group);
        let wires = self.wires_left(ground, place.group);
        let label = K::zero();
        self.set(wire, label, wire, label)?;
        self.wait(QueueEntry {
            key: label.plus(bound_over(wires)),
            label,
            group: place.group,
            tracks: with_bit(0, place.track),
            is_begun: false,
        })
    }

    /// Lets the wave start at an output pin too.
    pub(crate) fn start_output(&mut self, ground: &Ground<'_>, pin: u32) -> Result<(), AllocError>
        requires ground { IsGround ground.now }
        requires wave { IsWave ground.now self.old }
        requires complete { IsComplete ground.now self.old }
        requires pin { kind_of_node ground.now.space.device pin ≡ Some Opin }
        requires there { pin < node_count ground.now.space }
        ensures starts { OnOk result (StartsAt ground.now self.old self.new pin) }
        ensures best { OnOk result (IsBest ground.now self.old → IsBest ground.now self.new) }
    {
        let label = K::zero();
        self.set(pin, label, pin, label)?;
        self.drive(ground, pin, label)
    }

    /// Lets the wave start at a node of a way too.
    fn start(&mut self, ground: &Ground<'_>, node: u32) -> Result<(), AllocError>
        requires ground { IsGround ground.now }
        requires wave { IsWave ground.now self.old }
        requires complete { IsComplete ground.now self.old }
        requires there { node < node_count ground.now.space }
        requires may { MayStart ground.now self.old node }
        ensures { OnOk result (StartsAt ground.now self.old self.new node) }
    {
        if ground.is_wire(node) {
            return self.start_wire(ground, node);
        }
        if is_output(ground.kind(node)) {
            return self.start_output(ground, node);
        }
        let label = K::zero();
        self.set(node, label, node, label)
    }

    /// Lets the wave start at the nodes of a way to a sink too, the sink first.
    pub(crate) fn start_way(&mut self, ground: &Ground<'_>, way: &[u32]) -> Result<(), AllocError>
        requires ground { IsGround ground.now }
        requires wave { IsWave ground.now self.old }
        requires complete { IsComplete ground.now self.old }
        requires walk { LeadsToSink ground.now way.now }
        ensures started { OnOk result (IsStarted ground.now self.old self.new way.now) }
    {
        let mut left = way.len();
        while left > 0 {
            let node = way[left - 1];
            self.start(ground, node)?;
            left -= 1;
        }
        Ok(())
    }

    /// The lower of a cost and that of a sink, if the wave has yet to take it.
    fn nearer(&self, sink: u32, least: K) -> K
        requires there { sink < length self.now.labels }
        requires fits { K.value least ≤ K.greatest }
        ensures nearer { IsNearerOf self.now sink (widened K.greatest (K.value least))
            (widened K.greatest (K.value result)) }
        ensures fits { K.value result ≤ K.greatest }
    {
        if self.starts_at(sink) {
            return least;
        }
        let cost = self.cost(sink);
        if cost.is_below(least) { cost } else { least }
    }

    /// The cost of the nearest sink that the wave has yet to take.
    fn least_cost(&self, ground: &Ground<'_>) -> K
        requires ground { IsGround ground.now }
        requires wave { IsWave ground.now self.now }
        ensures least { IsLeastCost ground.now self.now (widened K.greatest (K.value result)) }
        ensures fits { K.value result ≤ K.greatest }
    {
        let mut least = K::greatest();
        for sink in ground.sinks() {
            least = self.nearer(*sink, least);
        }
        least
    }

    /// Keeps the cost of the nearest sink.
    fn put_best(&mut self, best: K)
        requires { K.value best ≤ K.greatest }
        ensures { IsBestPut self.old self.new (widened K.greatest (K.value best)) }
    {
        self.best = best;
    }

    /// Finds anew how near the nearest sink is, after this one was taken, and makes the box of the
    /// taken sink narrower, or removes it.
    pub(crate) fn renew(&mut self, ground: &Ground<'_>, sink: u32)
        requires ground { IsGround ground.now }
        requires wave { IsWave ground.now self.old }
        requires complete { IsComplete ground.now self.old }
        ensures wave { IsWave ground.now self.new }
        ensures complete { IsComplete ground.now self.new }
        ensures best { IsBest ground.now self.new }
        ensures origins { SameOrigins self.old self.new }
    {
        let least = self.least_cost(ground);
        self.put_best(least);
        self.narrow(ground, sink);
    }
}
