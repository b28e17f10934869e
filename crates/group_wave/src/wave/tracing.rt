//! The way on which a wave reached a sink.

ghost use Rattle.std.specs.Prelude.{◌≡◌, ◌<◌};

use super::Wave;
use std::alloc::AllocError;
use wave_queue::Key;

impl<K: Key> Wave<K> {
    ghost use Rattle.std.specs.Prelude.{IfOk, [], length, reverse};
    ghost use Rattle.wave_ground.specs.kept.Grounds.{Ground};
    ghost use Rattle.group_wave.specs.kept.Wave.{parent_of};
    ghost use Rattle.group_wave.specs.kept.Steps.{HasReached, IsWayBack};

    /// The node before a node.
    fn parent(&self, node: u32) -> u32
        requires { node < length self.now.labels }
        ensures { result ≡ parent_of self.now node }
    {
        self.labels.row(node).parent
    }

    /// Puts the nodes of the way to a taken sink into the list, and returns the node where the way
    /// starts.
    pub(crate) fn trace(&self, sink: u32, way: &mut Vec<u32>) -> Result<u32, AllocError>
        requires { (g : Ground) × HasReached g self.now sink }
        ensures { IfOk result (λ a. IsWayBack self.now a way.new.items sink) }
    {
        way.clear();
        let start = self.trace_back(sink, way)?;
        way.reverse();
        Ok(start)
    }

    /// Puts the nodes of the way to a sink into the list, the sink first, and returns the node from
    /// which the way starts.
    fn trace_back(&self, sink: u32, way: &mut Vec<u32>) -> Result<u32, AllocError>
        requires sink { (g : Ground) × HasReached g self.now sink }
        requires empty { way.old.items ≡ [] }
        ensures { IfOk result (λ a. IsWayBack self.now a (reverse way.new.items) sink) }
    {
        way.push(sink)?;
        let mut node = self.parent(sink);
        while !self.starts_at(node) {
            way.push(node)?;
            node = self.parent(node);
        }
        Ok(node)
    }
}
