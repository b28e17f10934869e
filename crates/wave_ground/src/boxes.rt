//! Bounding boxes: the box in which a net is routed, and those around its sinks.

ghost use Rattle.std.specs.Prelude.{◌≡◌, ◌<◌, ℕ, length, IfOk};
ghost use Rattle.wavefront.specs.Boxes.{box_around, box_of_net, box_of_node, box_of_span, box_with, touches};
ghost use Rattle.routing_problem.specs.Problems.{IsProblem, net_in};
ghost use Rattle.wavefront.specs.Boxes as plain;
ghost use Rattle.wave_ground.specs.kept.Boxes.{AreFirstBoxes, IsWidened, box_shared, boxed};

use routing_problem::{Device, Problem, Span};
use std::alloc::{AllocError, Global};

/// Columns from `left` to `right` and rows from `bottom` to `top`, all included.
#[derive(Clone, Copy, Debug, Drop)]
pub struct BoundingBox {
    pub left: u32,
    pub right: u32,
    pub bottom: u32,
    pub top: u32,
}

/// Returns the boxes of a device's sources and sinks, which are its first nodes.
pub(crate) fn terminal_boxes(alloc: Global, device: &Device) -> Result<Vec<BoundingBox>, AllocError>
    ensures { IfOk result (λ boxes. AreFirstBoxes device.now boxes.items) }
{
    let mut boxes = Vec::new(alloc);
    for node in 0..device.first_wire() {
        if !device.is_source(node) && !device.is_sink(node) {
            return Ok(boxes);
        }
        boxes.push(BoundingBox::of_node(device, node))?;
    }
    Ok(boxes)
}

impl BoundingBox {
    /// A box without places: the least box around it and another is the other.
    pub const NOTHING: BoundingBox = BoundingBox {
        left: u32::MAX,
        right: 0,
        bottom: u32::MAX,
        top: 0,
    };

    /// Returns the box of a span.
    fn of_span(span: Span) -> BoundingBox
        ensures { boxed result ≡ box_of_span span }
    {
        BoundingBox {
            left: span.x1,
            right: span.x2,
            bottom: span.y1,
            top: span.y2,
        }
    }

    /// Returns the box of a node.
    pub(crate) fn of_node(device: &Device, node: u32) -> BoundingBox
        ensures { boxed result ≡ box_of_node device.now node }
    {
        match device.span(node) {
            Some(span) => BoundingBox::of_span(span),
            None => BoundingBox {
                left: 0,
                right: 0,
                bottom: 0,
                top: 0,
            },
        }
    }

    /// Returns the box of a node, from the boxes of the device's first nodes if it is one of them.
    pub(crate) fn of_node_in(boxes: &[BoundingBox], device: &Device, node: u32) -> BoundingBox
        requires { AreFirstBoxes device.now boxes.now }
        ensures { boxed result ≡ box_of_node device.now node }
    {
        match boxes.get(node as usize) {
            Some(place) => *place,
            None => BoundingBox::of_node(device, node),
        }
    }

    /// Returns the least box around two.
    pub fn around(self, other: BoundingBox) -> BoundingBox
        ensures { boxed result ≡ box_around (boxed self) (boxed other) }
    {
        BoundingBox {
            left: self.left.min(other.left),
            right: self.right.max(other.right),
            bottom: self.bottom.min(other.bottom),
            top: self.top.max(other.top),
        }
    }

    /// Returns the intersection of two boxes.
    pub fn shared_with(self, other: BoundingBox) -> BoundingBox
        ensures { boxed result ≡ box_shared (boxed self) (boxed other) }
    {
        BoundingBox {
            left: self.left.max(other.left),
            right: self.right.min(other.right),
            bottom: self.bottom.max(other.bottom),
            top: self.top.min(other.top),
        }
    }

    /// Returns the least box around this one and nodes.
    fn with(self, boxes: &[BoundingBox], device: &Device, nodes: &[u32]) -> BoundingBox
        requires { AreFirstBoxes device.now boxes.now }
        ensures { boxed result ≡ box_with device.now (boxed self) nodes.now }
    {
        let mut around = self;
        for node in nodes {
            around = around.around(BoundingBox::of_node_in(boxes, device, *node));
        }
        around
    }

    /// Returns the bounding box of a net's terminals.
    #[tactic(auto, using(crate::proofs::Opened::net_box))]
    pub(crate) fn of_net(boxes: &[BoundingBox], problem: &Problem, net: u32) -> BoundingBox
        requires net { net < length problem.now.nets }
        requires boxes { AreFirstBoxes problem.now.device boxes.now }
        ensures boxed { boxed result
            ≡ box_of_net problem.now.device (net_in problem.now.nets net) }
        ensures limits { IsProblem problem.now }
    {
        let device = problem.device();
        let source = BoundingBox::of_node_in(boxes, device, problem.source(net));
        source.with(boxes, device, problem.sinks(net))
    }

    /// Returns the box with `bb` more columns and rows on each side.
    pub fn widened(self, bb: u32) -> BoundingBox
        ensures { IsWidened bb (boxed self) (boxed result) }
    {
        BoundingBox {
            left: self.left.saturating_sub(bb),
            right: self.right.saturating_add(bb),
            bottom: self.bottom.saturating_sub(bb),
            top: self.top.saturating_add(bb),
        }
    }

    /// Returns whether the box, which was widened, has a place of a span.
    #[inline(always)]
    pub(crate) fn has_place_of(self, span: Span) -> bool
        ensures { (bb : ℕ) (narrow : plain.BoundingBox) → IsWidened bb narrow (boxed self)
            → result ≡ touches bb narrow span }
    {
        span.x1 <= self.right
            && self.left <= span.x2
            && span.y1 <= self.top
            && self.bottom <= span.y2
    }
}
