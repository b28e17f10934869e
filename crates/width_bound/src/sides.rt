//! On which side of a cut places and pins lie.

ghost use Rattle.std.specs.Prelude.{◌≡◌, ◌&&◌, ◌||◌, not, slice_get, IfOk};
ghost use Rattle.std.specs.List.{list_any};
ghost use Rattle.rr_graph.specs.Fabric.{is_block};
ghost use Rattle.rr_graph.specs.Edges.{is_same_corner};
ghost use Rattle.rr_graph.specs.Pins.{channels_of_pin, channel_of_pad, channels_beside, is_global_pin, is_marked_global};
ghost use Rattle.rr_graph.specs.Nodes.{is_same};
ghost use Rattle.width_bound.specs.Cuts.{low_end, is_same_place, has_corner, has_place, is_inner, is_outer, is_border, is_beside_inner, is_beside_outer, share_side, is_given_up};
ghost use Rattle.width_bound.specs.kept.Marks.{AreMarks, some_corner, some_place, is_on, is_beside};
ghost use Rattle.width_bound.specs.kept.Terminals.{is_left};

use crate::cut::Cut;
use crate::marks::{corner_marks, place_marks, rank_of_kind};
use crate::terminals::{belongs, has_pin, is_block, is_global_pin, pin_at};
use arch_file::Pin;
use rr_graph::{Device, Kind, Node};
use std::alloc::{AllocError, Global};
use std::marker::Model;

/// Whether the two are one node.
#[tactic(auto, unfolding(node_numbers::specs::Nodes::is_same))]
fn is_same(a: Node, b: Node) -> bool
    ensures { result ≡ is_same a b }
{
    (rank_of_kind(a.kind) == rank_of_kind(b.kind) && a.x == b.x)
        && (a.y == b.y && a.number == b.number)
}

/// Whether the corner is among these.
fn is_among(corners: &[(u32, u32)], x: u32, y: u32) -> bool
    ensures { result ≡ list_any (is_same_corner (x, y)) corners.now }
{
    corners.iter().any(|corner| x == corner.0 && y == corner.1)
}

/// Whether the corner is among these, by their marks if there are some.
fn is_marked(marks: &[bool], corners: &[(u32, u32)], x: u32, y: u32) -> bool
    requires { AreMarks (some_corner corners.now) marks.now }
    ensures { result ≡ list_any (is_same_corner (x, y)) corners.now }
{
    if x < 102 && y < 102 {
        marks[x as usize * 102 + y as usize]
    } else {
        is_among(corners, x, y)
    }
}

/// Whether the place is among these.
fn is_place_among(places: &[(Kind, u32, u32)], kind: Kind, x: u32, y: u32) -> bool
    ensures { result ≡ list_any (is_same_place (kind, x, y)) places.now }
{
    places.iter().any(|place| {
        rank_of_kind(kind) == rank_of_kind(place.0) && (x == place.1 && y == place.2)
    })
}

/// Whether the place is among these, by the marks of its kind if there are some.
fn is_place_marked(marks: &[bool], places: &[(Kind, u32, u32)], kind: Kind, x: u32, y: u32) -> bool
    requires { AreMarks (some_place kind places.now) marks.now }
    ensures { result ≡ list_any (is_same_place (kind, x, y)) places.now }
{
    if x < 102 && y < 102 {
        marks[x as usize * 102 + y as usize]
    } else {
        is_place_among(places, kind, x, y)
    }
}

/// A cut, with marks on its corners and places. Contracts see the cut.
#[derive(Drop)]
pub(crate) struct Sides<'a> {
    cut: &'a Cut,
    corners: Vec<bool>,
    above: Vec<bool>,
    right: Vec<bool>,
}

impl<'a> Model for Sides<'a> {
    ghost use Rattle.width_bound.specs.Cuts.{Cut};

    ghost Value = { Cut };

    ghost use Rattle.width_bound.specs.kept.Fields.{AreMarksOf};

    ghost view = { λ s. s.cut.now };

    ghost invariant = { λ s. AreMarksOf s.cut.now s.corners.items s.above.items s.right.items };
}

impl<'a> Sides<'a> {
    pub(crate) fn new(alloc: Global, cut: &'a Cut) -> Result<Sides<'a>, AllocError>
        ensures { IfOk result (λ s. s ≡ cut.now) }
    {
        let corners = corner_marks(alloc, cut.corners())?;
        let above = place_marks(alloc, Kind::Chanx, cut.places())?;
        let right = place_marks(alloc, Kind::Chany, cut.places())?;
        Ok(Sides {
            cut,
            corners,
            above,
            right,
        })
    }

    /// Whether the corner is in the region.
    #[tactic(auto, unfolding(crate::specs::Cuts::has_corner))]
    fn has_corner(&self, x: u32, y: u32) -> bool
        ensures { result ≡ has_corner self.now (x, y) }
    {
        is_marked(&self.corners, self.cut.corners(), x, y)
    }

    /// Whether the cut has the place itself.
    #[tactic(auto, unfolding(crate::specs::Cuts::has_place))]
    fn has_place(&self, kind: Kind, x: u32, y: u32) -> bool
        ensures { result ≡ has_place self.now (kind, x, y) }
    {
        match kind {
            Kind::Chanx => is_place_marked(&self.above, self.cut.places(), kind, x, y),
            Kind::Chany => is_place_marked(&self.right, self.cut.places(), kind, x, y),
            _ => is_place_among(self.cut.places(), kind, x, y),
        }
    }

    /// Whether the low end of the place is in the region.
    fn has_low_end(&self, kind: Kind, x: u32, y: u32) -> bool
        ensures { result ≡ has_corner self.now (low_end (kind, x, y)) }
    {
        match kind {
            Kind::Chany => self.has_corner(x, y.saturating_sub(1)),
            _ => self.has_corner(x.saturating_sub(1), y),
        }
    }

    /// Whether the place is an inner one.
    #[tactic(auto, unfolding(crate::specs::Cuts::is_inner))]
    fn is_inner(&self, kind: Kind, x: u32, y: u32) -> bool
        ensures { result ≡ is_inner self.now (kind, x, y) }
    {
        !self.has_place(kind, x, y) && (self.has_low_end(kind, x, y) && self.has_corner(x, y))
    }

    /// Whether the place is an outer one.
    #[tactic(auto, unfolding(crate::specs::Cuts::is_outer))]
    fn is_outer(&self, kind: Kind, x: u32, y: u32) -> bool
        ensures { result ≡ is_outer self.now (kind, x, y) }
    {
        !self.has_place(kind, x, y) && !(self.has_low_end(kind, x, y) || self.has_corner(x, y))
    }

    /// Whether the place is of the border.
    #[tactic(auto, unfolding(crate::specs::Cuts::is_border))]
    pub(crate) fn is_border(&self, kind: Kind, x: u32, y: u32) -> bool
        ensures { result ≡ is_border self.now (kind, x, y) }
    {
        !(self.is_inner(kind, x, y) || self.is_outer(kind, x, y))
    }

    /// Whether the place is an inner one, or else whether it is an outer one.
    fn is_on(&self, inner: bool, kind: Kind, x: u32, y: u32) -> bool
        ensures { result ≡ is_on inner self.now (kind, x, y) }
    {
        if inner {
            self.is_inner(kind, x, y)
        } else {
            self.is_outer(kind, x, y)
        }
    }

    /// Whether a place beside the pin of the block at (x, y) is on the side.
    fn is_block_beside(&self, inner: bool, pin: Option<Pin>, x: u32, y: u32) -> bool
        ensures { result ≡ list_any (is_on inner self.now) (channels_of_pin pin x y) }
    {
        match pin {
            None => false,
            Some(pin) => {
                (pin.sides.top && self.is_on(inner, Kind::Chanx, x, y))
                    || (pin.sides.bottom && self.is_on(inner, Kind::Chanx, x, y.saturating_sub(1)))
                    || (pin.sides.right && self.is_on(inner, Kind::Chany, x, y))
                    || (pin.sides.left && self.is_on(inner, Kind::Chany, x.saturating_sub(1), y))
            }
        }
    }

    /// Whether the place beside the pad at (x, y) is on the side.
    fn is_pad_beside(&self, device: &Device, inner: bool, x: u32, y: u32) -> bool
        ensures { result ≡ is_on inner self.now (channel_of_pad device.now x y) }
    {
        if x == 0 {
            self.is_on(inner, Kind::Chany, 0, y)
        } else if x == device.nx() + 1 {
            self.is_on(inner, Kind::Chany, device.nx(), y)
        } else if y == 0 {
            self.is_on(inner, Kind::Chanx, x, 0)
        } else {
            self.is_on(inner, Kind::Chanx, x, device.ny())
        }
    }

    /// Whether a place beside the pin is on the side.
    #[tactic(auto, unfolding(channel_tables::specs::Pins::channels_beside, crate::specs::Cuts::is_beside_inner, crate::specs::Cuts::is_beside_outer))]
    fn is_beside(&self, device: &Device, inner: bool, pin: Node) -> bool
        ensures { result ≡ is_beside inner device.now self.now pin }
    {
        !is_global_pin(device, pin)
            && (if is_block(device, pin.x, pin.y) {
                self.is_block_beside(inner, pin_at(device, pin.number), pin.x, pin.y)
            } else {
                self.is_pad_beside(device, inner, pin.x, pin.y)
            })
    }

    /// Whether both pins are beside inner places, or both beside outer ones.
    pub(crate) fn share_side(&self, device: &Device, output: Node, input: Node) -> bool
        ensures { result ≡ share_side device.now self.now output input }
    {
        (self.is_beside(device, true, output) && self.is_beside(device, true, input))
            || (self.is_beside(device, false, output) && self.is_beside(device, false, input))
    }

    /// Whether the cut gives up the pin.
    #[tactic(auto, unfolding(crate::specs::Cuts::is_given_up))]
    fn is_given_up(&self, pin: Node) -> bool
        ensures { result ≡ is_given_up self.now pin }
    {
        self.cut.pins().iter().any(|other| is_same(pin, *other))
    }

    /// Whether the pin or pad of this number is of the kind and of the terminal, and the cut
    /// doesn't give it up.
    pub(crate) fn is_left(&self, device: &Device, kind: Kind, terminal: Node, number: u32) -> bool
        ensures { result ≡ is_left device.now self.now kind terminal number }
    {
        let pin = Node {
            kind,
            x: terminal.x,
            y: terminal.y,
            number,
        };
        has_pin(device, kind, terminal.x, terminal.y, number)
            && (belongs(device, pin, terminal) && !self.is_given_up(pin))
    }
}
