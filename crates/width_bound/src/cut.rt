//! Cuts of an array.

ghost use Rattle.std.specs.Prelude.{◌≡◌, false};
ghost use Rattle.std.specs.List.{list_any};
ghost use Rattle.rr_graph.specs.Nodes.{is_same};
ghost use Rattle.width_bound.specs.Cuts.{has_corner, has_place, is_given_up};

use rr_graph::{Kind, Node};
use std::marker::Model;

/// A cut of an array: a region of corners, each by its column and row; places of channels that
/// belong to its border wherever they lie; and pins that are given up. Contracts see the record of
/// the three.
#[derive(Drop)]
pub struct Cut {
    corners: Vec<(u32, u32)>,
    places: Vec<(Kind, u32, u32)>,
    pins: Vec<Node>,
}

impl Model for Cut {
    ghost use Rattle.width_bound.specs.Cuts.{Cut};

    ghost Value = { Cut };

    ghost use Rattle.width_bound.specs.kept.Fields.{cut_inside};

    ghost view = { cut_inside };
}

impl Cut {
    /// The cut of these three.
    pub fn new(corners: Vec<(u32, u32)>, places: Vec<(Kind, u32, u32)>, pins: Vec<Node>) -> Cut
        ensures { result ≡ record {
          corners = corners.items;
          places = places.items;
          pins = pins.items;
        } }
    {
        Cut {
            corners,
            places,
            pins,
        }
    }

    /// The corners of its region.
    pub fn corners(&self) -> &[(u32, u32)]
        ensures { result.now ≡ self.now.corners }
    {
        &self.corners
    }

    /// The places that it has itself.
    pub fn places(&self) -> &[(Kind, u32, u32)]
        ensures { result.now ≡ self.now.places }
    {
        &self.places
    }

    /// The pins that are given up.
    pub fn pins(&self) -> &[Node]
        ensures { result.now ≡ self.now.pins }
    {
        &self.pins
    }
}
