//! A region of an array's corners, and the border around it.

use crate::masks::{Around, INNER, OUTER};
use std::alloc::{AllocError, Global};

/// How many columns and rows of corners an array has.
#[derive(Clone, Copy, Debug)]
pub(crate) struct Extent {
    pub(crate) columns: u32,
    pub(crate) rows: u32,
}

/// The corners of an array that are in a region, and how many places its border has.
#[derive(Drop)]
pub(crate) struct Region {
    nx: u32,
    ny: u32,
    corners: Vec<bool>,
    places: u32,
}

impl Region {
    /// No corner of an array of these columns and rows.
    pub(crate) fn new(alloc: Global, nx: u32, ny: u32) -> Result<Region, AllocError> {
        let columns = (nx as usize).saturating_add(1);
        let rows = (ny as usize).saturating_add(1);
        let corners = vec![in alloc; false; columns.saturating_mul(rows)]?;
        Ok(Region {
            nx,
            ny,
            corners,
            places: 0,
        })
    }

    /// The columns and rows of corners of the array.
    pub(crate) fn extent(&self) -> Extent {
        Extent {
            columns: self.nx.saturating_add(1),
            rows: self.ny.saturating_add(1),
        }
    }

    /// How many places the border has.
    pub(crate) fn places(&self) -> u32 {
        self.places
    }

    /// Where the corner has its mark.
    fn index(&self, x: u32, y: u32) -> usize {
        let rows = (self.ny as usize).saturating_add(1);
        (x as usize).saturating_mul(rows).saturating_add(y as usize)
    }

    /// Whether the array has the corner.
    fn is_corner(&self, x: u32, y: u32) -> bool {
        x <= self.nx && y <= self.ny
    }

    /// Whether the corner is in the region.
    pub(crate) fn has(&self, x: u32, y: u32) -> bool {
        self.is_corner(x, y)
            && match self.corners.get(self.index(x, y)) {
                Some(is_in) => *is_in,
                None => false,
            }
    }

    /// Whether one of the two corners is in the region, and the other isn't.
    pub(crate) fn parts(&self, one: (u32, u32), other: (u32, u32)) -> bool {
        self.has(one.0, one.1) != self.has(other.0, other.1)
    }

    /// Counts the place from a corner to the next anew, after the first of them changed sides.
    fn recount(&mut self, is_in: bool, x: u32, y: u32) {
        if self.is_corner(x, y) {
            self.places = if self.has(x, y) == is_in {
                self.places.saturating_sub(1)
            } else {
                self.places.saturating_add(1)
            };
        }
    }

    /// Takes the corner into the region, or out of it.
    pub(crate) fn flip(&mut self, x: u32, y: u32) {
        let is_in = !self.has(x, y);
        let at = self.index(x, y);
        if let Some(mark) = self.corners.get_mut(at) {
            *mark = is_in;
        }
        self.recount(is_in, x.wrapping_sub(1), y);
        self.recount(is_in, x, y.wrapping_sub(1));
        self.recount(is_in, x.saturating_add(1), y);
        self.recount(is_in, x, y.saturating_add(1));
    }

    /// The side of the place between two corners; none for one of the border.
    fn between(&self, low: (u32, u32), high: (u32, u32)) -> u8 {
        match (self.has(low.0, low.1), self.has(high.0, high.1)) {
            (true, true) => INNER,
            (false, false) => OUTER,
            _ => 0,
        }
    }

    /// The side of the place above row y at column x.
    fn above(&self, x: u32, y: u32) -> u8 {
        self.between((x.saturating_sub(1), y), (x, y))
    }

    /// The side of the place right of column x at row y.
    fn right(&self, x: u32, y: u32) -> u8 {
        self.between((x, y.saturating_sub(1)), (x, y))
    }

    /// The side of the one place of the pads at (x, y).
    fn of_pads(&self, x: u32, y: u32) -> u8 {
        if x == 0 {
            self.right(0, y)
        } else if x > self.nx {
            self.right(self.nx, y)
        } else if y == 0 {
            self.above(x, 0)
        } else {
            self.above(x, self.ny)
        }
    }

    /// The sides of the places around the block or the pads at (x, y).
    pub(crate) fn around(&self, x: u32, y: u32) -> Around {
        if (1 <= x && x <= self.nx) && (1 <= y && y <= self.ny) {
            Around {
                top: self.above(x, y),
                bottom: self.above(x, y.saturating_sub(1)),
                left: self.right(x.saturating_sub(1), y),
                right: self.right(x, y),
            }
        } else {
            let side = self.of_pads(x, y);
            Around {
                top: side,
                bottom: side,
                left: side,
                right: side,
            }
        }
    }
}
