//! Lists that follow each other.

ghost use Rattle.std.specs.Prelude.{◌≡◌, ◌++◌, [], ◌∷◌, get_or, IfOk, OnOk};

use std::alloc::{AllocError, Global};
use std::marker::Model;

/// From one place of a list to the one before another.
#[derive(Clone, Copy, Debug)]
pub(crate) struct ListPart {
    pub(crate) start: u32,
    pub(crate) end: u32,
}

/// A place of a list, if it can be kept.
fn place(count: usize) -> Result<u32, AllocError>
    ensures { IfOk result (λ place. place ≡ count) }
{
    match u32::try_from(count) {
        Ok(place) => Ok(place),
        Err(_) => Err(AllocError),
    }
}

/// A list of lists. Contracts see it as that.
#[derive(Debug, Drop)]
pub(crate) struct Rows<T> {
    parts: Vec<ListPart>,
    items: Vec<T>,
}

impl<T> Model for Rows<T> {
    ghost use Rattle.std.specs.Prelude.{List, map, length, All};
    ghost use Rattle.track_groups.specs.kept.ListParts.{part_of, IsListPart};

    ghost Value = { List (List T) };

    ghost view = { λ r. map (part_of r.items.items) r.parts.items };

    ghost invariant = { λ r. All (IsListPart (length r.items.items)) r.parts.items };
}

impl<T: Copy> Rows<T> {
    /// No list.
    pub(crate) fn new(alloc: Global) -> Rows<T>
        ensures { result ≡ [] }
    {
        Rows {
            parts: Vec::new(alloc),
            items: Vec::new(alloc),
        }
    }

    /// Puts one more list after the others.
    ///
    /// # Errors
    ///
    /// Where memory runs out, or the lists have more items than can be counted.
    pub(crate) fn push(&mut self, row: &[T]) -> Result<(), AllocError>
        ensures { OnOk result (self.new ≡ self.old ++ row.now ∷ []) }
    {
        let start = place(self.items.len())?;
        self.items.extend_from_slice(row)?;
        let end = place(self.items.len())?;
        self.parts.push(ListPart { start, end })?;
        Ok(())
    }

    /// One of the lists; an empty one past the last.
    pub(crate) fn row(&self, index: u32) -> &[T]
        ensures { result.now ≡ get_or self.now index [] }
    {
        match self.parts.get(index as usize) {
            None => &[],
            Some(part) => &self.items[part.start as usize..part.end as usize],
        }
    }
}
