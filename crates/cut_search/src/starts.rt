//! Lines and rectangles of corners, from which the search starts.

use crate::draft::Draft;
use crate::region::Extent;
use std::alloc::{AllocError, Global};

/// Into how many parts columns and rows are cut for rectangles.
const PARTS: u32 = 4;

/// The corners of some columns and rows, each from a first one up to one that is not in it.
#[derive(Clone, Copy, Debug)]
pub(crate) struct Rectangle {
    columns: (u32, u32),
    rows: (u32, u32),
}

impl Rectangle {
    /// Whether the corner is in it.
    fn has(self, x: u32, y: u32) -> bool {
        (self.columns.0 <= x && x < self.columns.1) && (self.rows.0 <= y && y < self.rows.1)
    }

    /// Whether its border is one line across the array, or is none.
    fn is_line(self, extent: Extent) -> bool {
        (is_whole(self.rows, extent.rows) && is_at_end(self.columns, extent.columns))
            || (is_whole(self.columns, extent.columns) && is_at_end(self.rows, extent.rows))
    }
}

/// Whether a span has all of them.
fn is_whole(span: (u32, u32), count: u32) -> bool {
    span.0 == 0 && span.1 == count
}

/// Whether a span has the first or the last of them.
fn is_at_end(span: (u32, u32), count: u32) -> bool {
    span.0 == 0 || span.1 == count
}

/// Flips the corners of a column that are to be in the region or out of it.
fn fit_column(draft: &mut Draft, rectangle: Rectangle, x: u32) {
    for y in 0..draft.region.extent().rows {
        if draft.region.has(x, y) != rectangle.has(x, y) {
            draft.flip(x, y);
        }
    }
}

/// Makes the rectangle the region.
pub(crate) fn fit(draft: &mut Draft, rectangle: Rectangle) {
    for x in 0..draft.region.extent().columns {
        fit_column(draft, rectangle, x);
    }
}

/// Adds the lines right of columns.
fn push_right(all: &mut Vec<Rectangle>, extent: Extent) -> Result<(), AllocError> {
    for end in 1..extent.columns {
        all.push(Rectangle {
            columns: (0, end),
            rows: (0, extent.rows),
        })?;
    }
    Ok(())
}

/// Adds the lines above rows.
fn push_above(all: &mut Vec<Rectangle>, extent: Extent) -> Result<(), AllocError> {
    for end in 1..extent.rows {
        all.push(Rectangle {
            columns: (0, extent.columns),
            rows: (0, end),
        })?;
    }
    Ok(())
}

/// The lines across an array.
pub(crate) fn lines(alloc: Global, extent: Extent) -> Result<Vec<Rectangle>, AllocError> {
    let mut all = Vec::new(alloc);
    push_right(&mut all, extent)?;
    push_above(&mut all, extent)?;
    Ok(all)
}

/// Where a part of this many columns or rows begins.
fn part(number: u32, count: u32) -> u32 {
    number.saturating_mul(count) / PARTS
}

/// Adds the spans from one part on.
fn push_spans(spans: &mut Vec<(u32, u32)>, first: u32, count: u32) -> Result<(), AllocError> {
    let begin = part(first, count);
    for last in first..PARTS {
        let end = part(last.saturating_add(1), count);
        if begin < end {
            spans.push((begin, end))?;
        }
    }
    Ok(())
}

/// The spans of columns or rows that begin and end where parts do.
fn spans(alloc: Global, count: u32) -> Result<Vec<(u32, u32)>, AllocError> {
    let mut spans = Vec::new(alloc);
    for first in 0..PARTS {
        push_spans(&mut spans, first, count)?;
    }
    Ok(spans)
}

/// Adds the rectangles of some columns with each span of rows, except lines.
fn push_rectangles(
    all: &mut Vec<Rectangle>,
    columns: (u32, u32),
    spans: &[(u32, u32)],
    extent: Extent,
) -> Result<(), AllocError> {
    for span in spans {
        let rows = *span;
        let rectangle = Rectangle { columns, rows };
        if !rectangle.is_line(extent) {
            all.push(rectangle)?;
        }
    }
    Ok(())
}

/// Adds the rectangles that begin and end where parts do, except lines.
fn add_rectangles(
    alloc: Global,
    all: &mut Vec<Rectangle>,
    extent: Extent,
) -> Result<(), AllocError> {
    let columns = spans(alloc, extent.columns)?;
    let rows = spans(alloc, extent.rows)?;
    for span in &columns {
        push_rectangles(all, *span, &rows, extent)?;
    }
    Ok(())
}

/// The indices of rectangles by what these are worth as regions, the most first; among equal ones
/// the first. What is sorted with each is less the more it is worth.
fn best_first(
    alloc: Global,
    draft: &mut Draft,
    all: &[Rectangle],
) -> Result<Vec<(u64, usize)>, AllocError> {
    let mut order = Vec::new(alloc);
    for at in 0..all.len() {
        fit(draft, all[at]);
        let worth = draft.worth().millionths();
        order.push((u64::MAX.saturating_sub(worth), at))?;
    }
    order.sort()?;
    Ok(order)
}

/// The lines and rectangles of an array, and their order by worth.
#[derive(Drop)]
pub(crate) struct Starts {
    all: Vec<Rectangle>,
    /// This many of them are lines, which come first.
    lines: usize,
    order: Vec<(u64, usize)>,
}

impl Starts {
    /// Those of a draft's array. The draft's region is one of them then.
    pub(crate) fn new(alloc: Global, draft: &mut Draft) -> Result<Starts, AllocError> {
        let extent = draft.region.extent();
        let mut all = lines(alloc, extent)?;
        let lines = all.len();
        add_rectangles(alloc, &mut all, extent)?;
        let order = best_first(alloc, draft, &all)?;
        Ok(Starts { all, lines, order })
    }

    /// The best of the first `end` in the list, as many as are wanted.
    fn best(&self, alloc: Global, end: usize, wanted: usize) -> Result<Vec<Rectangle>, AllocError> {
        let mut best = Vec::new(alloc);
        for (_, at) in &self.order {
            if *at < end && best.len() < wanted {
                if let Some(rectangle) = self.all.get(*at) {
                    best.push(*rectangle)?;
                }
            }
        }
        Ok(best)
    }

    /// The best lines.
    pub(crate) fn best_lines(
        &self,
        alloc: Global,
        wanted: usize,
    ) -> Result<Vec<Rectangle>, AllocError> {
        self.best(alloc, self.lines, wanted)
    }

    /// The best of the lines and the rectangles.
    pub(crate) fn best_of_all(
        &self,
        alloc: Global,
        wanted: usize,
    ) -> Result<Vec<Rectangle>, AllocError> {
        self.best(alloc, self.all.len(), wanted)
    }
}
