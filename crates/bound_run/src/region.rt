//! The region of a cut, row by row.

ghost use Rattle.std.specs.Prelude.{◌≡◌, ◌≤◌, ◌+◌, ◌-◌, true, ◌&&◌, nat_lt};
ghost use Rattle.std.specs.List.{flat_map, list_any};
ghost use Rattle.text_output.specs.Printing.{PrintsTo};
ghost use Rattle.rr_graph.specs.Edges.{is_same_corner};
ghost use Rattle.rr_graph.specs.Fabric.{longest_side, numbers_below};
ghost use Rattle.width_bound.specs.Cuts.{has_corner};
ghost use Rattle.bound_run.specs.CutTexts.{begins_run, corner_text, ends_run, has_row, number_if, region_text, row_line, row_text};

use text_output::{ByteSink, Printer};
use width_bound::Cut;

/// Returns whether the corner is among these.
fn is_among(corners: &[(u32, u32)], x: u32, y: u32) -> bool
    ensures { result ≡ list_any (is_same_corner (x, y)) corners.now }
{
    corners.iter().any(|corner| x == corner.0 && y == corner.1)
}

/// Returns whether the corner is in the region.
#[tactic(auto, unfolding(width_bound::specs::Cuts::has_corner))]
fn has_corner(cut: &Cut, x: u32, y: u32) -> bool
    ensures { result ≡ has_corner cut.now (x, y) }
{
    is_among(cut.corners(), x, y)
}

/// Returns whether there is a corner on the left, and it is in the region.
fn has_left(cut: &Cut, x: u32, y: u32) -> bool
    ensures { result ≡ (nat_lt 0 x && has_corner cut.now (x - 1, y)) }
{
    x > 0 && has_corner(cut, x - 1, y)
}

/// Returns whether there is a corner on the right, and it is in the region.
fn has_right(nx: u32, cut: &Cut, x: u32, y: u32) -> bool
    ensures { result ≡ (nat_lt x nx && has_corner cut.now (x + 1, y)) }
{
    x < nx && has_corner(cut, x + 1, y)
}

/// Returns whether a run of the row begins at the corner.
fn begins_run(cut: &Cut, x: u32, y: u32) -> bool
    ensures { result ≡ begins_run cut.now x y }
{
    has_corner(cut, x, y) && !has_left(cut, x, y)
}

/// Returns whether a run of the row ends at the corner.
fn ends_run(nx: u32, cut: &Cut, x: u32, y: u32) -> bool
    ensures { result ≡ ends_run nx cut.now x y }
{
    has_corner(cut, x, y) && !has_right(nx, cut, x, y)
}

/// Prints a number after a mark.
fn put_marked<W: ByteSink>(out: &mut Printer<'_, W>, mark: &[u8], number: u32)
    ensures { PrintsTo W.ByteSink out.old out.new
        (number_if true mark.now number) }
{
    out.push(mark);
    out.put_number(number);
}

/// Prints a number after a mark, if it is to be printed.
fn put_if<W: ByteSink>(out: &mut Printer<'_, W>, is_printed: bool, mark: &[u8], number: u32)
    ensures { PrintsTo W.ByteSink out.old out.new
        (number_if is_printed mark.now number) }
{
    if is_printed {
        put_marked(out, mark, number);
    }
}

/// Prints the beginning or the end of a run at a corner of a row.
fn put_corner<W: ByteSink>(out: &mut Printer<'_, W>, nx: u32, cut: &Cut, y: u32, x: u32)
    ensures { PrintsTo W.ByteSink out.old out.new
        (corner_text nx cut.now y x) }
{
    put_if(out, begins_run(cut, x, y), b" ", x);
    put_if(out, ends_run(nx, cut, x, y), b"-", x);
}

/// Prints the runs of a row.
fn put_runs<W: ByteSink>(out: &mut Printer<'_, W>, nx: u32, cut: &Cut, y: u32)
    requires { nx ≤ longest_side }
    ensures { PrintsTo W.ByteSink out.old out.new
        (flat_map (corner_text nx cut.now y) (numbers_below (nx + 1))) }
{
    for x in 0..nx + 1 {
        put_corner(out, nx, cut, y, x);
    }
}

/// Prints the line of a row.
fn put_row_line<W: ByteSink>(out: &mut Printer<'_, W>, nx: u32, cut: &Cut, y: u32)
    requires { nx ≤ longest_side }
    ensures { PrintsTo W.ByteSink out.old out.new (row_line nx cut.now y) }
{
    out.push(b"corners ");
    out.put_number(y);
    put_runs(out, nx, cut, y);
    out.push(b"\n");
}

/// Returns whether some corner of the row is in the region.
fn has_row(nx: u32, cut: &Cut, y: u32) -> bool
    requires { nx ≤ longest_side }
    ensures { result ≡ has_row nx cut.now y }
{
    (0..nx + 1).any(|x| has_corner(cut, x, y))
}

/// Prints the line of a row, if it has a corner of the region.
fn put_row<W: ByteSink>(out: &mut Printer<'_, W>, nx: u32, cut: &Cut, y: u32)
    requires { nx ≤ longest_side }
    ensures { PrintsTo W.ByteSink out.old out.new (row_text nx cut.now y) }
{
    if has_row(nx, cut, y) {
        put_row_line(out, nx, cut, y);
    }
}

/// Prints the lines of the rows.
pub(crate) fn put_region<W: ByteSink>(out: &mut Printer<'_, W>, nx: u32, ny: u32, cut: &Cut)
    requires columns { nx ≤ longest_side }
    requires rows { ny ≤ longest_side }
    ensures { PrintsTo W.ByteSink out.old out.new
        (region_text nx ny cut.now) }
{
    for y in 0..ny + 1 {
        put_row(out, nx, cut, y);
    }
}
