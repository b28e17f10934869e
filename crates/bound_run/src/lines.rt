//! The lines on a cut.

ghost use Rattle.std.specs.Prelude.{◌≡◌};
ghost use Rattle.text_output.specs.Printing.{PrintsTo};
ghost use Rattle.bound_run.specs.Bounds.{below_line, bound_lines, count_line, has_no_way, width_line, printed_width};

use text_output::{ByteSink, Piece, Printer};
use width_bound::CutFigures;

/// Returns whether more nets are cut than pins are given up, and there is no place for the others.
pub fn has_no_way(figures: CutFigures) -> bool
    ensures { result ≡ has_no_way figures }
{
    figures.places == 0 && figures.pins < figures.nets
}

/// Returns the width below which there is no routing. It is at least 1, which holds for any design.
pub fn printed_width(figures: CutFigures) -> usize
    ensures { result ≡ printed_width figures }
{
    figures.width.max(1)
}

/// Prints the width below which there is no routing.
#[tactic(auto, unfolding(crate::specs::Bounds::below_line))]
fn put_below<W: ByteSink>(out: &mut Printer<'_, W>, width: usize)
    ensures { PrintsTo W.ByteSink out.old out.new (below_line width) }
{
    out.put_pieces(&[
        Piece::Text(b"no routing below width "),
        Piece::LongNumber(width as u64),
        Piece::Text(b"\n"),
    ]);
}

/// Prints below which width there is no routing, as in `no routing below width 4`, or that there is
/// no routing at any width.
pub fn put_width_line<W: ByteSink>(out: &mut Printer<'_, W>, figures: CutFigures)
    ensures { PrintsTo W.ByteSink out.old out.new (width_line figures) }
{
    if has_no_way(figures) {
        out.push(b"no routing at any width\n");
    } else {
        put_below(out, printed_width(figures));
    }
}

/// Prints how many nets are cut, and by how many places and pins.
#[tactic(auto, unfolding(crate::specs::Bounds::count_line))]
fn put_counts<W: ByteSink>(out: &mut Printer<'_, W>, figures: CutFigures)
    ensures { PrintsTo W.ByteSink out.old out.new (count_line figures) }
{
    out.put_pieces(&[
        Piece::LongNumber(figures.nets as u64),
        Piece::Text(b" nets are cut by "),
        Piece::LongNumber(figures.places as u64),
        Piece::Text(b" places of channels and "),
        Piece::LongNumber(figures.pins as u64),
        Piece::Text(b" pins\n"),
    ]);
}

/// Prints the lines on a cut.
pub(crate) fn put_bound<W: ByteSink>(out: &mut Printer<'_, W>, figures: CutFigures)
    ensures { PrintsTo W.ByteSink out.old out.new (bound_lines figures) }
{
    put_width_line(out, figures);
    put_counts(out, figures);
}
