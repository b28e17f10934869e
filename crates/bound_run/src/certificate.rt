//! The text of a cut: its figures, its region, its places and its pins.

ghost use Rattle.std.specs.Prelude.{◌≡◌};
ghost use Rattle.text_output.specs.Printing.{PrintsTo};
ghost use Rattle.bound_run.specs.Bounds.{figures_of};
ghost use Rattle.bound_run.specs.CutTexts.{cut_text, head_text, width_text};

use crate::lines::{has_no_way, printed_width};
use crate::pins::put_pins;
use crate::places::put_places;
use crate::region::put_region;
use run_inputs::PlacedNetlist;
use text_output::{ByteSink, Piece, Printer};
use width_bound::{Cut, CutFigures};

/// Prints the width below which there is no routing, or `none` if there is no routing at any width.
pub fn put_width_text<W: ByteSink>(out: &mut Printer<'_, W>, figures: CutFigures)
    ensures { PrintsTo W.ByteSink out.old out.new (width_text figures) }
{
    if has_no_way(figures) {
        out.push(b"none");
    } else {
        out.put_number(printed_width(figures));
    }
}

/// Prints the lines of the figures.
fn put_head<W: ByteSink>(out: &mut Printer<'_, W>, figures: CutFigures)
    ensures { PrintsTo W.ByteSink out.old out.new (head_text figures) }
{
    out.push(b"bound ");
    put_width_text(out, figures);
    out.push(b"\nnets ");
    out.put_number(figures.nets);
    out.push(b"\npins ");
    out.put_number(figures.pins);
    out.push(b"\nplaces ");
    out.put_number(figures.places);
    out.push(b"\n");
}

/// Prints the text of a cut of a placed netlist.
pub(crate) fn put_cut<W: ByteSink>(
    out: &mut Printer<'_, W>,
    placed: &PlacedNetlist<'_>,
    cut: &Cut,
    figures: CutFigures,
)
    requires { figures ≡ figures_of placed.now cut.now }
    ensures { PrintsTo W.ByteSink out.old out.new
        (cut_text placed.now cut.now) }
{
    let placement = placed.placement();
    let nx = placement.nx();
    let ny = placement.ny();
    put_head(out, figures);
    put_region(out, nx, ny, cut);
    put_places(out, cut.places());
    put_pins(out, placed, cut.pins());
}
