//! The bound of a placed netlist in a search of its widths.

ghost use Rattle.std.specs.Prelude.{◌≡◌, min, true, IfErr, IfOk};
ghost use Rattle.run_inputs.specs.Faults.{is_free};
ghost use Rattle.bound_run.specs.Bounds.{IsTrueOf, width_line};
ghost use Rattle.runs.specs.Known.{first_possible, first_width};
ghost use Rattle.runs.specs.kept.Told.{TellsTo};

use bound_run::{find_bound, has_no_way, printed_width, put_width_line};
use run_inputs::{AppFault, PlacedNetlist};
use std::alloc::Global;
use text_output::{ByteSink, Printer};
use width_bound::CutFigures;

/// One more than the greatest width of a device.
pub(crate) const PAST_WIDTHS: u32 = 257;

/// Returns the figures of a cut of a placed netlist. There is no routing at the widths that they
/// rule out.
pub(crate) fn bound_of(alloc: Global, placed: &PlacedNetlist<'_>) -> Result<CutFigures, AppFault>
    ensures sound { IfOk result (IsTrueOf placed.now) }
    ensures free { IfErr result (λ e. is_free e ≡ true) }
{
    let found = find_bound(alloc, placed)?;
    Ok(found.figures)
}

/// Returns a width, or `PAST_WIDTHS` if that is less.
fn width_or_past(width: usize) -> u32
    ensures { result ≡ min width 257 }
{
    width.min(PAST_WIDTHS as usize) as u32
}

/// Returns the least width that the figures don't rule out, or `PAST_WIDTHS` if they rule out all.
pub(crate) fn first_possible(figures: CutFigures) -> u32
    ensures { result ≡ first_possible figures }
{
    if has_no_way(figures) {
        PAST_WIDTHS
    } else {
        width_or_past(printed_width(figures))
    }
}

/// Returns the first width to try: the greater of the start and the least width that isn't ruled
/// out.
pub(crate) fn first_width(start: u32, figures: CutFigures) -> u32
    ensures { result ≡ first_width start figures }
{
    start.max(first_possible(figures))
}

/// Writes below which width there is no routing, if the sink hasn't broken.
#[inline(never)]
pub(crate) fn tell_bound<W: ByteSink>(words: &mut W, is_broken: &mut bool, figures: CutFigures)
    ensures { TellsTo W.taken W.failed words.old words.new is_broken.old is_broken.new
        (width_line figures) }
{
    if *is_broken {
        return;
    }
    let mut printer = Printer::new(words);
    put_width_line(&mut printer, figures);
    *is_broken = printer.finish().is_err();
}
