//! The widths that a search left out, from the bound of a placed netlist up to the least that was
//! routed.

ghost use Rattle.std.specs.Prelude.{◌≡◌, ℕ, ◌<◌, ◌-◌, true, ◌&&◌, nat_lt, find, List, Some};
ghost use Rattle.std.specs.List.{flat_map};
ghost use Rattle.text_output.specs.Printing.{PrintsTo};
ghost use Rattle.rr_graph.specs.Fabric.{numbers_below};
ghost use Rattle.runs.specs.Untried.{are_several, begins_gap, ends_gap, gap_mark, gap_text, is_tried, is_untried, untried_by, untried_from, untried_line, untried_were, untried_word, upward_advice, width_if};
ghost use Rattle.runs.specs.WidthRun.{PrintsBoundOf, bound_text};
ghost use Rattle.runs.specs.kept.Told.{TellsTo};

use crate::bound::{bound_of, first_possible, tell_bound};
use crate::tried_widths::Widths;
use std::alloc::AllocGlobal;
use text_output::{ByteSink, Piece, Printer};
use width_bound::CutFigures;
use width_search::{Trial, WidthReport};

/// Returns whether a trial was of this width.
fn is_tried(trials: &[Trial], width: u32) -> bool
    ensures { result ≡ is_tried trials.now width }
{
    trials.iter().any(|trial| trial.width == width)
}

/// Returns whether the width is at least the bound and less than `past`, and was not tried.
#[tactic(auto, unfolding(crate::specs::Untried::is_untried))]
fn is_untried(trials: &[Trial], bound: u32, past: u32, width: u32) -> bool
    ensures { result ≡ is_untried trials.now bound past width }
{
    (width >= bound && width < past) && !is_tried(trials, width)
}

/// Returns whether there is a width below, and it was left out.
fn has_lower(trials: &[Trial], bound: u32, past: u32, width: u32) -> bool
    ensures { result ≡ (nat_lt 0 width && is_untried trials.now bound past (width - 1)) }
{
    width > 0 && is_untried(trials, bound, past, width - 1)
}

/// Returns whether a run of widths that were left out begins at the width.
fn begins_gap(trials: &[Trial], bound: u32, past: u32, width: u32) -> bool
    ensures { result ≡ begins_gap trials.now bound past width }
{
    is_untried(trials, bound, past, width) && !has_lower(trials, bound, past, width)
}

/// Returns whether a run of several such widths ends at the width.
fn ends_gap(trials: &[Trial], bound: u32, past: u32, width: u32) -> bool
    requires { width < past }
    ensures { result ≡ ends_gap trials.now bound past width }
{
    (is_untried(trials, bound, past, width) && !begins_gap(trials, bound, past, width))
        && !is_untried(trials, bound, past, width + 1)
}

/// Prints a width after a mark.
fn put_marked<W: ByteSink>(out: &mut Printer<'_, W>, mark: &[u8], width: u32)
    ensures { PrintsTo W.ByteSink out.old out.new
        (width_if true mark.now width) }
{
    out.push(mark);
    out.put_number(width);
}

/// Prints a width after a mark, if it is to be printed.
fn put_if<W: ByteSink>(out: &mut Printer<'_, W>, is_printed: bool, mark: &[u8], width: u32)
    ensures { PrintsTo W.ByteSink out.old out.new
        (width_if is_printed mark.now width) }
{
    if is_printed {
        put_marked(out, mark, width);
    }
}

/// Returns the text before a run that begins at the width.
fn gap_mark(first: u32, width: u32) -> &'static [u8]
    ensures { result.now ≡ gap_mark first width }
{
    if width == first { b"" } else { b", " }
}

/// Prints the beginning or the end of a run at the width.
fn put_width<W: ByteSink>(
    out: &mut Printer<'_, W>,
    trials: &[Trial],
    bound: u32,
    past: u32,
    first: u32,
    width: u32,
)
    requires { width < past }
    ensures { PrintsTo W.ByteSink out.old out.new
        (gap_text trials.now bound past first width) }
{
    let begins = begins_gap(trials, bound, past, width);
    let ends = ends_gap(trials, bound, past, width);
    put_if(out, begins, gap_mark(first, width), width);
    put_if(out, ends, b" to ", width);
}

/// Prints the runs of widths that were left out.
fn put_gaps<W: ByteSink>(
    out: &mut Printer<'_, W>,
    trials: &[Trial],
    bound: u32,
    past: u32,
    first: u32,
)
    ensures { PrintsTo W.ByteSink out.old out.new
        (flat_map (gap_text trials.now bound past first) (numbers_below past)) }
{
    for width in 0..past {
        put_width(out, trials, bound, past, first, width);
    }
}

/// Returns whether a width above the first was left out too.
fn are_several(trials: &[Trial], bound: u32, past: u32, first: u32) -> bool
    ensures { result ≡ are_several trials.now bound past first }
{
    (0..past).any(|width| first < width && is_untried(trials, bound, past, width))
}

/// Returns the word for one width or for several.
fn untried_word(several: bool) -> &'static [u8]
    ensures { result.now ≡ untried_word several }
{
    if several { b"widths " } else { b"width " }
}

/// Returns the text after one width or after several.
fn untried_were(several: bool) -> &'static [u8]
    ensures { result.now ≡ untried_were several }
{
    if several { b" were" } else { b" was" }
}

/// Prints how to try each width from the bound on.
#[tactic(auto, unfolding(crate::specs::Untried::upward_advice))]
fn put_advice<W: ByteSink>(out: &mut Printer<'_, W>, bound: u32)
    ensures { PrintsTo W.ByteSink out.old out.new (upward_advice bound) }
{
    out.put_pieces(&[
        Piece::Text(b" not tried: --upward tries each width from "),
        Piece::Number(bound),
        Piece::Text(b" on\n"),
    ]);
}

/// Prints the line on the widths that were left out. `several` is whether there are several.
fn put_from<W: ByteSink>(
    out: &mut Printer<'_, W>,
    trials: &[Trial],
    bound: u32,
    past: u32,
    first: u32,
    several: bool,
)
    ensures { PrintsTo W.ByteSink out.old out.new
        (untried_from trials.now bound past first several) }
{
    out.push(untried_word(several));
    put_gaps(out, trials, bound, past, first);
    out.push(untried_were(several));
    put_advice(out, bound);
}

/// Prints the line on the widths that were left out. `first` is the least of them.
fn put_first<W: ByteSink>(
    out: &mut Printer<'_, W>,
    trials: &[Trial],
    bound: u32,
    past: u32,
    first: u32,
)
    ensures { PrintsTo W.ByteSink out.old out.new
        (untried_by trials.now bound past (Some first)) }
{
    let several = are_several(trials, bound, past, first);
    put_from(out, trials, bound, past, first, several);
}

/// Returns the least width that was left out, if there is one.
fn first_untried(trials: &[Trial], bound: u32, past: u32) -> Option<u32>
    ensures { result ≡ find (is_untried trials.now bound past) (numbers_below past) }
{
    (0..past).find(|width| is_untried(trials, bound, past, *width))
}

/// Prints which widths from the bound on that are less than `past` were left out, if there are
/// some.
fn put_untried<W: ByteSink>(out: &mut Printer<'_, W>, trials: &[Trial], bound: u32, past: u32)
    ensures { PrintsTo W.ByteSink out.old out.new
        (untried_line trials.now bound past) }
{
    match first_untried(trials, bound, past) {
        Some(first) => put_first(out, trials, bound, past, first),
        None => {}
    }
}

/// Writes which widths from the bound on that are less than `past` were left out, if the sink
/// hasn't broken.
#[inline(never)]
fn tell_untried<W: ByteSink>(
    words: &mut W,
    is_broken: &mut bool,
    trials: &[Trial],
    bound: u32,
    past: u32,
)
    ensures { TellsTo W.taken W.failed words.old words.new is_broken.old is_broken.new
        (untried_line trials.now bound past) }
{
    if *is_broken {
        return;
    }
    let mut printer = Printer::new(words);
    put_untried(&mut printer, trials, bound, past);
    *is_broken = printer.finish().is_err();
}

/// Writes what a bound rules out, and which widths that are less than `past` were left out.
fn tell_widths<W: ByteSink>(
    words: &mut W,
    is_broken: &mut bool,
    trials: &[Trial],
    past: u32,
    figures: CutFigures,
)
    ensures { TellsTo W.taken W.failed words.old words.new is_broken.old is_broken.new
        (bound_text trials.now past figures) }
{
    tell_bound(words, is_broken, figures);
    tell_untried(words, is_broken, trials, first_possible(figures), past);
}

/// Writes below which width a placed netlist has no routing, and which widths from there on that
/// are less than `past` were left out, if that is wanted. If memory runs out, writes nothing.
#[inline(never)]
pub(crate) fn show_bound<T: AllocGlobal, W: ByteSink, G, S>(
    widths: &Widths<'_, '_, '_, T, G, S>,
    report: &WidthReport,
    past: u32,
    is_wanted: bool,
    words: &mut W,
    is_broken: &mut bool,
)
    ensures { (text : List ℕ) × PrintsBoundOf is_wanted widths.now.placed.now
        report.now.trials past text
        × TellsTo W.taken W.failed words.old words.new is_broken.old is_broken.new text }
{
    if !is_wanted {
        return;
    }
    match bound_of(widths.run.rt.alloc(), widths.placed) {
        Ok(figures) => tell_widths(words, is_broken, report.trials(), past, figures),
        Err(_) => {}
    }
}
