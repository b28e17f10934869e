//! What is known of the least width after each width from a first one on was tried.

ghost use Rattle.std.specs.Prelude.{◌≡◌, ◌≤◌, option_copied};
ghost use Rattle.text_output.specs.Printing.{PrintsTo};
ghost use Rattle.runs.specs.Known.{also_untried, between_text, end_text, gap_line, known_from, known_line, least_possible, none_below, one_was, range_text, routed_line, several_were, too_text, tried_text, were_text, widths_word};
ghost use Rattle.runs.specs.kept.Told.{TellsTo};

use crate::bound::PAST_WIDTHS;
use text_output::{ByteSink, Piece, Printer};
use width_search::{LeastWidth, WidthReport};

/// Returns the word for one width or for several.
fn widths_word(first: u32, last: u32) -> &'static [u8]
    ensures { result.now ≡ widths_word first last }
{
    if first == last { b"width " } else { b"widths " }
}

/// Prints one width as the subject of a sentence.
#[tactic(auto, unfolding(crate::specs::Known::one_was))]
fn put_one<W: ByteSink>(out: &mut Printer<'_, W>, width: u32)
    ensures { PrintsTo W.ByteSink out.old out.new (one_was width) }
{
    out.put_pieces(&[Piece::Number(width), Piece::Text(b" was")]);
}

/// Prints the first and the last of several widths as the subject of a sentence.
#[tactic(auto, unfolding(crate::specs::Known::several_were))]
fn put_several<W: ByteSink>(out: &mut Printer<'_, W>, first: u32, last: u32)
    ensures { PrintsTo W.ByteSink out.old out.new
        (several_were first last) }
{
    out.put_pieces(&[
        Piece::Number(first),
        Piece::Text(b" to "),
        Piece::Number(last),
        Piece::Text(b" were"),
    ]);
}

/// Prints a range of widths as the subject of a sentence.
fn put_were<W: ByteSink>(out: &mut Printer<'_, W>, first: u32, last: u32)
    ensures { PrintsTo W.ByteSink out.old out.new
        (were_text first last) }
{
    if first == last {
        put_one(out, first);
    } else {
        put_several(out, first, last);
    }
}

/// Prints a sentence about a range of widths.
fn put_range<W: ByteSink>(out: &mut Printer<'_, W>, first: u32, last: u32, what: &[u8])
    ensures { PrintsTo W.ByteSink out.old out.new
        (range_text first last what.now) }
{
    out.push(widths_word(first, last));
    put_were(out, first, last);
    out.push(what);
}

/// Prints that a range of widths was not tried, after a sentence about others.
fn put_too<W: ByteSink>(out: &mut Printer<'_, W>, first: u32, last: u32)
    ensures { PrintsTo W.ByteSink out.old out.new (too_text first last) }
{
    out.push(b", ");
    put_were(out, first, last);
    out.push(b" not tried");
}

/// Prints which widths below the first were not tried, if some of them are possible.
fn put_also<W: ByteSink>(out: &mut Printer<'_, W>, bound: u32, first: u32)
    ensures { PrintsTo W.ByteSink out.old out.new
        (also_untried bound first) }
{
    if bound < first {
        put_too(out, bound, first - 1);
    }
}

/// Prints which widths were tried and not routed, and which below them were not tried.
fn put_tried<W: ByteSink>(out: &mut Printer<'_, W>, bound: u32, first: u32, past: u32)
    requires { 1 ≤ past }
    ensures { PrintsTo W.ByteSink out.old out.new
        (tried_text bound first past) }
{
    put_range(out, first, past - 1, b" tried and not routed");
    put_also(out, bound, first);
}

/// Prints which widths from the bound on were not routed or not tried.
fn put_between<W: ByteSink>(out: &mut Printer<'_, W>, bound: u32, first: u32, past: u32)
    ensures { PrintsTo W.ByteSink out.old out.new
        (between_text bound first past) }
{
    if first < past {
        put_tried(out, bound, first, past);
    } else {
        put_range(out, bound, first.saturating_sub(1), b" not tried");
    }
}

/// Prints the width below which none is possible.
#[tactic(auto, unfolding(crate::specs::Known::none_below))]
fn put_none_below<W: ByteSink>(out: &mut Printer<'_, W>, bound: u32)
    ensures { PrintsTo W.ByteSink out.old out.new (none_below bound) }
{
    out.put_pieces(&[
        Piece::Text(b"; below "),
        Piece::Number(bound),
        Piece::Text(b" none is possible\n"),
    ]);
}

/// Ends a line, after the width below which none is possible, if there is such a width.
fn put_end<W: ByteSink>(out: &mut Printer<'_, W>, bound: u32)
    ensures { PrintsTo W.ByteSink out.old out.new (end_text bound) }
{
    if bound > 1 {
        put_none_below(out, bound);
    } else {
        out.push(b"\n");
    }
}

/// Prints the line on the widths from the bound on that are less than `past`.
fn put_gap<W: ByteSink>(out: &mut Printer<'_, W>, bound: u32, first: u32, past: u32)
    ensures { PrintsTo W.ByteSink out.old out.new
        (gap_line bound first past) }
{
    put_between(out, bound, first, past);
    put_end(out, bound);
}

/// Prints that a width is the least possible.
#[tactic(auto, unfolding(crate::specs::Known::least_possible))]
fn put_least_possible<W: ByteSink>(out: &mut Printer<'_, W>, width: u32)
    ensures { PrintsTo W.ByteSink out.old out.new
        (least_possible width) }
{
    out.put_pieces(&[
        Piece::Number(width),
        Piece::Text(b" is the least possible width\n"),
    ]);
}

/// Prints what is known if a width was routed.
fn put_routed<W: ByteSink>(out: &mut Printer<'_, W>, bound: u32, first: u32, least: u32)
    ensures { PrintsTo W.ByteSink out.old out.new
        (routed_line bound first least) }
{
    if least == bound {
        put_least_possible(out, least);
    } else {
        put_gap(out, bound, first, least);
    }
}

/// Prints what is known after each width from a first one on was tried.
fn put_line<W: ByteSink>(
    out: &mut Printer<'_, W>,
    bound: u32,
    first: u32,
    least: Option<&LeastWidth>,
)
    ensures { PrintsTo W.ByteSink out.old out.new
        (known_line bound first (option_copied least.entry)) }
{
    match least {
        Some(least) => put_routed(out, bound, first, least.width),
        None => put_gap(out, bound, first, PAST_WIDTHS),
    }
}

/// Prints what is known after each width from the greater of the start and the bound on was tried.
/// Prints nothing if the bound rules out all widths.
fn put_known<W: ByteSink>(out: &mut Printer<'_, W>, start: u32, bound: u32, report: &WidthReport)
    ensures { PrintsTo W.ByteSink out.old out.new
        (known_from start bound report.now.least) }
{
    if bound < PAST_WIDTHS {
        put_line(out, bound, start.max(bound), report.least());
    }
}

/// Writes what is known of the least width after each width from the greater of the start and the
/// bound on was tried, if the sink hasn't broken.
#[inline(never)]
pub(crate) fn tell_known<W: ByteSink>(
    words: &mut W,
    is_broken: &mut bool,
    start: u32,
    bound: u32,
    report: &WidthReport,
)
    ensures { TellsTo W.taken W.failed words.old words.new is_broken.old is_broken.new
        (known_from start bound report.now.least) }
{
    if *is_broken {
        return;
    }
    let mut printer = Printer::new(words);
    put_known(&mut printer, start, bound, report);
    *is_broken = printer.finish().is_err();
}
