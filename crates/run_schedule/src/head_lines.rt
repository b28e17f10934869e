//! Lines that describe a run, as the heads of a schedule and of a log have them.

ghost use Rattle.std.specs.Prelude.{◌≡◌};
ghost use Rattle.text_output.specs.Printing.{PrintsTo};
ghost use Rattle.run_schedule.specs.HeadLines.{amount_text, entry_text, factors_text, options_text};

use node_cost::Settings;
use text_output::{ByteSink, Piece, Printer};

/// Prints the line of a name and its value.
#[tactic(auto, unfolding(crate::specs::HeadLines::entry_text))]
pub fn put_entry<'a, W: ByteSink>(out: &mut Printer<'_, W>, name: &'a [u8], value: &'a [u8])
    ensures { PrintsTo W.ByteSink out.old out.new
        (entry_text name.now value.now) }
{
    out.put_pieces(&[
        Piece::Text(b"# "),
        Piece::Text(name),
        Piece::Text(b" "),
        Piece::Text(value),
        Piece::Text(b"\n"),
    ]);
}

/// Prints the line of a name, a number and its unit.
#[tactic(auto, unfolding(crate::specs::HeadLines::amount_text))]
pub fn put_amount<'a, W: ByteSink>(
    out: &mut Printer<'_, W>,
    name: &'a [u8],
    amount: u32,
    unit: &'a [u8],
)
    ensures { PrintsTo W.ByteSink out.old out.new
        (amount_text name.now amount unit.now) }
{
    out.put_pieces(&[
        Piece::Text(b"# "),
        Piece::Text(name),
        Piece::Text(b" "),
        Piece::Number(amount),
        Piece::Text(unit),
        Piece::Text(b"\n"),
    ]);
}

/// Prints the present-congestion factors.
fn put_factors<W: ByteSink>(out: &mut Printer<'_, W>, settings: &Settings)
    ensures { PrintsTo W.ByteSink out.old out.new
        (factors_text settings.now) }
{
    put_amount(out, b"first-pres", settings.first(), b" sixteenths");
    put_amount(out, b"init-pres", settings.init(), b" sixteenths");
    put_amount(out, b"mult", settings.mult(), b" sixteenths");
}

/// Prints the options of each negotiation.
pub fn put_options<W: ByteSink>(out: &mut Printer<'_, W>, settings: &Settings)
    ensures { PrintsTo W.ByteSink out.old out.new
        (options_text settings.now) }
{
    put_amount(out, b"iterations", settings.iterations(), b" at most");
    put_factors(out, settings);
    let acc = u32::from(settings.acc());
    put_amount(out, b"acc", acc, b" twentieths of a wire");
    put_amount(out, b"bb", settings.bb(), b" places");
}
