//! Pieces of a report's lines, printed through a buffer.

ghost use Rattle.std.specs.Prelude.{◌≡◌, ◌≤◌, ◌<◌, ◌^◌, max};
ghost use Rattle.text_output.specs.Printing.{PrintsTo};
ghost use Rattle.report_run.specs.Texts.{digit_code, hundredths_left, mean_text, name_text, quotient_text, share_text};

use net_file::Netlist;
use rr_graph::Problem;
use run_inputs::{net_name, number_of_net};
use text_output::{ByteSink, Piece, Printer};

/// Returns a number in one byte: `0` to `9`, `a` to `z` from 10 on, and `*` from 36 on.
pub(crate) fn digit_code(number: u64) -> u8
    ensures { result ≡ digit_code number }
{
    if number < 10 {
        b'0' + number as u8
    } else if number < 36 {
        b'a' - 10 + number as u8
    } else {
        b'*'
    }
}

/// Prints a part and the whole, as in `3 of 8`.
#[tactic(auto, unfolding(crate::specs::Texts::share_text))]
pub(crate) fn put_share<W: ByteSink>(out: &mut Printer<'_, W>, part: u64, whole: u64)
    ensures { PrintsTo W.ByteSink out.old out.new (share_text part whole) }
{
    out.put_pieces(&[
        Piece::LongNumber(part),
        Piece::Text(b" of "),
        Piece::LongNumber(whole),
    ]);
}

/// Returns the remainder of a division in hundredths of the divisor, rounded down.
fn hundredths_left(number: u64, by: u64) -> u64
    requires some { 1 ≤ by }
    requires few { by < 2 ^ 32 }
    ensures { result ≡ hundredths_left number by }
{
    number % by * 100 / by
}

/// Prints a quotient with two decimals.
#[tactic(auto, unfolding(crate::specs::Texts::quotient_text))]
fn put_quotient<W: ByteSink>(out: &mut Printer<'_, W>, number: u64, by: u64)
    requires some { 1 ≤ by }
    requires few { by < 2 ^ 32 }
    ensures { PrintsTo W.ByteSink out.old out.new (quotient_text number by) }
{
    let hundredths = hundredths_left(number, by);
    out.put_pieces(&[
        Piece::LongNumber(number / by),
        Piece::Text(b"."),
        Piece::LongNumber(hundredths / 10),
        Piece::LongNumber(hundredths % 10),
    ]);
}

/// Returns a number of things, or 1 if there are none.
fn some_of(count: u32) -> u64
    ensures most { result ≡ max count 1 }
    ensures some { 1 ≤ result }
    ensures few { result < 2 ^ 32 }
{
    u64::from(count.max(1))
}

/// Prints the mean of this many numbers with this sum.
pub(crate) fn put_mean<W: ByteSink>(out: &mut Printer<'_, W>, sum: u64, count: u32)
    ensures { PrintsTo W.ByteSink out.old out.new (mean_text sum count) }
{
    put_quotient(out, sum, some_of(count));
}

/// Prints the name of a net of the problem, after a blank.
#[tactic(auto, unfolding(crate::specs::Texts::name_text))]
pub fn put_name<W: ByteSink>(
    out: &mut Printer<'_, W>,
    netlist: &Netlist<'_>,
    problem: &Problem,
    net: u32,
)
    ensures { PrintsTo W.ByteSink out.old out.new
        (name_text netlist.now problem.now net) }
{
    let number = number_of_net(problem, net);
    out.put_pieces(&[Piece::Text(b" "), Piece::Text(net_name(netlist, number))]);
}
