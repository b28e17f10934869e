//! Values of JSON, and members of an object as lists of parts.

ghost use Rattle.std.specs.Prelude.{◌≡◌};
ghost use Rattle.text_output.specs.Printing.{PrintsTo};
ghost use Rattle.report_run.specs.JsonReport.{bound_json, name_json, name_or_null, share_json};
ghost use Rattle.report_run.specs.kept.Members.{part_text, parts_text};

use crate::json_text::put_string;
use crate::text::put_mean;
use bound_run::{has_no_way, printed_width};
use net_file::Netlist;
use rr_graph::Problem;
use run_inputs::{net_name, number_of_net};
use text_output::{ByteSink, Piece, Printer};
use width_bound::CutFigures;

/// A part of a text of JSON.
#[derive(Clone, Copy, Drop)]
pub(crate) enum Part<'a> {
    /// Bytes as they are.
    Text(&'a [u8]),
    Number(u64),
    /// A part and the whole.
    Share(u64, u64),
    /// The mean of numbers, by their sum and their count.
    Mean(u64, u32),
    /// The bound of the width.
    Bound(CutFigures),
}

/// Prints a part and the whole.
#[tactic(auto, unfolding(crate::specs::JsonReport::share_json))]
pub(crate) fn put_share<W: ByteSink>(out: &mut Printer<'_, W>, part: u64, whole: u64)
    ensures { PrintsTo W.ByteSink out.old out.new (share_json part whole) }
{
    out.put_pieces(&[
        Piece::Text(b"{\"count\":"),
        Piece::LongNumber(part),
        Piece::Text(b",\"of\":"),
        Piece::LongNumber(whole),
        Piece::Text(b"}"),
    ]);
}

/// Prints the width below which there is no routing.
#[tactic(auto, unfolding(crate::specs::JsonReport::bound_json))]
fn put_bound<W: ByteSink>(out: &mut Printer<'_, W>, bound: CutFigures)
    ensures { PrintsTo W.ByteSink out.old out.new (bound_json bound) }
{
    if has_no_way(bound) {
        out.push(b"null");
    } else {
        out.put_number(printed_width(bound));
    }
}

/// Prints a part.
fn put_part<W: ByteSink>(out: &mut Printer<'_, W>, part: &Part<'_>)
    ensures { PrintsTo W.ByteSink out.old out.new (part_text part.now) }
{
    match part {
        Part::Text(bytes) => out.push(bytes),
        Part::Number(number) => out.put_number(*number),
        Part::Share(part, whole) => put_share(out, *part, *whole),
        Part::Mean(sum, count) => put_mean(out, *sum, *count),
        Part::Bound(bound) => put_bound(out, *bound),
    }
}

/// Prints the parts, one after another.
pub(crate) fn put_parts<W: ByteSink>(out: &mut Printer<'_, W>, parts: &[Part<'_>])
    ensures { PrintsTo W.ByteSink out.old out.new (parts_text parts.now) }
{
    for part in parts {
        put_part(out, part);
    }
}

/// Prints the name of a net of the problem.
pub(crate) fn put_name<W: ByteSink>(
    out: &mut Printer<'_, W>,
    netlist: &Netlist<'_>,
    problem: &Problem,
    net: u32,
)
    ensures { PrintsTo W.ByteSink out.old out.new
        (name_json netlist.now problem.now net) }
{
    let number = number_of_net(problem, net);
    put_string(out, net_name(netlist, number));
}

/// Prints the name of a net of the problem, or null.
pub(crate) fn put_name_or_null<W: ByteSink>(
    out: &mut Printer<'_, W>,
    netlist: &Netlist<'_>,
    problem: &Problem,
    net: Option<u32>,
)
    ensures { PrintsTo W.ByteSink out.old out.new
        (name_or_null netlist.now problem.now net) }
{
    match net {
        Some(net) => put_name(out, netlist, problem, net),
        None => out.push(b"null"),
    }
}
