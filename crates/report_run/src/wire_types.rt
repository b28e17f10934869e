//! The lines on the types of wire.

ghost use Rattle.std.specs.Prelude.{◌≡◌, ◌<◌, get_or, length};
ghost use Rattle.text_output.specs.Printing.{PrintsTo};
ghost use Rattle.report_run.specs.WireTypes.{no_type, type_line, type_line_at, type_lines};

use crate::text::put_share;
use route_report::WireTypeUse;
use text_output::{ByteSink, Printer};

/// Prints the line of a type.
fn put_type<W: ByteSink>(out: &mut Printer<'_, W>, number: usize, kind: &WireTypeUse)
    ensures { PrintsTo W.ByteSink out.old out.new
        (type_line number kind.now) }
{
    out.push(b"type ");
    out.put_number(number);
    out.push(b" tracks ");
    out.put_number(kind.tracks);
    out.push(b" wires ");
    put_share(out, u64::from(kind.wires_used), u64::from(kind.wires));
    out.push(b" places ");
    put_share(out, kind.places_used, kind.places);
    out.push(b"\n");
}

/// Prints the line of a type in a list.
#[tactic(auto, unfolding(crate::specs::WireTypes::type_line_at))]
fn put_type_at<W: ByteSink>(out: &mut Printer<'_, W>, types: &[WireTypeUse], number: usize)
    requires { number < length types.now }
    ensures { PrintsTo W.ByteSink out.old out.new
        (type_line_at types.now number) }
{
    put_type(out, number, &types[number]);
}

/// Prints the lines of the types.
pub(crate) fn put_types<W: ByteSink>(out: &mut Printer<'_, W>, types: &[WireTypeUse])
    ensures { PrintsTo W.ByteSink out.old out.new (type_lines types.now) }
{
    for number in 0..types.len() {
        put_type_at(out, types, number);
    }
}
