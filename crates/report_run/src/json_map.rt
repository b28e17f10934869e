//! The member of a report in JSON that a map asks for.

ghost use Rattle.std.specs.Prelude.{◌≡◌, decimal};
ghost use Rattle.std.specs.List.{flat_map};
ghost use Rattle.text_output.specs.Printing.{PrintsTo};
ghost use Rattle.report_run.specs.Json.{filled, next_item};
ghost use Rattle.report_run.specs.JsonReport.{map_json, map_member, numbers_json, occupancies_json, occupied_json};
ghost use Rattle.report_run.specs.kept.Members.{before};

use route_report::ChannelUse;
use text_output::{ByteSink, Printer};

/// Prints a number after another one.
fn put_next_number<W: ByteSink>(out: &mut Printer<'_, W>, number: u64)
    ensures { PrintsTo W.ByteSink out.old out.new
        (next_item decimal number) }
{
    out.push(b",");
    out.put_number(number);
}

/// Prints numbers after another one.
fn put_more_numbers<W: ByteSink>(out: &mut Printer<'_, W>, numbers: &[u64])
    ensures { PrintsTo W.ByteSink out.old out.new
        (flat_map (next_item decimal) numbers.now) }
{
    for number in numbers {
        put_next_number(out, *number);
    }
}

/// Prints one or more numbers.
fn put_filled_numbers<W: ByteSink>(out: &mut Printer<'_, W>, first: u64, rest: &[u64])
    ensures { PrintsTo W.ByteSink out.old out.new
        (filled decimal first rest.now) }
{
    out.push(b"[");
    out.put_number(first);
    put_more_numbers(out, rest);
    out.push(b"]");
}

/// Prints numbers.
fn put_numbers<W: ByteSink>(out: &mut Printer<'_, W>, numbers: &[u64])
    ensures { PrintsTo W.ByteSink out.old out.new
        (numbers_json numbers.now) }
{
    match numbers.split_first() {
        Some((first, rest)) => put_filled_numbers(out, *first, rest),
        None => out.push(b"[]"),
    }
}

/// Prints the occupancies of a channel.
fn put_occupied<W: ByteSink>(out: &mut Printer<'_, W>, channel: &ChannelUse)
    ensures { PrintsTo W.ByteSink out.old out.new
        (occupied_json channel.now) }
{
    put_numbers(out, &channel.occupied);
}

/// Prints the occupancies of a channel after another one.
fn put_next_occupied<W: ByteSink>(out: &mut Printer<'_, W>, channel: &ChannelUse)
    ensures { PrintsTo W.ByteSink out.old out.new
        (next_item occupied_json channel.now) }
{
    out.push(b",");
    put_occupied(out, channel);
}

/// Prints the occupancies of channels after another one.
fn put_more_occupied<W: ByteSink>(out: &mut Printer<'_, W>, channels: &[ChannelUse])
    ensures { PrintsTo W.ByteSink out.old out.new
        (flat_map (next_item occupied_json) channels.now) }
{
    for channel in channels {
        put_next_occupied(out, channel);
    }
}

/// Prints the occupancies of one or more channels.
fn put_filled_occupancies<W: ByteSink>(
    out: &mut Printer<'_, W>,
    first: &ChannelUse,
    rest: &[ChannelUse],
)
    ensures { PrintsTo W.ByteSink out.old out.new
        (filled occupied_json first.now rest.now) }
{
    out.push(b"[");
    put_occupied(out, first);
    put_more_occupied(out, rest);
    out.push(b"]");
}

/// Prints the occupancies of the channels.
fn put_occupancies<W: ByteSink>(out: &mut Printer<'_, W>, channels: &[ChannelUse])
    ensures { PrintsTo W.ByteSink out.old out.new
        (occupancies_json channels.now) }
{
    match channels.split_first() {
        Some((first, rest)) => put_filled_occupancies(out, first, rest),
        None => out.push(b"[]"),
    }
}

/// Prints the map of the channels; `over` has how many overused wires run through each of their
/// places.
fn put_map<W: ByteSink>(out: &mut Printer<'_, W>, channels: &[ChannelUse], over: &[ChannelUse])
    ensures { PrintsTo W.ByteSink out.old out.new
        (map_json channels.now over.now) }
{
    out.push(b"{\"occupied\":");
    put_occupancies(out, channels);
    out.push(b",\"overused\":");
    put_occupancies(out, over);
    out.push(b"}");
}

/// Prints the member on the map.
pub(crate) fn put_map_member<W: ByteSink>(
    out: &mut Printer<'_, W>,
    channels: &[ChannelUse],
    over: &[ChannelUse],
)
    ensures { PrintsTo W.ByteSink out.old out.new
        (before (map_member channels.now over.now)) }
{
    out.push(b"\"map\":");
    put_map(out, channels, over);
    out.push(b",");
}
