//! The members of a report in JSON on types of wire and channels.

ghost use Rattle.std.specs.Prelude.{◌≡◌};
ghost use Rattle.std.specs.List.{flat_map};
ghost use Rattle.text_output.specs.Printing.{PrintsTo};
ghost use Rattle.report_run.specs.Json.{filled, next_item};
ghost use Rattle.report_run.specs.JsonReport.{axis_json, channel_json, channels_json, list_members, type_json, types_json};
ghost use Rattle.report_run.specs.kept.Members.{before};

use crate::channels::places_of_channel;
use crate::json_parts::put_share;
use crate::text::put_mean;
use route_report::{ChannelUse, WireTypeUse};
use rr_graph::{Device, Kind};
use text_output::{ByteSink, Printer};

/// Prints a type of wire.
fn put_type<W: ByteSink>(out: &mut Printer<'_, W>, kind: &WireTypeUse)
    ensures { PrintsTo W.ByteSink out.old out.new (type_json kind.now) }
{
    out.push(b"{\"tracks\":");
    out.put_number(kind.tracks);
    out.push(b",\"wires\":");
    put_share(out, u64::from(kind.wires_used), u64::from(kind.wires));
    out.push(b",\"places\":");
    put_share(out, kind.places_used, kind.places);
    out.push(b"}");
}

/// Prints a type of wire after another one.
fn put_next_type<W: ByteSink>(out: &mut Printer<'_, W>, kind: &WireTypeUse)
    ensures { PrintsTo W.ByteSink out.old out.new
        (next_item type_json kind.now) }
{
    out.push(b",");
    put_type(out, kind);
}

/// Prints types of wire after another one.
fn put_more_types<W: ByteSink>(out: &mut Printer<'_, W>, types: &[WireTypeUse])
    ensures { PrintsTo W.ByteSink out.old out.new
        (flat_map (next_item type_json) types.now) }
{
    for kind in types {
        put_next_type(out, kind);
    }
}

/// Prints one or more types of wire.
fn put_filled_types<W: ByteSink>(
    out: &mut Printer<'_, W>,
    first: &WireTypeUse,
    rest: &[WireTypeUse],
)
    ensures { PrintsTo W.ByteSink out.old out.new
        (filled type_json first.now rest.now) }
{
    out.push(b"[");
    put_type(out, first);
    put_more_types(out, rest);
    out.push(b"]");
}

/// Prints the types of wire.
fn put_types<W: ByteSink>(out: &mut Printer<'_, W>, types: &[WireTypeUse])
    ensures { PrintsTo W.ByteSink out.old out.new (types_json types.now) }
{
    match types.split_first() {
        Some((first, rest)) => put_filled_types(out, first, rest),
        None => out.push(b"[]"),
    }
}

/// Returns the axis along which a channel of a kind runs.
fn axis_json(kind: Kind) -> &'static [u8]
    ensures { result.now ≡ axis_json kind }
{
    match kind {
        Kind::Chany => b"\"y\"",
        _ => b"\"x\"",
    }
}

/// Prints a channel.
fn put_channel<W: ByteSink>(out: &mut Printer<'_, W>, device: &Device, channel: &ChannelUse)
    ensures { PrintsTo W.ByteSink out.old out.new
        (channel_json device.now channel.now) }
{
    out.push(b"{\"axis\":");
    out.push(axis_json(channel.kind));
    out.push(b",\"number\":");
    out.put_number(channel.number);
    out.push(b",\"most\":");
    out.put_number(channel.most);
    out.push(b",\"mean\":");
    put_mean(out, channel.total, places_of_channel(device, channel.kind));
    out.push(b"}");
}

/// Prints a channel after another one.
fn put_next_channel<W: ByteSink>(out: &mut Printer<'_, W>, device: &Device, channel: &ChannelUse)
    ensures { PrintsTo W.ByteSink out.old out.new
        (next_item (channel_json device.now) channel.now) }
{
    out.push(b",");
    put_channel(out, device, channel);
}

/// Prints channels after another one.
fn put_more_channels<W: ByteSink>(
    out: &mut Printer<'_, W>,
    device: &Device,
    channels: &[ChannelUse],
)
    ensures { PrintsTo W.ByteSink out.old out.new
        (flat_map (next_item (channel_json device.now)) channels.now) }
{
    for channel in channels {
        put_next_channel(out, device, channel);
    }
}

/// Prints one or more channels.
fn put_filled_channels<W: ByteSink>(
    out: &mut Printer<'_, W>,
    device: &Device,
    first: &ChannelUse,
    rest: &[ChannelUse],
)
    ensures { PrintsTo W.ByteSink out.old out.new
        (filled (channel_json device.now) first.now rest.now) }
{
    out.push(b"[");
    put_channel(out, device, first);
    put_more_channels(out, device, rest);
    out.push(b"]");
}

/// Prints the channels.
fn put_channels<W: ByteSink>(out: &mut Printer<'_, W>, device: &Device, channels: &[ChannelUse])
    ensures { PrintsTo W.ByteSink out.old out.new
        (channels_json device.now channels.now) }
{
    match channels.split_first() {
        Some((first, rest)) => put_filled_channels(out, device, first, rest),
        None => out.push(b"[]"),
    }
}

/// Prints the members on the types of wire and the channels.
pub(crate) fn put_list_members<W: ByteSink>(
    out: &mut Printer<'_, W>,
    device: &Device,
    types: &[WireTypeUse],
    channels: &[ChannelUse],
)
    ensures { PrintsTo W.ByteSink out.old out.new
        (before (list_members device.now types.now channels.now)) }
{
    out.push(b"\"types\":");
    put_types(out, types);
    out.push(b",\"channels\":");
    put_channels(out, device, channels);
    out.push(b",");
}
