//! The lines on the channels.

ghost use Rattle.std.specs.Prelude.{◌≡◌};
ghost use Rattle.text_output.specs.Printing.{PrintsTo};
ghost use Rattle.report_run.specs.Channels.{axis_text, occupancy_line, channel_lines, places_of_channel};

use crate::text::put_mean;
use route_report::ChannelUse;
use rr_graph::{Device, Kind};
use text_output::{ByteSink, Printer};

/// Returns the name of the axis along which a channel runs, which comes before its number.
fn axis_name(kind: Kind) -> &'static [u8]
    ensures { result.now ≡ axis_text kind }
{
    match kind {
        Kind::Chany => b"y ",
        _ => b"x ",
    }
}

/// Returns the number of places of a channel of this kind.
pub(crate) fn places_of_channel(device: &Device, kind: Kind) -> u32
    ensures { result ≡ places_of_channel device.now kind }
{
    match kind {
        Kind::Chany => device.ny(),
        _ => device.nx(),
    }
}

/// Prints the line of a channel.
fn put_channel<W: ByteSink>(out: &mut Printer<'_, W>, device: &Device, channel: &ChannelUse)
    ensures { PrintsTo W.ByteSink out.old out.new
        (occupancy_line device.now channel.now) }
{
    out.push(b"channel ");
    out.push(axis_name(channel.kind));
    out.put_number(channel.number);
    out.push(b" most ");
    out.put_number(channel.most);
    out.push(b" mean ");
    put_mean(out, channel.total, places_of_channel(device, channel.kind));
    out.push(b"\n");
}

/// Prints the lines of the channels.
pub(crate) fn put_channels<W: ByteSink>(
    out: &mut Printer<'_, W>,
    device: &Device,
    channels: &[ChannelUse],
)
    ensures { PrintsTo W.ByteSink out.old out.new
        (channel_lines device.now channels.now) }
{
    for channel in channels {
        put_channel(out, device, channel);
    }
}
