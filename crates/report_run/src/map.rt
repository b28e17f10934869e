//! The map of a routing: the array, with the occupancy of each place of its channels.

ghost use Rattle.std.specs.Prelude.{◌≡◌, ◌≤◌, ◌<◌, ◌+◌, get_or};
ghost use Rattle.std.specs.List.{flat_map};
ghost use Rattle.text_output.specs.Printing.{PrintsTo};
ghost use Rattle.rr_graph.specs.Fabric.{numbers_below};
ghost use Rattle.report_run.specs.Map.{axis_line, axis_lines, blanks_before, block_at, blocks_line, cell_text, column_code, column_digit, crossing_at, crossing_line, digit_line, map_head, map_text, occupied_at, place_code, right_of, row_lines, row_number};

use crate::text::digit_code;
use route_report::ChannelUse;
use rr_graph::Device;
use text_output::{ByteSink, Piece, Printer};

/// The most columns of an array whose map is at most 80 characters wide.
const MOST_MAPPED: u32 = 35;

/// Returns the number at an index, or 0 past the last one.
fn number_at(numbers: &[u64], index: u32) -> u64
    ensures { result ≡ get_or numbers.now index 0 }
{
    match numbers.get(index as usize) {
        Some(number) => *number,
        None => 0,
    }
}

/// Returns how much is occupied at a place of a channel in a list, or 0 if there is no such place.
fn occupied_at(channels: &[ChannelUse], channel: u32, place: u32) -> u64
    ensures { result ≡ occupied_at channels.now channel place }
{
    match channels.get(channel as usize) {
        Some(channel) => number_at(&channel.occupied, place),
        None => 0,
    }
}

/// Returns the index of the channel right of a column in the list of all channels.
fn right_of(device: &Device, column: u32) -> u32
    requires { column < 65536 }
    ensures { result ≡ right_of device.now column }
{
    device.ny() + 1 + column
}

/// Returns the byte for a place where this much is occupied, and this much of it overused.
fn place_code(occupied: u64, over: u64) -> u8
    ensures { result ≡ place_code occupied over }
{
    if over > 0 { b'!' } else { digit_code(occupied) }
}

/// Prints a place of a channel, and the byte right of it.
fn put_cell<W: ByteSink>(
    out: &mut Printer<'_, W>,
    channels: &[ChannelUse],
    over: &[ChannelUse],
    channel: u32,
    place: u32,
    right: u8,
)
    ensures { PrintsTo W.ByteSink out.old out.new
        (cell_text channels.now over.now channel place right) }
{
    let occupied = occupied_at(channels, channel, place);
    let code = place_code(occupied, occupied_at(over, channel, place));
    out.push(&[code, right]);
}

/// Prints the places of the channel above a row, each with the crossing of channels right of it.
fn put_crossings<W: ByteSink>(
    out: &mut Printer<'_, W>,
    channels: &[ChannelUse],
    over: &[ChannelUse],
    row: u32,
    places: u32,
)
    ensures { PrintsTo W.ByteSink out.old out.new
        (flat_map (crossing_at channels.now over.now row) (numbers_below places)) }
{
    for place in 0..places {
        put_cell(out, channels, over, row, place, b'+');
    }
}

/// Prints the channel above a row.
fn put_crossing_line<W: ByteSink>(
    out: &mut Printer<'_, W>,
    device: &Device,
    channels: &[ChannelUse],
    over: &[ChannelUse],
    row: u32,
)
    ensures { PrintsTo W.ByteSink out.old out.new
        (crossing_line device.now channels.now over.now row) }
{
    out.push(b"    +");
    put_crossings(out, channels, over, row, device.nx());
    out.push(b"\n");
}

/// Prints a place of the channel right of a column, and the block right of it.
fn put_block_at<W: ByteSink>(
    out: &mut Printer<'_, W>,
    device: &Device,
    channels: &[ChannelUse],
    over: &[ChannelUse],
    place: u32,
    column: u32,
)
    requires { column < 65536 }
    ensures { PrintsTo W.ByteSink out.old out.new
        (block_at device.now channels.now over.now place column) }
{
    let right = right_of(device, column);
    put_cell(out, channels, over, right, place, b'.');
}

/// Prints the blocks of a row, each after the place of the channel left of it.
fn put_blocks<W: ByteSink>(
    out: &mut Printer<'_, W>,
    device: &Device,
    channels: &[ChannelUse],
    over: &[ChannelUse],
    place: u32,
    columns: u32,
)
    requires { columns < 65536 }
    ensures { PrintsTo W.ByteSink out.old out.new
        (flat_map (block_at device.now channels.now over.now place) (numbers_below columns)) }
{
    for column in 0..columns {
        put_block_at(out, device, channels, over, place, column);
    }
}

/// Returns the blanks before a number that ends in the third column of text.
fn blanks_before(number: u32) -> &'static [u8]
    ensures { result.now ≡ blanks_before number }
{
    if number < 10 {
        b"  "
    } else if number < 100 {
        b" "
    } else {
        b""
    }
}

/// Prints a number that ends in the third column of text.
fn put_row_number<W: ByteSink>(out: &mut Printer<'_, W>, number: u32)
    ensures { PrintsTo W.ByteSink out.old out.new (row_number number) }
{
    out.push(blanks_before(number));
    out.put_number(number);
}

/// Prints a row of blocks between its numbers.
fn put_blocks_line<W: ByteSink>(
    out: &mut Printer<'_, W>,
    device: &Device,
    channels: &[ChannelUse],
    over: &[ChannelUse],
    place: u32,
)
    requires { place < 65536 }
    ensures { PrintsTo W.ByteSink out.old out.new
        (blocks_line device.now channels.now over.now place) }
{
    let columns = device.nx();
    let right = right_of(device, columns);
    put_row_number(out, place + 1);
    out.push(b" ");
    put_blocks(out, device, channels, over, place, columns);
    put_cell(out, channels, over, right, place, b' ');
    put_row_number(out, place + 1);
    out.push(b"\n");
}

/// Prints the row of blocks that has this many rows above it, and the channel below it.
fn put_row<W: ByteSink>(
    out: &mut Printer<'_, W>,
    device: &Device,
    channels: &[ChannelUse],
    over: &[ChannelUse],
    above: u32,
)
    ensures { PrintsTo W.ByteSink out.old out.new
        (row_lines device.now channels.now over.now above) }
{
    let row = device.ny().saturating_sub(1).saturating_sub(above);
    put_blocks_line(out, device, channels, over, row);
    put_crossing_line(out, device, channels, over, row);
}

/// Prints this many rows from the top.
fn put_rows<W: ByteSink>(
    out: &mut Printer<'_, W>,
    device: &Device,
    channels: &[ChannelUse],
    over: &[ChannelUse],
    rows: u32,
)
    ensures { PrintsTo W.ByteSink out.old out.new
        (flat_map (row_lines device.now channels.now over.now) (numbers_below rows)) }
{
    for above in 0..rows {
        put_row(out, device, channels, over, above);
    }
}

/// Returns a digit of the number of a column, or a blank if the number has no such digit.
fn column_code(unit: u32, column: u32) -> u8
    requires unit { 1 ≤ unit }
    requires column { column < 65536 }
    ensures { result ≡ column_code unit column }
{
    if unit <= column + 1 {
        digit_code(u64::from((column + 1) / unit % 10))
    } else {
        b' '
    }
}

/// Prints a digit of the number of a column.
#[tactic(auto, unfolding(crate::specs::Map::column_digit))]
fn put_column_digit<W: ByteSink>(out: &mut Printer<'_, W>, unit: u32, column: u32)
    requires unit { 1 ≤ unit }
    requires column { column < 65536 }
    ensures { PrintsTo W.ByteSink out.old out.new
        (column_digit unit column) }
{
    out.push(&[b' ', column_code(unit, column)]);
}

/// Prints a digit of the numbers of all columns.
fn put_column_digits<W: ByteSink>(out: &mut Printer<'_, W>, unit: u32, columns: u32)
    requires unit { 1 ≤ unit }
    requires columns { columns < 65536 }
    ensures { PrintsTo W.ByteSink out.old out.new
        (flat_map (column_digit unit) (numbers_below columns)) }
{
    for column in 0..columns {
        put_column_digit(out, unit, column);
    }
}

/// Prints the line of a digit of the numbers of all columns.
fn put_digit_line<W: ByteSink>(out: &mut Printer<'_, W>, columns: u32, unit: u32)
    requires unit { 1 ≤ unit }
    requires columns { columns < 65536 }
    ensures { PrintsTo W.ByteSink out.old out.new
        (digit_line columns unit) }
{
    out.push(b"    ");
    put_column_digits(out, unit, columns);
    out.push(b"\n");
}

/// Prints the line of a digit of the numbers of all columns, if there is a column that has it.
fn put_axis_line<W: ByteSink>(out: &mut Printer<'_, W>, columns: u32, unit: u32)
    requires unit { 1 ≤ unit }
    requires columns { columns < 65536 }
    ensures { PrintsTo W.ByteSink out.old out.new (axis_line columns unit) }
{
    if unit <= columns {
        put_digit_line(out, columns, unit);
    }
}

/// Prints the numbers of the columns.
fn put_axis_lines<W: ByteSink>(out: &mut Printer<'_, W>, columns: u32)
    requires { columns < 65536 }
    ensures { PrintsTo W.ByteSink out.old out.new (axis_lines columns) }
{
    put_axis_line(out, columns, 100);
    put_axis_line(out, columns, 10);
    put_axis_line(out, columns, 1);
}

/// Prints the first line, which has the width of a map that is wider than 80 characters.
#[tactic(auto, unfolding(crate::specs::Map::map_head))]
fn put_head<W: ByteSink>(out: &mut Printer<'_, W>, columns: u32)
    requires { columns < 65536 }
    ensures { PrintsTo W.ByteSink out.old out.new (map_head columns) }
{
    if columns <= MOST_MAPPED {
        out.push(b"map\n");
    } else {
        out.put_pieces(&[
            Piece::Text(b"map, "),
            Piece::Number(columns * 2 + 9),
            Piece::Text(b" characters wide\n"),
        ]);
    }
}

/// Prints the map of the channels of a device; `over` has how many overused wires run through each
/// of their places.
pub(crate) fn put_map<W: ByteSink>(
    out: &mut Printer<'_, W>,
    device: &Device,
    channels: &[ChannelUse],
    over: &[ChannelUse],
)
    ensures { PrintsTo W.ByteSink out.old out.new
        (map_text device.now channels.now over.now) }
{
    let (columns, rows) = (device.nx(), device.ny());
    put_head(out, columns);
    put_crossing_line(out, device, channels, over, rows);
    put_rows(out, device, channels, over, rows);
    put_axis_lines(out, columns);
}
