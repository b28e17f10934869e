//! Pieces of a routing's text, printed through a buffer.

ghost use Rattle.std.specs.Prelude.{◌≡◌, ◌++◌, codes};
ghost use Rattle.text_output.specs.Printing.{PrintsTo};
ghost use Rattle.text_output.specs.Pieces.{pieces_text};
ghost use Rattle.route_file.specs.TextLine.{Blank, line_text, class_text, kind_field, net_heading};

use rr_graph::Kind;
use text_output::{ByteSink, Piece, Printer};

/// A node's kind, right-aligned in six places.
pub(crate) fn kind_field(kind: Kind) -> &'static [u8]
    ensures { result.now ≡ kind_field kind }
{
    match kind {
        Kind::Source => b"SOURCE",
        Kind::Sink => b"  SINK",
        Kind::Opin => b"  OPIN",
        Kind::Ipin => b"  IPIN",
        Kind::Chanx => b" CHANX",
        Kind::Chany => b" CHANY",
    }
}

/// Prints a line of pieces.
pub(crate) fn put_line<W: ByteSink>(out: &mut Printer<'_, W>, pieces: &[Piece<'_>])
    ensures { PrintsTo W.ByteSink out.old out.new
        (pieces_text pieces.now ++ codes "\n") }
{
    out.put_pieces(pieces);
    out.push(b"\n");
}

/// Prints the line that begins a net: its number, its name, and what comes after that.
pub(crate) fn put_heading<'a, W: ByteSink>(
    out: &mut Printer<'_, W>,
    number: usize,
    name: &'a [u8],
    rest: &'a [u8],
)
    ensures { PrintsTo W.ByteSink out.old out.new
        (net_heading number name.now rest.now ++ codes "\n") }
{
    put_line(
        out,
        &[
            Piece::Text(b"Net "),
            Piece::LongNumber(number as u64),
            Piece::Text(b" ("),
            Piece::Text(name),
            Piece::Text(rest),
        ],
    );
}

/// Prints an empty line.
#[tactic(auto, unfolding(crate::specs::TextLine::bytes_on))]
pub(crate) fn put_blank<W: ByteSink>(out: &mut Printer<'_, W>)
    ensures { PrintsTo W.ByteSink out.old out.new (line_text Blank) }
{
    put_line(out, &[]);
}

/// Prints the class of a pin; a pad has none.
pub(crate) fn put_class<W: ByteSink>(out: &mut Printer<'_, W>, class: Option<u32>)
    ensures { PrintsTo W.ByteSink out.old out.new (class_text class) }
{
    match class {
        Some(class) => out.put_number(class),
        None => out.push(b"-1"),
    }
}
