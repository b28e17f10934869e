//! Texts as lists of pieces.

ghost use Rattle.vpr_text.specs.Output.{SendsTo};
ghost use Rattle.text_output.specs.Pieces.{piece_text, pieces_text};

use crate::node::put_node_of;
use crate::number::put_number;
use crate::place::put_place;
use routing_problem::Device;
use vpr_text::{ByteSink, OutputBuffer};

/// A piece of a text.
#[derive(Clone, Copy, Drop)]
pub enum Piece<'a> {
    /// Bytes as they are.
    Text(&'a [u8]),
    /// A number, in decimal digits.
    Number(u32),
    /// A number that may have more than 32 bits.
    LongNumber(u64),
    /// A place by its column and its row, as `(1,2)`.
    Place(u32, u32),
    /// The node of a device that has this number, as `CHANX (1,2) Track: 0`; nothing if there is
    /// none.
    Node(&'a Device, u32),
}

/// Prints a piece.
fn put_piece<W: ByteSink>(out: &mut OutputBuffer, sink: &mut W, piece: &Piece<'_>)
    ensures { SendsTo W.taken W.failed sink.old sink.new out.old out.new (piece_text piece.now) }
{
    match piece {
        Piece::Text(bytes) => out.push(sink, bytes),
        Piece::Number(number) => put_number(out, sink, *number),
        Piece::LongNumber(number) => put_number(out, sink, *number),
        Piece::Place(x, y) => put_place(out, sink, *x, *y),
        Piece::Node(device, id) => put_node_of(out, sink, device, *id),
    }
}

/// Prints the pieces, one after another.
pub(crate) fn put_pieces<W: ByteSink>(out: &mut OutputBuffer, sink: &mut W, pieces: &[Piece<'_>])
    ensures { SendsTo W.taken W.failed sink.old sink.new out.old out.new (pieces_text pieces.now) }
{
    for piece in pieces {
        put_piece(out, sink, piece);
    }
}
