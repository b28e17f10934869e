//! The places that a cut lists itself.

ghost use Rattle.std.specs.Prelude.{◌≡◌};
ghost use Rattle.std.specs.List.{flat_map};
ghost use Rattle.text_output.specs.Printing.{PrintsTo};
ghost use Rattle.bound_run.specs.CutTexts.{place_line};

use rr_graph::Kind;
use text_output::{ByteSink, Piece, Printer, kind_name};

/// Prints the line of a place.
#[tactic(auto, unfolding(crate::specs::CutTexts::place_line))]
fn put_place<W: ByteSink>(out: &mut Printer<'_, W>, kind: Kind, x: u32, y: u32)
    ensures { PrintsTo W.ByteSink out.old out.new (place_line kind x y) }
{
    out.put_pieces(&[
        Piece::Text(b"place "),
        Piece::Text(kind_name(kind)),
        Piece::Text(b" "),
        Piece::Number(x),
        Piece::Text(b" "),
        Piece::Number(y),
        Piece::Text(b"\n"),
    ]);
}

/// Prints the lines of these places.
pub(crate) fn put_places<W: ByteSink>(out: &mut Printer<'_, W>, places: &[(Kind, u32, u32)])
    ensures { PrintsTo W.ByteSink out.old out.new
        (flat_map (λ p. place_line p.0 p.1 p.2) places.now) }
{
    for place in places {
        put_place(out, place.0, place.1, place.2);
    }
}
