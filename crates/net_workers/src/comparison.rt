//! Whether an iteration is done.

ghost use Rattle.std.specs.Prelude.{◌↔◌, ◌≡◌, ℕ, None, IsTrue};
ghost use Rattle.congestion_book.specs.Turns.{NameEachOnce, holder_in};
ghost use Rattle.congestion_book.specs.Contents.{net_count};

use crate::desk::open_turns;
use congestion_book::Book;

/// Returns whether each net had its turn.
pub(crate) fn is_done(book: &Book) -> bool
    ensures once { IsTrue result ↔ NameEachOnce (net_count book.now) book.now.turns }
    ensures free { IsTrue result → (i : ℕ) → holder_in book.now.holders i ≡ None }
{
    open_turns(book).len() == book.problem().nets() as usize
}
