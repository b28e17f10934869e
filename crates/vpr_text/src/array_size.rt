//! The line that gives the size of an array.

ghost use Rattle.std.specs.Prelude.{◌≡◌};
ghost use Rattle.vpr_text.specs.ArraySize.{begins_size_line};

use crate::words::Words;

/// Whether the line has seven words and the first six are `Array size: NX x NY logic`.
#[tactic(auto, unfolding(crate::specs::ArraySize::begins_size_line))]
pub fn begins_size_line(words: &Words) -> bool
    ensures { result ≡ begins_size_line words.now }
{
    words.len() == 7
        && words.is(0, "Array")
        && words.is(1, "size:")
        && words.is_number(2)
        && words.is(3, "x")
        && words.is_number(4)
        && words.is(5, "logic")
}
