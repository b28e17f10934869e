//! Words of 16 numbers below 16.

ghost use Rattle.std.specs.Prelude.{◌≡◌, ◌<◌};
ghost use Rattle.node_cost.specs.kept.Words.{number_at, IsPut};

/// Returns the number at a place of a word.
#[tactic(auto, using(crate::proofs::Shifts::number_masked, crate::proofs::Shifts::number_below))]
pub(crate) fn number_at(word: u64, place: u32) -> u64
    requires { place < 16 }
    ensures exact { result ≡ number_at word place }
    ensures bounded { result < 16 }
{
    (word >> (4 * place)) & 15
}

/// Returns a word with another number at a place.
#[tactic(auto, using(crate::proofs::Shifts::taken_within, crate::proofs::Shifts::put_within))]
pub(crate) fn put_number(word: u64, place: u32, number: u64) -> u64
    requires place { place < 16 }
    requires number { number < 16 }
    ensures { IsPut place number word result }
{
    let shift = 4 * place;
    word - (number_at(word, place) << shift) + (number << shift)
}
