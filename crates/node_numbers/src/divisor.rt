//! Repeated division by the same number, by a multiplication each time (Granlund and Montgomery
//! 1994).

ghost use Rattle.std.specs.Prelude.{◌≡◌, ℕ, ◌+◌, ◌*◌, ◌/◌, ◌%◌, ◌<◌, ◌≤◌};

use std::marker::Model;

/// 2^63.
const SCALE: u64 = 1 << 63;

/// A divisor with its factor. Contracts see the divisor.
#[derive(Debug, Drop)]
pub(crate) struct Divisor {
    number: u32,
    /// The least number above 2^63 divided by the divisor.
    factor: u64,
}

impl Model for Divisor {
    ghost use Rattle.std.specs.Prelude.{ℕ};
    ghost use Rattle.node_numbers.specs.kept.Divisors.{IsDivisor};

    ghost Value = { ℕ };

    ghost view = { λ d. d.number };

    ghost invariant = { IsDivisor };
}

impl Divisor {
    /// Makes a divisor.
    #[tactic(auto, using(crate::proofs::Divisors::factor_made))]
    pub(crate) fn new(number: u32) -> Divisor
        requires { (1 ≤ number) × (number ≤ 2147483648) }
        ensures { result ≡ number }
    {
        Divisor {
            number,
            factor: SCALE / u64::from(number) + 1,
        }
    }

    /// Returns the quotient of a number.

    pub(crate) fn quotient(&self, number: u32) -> u32
        ensures { result ≡ number / self.now }
    {
        (u128::from(number) * u128::from(self.factor) / u128::from(SCALE)) as u32
    }

    /// Returns quotient and rest of a number.

    pub(crate) fn split(&self, number: u32) -> (u32, u32)
        ensures quotient { result.0 ≡ number / self.now }
        ensures rest { result.1 ≡ number % self.now }
    {
        let quotient = self.quotient(number);
        (quotient, number - quotient * self.number)
    }
}
