//! Sinks whose bytes appear as a whole, like those of a file that takes its name when all were
//! written.

ghost use Rattle.std.specs.Prelude.{◌≡◌, ℕ, Bool, OnOk, false, is_err, true};
ghost use Rattle.std.specs.Io.KnownBytes.{Keeps};

use std::io::Write;
use vpr_text::{Adapted, Broken, ByteSink};

/// A sink whose bytes take their place when all of them were written.
pub trait WholeSink: ByteSink {
    /// Whether what was written is in its place.
    ghost is_placed: { Self → Bool };

    /// Whether it is the file of a negotiation at this channel width.
    ghost is_at: { Self → ℕ → Type 0 };

    /// Puts what was written into its place. It takes no byte.
    ///
    /// # Errors
    /// `Broken` if that fails. Then nothing has changed there.
    fn complete(&mut self) -> Result<(), Broken>
        requires { Self.failed self.old ≡ false }
        ensures bytes { Keeps (Self.taken self.old) (Self.taken self.new) }
        ensures breaks { Self.failed self.new ≡ is_err result }
        ensures placed { OnOk result (Self.is_placed self.new ≡ true) };
}

/// The bytes of a writer are in their place as soon as they are written.
impl<W: Write> WholeSink for Adapted<W> {
    ghost is_placed = { λ _. true };

    ghost is_at = { λ _ _. Unit {0} };

    fn complete(&mut self) -> Result<(), Broken> {
        Ok(())
    }
}
