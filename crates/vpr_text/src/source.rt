//! Where bytes come from.

ghost use Rattle.std.specs.Prelude.{◌≡◌, ℕ, Bool, List, Option, ◌<◌, ◌≤◌, length, take, IsTrue, IsErr, IfOk, is_err};
ghost use Rattle.std.specs.Io.KnownBytes.{Consumes, IsAtEnd};

use thiserror::Error;

/// A source or a sink of bytes failed. It does so at every call from then on.
#[derive(Clone, Copy, Debug, PartialEq, Eq, Error)]
#[error("a reader or writer failed")]
pub struct Broken;

/// A source of bytes.
pub trait ByteSource {
    /// The bytes that are left, where the type gives them.
    ghost remaining: { Self → Option (List ℕ) };

    /// Whether a call was `Broken`.
    ghost failed: { Self → Bool };

    /// Reads some bytes into the front of the buffer, and returns how many: 0 at the end, and only
    /// there. After `Broken` the buffer may hold anything.
    fn take(&mut self, buffer: &mut [u8]) -> Result<usize, Broken>
        requires { 0 < length buffer.old }
        ensures count { IfOk result (λ n. n ≤ length buffer.new) }
        ensures bytes { IfOk result
            (λ n. Consumes (remaining self.old) (remaining self.new) (take n buffer.new)) }
        ensures end { IfOk result (λ n. n ≡ 0 → IsAtEnd (remaining self.new)) }
        ensures breaks { failed self.new ≡ is_err result }
        ensures for_good { IsTrue (failed self.old) → IsErr result };
}

impl<S: ByteSource> ByteSource for &mut S {
    ghost remaining = { λ s. S.remaining s.now };

    ghost failed = { λ s. S.failed s.now };

    fn take(&mut self, buffer: &mut [u8]) -> Result<usize, Broken> {
        ByteSource::take(&mut **self, buffer)
    }
}
