//! Where bytes go.

ghost use Rattle.std.specs.Prelude.{◌≡◌, ℕ, Bool, List, Option, ◌<◌, ◌≤◌, length, take, IsTrue, IsErr, IfOk, OnOk, OnErr, is_err};
ghost use Rattle.std.specs.Io.KnownBytes.{Appends, Keeps};

use crate::source::Broken;

/// A sink of bytes.
pub trait ByteSink {
    /// The bytes that were taken, where the type gives them.
    ghost taken: { Self → Option (List ℕ) };

    /// Whether a call was `Broken`.
    ghost failed: { Self → Bool };

    /// Takes one byte or more from the front, and returns how many. A `Broken` call took none.
    fn put(&mut self, bytes: &[u8]) -> Result<usize, Broken>
        requires { 0 < length bytes.now }
        ensures some { IfOk result (λ n. 0 < n) }
        ensures count { IfOk result (λ n. n ≤ length bytes.now) }
        ensures bytes { IfOk result (λ n. Appends (taken self.old) (taken self.new)
            (take n bytes.now)) }
        ensures none { OnErr result (Keeps (taken self.old) (taken self.new)) }
        ensures breaks { failed self.new ≡ is_err result }
        ensures for_good { IsTrue (failed self.old) → IsErr result };
}

impl<S: ByteSink> ByteSink for &mut S {
    ghost taken = { λ s. S.taken s.now };

    ghost failed = { λ s. S.failed s.now };

    fn put(&mut self, bytes: &[u8]) -> Result<usize, Broken> {
        ByteSink::put(&mut **self, bytes)
    }
}
