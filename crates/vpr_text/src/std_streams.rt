//! Readers and writers of std as sources and sinks.

ghost use Rattle.std.specs.Prelude.{◌≡◌, ◌<◌, ◌≤◌, false, length, take, IsTrue, IsErr, IfOk, OnErr, is_err};
ghost use Rattle.std.specs.Io.KnownBytes.{Appends, Consumes, IsAtEnd, Keeps};
ghost use Rattle.vpr_text.specs.Adapters.{inner_of, has_failed};

use crate::sink::ByteSink;
use crate::source::{Broken, ByteSource};
use std::io::{Read, Write};

/// A reader of std as a source of bytes, or a writer as a sink. Each error is `Broken`, that of an
/// interrupted call too, and so is a writer's 0. A `Broken` call took no byte, and after it the
/// reader or writer isn't called again.
#[derive(Debug, Drop)]
pub struct Adapted<T> {
    inner: T,
    failed: bool,
}

impl<T> Adapted<T> {
    pub fn new(inner: T) -> Adapted<T>
        ensures value { inner_of result ≡ inner }
        ensures standing { has_failed result ≡ false }
    {
        Adapted {
            inner,
            failed: false,
        }
    }

    pub fn get_ref(&self) -> &T
        ensures { result.now ≡ inner_of self.now }
    {
        &self.inner
    }

    pub fn into_inner(self) -> T
        ensures { result ≡ inner_of self }
    {
        let Adapted { inner, failed: _ } = self;
        inner
    }
}

impl<R: Read> ByteSource for Adapted<R> {
    ghost remaining = { λ a. R.remaining (inner_of a) };

    ghost failed = { has_failed };

    fn take(&mut self, buffer: &mut [u8]) -> Result<usize, Broken>
        requires { 0 < length buffer.old }
        ensures count { IfOk result (λ n. n ≤ length buffer.new) }
        ensures bytes { IfOk result (λ n. Consumes (R.remaining (inner_of self.old))
            (R.remaining (inner_of self.new)) (take n buffer.new)) }
        ensures end { IfOk result (λ n. n ≡ 0 → IsAtEnd (R.remaining (inner_of self.new))) }
        // A call that fails took no byte.
        ensures none { OnErr result
            (Keeps (R.remaining (inner_of self.old)) (R.remaining (inner_of self.new))) }
        ensures breaks { has_failed self.new ≡ is_err result }
        ensures for_good { IsTrue (has_failed self.old) → IsErr result }
        // After a failure the reader is left alone.
        ensures untouched { IsTrue (has_failed self.old) → inner_of self.new ≡ inner_of self.old }
    {
        if self.failed {
            return Err(Broken);
        }
        match self.inner.read(buffer) {
            Ok(count) => Ok(count),
            Err(_) => {
                self.failed = true;
                Err(Broken)
            }
        }
    }
}

impl<W: Write> ByteSink for Adapted<W> {
    ghost taken = { λ a. W.contents (inner_of a) };

    ghost failed = { has_failed };

    fn put(&mut self, bytes: &[u8]) -> Result<usize, Broken>
        requires { 0 < length bytes.now }
        ensures some { IfOk result (λ n. 0 < n) }
        ensures count { IfOk result (λ n. n ≤ length bytes.now) }
        ensures bytes { IfOk result (λ n. Appends (W.contents (inner_of self.old))
            (W.contents (inner_of self.new)) (take n bytes.now)) }
        // A call that fails took no byte.
        ensures none { OnErr result
            (Keeps (W.contents (inner_of self.old)) (W.contents (inner_of self.new))) }
        ensures breaks { has_failed self.new ≡ is_err result }
        ensures for_good { IsTrue (has_failed self.old) → IsErr result }
        // After a failure the writer is left alone.
        ensures untouched { IsTrue (has_failed self.old) → inner_of self.new ≡ inner_of self.old }
    {
        if self.failed {
            return Err(Broken);
        }
        match self.inner.write(bytes) {
            Ok(count) if count > 0 => Ok(count),
            _ => {
                self.failed = true;
                Err(Broken)
            }
        }
    }
}
