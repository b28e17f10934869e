//! Where the bytes of a file go.

ghost use Rattle.std.specs.Prelude.{◌≡◌, option_and_then, true};

use std::io::{Result, Write};
use vpr_text::{Broken, ByteSink};

/// A standard stream, as the target of a file or of words.
#[derive(Drop)]
pub enum StandardStream<O, E, W> {
    /// Standard output, which goes to the file.
    Output(O),
    /// Standard error, which goes to the file.
    Error(E),
    /// Words on standard error.
    Words(W),
}

impl<O: Write, E: Write, W: Write> Write for StandardStream<O, E, W> {
    ghost use Rattle.pathfinder.specs.kept.Targets.{stream_contents};

    ghost contents = { stream_contents O.contents E.contents W.contents };

    fn write(&mut self, bytes: &[u8]) -> Result<usize> {
        match self {
            StandardStream::Output(output) => output.write(bytes),
            StandardStream::Error(errors) => errors.write(bytes),
            StandardStream::Words(words) => words.write(bytes),
        }
    }

    fn flush(&mut self) -> Result<()> {
        Ok(())
    }
}

/// Where the bytes of a file go: to a file or to a standard stream.
#[derive(Drop)]
pub enum Target<F, S> {
    /// To a file of its own, which replaces the named file when it is complete.
    Replacing(F),
    /// To the file itself.
    InPlace(F),
    /// To a standard stream.
    Stream(S),
}

impl<F: Write, S: Write> Write for Target<F, S> {
    ghost use Rattle.pathfinder.specs.kept.Targets.{target_contents};

    ghost contents = { target_contents F.contents S.contents };

    fn write(&mut self, bytes: &[u8]) -> Result<usize> {
        match self {
            Target::Replacing(file) => file.write(bytes),
            Target::InPlace(file) => file.write(bytes),
            Target::Stream(stream) => stream.write(bytes),
        }
    }

    fn flush(&mut self) -> Result<()> {
        match self {
            Target::Replacing(file) => file.flush(),
            Target::InPlace(file) => file.flush(),
            Target::Stream(stream) => stream.flush(),
        }
    }
}

/// A sink whose target is begun at the first write.
#[derive(Drop)]
pub struct LateSink<T> {
    target: Option<T>,
    /// The number of bytes that were written.
    count: u64,
    has_failed: bool,
}

impl<T: Drop> LateSink<T> {
    pub fn new() -> LateSink<T> {
        LateSink {
            target: None,
            count: 0,
            has_failed: false,
        }
    }

    pub fn is_begun(&self) -> bool {
        self.target.is_some()
    }

    pub fn has_failed(&self) -> bool
        ensures { result ≡ self.now.has_failed }
    {
        self.has_failed
    }

    pub fn count(&self) -> u64 {
        self.count
    }

    /// Begins the target.
    pub fn begin(&mut self, target: T)
        ensures { self.new ≡ record self.old { target = Some target } }
    {
        self.target = Some(target);
    }

    /// Fails, and so does each later call.
    pub fn fail(&mut self)
        ensures { self.new ≡ record self.old { has_failed = true } }
    {
        self.has_failed = true;
    }

    /// Takes the target out, if it was begun.
    pub fn end(&mut self) -> Option<T>
        ensures target { result ≡ self.old.target }
        ensures rest { self.new ≡ record self.old { target = None } }
    {
        self.target.take()
    }
}

impl<T: Write> ByteSink for LateSink<T> {
    ghost taken = { λ sink. option_and_then T.contents sink.target };

    ghost failed = { λ sink. sink.has_failed };

    fn put(&mut self, bytes: &[u8]) -> std::result::Result<usize, Broken> {
        if self.has_failed {
            return Err(Broken);
        }
        let written = match &mut self.target {
            Some(target) => target.write(bytes).unwrap_or(0),
            None => 0,
        };
        if written == 0 {
            self.has_failed = true;
            return Err(Broken);
        }
        self.count = self.count.saturating_add(written as u64);
        Ok(written)
    }
}
