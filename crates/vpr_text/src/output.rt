//! A buffer on the way to a sink.

ghost use Rattle.std.specs.Prelude.{◌≡◌, ◌+◌, ◌<◌, ◌≤◌, ◌++◌, [], OnErr, OnOk, is_err, length, false, true};
ghost use Rattle.vpr_text.specs.Output.{Breaks, Buffer, holding, Prints, SendsTo, stream};

use crate::sink::ByteSink;
use crate::source::Broken;
use std::marker::Model;

/// Puts all the bytes, in as many calls as the sink needs.
fn put_all<W: ByteSink>(sink: &mut W, bytes: &[u8]) -> Result<(), Broken>
    ensures ok { OnOk result (Prints
        (stream (W.taken sink.old) (W.failed sink.old) (holding bytes.now))
        (stream (W.taken sink.new) (W.failed sink.new) (holding [])) []) }
    ensures err { OnErr result (Breaks
        (stream (W.taken sink.old) (W.failed sink.old) (holding bytes.now))
        (stream (W.taken sink.new) (W.failed sink.new) (holding [])) []) }
{
    let mut rest = bytes;
    while !rest.is_empty() {
        let count = sink.put(rest)?;
        rest = rest.split_at(count).1;
    }
    Ok(())
}

const ROOM: usize = 8_192;

/// Holds printed bytes until a sink takes them in one piece. It takes no memory. A sink that breaks
/// is remembered: nothing is sent through the buffer any more, and `finish` says so. What it holds
/// when it is dropped is lost.
#[derive(Debug, Drop)]
pub struct OutputBuffer {
    bytes: [u8; 8_192],
    held: usize,
    broken: bool,
}

impl Model for OutputBuffer {
    ghost use Rattle.std.specs.Prelude.{take, ◌≤◌};
    ghost use Rattle.vpr_text.specs.Output.{Buffer};

    ghost Value = { Buffer };

    ghost view = { λ b. record { held = take b.held b.bytes; broken = b.broken } };

    ghost invariant = { λ b. b.held ≤ 8192 };
}

impl OutputBuffer {
    /// A buffer that holds nothing.
    pub fn new() -> OutputBuffer
        ensures { result ≡ holding [] }
    {
        OutputBuffer {
            bytes: [0; 8_192],
            held: 0,
            broken: false,
        }
    }

    /// Whether a sink broke under it.
    pub fn is_broken(&self) -> bool
        ensures { result ≡ self.now.broken }
    {
        self.broken
    }

    /// Prints the bytes after those that are held.
    pub fn push<W: ByteSink>(&mut self, sink: &mut W, bytes: &[u8])
        ensures { SendsTo W.taken W.failed sink.old sink.new self.old self.new bytes.now }
    {
        self.make_room(sink, bytes.len());
        if bytes.len() > ROOM {
            self.pass(sink, bytes);
            return;
        }
        self.hold(bytes);
    }

    /// How many bytes it holds.
    fn len(&self) -> usize
        ensures len { result ≡ length self.now.held }
        ensures limit { result ≤ 8192 }
    {
        self.held
    }

    /// Hands all that is held to the sink if `count` more bytes don't fit.
    #[tactic(auto, using(crate::proofs::Printing::sends_none))]
    fn make_room<W: ByteSink>(&mut self, sink: &mut W, count: usize)
        ensures room { self.new.broken ≡ false → count ≤ 8192
            → length self.new.held + count ≤ 8192 }
        ensures empty { self.new.broken ≡ false → 8192 < count → self.new.held ≡ [] }
        ensures sends { SendsTo W.taken W.failed sink.old sink.new self.old self.new [] }
    {
        if count <= ROOM - self.len() {
            return;
        }
        self.hand_out(sink);
    }

    /// Holds the bytes after those that are held.
    fn hold(&mut self, bytes: &[u8])
        requires { self.old.broken ≡ false → length self.old.held + length bytes.now ≤ 8192 }
        ensures held { self.old.broken ≡ false
            → self.new ≡ holding (self.old.held ++ bytes.now) }
        ensures stays { self.old.broken ≡ true → self.new ≡ self.old }
    {
        if self.broken {
            return;
        }
        let start = self.held;
        let end = start + bytes.len();
        self.bytes[start..end].copy_from_slice(bytes);
        self.held = end;
    }

    /// Puts the bytes past the buffer, which holds nothing.
    fn pass<W: ByteSink>(&mut self, sink: &mut W, bytes: &[u8])
        requires { self.old.broken ≡ false → self.old.held ≡ [] }
        ensures { SendsTo W.taken W.failed sink.old sink.new self.old self.new bytes.now }
    {
        if self.broken {
            return;
        }
        if put_all(sink, bytes).is_err() {
            self.broken = true;
        }
    }

    /// Puts all that is held.
    fn hand_out<W: ByteSink>(&mut self, sink: &mut W)
        ensures sends { SendsTo W.taken W.failed sink.old sink.new self.old self.new [] }
        ensures empty { self.new.broken ≡ false → self.new.held ≡ [] }
    {
        if self.broken {
            return;
        }
        let held = self.held;
        match put_all(sink, &self.bytes[..held]) {
            Ok(()) => self.held = 0,
            Err(Broken) => self.broken = true,
        }
    }

    /// Hands all that is held to the sink.
    ///
    /// # Errors
    /// Broken where a sink broke, at this call or before.
    pub fn finish<W: ByteSink>(&mut self, sink: &mut W) -> Result<(), Broken>
        ensures sends { SendsTo W.taken W.failed sink.old sink.new self.old self.new [] }
        ensures empty { OnOk result (self.new.held ≡ []) }
        ensures broken { is_err result ≡ self.new.broken }
    {
        self.hand_out(sink);
        if self.is_broken() {
            Err(Broken)
        } else {
            Ok(())
        }
    }
}
