//! A printer: a sink, and the buffer on the way to it.

ghost use Rattle.std.specs.Prelude.{◌≡◌, [], OnOk, is_err};
ghost use Rattle.routing_problem.specs.Nodes.{node_at};
ghost use Rattle.text_output.specs.NodeTexts.{node_text, place_text, span_text, text_of_node};
ghost use Rattle.text_output.specs.Pieces.{pieces_text};
ghost use Rattle.text_output.specs.Printing.{IsPrinterTo, PrintsTo};

use crate::node::{put_node, put_node_of};
use crate::number::put_number;
use crate::piece::{Piece, put_pieces};
use crate::place::{put_place, put_span};
use itoa::Integer;
use routing_problem::{Device, Kind, Label, Span};
use vpr_text::{Broken, ByteSink, OutputBuffer};

/// A sink, and the buffer on the way to it. What it holds when it is dropped is lost.
pub struct Printer<'a, W> {
    sink: &'a mut W,
    buffer: OutputBuffer,
}

impl<'a, W> Drop for Printer<'a, W> {
    fn drop(self)
        ensures { self.exit.0.now ≡ self.entry.sink.now }
    {
        let Self { sink: _, buffer: _ } = self;
    }
}

impl<'a, W: ByteSink> Printer<'a, W> {
    /// A printer to this sink that holds nothing.
    pub fn new(sink: &'a mut W) -> Printer<'a, W>
        ensures { IsPrinterTo sink.entry result }
    {
        Printer {
            sink,
            buffer: OutputBuffer::new(),
        }
    }

    /// Whether the sink broke.
    pub fn is_broken(&self) -> bool
        ensures { result ≡ self.now.buffer.broken }
    {
        self.buffer.is_broken()
    }

    /// Prints the bytes.
    pub fn push(&mut self, bytes: &[u8])
        ensures { PrintsTo W.ByteSink self.old self.new bytes.now }
    {
        self.buffer.push(self.sink, bytes);
    }

    /// Prints a number in decimal digits.
    pub fn put_number<I: Integer>(&mut self, number: I)
        ensures { PrintsTo W.ByteSink self.old self.new (I.text number) }
    {
        put_number(&mut self.buffer, self.sink, number);
    }

    /// Prints a place, as `(1,2)`.
    pub fn put_place(&mut self, x: u32, y: u32)
        ensures { PrintsTo W.ByteSink self.old self.new (place_text x y) }
    {
        put_place(&mut self.buffer, self.sink, x, y);
    }

    /// Prints where a node is: its place, or the two ends of a wire of several places, as `(1,2) to
    /// (4,2)`.
    pub fn put_span(&mut self, span: Span)
        ensures { PrintsTo W.ByteSink self.old self.new (span_text span) }
    {
        put_span(&mut self.buffer, self.sink, span);
    }

    /// Prints a node, as `CHANX (1,2) Track: 0`.
    pub fn put_node(&mut self, kind: Kind, span: Span, label: Label, number: u32)
        ensures { PrintsTo W.ByteSink self.old self.new (node_text kind span label number) }
    {
        put_node(&mut self.buffer, self.sink, kind, span, label, number);
    }

    /// Prints the node of a number; nothing if there is none.
    pub fn put_node_of(&mut self, device: &Device, id: u32)
        ensures { PrintsTo W.ByteSink self.old self.new
            (text_of_node device.now (node_at device.now id)) }
    {
        put_node_of(&mut self.buffer, self.sink, device, id);
    }

    /// Prints the pieces, one after another.
    pub fn put_pieces(&mut self, pieces: &[Piece<'_>])
        ensures { PrintsTo W.ByteSink self.old self.new (pieces_text pieces.now) }
    {
        put_pieces(&mut self.buffer, self.sink, pieces);
    }

    /// Hands all that is held to the sink.
    ///
    /// # Errors
    /// Broken where the sink broke, at this call or before.
    pub fn finish(&mut self) -> Result<(), Broken>
        ensures prints { PrintsTo W.ByteSink self.old self.new [] }
        ensures empty { OnOk result (self.new.buffer.held ≡ []) }
        ensures broken { is_err result ≡ self.new.buffer.broken }
    {
        self.buffer.finish(self.sink)
    }
}
