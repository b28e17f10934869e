//! Numbers.

ghost use Rattle.vpr_text.specs.Output.{SendsTo};

use itoa::{Buffer, Integer};
use vpr_text::{ByteSink, OutputBuffer};

/// Prints a number in decimal digits.
pub(crate) fn put_number<W: ByteSink, I: Integer>(out: &mut OutputBuffer, sink: &mut W, number: I)
    ensures { SendsTo W.taken W.failed sink.old sink.new out.old out.new (I.text number) }
{
    let mut digits = Buffer::new();
    out.push(sink, digits.format(number).as_bytes());
}
