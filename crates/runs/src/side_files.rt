//! Files that a run writes in addition to its own: the trees that a negotiation left, and the
//! routings of trials.

ghost use Rattle.std.specs.Prelude.{ℕ, IfSome};

use crate::whole_sink::WholeSink;
use std::io::{Sink, sink};
use vpr_text::Adapted;

/// Makes the files that a run writes in addition to its own. If one can't be written, the run goes
/// on.
pub trait SideFiles {
    ghost use Rattle.std.specs.Prelude.{ℕ, IfSome};

    /// Such a file, or the sink of words.
    type Out: WholeSink + Drop + Sync;

    /// Returns the file of a negotiation at this channel width, or `None` if the file isn't wanted
    /// or can't be made.
    fn file(&self, width: u32) -> Option<Self::Out>
        ensures { IfSome result (λ file. Self.Out.is_at file width) };

    /// Reports that such a file was not written to its end.
    fn unwritten(&self, width: u32);

    /// Returns the sink of words, which are in no file.
    fn words(&self) -> Self::Out;
}

/// No files, and no words.
#[derive(Clone, Copy, Debug)]
pub struct NoFiles;

impl SideFiles for NoFiles {
    type Out = Adapted<Sink>;

    fn file(&self, _width: u32) -> Option<Adapted<Sink>> {
        None
    }

    fn unwritten(&self, _width: u32) {}

    fn words(&self) -> Adapted<Sink> {
        Adapted::new(sink())
    }
}
