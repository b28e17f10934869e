//! The opened files that a run reads. What is read from them is kept if faults are to be explained.

ghost use Rattle.std.specs.Prelude.{◌≡◌};

use refusals::is_standard_input;
use run_inputs::{AppFault, InputFile};
use std::alloc::Global;
use std::fs;
use std::fs::File;
use std::io::{Read, Result as IoResult, Stdin};
use vpr_text::Adapted;

/// What an input is read from.
#[derive(Drop)]
pub enum Source {
    File(File),
    Standard(Stdin),
}

impl Read for Source {
    fn read(&mut self, buffer: &mut [u8]) -> IoResult<usize> {
        match self {
            Source::File(file) => file.read(buffer),
            Source::Standard(input) => input.read(buffer),
        }
    }
}

/// A source that keeps what was read, if that is wanted and there is memory.
#[derive(Drop)]
pub struct Kept<S> {
    source: S,
    bytes: Option<Vec<u8>>,
}

impl<S> Kept<S> {
    fn new(alloc: Global, source: S, is_kept: bool) -> Kept<S>
        ensures { result.source ≡ source }
    {
        Kept {
            source,
            bytes: is_kept.then(|| Vec::new(alloc)),
        }
    }

    /// Returns what was read, or nothing if it wasn't kept.
    pub fn bytes(&self) -> &[u8] {
        match &self.bytes {
            Some(bytes) => bytes.as_slice(),
            None => &[],
        }
    }

    /// Keeps bytes that were read. If memory runs out, keeps nothing any more.
    fn keep(&mut self, read: &[u8])
        ensures { self.new.source ≡ self.old.source }
    {
        if let Some(bytes) = &mut self.bytes {
            if bytes.extend_from_slice(read).is_err() {
                self.bytes = None;
            }
        }
    }
}

impl<S: Read> Read for Kept<S> {
    ghost remaining = { λ kept. S.remaining kept.source };

    fn read(&mut self, buffer: &mut [u8]) -> IoResult<usize> {
        let count = self.source.read(buffer)?;
        self.keep(&buffer[..count]);
        Ok(count)
    }
}

/// An input file of a run.
pub type Input = Adapted<Kept<Source>>;

/// The opened files of a design.
#[derive(Drop)]
pub struct OpenedDesign {
    pub arch: Input,
    pub net: Input,
    pub place: Input,
}

/// Returns standard input as an input file. What is read from it is kept if that is wanted.
pub fn standard_input(rt: &HostRuntime, is_kept: bool) -> Input {
    Adapted::new(Kept::new(rt.alloc(), Source::Standard(rt.stdin()), is_kept))
}

/// Opens an input file, or standard input if the name is `-`. What is read from it is kept if that
/// is wanted.
pub fn open(
    rt: &HostRuntime,
    name: &str,
    file: InputFile,
    is_kept: bool,
) -> Result<Input, AppFault> {
    if is_standard_input(name) {
        return Ok(standard_input(rt, is_kept));
    }
    match fs::open(rt, name) {
        Ok(opened) => Ok(Adapted::new(Kept::new(rt.alloc(), Source::File(opened), is_kept))),
        Err(_) => Err(AppFault::Unread(file)),
    }
}

/// Opens the files of a design in reading order.
#[inline(never)]
pub fn open_design(
    rt: &HostRuntime,
    arch: &str,
    net: &str,
    place: &str,
    is_kept: bool,
) -> Result<OpenedDesign, AppFault> {
    let arch = open(rt, arch, InputFile::Arch, is_kept)?;
    let net = open(rt, net, InputFile::Net, is_kept)?;
    let place = open(rt, place, InputFile::Place, is_kept)?;
    Ok(OpenedDesign { arch, net, place })
}
