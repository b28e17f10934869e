//! The sinks that calls write texts to.

use std::alloc::Global;
use std::io::{Error, ErrorKind, Result as IoResult, Write};
use vpr_text::Adapted;

/// A sink that fails after a number of bytes, or never.
#[derive(Drop)]
pub struct ShortSink {
    pub bytes: Vec<u8>,
    left: Option<usize>,
    /// Whether it failed because memory ran out.
    pub lacked: bool,
}

impl Write for ShortSink {
    fn write(&mut self, bytes: &[u8]) -> IoResult<usize> {
        let count = self.left.unwrap_or(bytes.len()).min(bytes.len());
        if count == 0 {
            return Err(Error::from(ErrorKind::Other));
        }
        if self.bytes.extend_from_slice(&bytes[..count]).is_err() {
            self.lacked = true;
            return Err(Error::from(ErrorKind::OutOfMemory));
        }
        self.left = self.left.map(|left| left.saturating_sub(count));
        Ok(count)
    }

    fn flush(&mut self) -> IoResult<()> {
        Ok(())
    }
}

/// Returns an empty sink that fails after `left` bytes, or never.
pub fn sink(alloc: Global, left: Option<usize>) -> Adapted<ShortSink> {
    Adapted::new(ShortSink {
        bytes: Vec::new(alloc),
        left,
        lacked: false,
    })
}
