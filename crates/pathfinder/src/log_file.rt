//! The output of a log: a file of whole rows, or standard error.

use crate::files::{Errors, create_at_once, is_pipe};
use crate::shown::{Plain, PlainWriter};
use run_log::Progress;
use std::fs;
use std::fs::File;
use std::io::{ErrorKind, Result, Write};

/// A log's file, created at the first write to it, or standard error. If a write fails, the file is
/// cut to its last whole row. Nothing is written before the line of progress has ended.
#[derive(Drop)]
pub struct LogFile<'a> {
    rt: &'a HostRuntime,
    progress: &'a Progress<'a, HostRuntime>,
    /// The name of the file, or `None` for standard error.
    name: Option<&'a str>,
    file: Option<File>,
    errors: PlainWriter<Errors<'a>>,
    /// The number of bytes that were written, and of those that are in whole rows.
    count: u64,
    whole: u64,
}

impl<'a> LogFile<'a> {
    pub fn new(
        rt: &'a HostRuntime,
        progress: &'a Progress<'a, HostRuntime>,
        name: Option<&'a str>,
    ) -> LogFile<'a> {
        LogFile {
            rt,
            progress,
            name,
            file: None,
            errors: PlainWriter::new(Errors::new(rt), true),
            count: 0,
            whole: 0,
        }
    }

    /// Records bytes that were written.
    fn note(&mut self, bytes: &[u8]) {
        if let Some(end) = bytes.iter().rposition(|byte| *byte == b'\n') {
            let row = (end as u64).saturating_add(1);
            self.whole = self.count.saturating_add(row);
        }
        self.count = self.count.saturating_add(bytes.len() as u64);
    }
}

impl LogFile<'_> {
    /// Writes a front of the first bytes to a file that was just created. If that is a pipe that
    /// nobody reads, warns and waits for a reader.
    fn write_first(
        &self,
        name: &str,
        mut file: File,
        bytes: &[u8],
    ) -> Result<(File, Result<usize>)> {
        match file.write(bytes) {
            Err(error) if error.kind() == ErrorKind::BrokenPipe && is_pipe(self.rt, name) => {
                let plain = Plain(name);
                let _ = eprintln!(self.rt;
                    "warning: the log {plain} is a pipe that nobody reads yet: the run waits"
                );
                let mut file = fs::create(self.rt, name)?;
                let written = file.write(bytes);
                Ok((file, written))
            }
            written => Ok((file, written)),
        }
    }

    /// Writes a front of the bytes to the file. Returns the file and the result.
    fn write_to(&mut self, name: &str, bytes: &[u8]) -> Result<(File, Result<usize>)> {
        match self.file.take() {
            Some(mut file) => {
                let written = file.write(bytes);
                Ok((file, written))
            }
            None => {
                let file = create_at_once(self.rt, name)?;
                self.write_first(name, file, bytes)
            }
        }
    }
}

impl Write for LogFile<'_> {
    fn write(&mut self, bytes: &[u8]) -> Result<usize> {
        self.progress.end();
        let Some(name) = self.name else {
            return self.errors.write(bytes);
        };
        let (file, written) = self.write_to(name, bytes)?;
        let written = match written {
            Ok(count) => {
                let count = count.min(bytes.len());
                self.note(&bytes[..count]);
                Ok(count)
            }
            Err(error) => {
                let _ = file.set_len(self.whole);
                Err(error)
            }
        };
        self.file = Some(file);
        written
    }

    fn flush(&mut self) -> Result<()> {
        Ok(())
    }
}
