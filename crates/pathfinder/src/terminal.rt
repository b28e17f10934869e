//! What is known of the terminals that standard output and standard error go to.

use crate::shown::PlainWriter;
use run_log::Progress;
use std::env::{Env, FillError};
use std::io;
use std::io::Printer;
use vpr_text::number;

/// The number of columns of a terminal whose size is unknown.
const COLUMNS: u32 = 80;

/// Whether standard output and standard error are terminals, which somebody may watch.
#[derive(Clone, Copy)]
pub struct Watched {
    pub output: bool,
    pub errors: bool,
}

impl Watched {
    /// Returns whether a refused file is explained: if that is asked for, or if standard error is a
    /// terminal.
    pub fn explains(self, is_asked: bool) -> bool {
        is_asked || self.errors
    }
}

/// What a run prints on, and the progress that it shows.
#[derive(Drop)]
pub struct Screen<'a> {
    pub rt: &'a HostRuntime,
    pub watched: Watched,
    pub progress: Progress<'a, HostRuntime>,
}

impl<'a> Screen<'a> {
    /// Returns the screen of a run. Progress is shown if standard error is a terminal on which a
    /// line can be taken back.
    pub fn new(rt: &'a HostRuntime, watched: Watched) -> Screen<'a> {
        let is_wanted = watched.errors && takes_lines_back(rt);
        let progress = Progress::new(rt, is_wanted).within(columns(rt));
        Screen {
            rt,
            watched,
            progress: if watched.output {
                progress.without_trials()
            } else {
                progress
            },
        }
    }
}

/// Returns standard output, without control characters if it is a terminal.
pub fn output(rt: &HostRuntime, watched: Watched) -> PlainWriter<Printer<'_, HostRuntime>> {
    PlainWriter::new(io::writer(rt), watched.output)
}

/// Returns whether a line on the terminal can be taken back: `TERM` names a terminal other than a
/// dumb one.
fn takes_lines_back(env: &impl Env) -> bool {
    let mut name = [0; 16];
    match env.var("TERM", &mut name) {
        Ok(length) => length > 0 && name.get(..length) != Some(b"dumb"),
        Err(FillError::TooLong) => true,
        Err(FillError::NotPresent) => false,
    }
}

/// Returns the number of columns of the terminal: the number in `COLUMNS`, or 80.
fn columns(env: &impl Env) -> u32 {
    let mut text = [0; 16];
    let length = env.var("COLUMNS", &mut text).unwrap_or(0);
    match text.get(..length).and_then(|text| number(text)) {
        Some(columns) if columns > 0 => columns,
        _ => COLUMNS,
    }
}
