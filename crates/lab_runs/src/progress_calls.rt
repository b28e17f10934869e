//! Calls of `run_log`: the progress of a negotiation. The terminal keeps what is written to it, and
//! the script sets the clock.

use lab_session::answer::{added, put};
use lab_session::sources::BELOW;
use lab_session::trial_ends::tried;
use lab_session::unanswered::Unanswered;
use lab_session::words::{Call, NO_NUMBER, NO_WORDS, number, numbers, words};
use net_workers::Gate;
use run_log::Progress;
use std::alloc::Global;
use std::fmt;
use std::fmt::{Display, Write};
use std::io::{Eprint, Result as IoResult};
use std::rt::Runtime;
use std::sync::atomic::{AtomicBool, AtomicU32, AtomicU64, Ordering};
use std::sync::{Mutex, Wait};
use std::time::{Clock, Duration};

/// The syntax of the call.
const PROGRESS: &str =
    "progress << or progress unwanted <<, with a time or a gate's call on each line, or end";

/// The time of the clock at the beginning, in milliseconds. Progress can begin at any time, so it
/// isn't 0.
const BEGIN: u64 = 3_600_000;

/// Takes text, and shows what moves the cursor of a terminal as `\r`, `\e` and `\n`.
#[derive(Drop)]
struct Shown<'a> {
    text: &'a mut String,
}

impl fmt::Write for Shown<'_> {
    fn write_str(&mut self, s: &str) -> fmt::Result {
        for letter in s.chars() {
            let pushed = match letter {
                '\r' => self.text.push_str("\\r"),
                '\x1b' => self.text.push_str("\\e"),
                '\n' => self.text.push_str("\\n"),
                _ => self.text.push(letter),
            };
            if pushed.is_err() {
                return Err(fmt::Error);
            }
        }
        Ok(())
    }
}

/// Adds a line with what a line of the script wrote.
fn put_write<D: Display + Drop>(
    line: u32,
    value: D,
    end: &str,
    out: &mut String,
) -> Result<(), Unanswered> {
    write!(out, "{line}: ")?;
    let mut shown = Shown { text: out };
    if shown.write(value).is_err() || shown.write_str(end).is_err() {
        return Err(Unanswered::Memory);
    }
    put(out, "")
}

/// A terminal that keeps each write to it as a line, with a clock that moves only when it is set.
#[derive(Drop)]
struct Screen<'a, R> {
    rt: &'a R,
    /// The number of the script's line that is being processed.
    line: AtomicU32,
    milliseconds: AtomicU64,
    written: Mutex<String>,
    /// Whether memory ran out for a write.
    lacked: AtomicBool,
}

impl<'a, R: Wait> Screen<'a, R> {
    /// Returns a terminal that nothing was written to.
    fn new(rt: &'a R, alloc: Global) -> Screen<'a, R> {
        Screen {
            rt,
            line: AtomicU32::new(0),
            milliseconds: AtomicU64::new(BEGIN),
            written: Mutex::new(String::new(alloc)),
            lacked: AtomicBool::new(false),
        }
    }

    /// Sets the clock to this many milliseconds after its beginning.
    fn set_clock(&self, time: u32) {
        let time = BEGIN.saturating_add(time as u64);
        self.milliseconds.store(time, Ordering::SeqCst);
    }

    /// Keeps what is written.
    fn keep<D: Display + Drop>(&self, value: D, end: &str) {
        let line = self.line.load(Ordering::SeqCst);
        let mut written = self.written.lock(self.rt);
        if put_write(line, value, end, &mut written).is_err() {
            self.lacked.store(true, Ordering::SeqCst);
        }
    }

    /// Adds what was written, or `none`.
    fn put(&self, out: &mut String) -> Result<(), Unanswered> {
        if self.lacked.load(Ordering::SeqCst) {
            return Err(Unanswered::Memory);
        }
        let written = self.written.lock(self.rt);
        if written.is_empty() {
            return put(out, "none");
        }
        added(out.push_str(written.as_str()))
    }
}

impl<R: Wait> Eprint for Screen<'_, R> {
    fn eprint<D: Display + Drop>(&self, value: D) -> IoResult<()> {
        self.keep(value, "");
        Ok(())
    }

    fn eprintln<D: Display + Drop>(&self, value: D) -> IoResult<()> {
        self.keep(value, "\n");
        Ok(())
    }
}

impl<R: Wait> Clock for Screen<'_, R> {
    fn monotonic(&self) -> IoResult<Duration> {
        Ok(Duration::from_millis(self.milliseconds.load(Ordering::SeqCst)))
    }

    fn since_1970(&self) -> IoResult<Duration> {
        self.monotonic()
    }
}

/// Makes a call, and adds its answer.
pub fn call(
    rt: &(impl Runtime + Wait + AllocGlobal),
    call: Call<'_>,
    out: &mut String,
) -> Result<(), Unanswered> {
    match (call.name, call.given) {
        ("progress", [below]) if *below == BELOW => show(rt, true, call.text, out),
        ("progress", [word, below]) if *word == "unwanted" && *below == BELOW => {
            show(rt, false, call.text, out)
        }
        ("progress", _) => Err(Unanswered::Misread(PROGRESS)),
        _ => Err(Unanswered::NoCall),
    }
}

/// Makes the calls of a progress that a text lists, and adds what it wrote.
fn show(
    rt: &(impl Wait + AllocGlobal),
    is_wanted: bool,
    text: &[u8],
    out: &mut String,
) -> Result<(), Unanswered> {
    let Ok(text) = str::from_utf8(text) else {
        return Err(Unanswered::Misread(PROGRESS));
    };
    let terminal = Screen::new(rt, rt.alloc());
    let progress = Progress::new(&terminal, is_wanted);
    show_lines(rt.alloc(), &terminal, &progress, text)?;
    terminal.put(out)
}

/// Makes the calls that some lines give.
fn show_lines<R: Wait>(
    alloc: Global,
    terminal: &Screen<'_, R>,
    progress: &Progress<'_, Screen<'_, R>>,
    text: &str,
) -> Result<(), Unanswered> {
    for line in text.lines() {
        terminal.line.fetch_add(1, Ordering::SeqCst);
        show_line(alloc, terminal, progress, line)?;
    }
    Ok(())
}

/// Sets the clock or makes a call of the progress, as a line asks.
fn show_line<R: Wait>(
    alloc: Global,
    terminal: &Screen<'_, R>,
    progress: &Progress<'_, Screen<'_, R>>,
    line: &str,
) -> Result<(), Unanswered> {
    let words = words(alloc, line)?;
    match words.as_slice() {
        [name, time] if *name == "at" => set_clock(terminal, *time),
        [name, given @ ..] => step(progress, *name, given),
        [] => Ok(()),
    }
}

/// Sets the clock to the milliseconds that a word gives.
fn set_clock<R: Wait>(terminal: &Screen<'_, R>, word: &str) -> Result<(), Unanswered> {
    match number(word) {
        Some(time) => {
            terminal.set_clock(time);
            Ok(())
        }
        None => Err(NO_NUMBER),
    }
}

/// Makes the call that a line gives.
fn step<T: Eprint + Clock>(
    progress: &Progress<'_, T>,
    name: &str,
    given: &[&str],
) -> Result<(), Unanswered> {
    match name {
        "tries" => {
            let [width] = numbers::<1>(given)?;
            progress.tries(width);
            Ok(())
        }
        "tried" => {
            let (width, end) = tried(given, PROGRESS)?;
            progress.tried(width, end);
            Ok(())
        }
        "end" => {
            if !given.is_empty() {
                return Err(NO_WORDS);
            }
            progress.end();
            Ok(())
        }
        _ => step_of_negotiation(progress, name, given),
    }
}

/// Makes the call within a negotiation that a line gives.
fn step_of_negotiation<T: Eprint + Clock>(
    progress: &Progress<'_, T>,
    name: &str,
    given: &[&str],
) -> Result<(), Unanswered> {
    match name {
        "opened" => {
            let [iteration, nets] = numbers::<2>(given)?;
            progress.opened(iteration, nets);
        }
        "between" => {
            let [worker, net] = numbers::<2>(given)?;
            progress.between(worker, net);
        }
        "searched" => {
            let [worker, net] = numbers::<2>(given)?;
            progress.searched(worker, net);
        }
        "closed" => {
            let [_iteration, _unrouted, overused] = numbers::<3>(given)?;
            progress.note_overused(overused);
        }
        _ => return Err(Unanswered::Misread(PROGRESS)),
    }
    Ok(())
}
