//! A line that shows people how far a negotiation is, and a line for each width that was tried.

use congestion_book::Book;
use net_workers::{Gate, ScheduledTurn, TrialEnd};
use std::fmt;
use std::fmt::Write;
use std::io::Eprint;
use std::sync::atomic::{AtomicBool, AtomicU32, AtomicU64, Ordering};
use std::time::{Clock, Duration};

/// The least number of milliseconds between two writes of the line.
const PAUSE: u64 = 100;

/// The text that clears the line of a terminal from its beginning.
const CLEAR: &str = "\r\x1b[K";

/// The text that keeps a terminal from wrapping long lines. `WRAP` lets it wrap them again.
const CUT: &str = "\x1b[?7l";

const WRAP: &str = "\x1b[?7h";

/// The number of columns of a terminal whose size is unknown.
const COLUMNS: u32 = 80;

/// A time, printed in seconds.
#[derive(Clone, Copy, Debug)]
struct Seconds {
    milliseconds: u64,
}

impl fmt::Display for Seconds {
    fn fmt<W: Write>(&self, f: &mut fmt::Formatter<W>) -> fmt::Result {
        let (seconds, tenths) = (self.milliseconds / 1000, self.milliseconds % 1000 / 100);
        write!(f, "{seconds}.{tenths} s")
    }
}

/// How far a negotiation is.
#[derive(Clone, Copy, Debug)]
struct Standing {
    /// The width that is being tried, or 0 if there is no search of widths.
    width: u32,
    /// The least width that was routed, if it is shown; 0 if none was.
    least: u32,
    iteration: u32,
    /// The number of nets that had their turn in the iteration.
    turns: u32,
    /// The number of nets.
    nets: u32,
    /// The number of nodes that were overused after the last close. No iteration was closed before
    /// the first one.
    overused: u32,
}

impl fmt::Display for Standing {
    fn fmt<W: Write>(&self, f: &mut fmt::Formatter<W>) -> fmt::Result {
        let Standing {
            width,
            least,
            iteration,
            turns,
            nets,
            overused,
        } = *self;
        if width > 0 {
            write!(f, "width {width}, ")?;
        }
        if least > 0 {
            write!(f, "least routed {least}, ")?;
        }
        let (net, node) = (plural(nets), plural(overused));
        write!(f, "iteration {iteration}: {turns} of {nets} net{net}")?;
        if iteration > 1 {
            write!(f, ", {overused} node{node} overused before")?;
        }
        Ok(())
    }
}

/// Returns the ending of a word for this number of things.
fn plural(count: u32) -> &'static str {
    if count == 1 { "" } else { "s" }
}

/// Passes on the front of a text that there is room for, and drops the rest.
#[derive(Drop)]
struct Front<'a, W> {
    out: &'a mut W,
    room: usize,
}

impl<W: Write> Write for Front<'_, W> {
    fn write_str(&mut self, text: &str) -> fmt::Result {
        let front = text.get(..self.room).unwrap_or(text);
        self.room = self.room.saturating_sub(front.len());
        self.out.write_str(front)
    }
}

/// The line as it is shown, cut to the room that there is.
#[derive(Clone, Copy, Debug)]
struct Line {
    standing: Standing,
    time: Seconds,
    room: usize,
}

impl fmt::Display for Line {
    fn fmt<W: Write>(&self, f: &mut fmt::Formatter<W>) -> fmt::Result {
        let Line {
            standing,
            time,
            room,
        } = *self;
        let mut front = Front { out: f, room };
        write!(front, "{standing}, {time}")
    }
}

/// A gate that keeps a line on standard error up to date, for people who watch a terminal. The line
/// shows the width, if widths are tried, the iteration, how many of all nets had their turn in it,
/// how many nodes were overused after the last close, and the time since the gate was made. It is
/// no longer than the terminal's row. `end` removes it. After each trial of a width, a line with
/// the outcome stays, unless `without_trials` was called.
#[derive(Drop)]
pub struct Progress<'a, R> {
    rt: &'a R,
    is_wanted: bool,
    /// The number of columns of the terminal.
    columns: u32,
    begin: Duration,
    /// Whether a line stays after each trial of a width. If not, the line of progress shows the
    /// least width that was routed.
    keeps_trials: bool,
    /// The width that is being tried, or 0 if there is no search of widths.
    width: AtomicU32,
    /// The least width that was routed, or 0 if none was.
    least: AtomicU32,
    iteration: AtomicU32,
    turns: AtomicU32,
    nets: AtomicU32,
    overused: AtomicU32,
    /// The time at which the line may be written again, in milliseconds.
    due: AtomicU64,
    is_shown: AtomicBool,
}

impl<'a, R: Eprint + Clock> Progress<'a, R> {
    /// Returns a gate that begins now, on a terminal of 80 columns. If it isn't wanted, it never
    /// writes.
    pub fn new(rt: &'a R, is_wanted: bool) -> Progress<'a, R> {
        Progress {
            rt,
            is_wanted,
            columns: COLUMNS,
            begin: rt.monotonic().unwrap_or(Duration::ZERO),
            keeps_trials: true,
            width: AtomicU32::new(0),
            least: AtomicU32::new(0),
            iteration: AtomicU32::new(1),
            turns: AtomicU32::new(0),
            nets: AtomicU32::new(0),
            overused: AtomicU32::new(0),
            due: AtomicU64::new(PAUSE),
            is_shown: AtomicBool::new(false),
        }
    }

    /// Sets the number of columns of the terminal.
    pub fn within(mut self, columns: u32) -> Progress<'a, R> {
        self.columns = columns;
        self
    }

    /// Lets no line stay after a trial of a width. This is for a terminal that standard output goes
    /// to as well, since these lines appear there at the end.
    pub fn without_trials(mut self) -> Progress<'a, R> {
        self.keeps_trials = false;
        self
    }

    /// Returns the least width that the line shows, or 0 if it shows none.
    fn shown_least(&self) -> u32 {
        if self.keeps_trials {
            return 0;
        }
        self.least.load(Ordering::SeqCst)
    }

    /// Records that a width was routed.
    fn note_routed(&self, width: u32) {
        let least = self.least.load(Ordering::SeqCst);
        if least == 0 || width < least {
            self.least.store(width, Ordering::SeqCst);
        }
    }

    /// Returns the milliseconds since the gate was made.
    fn elapsed(&self) -> u64 {
        let now = self.rt.monotonic().unwrap_or(self.begin);
        let elapsed = now.saturating_sub(self.begin);
        u64::try_from(elapsed.as_millis()).unwrap_or(u64::MAX)
    }

    /// Writes the line.
    fn show(&self, elapsed: u64) {
        self.due
            .store(elapsed.saturating_add(PAUSE), Ordering::SeqCst);
        self.is_shown.store(true, Ordering::SeqCst);
        let standing = Standing {
            width: self.width.load(Ordering::SeqCst),
            least: self.shown_least(),
            iteration: self.iteration.load(Ordering::SeqCst),
            turns: self.turns.load(Ordering::SeqCst),
            nets: self.nets.load(Ordering::SeqCst),
            overused: self.overused.load(Ordering::SeqCst),
        };
        let line = Line {
            standing,
            time: Seconds {
                milliseconds: elapsed,
            },
            room: self.columns.saturating_sub(1) as usize,
        };
        let _ = eprint!(self.rt; "{CLEAR}{CUT}{line}{WRAP}");
    }

    /// Records how many nodes are overused after a close.
    pub fn note_overused(&self, overused: u32) {
        self.overused.store(overused, Ordering::SeqCst);
    }

    /// Removes the line, if it was written.
    pub fn end(&self) {
        if self.is_shown.swap(false, Ordering::SeqCst) {
            let _ = eprint!(self.rt; "{CLEAR}");
        }
    }
}

impl<R: Eprint + Clock> Gate for Progress<'_, R> {
    ghost accepted = { λ gate k turns. Unit {0} };

    fn opened(&self, iteration: u32, nets: u32) {
        self.iteration.store(iteration, Ordering::SeqCst);
        self.turns.store(0, Ordering::SeqCst);
        self.nets.store(nets, Ordering::SeqCst);
    }

    fn between(&self, _worker: u32, _net: u32) {}

    fn searched(&self, _worker: u32, _net: u32) {
        if !self.is_wanted {
            return;
        }
        self.turns.fetch_add(1, Ordering::SeqCst);
        let elapsed = self.elapsed();
        if elapsed >= self.due.load(Ordering::SeqCst) {
            self.show(elapsed);
        }
    }

    fn accepts(&self, _iteration: u32, _turns: &[ScheduledTurn]) -> bool {
        true
    }

    fn closed(&self, _iteration: u32, book: &Book) {
        self.note_overused(book.overused());
    }

    fn tries(&self, width: u32) {
        self.width.store(width, Ordering::SeqCst);
    }

    fn tried(&self, width: u32, end: TrialEnd) {
        if matches!(end, TrialEnd::Routed { .. }) {
            self.note_routed(width);
        }
        if !self.is_wanted {
            return;
        }
        self.end();
        if !self.keeps_trials {
            return;
        }
        let time = Seconds {
            milliseconds: self.elapsed(),
        };
        let _ = match end {
            TrialEnd::Routed { iterations } => {
                eprintln!(self.rt; "width {width}: routed, iterations {iterations}, {time}")
            }
            TrialEnd::NotRouted {
                unrouted,
                overused,
                iterations,
            } => eprintln!(self.rt;
                "width {width}: not routed: unrouted {unrouted}, overused {overused}, iterations {iterations}, {time}"
            ),
        };
    }
}
