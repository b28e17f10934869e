//! A log of a negotiation, or of the negotiations of a search of widths: a head, a line for each
//! iteration, and a line for each width that was tried.

ghost use Rattle.std.specs.Prelude.{◌≡◌};
ghost use Rattle.std.specs.Duration.{as_nanos};
ghost use Rattle.run_log.specs.kept.Logged.{milliseconds_between};

use crate::log_sink::{LogHead, LogSink, log_head, log_row, log_trial};
use congestion_book::Book;
use net_workers::{Gate, ScheduledTurn, TrialEnd};
use rr_graph::Problem;
use std::io::Eprint;
use std::sync::{Mutex, Wait};
use std::time::{Clock, Duration};
use vpr_text::ByteSink;

/// A gate that writes a log: a head before the first negotiation, and a line after each iteration
/// and each trial of a width. Each of them is written whole and at once. If the log can't be
/// written, a warning goes to standard error, the log ends there, and the run goes on.
#[derive(Drop)]
pub struct Log<'a, R, W> {
    rt: &'a R,
    name: &'a str,
    head: LogHead<'a>,
    begin: Duration,
    sink: Mutex<LogSink<W>>,
}

/// Returns the milliseconds from one time to another.
fn milliseconds(begin: Duration, now: Duration) -> u64
    ensures { result ≡ milliseconds_between (as_nanos begin) (as_nanos now) }
{
    let elapsed = now.saturating_sub(begin);
    u64::try_from(elapsed.as_millis()).unwrap_or(u64::MAX)
}

impl<'a, R: Eprint + Clock + Wait, W: ByteSink + Drop> Log<'a, R, W> {
    /// Returns the log of a run that begins now. `name` is that of the log's file, for warnings.
    pub fn new(rt: &'a R, name: &'a str, head: LogHead<'a>, out: Option<W>) -> Log<'a, R, W>
        ensures { result.head ≡ head.entry }
    {
        let LogHead {
            program,
            files,
            workers,
            settings,
        } = head;
        Log {
            rt,
            name,
            head: LogHead {
                program,
                files,
                workers,
                settings,
            },
            begin: rt.monotonic().unwrap_or(Duration::ZERO),
            sink: Mutex::new(LogSink {
                out,
                is_begun: false,
            }),
        }
    }

    /// Returns the milliseconds since the log was made.
    fn elapsed(&self) -> u64 {
        milliseconds(self.begin, self.rt.monotonic().unwrap_or(self.begin))
    }

    /// Warns that the log can't be written, if it can't.
    fn complain_if(&self, has_failed: bool) {
        if has_failed {
            let name = self.name;
            let _ = eprintln!(self.rt; "warning: the log {name} cannot be written");
        }
    }
}

impl<R: Eprint + Clock + Wait, W: ByteSink + Drop> Gate for Log<'_, R, W> {
    ghost accepted = { λ gate k turns. Unit {0} };

    fn begins(&self, problem: &Problem) {
        let mut sink = self.sink.lock(self.rt);
        self.complain_if(log_head(&mut sink, &self.head, problem));
    }

    fn between(&self, _worker: u32, _net: u32) {}

    fn searched(&self, _worker: u32, _net: u32) {}

    fn accepts(&self, _iteration: u32, _turns: &[ScheduledTurn]) -> bool {
        true
    }

    fn closed(&self, iteration: u32, book: &Book) {
        let mut sink = self.sink.lock(self.rt);
        let settings = &self.head.settings;
        self.complain_if(log_row(&mut sink, settings, iteration, book, self.elapsed()));
    }

    fn tried(&self, width: u32, end: TrialEnd) {
        let mut sink = self.sink.lock(self.rt);
        self.complain_if(log_trial(&mut sink, width, end));
    }
}
