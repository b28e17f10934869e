//! Runs a script: reads its lines, makes its calls, prints their answers and compares them with the
//! expected ones.

use crate::answer::{Answer, Difference};
use crate::calls::make_call;
use crate::help::{Written, put_help, why_of, wrong_name};
use crate::mark::Mark;
use crate::shown::Shown;
use lab_session::session::Session;
use lab_session::sources::BELOW;
use lab_session::unanswered::Unanswered;
use lab_session::words::{Call, NO_WORDS, code_of, has_text, words};
use std::alloc::Global;
use std::fmt::Display;
use std::io::{BufRead, BufReader, Eprint, Read, Result as IoResult};
use std::rt::Runtime;
use std::sync::Wait;
use std::thread::Threads;

/// The number of bytes that are reserved for each line and each answer before the script runs.
const ROOM: usize = 65_536;

/// The line that ends a text below a call.
const END_OF_TEXT: &[u8] = b">>";

/// The line after which calls that lack memory or a thread are made again. It must come before all
/// calls.
const AGAIN: &str = "again";

/// The answer to that line after a call.
const LATE_AGAIN: Unanswered = Unanswered::Misread("again as the first line");

/// The prompts for a call, and for a line of a text below one.
const PROMPT: &str = "lab> ";

const TEXT_PROMPT: &str = "  >> ";

/// Which of the streams are terminals.
#[derive(Clone, Copy)]
pub struct Watched {
    /// Standard input; its script gets a prompt for each line.
    pub input: bool,
    /// Standard output; control characters are replaced there.
    pub output: bool,
}

/// The lines of a script.
#[derive(Drop)]
struct Script<'a, I> {
    name: &'a str,
    input: I,
    /// The number of the line that was read last, counted from 1.
    line: u64,
    /// Whether somebody types the lines and gets prompts.
    is_typed: bool,
}

impl<I: BufRead> Script<'_, I> {
    /// Prints a text for somebody who types the lines.
    fn ask(&self, rt: &impl Eprint, text: &str) {
        if self.is_typed {
            let _ = eprint!(rt; "{text}");
        }
    }

    /// Reads the next line, after a prompt. Returns false at the end.
    fn read(&mut self, rt: &impl Eprint, prompt: &str, line: &mut Vec<u8>) -> IoResult<bool> {
        self.ask(rt, prompt);
        line.clear();
        self.line = self.line.saturating_add(1);
        let count = self.input.read_until(b'\n', line)?;
        Ok(count > 0)
    }

    /// Reads the text up to the line that ends it. Returns false if the script ends first.
    fn read_text(&mut self, rt: &impl Eprint, below: &mut Below) -> IoResult<bool> {
        below.text.clear();
        for _ in 0..u64::MAX {
            if !self.read(rt, TEXT_PROMPT, &mut below.line)? {
                break;
            }
            if below.line.as_slice().trim_ascii() == END_OF_TEXT {
                return Ok(true);
            }
            below.text.extend_from_slice(below.line.as_slice())?;
        }
        Ok(false)
    }
}

/// The text below a call, and the line of it that was read last.
#[derive(Drop)]
struct Below {
    text: Vec<u8>,
    line: Vec<u8>,
}

impl Below {
    /// Returns an empty text.
    fn new(alloc: Global) -> IoResult<Below> {
        let text = Vec::with_capacity(alloc, ROOM)?;
        let line = Vec::with_capacity(alloc, ROOM)?;
        Ok(Below { text, line })
    }
}

/// A script that is being run.
#[derive(Drop)]
struct ScriptRun<'a, R, I> {
    rt: &'a R,
    script: Script<'a, I>,
    session: Session,
    answer: Answer,
    /// The line of the last call; 0 before the first one.
    call_line: u64,
    /// Whether a call that lacked memory or a thread is made again.
    repeats: bool,
    /// What is printed after each answer.
    mark: Mark,
    /// Whether the script was ended by a call.
    has_ended: bool,
    /// Whether standard output is a terminal.
    is_watched: bool,
    /// Whether all answers were as expected.
    is_good: bool,
}

impl<R: Runtime + Threads + Wait + Sync + AllocGlobal, I: BufRead> ScriptRun<'_, R, I> {
    /// Runs the script to its end, and returns whether all answers were as expected.
    fn run(&mut self) -> IoResult<bool> {
        let mut line = Vec::with_capacity(self.rt.alloc(), ROOM)?;
        let mut below = Below::new(self.rt.alloc())?;
        self.script
            .ask(self.rt, "`help` answers with all calls, `quit` ends\n");
        match self.run_lines(&mut line, &mut below) {
            Ok(()) => self.settle(),
            Err(error) => self.complain(error),
        }
        Ok(self.is_good)
    }

    /// Processes all lines.
    fn run_lines(&mut self, line: &mut Vec<u8>, below: &mut Below) -> IoResult<()> {
        for _ in 0..u64::MAX {
            if !self.script.read(self.rt, PROMPT, line)? {
                self.script.ask(self.rt, "\n");
                break;
            }
            self.step(line.as_slice(), below)?;
            if self.has_ended {
                break;
            }
        }
        Ok(())
    }

    /// Reports an error in the line that was read last.
    fn complain(&mut self, what: impl Display + Drop) {
        let line = self.script.line;
        self.complain_at(line, what);
    }

    /// Reports an error in the given line.
    fn complain_at(&mut self, line: u64, what: impl Display + Drop) {
        self.is_good = false;
        let name = Shown::within_line(self.script.name);
        let _ = eprintln!(self.rt; "{name}:{line}: {what}");
    }

    /// Reports an answer with more lines than expected, and clears it for another one.
    fn settle(&mut self) {
        if self.answer.is_left() {
            self.is_good = false;
            let more = Shown::within_line(self.answer.next_line().unwrap_or(""));
            let (name, line) = (Shown::within_line(self.script.name), self.script.line);
            let _ = eprintln!(self.rt;
                "{name}:{line}: more was answered above than is wanted: {more}"
            );
        }
        self.answer.begin();
    }

    /// Processes a line.
    fn step(&mut self, line: &[u8], below: &mut Below) -> IoResult<()> {
        let Ok(read) = str::from_utf8(line) else {
            self.complain("the line is no text");
            return self.print_mark();
        };
        let read = read.trim();
        if let Some(wanted) = read.strip_prefix('=') {
            self.compare(wanted.strip_prefix(' ').unwrap_or(wanted));
            return Ok(());
        }
        self.call(read, below)
    }

    /// Compares the next line of the answer with the expected one, and reports a difference.
    fn compare(&mut self, wanted: &str) {
        if let Some(difference) = self.answer.difference(wanted) {
            self.is_good = false;
            let (name, line) = (Shown::within_line(self.script.name), self.script.line);
            let _ = eprintln!(self.rt; "{name}:{line}: {difference}");
        }
        self.answer.go_on();
    }

    /// Makes the call of a line, if it has one.
    fn call(&mut self, line: &str, below: &mut Below) -> IoResult<()> {
        let code = code_of(line).trim();
        if code.is_empty() {
            return Ok(());
        }
        self.settle();
        let is_first = self.call_line == 0;
        self.call_line = self.script.line;
        if code == AGAIN {
            self.begin_again(is_first)?;
        } else {
            self.call_with_text(code, below)?;
        }
        self.print_mark()
    }

    /// Prints the mark after the answer, if there is one.
    fn print_mark(&mut self) -> IoResult<()> {
        if self.mark.is_none() {
            return Ok(());
        }
        let mark = Shown::within_line(self.mark.word());
        let start = if self.answer.has_open_line() {
            "\n"
        } else {
            ""
        };
        print!(self.rt; "{start}{mark}\n")
    }

    /// Has calls that lack memory or a thread made again from now on. Refuses that after another
    /// call.
    fn begin_again(&mut self, is_first: bool) -> IoResult<()> {
        if !is_first {
            return self.refuse(&LATE_AGAIN, AGAIN);
        }
        self.repeats = true;
        Ok(())
    }

    /// Makes a call with the text below it. Reports a text that has no end.
    fn call_with_text(&mut self, code: &str, below: &mut Below) -> IoResult<()> {
        if self.read_below(code, below)? {
            self.call_words(code, below.text.as_slice())
        } else {
            let line = self.call_line;
            self.complain_at(line, "no line `>>` ends the text below");
            Ok(())
        }
    }

    /// Reads the text below a line if the line announces one. Returns false if that text has no
    /// end.
    fn read_below(&mut self, code: &str, below: &mut Below) -> IoResult<bool> {
        if has_text(code) {
            self.script.read_text(self.rt, below)
        } else {
            below.text.clear();
            Ok(true)
        }
    }

    /// Splits a line into words and makes its call.
    fn call_words(&mut self, code: &str, text: &[u8]) -> IoResult<()> {
        match self.words_of(code)? {
            Some(words) => self.answer_words(words.as_slice(), text),
            None => Ok(()),
        }
    }

    /// Returns the words of a line. If memory runs out, prints that, and tries once more if calls
    /// are made again; `None` if there are still no words.
    fn words_of<'b>(&mut self, line: &'b str) -> IoResult<Option<Vec<&'b str>>> {
        match words(self.rt.alloc(), line) {
            Ok(words) => return Ok(Some(words)),
            Err(why) => self.refuse(&why, "")?,
        }
        if !self.repeats {
            return Ok(None);
        }
        Ok(words(self.rt.alloc(), line).ok())
    }

    /// Makes the call that the words of a line form.
    fn answer_words(&mut self, words: &[&str], text: &[u8]) -> IoResult<()> {
        let [name, given @ ..] = words else {
            return Ok(());
        };
        self.answer(Call { name, given, text })
    }

    /// Makes a call, and makes it again if it lacked memory or a thread and calls are made again.
    /// The first attempt begins a list of events with its first event.
    fn answer(&mut self, call: Call<'_>) -> IoResult<()> {
        self.session.books.standing = 0;
        let lacked = self.answer_once(call)?;
        if lacked && self.repeats {
            self.answer_once(call)?;
        }
        Ok(())
    }

    /// Makes a call, of the script itself or of the libraries.
    fn make(&mut self, call: Call<'_>) -> Result<(), Unanswered> {
        if !matches!(call.name, "help" | "mark" | "quit") {
            return make_call(self.rt, &mut self.session, call, &mut self.answer.text);
        }
        if call.given.contains(&BELOW) {
            return Err(Unanswered::Misread("the call with no text below it"));
        }
        self.make_own(call)
    }

    /// Makes a call of the script itself.
    fn make_own(&mut self, call: Call<'_>) -> Result<(), Unanswered> {
        match (call.name, call.given) {
            ("help", given) => put_help(&mut self.answer.text, given),
            ("mark", given) => self.mark.set(given),
            (_, []) => {
                self.has_ended = true;
                Ok(())
            }
            _ => Err(NO_WORDS),
        }
    }

    /// Makes a call and prints its answer. Returns whether it lacked memory or a thread.
    fn answer_once(&mut self, call: Call<'_>) -> IoResult<bool> {
        self.answer.begin();
        match self.make(call) {
            Ok(()) => {
                self.print()?;
                Ok(false)
            }
            Err(why) => {
                self.refuse(&why, wrong_name(call))?;
                Ok(why.is_for_want())
            }
        }
    }

    /// Prints why the call of this name has no answer. If the line is no valid call, also reports
    /// it as an error.
    fn refuse(&mut self, why: &Unanswered, name: &str) -> IoResult<()> {
        if let Unanswered::Misread(_) = why {
            return self.correct(name, why_of(why));
        }
        if matches!(why, Unanswered::NoCall) {
            let line = self.call_line;
            self.complain_at(line, why);
        }
        let _ = self.answer.refuse(why);
        self.print()
    }

    /// Prints how the call of this name is written, and reports an error.
    fn correct<'b>(&mut self, name: &'b str, why: &'b str) -> IoResult<()> {
        let line = self.call_line;
        self.complain_at(line, Written { name, why });
        let _ = self.answer.correct(Written { name, why });
        self.print()
    }

    /// Prints the answer. If it goes to a terminal, each control character other than a line feed
    /// is replaced with `?`.
    fn print(&mut self) -> IoResult<()> {
        let text = self.answer.text.as_str();
        if self.is_watched {
            print!(self.rt; "{}", Shown::lines(text))
        } else {
            print!(self.rt; "{text}")
        }
    }
}

/// Returns a script from this input, before its first line is read, and room for its answers.
fn opened<'a, I: Read + Drop>(
    alloc: Global,
    name: &'a str,
    input: I,
    is_typed: bool,
) -> IoResult<(Script<'a, BufReader<I>>, Answer)> {
    let mut text = String::new(alloc);
    text.reserve(ROOM)?;
    let script = Script {
        name,
        input: BufReader::new(alloc, input)?,
        line: 0,
        is_typed,
    };
    Ok((script, Answer::new(text)))
}

/// Runs a script in a new session, and returns whether all answers were as expected. `watched` is
/// which of its input and of standard output are terminals.
pub fn run_script<R: Runtime + Threads + Wait + Sync + AllocGlobal, I: Read + Drop>(
    rt: &R,
    name: &str,
    input: I,
    watched: Watched,
) -> IoResult<bool> {
    let (script, answer) = opened(rt.alloc(), name, input, watched.input)?;
    let mut run = ScriptRun {
        rt,
        script,
        session: Session::new(),
        answer,
        call_line: 0,
        repeats: false,
        mark: Mark::none(rt.alloc()),
        has_ended: false,
        is_watched: watched.output,
        is_good: true,
    };
    run.run()
}
