//! `lab` runs a script of calls to the router's libraries, and prints their answers.
#![tactic(auto)]

mod answer;
mod calls;
mod help;
mod mark;
mod runner;
mod shown;
mod table;
mod usage;

use runner::{Watched, run_script};
use shown::Shown;
use std::io::{ErrorKind, IsTerminal};
use std::process::ExitCode;
use std::rt::Runtime;
use std::sync::Wait;
use std::thread::Threads;
use std::{env, fs, io};
use usage::{USAGE, VERSION};

/// The exit status if an answer was not as expected, or a script could not be read.
const NOT_AS_WANTED: u8 = 1;

/// The exit status of an invalid command line.
const BAD_WORDS: u8 = 2;

/// The name of the script of standard input in messages.
const STDIN: &str = "stdin";

fn main(rt: HostRuntime) -> ExitCode {
    let watched = Watched {
        input: rt.stdin().is_terminal(),
        output: rt.stdout().is_terminal(),
    };
    match run(&rt, watched) {
        Ok(status) => ExitCode::from(status),
        Err(error) => {
            let _ = eprintln!(rt; "lab: {error}");
            ExitCode::from(NOT_AS_WANTED)
        }
    }
}

/// Runs the command line and returns the exit status.
fn run(
    rt: &(impl Runtime + Threads + Wait + Sync + AllocGlobal),
    watched: Watched,
) -> io::Result<u8> {
    match words(rt) {
        Ok(words) => run_words(rt, words.get(1..).unwrap_or(&[]), watched),
        Err(error) if error.kind() == ErrorKind::OutOfMemory => Err(error),
        Err(_) => {
            let _ = eprintln!(rt; "lab: a word of the command line is no text");
            Ok(BAD_WORDS)
        }
    }
}

/// Returns the words of the command line, beginning with the program's name.
fn words(rt: &(impl Runtime + AllocGlobal)) -> io::Result<Vec<String>> {
    Ok(env::args(rt)?.collect(rt.alloc())?)
}

/// Runs the scripts or the option that the words after the program's name give, and returns the
/// exit status.
fn run_words(
    rt: &(impl Runtime + Threads + Wait + Sync + AllocGlobal),
    words: &[String],
    watched: Watched,
) -> io::Result<u8> {
    match words.iter().find(|word| word.starts_with('-')) {
        Some(option) => answer_option(rt, option.as_str()),
        None => Ok(status_of(run_scripts(rt, words, watched)?)),
    }
}

/// Returns the exit status. `is_good` is whether all answers were as expected.
fn status_of(is_good: bool) -> u8 {
    if is_good { 0 } else { NOT_AS_WANTED }
}

/// Prints the usage or the version, or reports an unknown option, and returns the exit status.
fn answer_option(rt: &impl Runtime, option: &str) -> io::Result<u8> {
    let text = match option {
        "--help" => USAGE,
        "--version" => VERSION,
        _ => "",
    };
    if !text.is_empty() {
        print!(rt; "{text}")?;
        return Ok(0);
    }
    let option = Shown::within_line(option);
    let _ = eprintln!(rt; "lab: unknown option {option}; see lab --help");
    Ok(BAD_WORDS)
}

/// Runs the scripts of these files, each in a new session, or the script of standard input if there
/// are no files. Returns whether all answers were as expected.
fn run_scripts(
    rt: &(impl Runtime + Threads + Wait + Sync + AllocGlobal),
    names: &[String],
    watched: Watched,
) -> io::Result<bool> {
    if names.is_empty() {
        return run_script(rt, STDIN, rt.reader(), watched);
    }
    let mut is_good = true;
    for name in names {
        is_good &= run_file(rt, name.as_str(), watched)?;
    }
    Ok(is_good)
}

/// Runs the script of a file, and returns whether all answers were as expected. If the file can't
/// be opened, reports that and returns false.
fn run_file(
    rt: &(impl Runtime + Threads + Wait + Sync + AllocGlobal),
    name: &str,
    watched: Watched,
) -> io::Result<bool> {
    match fs::open(rt, name) {
        Ok(file) => {
            let watched = Watched {
                input: false,
                output: watched.output,
            };
            run_script(rt, name, file, watched)
        }
        Err(error) => {
            let _ = eprintln!(rt; "lab: {}: {error}", Shown::within_line(name));
            Ok(false)
        }
    }
}
