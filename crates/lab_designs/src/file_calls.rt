//! Calls that keep the files of a run of the program.

use lab_session::answer::{added, put};
use lab_session::session::{RunFiles, RunText};
use lab_session::sources::run_text;
use lab_session::unanswered::Unanswered;
use lab_session::words::{Call, NO_NUMBER, NO_WORDS, number};
use std::rt::Runtime;

/// Makes a call, and adds its answer.
pub fn call(
    rt: &(impl Runtime + AllocGlobal),
    files: &mut RunFiles,
    call: Call<'_>,
    out: &mut String,
) -> Result<(), Unanswered> {
    match call.name {
        "run_arch" | "run_net" | "run_place" | "run_route" => read(rt, files, call, out),
        _ => call_sinks(files, call, out),
    }
}

/// Reads a file, keeps it, and adds its number of bytes.
fn read(
    rt: &(impl Runtime + AllocGlobal),
    files: &mut RunFiles,
    call: Call<'_>,
    out: &mut String,
) -> Result<(), Unanswered> {
    let text = run_text(rt, call)?;
    let count = text.bytes.len();
    keep(files, call.name, text);
    added(writeln!(out, "{count} bytes"))
}

/// Makes a call of the sinks of runs or of all files, and adds its answer.
fn call_sinks(files: &mut RunFiles, call: Call<'_>, out: &mut String) -> Result<(), Unanswered> {
    match call.name {
        "route_sink" | "out_sink" | "words_sink" => {
            keep_room(files, call.name, room(call.given, out)?);
            Ok(())
        }
        "dump_files" => {
            if !call.given.is_empty() {
                return Err(NO_WORDS);
            }
            dump(files, out)
        }
        _ => Err(Unanswered::NoCall),
    }
}

/// Keeps the text of a file. The name of the call decides which file.
fn keep(files: &mut RunFiles, name: &str, text: RunText) {
    let file = match name {
        "run_arch" => &mut files.arch,
        "run_net" => &mut files.net,
        "run_place" => &mut files.place,
        _ => &mut files.route,
    };
    *file = Some(text);
}

/// Keeps the number of bytes after which a sink fails. The name of the call decides which sink.
fn keep_room(files: &mut RunFiles, name: &str, room: Option<usize>) {
    match name {
        "route_sink" => files.route_room = room,
        "words_sink" => files.words_room = room,
        _ => files.out_room = room,
    }
}

/// Adds a line for each file, and for each sink.
fn dump(files: &RunFiles, out: &mut String) -> Result<(), Unanswered> {
    put_file("arch", &files.arch, out)?;
    put_file("net", &files.net, out)?;
    put_file("place", &files.place, out)?;
    put_file("route", &files.route, out)?;
    put_room("route sink", files.route_room, out)?;
    put_room("out sink", files.out_room, out)?;
    put_room("words sink", files.words_room, out)
}

/// Adds the number of bytes of a file and the number after which its source fails, or `none` if
/// there is no file.
fn put_file(name: &str, file: &Option<RunText>, out: &mut String) -> Result<(), Unanswered> {
    match file {
        Some(text) => {
            write!(out, "{name}: {} bytes, ", text.bytes.len())?;
            put_room("source", text.failing, out)
        }
        None => { added(writeln!(out, "{name}: none")) }
    }
}

/// Adds the number of bytes after which a source or sink fails, or that it doesn't fail.
fn put_room(name: &str, room: Option<usize>, out: &mut String) -> Result<(), Unanswered> {
    match room {
        Some(count) => writeln!(out, "{name} failing {count}")?,
        None => writeln!(out, "{name} whole")?,
    }
    Ok(())
}

/// Reads the number of bytes after which a sink fails, if it is to fail, and adds `ok`.
fn room(given: &[&str], out: &mut String) -> Result<Option<usize>, Unanswered> {
    let room = match given {
        [word] if *word == "whole" => None,
        [word, count] if *word == "failing" => match number(count) {
            Some(count) => Some(count as usize),
            None => return Err(NO_NUMBER),
        },
        _ => return Err(Unanswered::Misread("the sink and `whole` or `failing N` after it")),
    };
    put(out, "ok")?;
    Ok(room)
}
