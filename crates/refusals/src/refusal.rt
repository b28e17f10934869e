//! Explains a refused file on standard error: the place, the line, the word, and what to do.

use crate::advice::{Advice, Offender, advice_on};
use crate::foreign::foreign_format;
use crate::location::{is_continued, line_at, line_of, shown, word_of};
use crate::pin_counts::{PinCounts, pin_counts};
use run_inputs::{AppFault, InputFile};
use std::alloc::{AllocGlobal, Global};
use std::io::Eprint;
use vpr_text::{Lines, lines};

/// The greatest number of physical lines shown of a continued line.
const MOST_LINES: u32 = 8;

/// A file of a run: its name as it is shown, and the bytes that were read from it, or no bytes if
/// they were not kept.
#[derive(Clone, Copy)]
pub struct FileRead<'a> {
    pub name: &'a str,
    pub bytes: &'a [u8],
}

/// The files of a run. A file that the run doesn't have has no name.
#[derive(Clone, Copy)]
pub struct FilesRead<'a> {
    pub arch: FileRead<'a>,
    pub net: FileRead<'a>,
    pub place: FileRead<'a>,
    pub route: FileRead<'a>,
}

impl<'a> FilesRead<'a> {
    fn of(&self, file: InputFile) -> FileRead<'a> {
        match file {
            InputFile::Arch => self.arch,
            InputFile::Net => self.net,
            InputFile::Place => self.place,
            InputFile::Route => self.route,
        }
    }
}

/// Prints on standard error why a file was refused and what to do, as far as memory suffices.
pub fn tell_refusal(rt: &(impl Eprint + AllocGlobal), fault: &AppFault, files: FilesRead<'_>) {
    if let Some(advice) = advice_on(fault) {
        tell(rt, &advice, files);
    }
}

/// Prints advice.
fn tell(rt: &(impl Eprint + AllocGlobal), advice: &Advice, files: FilesRead<'_>) {
    let file = files.of(advice.file);
    let name = file.name;
    match advice.offender {
        Offender::Block(block) => tell_block(rt, advice, name, files.net.bytes, block),
        _ if advice.line == 0 => {
            let text = text_on(advice, file.bytes);
            let _ = eprintln!(rt; "{name}: {text}");
        }
        Offender::Names => tell_names(rt, advice, file, files.arch.bytes),
        _ => tell_line(rt, advice, file),
    }
}

/// Prints that a block has no row.
fn tell_block(
    rt: &(impl Eprint + AllocGlobal),
    advice: &Advice,
    name: &str,
    net: &[u8],
    block: usize,
) {
    let text = advice.text;
    match name_among(rt.alloc(), net, block) {
        Some(block) => {
            let _ = eprintln!(rt; "{name}: block {block} {text}");
        }
        None => {
            let _ = eprintln!(rt; "{name}: block {block} {text}");
        }
    }
}

/// Returns the name of the element of a netlist that has the block's number.
fn name_among(alloc: Global, bytes: &[u8], block: usize) -> Option<String> {
    let lines = lines(alloc, bytes).ok()?;
    let line = (0..lines.len())
        .filter(|line| is_element(&lines, *line))
        .nth(block)?;
    shown(alloc, lines.word(line, 1)?)
}

/// Returns whether a line of a netlist is an element.
fn is_element(lines: &Lines<'_>, line: usize) -> bool {
    match lines.word(line, 0) {
        Some(word) => matches!(word, b".input" | b".output" | b".clb"),
        None => false,
    }
}

/// Prints the advice on a pinlist with how many names it has and how many pins its block, and then
/// the text of the line.
fn tell_names(rt: &(impl Eprint + AllocGlobal), advice: &Advice, file: FileRead<'_>, arch: &[u8]) {
    let (name, line) = (file.name, advice.line);
    match counts_at(rt.alloc(), file.bytes, line, arch) {
        Some(counts) => {
            let _ = eprintln!(rt; "{name}:{line}: {counts}");
            tell_texts(rt, line, file);
        }
        None => tell_line(rt, advice, file),
    }
}

/// Returns the counts of the pinlist on a line of a netlist, if memory suffices.
fn counts_at(alloc: Global, net: &[u8], line: u32, arch: &[u8]) -> Option<PinCounts> {
    let lines = lines(alloc, net).ok()?;
    let place = line_at(&lines, line)?;
    pin_counts(alloc, &lines, place, arch)
}

/// Prints the advice on a refused line, with the offending word, and then the text of the line.
fn tell_line(rt: &(impl Eprint + AllocGlobal), advice: &Advice, file: FileRead<'_>) {
    tell_word(rt, advice, file);
    tell_texts(rt, advice.line, file);
}

/// Prints the text of a line, and of those that it continues in.
fn tell_texts(rt: &(impl Eprint + AllocGlobal), first: u32, file: FileRead<'_>) {
    let mut line = first;
    for _ in 0..MOST_LINES {
        let text = line_of(file.bytes, line);
        tell_text(rt, file.name, line, text);
        if !is_continued(text) {
            return;
        }
        line = line.saturating_add(1);
    }
}

/// Prints a line of a file, unless it has no text.
fn tell_text(rt: &(impl Eprint + AllocGlobal), name: &str, line: u32, text: &[u8]) {
    if text.is_empty() {
        return;
    }
    if let Some(text) = shown(rt.alloc(), text) {
        let _ = eprintln!(rt; "{name}:{line}: | {text}");
    }
}

/// Prints the advice on a line, after the offending word if there is one.
fn tell_word(rt: &(impl Eprint + AllocGlobal), advice: &Advice, file: FileRead<'_>) {
    let name = file.name;
    let (line, text) = (advice.line, text_on(advice, file.bytes));
    match word_of(rt.alloc(), file.bytes, line, advice.offender) {
        Some(word) => {
            let _ = eprintln!(rt; "{name}:{line}: `{word}`: {text}");
        }
        None => {
            let _ = eprintln!(rt; "{name}:{line}: {text}");
        }
    }
}

/// Returns the advice on a file, or other advice if it looks like one of a later version of VPR.
fn text_on(advice: &Advice, bytes: &[u8]) -> &'static str {
    foreign_format(advice.file, bytes).unwrap_or(advice.text)
}
