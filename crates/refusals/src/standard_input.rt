//! `-` as the name of a file: standard input, for at most one of the files that a run reads.

use run_inputs::InputFile;
use std::fmt;

/// The name of standard input.
const STANDARD_INPUT: &str = "-";

/// The inputs in the order of the command line.
const INPUTS: [InputFile; 4] = [
    InputFile::Net,
    InputFile::Arch,
    InputFile::Place,
    InputFile::Route,
];

/// Why the names of a run's files are refused.
#[derive(Clone, Copy, Debug, PartialEq, Eq)]
pub enum NameFault {
    /// Two inputs are standard input.
    Both(InputFile, InputFile),
    /// ROUTE, which is written, is `-`.
    Written,
}

impl fmt::Display for NameFault {
    fn fmt<W: fmt::Write>(&self, f: &mut fmt::Formatter<W>) -> fmt::Result {
        match *self {
            NameFault::Both(first, second) => {
                let (first, second) = (word_of(first), word_of(second));
                write!(
                    f,
                    "{first} and {second} are both -, and standard input is one file"
                )
            }
            NameFault::Written => {
                write!(
                    f,
                    "ROUTE is -: write /dev/stdout, or ./- for a file of that name"
                )
            }
        }
    }
}

/// Returns the word of the command line for an input.
fn word_of(file: InputFile) -> &'static str {
    match file {
        InputFile::Net => "NET",
        InputFile::Arch => "ARCH",
        InputFile::Place => "PLACE",
        InputFile::Route => "ROUTE",
    }
}

/// Returns whether a file of this name is standard input.
pub fn is_standard_input(name: &str) -> bool {
    name == STANDARD_INPUT
}

/// Returns the first of the inputs NET, ARCH, PLACE and ROUTE that is standard input, if one is.
pub fn first_standard_input(names: [&str; 4]) -> Option<InputFile> {
    for place in 0..4 {
        if is_standard_input(names[place]) {
            return Some(INPUTS[place]);
        }
    }
    None
}

/// Returns the fault of the inputs NET, ARCH, PLACE and ROUTE if two are standard input.
pub fn input_fault(names: [&str; 4]) -> Option<NameFault> {
    let mut first = None;
    for place in 0..4 {
        if !is_standard_input(names[place]) {
            continue;
        }
        match first {
            None => first = Some(INPUTS[place]),
            Some(other) => return Some(NameFault::Both(other, INPUTS[place])),
        }
    }
    None
}
