//! The usage and the version of `lab`.

/// The text that `--version` prints.
pub const VERSION: &str = "lab 1.3.0 (the libraries of pathfinder, call by call)\n";

/// The text that `--help` prints.
pub const USAGE: &str = "\
Makes the calls of the router's libraries that a script asks for, and prints their answers.

lab SCRIPT ..      runs scripts, each from nothing
lab                runs the script of standard input
lab --help         prints this
lab --version      prints the version

The exit status is
  0  where all answers were as wanted, and every line could be read
  1  where an answer was not, or a line or a script could not be read
  2  where the command line has an unknown option, or a word that is no text
What was not as wanted is said on standard error, as SCRIPT:LINE: ..

The call `help` names all calls, and `help CALL` says how one is written. The lines of a script and
the calls are described in crates/lab/README.md.
";
