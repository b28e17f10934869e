//! Warnings about ROUTE and the other files that a run writes, before anything is routed: that they
//! can't or shouldn't be written. To find that out, nothing is created and nothing is written.

use crate::identity::{STANDARD_ERROR, STANDARD_INPUT, STANDARD_OUTPUT, folder_of, is_name_of};
use crate::shown::Plain;
use std::fmt;
use std::fs::{Files, Metadata, OpenOptions};
use std::io::{Eprint, Result as IoResult};
use std::os::unix::fs::MetadataExt;
use std::rt::Runtime;

/// The bits of a mode that let a file's owner write it, and those that let anybody else write it.
const OWNER_WRITES: u32 = 0o200;

const OTHERS_WRITE: u32 = 0o022;

/// What is wrong with the name of a routing file.
#[derive(Clone, Copy, Debug, PartialEq, Eq)]
pub enum Doubt<'a> {
    /// It is the name of a folder.
    Folder,
    /// The folder that it would be in doesn't exist.
    NoFolder(&'a str),
    /// It would be created in this folder, where the process may create no file.
    ClosedFolder(&'a str),
    /// It exists, and the process may not write it.
    Closed,
}

impl fmt::Display for Doubt<'_> {
    fn fmt<W: fmt::Write>(&self, f: &mut fmt::Formatter<W>) -> fmt::Result {
        match *self {
            Doubt::Folder => write!(f, "cannot be written: it is a folder"),
            Doubt::NoFolder(folder) => {
                let folder = Plain(folder);
                write!(f, "cannot be written: there is no folder {folder}")
            }
            Doubt::ClosedFolder(folder) => {
                let folder = Plain(folder);
                write!(
                    f,
                    "cannot be written: no file may be made in the folder {folder}"
                )
            }
            Doubt::Closed => write!(f, "cannot be written: it may not be"),
        }
    }
}

/// Returns why a file of this name can't be written, as far as that can be known. A device, a pipe
/// and the like aren't tested.
#[inline(never)]
pub fn hindrance_of<'a, R: Files>(rt: &R, name: &'a str) -> Option<Doubt<'a>> {
    match rt.metadata(name) {
        Ok(found) if found.is_dir() => Some(Doubt::Folder),
        Ok(found) if found.is_file() => (!may_be_written(rt, name)).then_some(Doubt::Closed),
        Ok(_) => None,
        Err(_) if name.ends_with('/') => Some(Doubt::Folder),
        Err(_) if rt.symlink_metadata(name).is_ok() => None,
        Err(_) => doubt_of_place(rt, name),
    }
}

/// Returns whether an existing file can be opened for writing. This leaves the file as it is.
#[inline(never)]
fn may_be_written<R: Files>(rt: &R, name: &str) -> bool {
    OpenOptions::new().write(true).open(rt, name).is_ok()
}

/// Returns what is wrong with the place of a file that doesn't exist.
#[inline(never)]
fn doubt_of_place<'a, R: Files>(rt: &R, name: &'a str) -> Option<Doubt<'a>> {
    let folder = folder_of(name);
    match rt.metadata(folder) {
        Ok(found) if found.is_dir() => is_closed(rt, &found).then_some(Doubt::ClosedFolder(folder)),
        _ => Some(Doubt::NoFolder(folder)),
    }
}

/// Returns whether a folder's mode lets the process create no file in it. A process owns its entry
/// in /proc. The groups of the process are unknown, so a folder that its group may write counts as
/// open.
#[inline(never)]
fn is_closed<R: Files>(rt: &R, folder: &Metadata) -> bool {
    let Ok(own) = rt.metadata("/proc/self") else {
        return false;
    };
    let bits = if own.uid() == folder.uid() {
        OWNER_WRITES
    } else {
        OTHERS_WRITE
    };
    own.uid() != 0 && folder.mode() & bits == 0
}

/// Returns the first of the other files of a run that this name leads to as well.
///
/// # Errors
/// If that can't be found out.
fn taken_by<'b>(
    rt: &(impl Runtime + AllocGlobal),
    name: &str,
    others: &[&'b str],
) -> IoResult<Option<&'b str>> {
    for other in others {
        if is_name_of(rt, name, *other)? {
            return Ok(Some(*other));
        }
    }
    Ok(None)
}

/// The reason why a file is not written over another one of the run.
#[derive(Clone, Copy)]
struct Taken<'a>(&'a str);

impl fmt::Display for Taken<'_> {
    fn fmt<W: fmt::Write>(&self, f: &mut fmt::Formatter<W>) -> fmt::Result {
        match self.0 {
            STANDARD_INPUT => write!(f, "standard input comes from it"),
            STANDARD_OUTPUT => write!(f, "standard output goes to it"),
            STANDARD_ERROR => write!(f, "standard error goes to it"),
            name => {
                let name = Plain(name);
                write!(f, "it is the file {name} too")
            }
        }
    }
}

/// Returns whether a file may be written in addition to ROUTE, in a run with these other files, as
/// far as that can be known. If it may not, a warning gives the reason. The warning begins with
/// what the file is, as in `the log `.
#[inline(never)]
pub fn is_free(rt: &(impl Runtime + AllocGlobal), what: &str, name: &str, others: &[&str]) -> bool {
    let plain = Plain(name);
    match taken_by(rt, name, others) {
        Ok(None) => {}
        Ok(Some(other)) => {
            let why = Taken(other);
            let _ = eprintln!(rt; "warning: {what}{plain} is not written: {why}");
            return false;
        }
        Err(_) => {
            let _ = eprintln!(rt; "warning: {what}{plain} cannot be written");
            return false;
        }
    }
    if let Some(doubt) = hindrance_of(rt, name) {
        let _ = eprintln!(rt; "warning: {what}{plain} {doubt}");
        return false;
    }
    true
}
