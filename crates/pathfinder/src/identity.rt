//! The file that a name leads to, whether the file exists or not.

use refusals::is_standard_input;
use std::fs;
use std::fs::{Files, Metadata};
use std::io::{Error, ErrorKind, Result};
use std::os::unix::fs::MetadataExt;
use std::path::{Path, PathBuf};
use std::rt::Runtime;

/// The greatest number of symbolic links that a name may lead over, as on Linux.
const MOST_LINKS: u32 = 40;

/// The paths of a process's standard streams.
pub const STANDARD_INPUT: &str = "/proc/self/fd/0";

pub const STANDARD_OUTPUT: &str = "/proc/self/fd/1";

pub const STANDARD_ERROR: &str = "/proc/self/fd/2";

/// Returns whether both are of the same file.
fn is_same(file: &Metadata, other: &Metadata) -> bool {
    file.dev() == other.dev() && file.ino() == other.ino()
}

/// Returns whether a name leads to a file that was found by another name.
#[inline(never)]
pub fn leads_to<R: Files>(rt: &R, name: &str, found: &Metadata) -> bool {
    match rt.metadata(name) {
        Ok(other) => is_same(&other, found),
        Err(_) => false,
    }
}

/// Returns the path of an input: that of standard input for `-`.
pub fn path_of(input: &str) -> &str {
    if is_standard_input(input) {
        STANDARD_INPUT
    } else {
        input
    }
}

/// Returns whether the process has no standard input, as far as that can be known.
pub fn lacks_standard_input<R: Files>(rt: &R) -> bool {
    rt.metadata(STANDARD_INPUT).is_err() && rt.metadata("/proc/self/fd").is_ok()
}

/// Returns the folder that a file is in.
pub fn folder_of(name: &str) -> &str {
    match Path::new(name).parent() {
        Some(folder) if !folder.as_str().is_empty() => folder.as_str(),
        _ => ".",
    }
}

/// Returns the path that the symbolic link at this path leads to.
#[inline(never)]
fn next_path(rt: &(impl Runtime + AllocGlobal), mut path: PathBuf) -> Result<PathBuf> {
    let next = fs::read_link(rt, path.as_str())?;
    path.pop();
    path.push(next.as_path())?;
    Ok(path)
}

/// Returns the name of an existing file, without symbolic links.
#[inline(never)]
fn real_name(rt: &(impl Runtime + AllocGlobal), name: &str) -> Result<String> {
    Ok(fs::canonicalize(rt, name)?.into_string())
}

/// Returns where the name of a missing file leads: the name at the end of its symbolic links.
#[inline(never)]
fn end_of_links(rt: &(impl Runtime + AllocGlobal), name: &str) -> Result<String> {
    let mut path = Path::new(name).to_path_buf(rt.alloc())?;
    for _ in 0..MOST_LINKS {
        match rt.symlink_metadata(path.as_str()) {
            Ok(found) if found.is_symlink() => path = next_path(rt, path)?,
            _ => return Ok(path.into_string()),
        }
    }
    Err(Error::from(ErrorKind::InvalidInput))
}

/// Returns where a name leads: the file's own name, without symbolic links. Returns `None` if that
/// is no file on a disk, but a device, a pipe or a folder, or if it can't be found out.
///
/// # Errors
/// An error of kind `OutOfMemory` if memory ran out.
#[inline(never)]
pub fn end_of(rt: &(impl Runtime + AllocGlobal), name: &str) -> Result<Option<String>> {
    let end = match rt.metadata(name) {
        Ok(found) if found.is_file() => real_name(rt, name),
        Ok(_) => return Ok(None),
        Err(_) => end_of_links(rt, name),
    };
    match end {
        Ok(end) => Ok(Some(end)),
        Err(error) if error.kind() == ErrorKind::OutOfMemory => Err(error),
        Err(_) => Ok(None),
    }
}

/// Returns whether two names are those of the same new file: the same name in the same folder. The
/// first one leads to no file.
#[inline(never)]
fn is_same_new_file(rt: &(impl Runtime + AllocGlobal), name: &str, other: &str) -> Result<bool> {
    if rt.metadata(other).is_ok() {
        return Ok(false);
    }
    let (name, other) = (end_of_links(rt, name)?, end_of_links(rt, other)?);
    let (name, other) = (name.as_str(), other.as_str());
    if Path::new(name).file_name() != Path::new(other).file_name() {
        return Ok(false);
    }
    match rt.metadata(folder_of(name)) {
        Ok(folder) => Ok(leads_to(rt, folder_of(other), &folder)),
        Err(_) => Ok(false),
    }
}

/// Returns whether a name leads to the same file as another one, whether the file exists or not. A
/// device, a pipe or a socket is no such file.
///
/// # Errors
/// If memory ran out, or a name leads over too many symbolic links.
#[inline(never)]
pub fn is_name_of(rt: &(impl Runtime + AllocGlobal), name: &str, other: &str) -> Result<bool> {
    match rt.metadata(name) {
        Ok(found) if found.is_file() => Ok(leads_to(rt, other, &found)),
        Ok(_) => Ok(false),
        Err(_) => is_same_new_file(rt, name, other),
    }
}
