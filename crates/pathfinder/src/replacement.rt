//! A file that is written in the folder of another one, and replaces it when it is complete.

use crate::identity::{end_of, folder_of};
use std::fs;
use std::fs::{Files, Metadata, OpenFile, OpenOptions, Permissions};
use std::io::{Error, ErrorKind, Result};
use std::os::unix::fs::{MetadataExt, OpenOptionsExt, PermissionsExt};
use std::path::Path;
use std::rt::Runtime;

/// The name of such a file before its number.
const STEM: &str = ".pathfinder-";

/// The number of digits of its number.
const DIGITS: usize = 3;

/// The number of names that are tried: one for each such number.
const MOST_NUMBERS: u32 = 1000;

/// The mode of a new file, before the process's mask takes bits away.
const NEW_MODE: u32 = 0o666;

/// The mode of a file that only its owner may read and write.
const OWN_MODE: u32 = 0o600;

/// All bits of a mode except those of the kind.
const MODE_BITS: u32 = 0o7777;

/// The names of a file that is written, and of the one that it replaces.
#[derive(Drop)]
pub struct Replacement {
    end: String,
    /// Its last digits are those of the number that was tried last.
    begun: String,
}

impl Replacement {
    /// Returns the name of the file that is replaced.
    pub fn end(&self) -> &str {
        self.end.as_str()
    }

    /// Returns the name of the file that is written.
    pub fn begun(&self) -> &str {
        self.begun.as_str()
    }

    /// Gives the file another number. It takes no memory.
    fn set_number(&mut self, number: u32) -> Result<()> {
        for _ in 0..DIGITS {
            self.begun.pop();
        }
        for place in [100, 10, 1] {
            let digit = char::from_digit(number / place % 10, 10).unwrap_or('0');
            self.begun.push(digit)?;
        }
        Ok(())
    }
}

/// Returns the replacement of the file of this name, or `None` if that isn't, or won't be, a file
/// on a disk.
///
/// # Errors
/// If memory ran out.
#[inline(never)]
pub fn replacement_of(
    rt: &(impl Runtime + AllocGlobal),
    name: &str,
) -> Result<Option<Replacement>> {
    if name.ends_with('/') {
        return Ok(None);
    }
    let Some(end) = end_of(rt, name)? else {
        return Ok(None);
    };
    let stem = Path::new(folder_of(end.as_str())).join(rt.alloc(), STEM)?;
    let mut begun = stem.into_string();
    begun.push_str("000")?;
    Ok(Some(Replacement { end, begun }))
}

/// Creates the file that takes the place of the one that was found, or of none, under an unused
/// name. It gets the mode of the one that was found, and its owner if that is allowed.
#[inline(never)]
pub fn begin_replacement<R: Files>(
    rt: &R,
    replacement: &mut Replacement,
    found: Option<&Metadata>,
) -> Result<R::File> {
    let mode = if found.is_some() { OWN_MODE } else { NEW_MODE };
    let file = create_numbered(rt, replacement, mode)?;
    if let Some(found) = found {
        take_after(rt, replacement.begun(), &file, found);
    }
    Ok(file)
}

/// Creates a file under the first free number.
fn create_numbered<R: Files>(rt: &R, replacement: &mut Replacement, mode: u32) -> Result<R::File> {
    for number in 0..MOST_NUMBERS {
        replacement.set_number(number)?;
        match create_new(rt, replacement.begun(), mode) {
            Err(error) if error.kind() == ErrorKind::AlreadyExists => {}
            created => return created,
        }
    }
    Err(Error::from(ErrorKind::AlreadyExists))
}

/// Creates a file, if there is none of this name.
#[inline(never)]
fn create_new<R: Files>(rt: &R, name: &str, mode: u32) -> Result<R::File> {
    let mut how = OpenOptions::new();
    how.write(true).create_new(true).mode(mode);
    how.open(rt, name)
}

/// Gives a file the mode of another one, and its owner and group if they differ and that is
/// allowed.
#[inline(never)]
fn take_after<R: Files>(rt: &R, name: &str, file: &R::File, found: &Metadata) {
    if let Ok(own) = file.metadata() {
        if own.uid() != found.uid() || own.gid() != found.gid() {
            let is_given = rt.chown(name, Some(found.uid()), Some(found.gid())).is_ok();
            if !is_given {
                let _ = rt.chown(name, None, Some(found.gid()));
            }
        }
    }
    let _ = file.set_permissions(Permissions::from_mode(found.mode() & MODE_BITS));
}
