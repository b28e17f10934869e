//! Standard output, and ROUTE and the other files that a run writes. Each of these appears as a
//! whole or not at all wherever a file can be made in its folder.

ghost use Rattle.std.specs.Prelude.{◌≡◌, None};

use crate::identity::{STANDARD_ERROR, STANDARD_OUTPUT, leads_to};
use crate::replacement::{Replacement, begin_replacement, replacement_of};
use crate::shown::{Plain, PlainWriter};
use crate::target::{LateSink, StandardStream, Target};
use run_log::Progress;
use runs::WholeSink;
use std::fs;
use std::fs::{File, OpenOptions};
use std::io::{Eprint, ErrorKind, Result, Stderr, Stdout, Write};
use std::os::unix::fs::FileTypeExt;
use std::time::Clock;
use vpr_text::{Broken, ByteSink};

/// The greatest number of bytes of a file that can be read.
const MOST_BYTES: u64 = 16_777_216;

/// Where the bytes of a run's file go.
type FileTarget = Target<File, StandardStream<Stdout, Stderr, PlainWriter<Stderr>>>;

/// Creates a file, or empties the one that is there. Opens a pipe without waiting for a reader.
#[inline(never)]
pub fn create_at_once(rt: &HostRuntime, name: &str) -> Result<File> {
    match fs::metadata(rt, name) {
        Ok(found) if found.file_type().is_fifo() => open_pipe(rt, name),
        _ => fs::create(rt, name),
    }
}

/// Returns whether this is the name of a pipe.
#[inline(never)]
pub fn is_pipe(rt: &HostRuntime, name: &str) -> bool {
    match fs::symlink_metadata(rt, name) {
        Ok(found) => found.file_type().is_fifo(),
        Err(_) => false,
    }
}

/// Opens a pipe for writing without waiting for a reader: while it is open for both, there is one.
#[inline(never)]
fn open_pipe(rt: &HostRuntime, name: &str) -> Result<File> {
    let both = OpenOptions::new().read(true).write(true).open(rt, name);
    let file = OpenOptions::new().write(true).open(rt, name);
    drop(both);
    file
}

/// Warns that a file is written in place.
#[inline(never)]
fn warn_in_place(rt: &HostRuntime, name: &str, why: &str) {
    let name = Plain(name);
    let _ = eprintln!(rt; "warning: {name} is written in place: {why}");
}

/// Copies what was written into the file of this name, and removes what it was copied from.
#[inline(never)]
fn copy_in_place(rt: &HostRuntime, name: &str, replacement: &Replacement) -> Result<()> {
    warn_in_place(rt, name, "it cannot be replaced");
    fs::copy(rt, replacement.begun(), name)?;
    let _ = fs::remove_file(rt, replacement.begun());
    Ok(())
}

/// Begins to write a file. A file on a disk is written to another one in its folder, if one can be
/// made there.
#[inline(never)]
fn begin_file(
    rt: &HostRuntime,
    name: &str,
    replacement: Option<&mut Replacement>,
) -> Result<FileTarget> {
    let Ok(found) = fs::metadata(rt, name) else {
        return begin_beside(rt, name, replacement, None);
    };
    if !found.is_file() {
        return Ok(Target::InPlace(fs::create(rt, name)?));
    }
    if leads_to(rt, STANDARD_OUTPUT, &found) {
        return Ok(Target::Stream(StandardStream::Output(rt.stdout())));
    }
    if leads_to(rt, STANDARD_ERROR, &found) {
        return Ok(Target::Stream(StandardStream::Error(rt.stderr())));
    }
    // A file that may not be written isn't replaced either.
    let _ = OpenOptions::new().write(true).open(rt, name)?;
    begin_beside(rt, name, replacement, Some(&found))
}

/// Begins a file that takes the place of the one that was found, or of none. If that can't be made,
/// begins the file itself.
#[inline(never)]
fn begin_beside(
    rt: &HostRuntime,
    name: &str,
    replacement: Option<&mut Replacement>,
    found: Option<&fs::Metadata>,
) -> Result<FileTarget> {
    if let Some(replacement) = replacement {
        if let Ok(file) = begin_replacement(rt, replacement, found) {
            return Ok(Target::Replacing(file));
        }
    }
    let file = fs::create(rt, name)?;
    warn_in_place(rt, name, "no file can be made beside it");
    Ok(Target::InPlace(file))
}

/// Gives what was written the name of the file that it replaces.
#[inline(never)]
fn rename_begun(rt: &HostRuntime, replacement: &Replacement) -> Result<()> {
    fs::rename(rt, replacement.begun(), replacement.end())
}

/// Replaces the file of this name with what was written.
fn put_in_place(rt: &HostRuntime, name: &str, replacement: &Replacement) -> Result<()> {
    match rename_begun(rt, replacement) {
        // A file that is mounted, as in containers, can't be replaced.
        Err(error) if error.kind() == ErrorKind::ResourceBusy => {
            copy_in_place(rt, name, replacement)
        }
        renamed => renamed,
    }
}

/// Removes what was begun.
#[inline(never)]
fn remove_begun(rt: &HostRuntime, replacement: &Replacement) {
    let _ = fs::remove_file(rt, replacement.begun());
}

/// Standard error.
#[derive(Drop)]
pub struct Errors<'a> {
    rt: &'a HostRuntime,
}

impl<'a> Errors<'a> {
    pub fn new(rt: &'a HostRuntime) -> Errors<'a> {
        Errors { rt }
    }
}

impl Write for Errors<'_> {
    fn write(&mut self, bytes: &[u8]) -> Result<usize> {
        self.rt.stderr().write(bytes)
    }

    fn flush(&mut self) -> Result<()> {
        Ok(())
    }
}

/// A file that a run writes, or words on standard error. The file is begun at the first write.
/// Wherever it can be made, that is another file, which replaces the named one when it is complete.
/// Nothing is written before the line of progress has ended.
#[derive(Drop)]
pub struct RunFile<'a> {
    rt: &'a HostRuntime,
    progress: &'a Progress<'a, HostRuntime>,
    /// Its name, or `None` for words.
    name: Option<String>,
    replacement: Option<Replacement>,
    sink: LateSink<FileTarget>,
    /// Whether what was written is in its place.
    is_placed: bool,
}

impl<'a> RunFile<'a> {
    /// Returns a file of this name, with its replacement.
    fn new(
        rt: &'a HostRuntime,
        progress: &'a Progress<'a, HostRuntime>,
        name: Option<String>,
        replacement: Option<Replacement>,
    ) -> RunFile<'a> {
        RunFile {
            rt,
            progress,
            name,
            replacement,
            sink: LateSink::new(),
            is_placed: false,
        }
    }

    /// Returns a file of this name.
    ///
    /// # Errors
    /// If memory ran out.
    pub fn of_name(
        rt: &'a HostRuntime,
        progress: &'a Progress<'a, HostRuntime>,
        name: &str,
    ) -> Result<RunFile<'a>> {
        let replacement = replacement_of(rt, name)?;
        let name = String::from_str(rt.alloc(), name)?;
        Ok(RunFile::new(rt, progress, Some(name), replacement))
    }

    /// Returns words on standard error.
    pub fn of_words(rt: &'a HostRuntime, progress: &'a Progress<'a, HostRuntime>) -> RunFile<'a> {
        RunFile::new(rt, progress, None, None)
    }

    /// Puts what was written into its place, if nothing has failed.
    pub fn finish(&mut self) -> std::result::Result<(), Broken> {
        if self.sink.has_failed() {
            return Err(Broken);
        }
        self.complete()
    }

    /// Returns the target, begun.
    fn begun(&mut self) -> Result<FileTarget>
        ensures { self.new.sink ≡ self.old.sink }
    {
        match &self.name {
            Some(name) => begin_file(self.rt, name.as_str(), self.replacement.as_mut()),
            None => {
                let words = PlainWriter::new(self.rt.stderr(), true);
                Ok(Target::Stream(StandardStream::Words(words)))
            }
        }
    }

    /// Begins the target if it isn't begun. If that fails, so does the sink at its next write.
    fn begin(&mut self)
        ensures { self.new.sink.has_failed ≡ self.old.sink.has_failed }
    {
        self.progress.end();
        if self.sink.is_begun() {
            return;
        }
        if let Ok(target) = self.begun() {
            self.sink.begin(target);
        }
    }

    /// Removes the replacement if it was begun.
    fn abandon(&mut self)
        ensures { self.new.sink.has_failed ≡ self.old.sink.has_failed }
    {
        if let Some(Target::Replacing(_)) = self.sink.end() {
            if let Some(replacement) = &self.replacement {
                remove_begun(self.rt, replacement);
            }
        }
    }

    /// Puts what was begun into its place, and returns whether it is there. If it isn't, removes
    /// it.
    fn is_put_in_place(&mut self) -> bool
        ensures { self.new.sink.has_failed ≡ self.old.sink.has_failed }
    {
        let Some(Target::Replacing(_)) = self.sink.end() else {
            return true;
        };
        let (Some(replacement), Some(name)) = (&self.replacement, &self.name) else {
            return true;
        };
        let is_put = put_in_place(self.rt, name.as_str(), replacement).is_ok();
        if !is_put {
            remove_begun(self.rt, replacement);
        }
        is_put
    }

    /// Warns if the file is too long to be read.
    #[inline(never)]
    fn warn_of_length(&self) {
        if self.sink.count() <= MOST_BYTES {
            return;
        }
        if let Some(name) = &self.name {
            let name = Plain(name.as_str());
            let _ = eprintln!(self.rt;
                "warning: {name} has more than {MOST_BYTES} bytes: `check` and `report` refuse it"
            );
        }
    }
}

impl ByteSink for RunFile<'_> {
    // The toolchain doesn't say what the system's files hold.
    ghost taken = { λ _. None };

    ghost failed = { λ file. file.sink.has_failed };

    fn put(&mut self, bytes: &[u8]) -> std::result::Result<usize, Broken> {
        if self.sink.has_failed() {
            return Err(Broken);
        }
        self.begin();
        let put = self.sink.put(bytes);
        if put.is_err() {
            self.abandon();
        }
        put
    }
}

impl WholeSink for RunFile<'_> {
    ghost is_placed = { λ file. file.is_placed };

    ghost is_at = { λ _ _. Unit {0} };

    fn complete(&mut self) -> std::result::Result<(), Broken> {
        let is_placed = self.is_put_in_place();
        self.is_placed = is_placed;
        if !is_placed {
            self.sink.fail();
            return Err(Broken);
        }
        self.warn_of_length();
        Ok(())
    }
}

/// A writer that ends the line of progress before each write.
#[derive(Drop)]
pub struct BehindProgress<'a, 'b, W, R> {
    out: W,
    progress: &'a Progress<'b, R>,
}

impl<'a, 'b, W: Write, R: Eprint + Clock> BehindProgress<'a, 'b, W, R> {
    pub fn new(out: W, progress: &'a Progress<'b, R>) -> BehindProgress<'a, 'b, W, R> {
        BehindProgress { out, progress }
    }
}

impl<W: Write, R: Eprint + Clock> Write for BehindProgress<'_, '_, W, R> {
    ghost contents = { λ w. W.contents w.out };

    fn write(&mut self, bytes: &[u8]) -> Result<usize> {
        self.progress.end();
        self.out.write(bytes)
    }

    fn flush(&mut self) -> Result<()> {
        self.out.flush()
    }
}
