//! What a run writes in addition to ROUTE: a log, the trees that were left, routings of trials, and
//! words.

use crate::files::RunFile;
use crate::identity::{STANDARD_ERROR, STANDARD_OUTPUT};
use crate::log_file::LogFile;
use crate::shown::Plain;
use crate::warning::is_free;
use run_log::Progress;
use runs::SideFiles;
use vpr_text::Adapted;

/// Returns the files of a run that no further file is written over: the inputs, ROUTE, those that
/// standard output and standard error go to, and up to three others that the run names.
pub fn others_of<'a>(files: [&'a str; 4], named: [Option<&'a str>; 3]) -> [&'a str; 9] {
    let [net, arch, place, route] = files;
    let [first, second, third] = named;
    [
        net,
        arch,
        place,
        route,
        file_named(first, route),
        file_named(second, route),
        file_named(third, route),
        STANDARD_OUTPUT,
        STANDARD_ERROR,
    ]
}

/// Returns the name of a further file, or ROUTE if there is none or it is standard error.
fn file_named<'a>(name: Option<&'a str>, route: &'a str) -> &'a str {
    match name {
        Some(name) if name != "-" => name,
        _ => route,
    }
}

/// Returns the sink of a log of this name. Returns `None` if none is wanted, or, after a warning,
/// if it can't or shouldn't be written.
#[inline(never)]
pub fn log_sink<'a>(
    rt: &'a HostRuntime,
    log: Option<&'a str>,
    others: [&'a str; 9],
    progress: &'a Progress<'a, HostRuntime>,
) -> Option<Adapted<LogFile<'a>>> {
    let name = log?;
    if name != "-" && !is_free(rt, "the log ", name, &others) {
        return None;
    }
    let file = (name != "-").then_some(name);
    Some(Adapted::new(LogFile::new(rt, progress, file)))
}

/// Returns the name of a further file of a run with these other files. Returns `None` if none is
/// wanted, or, after a warning, if it can't or shouldn't be written.
#[inline(never)]
pub fn free_name<'a>(
    rt: &HostRuntime,
    name: Option<&'a str>,
    others: [&'a str; 9],
) -> Option<&'a str> {
    match name {
        Some(name) if is_free(rt, "", name, &others) => Some(name),
        _ => None,
    }
}

/// The file of the trees that were left, if it has a name.
#[derive(Clone, Copy)]
pub struct RestFile<'a> {
    pub rt: &'a HostRuntime,
    pub name: Option<&'a str>,
    pub progress: &'a Progress<'a, HostRuntime>,
}

impl<'a> SideFiles for RestFile<'a> {
    type Out = RunFile<'a>;

    fn file(&self, width: u32) -> Option<RunFile<'a>> {
        match RunFile::of_name(self.rt, self.progress, self.name?) {
            Ok(file) => Some(file),
            Err(_) => {
                self.unwritten(width);
                None
            }
        }
    }

    fn unwritten(&self, _width: u32) {
        let name = Plain(self.name.unwrap_or(""));
        let _ = eprintln!(self.rt; "warning: {name} cannot be written");
    }

    fn words(&self) -> RunFile<'a> {
        RunFile::of_words(self.rt, self.progress)
    }
}

/// The files of routed trials, if they have a prefix: the prefix, the width and `.route`.
#[derive(Clone, Copy)]
pub struct TrialFiles<'a> {
    pub rt: &'a HostRuntime,
    pub prefix: Option<&'a str>,
    /// The other files of the run, which none of these is written over.
    pub others: [&'a str; 9],
    pub progress: &'a Progress<'a, HostRuntime>,
}

impl<'a> SideFiles for TrialFiles<'a> {
    type Out = RunFile<'a>;

    fn file(&self, width: u32) -> Option<RunFile<'a>> {
        let prefix = self.prefix?;
        let Ok(name) = format!(in self.rt.alloc(); "{prefix}{width}.route") else {
            self.unwritten(width);
            return None;
        };
        self.progress.end();
        if !is_free(self.rt, "", name.as_str(), &self.others) {
            return None;
        }
        match RunFile::of_name(self.rt, self.progress, name.as_str()) {
            Ok(file) => Some(file),
            Err(_) => {
                self.unwritten(width);
                None
            }
        }
    }

    fn unwritten(&self, width: u32) {
        let prefix = Plain(self.prefix.unwrap_or(""));
        let _ = eprintln!(self.rt; "warning: {prefix}{width}.route cannot be written");
    }

    fn words(&self) -> RunFile<'a> {
        RunFile::of_words(self.rt, self.progress)
    }
}
