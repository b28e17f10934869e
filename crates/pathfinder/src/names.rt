//! The names of a run's files, as they are shown.

use crate::shown::shown;
use refusals::{FileRead, FilesRead};
use run_log::RunFiles;
use std::alloc::{AllocError, Global};

/// The names of the files that a run may have in addition to NET, ARCH, PLACE and ROUTE.
#[derive(Clone, Copy)]
pub struct FurtherNames<'a> {
    pub log: Option<&'a str>,
    /// The schedule that the run writes.
    pub schedule: Option<&'a str>,
    /// The schedule that the run follows.
    pub follow: Option<&'a str>,
}

impl FurtherNames<'_> {
    pub fn none() -> FurtherNames<'static> {
        FurtherNames {
            log: None,
            schedule: None,
            follow: None,
        }
    }
}

/// Returns a name as bytes, or `None` if it is empty.
fn named(name: &str) -> Option<&[u8]> {
    if name.is_empty() {
        None
    } else {
        Some(name.as_bytes())
    }
}

/// The names without control characters. A name is empty if the run has no such file.
#[derive(Drop)]
pub struct ShownNames {
    net: String,
    arch: String,
    place: String,
    route: String,
    log: String,
    schedule: String,
    follow: String,
}

impl ShownNames {
    /// Returns the names of NET, ARCH, PLACE and ROUTE, and of the further files.
    pub fn of(
        alloc: Global,
        files: [&str; 4],
        further: FurtherNames<'_>,
    ) -> Result<ShownNames, AllocError> {
        let [net, arch, place, route] = files;
        Ok(ShownNames {
            net: shown(alloc, net)?,
            arch: shown(alloc, arch)?,
            place: shown(alloc, place)?,
            route: shown(alloc, route)?,
            log: shown(alloc, further.log.unwrap_or(""))?,
            schedule: shown(alloc, further.schedule.unwrap_or(""))?,
            follow: shown(alloc, further.follow.unwrap_or(""))?,
        })
    }

    /// Returns the names that the head of the run's log has. The name of the schedule that the run
    /// writes is among them only if the run is recorded.
    pub fn files(&self, is_recorded: bool) -> RunFiles<'_> {
        let schedule = if is_recorded {
            named(self.schedule.as_str())
        } else {
            None
        };
        RunFiles {
            net: self.net.as_bytes(),
            arch: self.arch.as_bytes(),
            place: self.place.as_bytes(),
            route: self.route.as_bytes(),
            schedule,
            follow: named(self.follow.as_str()),
        }
    }

    pub fn route(&self) -> &str {
        self.route.as_str()
    }

    pub fn log(&self) -> &str {
        self.log.as_str()
    }

    /// Returns the files with what was read from them.
    pub fn with_bytes<'a>(
        &'a self,
        net: &'a [u8],
        arch: &'a [u8],
        place: &'a [u8],
        route: &'a [u8],
    ) -> FilesRead<'a> {
        FilesRead {
            arch: FileRead {
                name: self.arch.as_str(),
                bytes: arch,
            },
            net: FileRead {
                name: self.net.as_str(),
                bytes: net,
            },
            place: FileRead {
                name: self.place.as_str(),
                bytes: place,
            },
            route: FileRead {
                name: self.route.as_str(),
                bytes: route,
            },
        }
    }

    /// Returns the files with nothing read from them.
    pub fn without_bytes(&self) -> FilesRead<'_> {
        self.with_bytes(&[], &[], &[], &[])
    }
}
