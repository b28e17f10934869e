//! The values of a session: the last one of each kind.

use crate::unanswered::Unanswered;
use arch_file::Arch;
use congestion_book::Book;
use group_wave::Scratch;
use net_workers::Workspace;
use node_cost::{Counts, Histories, Range, Settings, View};
use route_tree::{Marks, Routing, Tree};
use rr_graph::{Device, Problem};
use wave_ground::PreparedProblem;

/// The refusal of a call that needs an architecture.
pub const NO_ARCHITECTURE: Unanswered = Unanswered::Refused("there is no architecture");

/// The refusal of a call that needs a netlist.
pub const NO_NETLIST: Unanswered = Unanswered::Refused("there is no netlist");

/// The refusal of a call that needs a device.
pub const NO_DEVICE: Unanswered = Unanswered::Refused("there is no device");

/// The refusal of a call that needs a problem.
pub const NO_PROBLEM: Unanswered = Unanswered::Refused("there is no problem");

/// The refusal of a call that needs a tree.
pub const NO_TREE: Unanswered = Unanswered::Refused("there is no tree");

/// The refusal of a call that needs a routing.
pub const NO_ROUTING: Unanswered = Unanswered::Refused("there is no routing");

/// The refusal of a call that needs counts.
pub const NO_COUNTS: Unanswered = Unanswered::Refused("there are no counts");

/// The refusal of a call that needs histories.
pub const NO_HISTORIES: Unanswered = Unanswered::Refused("there are no histories");

/// The refusal of a call that needs a view.
pub const NO_VIEW: Unanswered = Unanswered::Refused("there is no view");

/// The refusal of a call that needs a book.
pub const NO_BOOK: Unanswered = Unanswered::Refused("there is no book");

/// What was chosen for settings.
#[derive(Clone, Copy, Drop)]
pub struct Choice {
    pub first: u32,
    pub init: u32,
    pub mult: u32,
    pub acc: u32,
    pub bb: u32,
    pub iterations: u32,
    pub is_steady: bool,
}

impl Choice {
    /// Returns the choice of the standard settings.
    pub fn standard() -> Choice {
        Choice::of(&Settings::standard())
    }

    /// Returns the choice that gives these settings.
    pub fn of(settings: &Settings) -> Choice {
        Choice {
            first: settings.first(),
            init: settings.init(),
            mult: settings.mult(),
            acc: u32::from(settings.acc()),
            bb: settings.bb(),
            iterations: settings.iterations(),
            is_steady: settings.is_steady(),
        }
    }

    /// Returns the settings of the choice, or the first number that is out of range.
    pub fn settings(self) -> Result<Settings, Range> {
        let settings = Settings::new(
            self.first,
            self.init,
            self.mult,
            self.acc,
            self.bb,
            self.iterations,
        )?;
        Ok(settings.with_steady(self.is_steady))
    }
}

/// The text of a file for a run of the program, and the number of bytes after which its source
/// fails, if it does.
#[derive(Drop)]
pub struct RunText {
    pub bytes: Vec<u8>,
    pub failing: Option<usize>,
}

/// The files for a run of the program, and for each sink the number of bytes after which it fails,
/// if it does.
#[derive(Drop)]
pub struct RunFiles {
    pub arch: Option<RunText>,
    pub net: Option<RunText>,
    pub place: Option<RunText>,
    pub route: Option<RunText>,
    pub route_room: Option<usize>,
    pub out_room: Option<usize>,
    pub words_room: Option<usize>,
}

/// The other values, which `other` exchanges with those of the session.
#[derive(Drop)]
pub struct Others {
    pub arch: Option<Arch>,
    pub net: Option<Vec<u8>>,
    pub device: Option<Device>,
    pub problem: Option<Problem>,
    pub tree: Option<Tree>,
    pub counts: Option<Counts>,
    pub view: Option<View>,
}

/// The architecture and the texts of a design.
#[derive(Clone, Copy)]
pub struct DesignTexts<'a> {
    pub arch: &'a Arch,
    pub net: &'a [u8],
    pub place: &'a [u8],
}

/// The parts of a design. A netlist and a placement are kept as the texts that they were read from.
/// Each call that needs one reads it again.
#[derive(Drop)]
pub struct Design {
    pub arch: Option<Arch>,
    pub net: Option<Vec<u8>>,
    pub place: Option<Vec<u8>>,
}

impl Design {
    pub fn arch(&self) -> Result<&Arch, Unanswered> {
        match &self.arch {
            Some(arch) => Ok(arch),
            None => Err(NO_ARCHITECTURE),
        }
    }

    /// Returns the architecture, the netlist and the placement, or the refusal if one is missing.
    pub fn texts(&self) -> Result<DesignTexts<'_>, Unanswered> {
        match (&self.arch, &self.net, &self.place) {
            (Some(arch), Some(net), Some(place)) => Ok(DesignTexts {
                arch,
                net: net.as_slice(),
                place: place.as_slice(),
            }),
            (None, _, _) => Err(NO_ARCHITECTURE),
            (_, None, _) => Err(NO_NETLIST),
            _ => Err(Unanswered::Refused("there is no placement")),
        }
    }
}

/// A device, and a routing on it.
#[derive(Clone, Copy)]
pub struct RoutedDevice<'a> {
    pub device: &'a Device,
    pub routing: &'a Routing,
}

/// A problem, and a routing of it.
#[derive(Clone, Copy)]
pub struct RoutedProblem<'a> {
    pub problem: &'a Problem,
    pub routing: &'a Routing,
}

/// The book, a view of it, and how far a list of events got.
#[derive(Drop)]
pub struct Books {
    pub book: Option<Book>,
    pub view: Option<View>,
    /// The number of events of a list that were run before memory ran out.
    pub standing: usize,
}

/// What searches need of the session's problem, and the memory that they work in. The first search
/// makes both.
#[derive(Drop)]
pub struct Searching {
    pub prepared: PreparedProblem,
    pub scratch: Scratch,
}

/// The values that calls have made for later calls.
#[derive(Drop)]
pub struct Session {
    pub design: Design,
    pub device: Option<Device>,
    pub problem: Option<Problem>,
    pub tree: Option<Tree>,
    pub marks: Option<Marks>,
    pub routing: Option<Routing>,
    pub choice: Choice,
    pub counts: Option<Counts>,
    pub histories: Option<Histories>,
    pub searching: Option<Searching>,
    pub books: Books,
    pub workspace: Option<Workspace>,
    pub files: RunFiles,
    pub others: Others,
}

impl Session {
    pub fn new() -> Session {
        Session {
            design: Design {
                arch: None,
                net: None,
                place: None,
            },
            device: None,
            problem: None,
            tree: None,
            marks: None,
            routing: None,
            choice: Choice::standard(),
            counts: None,
            histories: None,
            searching: None,
            books: Books {
                book: None,
                view: None,
                standing: 0,
            },
            workspace: None,
            files: RunFiles {
                arch: None,
                net: None,
                place: None,
                route: None,
                route_room: None,
                out_room: None,
                words_room: None,
            },
            others: Others {
                arch: None,
                net: None,
                device: None,
                problem: None,
                tree: None,
                counts: None,
                view: None,
            },
        }
    }

    /// Returns the device and the routing, or the refusal if one is missing.
    pub fn routed_device(&self) -> Result<RoutedDevice<'_>, Unanswered> {
        match (&self.device, &self.routing) {
            (Some(device), Some(routing)) => Ok(RoutedDevice { device, routing }),
            (None, _) => Err(NO_DEVICE),
            _ => Err(NO_ROUTING),
        }
    }

    /// Returns the problem and the routing, or the refusal if one is missing.
    pub fn routed_problem(&self) -> Result<RoutedProblem<'_>, Unanswered> {
        match (&self.problem, &self.routing) {
            (Some(problem), Some(routing)) => Ok(RoutedProblem { problem, routing }),
            (None, _) => Err(NO_PROBLEM),
            _ => Err(NO_ROUTING),
        }
    }

    /// Returns the settings that were chosen, or else the standard ones.
    pub fn settings(&self) -> Settings {
        match self.choice.settings() {
            Ok(settings) => settings,
            Err(_) => Settings::standard(),
        }
    }
}
