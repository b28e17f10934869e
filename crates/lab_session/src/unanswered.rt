//! Why a call has no answer.

use arch_file::ArchFault;
use congestion_book::RunFault;
use net_file::NetFault;
use net_workers::WorkFault;
use node_cost::Range;
use place_file::PlaceFault;
use route_file::RouteFileFault;
use rr_graph::{DeviceFault, PartsFault};
use std::alloc::{AllocError, AllocFailed};
use thiserror::Error;
use vpr_text::{ReadFault, TextFault};
use wavefront::SearchFault;

/// The reason why a call has no answer. Lack of memory is reported the same way for all libraries.
#[derive(Debug, Drop, Error)]
pub enum Unanswered {
    /// The first word names no call.
    #[error("there is no such call")]
    NoCall,
    /// The other words are not those of the call.
    #[error("the call is wanted as: {0}")]
    Misread(&'static str),
    /// The call was not made.
    #[error("refused: {0}")]
    Refused(&'static str),
    #[error("memory")]
    Memory,
    /// Memory ran out after this many events of a list.
    #[error("memory after {0} events")]
    Stopped(usize),
    #[error("fault: the clock cannot be read")]
    Clock,
    #[error("fault: {0}")]
    File(FileFault),
    #[error("fault: {0}")]
    Library(LibraryFault),
}

/// What is wrong with a file.
#[derive(Debug, Drop, Error)]
pub enum FileFault {
    #[error("the file cannot be opened")]
    Unopened,
    #[error("read: {0:?}")]
    Read(ReadFault),
    #[error("text: {0:?}")]
    Text(TextFault),
    #[error("arch: {0:?}")]
    Arch(ArchFault),
    #[error("net: {0:?}")]
    Net(NetFault),
    #[error("place: {0:?}")]
    Place(PlaceFault),
    #[error("route: {0:?}")]
    Route(RouteFileFault),
}

/// The fault of a library that reads no file.
#[derive(Debug, Drop, Error)]
pub enum LibraryFault {
    #[error("device: {0:?}")]
    Device(DeviceFault),
    #[error("problem: {0:?}")]
    Parts(PartsFault),
    #[error("settings: {0:?}")]
    Settings(Range),
    #[error("search: {0:?}")]
    Search(SearchFault),
    #[error("work: {0:?}")]
    Work(WorkFault),
}

impl Unanswered {
    /// Returns whether memory or a thread was lacking. In that case the same call may succeed
    /// later.
    pub fn is_for_want(&self) -> bool {
        match self {
            Unanswered::Memory | Unanswered::Stopped(_) => true,
            Unanswered::Library(fault) => matches!(fault, LibraryFault::Work(WorkFault::NoThread)),
            _ => false,
        }
    }
}

impl From<AllocError> for Unanswered {
    fn from(_error: AllocError) -> Unanswered {
        Unanswered::Memory
    }
}

impl<T: Drop> From<AllocFailed<T>> for Unanswered {
    fn from(_error: AllocFailed<T>) -> Unanswered {
        Unanswered::Memory
    }
}

impl From<ReadFault> for Unanswered {
    fn from(fault: ReadFault) -> Unanswered {
        match fault {
            ReadFault::Memory => Unanswered::Memory,
            ReadFault::Failed => Unanswered::File(FileFault::Read(fault)),
        }
    }
}

impl From<TextFault> for Unanswered {
    fn from(fault: TextFault) -> Unanswered {
        match fault {
            TextFault::Memory => Unanswered::Memory,
            _ => Unanswered::File(FileFault::Text(fault)),
        }
    }
}

impl From<ArchFault> for Unanswered {
    fn from(fault: ArchFault) -> Unanswered {
        match fault {
            ArchFault::Memory | ArchFault::Text(TextFault::Memory) => Unanswered::Memory,
            _ => Unanswered::File(FileFault::Arch(fault)),
        }
    }
}

impl From<NetFault> for Unanswered {
    fn from(fault: NetFault) -> Unanswered {
        match fault {
            NetFault::Memory | NetFault::Text(TextFault::Memory) => Unanswered::Memory,
            _ => Unanswered::File(FileFault::Net(fault)),
        }
    }
}

impl From<PlaceFault> for Unanswered {
    fn from(fault: PlaceFault) -> Unanswered {
        match fault {
            PlaceFault::Memory | PlaceFault::Text(TextFault::Memory) => Unanswered::Memory,
            _ => Unanswered::File(FileFault::Place(fault)),
        }
    }
}

impl From<DeviceFault> for Unanswered {
    fn from(fault: DeviceFault) -> Unanswered {
        match fault {
            DeviceFault::Memory => Unanswered::Memory,
            DeviceFault::Width => Unanswered::Library(LibraryFault::Device(fault)),
        }
    }
}

impl From<PartsFault> for Unanswered {
    fn from(fault: PartsFault) -> Unanswered {
        match fault {
            PartsFault::Memory => Unanswered::Memory,
            _ => Unanswered::Library(LibraryFault::Parts(fault)),
        }
    }
}

impl From<RouteFileFault> for Unanswered {
    fn from(fault: RouteFileFault) -> Unanswered {
        match fault {
            RouteFileFault::Memory | RouteFileFault::Text(TextFault::Memory) => Unanswered::Memory,
            _ => Unanswered::File(FileFault::Route(fault)),
        }
    }
}

impl From<Range> for Unanswered {
    fn from(fault: Range) -> Unanswered {
        Unanswered::Library(LibraryFault::Settings(fault))
    }
}

impl From<SearchFault> for Unanswered {
    fn from(fault: SearchFault) -> Unanswered {
        match fault {
            SearchFault::Memory => Unanswered::Memory,
            SearchFault::ViewSize => Unanswered::Library(LibraryFault::Search(fault)),
        }
    }
}

impl From<RunFault> for Unanswered {
    fn from(fault: RunFault) -> Unanswered {
        let RunFault::Memory(count) = fault;
        Unanswered::Stopped(count)
    }
}

impl From<WorkFault> for Unanswered {
    fn from(fault: WorkFault) -> Unanswered {
        match fault {
            WorkFault::Memory => Unanswered::Memory,
            _ => Unanswered::Library(LibraryFault::Work(fault)),
        }
    }
}
