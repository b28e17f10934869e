//! What can go wrong in a run of the program, how it is printed, and the exit status it gives.

ghost use Rattle.std.specs.Prelude.{◌≡◌, OnOk, OnErr, IsTrue};
ghost use Rattle.std.specs.Io.KnownBytes.{Appends};
ghost use Rattle.text_output.specs.Printing.{PrintsTo};
ghost use Rattle.run_inputs.specs.declared.fault.AppFault.TheVariants.{Memory};
ghost use Rattle.run_inputs.specs.Faults.{fault_of_arch, fault_of_net, fault_of_place, fault_of_route, fault_of_work, fault_text, input_text, line_fault_text, status_of, unread_text};
ghost use Rattle.run_inputs.specs.Runs.{TakesFront, writing_to};

use arch_file::ArchFault;
use net_file::NetFault;
use net_workers::WorkFault;
use place_file::PlaceFault;
use route_file::RouteFileFault;
use std::alloc::AllocError;
use text_output::{ByteSink, Piece, Printer};
use thiserror::Error;
use vpr_text::Broken;

/// An input file of the program.
#[derive(Clone, Copy, Debug, PartialEq, Eq)]
pub enum InputFile {
    Arch,
    Net,
    Place,
    Route,
}

/// What can go wrong in a run.
#[derive(Clone, Copy, Debug, PartialEq, Eq, Error)]
pub enum AppFault {
    /// The architecture file has this fault, which is never lack of memory.
    #[error("the architecture file: {0}")]
    Arch(ArchFault),
    /// The netlist has this fault, which is never lack of memory.
    #[error("the netlist: {0}")]
    Net(NetFault),
    /// The placement has this fault, which is never lack of memory.
    #[error("the placement: {0}")]
    Place(PlaceFault),
    /// The routing file has this fault, which is never lack of memory.
    #[error("the routing file: {0}")]
    Route(RouteFileFault),
    /// An input file could not be opened, or reading it failed.
    #[error("an input file cannot be read")]
    Unread(InputFile),
    /// Writing failed.
    #[error("the output cannot be written")]
    Unwritten,
    /// Memory ran out.
    #[error("memory ran out")]
    Memory,
    /// A worker's thread could not be started.
    #[error("a thread could not be started")]
    NoThread,
    /// A worker's report disagrees with the congestion book.
    #[error("a worker went astray")]
    Astray,
}

impl From<AllocError> for AppFault {
    ghost from_gives = { λ _ e. e ≡ Memory };

    fn from(_e: AllocError) -> AppFault {
        AppFault::Memory
    }
}

impl From<ArchFault> for AppFault {
    ghost from_gives = { λ fault e. e ≡ fault_of_arch fault };

    fn from(fault: ArchFault) -> AppFault {
        if fault.is_memory() {
            AppFault::Memory
        } else {
            AppFault::Arch(fault)
        }
    }
}

impl From<NetFault> for AppFault {
    ghost from_gives = { λ fault e. e ≡ fault_of_net fault };

    fn from(fault: NetFault) -> AppFault {
        if fault.is_memory() {
            AppFault::Memory
        } else {
            AppFault::Net(fault)
        }
    }
}

impl From<PlaceFault> for AppFault {
    ghost from_gives = { λ fault e. e ≡ fault_of_place fault };

    fn from(fault: PlaceFault) -> AppFault {
        if fault.is_memory() {
            AppFault::Memory
        } else {
            AppFault::Place(fault)
        }
    }
}

impl From<RouteFileFault> for AppFault {
    ghost from_gives = { λ fault e. e ≡ fault_of_route fault };

    fn from(fault: RouteFileFault) -> AppFault {
        if fault.is_memory() {
            AppFault::Memory
        } else {
            AppFault::Route(fault)
        }
    }
}

impl From<WorkFault> for AppFault {
    ghost from_gives = { λ fault e. e ≡ fault_of_work fault };

    fn from(fault: WorkFault) -> AppFault {
        match fault {
            WorkFault::NoThread => AppFault::NoThread,
            WorkFault::Memory => AppFault::Memory,
            WorkFault::Astray => AppFault::Astray,
        }
    }
}

/// Returns the exit status of a fault: 4 for bad input, 5 if reading or writing failed, 6 for
/// memory, a thread, or a worker that went astray.
pub fn status(fault: &AppFault) -> u8
    ensures { result ≡ status_of fault.now }
{
    match fault {
        AppFault::Arch(_) | AppFault::Net(_) | AppFault::Place(_) | AppFault::Route(_) => 4,
        AppFault::Unread(_) | AppFault::Unwritten => 5,
        AppFault::Memory | AppFault::NoThread | AppFault::Astray => 6,
    }
}

/// Returns an input file's name in the text of a fault.
fn input_name(file: InputFile) -> &'static [u8]
    ensures { result.now ≡ input_text file }
{
    match file {
        InputFile::Arch => b"arch",
        InputFile::Net => b"net",
        InputFile::Place => b"place",
        InputFile::Route => b"route",
    }
}

/// Prints the line of a fault in an input file.
#[tactic(auto, unfolding(crate::specs::Faults::line_fault_text))]
fn put_line_fault<W: ByteSink>(out: &mut Printer<'_, W>, file: InputFile, line: u32, name: &[u8])
    ensures { PrintsTo W.ByteSink out.old out.new
        (line_fault_text (input_text file) line name.now) }
{
    out.put_pieces(&[
        Piece::Text(b"error: "),
        Piece::Text(input_name(file)),
        Piece::Text(b" line "),
        Piece::Number(line),
        Piece::Text(b": "),
        Piece::Text(name),
        Piece::Text(b"\n"),
    ]);
}

/// Prints the line of an input file that cannot be read.
#[tactic(auto, unfolding(crate::specs::Faults::unread_text))]
fn put_unread<W: ByteSink>(out: &mut Printer<'_, W>, file: InputFile)
    ensures { PrintsTo W.ByteSink out.old out.new
        (unread_text (input_text file)) }
{
    out.put_pieces(&[
        Piece::Text(b"error: "),
        Piece::Text(input_name(file)),
        Piece::Text(b" cannot be read\n"),
    ]);
}

/// Prints a fault's line through a buffer.
fn put_fault<W: ByteSink>(out: &mut Printer<'_, W>, fault: &AppFault)
    ensures { PrintsTo W.ByteSink out.old out.new (fault_text fault.now) }
{
    match fault {
        AppFault::Arch(fault) => {
            put_line_fault(out, InputFile::Arch, fault.line(), fault.name());
        }
        AppFault::Net(fault) => {
            put_line_fault(out, InputFile::Net, fault.line(), fault.name());
        }
        AppFault::Place(fault) => {
            put_line_fault(out, InputFile::Place, fault.line(), fault.name());
        }
        AppFault::Route(fault) => {
            put_line_fault(out, InputFile::Route, fault.line(), fault.name());
        }
        AppFault::Unread(file) => put_unread(out, *file),
        AppFault::Unwritten => out.push(b"error: cannot write\n"),
        AppFault::Memory => out.push(b"error: memory\n"),
        AppFault::NoThread => out.push(b"error: no thread\n"),
        AppFault::Astray => out.push(b"error: astray\n"),
    }
}

/// Prints a fault's line. It takes no memory.
///
/// # Errors
/// `Broken` if the sink failed. It took a front of the line.
pub fn print_fault<W: ByteSink>(fault: &AppFault, out: &mut W) -> Result<(), Broken>
    ensures ok { OnOk result (Appends (W.taken out.old) (W.taken out.new) (fault_text fault.now)) }
    ensures err { OnErr result (IsTrue (W.failed out.new)) }
    ensures front { OnErr result (TakesFront
        (writing_to W.taken W.failed out.old out.new) (fault_text fault.now)) }
{
    let mut printer = Printer::new(out);
    put_fault(&mut printer, fault);
    match printer.finish() {
        Ok(()) => Ok(()),
        Err(broken) => Err(broken),
    }
}
