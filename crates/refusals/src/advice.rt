//! What is wrong with a refused file, and what to do about it: a sentence for each fault.

use arch_file::{ArchFault, Entry};
use net_file::NetFault;
use place_file::PlaceFault;
use route_file::RouteFileFault;
use run_inputs::{AppFault, InputFile};
use vpr_text::TextFault;

/// The offending word of a faulty line.
#[derive(Clone, Copy, Debug, PartialEq, Eq)]
pub enum Offender {
    /// No single word.
    Line,
    First,
    Second,
    Third,
    /// The second word, if the line has only two.
    Value,
    /// The names of a pinlist: as many as its block doesn't have pins.
    Names,
    /// No word, but a block that has no row.
    Block(usize),
}

/// Advice on a fault: the file, the line or 0 if there is none, the offending word, and what to do.
#[derive(Clone, Copy, Debug)]
pub struct Advice {
    pub file: InputFile,
    pub line: u32,
    pub offender: Offender,
    pub text: &'static str,
}

/// Advice on a fault, without the file: the line, the offending word and the text.
#[derive(Clone, Copy, Debug)]
struct Said(u32, Offender, &'static str);

impl Said {
    fn of(self, file: InputFile) -> Advice {
        let Said(line, offender, text) = self;
        Advice {
            file,
            line,
            offender,
            text,
        }
    }
}

/// Empty advice, on lack of memory.
const NOTHING: Said = Said(0, Offender::Line, "");

/// Returns the advice on a fault, if it is one of an input file.
pub fn advice_on(fault: &AppFault) -> Option<Advice> {
    match *fault {
        AppFault::Arch(fault) => Some(on_arch(fault).of(InputFile::Arch)),
        AppFault::Net(fault) => Some(on_net(fault).of(InputFile::Net)),
        AppFault::Place(fault) => Some(on_place(fault).of(InputFile::Place)),
        AppFault::Route(fault) => Some(on_route(fault).of(InputFile::Route)),
        AppFault::Unread(file) => Some(UNREAD.of(file)),
        AppFault::Unwritten | AppFault::Memory | AppFault::NoThread | AppFault::Astray => None,
    }
}

const UNREAD: Said = Said(
    0,
    Offender::Line,
    "it can't be read: see that it is there, and that you may read it",
);

/// Returns the advice on a fault that a file of any kind can have.
fn on_text(fault: TextFault) -> Said {
    match fault {
        TextFault::TooLong => Said(
            0,
            Offender::Line,
            "it has more than 16777216 bytes: see that it is the right file",
        ),
        TextFault::BadByte(line) => Said(
            line,
            Offender::Line,
            "a control character: remove it; files of other encodings and binary files have such",
        ),
        TextFault::Memory => NOTHING,
    }
}

/// Returns the advice on a fault of an architecture.
fn on_arch(fault: ArchFault) -> Said {
    match fault {
        ArchFault::Text(fault) => on_text(fault),
        ArchFault::UnknownKeyword(line) => Said(
            line,
            Offender::First,
            "no line of VPR 4.30's architectures begins so: mend the spelling, or take it out",
        ),
        ArchFault::Repeated(line) => Said(
            line,
            Offender::First,
            "it stood on a line before: remove one of the two",
        ),
        ArchFault::BadNumber(line) => Said(
            line,
            Offender::Value,
            "not the number that is wanted there: mend it, or add the word left out before it",
        ),
        ArchFault::BadWord(line) => Said(
            line,
            Offender::Value,
            "a word is wrong, left out or too many: write the line as docs/FORMATS.md has it",
        ),
        ArchFault::Unsupported(line) => Said(
            line,
            Offender::Value,
            "this router doesn't have that: choose a form that docs/FORMATS.md has",
        ),
        ArchFault::TooMany(line) => Said(
            line,
            Offender::Value,
            "more than this router takes: stay within the limits of docs/FORMATS.md",
        ),
        ArchFault::Missing(entry) => Said(0, Offender::Line, missing_entry(entry)),
        ArchFault::Memory => NOTHING,
    }
}

/// Returns the advice on an entry that no line gives.
fn missing_entry(entry: Entry) -> &'static str {
    match entry {
        Entry::IoRat => "no line gives `io_rat`: add it",
        Entry::ChanWidthIo => "no line gives `chan_width_io`: add it",
        Entry::ChanWidthX => "no line gives `chan_width_x`: add it",
        Entry::ChanWidthY => "no line gives `chan_width_y`: add it",
        Entry::Pin => "no line gives a pin: add an `inpin` or `outpin`",
        Entry::Class => "a class below another one has no pin: number classes without a gap",
        Entry::SwitchBlockType => "no line gives `switch_block_type`: add it",
        Entry::FcType => "no line gives `Fc_type`: add it",
        Entry::FcOutput => "no line gives `Fc_output`: add it",
        Entry::FcInput => "no line gives `Fc_input`: add it",
        Entry::FcPad => "no line gives `Fc_pad`: add it",
        Entry::Segment => "no line gives a `segment`: add one",
        Entry::Switch => "a segment names a switch that no line gives: add its `switch`",
    }
}

/// Returns the advice on a fault of a netlist.
fn on_net(fault: NetFault) -> Said {
    match fault {
        NetFault::Text(fault) => on_text(fault),
        NetFault::BadLine(0) => Said(
            0,
            Offender::Line,
            "it ends behind an element: add the element's `pinlist:`",
        ),
        NetFault::BadLine(line) => Said(
            line,
            Offender::First,
            "such a line can't stand there: an element has one name, and its `pinlist:` behind it",
        ),
        NetFault::PinCount(line) => Said(
            line,
            Offender::Names,
            "not as many nets as the block has pins: write `open` for a pin without a net",
        ),
        NetFault::DoubleName(line) => Said(
            line,
            Offender::Second,
            "a block before has that name: rename one of the two",
        ),
        NetFault::NoDriver(line) => Said(
            line,
            Offender::Line,
            "nothing drives a net that is first named here: add what does, or mend its spelling",
        ),
        NetFault::TwoDrivers(line) => Said(
            line,
            Offender::Line,
            "two pins drive a net that is first named here: take one of them off",
        ),
        NetFault::DoubleSink(line) => Said(
            line,
            Offender::Line,
            "a net first named here is on two pins of one class of a block: leave one `open`",
        ),
        NetFault::GlobalPin(line) => Said(
            line,
            Offender::Line,
            "a net first named here is on a `global` pin: name it in a line `.global`",
        ),
        NetFault::TooMany(line) => Said(
            line,
            Offender::Line,
            "more blocks or nets than this router takes: 20000 and 65535 are the most",
        ),
        NetFault::Memory => NOTHING,
    }
}

/// Returns the advice on a fault of a placement.
fn on_place(fault: PlaceFault) -> Said {
    match fault {
        PlaceFault::Text(fault) => on_text(fault),
        PlaceFault::BadLine(0) => HEAD,
        PlaceFault::BadLine(line) => Said(
            line,
            Offender::First,
            "such a line can't stand there: a row has a block, its column, its row and its subblk",
        ),
        PlaceFault::ArraySize(line) => Said(
            line,
            Offender::Line,
            "an array has 1 to 100 columns and rows: choose such a size",
        ),
        PlaceFault::UnknownBlock(line) => Said(
            line,
            Offender::First,
            "the netlist has no such block: see that the placement is of this netlist",
        ),
        PlaceFault::PlacedTwice(line) => Said(
            line,
            Offender::First,
            "a row before places that block: remove one of the two",
        ),
        PlaceFault::OffSite(line) => Said(
            line,
            Offender::First,
            "that block can't stand there: mend the place, or see that the architecture is right",
        ),
        PlaceFault::Occupied(line) => Said(
            line,
            Offender::First,
            "another block stands there: mend the place of one of the two",
        ),
        PlaceFault::Missing(block) => Said(
            0,
            Offender::Block(block),
            "has no row: add it, or see that the placement is of this netlist",
        ),
        PlaceFault::Memory => NOTHING,
    }
}

const HEAD: Said = Said(
    0,
    Offender::Line,
    "its first two lines are missing: see that it is the right file",
);

/// Returns the advice on a fault of a routing file.
fn on_route(fault: RouteFileFault) -> Said {
    match fault {
        RouteFileFault::Text(fault) => on_text(fault),
        RouteFileFault::BadLine(0) => HEAD,
        RouteFileFault::BadLine(line) => Said(
            line,
            Offender::First,
            "such a line can't stand there: write it as docs/FORMATS.md has it",
        ),
        RouteFileFault::ArraySize(line) => Said(
            line,
            Offender::Line,
            "the placement has another array: see that the two are of one design",
        ),
        RouteFileFault::UnknownNet(line) => Said(
            line,
            Offender::Third,
            "the netlist has no such net, or it is global in one of the two alone",
        ),
        RouteFileFault::NetTwice(line) => Said(
            line,
            Offender::Third,
            "that net has a section before: remove one of the two",
        ),
        RouteFileFault::NoNode(line) => Said(
            line,
            Offender::Line,
            "the device has no such node: see that architecture, placement and width are its own",
        ),
        RouteFileFault::Detached(line) => Said(
            line,
            Offender::Line,
            "a path begins at a node of the net's earlier paths: name the one where it leaves them",
        ),
        RouteFileFault::Memory => NOTHING,
    }
}
