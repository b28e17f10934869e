//! What one accepted line of an architecture says.

ghost use Rattle.std.specs.Prelude.{◌≡◌};
ghost use Rattle.arch_file.specs.Lines.{keyword_of_line, pin_of, segment_of, switch_of, io_rat_of, fc_type_of, fc_output_of, fc_input_of, fc_pad_of};

use crate::entries::{Direction, FcType, Pin, Segment, Switch};
use crate::keyword::Keyword;

/// An accepted line. Lines that are passed over unread give none.
#[derive(Clone, Copy)]
pub(crate) enum ArchLine {
    IoRat(u32),
    ChanWidthIo,
    ChanWidthX,
    ChanWidthY,
    Pin(Pin),
    SubblocksPerClb,
    SubblockLutSize,
    SwitchBlockType,
    FcType(FcType),
    FcOutput(u64),
    FcInput(u64),
    FcPad(u64),
    Segment(Segment),
    Switch(Switch),
}

impl ArchLine {
    /// The keyword of this line.
    pub(crate) fn keyword(self) -> Keyword
        ensures { result ≡ keyword_of_line self }
    {
        match self {
            ArchLine::IoRat(_) => Keyword::IoRat,
            ArchLine::ChanWidthIo => Keyword::ChanWidthIo,
            ArchLine::ChanWidthX => Keyword::ChanWidthX,
            ArchLine::ChanWidthY => Keyword::ChanWidthY,
            ArchLine::Pin(pin) => match pin.direction {
                Direction::Input => Keyword::Inpin,
                Direction::Output => Keyword::Outpin,
            },
            ArchLine::SubblocksPerClb => Keyword::SubblocksPerClb,
            ArchLine::SubblockLutSize => Keyword::SubblockLutSize,
            ArchLine::SwitchBlockType => Keyword::SwitchBlockType,
            ArchLine::FcType(_) => Keyword::FcType,
            ArchLine::FcOutput(_) => Keyword::FcOutput,
            ArchLine::FcInput(_) => Keyword::FcInput,
            ArchLine::FcPad(_) => Keyword::FcPad,
            ArchLine::Segment(_) => Keyword::Segment,
            ArchLine::Switch(_) => Keyword::Switch,
        }
    }

    pub(crate) fn pin(self) -> Option<Pin>
        ensures { result ≡ pin_of self }
    {
        match self {
            ArchLine::Pin(pin) => Some(pin),
            _ => None,
        }
    }

    pub(crate) fn segment(self) -> Option<Segment>
        ensures { result ≡ segment_of self }
    {
        match self {
            ArchLine::Segment(segment) => Some(segment),
            _ => None,
        }
    }

    pub(crate) fn switch(self) -> Option<Switch>
        ensures { result ≡ switch_of self }
    {
        match self {
            ArchLine::Switch(switch) => Some(switch),
            _ => None,
        }
    }

    pub(crate) fn io_rat(self) -> Option<u32>
        ensures { result ≡ io_rat_of self }
    {
        match self {
            ArchLine::IoRat(n) => Some(n),
            _ => None,
        }
    }

    pub(crate) fn fc_type(self) -> Option<FcType>
        ensures { result ≡ fc_type_of self }
    {
        match self {
            ArchLine::FcType(kind) => Some(kind),
            _ => None,
        }
    }

    pub(crate) fn fc_output(self) -> Option<u64>
        ensures { result ≡ fc_output_of self }
    {
        match self {
            ArchLine::FcOutput(v) => Some(v),
            _ => None,
        }
    }

    pub(crate) fn fc_input(self) -> Option<u64>
        ensures { result ≡ fc_input_of self }
    {
        match self {
            ArchLine::FcInput(v) => Some(v),
            _ => None,
        }
    }

    pub(crate) fn fc_pad(self) -> Option<u64>
        ensures { result ≡ fc_pad_of self }
    {
        match self {
            ArchLine::FcPad(v) => Some(v),
            _ => None,
        }
    }
}
