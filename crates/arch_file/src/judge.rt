//! A line, given what the lines before it say.

ghost use Rattle.std.specs.Prelude.{◌≡◌};
ghost use Rattle.arch_file.specs.Judge.{is_passed, has_keyword, is_repeated, keyword_at, says, judge};

use crate::entries::Direction;
use crate::fault::LineFault;
use crate::keyword::{Keyword, is_unread};
use crate::line::ArchLine;
use crate::pins::pin_line;
use crate::segments::segment_line;
use crate::switches::switch_line;
use crate::values::{
    chan_width_io_line, channel_line, fc_type_line, fixed_value, io_rat_line, number_line,
    switch_block_type_line,
};
use vpr_text::Words;

/// Whether a line is passed over unread.
pub(crate) fn is_passed(words: &Words) -> bool
    ensures { result ≡ is_passed words.now }
{
    match words.get(0) {
        Some(word) => is_unread(word),
        None => false,
    }
}

/// Whether a line has this keyword.
#[tactic(auto, unfolding(crate::specs::Judge::has_keyword))]
pub(crate) fn has_keyword(lines: &[ArchLine], keyword: Keyword) -> bool
    ensures { result ≡ has_keyword lines.now keyword }
{
    lines.iter().any(|line| line.keyword() == keyword)
}

/// Whether a keyword that may occur once is on a line before.
fn is_repeated(before: &[ArchLine], keyword: Keyword) -> bool
    ensures { result ≡ is_repeated before.now keyword }
{
    keyword.stands_once() && has_keyword(before, keyword)
}

/// The keyword that a line begins with, if it is one.
fn keyword_at(words: &Words) -> Option<Keyword>
    ensures { result ≡ keyword_at words.now }
{
    Keyword::of(words.get(0)?)
}

/// What a line with this keyword says.
#[tactic(auto, unfolding(crate::specs::Judge::says))]
fn says(before: &[ArchLine], words: &Words, keyword: Keyword) -> Result<ArchLine, LineFault>
    ensures { result ≡ says before.now words.now keyword }
{
    match keyword {
        Keyword::IoRat => io_rat_line(words),
        Keyword::ChanWidthIo => chan_width_io_line(words),
        Keyword::ChanWidthX => channel_line(words, ArchLine::ChanWidthX),
        Keyword::ChanWidthY => channel_line(words, ArchLine::ChanWidthY),
        Keyword::Inpin => pin_line(before, Direction::Input, words),
        Keyword::Outpin => pin_line(before, Direction::Output, words),
        Keyword::SubblocksPerClb => number_line(words, ArchLine::SubblocksPerClb),
        Keyword::SubblockLutSize => number_line(words, ArchLine::SubblockLutSize),
        Keyword::SwitchBlockType => switch_block_type_line(words),
        Keyword::FcType => fc_type_line(words),
        Keyword::FcOutput => Ok(ArchLine::FcOutput(fixed_value(words)?)),
        Keyword::FcInput => Ok(ArchLine::FcInput(fixed_value(words)?)),
        Keyword::FcPad => Ok(ArchLine::FcPad(fixed_value(words)?)),
        Keyword::Segment => segment_line(before, words),
        Keyword::Switch => switch_line(before, words),
    }
}

/// What a line says, given what the lines before it say, or its first fault.
#[tactic(auto, unfolding(crate::specs::Judge::judge, crate::specs::Judge::judged))]
pub(crate) fn judge(before: &[ArchLine], words: &Words) -> Result<ArchLine, LineFault>
    ensures { result ≡ judge before.now words.now }
{
    let Some(keyword) = keyword_at(words) else {
        return Err(LineFault::UnknownKeyword);
    };
    if is_repeated(before, keyword) {
        return Err(LineFault::Repeated);
    }
    says(before, words, keyword)
}
