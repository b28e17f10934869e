//! Lines of one value.

ghost use Rattle.std.specs.Prelude.{◌≡◌};
ghost use Rattle.arch_file.specs.Values.{io_rat_line, chan_width_io_line, is_distribution, channel_line, number_line, fixed_value, switch_block_type_line, fc_type_line};

use crate::entries::FcType;
use crate::fault::LineFault;
use crate::line::ArchLine;
use vpr_text::Words;

/// The greatest number of pads at one place of the perimeter.
const MOST_PADS: u32 = 16;

/// 1 in units of 10^-9.
pub(crate) const ONE: u64 = 1_000_000_000;

/// `io_rat n`: pads at each place of the perimeter.
#[tactic(auto, unfolding(crate::specs::Values::io_rat_line))]
pub(crate) fn io_rat_line(words: &Words) -> Result<ArchLine, LineFault>
    ensures { result ≡ io_rat_line words.now }
{
    let pads = words.number(1).unwrap_or(0);
    if words.has(1) && pads == 0 {
        return Err(LineFault::BadNumber);
    }
    if words.len() != 2 {
        return Err(LineFault::BadWord);
    }
    if pads > MOST_PADS {
        return Err(LineFault::TooMany);
    }
    Ok(ArchLine::IoRat(pads))
}

/// `chan_width_io v`.
#[tactic(auto, unfolding(crate::specs::Values::chan_width_io_line))]
pub(crate) fn chan_width_io_line(words: &Words) -> Result<ArchLine, LineFault>
    ensures { result ≡ chan_width_io_line words.now }
{
    let width = words.fixed(1);
    if words.has(1) && width.is_none() {
        return Err(LineFault::BadNumber);
    }
    if words.len() != 2 {
        return Err(LineFault::BadWord);
    }
    if width.unwrap_or(0) != ONE {
        return Err(LineFault::Unsupported);
    }
    Ok(ArchLine::ChanWidthIo)
}

/// Whether the line asks for channels whose widths differ.
fn is_distribution(words: &Words) -> bool
    ensures { result ≡ is_distribution words.now }
{
    words.is(1, "gaussian") || words.is(1, "pulse") || words.is(1, "delta")
}

/// `chan_width_x uniform v` and `chan_width_y uniform v`.
#[tactic(auto, unfolding(crate::specs::Values::channel_line))]
pub(crate) fn channel_line(words: &Words, line: ArchLine) -> Result<ArchLine, LineFault>
    ensures { result ≡ channel_line words.now line }
{
    if is_distribution(words) {
        return Err(LineFault::Unsupported);
    }
    let width = words.fixed(2);
    if words.has(2) && width.is_none() {
        return Err(LineFault::BadNumber);
    }
    if !words.is(1, "uniform") || words.len() != 3 {
        return Err(LineFault::BadWord);
    }
    if width.unwrap_or(0) != ONE {
        return Err(LineFault::Unsupported);
    }
    Ok(line)
}

/// A keyword and a number.
#[tactic(auto, unfolding(crate::specs::Values::number_line))]
pub(crate) fn number_line(words: &Words, line: ArchLine) -> Result<ArchLine, LineFault>
    ensures { result ≡ number_line words.now line }
{
    if words.has(1) && words.number(1).is_none() {
        return Err(LineFault::BadNumber);
    }
    if words.len() != 2 {
        return Err(LineFault::BadWord);
    }
    Ok(line)
}

/// The number with decimals that follows a keyword and is the rest of the line.
#[tactic(auto, unfolding(crate::specs::Values::fixed_value))]
pub(crate) fn fixed_value(words: &Words) -> Result<u64, LineFault>
    ensures { result ≡ fixed_value words.now }
{
    let value = words.fixed(1);
    if words.has(1) && value.is_none() {
        return Err(LineFault::BadNumber);
    }
    if words.len() != 2 {
        return Err(LineFault::BadWord);
    }
    Ok(value.unwrap_or(0))
}

/// `switch_block_type subset`.
#[tactic(auto, unfolding(crate::specs::Values::switch_block_type_line))]
pub(crate) fn switch_block_type_line(words: &Words) -> Result<ArchLine, LineFault>
    ensures { result ≡ switch_block_type_line words.now }
{
    if words.len() != 2 {
        return Err(LineFault::BadWord);
    }
    if words.is(1, "wilton") || words.is(1, "universal") {
        return Err(LineFault::Unsupported);
    }
    if !words.is(1, "subset") {
        return Err(LineFault::BadWord);
    }
    Ok(ArchLine::SwitchBlockType)
}

/// `Fc_type absolute` and `Fc_type fractional`.
#[tactic(auto, unfolding(crate::specs::Values::fc_type_line))]
pub(crate) fn fc_type_line(words: &Words) -> Result<ArchLine, LineFault>
    ensures { result ≡ fc_type_line words.now }
{
    if words.len() != 2 {
        return Err(LineFault::BadWord);
    }
    if words.is(1, "absolute") {
        return Ok(ArchLine::FcType(FcType::Absolute));
    }
    if words.is(1, "fractional") {
        return Ok(ArchLine::FcType(FcType::Fractional));
    }
    Err(LineFault::BadWord)
}
