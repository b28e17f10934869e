//! Reading a text from its front.

ghost use Rattle.std.specs.Prelude.{◌≡◌, ◌≢◌, ◌↔◌, ◌++◌, ℕ, List, Some, IfSome, IsTrue, MatchOption, decimal, false, not, position};
ghost use Rattle.vpr_text.specs.Numbers.{is_digit};
ghost use Rattle.run_schedule.specs.Lines.{AreNotes, is_line_feed, IsInLine, line_text, notes_text};
ghost use Rattle.run_schedule.specs.kept.Taking.{ended_text, IsAny, IsReadable, IsWithin, IsWord, numbered_line, Passes, Takes};
ghost use Rattle.run_schedule.specs.ScheduleTexts.{turn_text};

use gates::ScheduledTurn;
use itoa::Buffer;
use std::marker::Model;
use vpr_text::number;

fn is_digit(byte: u8) -> bool
    ensures { result ≡ is_digit byte }
{
    b'0' <= byte && byte <= b'9'
}

fn is_within(least: u32, most: u32, number: u32) -> bool
    ensures { IsTrue result ↔ IsWithin least most number }
{
    least <= number && number <= most
}

/// Returns the place of the first byte that isn't a digit.
fn digits_end(text: &[u8]) -> Option<usize>
    ensures { result ≡ position (λ b. not (is_digit b)) text.now }
{
    text.iter().position(|byte| !is_digit(*byte))
}

/// Returns the place where the first line ends.
fn line_end(text: &[u8]) -> Option<usize>
    ensures { result ≡ position is_line_feed text.now }
{
    text.iter().position(|byte| *byte == b'\n')
}

/// Returns the rest of a text after this front.
#[tactic(auto, using(crate::proofs::Fronts::behind))]
fn behind<'a>(text: &'a [u8], front: &[u8]) -> Option<&'a [u8]>
    ensures { MatchOption result ((rest : List ℕ) → text.now ≢ front.now ++ rest)
        (λ rest. text.now ≡ front.now ++ rest.now) }
{
    text.strip_prefix(front)
}

/// Returns the number that is printed as exactly these digits.
#[tactic(auto, using(crate::proofs::Numbers::number_read))]
fn number_of(digits: &[u8]) -> Option<u32>
    ensures found { IfSome result (λ n. IsWord n × (digits.now ≡ decimal n)) }
    ensures only { (n : ℕ) → IsWord n → digits.now ≡ decimal n → result ≡ Some n }
{
    let number = number(digits)?;
    let mut printed = Buffer::new();
    if printed.format(number).as_bytes() != digits {
        return None;
    }
    Some(number)
}

/// Returns the number of the line with which the rest of a text begins.
pub(crate) fn line_at(bytes: &[u8], rest: &[u8]) -> u32 {
    let length = bytes.len().saturating_sub(rest.len());
    let lines = bytes[..length]
        .iter()
        .filter(|byte| **byte == b'\n')
        .count();
    u32::try_from(lines).unwrap_or(u32::MAX).saturating_add(1)
}

/// The rest of a text whose front was read. Contracts see its bytes.
#[derive(Debug, Drop)]
pub(crate) struct Text<'a> {
    rest: &'a [u8],
}

impl<'a> Model for Text<'a> {
    ghost use Rattle.std.specs.Prelude.{List, ℕ};

    ghost Value = { List ℕ };

    ghost view = { λ t. t.rest.now };
}

impl<'a> Text<'a> {
    pub(crate) fn new(bytes: &'a [u8]) -> Text<'a>
        ensures { result ≡ bytes.now }
    {
        Text { rest: bytes }
    }

    /// Returns a copy.
    pub(crate) fn again(&self) -> Text<'a>
        ensures { result ≡ self.now }
    {
        Text { rest: self.rest }
    }

    pub(crate) fn rest(&self) -> &'a [u8]
        ensures { result.now ≡ self.now }
    {
        self.rest
    }

    /// Takes off this front.
    pub(crate) fn take(&mut self, front: &[u8]) -> Option<()>
        ensures { Takes IsAny (λ _. front.now) self.old self.new result }
    {
        self.rest = behind(self.rest, front)?;
        Some(())
    }

    /// Takes off a number and the byte after it.
    pub(crate) fn take_number(&mut self, end: u8) -> Option<u32>
        requires { is_digit end ≡ false }
        ensures { Takes IsWord (ended_text end) self.old self.new result }
    {
        let length = digits_end(self.rest)?;
        let (digits, rest) = self.rest.split_at(length);
        let number = number_of(digits)?;
        self.rest = behind(rest, &[end])?;
        Some(number)
    }

    /// Takes off a line of this front and a number within these limits, and returns the number.
    pub(crate) fn take_within(&mut self, front: &[u8], least: u32, most: u32) -> Option<u32>
        ensures { Takes (IsWithin least most) (numbered_line front.now) self.old self.new result }
    {
        let mut ahead = self.again();
        ahead.take(front)?;
        let number = ahead.take_number(b'\n')?;
        if !is_within(least, most, number) {
            return None;
        }
        self.rest = ahead.rest();
        Some(number)
    }

    /// Takes off the line of a turn.
    pub(crate) fn take_turn(&mut self) -> Option<ScheduledTurn>
        ensures { Takes IsReadable turn_text self.old self.new result }
    {
        let net = self.take_number(b' ')?;
        let worker = self.take_number(b' ')?;
        let seen = self.take_number(b'\n')?;
        Some(ScheduledTurn {
            worker,
            net,
            seen: u64::from(seen),
        })
    }

    /// Takes off a line that begins with this front.
    pub(crate) fn pass_line(&mut self, front: &[u8]) -> Option<()>
        ensures { Passes IsInLine (line_text front.now) self.old self.new result }
    {
        let line = behind(self.rest, front)?;
        let end = line_end(line)?;
        self.rest = line.split_at(end + 1).1;
        Some(())
    }

    /// Takes off this number of lines of a head.
    pub(crate) fn pass_notes(&mut self, count: usize) -> Option<()>
        ensures { Passes (AreNotes count) notes_text self.old self.new result }
    {
        for _ in 0..count {
            self.pass_line(b"# ")?;
        }
        Some(())
    }
}
