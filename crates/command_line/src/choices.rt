//! The ranges and the defaults of the options that have a number.

ghost use Rattle.std.specs.Prelude.{◌≡◌, ◌≤◌};
ghost use Rattle.command_line.specs.kept.Choices.{AreChoices, AreDefaults};

use node_cost::{GREATEST_PRESENT, MOST_ACC, MOST_BB, MOST_ITERATIONS, MOST_MULT, UNIT_FACTOR};

/// The numbers that an option takes, and its default.
#[derive(Clone, Copy)]
pub(crate) struct Choice<'a> {
    pub(crate) least: u32,
    pub(crate) most: u32,
    pub(crate) standard: &'a str,
}

/// The numbers that each setting of a negotiation takes, and its default.
#[derive(Clone, Copy)]
pub(crate) struct Choices<'a> {
    pub(crate) first: Choice<'a>,
    pub(crate) init: Choice<'a>,
    pub(crate) mult: Choice<'a>,
    pub(crate) acc: Choice<'a>,
    pub(crate) bb: Choice<'a>,
    pub(crate) iterations: Choice<'a>,
}

/// Returns the choice of the numbers from one to another, with its default.
pub(crate) fn from_to<'a>(least: u32, most: u32, standard: &'a str) -> Choice<'a>
    ensures least { result.least ≡ least }
    ensures most { result.most ≡ most }
    ensures standard { result.standard ≡ standard.entry }
{
    Choice {
        least,
        most,
        standard,
    }
}

/// Returns the ranges in which all settings are, with the standard settings as the defaults.
pub(crate) fn setting_choices<'a>() -> Choices<'a>
    ensures ranges { AreChoices result }
    ensures standard { AreDefaults result }
{
    Choices {
        first: from_to(0, GREATEST_PRESENT, "8"),
        init: from_to(0, GREATEST_PRESENT, "8"),
        mult: from_to(UNIT_FACTOR, MOST_MULT, "32"),
        acc: from_to(0, MOST_ACC, "20"),
        bb: from_to(1, MOST_BB, "3"),
        iterations: from_to(1, MOST_ITERATIONS, "30"),
    }
}
