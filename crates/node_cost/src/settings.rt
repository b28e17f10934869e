//! The settings of a negotiation.

ghost use Rattle.std.specs.Prelude.{◌≡◌, ◌≤◌, false};
ghost use Rattle.node_cost.specs.Options.{AreWithinLimits, options_within, standard_options, with_steady, present_of, present_after, next_present};

use crate::entry_cost::{GREATEST_PRESENT, UNIT_FACTOR};
use crate::standard;
use std::marker::Model;
use thiserror::Error;

/// The greatest multiplier of the present-congestion factor, in sixteenths.
pub const MOST_MULT: u32 = 256;

/// The most that a node's history grows for each net of overuse.
pub const MOST_ACC: u32 = 65_535;

/// The most columns and rows outside the box of its terminals in which a net may be routed.
pub const MOST_BB: u32 = 255;

/// The most iterations of a negotiation.
pub const MOST_ITERATIONS: u32 = 500;

/// The most workers of a negotiation.
pub const MOST_WORKERS: u32 = 16;

/// The first setting that is out of range.
#[derive(Clone, Copy, Debug, PartialEq, Eq, Error)]
pub enum Range {
    /// The first factor is above 2^20.
    #[error("the first present-congestion factor is out of range")]
    First,
    /// The initial factor is above 2^20.
    #[error("the initial present-congestion factor is out of range")]
    Init,
    /// The multiplier is not within 16 to 256.
    #[error("the multiplier is out of range")]
    Mult,
    /// The history factor is above 65,535.
    #[error("the history factor is out of range")]
    Acc,
    /// The distance from the terminals is not within 1 to 255.
    #[error("the bounding box's margin is out of range")]
    Bb,
    /// The limit of iterations is not within 1 to 500.
    #[error("the limit of iterations is out of range")]
    Iterations,
}

/// The settings of a negotiation, all within their ranges. Contracts see the record of the options.
#[derive(Clone, Copy, Debug, PartialEq, Eq)]
pub struct Settings {
    first: u32,
    init: u32,
    mult: u32,
    acc: u16,
    bb: u32,
    iterations: u32,
    is_steady: bool,
}

impl Model for Settings {
    ghost use Rattle.node_cost.specs.Options.{RouterOptions, AreWithinLimits};

    ghost Value = { RouterOptions };

    ghost use Rattle.node_cost.specs.kept.Fields.{options_of};

    ghost view = { options_of };

    ghost inverse = { λ o. record {
      first = o.first;
      init = o.init;
      mult = o.mult;
      acc = o.acc;
      bb = o.bb;
      iterations = o.iterations;
      is_steady = o.steady;
    } };

    ghost invariant = { λ s. AreWithinLimits (options_of s) };
}

impl Settings {
    /// Makes settings, or returns the first that is out of range.
    #[tactic(auto, unfolding(crate::specs::Options::options_within))]
    pub fn new(
        first: u32,
        init: u32,
        mult: u32,
        acc: u32,
        bb: u32,
        iterations: u32,
    ) -> Result<Settings, Range>
        ensures { result ≡ options_within (record {
          first = first;
          init = init;
          mult = mult;
          acc = acc;
          bb = bb;
          iterations = iterations;
          steady = false;
        }) }
    {
        if first > GREATEST_PRESENT {
            return Err(Range::First);
        }
        if init > GREATEST_PRESENT {
            return Err(Range::Init);
        }
        if !(UNIT_FACTOR..=MOST_MULT).contains(&mult) {
            return Err(Range::Mult);
        }
        if acc > MOST_ACC {
            return Err(Range::Acc);
        }
        if !(1..=MOST_BB).contains(&bb) {
            return Err(Range::Bb);
        }
        if !(1..=MOST_ITERATIONS).contains(&iterations) {
            return Err(Range::Iterations);
        }
        Ok(Settings {
            first,
            init,
            mult,
            acc: acc as u16,
            bb,
            iterations,
            is_steady: false,
        })
    }

    /// Returns these settings with or without nets that keep to their trees where other ways cost
    /// the same.
    pub fn with_steady(self, is_steady: bool) -> Settings
        ensures { result ≡ with_steady self is_steady }
    {
        Settings { is_steady, ..self }
    }

    /// Returns the default settings.
    pub fn standard() -> Settings
        ensures { result ≡ standard_options }
    {
        Settings {
            first: standard::FIRST,
            init: standard::INIT,
            mult: standard::MULT,
            acc: standard::ACC,
            bb: standard::BB,
            iterations: standard::ITERATIONS,
            is_steady: false,
        }
    }

    /// Returns the present-congestion factor of the first iteration.
    pub fn first(&self) -> u32
        ensures exact { result ≡ self.now.first }
        ensures limits { AreWithinLimits self.now }
    {
        self.first
    }

    /// Returns the present-congestion factor of the second iteration.
    pub fn init(&self) -> u32
        ensures { result ≡ self.now.init }
    {
        self.init
    }

    /// Returns the multiplier of the factor from then on, in sixteenths.
    pub fn mult(&self) -> u32
        ensures { result ≡ self.now.mult }
    {
        self.mult
    }

    /// Returns how much a node's history grows for each net of overuse.
    pub fn acc(&self) -> u16
        ensures { result ≡ self.now.acc }
    {
        self.acc
    }

    /// Returns how far from its terminals' bounding box a net may be routed.
    pub fn bb(&self) -> u32
        ensures exact { result ≡ self.now.bb }
        ensures limits { AreWithinLimits self.now }
    {
        self.bb
    }

    /// Returns the greatest number of iterations.
    pub fn iterations(&self) -> u32
        ensures exact { result ≡ self.now.iterations }
        ensures limits { AreWithinLimits self.now }
    {
        self.iterations
    }

    /// Returns whether a net keeps to the tree that it has where other ways cost the same.
    pub fn is_steady(&self) -> bool
        ensures { result ≡ self.now.steady }
    {
        self.is_steady
    }

    /// Returns the present-congestion factor of an iteration, counted from 1.
    #[tactic(auto, unfolding(crate::specs::Options::present_of))]
    pub fn present(&self, iteration: u32) -> u32
        requires least { 1 ≤ iteration }
        requires greatest { iteration ≤ MOST_ITERATIONS }
        ensures exact { result ≡ present_of self.now iteration }
        ensures bounded { result ≤ GREATEST_PRESENT }
    {
        if iteration == 1 {
            return self.first;
        }
        self.present_after(iteration - 2)
    }

    /// Returns the factor so many iterations after the second.
    fn present_after(&self, iterations: u32) -> u32
        ensures exact { result ≡ present_after self.now.mult iterations self.now.init }
        ensures bounded { result ≤ GREATEST_PRESENT }
    {
        let mut present = self.init;
        for _ in 0..iterations {
            present = next_present(self.mult, present);
        }
        present
    }
}

/// Returns the present-congestion factor of the next iteration.
fn next_present(mult: u32, present: u32) -> u32
    requires mult { mult ≤ MOST_MULT }
    requires present { present ≤ GREATEST_PRESENT }
    ensures exact { result ≡ next_present mult present }
    ensures bounded { result ≤ GREATEST_PRESENT }
{
    (present * mult / UNIT_FACTOR).min(GREATEST_PRESENT)
}
