//! What identifies a run, before the number of its nets is known.

use crate::file_sum::FileSum;
use crate::head::Head;
use node_cost::Settings;
use std::sync::Wait;

/// What identifies a run: the version of the program, the command with its own options, the sums of
/// its files, the number of workers, and the options of each negotiation.
#[derive(Clone, Copy)]
pub struct RunDescription<'a> {
    pub program: &'a str,
    pub command: &'a str,
    pub net: &'a FileSum,
    pub arch: &'a FileSum,
    pub place: &'a FileSum,
    pub workers: u32,
    pub settings: Settings,
}

/// The sums of the files of a run, in hexadecimal digits.
#[derive(Clone, Copy, Debug)]
pub(crate) struct Sums {
    net: [u8; 64],
    arch: [u8; 64],
    place: [u8; 64],
}

impl Sums {
    /// Returns the sums of the bytes up to now.
    pub(crate) fn of<R: Wait>(rt: &R, run: &RunDescription<'_>) -> Sums {
        Sums {
            net: run.net.digits(rt),
            arch: run.arch.digits(rt),
            place: run.place.digits(rt),
        }
    }
}

impl<'a> RunDescription<'a> {
    /// Returns the head of the schedule of this run, with these sums and this number of nets.
    pub(crate) fn head<'s>(&self, sums: &'s Sums, nets: u32) -> Head<'s>
    where
        'a: 's,
    {
        Head {
            program: self.program.as_bytes(),
            command: self.command.as_bytes(),
            net: &sums.net,
            arch: &sums.arch,
            place: &sums.place,
            workers: self.workers,
            settings: self.settings,
            nets,
        }
    }
}
