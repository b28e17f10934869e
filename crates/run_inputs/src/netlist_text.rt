//! An architecture, and the text of a netlist for it that is not parsed yet.

ghost use Rattle.std.specs.Prelude.{◌≡◌, true};
ghost use Rattle.run_inputs.specs.Inputs.{ends_before};
ghost use Rattle.run_inputs.specs.Runs.{Meets, reading};
ghost use Rattle.vpr_text.specs.Readings.{Gives};
ghost use Rattle.run_inputs.specs.declared.fault.AppFault.TheVariants.{Memory};
ghost use Rattle.run_inputs.specs.Stages.{text_in};

use crate::fault::{AppFault, InputFile};
use crate::inputs::{read_arch, read_input};
use arch_file::Arch;
use std::alloc::Global;
use std::marker::Model;
use vpr_text::ByteSource;

/// An architecture, and the text of a netlist for it.
#[derive(Drop)]
pub struct NetlistText {
    arch: Arch,
    bytes: Vec<u8>,
}

impl Model for NetlistText {
    ghost use Rattle.run_inputs.specs.Stages.{NetlistText};

    ghost Value = { NetlistText };

    ghost view = { λ t. record { arch = t.arch; bytes = t.bytes.items } };
}

impl NetlistText {
    /// Reads an architecture, and then, if that has no fault, the text of a netlist.
    pub fn read<A: ByteSource, N: ByteSource>(
        alloc: Global,
        arch: &mut A,
        net: &mut N,
    ) -> Result<NetlistText, AppFault>
        ensures given { Meets (reading (A.remaining arch.old) (A.failed arch.new))
            (λ a. Meets (reading (N.remaining net.old) (N.failed net.new))
            (λ n. Gives Memory (λ t. t) result (text_in a n))) }
        ensures turn { ends_before InputFile.Net result ≡ true → net.new ≡ net.old }
    {
        let arch = read_arch(alloc, arch)?;
        let bytes = read_input(alloc, net, InputFile::Net)?;
        Ok(NetlistText { arch, bytes })
    }

    pub fn arch(&self) -> &Arch
        ensures { result.now ≡ self.now.arch }
    {
        &self.arch
    }

    pub fn bytes(&self) -> &[u8]
        ensures { result.now ≡ self.now.bytes }
    {
        &self.bytes
    }
}
