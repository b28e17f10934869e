//! The parts of a netlist.

ghost use Rattle.std.specs.Prelude.{◌≡◌};

/// What a block is.
#[derive(Clone, Copy, Debug, PartialEq, Eq)]
pub enum BlockKind {
    /// A pad that drives a net (`.input`).
    InputPad,
    /// A pad that takes a net's signal (`.output`).
    OutputPad,
    /// A logic block (`.clb`).
    LogicBlock,
}

/// Where a net begins or ends: a block, counted from 0, and the class of its pin; none at a pad.
#[derive(Clone, Copy, Debug, PartialEq, Eq)]
pub struct Terminal {
    pub block: usize,
    pub class: Option<u32>,
}
