//! The default settings (VPR and T-VPack manual 4.30, "Router Options").

/// The present-congestion factor of the first iteration, in sixteenths.
pub const FIRST: u32 = 8;

/// That of the second iteration.
pub const INIT: u32 = 8;

/// By how many sixteenths the factor is multiplied in each later iteration.
pub const MULT: u32 = 32;

/// How much a node's history grows for each net of overuse.
pub const ACC: u16 = 20;

/// How many columns and rows outside the box of its terminals a net may be routed.
pub const BB: u32 = 3;

/// The greatest number of iterations.
pub const ITERATIONS: u32 = 30;
