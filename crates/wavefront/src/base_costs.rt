//! The base costs of nodes (this project's profile).

/// The base cost of a wire, a source and an output pin.
pub const WIRE_BASE: u32 = 20;

/// The base cost of an input pin.
pub const INPUT_PIN_BASE: u32 = 19;
