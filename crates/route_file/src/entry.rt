//! What a line without a fault is.

/// What a line after the first two is, if it has no fault.
#[derive(Clone, Copy, Debug)]
pub(crate) enum FileEntry {
    /// The line of a net, by its number in the netlist.
    NetLine(u32),
    /// A block of a global net.
    BlockLine,
    /// A node, by its number in the device.
    NodeLine(u32),
}
