//! What a list has to join.

/// The source and the sinks of a net, these in ascending order.
#[derive(Drop)]
pub(crate) struct BorrowedTerminals<'a> {
    pub(crate) source: u32,
    pub(crate) sinks: &'a [u32],
}
