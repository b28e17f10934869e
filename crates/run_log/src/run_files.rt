//! The files of a run.

/// The names of a run's files, as the head of its log has them.
#[derive(Clone, Copy, Debug)]
pub struct RunFiles<'a> {
    pub net: &'a [u8],
    pub arch: &'a [u8],
    pub place: &'a [u8],
    pub route: &'a [u8],
    /// The schedule that the run writes, if it writes one.
    pub schedule: Option<&'a [u8]>,
    /// The schedule that the run follows, if it follows one.
    pub follow: Option<&'a [u8]>,
}
