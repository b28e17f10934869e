//! Why the parts of a routing problem are refused.

use thiserror::Error;

/// Why the parts of a routing problem are refused. A net is named by its index.
#[derive(Clone, Copy, Debug, PartialEq, Eq, Error)]
pub enum PartsFault {
    #[error("a problem has at most 65535 nets")]
    TooMany,
    /// Its number is not above that of the net before.
    #[error("the numbers of nets ascend, and that of net {0} does not")]
    NotAscending(u32),
    /// It is no node of the device, or not a source.
    #[error("net {0} begins at what is no source")]
    BadSource(u32),
    /// There is none, one is no sink of the device, or they do not ascend.
    #[error("the sinks of net {0} are not one or more sinks that ascend")]
    BadSinks(u32),
    #[error("out of memory")]
    Memory,
}
