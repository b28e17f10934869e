//! Why a device is refused.

ghost use Rattle.std.specs.Prelude.{◌≡◌};
ghost use Rattle.routing_problem.specs.declared.fault.DeviceFault.TheVariants.{Memory};

use std::alloc::AllocError;
use thiserror::Error;

/// Why a device is refused.
#[derive(Clone, Copy, Debug, PartialEq, Eq, Error)]
pub enum DeviceFault {
    /// The width is not in 1 to 256.
    #[error("a channel has 1 to 256 tracks")]
    Width,
    #[error("out of memory")]
    Memory,
}

impl From<AllocError> for DeviceFault {
    ghost from_gives = { λ _ e. e ≡ Memory };

    fn from(_error: AllocError) -> DeviceFault {
        DeviceFault::Memory
    }
}
