//! Why there is no session.
ghost use Rattle.std.specs.Prelude.{◌≡◌};
ghost use Rattle.driver.specs.declared.fault.DriveFault.TheVariants as fault;

use std::alloc::AllocError;
use thiserror::Error;

/// Why there is no session.
#[derive(Clone, Copy, Debug, PartialEq, Eq, Error)]
pub enum DriveFault {
    /// The number of workers isn't 1 to 64.
    #[error("12.1 Workers")]
    Workers,
    /// Memory ran out.
    #[error("12.2 OutOfMemory")]
    OutOfMemory,
    /// The previous session has the number 9,999, so none can follow it.
    #[error("12.3 ChainFull")]
    ChainFull,
}

impl From<AllocError> for DriveFault {
    ghost from_gives = { λ _ e. e ≡ fault.OutOfMemory };

    fn from(_error: AllocError) -> DriveFault {
        DriveFault::OutOfMemory
    }
}
