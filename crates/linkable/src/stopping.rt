//! Why a call has no answer.
ghost use Rattle.linkable.specs.declared.stopping.Stop.TheVariants as stop;

use std::alloc::{AllocError, AllocFailed};

/// Why a call has no answer.
#[derive(Drop)]
pub(crate) enum Stop {
    /// This line says why.
    Refused(String),
    /// Memory ran out.
    OutOfMemory,
}

impl From<AllocError> for Stop {
    ghost use Rattle.std.specs.Prelude.{◌≡◌};

    ghost from_gives = { λ _ e. e ≡ stop.OutOfMemory };

    fn from(_error: AllocError) -> Stop {
        Stop::OutOfMemory
    }
}

impl<T: Drop> From<AllocFailed<T>> for Stop {
    ghost use Rattle.std.specs.Prelude.{◌≡◌};

    ghost from_gives = { λ _ e. e ≡ stop.OutOfMemory };

    fn from(_error: AllocFailed<T>) -> Stop {
        Stop::OutOfMemory
    }
}
