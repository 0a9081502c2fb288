//! Why reading stops.
ghost use Rattle.std.specs.Prelude.{◌≡◌};
ghost use Rattle.redgreen_files.specs.declared.reading.feed_fault.FeedFault.TheVariants.{Memory};

use crate::fault::FileFault;
use std::alloc::{AllocError, AllocFailed};

/// Why nothing was read.
#[derive(Clone, Copy)]
pub enum FeedFault {
    /// Memory ran out.
    Memory,
    /// The device failed.
    Device,
    /// The bytes have this breach.
    Breach(FileFault),
}

impl From<AllocError> for FeedFault {
    ghost from_gives = { λ _ e. e ≡ Memory };

    fn from(_error: AllocError) -> FeedFault {
        FeedFault::Memory
    }
}

impl<T: Drop> From<AllocFailed<T>> for FeedFault {
    ghost from_gives = { λ _ e. e ≡ Memory };

    fn from(_error: AllocFailed<T>) -> FeedFault {
        FeedFault::Memory
    }
}
