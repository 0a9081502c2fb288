//! Why a cache can't be used.
ghost use Rattle.std.specs.Prelude.{◌≡◌};
ghost use Rattle.session_cache.specs.declared.fault.CacheReadFault.TheVariants as unread;
ghost use Rattle.session_cache.specs.declared.fault.CacheWriteFault.TheVariants as unwritten;

use std::alloc::AllocError;

/// Why a cache isn't read.
#[derive(Drop)]
pub enum CacheReadFault {
    /// This folder or file can't be read.
    CannotRead(String),
    /// Memory ran out.
    OutOfMemory,
}

impl From<AllocError> for CacheReadFault {
    ghost from_gives = { λ _ e. e ≡ unread.OutOfMemory };

    fn from(_error: AllocError) -> CacheReadFault {
        CacheReadFault::OutOfMemory
    }
}

/// Why a session's file isn't written.
#[derive(Drop)]
pub enum CacheWriteFault {
    /// This file can't be written.
    CannotWrite(String),
    /// Memory ran out.
    OutOfMemory,
}

impl From<AllocError> for CacheWriteFault {
    ghost from_gives = { λ _ e. e ≡ unwritten.OutOfMemory };

    fn from(_error: AllocError) -> CacheWriteFault {
        CacheWriteFault::OutOfMemory
    }
}
