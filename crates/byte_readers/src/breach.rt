//! Why bytes are refused.
ghost use Rattle.std.specs.Prelude.{◌≡◌};
ghost use Rattle.byte_readers.specs.declared.breach.ReadError.TheVariants.{Memory};

use std::alloc::{AllocError, AllocFailed};

/// The first breach that reading from left to right meets.
#[derive(Clone, Copy, Debug, PartialEq, Eq)]
pub enum Breach {
    /// An item passes the end of the bytes.
    Short,
    /// An item isn't canonical; so many bytes are left from its first one on.
    NotCanonical(usize),
}

/// Why nothing was read.
#[derive(Drop)]
pub enum ReadError {
    /// Memory ran out.
    Memory,
    /// The bytes are refused.
    Breach(Breach),
}

impl From<AllocError> for ReadError {
    ghost from_gives = { λ _ e. e ≡ Memory };

    fn from(_error: AllocError) -> ReadError {
        ReadError::Memory
    }
}

impl<T: Drop> From<AllocFailed<T>> for ReadError {
    ghost from_gives = { λ _ e. e ≡ Memory };

    fn from(_error: AllocFailed<T>) -> ReadError {
        ReadError::Memory
    }
}
