//! Why bytes are no value of a kind.

use thiserror::Error;

/// The first breach that reading from left to right meets.
#[derive(Clone, Copy, Debug, PartialEq, Eq, Error)]
pub enum Refusal {
    /// The bytes end within the value.
    #[error("5.1 Short")]
    Short,
    /// Bytes follow the value.
    #[error("5.2 Trailing")]
    Trailing,
    /// The item with this first byte isn't written as it has to be.
    #[error("5.3 NotCanonical({0})")]
    NotCanonical(usize),
    /// The first byte is that of another kind.
    #[error("5.4 WrongKind")]
    WrongKind,
    /// Memory ran out.
    #[error("out of memory")]
    OutOfMemory,
}
