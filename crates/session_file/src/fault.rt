//! Why a file isn't written or read.

use thiserror::Error;

/// The first breach of a session's file, from the left, or what else stood in the way. `usize` values are indices: of
/// the record, and of the edge in the record's list of edges.
#[derive(Clone, Copy, Debug, PartialEq, Eq, Error)]
pub enum FileFault {
    /// The bytes don't begin as a session's file does.
    #[error("11.1 BadMagic")]
    BadMagic,
    /// The file is of another version.
    #[error("11.2 Version")]
    Version,
    /// The bytes end within the file.
    #[error("11.3 Truncated")]
    Truncated,
    /// The digest at the end isn't that of the bytes in front of it.
    #[error("11.4 BadDigest")]
    BadDigest,
    /// The key of this record isn't greater than the one before.
    #[error("11.5 KeyOrder({0})")]
    KeyOrder(usize),
    /// An edge of this record isn't the index of a record before it whose key has a lower rank, or was there before.
    #[error("11.6 BadEdge({0}, {1})")]
    BadEdge(usize, usize),
    /// The result of this record isn't canonical for its kind, or its fingerprint is another one.
    #[error("11.7 Result({0})")]
    Result(usize),
    /// The mark of this record is Input on a key that is no input, or another one on an input.
    #[error("11.8 InputKind({0})")]
    InputKind(usize),
    /// Bytes follow the file.
    #[error("11.9 Trailing")]
    Trailing,
    /// The device failed.
    #[error("11.10 Device")]
    Device,
    /// The kind or the mark of this record is unknown, or its names don't fit its kind or are no text.
    #[error("11.11 BadKey({0})")]
    BadKey(usize),
    /// The session's number is over 9,999.
    #[error("11.12 Number")]
    Number,
    /// The previous session has no result of the key of this record with the fingerprint that stands for it.
    #[error("11.13 NoPastResult({0})")]
    NoPastResult(usize),
    /// Memory ran out.
    #[error("out of memory")]
    OutOfMemory,
}
