//! Why a file isn't read.

use thiserror::Error;

/// The first breach of a session file, from the left, or what else was in the way. `usize` values are indices, of the root or
/// of the record.
#[derive(Clone, Copy, Debug, PartialEq, Eq, Error)]
pub enum FileFault {
    /// The bytes don't begin as a session file does.
    #[error("1.1 BadMagic")]
    BadMagic,
    /// The file is of another version.
    #[error("1.2 Version")]
    Version,
    /// The bytes end within the file.
    #[error("1.3 Truncated")]
    Truncated,
    /// The session has no root.
    #[error("1.4 NoRoot")]
    NoRoot,
    /// This root has no bytes, or more than 65,536.
    #[error("1.5 RootLength({0})")]
    RootLength(usize),
    /// The key of this record has no bytes, or more than 65,536.
    #[error("1.6 KeyLength({0})")]
    KeyLength(usize),
    /// The mark of this record is unknown.
    #[error("1.7 UnknownMark({0})")]
    UnknownMark(usize),
    /// The digest at the end isn't that of the bytes before it.
    #[error("1.8 BadDigest")]
    BadDigest,
    /// Bytes follow the file.
    #[error("1.9 Trailing")]
    Trailing,
    /// The device failed.
    #[error("1.10 Device")]
    Device,
    /// Memory ran out.
    #[error("out of memory")]
    OutOfMemory,
}
