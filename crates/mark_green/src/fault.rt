//! Why keys aren't evaluated.

use thiserror::Error;

/// Why a key isn't evaluated.
#[derive(Clone, Copy, Debug, PartialEq, Eq, Error)]
pub enum Fault {
    /// A worker failed, or the table refused a call for another reason than memory.
    #[error("10.1 Stopped")]
    Stopped,
    /// Memory ran out.
    #[error("10.2 OutOfMemory")]
    OutOfMemory,
    /// Another worker has the key, or one that it needs.
    #[error("10.3 Busy")]
    Busy,
}
