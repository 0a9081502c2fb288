//! Why records make no session.

use thiserror::Error;

/// The first fault of a number and records, from the left, with the text of the same fault of a file. `usize` values are
/// indices: of the record, and of the edge in the record's list of edges.
#[derive(Clone, Copy, Debug, PartialEq, Eq, Error)]
pub enum SessionFault {
    /// The number is over 9,999.
    #[error("11.12 Number")]
    Number,
    /// The key of this record isn't greater than the one before.
    #[error("11.5 KeyOrder({0})")]
    KeyOrder(usize),
    /// The mark of this record is Input on a key that is no input, or another one on an input.
    #[error("11.8 InputKind({0})")]
    InputKind(usize),
    /// An edge of this record isn't the index of a record before it whose key has a lower rank, or was there before.
    #[error("11.6 BadEdge({0}, {1})")]
    BadEdge(usize, usize),
    /// The result of this record isn't of the key's kind.
    #[error("11.7 Result({0})")]
    Result(usize),
    /// Memory ran out.
    #[error("out of memory")]
    OutOfMemory,
}
