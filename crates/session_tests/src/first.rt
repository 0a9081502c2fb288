//! The records of a first session.

use answer_fixtures::Unfit;
use devices::MemorySink;
use session_fixtures::{FIRST, Kept, file_of};
use std::alloc::Global;

/// The records of a first session. One function names them for all others, since each that names such a list writes it out,
/// which is expensive to prove.
pub(crate) fn first() -> &'static [Kept] {
    FIRST
}

/// The file of so many of these records, from the first.
pub(crate) fn file_of_first(alloc: Global, count: usize) -> Result<MemorySink, Unfit> {
    match first().get(..count) {
        Some(front) => file_of(alloc, front),
        None => Err(Unfit),
    }
}
