//! Why a text gives no sample.

use std::alloc::AllocError;

/// The text names or spells no such sample, or memory ran out.
#[derive(Clone, Copy, Debug, PartialEq, Eq)]
pub struct Unfit;

impl From<AllocError> for Unfit {
    fn from(_: AllocError) -> Self {
        Unfit
    }
}
