//! Executed records are replayed, and compared with their runs.
pub(crate) mod compare;
pub(crate) mod mismatch;
pub(crate) mod plan;
pub(crate) mod rerun;
pub(crate) mod script;
