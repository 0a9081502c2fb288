//! Runs that are counted.

use crate::hooks::Hook;
use item_ids::Key;
use std::sync::atomic::{AtomicU64, Ordering};

/// Counts the runs of all workers together. If the number of a run, from 0, is given, this run is out of memory.
#[derive(Drop)]
pub(crate) struct Counting<'a> {
    pub runs: &'a AtomicU64,
    pub failing: Option<u64>,
}

impl Hook for Counting<'_> {
    fn begin(&self, _key: &Key) -> bool {
        let number = self.runs.fetch_add(1, Ordering::SeqCst);
        self.failing != Some(number)
    }

    fn end(&self, _key: &Key) {}
}
