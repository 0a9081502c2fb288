//! Events.

use item_ids::Key;
use recorder::{Outcome, Runner};
use std::sync::Arc;

/// What a worker, given by its number, did. The history of a table is a list of events.
pub enum Event<R: Runner> {
    /// It claimed a key.
    Claim(u32, Key),
    /// It took over a key's result from the previous session.
    Mark(u32, Key),
    /// It began to run a key.
    Begin(u32, Key),
    /// It ended the run of a key with this outcome.
    Finish(u32, Arc<Outcome<R>>),
    /// It gave up.
    Fail(u32),
}

impl<R: Runner> Drop for Event<R> {
    fn drop(self) {
        match self {
            Event::Claim(_, _)
            | Event::Mark(_, _)
            | Event::Begin(_, _)
            | Event::Finish(_, _)
            | Event::Fail(_) => {}
        }
    }
}
