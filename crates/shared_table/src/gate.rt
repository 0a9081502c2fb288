//! Gates: hooks around each run.

use item_ids::Key;

/// A hook around each run of a key, called while no lock is held.
pub trait Gate {
    /// The worker is about to run the key.
    fn before_run(&self, worker: u32, key: &Key);

    /// The worker has run the key.
    fn after_run(&self, worker: u32, key: &Key);
}

/// A gate that does nothing.
#[derive(Clone, Copy, Debug)]
pub struct Open;

impl Gate for Open {
    fn before_run(&self, _worker: u32, _key: &Key) {}

    fn after_run(&self, _worker: u32, _key: &Key) {}
}
