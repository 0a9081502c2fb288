//! Runs that wait for one another.
ghost use Rattle.std.specs.Prelude.{◌≡◌};

use crate::hooks::Hook;
use item_ids::{Key, Kind};
use mini_java::Gate;
use std::sync::atomic::{AtomicU64, Ordering};
use std::thread;

/// Holds the first run of a kind that begins until another run of this kind has ended, for so many turns at most.
#[derive(Drop)]
pub struct Meeting {
    kind: Kind,
    turns: u64,
    begun: AtomicU64,
    ended: AtomicU64,
    met: AtomicU64,
}

impl Meeting {
    /// No run has begun.
    pub fn new(kind: Kind, turns: u64) -> Self
        ensures kind { result.kind ≡ kind }
        ensures turns { result.turns ≡ turns }
    {
        Meeting {
            kind,
            turns,
            begun: AtomicU64::new(0),
            ended: AtomicU64::new(0),
            met: AtomicU64::new(0),
        }
    }

    /// Whether the first run that began has seen another one end.
    pub fn has_met(&self) -> bool {
        self.met.load(Ordering::SeqCst) != 0
    }

    /// A run of a key begins.
    pub(crate) fn begin(&self, key: &Key) {
        if key.kind() == self.kind && self.begun.fetch_add(1, Ordering::SeqCst) == 0 {
            self.wait();
        }
    }

    /// A run of a key has ended.
    pub(crate) fn end(&self, key: &Key) {
        if key.kind() == self.kind {
            self.ended.fetch_add(1, Ordering::SeqCst);
        }
    }

    fn wait(&self) {
        for _ in 0..self.turns {
            if self.ended.load(Ordering::SeqCst) != 0 {
                self.met.store(1, Ordering::SeqCst);
                return;
            }
            thread::yield_now();
        }
    }
}

impl Gate for Meeting {
    fn before_run(&self, _worker: u32, key: &Key) {
        self.begin(key)
    }

    fn after_run(&self, _worker: u32, key: &Key) {
        self.end(key)
    }
}

/// Reports each run to where runs wait for one another.
#[derive(Drop)]
pub(crate) struct Waiting<'a>(pub &'a Meeting);

impl Hook for Waiting<'_> {
    fn begin(&self, key: &Key) -> bool {
        self.0.begin(key);
        true
    }

    fn end(&self, key: &Key) {
        self.0.end(key)
    }
}
