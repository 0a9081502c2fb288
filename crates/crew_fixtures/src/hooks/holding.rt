//! Runs that are held for a while.

use item_ids::Key;
use mini_java::Gate;
use std::sync::atomic::{AtomicU64, Ordering};
use std::thread;

/// Holds runs before they begin and after they have ended, for numbers of turns that a seed decides.
#[derive(Drop)]
pub(crate) struct Holding {
    seed: u64,
    held: AtomicU64,
}

impl Holding {
    /// No run was held yet.
    pub(crate) fn new(seed: u64) -> Self {
        Holding {
            seed,
            held: AtomicU64::new(0),
        }
    }

    /// Lets other threads go on for the next number of turns.
    fn hold(&self) {
        let at = self.held.fetch_add(1, Ordering::SeqCst);
        for _ in 0..turns(self.seed, at) {
            thread::yield_now();
        }
    }
}

impl Gate for Holding {
    fn before_run(&self, _worker: u32, _key: &Key) {
        self.hold()
    }

    fn after_run(&self, _worker: u32, _key: &Key) {
        self.hold()
    }
}

/// For how many turns this time: none for three times of four, else up to 255.
fn turns(seed: u64, at: u64) -> u64 {
    let mixed = mix(seed.wrapping_add(at.wrapping_mul(0x9e37_79b9_7f4a_7c15)));
    if mixed % 4 == 0 { mixed / 4 % 256 } else { 0 }
}

/// A number of which each bit depends on all bits of this one.
fn mix(number: u64) -> u64 {
    let number = (number ^ (number >> 30)).wrapping_mul(0xbf58_476d_1ce4_e5b9);
    let number = (number ^ (number >> 27)).wrapping_mul(0x94d0_49bb_1331_11eb);
    number ^ (number >> 31)
}
