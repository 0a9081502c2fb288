//! Where the next session of a cache begins.

use session_cache::{Start, find_last, start_behind};
use std::rt::Files;
use std::test::Fail;
use std::thread::Threads;

/// Where the next session begins in the cache of this folder, by what so many workers read
/// of its last chain.
pub(crate) fn find_start<R: Files + AllocGlobal + Threads + Sync>(
    rt: &R,
    dir: &str,
    workers: usize,
) -> Result<Start, Fail> {
    match find_last(rt, rt, dir, workers) {
        Ok(last) => Ok(start_behind(rt.alloc(), last)?),
        Err(_) => Err(Fail::from("a start")),
    }
}
