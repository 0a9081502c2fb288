//! Files of both forms, read by several threads.

use crate::first::first;
use answer_fixtures::Unfit;
use session_file::{FileFault, digest, read_after, read_after_by};
use session_fixtures::{FIRST_TERMS, SECOND_FORM, file_behind, session_of};
use sessions::{Session, Terms};
use std::alloc::Global;
use std::test::*;
use std::thread::Threads;

/// How many workers read.
const WORKERS: [usize; 4] = [1, 2, 3, 5];

/// The second session in both forms, and how many bytes its file has.
const FILES: [(Terms, usize); 2] = [(FIRST_TERMS, 1192), (SECOND_FORM, 929)];

/// What reading comes to: the digest that the session keeps, or the fault.
fn told(read: Result<Session, FileFault>) -> Result<[u8; 32], FileFault> {
    match read {
        Ok(session) => Ok(digest(&session)),
        Err(fault) => Err(fault),
    }
}

/// Whether so many workers come to what one reads without threads.
fn is_same<T: Threads + Sync>(
    threads: &T,
    alloc: Global,
    past: &Session,
    bytes: &[u8],
    workers: usize,
) -> bool {
    told(read_after_by(threads, alloc, Some(past), bytes, workers))
        == told(read_after(alloc, Some(past), bytes))
}

/// Whether this is so of each number of workers.
fn are_same<T: Threads + Sync>(threads: &T, alloc: Global, past: &Session, bytes: &[u8]) -> bool {
    WORKERS
        .iter()
        .all(|workers| is_same(threads, alloc, past, bytes, *workers))
}

/// What is done to a file before it is read.
#[derive(Clone, Copy)]
enum Turn {
    /// It is cut to so many bytes.
    Cut(usize),
    /// Its byte at this place is another one.
    Flipped(usize),
    /// So many bytes of itself stand behind it.
    Behind(usize),
}

fn turned(alloc: Global, file: &[u8], turn: Turn) -> Result<Vec<u8>, Unfit> {
    let mut bytes = file.to_vec(alloc)?;
    match turn {
        Turn::Cut(count) => bytes.truncate(count),
        Turn::Flipped(at) => match bytes.get_mut(at) {
            Some(byte) => *byte ^= 1,
            None => return Err(Unfit),
        },
        Turn::Behind(count) => match file.get(..count) {
            Some(front) => bytes.extend_from_slice(front)?,
            None => return Err(Unfit),
        },
    }
    Ok(bytes)
}

/// Whether each number of workers comes to the same for the file of these terms, once this is done to it.
fn is_turned_same<T: Threads + Sync>(
    threads: &T,
    alloc: Global,
    terms: Terms,
    turn: Turn,
) -> Result<bool, Unfit> {
    let past = session_of(alloc, 0, [0; 32], first())?;
    let file = file_behind(alloc, terms, first())?;
    let bytes = turned(alloc, file.bytes(), turn)?;
    Ok(are_same(threads, alloc, &past, &bytes))
}

#[test]
fn whole_files_are_read_by_threads(rt: HostRuntime) {
    for (terms, size) in FILES {
        assert!(rt;
            is_turned_same(&rt, rt.alloc(), terms, Turn::Cut(size)) == Ok(true),
            "{size}"
        );
    }
}

/// Each seventh place, for a short test.
#[test]
fn cut_files_are_refused_by_threads(rt: HostRuntime) {
    for (terms, size) in FILES {
        for part in 0..size / 7 {
            let count = part.saturating_mul(7);
            assert!(rt;
                is_turned_same(&rt, rt.alloc(), terms, Turn::Cut(count)) == Ok(true),
                "{size} {count}"
            );
        }
    }
}

/// Each seventh place, for a short test.
#[test]
fn changed_files_are_refused_by_threads(rt: HostRuntime) {
    for (terms, size) in FILES {
        for part in 0..size / 7 {
            let at = part.saturating_mul(7);
            assert!(rt;
                is_turned_same(&rt, rt.alloc(), terms, Turn::Flipped(at)) == Ok(true),
                "{size} {at}"
            );
        }
    }
}

#[test]
fn bytes_behind_the_end_are_refused_by_threads(rt: HostRuntime) {
    for (terms, size) in FILES {
        for count in [1, 31, 32, 33, size] {
            assert!(rt;
                is_turned_same(&rt, rt.alloc(), terms, Turn::Behind(count)) == Ok(true),
                "{size} {count}"
            );
        }
    }
}

/// What two readers come to, by themselves: a row of a file, what is done to it, and the fault.
const FAULTS: &[(usize, Turn, FileFault)] = &[
    (0, Turn::Behind(1), FileFault::Trailing),
    (0, Turn::Flipped(1191), FileFault::BadDigest),
    (0, Turn::Cut(1191), FileFault::Truncated),
    (0, Turn::Flipped(62), FileFault::Result(0)),
    (1, Turn::Behind(32), FileFault::Trailing),
    (1, Turn::Flipped(897), FileFault::BadDigest),
    (1, Turn::Flipped(286), FileFault::NoPastResult(2)),
];

fn fault_by<T: Threads + Sync>(
    threads: &T,
    alloc: Global,
    row: &(usize, Turn, FileFault),
    workers: usize,
) -> Result<bool, Unfit> {
    let (terms, _) = *FILES.get(row.0).ok_or(Unfit)?;
    let past = session_of(alloc, 0, [0; 32], first())?;
    let file = file_behind(alloc, terms, first())?;
    let bytes = turned(alloc, file.bytes(), row.1)?;
    Ok(read_after_by(threads, alloc, Some(&past), &bytes, workers).err() == Some(row.2))
}

#[test]
fn threads_find_the_first_breach(rt: HostRuntime) {
    for row in FAULTS {
        for workers in WORKERS {
            assert!(rt;
                fault_by(&rt, rt.alloc(), row, workers) == Ok(true),
                "{workers}"
            );
        }
    }
}
