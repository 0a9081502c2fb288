//! Sessions from files, and what is no file.

use crate::first::{file_of_first, first};
use session_file::FileFault;
use session_fixtures::{fault_over, file_fault_of, file_of, is_read_again};
use std::alloc::Global;
use std::test::*;

fn is_file_read(alloc: Global, count: usize) -> bool {
    match file_of_first(alloc, count) {
        Ok(file) => is_read_again(alloc, file.bytes()),
        Err(_) => false,
    }
}

#[test]
fn files_are_read(rt: HostRuntime) {
    for count in [0, 2, 12] {
        assert!(rt; is_file_read(rt.alloc(), count));
    }
}

/// Whether the bytes are refused so, with the first session before them and without: a file of form 1 takes nothing from
/// it.
fn is_fault(alloc: Global, bytes: &[u8], fault: Option<FileFault>) -> bool {
    file_fault_of(alloc, bytes) == fault && fault_over(alloc, first(), bytes) == Ok(fault)
}

fn is_read_over(alloc: Global, count: usize) -> bool {
    match file_of_first(alloc, count) {
        Ok(file) => is_fault(alloc, file.bytes(), None),
        Err(_) => false,
    }
}

#[test]
fn files_of_form_1_are_read_over_any_session(rt: HostRuntime) {
    for count in [0, 2, 12] {
        assert!(rt; is_read_over(rt.alloc(), count));
    }
}

/// How the first file cut to so many bytes is refused.
fn fault_of_cut(count: usize) -> FileFault {
    if count < 4 {
        FileFault::BadMagic
    } else {
        FileFault::Truncated
    }
}

fn is_cut_refused(alloc: Global, file: &[u8], count: usize) -> bool {
    match file.get(..count) {
        Some(front) => is_fault(alloc, front, Some(fault_of_cut(count))),
        None => false,
    }
}

#[test]
fn cut_files_are_refused(rt: HostRuntime) -> Result<(), Fail> {
    let file = file_of(rt.alloc(), first()).ok().ok_or("a file")?;
    for count in 0..1192 {
        assert!(rt; is_cut_refused(rt.alloc(), file.bytes(), count));
    }
    Ok(())
}

/// The first file with another byte at a place, and how it is refused.
struct Changed {
    at: usize,
    byte: u8,
    fault: FileFault,
}

const CHANGED: &[Changed] = &[
    // The four bytes at the front, both bytes of the version, and the number 10,240.
    Changed {
        at: 3,
        byte: 0x48,
        fault: FileFault::BadMagic,
    },
    Changed {
        at: 5,
        byte: 3,
        fault: FileFault::Version,
    },
    Changed {
        at: 4,
        byte: 2,
        fault: FileFault::Version,
    },
    Changed {
        at: 8,
        byte: 0x28,
        fault: FileFault::Number,
    },
    // An unknown kind, a name that doesn't belong to the kind, an unknown mark, and a name that is no text.
    Changed {
        at: 50,
        byte: 13,
        fault: FileFault::BadKey(0),
    },
    Changed {
        at: 439,
        byte: 3,
        fault: FileFault::BadKey(4),
    },
    Changed {
        at: 53,
        byte: 3,
        fault: FileFault::BadKey(0),
    },
    Changed {
        at: 120,
        byte: 0xff,
        fault: FileFault::BadKey(1),
    },
    // Header of M behind Method of M.
    Changed {
        at: 618,
        byte: 4,
        fault: FileFault::KeyOrder(6),
    },
    // Files executed, and a tree that is an input.
    Changed {
        at: 53,
        byte: 1,
        fault: FileFault::InputKind(0),
    },
    Changed {
        at: 269,
        byte: 0,
        fault: FileFault::InputKind(2),
    },
    // An edge to the record itself, one that was there, one of equal rank, and one far behind.
    Changed {
        at: 380,
        byte: 3,
        fault: FileFault::BadEdge(3, 1),
    },
    Changed {
        at: 380,
        byte: 0,
        fault: FileFault::BadEdge(3, 1),
    },
    Changed {
        at: 552,
        byte: 4,
        fault: FileFault::BadEdge(5, 0),
    },
    Changed {
        at: 365,
        byte: 0xff,
        fault: FileFault::BadEdge(3, 0),
    },
    // Another fingerprint, another result, and a longer one than there are bytes.
    Changed {
        at: 62,
        byte: 0,
        fault: FileFault::Result(0),
    },
    Changed {
        at: 1159,
        byte: 1,
        fault: FileFault::Result(11),
    },
    Changed {
        at: 94,
        byte: 0xff,
        fault: FileFault::Truncated,
    },
    // More edges than there are bytes.
    Changed {
        at: 54,
        byte: 0xff,
        fault: FileFault::BadEdge(0, 0),
    },
    // Other versions, the link, and the digest.
    Changed {
        at: 5,
        byte: 2,
        fault: FileFault::BadDigest,
    },
    Changed {
        at: 4,
        byte: 1,
        fault: FileFault::BadDigest,
    },
    Changed {
        at: 10,
        byte: 1,
        fault: FileFault::BadDigest,
    },
    Changed {
        at: 1191,
        byte: 0,
        fault: FileFault::BadDigest,
    },
];

fn has_changed(bytes: &mut [u8], row: &Changed) -> bool {
    match bytes.get_mut(row.at) {
        Some(byte) => {
            *byte = row.byte;
            true
        }
        None => false,
    }
}

fn is_refused(alloc: Global, file: &[u8], row: &Changed) -> bool {
    match file.to_vec(alloc) {
        Ok(mut bytes) => {
            has_changed(&mut bytes, row) && is_fault(alloc, &bytes, Some(row.fault))
        }
        Err(_) => false,
    }
}

#[test]
fn changed_files_are_refused(rt: HostRuntime) -> Result<(), Fail> {
    let file = file_of(rt.alloc(), first()).ok().ok_or("a file")?;
    for row in CHANGED {
        assert!(rt; is_refused(rt.alloc(), file.bytes(), row));
    }
    Ok(())
}

fn is_trailing_refused(alloc: Global, file: &[u8]) -> bool {
    match file.to_vec(alloc) {
        Ok(mut bytes) => {
            bytes.push(0).is_ok() && is_fault(alloc, &bytes, Some(FileFault::Trailing))
        }
        Err(_) => false,
    }
}

#[test]
fn bytes_behind_a_file_are_refused(rt: HostRuntime) -> Result<(), Fail> {
    let file = file_of(rt.alloc(), first()).ok().ok_or("a file")?;
    assert!(rt; is_trailing_refused(rt.alloc(), file.bytes()));
    Ok(())
}

// A file of one record, Files, whose result lists no file. Its fingerprint and the digest are right.
const NO_FILES: &str =
    "4d4a5247000100000000000000000000000000000000000000000000000000000000000000000000000000000000000000010000000000000000000000003e7077fd2f66d689e0cee6a7cf5b37bf2dca7c979af356d0a31cbc5c85605c7d0000000000000009000000000000000000a67b99a530199faa9d031478038debdc7cf41ff74b6311e5116721beb47bee78";

fn is_not_canonical(alloc: Global) -> bool {
    match hex::decode(alloc, NO_FILES) {
        Ok(bytes) => file_fault_of(alloc, &bytes) == Some(FileFault::Result(0)),
        Err(_) => false,
    }
}

#[test]
fn results_that_are_not_canonical_are_refused(rt: HostRuntime) {
    assert!(rt; is_not_canonical(rt.alloc()));
}
