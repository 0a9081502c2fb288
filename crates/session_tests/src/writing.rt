//! Files of sessions, and faults as texts.

use crate::first::{file_of_first, first};
use answer_fixtures::is_print;
use fingerprint::Print;
use session_file::FileFault;
use session_fixtures::{digest_of, digest_of_read};
use std::alloc::Global;
use std::test::*;

/// A file of the first records of the first session: its length, and its SHA-256 by another program.
struct Written {
    records: usize,
    bytes: usize,
    print: &'static str,
}

const WRITTEN: &[Written] = &[
    // The inputs alone.
    Written {
        records: 2,
        bytes: 292,
        print: "a408b0711e481a5dd1143eec1bd9cc50fcb99dd6884fb8ad28bba9fcf6858030",
    },
    Written {
        records: 12,
        bytes: 1192,
        print: "ba2ff1af8bdbbf1ac6f8b5bf829e1f2c5ab478fc7aa54abec6bd0d108456058c",
    },
];

fn is_written(alloc: Global, row: &Written) -> bool {
    match file_of_first(alloc, row.records) {
        Ok(file) => file.bytes().len() == row.bytes
            && has_print(alloc, Print::of(file.bytes()), row),
        Err(_) => false,
    }
}

fn has_print(alloc: Global, print: Print, row: &Written) -> bool {
    is_print(alloc, print, row.print) == Ok(true)
}

#[test]
fn sessions_are_written(rt: HostRuntime) {
    for row in WRITTEN {
        assert!(rt; is_written(rt.alloc(), row));
    }
}

fn has_digest(alloc: Global, row: &Written) -> bool {
    match first().get(..row.records) {
        Some(front) => match digest_of(alloc, 0, [0; 32], front) {
            Ok(digest) => has_print(alloc, Print(digest), row),
            Err(_) => false,
        },
        None => false,
    }
}

#[test]
fn sessions_have_digests(rt: HostRuntime) {
    for row in WRITTEN {
        assert!(rt; has_digest(rt.alloc(), row));
    }
}

fn keeps_digest(alloc: Global, row: &Written) -> bool {
    let Ok(file) = file_of_first(alloc, row.records) else {
        return false;
    };
    match digest_of_read(alloc, file.bytes()) {
        Some(digest) => has_print(alloc, Print(digest), row),
        None => false,
    }
}

#[test]
fn sessions_that_are_read_keep_their_digests(rt: HostRuntime) {
    for row in WRITTEN {
        assert!(rt; keeps_digest(rt.alloc(), row));
    }
}

const TEXTS: &[(FileFault, &str)] = &[
    (FileFault::BadMagic, "11.1 BadMagic"),
    (FileFault::Version, "11.2 Version"),
    (FileFault::Truncated, "11.3 Truncated"),
    (FileFault::BadDigest, "11.4 BadDigest"),
    (FileFault::KeyOrder(3), "11.5 KeyOrder(3)"),
    (FileFault::BadEdge(3, 1), "11.6 BadEdge(3, 1)"),
    (FileFault::Result(3), "11.7 Result(3)"),
    (FileFault::InputKind(3), "11.8 InputKind(3)"),
    (FileFault::Trailing, "11.9 Trailing"),
    (FileFault::Device, "11.10 Device"),
    (FileFault::BadKey(3), "11.11 BadKey(3)"),
    (FileFault::Number, "11.12 Number"),
    (FileFault::NoPastResult(3), "11.13 NoPastResult(3)"),
    (FileFault::OutOfMemory, "out of memory"),
];

fn is_printed(alloc: Global, fault: FileFault, want: &str) -> bool {
    match format!(in alloc; "{fault}") {
        Ok(text) => text.as_str() == want,
        Err(_) => false,
    }
}

#[test]
fn faults_are_printed(rt: HostRuntime) {
    for (fault, want) in TEXTS {
        assert!(rt; is_printed(rt.alloc(), *fault, want));
    }
}
