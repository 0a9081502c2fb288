//! Files of both forms over the session before.

use crate::first::first;
use answer_fixtures::{Unfit, is_print};
use devices::Feed;
use fingerprint::Print;
use session_file::FileFault;
use session_fixtures::{
    FIRST_TERMS, FailingFeed, Manner, SECOND_FORM, SECOND_OF_BOTH, SECOND_PROFILE, digest_behind,
    digest_over, fault_over, file_behind, file_fault_of,
};
use sessions::Terms;
use std::alloc::Global;
use std::test::*;

/// The terms of a second session, whose records that aren't inputs are green; the length of its file, and its SHA-256 by
/// another program; and why it is no file if there is no session before.
struct Formed {
    terms: Terms,
    bytes: usize,
    print: &'static str,
    alone: Option<FileFault>,
}

const FORMED: &[Formed] = &[
    Formed {
        terms: FIRST_TERMS,
        bytes: 1192,
        print: "209789e6c5f7bd114365d529e720b0d036fda4e6b74dccb4c5cdc139c99cfa6d",
        alone: None,
    },
    Formed {
        terms: SECOND_PROFILE,
        bytes: 1192,
        print: "94cecc4ef13c84f3159029e0f152705cbb747790d2dcb89a3f0bf73bb04bd485",
        alone: None,
    },
    // Its third record is the first green one.
    Formed {
        terms: SECOND_FORM,
        bytes: 929,
        print: "d923c7b37b3679f2f60cb113e11e6762c8aa9b3c2eeb5e94ad268f0d552a9ca0",
        alone: Some(FileFault::NoPastResult(2)),
    },
    Formed {
        terms: SECOND_OF_BOTH,
        bytes: 929,
        print: "e52e3d15064de48433a42470313575becc9be3ba871d7cf772982498c7aed4de",
        alone: Some(FileFault::NoPastResult(2)),
    },
];

fn is_formed(alloc: Global, row: &Formed) -> Result<bool, Unfit> {
    let file = file_behind(alloc, row.terms, first())?;
    let bytes = file.bytes();
    Ok(
        bytes.len() == row.bytes
            && is_print(alloc, Print::of(bytes), row.print)?
            && file_fault_of(alloc, bytes) == row.alone
            && fault_over(alloc, first(), bytes)? == None,
    )
}

#[test]
fn files_are_read_over_the_session_before(rt: HostRuntime) {
    for row in FORMED {
        assert!(rt; is_formed(rt.alloc(), row) == Ok(true));
    }
}

/// Whether the session has the file's SHA-256 as its digest.
fn has_digest(alloc: Global, row: &Formed) -> Result<bool, Unfit> {
    let digest = digest_behind(alloc, row.terms, first())?;
    Ok(is_print(alloc, Print(digest), row.print)?)
}

#[test]
fn sessions_of_both_forms_have_digests(rt: HostRuntime) {
    for row in FORMED {
        assert!(rt; has_digest(rt.alloc(), row) == Ok(true));
    }
}

/// The digest that is kept of a file which a feed gives, so many bytes in a call.
fn digest_by(
    alloc: Global,
    file: &[u8],
    piece: usize,
) -> Result<Result<[u8; 32], FileFault>, Unfit> {
    let manner = Manner {
        piece,
        failing: None,
    };
    let mut feed = FailingFeed::new(file, manner);
    let digest = digest_over(alloc, first(), &mut feed)?;
    if feed.rest().is_empty() && feed.failures() == 0 {
        Ok(digest)
    } else {
        Err(Unfit)
    }
}

/// Whether the session that is read from a feed keeps the file's SHA-256.
fn keeps_digest(alloc: Global, row: &Formed, piece: usize) -> Result<bool, Unfit> {
    let file = file_behind(alloc, row.terms, first())?;
    match digest_by(alloc, file.bytes(), piece)? {
        Ok(digest) => Ok(is_print(alloc, Print(digest), row.print)?),
        Err(_) => Ok(false),
    }
}

#[test]
fn sessions_of_both_forms_are_read_from_feeds(rt: HostRuntime) {
    for row in FORMED {
        for piece in [1, 7, 5000] {
            assert!(rt; keeps_digest(rt.alloc(), row, piece) == Ok(true), "{piece}");
        }
    }
}

/// How many records of the first session the session before has, from the first one, and how the file of form 2 is
/// refused over it.
const WITHOUT: &[(usize, FileFault)] = &[
    // No record, the inputs alone, and all but the last.
    (0, FileFault::NoPastResult(2)),
    (2, FileFault::NoPastResult(2)),
    (11, FileFault::NoPastResult(11)),
];

fn fault_without(alloc: Global, count: usize) -> Result<Option<FileFault>, Unfit> {
    let file = file_behind(alloc, SECOND_FORM, first())?;
    match first().get(..count) {
        Some(front) => fault_over(alloc, front, file.bytes()),
        None => Err(Unfit),
    }
}

#[test]
fn keys_that_the_session_before_lacks_are_refused(rt: HostRuntime) {
    for (count, fault) in WITHOUT {
        assert!(rt;
            fault_without(rt.alloc(), *count) == Ok(Some(*fault)),
            "{count}"
        );
    }
}

/// A byte of the file of form 2 that is another one, and how the file is refused.
const CHANGED: &[(usize, FileFault)] = &[
    // The first and the last byte of the fingerprint of the first green record, one of the check of the body, and the
    // last byte of the last record.
    (286, FileFault::NoPastResult(2)),
    (317, FileFault::NoPastResult(2)),
    (712, FileFault::NoPastResult(9)),
    (896, FileFault::NoPastResult(11)),
    // The fingerprint and the result of an input, and the digest.
    (62, FileFault::Result(0)),
    (102, FileFault::Result(0)),
    (897, FileFault::BadDigest),
];

fn fault_of_changed(alloc: Global, at: usize) -> Result<Option<FileFault>, Unfit> {
    let file = file_behind(alloc, SECOND_FORM, first())?;
    let mut bytes = file.bytes().to_vec(alloc)?;
    let Some(byte) = bytes.get_mut(at) else {
        return Err(Unfit);
    };
    *byte ^= 1;
    fault_over(alloc, first(), &bytes)
}

#[test]
fn other_fingerprints_are_refused(rt: HostRuntime) {
    for (at, fault) in CHANGED {
        assert!(rt;
            fault_of_changed(rt.alloc(), *at) == Ok(Some(*fault)),
            "{at}"
        );
    }
}

/// Whether the file cut to so many bytes is refused.
fn is_cut_refused(alloc: Global, file: &[u8], count: usize) -> bool {
    let fault = if count < 4 {
        FileFault::BadMagic
    } else {
        FileFault::Truncated
    };
    match file.get(..count) {
        Some(front) => fault_over(alloc, first(), front) == Ok(Some(fault)),
        None => false,
    }
}

#[test]
fn cut_files_of_form_2_are_refused(rt: HostRuntime) -> Result<(), Fail> {
    let file = file_behind(rt.alloc(), SECOND_FORM, first())?;
    for count in 0..929 {
        assert!(rt; is_cut_refused(rt.alloc(), file.bytes(), count), "{count}");
    }
    Ok(())
}
