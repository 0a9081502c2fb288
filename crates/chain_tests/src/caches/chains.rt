//! Caches whose last file is read over those in front of it: from the nearest one of form 1 on, or from the first.

use crate::caches::first::first;
use crate::caches::starts::find_start;
use answer_fixtures::Unfit;
use devices::MemorySink;
use session_cache::{NotFollowed, Note, SessionPlace, Start};
use session_file::FileFault;
use session_fixtures::{FIRST_TERMS, SECOND_FORM, SECOND_OF_BOTH, file_as, greened};
use sessions::{Session, Terms};
use std::alloc::Global;
use std::fs;
use std::rt::Files;
use std::test::*;
use std::thread::Threads;

/// What becomes of a session's file.
#[derive(Clone, Copy)]
enum Turn {
    /// It stays whole.
    Whole,
    /// It is cut to so many bytes.
    Cut(usize),
    /// Its byte at this place is another one.
    Flipped(usize),
}

/// A file: the number of its name, the number and the terms of its session, whether the queries are green in it, and what
/// becomes of it.
#[derive(Clone, Copy)]
struct Stored {
    name: u32,
    number: u32,
    terms: Terms,
    green: bool,
    turn: Turn,
}

// First sessions of both forms, and those of number 1 and 2.
const FIRST_OF_1: Stored = Stored {
    name: 0,
    number: 0,
    terms: FIRST_TERMS,
    green: false,
    turn: Turn::Whole,
};

const FIRST_OF_2: Stored = Stored {
    terms: SECOND_FORM,
    ..FIRST_OF_1
};

const SECOND_OF_1: Stored = Stored {
    name: 1,
    number: 1,
    green: true,
    ..FIRST_OF_1
};

const SECOND_OF_2: Stored = Stored {
    terms: SECOND_FORM,
    ..SECOND_OF_1
};

const THIRD_OF_1: Stored = Stored {
    name: 2,
    number: 2,
    ..SECOND_OF_1
};

const THIRD_OF_2: Stored = Stored {
    terms: SECOND_FORM,
    ..THIRD_OF_1
};

// The last byte of each of these files is another one.
const BROKEN_FIRST: Stored = Stored {
    turn: Turn::Flipped(1191),
    ..FIRST_OF_1
};

const BROKEN_SECOND: Stored = Stored {
    turn: Turn::Flipped(928),
    ..SECOND_OF_2
};

const BROKEN_THIRD: Stored = Stored {
    turn: Turn::Flipped(928),
    ..THIRD_OF_2
};

/// The files of a chain, the number of the session that is read, and what is said of a file that none follows.
struct Row {
    files: &'static [Stored],
    past: Option<u32>,
    note: Option<(u32, NotFollowed)>,
}

const READ: &[Row] = &[
    Row {
        files: &[FIRST_OF_1, SECOND_OF_2, THIRD_OF_1],
        past: Some(2),
        note: None,
    },
    Row {
        files: &[FIRST_OF_2, SECOND_OF_2, THIRD_OF_2],
        past: Some(2),
        note: None,
    },
    Row {
        files: &[FIRST_OF_1, SECOND_OF_2],
        past: Some(1),
        note: None,
    },
    // In the other profile.
    Row {
        files: &[
            FIRST_OF_1,
            Stored {
                terms: SECOND_OF_BOTH,
                ..SECOND_OF_2
            },
            THIRD_OF_2,
        ],
        past: Some(2),
        note: None,
    },
    // In front of a file of form 1 nothing is read.
    Row {
        files: &[BROKEN_FIRST, SECOND_OF_1, THIRD_OF_2],
        past: Some(2),
        note: None,
    },
    Row {
        files: &[BROKEN_FIRST, BROKEN_SECOND, THIRD_OF_1],
        past: Some(2),
        note: None,
    },
    // A gap: the third is read over the first.
    Row {
        files: &[FIRST_OF_1, THIRD_OF_2],
        past: Some(2),
        note: None,
    },
];

#[test]
fn chains_are_read(rt: HostRuntime) -> Result<(), Fail> {
    for (at, row) in READ.iter().enumerate() {
        assert!(rt; is_found(&rt, row)?, "{at}");
    }
    Ok(())
}

const REFUSED: &[Row] = &[
    // A file that is refused: the last one, one midway, and the first.
    Row {
        files: &[FIRST_OF_2, SECOND_OF_2, BROKEN_THIRD],
        past: None,
        note: Some((2, NotFollowed::Refused(FileFault::BadDigest))),
    },
    Row {
        files: &[FIRST_OF_2, BROKEN_SECOND, THIRD_OF_2],
        past: None,
        note: Some((1, NotFollowed::Refused(FileFault::BadDigest))),
    },
    Row {
        files: &[
            Stored {
                turn: Turn::Cut(100),
                ..FIRST_OF_2
            },
            SECOND_OF_2,
            THIRD_OF_2,
        ],
        past: None,
        note: Some((0, NotFollowed::Refused(FileFault::Truncated))),
    },
    // The first file that is there is of form 2, and takes results over.
    Row {
        files: &[SECOND_OF_2, THIRD_OF_2],
        past: None,
        note: Some((1, NotFollowed::Refused(FileFault::NoPastResult(2)))),
    },
    Row {
        files: &[
            Stored {
                green: true,
                ..FIRST_OF_2
            },
            SECOND_OF_2,
        ],
        past: None,
        note: Some((0, NotFollowed::Refused(FileFault::NoPastResult(2)))),
    },
];

#[test]
fn refused_files_end_chains(rt: HostRuntime) -> Result<(), Fail> {
    for (at, row) in REFUSED.iter().enumerate() {
        assert!(rt; is_found(&rt, row)?, "{at}");
    }
    Ok(())
}

const STRANGE: &[Row] = &[
    // Files without a version, and of none that there is. What stands in front of them isn't read.
    Row {
        files: &[
            BROKEN_FIRST,
            Stored {
                turn: Turn::Cut(5),
                ..SECOND_OF_2
            },
            THIRD_OF_2,
        ],
        past: None,
        note: Some((1, NotFollowed::Refused(FileFault::Truncated))),
    },
    Row {
        files: &[
            BROKEN_FIRST,
            Stored {
                turn: Turn::Cut(0),
                ..SECOND_OF_2
            },
            THIRD_OF_2,
        ],
        past: None,
        note: Some((1, NotFollowed::Refused(FileFault::BadMagic))),
    },
    Row {
        files: &[
            BROKEN_FIRST,
            Stored {
                turn: Turn::Flipped(3),
                ..SECOND_OF_2
            },
            THIRD_OF_2,
        ],
        past: None,
        note: Some((1, NotFollowed::Refused(FileFault::BadMagic))),
    },
    // (its version is 256)
    Row {
        files: &[
            BROKEN_FIRST,
            Stored {
                turn: Turn::Flipped(5),
                ..SECOND_OF_2
            },
            THIRD_OF_2,
        ],
        past: None,
        note: Some((1, NotFollowed::Refused(FileFault::Version))),
    },
    // Sessions of another number than their names', midway and last.
    Row {
        files: &[
            FIRST_OF_1,
            Stored {
                number: 2,
                ..SECOND_OF_2
            },
            THIRD_OF_2,
        ],
        past: None,
        note: Some((1, NotFollowed::Number)),
    },
    Row {
        files: &[
            FIRST_OF_1,
            SECOND_OF_2,
            Stored {
                number: 1,
                ..THIRD_OF_2
            },
        ],
        past: None,
        note: Some((2, NotFollowed::Number)),
    },
    // No session follows the last one that a chain can have, which is read over the one before it.
    Row {
        files: &[
            FIRST_OF_1,
            Stored {
                name: 9999,
                number: 9999,
                ..SECOND_OF_2
            },
        ],
        past: None,
        note: Some((9999, NotFollowed::Full)),
    },
];

#[test]
fn strange_files_end_chains(rt: HostRuntime) -> Result<(), Fail> {
    for (at, row) in STRANGE.iter().enumerate() {
        assert!(rt; is_found(&rt, row)?, "{at}");
    }
    Ok(())
}

/// The file of the session, as it was written.
fn file_of(alloc: Global, stored: &Stored) -> Result<MemorySink, Unfit> {
    if stored.green {
        let again = greened(alloc, first())?;
        file_as(alloc, stored.terms, stored.number, &again)
    } else {
        file_as(alloc, stored.terms, stored.number, first())
    }
}

/// What becomes of these bytes.
fn turned(alloc: Global, bytes: &[u8], turn: Turn) -> Result<Vec<u8>, Unfit> {
    let mut turned = bytes.to_vec(alloc)?;
    match turn {
        Turn::Whole => Ok(turned),
        Turn::Cut(count) => {
            turned.truncate(count);
            Ok(turned)
        }
        Turn::Flipped(at) => match turned.get_mut(at) {
            Some(byte) => {
                *byte ^= 1;
                Ok(turned)
            }
            None => Err(Unfit),
        },
    }
}

fn bytes_of(alloc: Global, stored: &Stored) -> Result<Vec<u8>, Unfit> {
    let file = file_of(alloc, stored)?;
    turned(alloc, file.bytes(), stored.turn)
}

/// The folder of the cache.
const DIR: &str = "chains";

/// Writes the file into the first chain of the cache.
fn store<R: Files + AllocGlobal>(rt: &R, stored: &Stored) -> Result<(), Fail> {
    if Session::MOST < stored.name {
        return Err(Fail::from("a number"));
    }
    let place = SessionPlace {
        chain: 0,
        number: stored.name,
    };
    let bytes = bytes_of(rt.alloc(), stored)?;
    let path = place.path(rt.alloc(), DIR)?;
    fs::write(rt, path.as_str(), &bytes)?;
    Ok(())
}

/// Removes what an earlier run left, or this one.
fn clear<R: Files + AllocGlobal>(rt: &R) {
    let _ = fs::remove_dir_all(rt, DIR);
}

/// Where the next session begins behind these files, by so many workers.
fn start_behind<R: Files + AllocGlobal + Threads + Sync>(
    rt: &R,
    files: &[Stored],
    workers: usize,
) -> Result<Start, Fail> {
    clear(rt);
    fs::create_dir_all(rt, "chains/c0000")?;
    for stored in files {
        store(rt, stored)?;
    }
    let start = find_start(rt, DIR, workers);
    clear(rt);
    start
}

/// The place of the next session: behind the one that is read, or in the next chain.
fn place_of(past: Option<u32>) -> SessionPlace {
    match past {
        Some(number) => SessionPlace {
            chain: 0,
            number: number.saturating_add(1),
        },
        None => SessionPlace {
            chain: 1,
            number: 0,
        },
    }
}

/// What is said of the file of this number in the first chain.
fn note_of(note: Option<(u32, NotFollowed)>) -> Option<Note> {
    let (number, why) = note?;
    let place = SessionPlace { chain: 0, number };
    Some(Note { place, why })
}

/// Whether this session is read, with all its records, or none is.
fn is_past(past: Option<&Session>, number: Option<u32>) -> bool {
    match (past, number) {
        (Some(past), Some(number)) => past.number() == number
            && past.records().len() == first().len(),
        (None, None) => true,
        _ => false,
    }
}

/// Whether the next session begins behind these files as it should, by one worker and by several.
fn is_found<R: Files + AllocGlobal + Threads + Sync>(rt: &R, row: &Row) -> Result<bool, Fail> {
    Ok(is_found_by(rt, row, 1)? && is_found_by(rt, row, 2)? && is_found_by(rt, row, 4)?)
}

/// Whether it begins so by so many workers.
fn is_found_by<R: Files + AllocGlobal + Threads + Sync>(
    rt: &R,
    row: &Row,
    workers: usize,
) -> Result<bool, Fail> {
    let start = start_behind(rt, row.files, workers)?;
    Ok(
        is_past(start.past.as_deref(), row.past)
            && start.place == Some(place_of(row.past))
            && start.note == note_of(row.note),
    )
}
