//! A cache in a folder of files.
ghost use Rattle.session_cache.specs.Starts.{IsSessionPlace};

use crate::caches::first::first;
use crate::caches::starts::find_start;
use answer_fixtures::is_print;
use fingerprint::Print;
use session_cache::{CacheWriteFault, SessionPlace, Start, write_file};
use session_fixtures::{is_read_again, session_of};
use sessions::Session;
use std::fs;
use std::rt::Files;
use std::test::Fail;
use std::thread::Threads;

/// Where the next session begins, in short.
#[derive(Clone, Copy, PartialEq, Eq)]
struct Summary {
    past: Option<u32>,
    place: Option<SessionPlace>,
    is_noted: bool,
}

fn summary_of(start: &Start) -> Summary {
    Summary {
        past: start.past.as_ref().map(|past| past.number()),
        place: start.place,
        is_noted: start.note.is_some(),
    }
}

fn look<R: Files + AllocGlobal + Threads + Sync>(rt: &R, dir: &str) -> Result<Summary, Fail> {
    Ok(summary_of(&find_start(rt, dir, 1)?))
}

/// Writes the first session of a chain, which has no records.
fn keep<R: Files + AllocGlobal + Threads>(
    rt: &R,
    dir: &str,
    place: SessionPlace,
    number: u32,
) -> Result<(), Fail>
    requires { IsSessionPlace place }
{
    let session = Session::new(rt.alloc(), number, [0; 32], Vec::new(rt.alloc()))?;
    written(write_file(rt, rt, dir, place, &session, 1))
}

/// Fails if a file wasn't written.
fn written(ending: Result<(), CacheWriteFault>) -> Result<(), Fail> {
    match ending {
        Ok(()) => Ok(()),
        Err(_) => Err(Fail::from("a file")),
    }
}

/// The place of the first session of a cache.
const FIRST_PLACE: SessionPlace = SessionPlace {
    chain: 0,
    number: 0,
};

/// Writes a session of twelve records, by so many workers.
fn keep_first<R: Files + AllocGlobal + Threads>(
    rt: &R,
    dir: &str,
    workers: usize,
) -> Result<(), Fail> {
    match session_of(rt.alloc(), 0, [0; 32], first()) {
        Ok(session) => written(write_file(rt, rt, dir, FIRST_PLACE, &session, workers)),
        Err(_) => Err(Fail::from("a session")),
    }
}

/// Whether the first file of the cache is that of these twelve records, by its SHA-256, which is another program's, and is
/// read as a session's.
fn is_first<R: Files + AllocGlobal>(rt: &R, dir: &str) -> Result<bool, Fail> {
    let path = FIRST_PLACE.path(rt.alloc(), dir)?;
    let bytes = fs::read(rt, path.as_str())?;
    Ok(
        bytes.len() == 1192
            && is_print(rt.alloc(), Print::of(&bytes), FIRST_PRINT)?
            && is_read_again(rt.alloc(), &bytes),
    )
}

const FIRST_PRINT: &str = "ba2ff1af8bdbbf1ac6f8b5bf829e1f2c5ab478fc7aa54abec6bd0d108456058c";

/// Removes what an earlier run left, or this one.
fn clear<R: Files + AllocGlobal>(rt: &R, dir: &str) {
    let _ = fs::remove_dir_all(rt, dir);
}

#[test]
fn a_chain_goes_on(rt: HostRuntime) -> Result<(), Fail> {
    clear(&rt, "on");
    let first = SessionPlace {
        chain: 0,
        number: 0,
    };
    let second = SessionPlace {
        chain: 0,
        number: 1,
    };
    assert!(rt;
        look(&rt, "on/deep")?
            == Summary {
                past: None,
                place: Some(first),
                is_noted: false
            }
    );
    keep(&rt, "on/deep", first, 0)?;
    assert!(rt;
        look(&rt, "on/deep")?
            == Summary {
                past: Some(0),
                place: Some(second),
                is_noted: false
            }
    );
    clear(&rt, "on");
    Ok(())
}

#[test]
fn another_chain_begins(rt: HostRuntime) -> Result<(), Fail> {
    clear(&rt, "next");
    keep(
        &rt,
        "next",
        SessionPlace {
            chain: 12,
            number: 3,
        },
        4,
    )?;
    let place = SessionPlace {
        chain: 13,
        number: 0,
    };
    assert!(rt;
        look(&rt, "next")?
            == Summary {
                past: None,
                place: Some(place),
                is_noted: true
            }
    );
    clear(&rt, "next");
    Ok(())
}

#[test]
fn one_and_two_threads_write_the_same(rt: HostRuntime) -> Result<(), Fail> {
    clear(&rt, "by");
    for workers in [1, 2, 64] {
        keep_first(&rt, "by", workers)?;
        assert!(rt; is_first(&rt, "by")?, "{workers}");
        clear(&rt, "by");
    }
    Ok(())
}
