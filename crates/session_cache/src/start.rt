//! Where the next session begins.
ghost use Rattle.std.specs.Prelude.{◌≡◌, ◌≤◌, None, IfOk};
ghost use Rattle.session_cache.specs.Names.{most};
ghost use Rattle.session_cache.specs.Starts.{IsLastChain, IsSessionPlace, IsStart, IsStartBehind, IsStartBehindFile, BeginsChain, BeginsNext};

use crate::names::MOST;
use crate::place::SessionPlace;
use session_file::FileFault;
use sessions::Session;
use std::alloc::{AllocError, Global};
use std::sync::Arc;

/// Why no session follows the one in a file.
#[derive(Clone, Copy, Debug, PartialEq, Eq)]
pub enum NotFollowed {
    /// The bytes are no session's file.
    Refused(FileFault),
    /// The session has another number than the file's name.
    Number,
    /// It is the last session that a chain can have.
    Full,
}

/// What is said of a session's file that no session follows.
#[derive(Clone, Copy, Debug, PartialEq, Eq)]
pub struct Note {
    pub place: SessionPlace,
    pub why: NotFollowed,
}

/// Where the next session of a cache begins.
#[derive(Drop)]
pub struct Start {
    /// The session that it follows; none at the beginning of a chain.
    pub past: Option<Arc<Session>>,
    /// The place of its file; none past the last chain.
    pub place: Option<SessionPlace>,
    /// What is said of the file that it doesn't follow.
    pub note: Option<Note>,
}

/// What was read of a cache's last chain.
#[derive(Drop)]
pub enum LastChain {
    /// There is no chain.
    NoChain,
    /// The chain of this number, the greatest one, has no session.
    NoSession(u32),
    /// The file at this place was read, with this result. It is the one of the greatest number in the chain of the greatest
    /// number, or one before it that no session follows.
    File(SessionPlace, Result<Session, FileFault>),
}

/// Where the next session of a cache begins, by what was read of its last chain: in that chain, in the first one if
/// there is none, or in the next one behind a file that can't be continued.
pub fn start_behind(alloc: Global, last: LastChain) -> Result<Start, AllocError>
    requires { IsLastChain last }
    ensures behind { IfOk result (IsStartBehind last) }
    ensures start { IfOk result IsStart }
{
    match last {
        LastChain::NoChain => Ok(first_of(0)),
        LastChain::NoSession(chain) => Ok(first_of(chain)),
        LastChain::File(place, read) => start_at(alloc, place, read),
    }
}

/// The beginning of a chain that has no session.
fn first_of(chain: u32) -> Start
    requires { chain ≤ most }
    ensures first { BeginsChain chain result }
    ensures start { IsStart result }
{
    Start {
        past: None,
        place: Some(SessionPlace { chain, number: 0 }),
        note: None,
    }
}

/// Where the next session begins behind a file at this place, by what was read of it.
fn start_at(
    alloc: Global,
    last: SessionPlace,
    read: Result<Session, FileFault>,
) -> Result<Start, AllocError>
    requires { IsSessionPlace last }
    ensures behind { IfOk result (IsStartBehindFile last read) }
    ensures start { IfOk result IsStart }
{
    match read {
        Ok(session) => start_after(alloc, last, session),
        Err(FileFault::OutOfMemory) => Err(AllocError),
        Err(fault) => Ok(begin_next(last, NotFollowed::Refused(fault))),
    }
}

/// Where the next session begins behind a session that was read.
fn start_after(alloc: Global, last: SessionPlace, session: Session) -> Result<Start, AllocError>
    requires { IsSessionPlace last }
    ensures behind { IfOk result (IsStartBehindFile last (Ok session)) }
    ensures start { IfOk result IsStart }
{
    if session.number() != last.number {
        return Ok(begin_next(last, NotFollowed::Number));
    }
    if last.number >= MOST {
        return Ok(begin_next(last, NotFollowed::Full));
    }
    Ok(Start {
        past: Some(Arc::new(alloc, session)?),
        place: Some(SessionPlace {
            chain: last.chain,
            number: last.number + 1,
        }),
        note: None,
    })
}

/// The beginning of the next chain, with what is said of the file that can't be continued.
fn begin_next(last: SessionPlace, why: NotFollowed) -> Start
    requires { IsSessionPlace last }
    ensures next { BeginsNext last why result }
    ensures start { IsStart result }
{
    let place = if last.chain < MOST {
        Some(SessionPlace {
            chain: last.chain + 1,
            number: 0,
        })
    } else {
        None
    };
    Start {
        past: None,
        place,
        note: Some(Note { place: last, why }),
    }
}
