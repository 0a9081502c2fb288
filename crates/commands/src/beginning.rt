//! Where the next session begins.
ghost use Rattle.std.specs.Prelude.{◌≡◌, [], IfOk, IfErr, IfSome, IsErrAnd, string_bytes};
ghost use Rattle.sessions.specs.Sessions.{session_in};
ghost use Rattle.session_cache.specs.Opened.{IsReadChain};
ghost use Rattle.session_cache.specs.Starts.{IsLastChain, IsSessionPlace, IsUnreadable, IsUnreadableCache};
ghost use Rattle.commands.specs.Lines.{AreNotesOn};
ghost use Rattle.commands.specs.Checks.{BeginsBehind, IsBeginning};

use crate::words::note_text;
use session_cache::{
    CacheReadFault, LastChain, Note, SessionPlace, Start, find_last, start_behind,
};
use sessions::Session;
use std::alloc::{AllocError, Global};
use std::rt::Files;
use std::sync::Arc;
use std::thread::Threads;

/// Where the next session of a cache begins.
#[derive(Drop)]
pub struct Beginning {
    /// The session that it follows; none at the beginning of a chain.
    pub past: Option<Arc<Session>>,
    /// The place of its file; none past the last chain.
    pub place: Option<SessionPlace>,
    /// The line on a session's file that it doesn't follow, if there is one.
    pub notes: String,
}

/// Where the next session begins in the cache of this folder: behind the last session of the last chain, or in a new chain
/// if that one can't be followed. An empty path names no folder, and can't be read. So many workers read the last session,
/// each in a thread of its own.
#[tactic(auto, using(crate::proofs::Beginnings::begun, crate::proofs::Beginnings::past_read))]
pub fn begin<R: Files + AllocGlobal, T: Threads + Sync>(
    rt: &R,
    threads: &T,
    cache: &str,
    workers: usize,
) -> Result<Beginning, CacheReadFault>
    ensures begins { IfOk result (IsBeginning R.File.Read.remaining cache.now) }
    ensures read { IfOk result (λ b. IsReadChain R.File.Read.remaining (session_in b.past)) }
    ensures unread { IfErr result (IsUnreadableCache cache.now) }
    ensures unnamed { cache.now ≡ [] → IsErrAnd result (IsUnreadable []) }
{
    match find_last(rt, threads, cache, workers) {
        Ok(last) => Ok(begin_behind(rt.alloc(), cache, last)?),
        Err(fault) => Err(fault),
    }
}

/// Where the next session begins in the cache of this folder, by what was read of its last chain.
fn begin_behind(alloc: Global, cache: &str, last: LastChain) -> Result<Beginning, AllocError>
    requires { IsLastChain last }
    ensures { IfOk result (BeginsBehind cache.now last) }
{
    let Start { past, place, note } = start_behind(alloc, last)?;
    let notes = notes_of(alloc, cache, note)?;
    Ok(Beginning { past, place, notes })
}

/// The line on a session's file that isn't followed, if there is one.
fn notes_of(alloc: Global, cache: &str, note: Option<Note>) -> Result<String, AllocError>
    requires { IfSome note (λ n. IsSessionPlace n.place) }
    ensures { IfOk result (λ text. AreNotesOn cache.now note (string_bytes text)) }
{
    match note {
        Some(note) => note_text(alloc, cache, note),
        None => Ok(String::new(alloc)),
    }
}
