//! The last session of a chain, and the one before it.
ghost use Rattle.std.specs.Prelude.{◌≡◌, ◌<◌, IfOk, IfErr, Some, length, map, string_bytes, vec_len};
ghost use Rattle.std.specs.Option.{option_copied};
ghost use Rattle.sessions.specs.Sessions.{IsSession, IsTakenFrom};
ghost use Rattle.sessions.specs.Spelling.{file_of};
ghost use Rattle.program_run.specs.Failures.{AreUnshown, IsUnshown, LastFails};
ghost use Rattle.program_run.specs.Shows.{AreLastOfMany, IsLastPair, IsNextPair, LacksRecord, crossing_of, index_named, last_session};

use crate::failure::Failure;
use crate::files::read_files;
use item_ids::Kind;
use session_file::read_after;
use session_text::record_named;
use sessions::Session;
use std::alloc::Global;
use std::rt::Files;

/// The last session of a chain, and the one before it, if there is one.
#[derive(Drop)]
pub(crate) struct LastPair {
    pub(crate) past: Option<Session>,
    pub(crate) session: Session,
}

// The kinds that go by the profile.
const BY_PROFILE: [Kind; 1] = [Kind::CheckClass];

/// The last session of the chain of the session files of these names, the first session's first, and the one before it.
/// All files are read before the first is decoded.
pub(crate) fn last_two<R: Files + AllocGlobal>(
    rt: &R,
    names: Vec<String>,
) -> Result<LastPair, Failure>
    requires { 0 < vec_len names }
    ensures last { IfOk result (λ pair.
        AreLastOfMany R.File.Read.remaining (vec_len names) pair.past pair.session) }
    ensures failed { IfErr result (LastFails R.File.Read.remaining (map string_bytes names.items)) }
{
    let Some(pair) = last_pair(rt.alloc(), read_files(rt, names)?)? else {
        unreachable!();
    };
    Ok(pair)
}

// The sessions of the last two of these files, if there is one, each read over the session before. Of those in front of
// them none is kept.
fn last_pair(alloc: Global, files: Vec<(String, Vec<u8>)>) -> Result<Option<LastPair>, Failure>
    ensures last { IfOk result (IsLastPair (map (λ file. file.1.items) files.items)) }
    ensures failed { IfErr result (AreUnshown (map (λ file. file.1.items) files.items)) }
{
    let mut last = None;
    for file in files {
        last = Some(next_pair(alloc, last, &file.1)?);
    }
    Ok(last)
}

// The session whose file these bytes are, behind the last one.
fn next_pair(alloc: Global, last: Option<LastPair>, bytes: &[u8]) -> Result<LastPair, Failure>
    ensures pair { IfOk result (λ pair. IsNextPair last bytes.now pair) }
    ensures failed { IfErr result (IsUnshown (last_session last) bytes.now) }
{
    let past = session_of(last);
    let session = read_session(alloc, past.as_ref(), bytes)?;
    Ok(LastPair { past, session })
}

// The last session, if there is one.
fn session_of(last: Option<LastPair>) -> Option<Session>
    ensures { result ≡ last_session last }
{
    match last {
        Some(LastPair { session, .. }) => Some(session),
        None => None,
    }
}

// The session whose file these bytes are, over the previous one.
fn read_session(alloc: Global, past: Option<&Session>, bytes: &[u8]) -> Result<Session, Failure>
    ensures session { IfOk result IsSession }
    ensures taken { IfOk result (IsTakenFrom (option_copied past.entry)) }
    ensures file { IfOk result (λ s. bytes.now ≡ file_of s) }
    ensures failed { IfErr result (IsUnshown (option_copied past.entry) bytes.now) }
{
    Ok(read_after(alloc, past, bytes)?)
}

/// The index of the record whose key has these words.
pub(crate) fn index_of(alloc: Global, session: &Session, words: String) -> Result<usize, Failure>
    ensures found { IfOk result (λ i. index_named (string_bytes words) session.now ≡ Some i) }
    ensures inside { IfOk result (λ i. i < length session.now.records) }
    ensures failed { IfErr result (LacksRecord (string_bytes words) session.now) }
{
    match record_named(alloc, session, words.as_str())? {
        Some(index) => Ok(index),
        None => Err(Failure::NoRecord(words)),
    }
}

/// The kinds of which nothing is taken over from the session before, since they go by the profile and it has another one.
#[tactic(auto, using(crate::proofs::Crossing::crossing_none))]
pub(crate) fn crossing_kinds<'a>(past: Option<&Session>, session: &Session) -> &'a [Kind]
    ensures { result.now ≡ crossing_of (option_copied past.entry) session.now }
{
    let Some(past) = past else {
        return &[];
    };
    let before = past.terms();
    let now = session.terms();
    if before.profile.is(now.profile) {
        return &[];
    }
    &BY_PROFILE
}
