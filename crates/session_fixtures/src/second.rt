//! Second sessions of a chain, over first ones.
ghost use Rattle.std.specs.Prelude.{◌≡◌, ◌∷◌, ◌++◌, [], List, IfOk, OnOk, Ok, Some, Err, None, MatchOption};
ghost use Rattle.std.specs.List.{AllZip};
ghost use Rattle.sessions.specs.Sessions.{SessionValue, IsSession, IsTakenFrom};
ghost use Rattle.sessions.specs.Spelling.{file_of, digest_of};
ghost use Rattle.session_file.specs.Feeding.{CountsDevice, Given};
ghost use Rattle.session_file.specs.Reading.{IsUnlessMemory, file_after};
ghost use Rattle.session_fixtures.specs.declared.records.Kept.{Kept as SpecKept};
ghost use Rattle.session_fixtures.specs.Telling.{IsFirstOf, IsFileOver, IsTakenOverRecord, IsSecondOf, mark_again};

use crate::files::file_of_session;
use crate::records::{Kept, session_as, session_of};
use answer_fixtures::Unfit;
use devices::{Feed, MemorySink};
use session_file::{FileFault, digest, read_after, read_from_after};
use sessions::{Mark, Session, Terms};
use std::alloc::{AllocError, Global};

/// The session of these terms behind the first one of these records, with the same records, of which those that were
/// executed are green.
fn session_behind(alloc: Global, terms: Terms, kept: &[Kept]) -> Result<Session, Unfit>
    ensures { IfOk result (IsSecondOf terms kept.now) }
{
    let first = session_of(alloc, 0, [0; 32], kept)?;
    let again = greened(alloc, kept)?;
    session_as(alloc, terms, 1, digest(&first), &again)
}

/// The file of the session of these terms behind the first one of these records, with the same records, of which those
/// that were executed are green.
pub fn file_behind(alloc: Global, terms: Terms, kept: &[Kept]) -> Result<MemorySink, Unfit>
    ensures { IfOk result (λ sink. (s : SessionValue) × IsSecondOf terms kept.now s
        × (sink.bytes.items ≡ file_of s)) }
{
    let second = session_behind(alloc, terms, kept)?;
    file_of_session(alloc, &second)
}

/// The digest of this session.
pub fn digest_behind(alloc: Global, terms: Terms, kept: &[Kept]) -> Result<[u8; 32], Unfit>
    ensures { IfOk result (λ digest. (s : SessionValue) × IsSecondOf terms kept.now s
        × (digest ≡ digest_of s)) }
{
    let second = session_behind(alloc, terms, kept)?;
    Ok(digest(&second))
}

/// How a record becomes done again.
fn mark_again(mark: Mark) -> Mark
    ensures { result ≡ mark_again mark }
{
    match mark {
        Mark::Input => Mark::Input,
        Mark::Executed | Mark::Green => Mark::Green,
    }
}

/// The records, of which those that were executed are green.
pub fn greened(alloc: Global, kept: &[Kept]) -> Result<Vec<Kept>, AllocError>
    ensures { IfOk result (λ again. AllZip IsTakenOverRecord kept.now again.items) }
{
    let mut again = Vec::new(alloc);
    for one in kept {
        add_again(&mut again, one)?;
    }
    Ok(again)
}

/// Adds one more record, which is green if it was executed.
fn add_again(again: &mut Vec<Kept>, kept: &Kept) -> Result<(), AllocError>
    ensures { (before : List SpecKept) → AllZip IsTakenOverRecord before again.old.items
        → OnOk result (AllZip IsTakenOverRecord (before ++ kept.now ∷ []) again.new.items) }
{
    let last = taken_over(kept);
    Ok(push(again, last)?)
}

fn push(again: &mut Vec<Kept>, last: Kept) -> Result<(), AllocError>
    ensures { OnOk result (again.new.items ≡ again.old.items ++ last ∷ []) }
{
    Ok(again.push(last)?)
}

/// The same record, which is green if it was executed.
fn taken_over(kept: &Kept) -> Kept
    ensures { IsTakenOverRecord kept.now result }
{
    let mark = mark_again(kept.mark);
    Kept { mark, ..*kept }
}

/// Why the bytes are no file of a session over the first one of these records, or `None` if they are one.
pub fn fault_over(alloc: Global, kept: &[Kept], bytes: &[u8]) -> Result<Option<FileFault>, Unfit>
    ensures { IfOk result (λ fault. (first : SessionValue) × IsFirstOf kept.now first
        × MatchOption fault ((s : SessionValue) × IsFileOver first bytes.now s)
        (λ fault. IsUnlessMemory (Err fault) (file_after (Some first) bytes.now))) }
{
    let first = session_of(alloc, 0, [0; 32], kept)?;
    Ok(fault_behind(alloc, &first, bytes))
}

/// Why the bytes are no file of a session over this one, or `None` if they are one.
fn fault_behind(alloc: Global, first: &Session, bytes: &[u8]) -> Option<FileFault>
    ensures { MatchOption result ((s : SessionValue) × IsFileOver first.now bytes.now s)
        (λ fault. IsUnlessMemory (Err fault) (file_after (Some first.now) bytes.now)) }
{
    read_after(alloc, Some(first), bytes).err()
}

/// The SHA-256 of its file that a session keeps which was read from a feed over the first one of these records.
pub fn digest_over<F: Feed>(
    alloc: Global,
    kept: &[Kept],
    feed: &mut F,
) -> Result<Result<[u8; 32], FileFault>, Unfit>
    ensures taken { IfOk result (λ told. (first : SessionValue) × IsFirstOf kept.now first
        × IfOk told (λ digest. (s : SessionValue) × IsSession s × IsTakenFrom (Some first) s
        × Given (F.holds feed.old) (F.holds feed.new) (file_of s) × (digest ≡ digest_of s))) }
    ensures counted { IfOk result (λ told.
        CountsDevice told (F.failed feed.old) (F.failed feed.new)) }
{
    let first = session_of(alloc, 0, [0; 32], kept)?;
    Ok(digest_taken_over(alloc, &first, feed))
}

/// The SHA-256 of its file that a session keeps which was read from a feed over this one.
fn digest_taken_over<F: Feed>(
    alloc: Global,
    first: &Session,
    feed: &mut F,
) -> Result<[u8; 32], FileFault>
    ensures taken { IfOk result (λ digest. (s : SessionValue) × IsSession s
        × IsTakenFrom (Some first.now) s × Given (F.holds feed.old) (F.holds feed.new) (file_of s)
        × (digest ≡ digest_of s)) }
    ensures counted { CountsDevice result (F.failed feed.old) (F.failed feed.new) }
{
    match read_from_after(alloc, Some(first), feed) {
        Ok(session) => Ok(digest(&session)),
        Err(fault) => Err(fault),
    }
}
