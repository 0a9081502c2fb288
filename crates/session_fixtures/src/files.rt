//! Files of sessions.
ghost use Rattle.std.specs.Prelude.{◌≡◌, ℕ, List, replicate, Ok, Err, IsTrue, IfOk, IfErr, IfSome, MatchOption};
ghost use Rattle.sessions.specs.Sessions.{SessionValue, IsSession};
ghost use Rattle.sessions.specs.Spelling.{file_of, digest_of};
ghost use Rattle.devices.specs.Devices.{CountsFailures, Puts};
ghost use Rattle.session_file.specs.Feeding.{CountsDevice, Given};
ghost use Rattle.session_file.specs.Reading.{IsUnlessMemory, file_at};
ghost use Rattle.session_file.specs.declared.fault.FileFault.{FileFault as SpecFault};
ghost use Rattle.session_file.specs.declared.fault.FileFault.TheVariants.{Device, OutOfMemory};
ghost use Rattle.session_fixtures.specs.Telling.{IsToldSession, IsFirstOf, IsFileOf};

use crate::records::{Kept, session_as, session_of};
use answer_fixtures::Unfit;
use devices::{Feed, MemorySink, Sink};
use session_file::{FileFault, digest, read, read_from, write};
use sessions::{Session, Terms};
use std::alloc::Global;

/// Writes the session of these records, the first of a chain, to a sink, and answers what came of it.
pub fn write_to<W: Sink>(
    alloc: Global,
    kept: &[Kept],
    sink: &mut W,
) -> Result<Result<(), FileFault>, Unfit>
    ensures holds { IfOk result (λ ending. (s : SessionValue) × IsFirstOf kept.now s
        × Puts (W.holds sink.old) (W.holds sink.new) (file_of s) ending) }
    ensures device { IfOk result (λ ending. IfErr ending (λ fault. fault ≡ Device)) }
    ensures counted { IfOk result (λ ending.
        CountsFailures ending (W.failed sink.old) (W.failed sink.new)) }
    // Nothing is written if the records make no session.
    ensures unfit { IfErr result (λ _. sink.new ≡ sink.old) }
{
    let session = session_of(alloc, 0, [0; 32], kept)?;
    Ok(write(&session, sink))
}

/// The file of the session of these records, the first of a chain.
pub fn file_of(alloc: Global, kept: &[Kept]) -> Result<MemorySink, Unfit>
    ensures { IfOk result (λ sink. (s : SessionValue) × IsFirstOf kept.now s
        × (sink.bytes.items ≡ file_of s)) }
{
    let session = session_of(alloc, 0, [0; 32], kept)?;
    file_of_session(alloc, &session)
}

/// The file of the session of these terms, this number and these records, behind no session.
pub fn file_as(alloc: Global, terms: Terms, number: u32, kept: &[Kept]) -> Result<MemorySink, Unfit>
    ensures { IfOk result (λ sink. (s : SessionValue)
        × IsToldSession number (replicate 32 0) kept.now s × (s.terms ≡ terms)
        × (sink.bytes.items ≡ file_of s)) }
{
    let session = session_as(alloc, terms, number, [0; 32], kept)?;
    file_of_session(alloc, &session)
}

/// The file of the session.
pub fn file_of_session(alloc: Global, session: &Session) -> Result<MemorySink, Unfit>
    ensures { IfOk result (λ sink. sink.bytes.items ≡ file_of session.now) }
{
    let mut sink = MemorySink::new(alloc);
    match write(session, &mut sink) {
        Ok(()) => Ok(sink),
        Err(_) => Err(Unfit),
    }
}

/// The digest of the session of this number, link and records.
pub fn digest_of(
    alloc: Global,
    number: u32,
    link: [u8; 32],
    kept: &[Kept],
) -> Result<[u8; 32], Unfit>
    ensures { IfOk result (λ digest. (s : SessionValue) × IsToldSession number link kept.now s
        × (digest ≡ digest_of s)) }
{
    let session = session_of(alloc, number, link, kept)?;
    Ok(digest(&session))
}

/// Why the bytes are no file of a session, or `None` if they are one.
pub fn file_fault_of(alloc: Global, bytes: &[u8]) -> Option<FileFault>
    ensures { MatchOption result ((s : SessionValue) × IsFileOf bytes.now s)
        (λ fault. IsUnlessMemory (Err fault) (file_at bytes.now)) }
{
    read(alloc, bytes).err()
}

/// Whether the bytes are read as a session, and its file has just these bytes.
pub fn is_read_again(alloc: Global, bytes: &[u8]) -> bool
    ensures { IsTrue result → (s : SessionValue) × IsFileOf bytes.now s }
{
    match read(alloc, bytes) {
        Ok(session) => is_file(alloc, &session, bytes),
        Err(_) => false,
    }
}

/// The SHA-256 of its file that a session read from a feed keeps.
pub fn digest_of_taken<F: Feed>(alloc: Global, feed: &mut F) -> Result<[u8; 32], FileFault>
    ensures taken { IfOk result (λ digest. (s : SessionValue) × IsSession s
        × Given (F.holds feed.old) (F.holds feed.new) (file_of s) × (digest ≡ digest_of s)) }
    ensures counted { CountsDevice result (F.failed feed.old) (F.failed feed.new) }
{
    match read_from(alloc, feed) {
        Ok(session) => Ok(digest(&session)),
        Err(fault) => Err(fault),
    }
}

/// The SHA-256 of its file that a session read from these bytes keeps.
pub fn digest_of_read(alloc: Global, bytes: &[u8]) -> Option<[u8; 32]>
    ensures { IfSome result (λ digest. (s : SessionValue) × IsFileOf bytes.now s
        × (digest ≡ digest_of s)) }
{
    match read(alloc, bytes) {
        Ok(session) => Some(digest(&session)),
        Err(_) => None,
    }
}

fn is_file(alloc: Global, session: &Session, bytes: &[u8]) -> bool
    ensures { IsTrue result → bytes.now ≡ file_of session.now }
{
    match file_of_session(alloc, session) {
        Ok(sink) => sink.bytes() == bytes,
        Err(_) => false,
    }
}
