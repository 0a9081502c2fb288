//! The head, the records and the end of a file, and whole files.
ghost use Rattle.std.specs.Prelude.{◌≡◌, ◌≢◌, ◌++◌, List, ℕ, [], None, Ok, IfOk, IfSome, IfNone};
ghost use Rattle.std.specs.Option.{option_copied};
ghost use Rattle.sha2.specs.Hashers.{Holds256};
ghost use Rattle.sessions.specs.Sessions.{SessionValue, IsSession, IsTakenFrom};
ghost use Rattle.sessions.specs.declared.terms.Terms.{Terms as TermsValue};
ghost use Rattle.sessions.specs.Spelling.{body_bytes, file_of, start};
ghost use Rattle.session_file.specs.Reading.{EndsWith, IsUnlessMemory, IsUnlessStopped, body_after, file_after, file_at, front_after, head_at, session_after, session_at, start_at};
ghost use Rattle.session_file.specs.Feeding.{CountsDevice, CountsFeedFault, Feeds, FeedsFront, Given};

use crate::fault::FileFault;
use crate::reading::body_hash::BodyHash;
use crate::reading::feed_fault::FeedFault;
use crate::reading::feeding::pull;
use crate::reading::origin::{Origin, check_past};
use crate::reading::parts::{eight, four, thirty_two, two};
use crate::reading::records::read_records;
use crate::writing::start_of;
use byteorder::{BigEndian, ByteOrder};
use devices::{Feed, HashingSink, MemoryFeed};
use fingerprint::Sealed;
use sessions::{Session, Terms};
use std::alloc::Global;
use std::sync::Arc;

/// What each session's file begins with.
const MAGIC: [u8; 4] = *b"MJRG";

/// What stands before the records.
#[derive(Clone, Copy)]
struct FileHead {
    terms: Terms,
    number: u32,
    link: [u8; 32],
    count: u64,
}

/// The terms of the files that begin so, or `None` if none do.
pub fn terms_of_start(bytes: &[u8; 6]) -> Option<Terms>
    ensures found { IfSome result (λ terms. bytes.now ≡ start terms) }
    ensures none { IfNone result ((terms : TermsValue) → bytes.now ≢ start terms) }
{
    let version = [bytes[4], bytes[5]];
    let terms = Terms::of_version(BigEndian::read_u16(&version))?;
    if *bytes == start_of(terms) {
        Some(terms)
    } else {
        None
    }
}

/// The session whose file the bytes are, or the first breach from the left, if there is no previous session.
pub fn read(alloc: Global, bytes: &[u8]) -> Result<Session, FileFault>
    // What is read is a session, and the bytes are its file.
    ensures found { IfOk result (λ s. IsSession s × (bytes.now ≡ file_of s)) }
    // In form 2 it has no green record.
    ensures taken { IfOk result (IsTakenFrom None) }
    // The file of such a session is read, unless memory runs out.
    ensures only { (s : SessionValue) → IsSession s → IsTakenFrom None s → bytes.now ≡ file_of s
        → IsUnlessMemory result (Ok s) }
    // Which breach it is.
    ensures exact { IsUnlessMemory result (file_at bytes.now) }
{
    read_after(alloc, None, bytes)
}

/// The session over the previous one whose file the bytes are, or the first breach from the left.
pub fn read_after(alloc: Global, past: Option<&Session>, bytes: &[u8]) -> Result<Session, FileFault>
    // What is read is a session, and the bytes are its file.
    ensures found { IfOk result (λ s. IsSession s × (bytes.now ≡ file_of s)) }
    // In form 2 its green records stand in the previous session, with the same results.
    ensures taken { IfOk result (IsTakenFrom (option_copied past.entry)) }
    // The file of such a session is read, unless memory runs out.
    ensures only { (s : SessionValue) → IsSession s → IsTakenFrom (option_copied past.entry) s
        → bytes.now ≡ file_of s
        → IsUnlessMemory result (Ok s) }
    // Which breach it is.
    ensures exact { IsUnlessMemory result (file_after (option_copied past.entry) bytes.now) }
{
    let mut feed = MemoryFeed::new(bytes);
    match read_from_after(alloc, past, &mut feed) {
        Ok(session) => {
            if feed.rest().is_empty() {
                Ok(session)
            } else {
                Err(FileFault::Trailing)
            }
        }
        Err(fault) => Err(fault),
    }
}

/// The session whose file the feed begins with, or the first breach from the left, if there is no previous session.
/// Just that file is taken. Memory is only taken for bytes that were there. After a refusal the feed stands somewhere in
/// the file.
pub fn read_from<F: Feed>(alloc: Global, feed: &mut F) -> Result<Session, FileFault>
    // What is read is a session.
    ensures session { IfOk result IsSession }
    // In form 2 it has no green record.
    ensures taken { IfOk result (IsTakenFrom None) }
    // Its file was taken from what the feed held, and the rest is left, if the feed shows its bytes.
    ensures found { IfOk result (λ s. Given (F.holds feed.old) (F.holds feed.new) (file_of s)) }
    // The file of such a session is read, whatever follows it, unless memory runs out or the device fails.
    ensures only { (s : SessionValue) (rest : List ℕ) → IsSession s → IsTakenFrom None s
        → F.holds feed.old (file_of s ++ rest)
        → IsUnlessStopped result (Ok s) }
    // Which breach it is.
    ensures exact { (bytes : List ℕ) → F.holds feed.old bytes
        → IsUnlessStopped result (session_at bytes) }
    // A failure of the device is answered exactly if it was counted.
    ensures counted { CountsDevice result (F.failed feed.old) (F.failed feed.new) }
{
    read_from_after(alloc, None, feed)
}

/// The session over the previous one whose file the feed begins with, or the first breach from the left. It shares the
/// results that the previous session has, too. Just its file is taken. Memory is only taken for bytes that were there.
/// After a refusal the feed stands somewhere in the file.
pub fn read_from_after<F: Feed>(
    alloc: Global,
    past: Option<&Session>,
    feed: &mut F,
) -> Result<Session, FileFault>
    // What is read is a session.
    ensures session { IfOk result IsSession }
    // In form 2 its green records stand in the previous session, with the same results.
    ensures taken { IfOk result (IsTakenFrom (option_copied past.entry)) }
    // Its file was taken from what the feed held, and the rest is left, if the feed shows its bytes.
    ensures found { IfOk result (λ s. Given (F.holds feed.old) (F.holds feed.new) (file_of s)) }
    // The file of such a session is read, whatever follows it, unless memory runs out or the device fails.
    ensures only { (s : SessionValue) (rest : List ℕ) → IsSession s
        → IsTakenFrom (option_copied past.entry) s
        → F.holds feed.old (file_of s ++ rest)
        → IsUnlessStopped result (Ok s) }
    // Which breach it is.
    ensures exact { (bytes : List ℕ) → F.holds feed.old bytes
        → IsUnlessStopped result (session_after (option_copied past.entry) bytes) }
    // A failure of the device is answered exactly if it was counted.
    ensures counted { CountsDevice result (F.failed feed.old) (F.failed feed.new) }
{
    check_past(past);
    match read_session(alloc, past, feed) {
        Ok(session) => Ok(session),
        Err(FeedFault::Memory) => Err(FileFault::OutOfMemory),
        Err(FeedFault::Device) => Err(FileFault::Device),
        Err(FeedFault::Breach(fault)) => Err(fault),
    }
}

/// Reads the file. The session keeps its SHA-256, for which each byte is hashed once.
fn read_session<F: Feed>(
    alloc: Global,
    past: Option<&Session>,
    feed: &mut F,
) -> Result<Session, FeedFault>
    requires { IfSome (option_copied past) IsSession }
    ensures value { FeedsFront (F.holds feed.old) (F.holds feed.new) (λ x. x) result
        (front_after (option_copied past.entry)) }
    ensures counted { CountsFeedFault result (F.failed feed.old) (F.failed feed.new) }
{
    let mut hash = BodyHash::here();
    let session = read_body(alloc, past, &[], feed, &mut hash)?;
    let Some(body) = hash.into_sink() else {
        unreachable!();
    };
    let end = thirty_two(feed, &mut BodyHash::elsewhere())?;
    match with_end(session, body, &end) {
        Ok(whole) => Ok(whole),
        Err(fault) => Err(FeedFault::Breach(fault)),
    }
}

/// Reads all but the digest at the end; threads may have opened results of its records.
pub(crate) fn read_body<F: Feed>(
    alloc: Global,
    past: Option<&Session>,
    opened: &[Option<Arc<Sealed>>],
    feed: &mut F,
    hash: &mut BodyHash,
) -> Result<Session, FeedFault>
    requires { IfSome (option_copied past) IsSession }
    ensures value { Feeds (F.holds feed.old) (F.holds feed.new) hash.old hash.new (λ x. x) result
        (body_after (option_copied past.entry)) }
    ensures counted { CountsFeedFault result (F.failed feed.old) (F.failed feed.new) }
{
    let head = read_head(feed, hash)?;
    let mut origin = Origin::new(past, head.terms.form, opened);
    let records = read_records(alloc, feed, hash, &mut origin, head.count)?;
    Ok(Session::of_as(head.terms, head.number, head.link, records))
}

/// The session, which keeps the SHA-256 of its file, if these bytes are the digest at the end of that. The sink holds all
/// before it.
pub(crate) fn with_end(
    session: Session,
    body: HashingSink,
    end: &[u8; 32],
) -> Result<Session, FileFault>
    requires { Holds256 body.hasher (body_bytes session) }
    ensures { EndsWith session end.now result }
{
    let mut file = body;
    if file.close() == *end {
        Ok(session.with_digest(file.digest()))
    } else {
        Err(FileFault::BadDigest)
    }
}

/// Reads what stands before the records.
fn read_head<F: Feed>(feed: &mut F, hash: &mut BodyHash) -> Result<FileHead, FeedFault>
    ensures value { Feeds (F.holds feed.old) (F.holds feed.new) hash.old hash.new
        (λ x. record { terms = x.terms; number = x.number; link = x.link; count = x.count }) result
        head_at }
    ensures counted { CountsFeedFault result (F.failed feed.old) (F.failed feed.new) }
{
    read_start(feed, hash)?;
    let version = two(feed, hash)?;
    let Some(terms) = Terms::of_version(version) else {
        return Err(FeedFault::Breach(FileFault::Version));
    };
    let number = four(feed, hash)?;
    if number > Session::MOST {
        return Err(FeedFault::Breach(FileFault::Number));
    }
    let link = thirty_two(feed, hash)?;
    let count = eight(feed, hash)?;
    Ok(FileHead {
        terms,
        number,
        link,
        count,
    })
}

/// Reads the first four bytes, which begin each file.
fn read_start<F: Feed>(feed: &mut F, hash: &mut BodyHash) -> Result<(), FeedFault>
    ensures value { Feeds (F.holds feed.old) (F.holds feed.new) hash.old hash.new (λ x. x) result start_at }
    ensures counted { CountsFeedFault result (F.failed feed.old) (F.failed feed.new) }
{
    let mut room = [0; 4];
    match pull(feed, hash, &mut room) {
        Ok(()) => {
            if room == MAGIC {
                Ok(())
            } else {
                Err(FeedFault::Breach(FileFault::BadMagic))
            }
        }
        Err(FeedFault::Breach(_)) => Err(FeedFault::Breach(FileFault::BadMagic)),
        Err(stop) => Err(stop),
    }
}
