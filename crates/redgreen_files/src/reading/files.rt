//! The head and the end of a file, and whole files.
ghost use Rattle.std.specs.Prelude.{◌≡◌, false, List, ℕ, length, Ok, IfOk};
ghost use Rattle.sha2.specs.Sha256.{sha256};
ghost use Rattle.redgreen_files.specs.Spelling.{FileValue, FileFits, file_value, file_of};
ghost use Rattle.redgreen_files.specs.Reading.{IsUnlessStopped, body_at, exact_at, file_at, head_at, start_at};
ghost use Rattle.redgreen_files.specs.Feeding.{CountsDevice, CountsFeedFault, Ends, Feeds, Whole, as_value, is_device};

use crate::fault::FileFault;
use crate::reading::feed_fault::FeedFault;
use crate::reading::feeding::{fill, pull};
use crate::reading::parts::{digest, number};
use crate::reading::records::{read_records, read_roots};
use devices::{Feed, HashingSink};
use redgreen_sessions::Session;
use std::alloc::Global;

/// What each session file begins with.
const MAGIC: [u8; 8] = *b"REDGREEN";

/// The version of the form in which all values are written.
const VERSION: [u8; 2] = [0, 1];

/// A session that was read, and the SHA-256 of its file.
#[derive(Drop)]
pub struct FiledSession {
    pub session: Session,
    pub digest: [u8; 32],
}

/// The session whose file the feed holds, and nothing after it, or the first breach from the left. The file is taken in
/// pieces, and memory is only taken for bytes that were there. After a refusal the feed is somewhere in the file.
pub fn read_session<F: Feed>(alloc: Global, feed: &mut F) -> Result<FiledSession, FileFault>
    // What is read has a file, which the feed held if it shows its bytes.
    ensures fits { IfOk result (λ filed. FileFits (file_value filed.session)) }
    ensures found { IfOk result (λ filed. (bytes : List ℕ) → F.holds feed.old bytes
        → bytes ≡ file_of (file_value filed.session)) }
    // Its digest is that of the file.
    ensures digest { IfOk result (λ filed. filed.digest ≡ sha256 (file_of (file_value filed.session))) }
    // The file of such a session is read, unless memory runs out or the device fails.
    ensures only { (s : FileValue) → FileFits s → F.holds feed.old (file_of s)
        → IsUnlessStopped (as_value result) (Ok s) }
    // Which breach it is.
    ensures exact { (bytes : List ℕ) → F.holds feed.old bytes
        → IsUnlessStopped (as_value result) (file_at bytes) }
    // A failure of the device is answered exactly if it was counted.
    ensures counted { CountsDevice result (F.failed feed.old) (F.failed feed.new) }
{
    match read_whole(alloc, feed) {
        Ok(filed) => Ok(filed),
        Err(FeedFault::Memory) => Err(FileFault::OutOfMemory),
        Err(FeedFault::Device) => Err(FileFault::Device),
        Err(FeedFault::Breach(fault)) => Err(fault),
    }
}

/// Reads the file. Each byte is hashed once.
fn read_whole<F: Feed>(alloc: Global, feed: &mut F) -> Result<FiledSession, FeedFault>
    ensures whole { Whole (F.holds feed.old) result }
    ensures counted { CountsFeedFault result (F.failed feed.old) (F.failed feed.new) }
{
    let mut hash = HashingSink::new();
    let session = read_body(alloc, feed, &mut hash)?;
    let end = hash.close();
    read_end(feed, &end)?;
    Ok(FiledSession {
        session,
        digest: hash.digest(),
    })
}

/// Reads all but the digest at the end.
fn read_body<F: Feed>(
    alloc: Global,
    feed: &mut F,
    hash: &mut HashingSink,
) -> Result<Session, FeedFault>
    ensures value { Feeds (F.holds feed.old) (F.holds feed.new) hash.old hash.new file_value result
        body_at }
    ensures counted { CountsFeedFault result (F.failed feed.old) (F.failed feed.new) }
{
    let head = read_head(feed, hash)?;
    let roots = read_roots(alloc, feed, hash)?;
    let records = read_records(alloc, feed, hash)?;
    let (number, link) = head;
    Ok(Session {
        number,
        link,
        roots,
        records,
    })
}

/// Reads what is before the roots: the number and the link.
fn read_head<F: Feed>(feed: &mut F, hash: &mut HashingSink) -> Result<(u64, [u8; 32]), FeedFault>
    ensures value { Feeds (F.holds feed.old) (F.holds feed.new) hash.old hash.new
        (λ x. (((tt, tt), x.0), x.1)) result head_at }
    ensures counted { CountsFeedFault result (F.failed feed.old) (F.failed feed.new) }
{
    read_start(feed, hash)?;
    let number = number(feed, hash)?;
    let link = digest(feed, hash)?;
    Ok((number, link))
}

/// Reads the letters and the version that each file begins with.
fn read_start<F: Feed>(feed: &mut F, hash: &mut HashingSink) -> Result<(), FeedFault>
    ensures value { Feeds (F.holds feed.old) (F.holds feed.new) hash.old hash.new (λ x. (tt, tt)) result
        start_at }
    ensures counted { CountsFeedFault result (F.failed feed.old) (F.failed feed.new) }
{
    let mut letters = [0; 8];
    let mut version = [0; 2];
    exact(
        feed,
        hash,
        &mut letters,
        &MAGIC,
        FileFault::BadMagic,
        FileFault::BadMagic,
    )?;
    exact(
        feed,
        hash,
        &mut version,
        &VERSION,
        FileFault::Truncated,
        FileFault::Version,
    )
}

/// Takes just this text, to a room of its length.
fn exact<F: Feed>(
    feed: &mut F,
    hash: &mut HashingSink,
    room: &mut [u8],
    text: &[u8],
    short: FileFault,
    other: FileFault,
) -> Result<(), FeedFault>
    requires room { length room.old ≡ length text.now }
    requires short { is_device short ≡ false }
    requires other { is_device other ≡ false }
    ensures value { Feeds (F.holds feed.old) (F.holds feed.new) hash.old hash.new (λ x. tt) result
        (exact_at text.now short other) }
    ensures counted { CountsFeedFault result (F.failed feed.old) (F.failed feed.new) }
{
    match pull(feed, hash, room) {
        Ok(()) => {
            if *room == *text {
                Ok(())
            } else {
                Err(FeedFault::Breach(other))
            }
        }
        Err(FeedFault::Breach(_)) => Err(FeedFault::Breach(short)),
        Err(stop) => Err(stop),
    }
}

/// Takes just this digest, and nothing may follow it.
fn read_end<F: Feed>(feed: &mut F, end: &[u8; 32]) -> Result<(), FeedFault>
    ensures ends { Ends (F.holds feed.old) end.now result }
    ensures counted { CountsFeedFault result (F.failed feed.old) (F.failed feed.new) }
{
    let mut room = [0; 32];
    fill(feed, &mut room)?;
    if room != *end {
        return Err(FeedFault::Breach(FileFault::BadDigest));
    }
    let mut more = [0; 1];
    match feed.take(&mut more) {
        Ok(count) => {
            if count > 0 {
                return Err(FeedFault::Breach(FileFault::Trailing));
            }
            Ok(())
        }
        Err(_) => Err(FeedFault::Device),
    }
}
