//! Files that are in memory, read by several threads.
ghost use Rattle.std.specs.Prelude.{◌≡◌, ◌≤◌, ◌-◌, length, take, drop, Ok, IfOk, IfSome};
ghost use Rattle.std.specs.Option.{option_copied};
ghost use Rattle.sha2.specs.Hashers.{Holds256};
ghost use Rattle.sessions.specs.Sessions.{SessionValue, IsSession, IsTakenFrom};
ghost use Rattle.sessions.specs.Spelling.{body_bytes, file_of};
ghost use Rattle.session_file.specs.Reading.{IsUnlessMemory, ReadsBody, ended_at, file_after};

use crate::fault::FileFault;
use crate::reading::body_hash::BodyHash;
use crate::reading::feed_fault::FeedFault;
use crate::reading::files::{read_after, read_body, with_end};
use crate::reading::opened::opened_by;
use crate::reading::origin::check_past;
use devices::{HashingSink, MemoryFeed};
use fingerprint::Sealed;
use sessions::Session;
use std::alloc::Global;
use std::sync::Arc;
use std::thread::{Threads, join};

/// The session over the previous one whose file the bytes are, or the first breach from the left. With two workers or more
/// another thread computes the digest at the end meanwhile, and with three or more others open the results first. What can't be
/// done by a thread of its own is done by this one.
pub fn read_after_by<T: Threads + Sync>(
    threads: &T,
    alloc: Global,
    past: Option<&Session>,
    bytes: &[u8],
    workers: usize,
) -> Result<Session, FileFault>
    // What is read is a session, and the bytes are its file.
    ensures found { IfOk result (λ s. IsSession s × (bytes.now ≡ file_of s)) }
    // In form 2 its green records stand in the previous session, with the same results.
    ensures taken { IfOk result (IsTakenFrom (option_copied past.entry)) }
    // The file of such a session is read, unless memory runs out.
    ensures only { (s : SessionValue) → IsSession s → IsTakenFrom (option_copied past.entry) s
        → bytes.now ≡ file_of s
        → IsUnlessMemory result (Ok s) }
    // Which breach it is.
    ensures exact { IsUnlessMemory result (file_after (option_copied past.entry) bytes.now) }
{
    if workers < 2 {
        return read_after(alloc, past, bytes);
    }
    // (what is shorter than a digest is no file)
    let Some((body, _)) = bytes.split_last_chunk::<32>() else {
        return read_after(alloc, past, bytes);
    };
    check_past(past);
    read_by_two(threads, alloc, past, bytes, body, workers - 1)
}

/// Reads the file by so many workers, while another thread hashes all but its last 32 bytes.
fn read_by_two<T: Threads + Sync>(
    threads: &T,
    alloc: Global,
    past: Option<&Session>,
    bytes: &[u8],
    body: &[u8],
    others: usize,
) -> Result<Session, FileFault>
    requires past { IfSome (option_copied past) IsSession }
    requires body { body.now ≡ take (length bytes.now - 32) bytes.now }
    ensures { IsUnlessMemory result (file_after (option_copied past.entry) bytes.now) }
{
    let hashing = || -> HashingSink
        ensures { Holds256 result.hasher body.entry.now }
    { HashingSink::of(body) };
    let reading = move || -> Result<(Session, usize), FileFault>
        requires { IfSome (option_copied past) IsSession }
        ensures { ReadsBody (option_copied past.entry) bytes.entry.now result }
    { read_opened(threads, alloc, past, bytes, others) };
    let (hash, read) = join(threads, hashing, reading);
    match read {
        Ok((session, left)) => end_of(session, bytes, left, hash),
        Err(fault) => Err(fault),
    }
}

/// Reads all but the digest at the end, once so many threads have opened the results if there are some. Answers how many
/// bytes are left, too.
fn read_opened<T: Threads + Sync>(
    threads: &T,
    alloc: Global,
    past: Option<&Session>,
    bytes: &[u8],
    workers: usize,
) -> Result<(Session, usize), FileFault>
    requires { IfSome (option_copied past) IsSession }
    ensures { ReadsBody (option_copied past.entry) bytes.now result }
{
    if workers < 2 {
        return read_unhashed(alloc, past, &[], bytes);
    }
    match opened_by(threads, alloc, bytes, workers) {
        Ok(opened) => read_unhashed(alloc, past, &opened, bytes),
        Err(_) => Err(FileFault::OutOfMemory),
    }
}

/// Reads all but the digest at the end, and hashes nothing. Answers how many bytes are left, too.
fn read_unhashed(
    alloc: Global,
    past: Option<&Session>,
    opened: &[Option<Arc<Sealed>>],
    bytes: &[u8],
) -> Result<(Session, usize), FileFault>
    requires { IfSome (option_copied past) IsSession }
    ensures { ReadsBody (option_copied past.entry) bytes.now result }
{
    let mut feed = MemoryFeed::new(bytes);
    match read_body(alloc, past, opened, &mut feed, &mut BodyHash::elsewhere()) {
        Ok(session) => Ok((session, feed.rest().len())),
        Err(FeedFault::Memory) => Err(FileFault::OutOfMemory),
        Err(FeedFault::Device) => unreachable!(),
        Err(FeedFault::Breach(fault)) => Err(fault),
    }
}

/// The session, if the bytes that are left behind it are the digest at the end of its file. The sink holds all but the last
/// 32 bytes.
fn end_of(
    session: Session,
    bytes: &[u8],
    left: usize,
    hash: HashingSink,
) -> Result<Session, FileFault>
    requires left { left ≤ length bytes.now }
    requires body { take (length bytes.now - left) bytes.now ≡ body_bytes session }
    requires hash { Holds256 hash.hasher (take (length bytes.now - 32) bytes.now) }
    ensures { result ≡ ended_at session (drop (length bytes.now - left) bytes.now) }
{
    let (body, rest) = bytes.split_at(bytes.len() - left);
    let Some((end, behind)) = rest.split_first_chunk::<32>() else {
        return Err(FileFault::Truncated);
    };
    if behind.is_empty() {
        return with_end(session, hash, end);
    }
    match with_end(session, HashingSink::of(body), end) {
        Ok(_) => Err(FileFault::Trailing),
        Err(fault) => Err(fault),
    }
}
