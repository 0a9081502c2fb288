//! Reading and writing the cache.
ghost use Rattle.std.specs.Prelude.{◌≡◌, ◌≤◌, [], length, All, IfOk, IfErr, IsErrAnd};
ghost use Rattle.session_cache.specs.Names.{most};
ghost use Rattle.session_cache.specs.Opened.{IsRead, IsReadFront, IsReadLast};
ghost use Rattle.session_cache.specs.Starts.{IsChainFront, IsLastChain, IsSessionPlace, IsUnreadable, IsUnreadableCache, IsUnwritten};

use crate::fault::{CacheReadFault, CacheWriteFault};
use crate::filling::{NewFile, write_to};
use crate::names::{EntryKind, highest, numbers_in};
use crate::place::{SessionPlace, chain_path};
use crate::start::LastChain;
use crate::whole::read_whole;
use session_file::{FileFault, read_after_by, terms_of_start};
use sessions::{Form, Session, Terms};
use std::alloc::Global;
use std::io::{BufWriter, ErrorKind, Read, Write};
use std::rt::Files;
use std::thread::Threads;
use std::{fs, io};

/// How many bytes of a session's file are handed to the system at a time.
const BUFFER: usize = 65536;

/// Reads the last file of the last chain in the cache of this folder, over those in front of it that it is taken from. A
/// folder that doesn't exist is an empty cache. An empty path names no folder, and can't be read. So many workers read, each
/// in a thread of its own.
pub fn find_last<R: Files + AllocGlobal, T: Threads + Sync>(
    rt: &R,
    threads: &T,
    dir: &str,
    workers: usize,
) -> Result<LastChain, CacheReadFault>
    ensures last { IfOk result IsLastChain }
    ensures read { IfOk result (IsReadLast R.File.Read.remaining) }
    ensures unread { IfErr result (IsUnreadableCache dir.now) }
    ensures unnamed { dir.now ≡ [] → IsErrAnd result (IsUnreadable []) }
{
    if dir.is_empty() {
        return Err(CacheReadFault::CannotRead(String::new(rt.alloc())));
    }
    let chains = match names_in(rt, dir) {
        Ok(names) => names,
        Err(error) if error.kind() == ErrorKind::NotFound => return Ok(LastChain::NoChain),
        Err(error) => return Err(unreadable(rt.alloc(), dir, &error)),
    };
    match highest(EntryKind::Chain, &chains) {
        Some(chain) => last_in(rt, threads, dir, chain, workers),
        None => Ok(LastChain::NoChain),
    }
}

/// Reads the last file of a chain, over those in front of it that it is taken from.
fn last_in<R: Files + AllocGlobal, T: Threads + Sync>(
    rt: &R,
    threads: &T,
    dir: &str,
    chain: u32,
    workers: usize,
) -> Result<LastChain, CacheReadFault>
    requires { chain ≤ most }
    ensures last { IfOk result IsLastChain }
    ensures read { IfOk result (IsReadLast R.File.Read.remaining) }
    ensures unread { IfErr result (IsUnreadableCache dir.now) }
{
    let folder = chain_path(rt.alloc(), dir, chain)?;
    let sessions = match names_in(rt, folder.as_str()) {
        Ok(names) => names,
        Err(error) => return Err(unreadable(rt.alloc(), dir, &error)),
    };
    let numbers = numbers_in(rt.alloc(), EntryKind::Session, &sessions)?;
    match numbers.split_last() {
        Some((last, front)) => {
            let place = SessionPlace {
                chain,
                number: *last,
            };
            read_last(rt, threads, dir, place, front, workers)
        }
        None => Ok(LastChain::NoSession(chain)),
    }
}

/// Reads the last file of a chain, which stands at this place. If it is of form 2, those in front of it are read first.
fn read_last<R: Files + AllocGlobal, T: Threads + Sync>(
    rt: &R,
    threads: &T,
    dir: &str,
    place: SessionPlace,
    front: &[u32],
    workers: usize,
) -> Result<LastChain, CacheReadFault>
    requires place { IsSessionPlace place }
    requires front { All (λ n. n ≤ most) front.now }
    ensures last { IfOk result IsLastChain }
    ensures read { IfOk result (IsReadLast R.File.Read.remaining) }
    ensures unread { IfErr result (IsUnreadableCache dir.now) }
{
    let bytes = match bytes_at(rt, dir, place) {
        Ok(bytes) => bytes,
        Err(fault) => return Err(fault),
    };
    if !is_of_form_2(&bytes) {
        return Ok(LastChain::File(
            place,
            read_after_by(threads, rt.alloc(), None, &bytes, workers),
        ));
    }
    match read_front(rt, threads, dir, place.chain, front, workers) {
        Ok(ChainFront::Read(past)) => Ok(LastChain::File(
            place,
            read_after_by(threads, rt.alloc(), past.as_ref(), &bytes, workers),
        )),
        Ok(ChainFront::Ended(place, read)) => Ok(LastChain::File(place, read)),
        Err(fault) => Err(fault),
    }
}

/// Whether the bytes begin as a file of form 2 does.
fn is_of_form_2(bytes: &[u8]) -> bool {
    match bytes.first_chunk::<6>() {
        Some(start) => matches!(
            terms_of_start(start),
            Some(Terms {
                form: Form::Two,
                ..
            })
        ),
        None => false,
    }
}

/// What was read of the files in front of the last one.
#[derive(Drop)]
pub enum ChainFront {
    /// The session that the last one is read over, if there is one.
    Read(Option<Session>),
    /// The file at this place, which no session follows, with this result.
    Ended(SessionPlace, Result<Session, FileFault>),
}

/// The index of the last of these sessions of a chain whose file isn't of form 2, and stands alone therefore; the first
/// if there is none.
fn first_to_read<R: Files + AllocGlobal>(
    rt: &R,
    dir: &str,
    chain: u32,
    numbers: &[u32],
) -> Result<usize, CacheReadFault>
    requires chain { chain ≤ most }
    requires numbers { All (λ n. n ≤ most) numbers.now }
    ensures within { IfOk result (λ first. first ≤ length numbers.now) }
    ensures unread { IfErr result (IsUnreadableCache dir.now) }
{
    let mut first = numbers.len();
    while first > 0 {
        first -= 1;
        let place = SessionPlace {
            chain,
            number: numbers[first],
        };
        match form_at(rt, dir, place) {
            Ok(Some(Form::Two)) => {}
            Ok(Some(Form::One) | None) => return Ok(first),
            Err(fault) => return Err(fault),
        }
    }
    Ok(first)
}

/// The form of the file at this place, by its first bytes; none if they are no start of a file.
fn form_at<R: Files + AllocGlobal>(
    rt: &R,
    dir: &str,
    place: SessionPlace,
) -> Result<Option<Form>, CacheReadFault>
    requires { IsSessionPlace place }
    ensures { IfErr result (IsUnreadableCache dir.now) }
{
    let alloc = rt.alloc();
    let path = place.path(alloc, dir)?;
    match start_in(rt, path.as_str()) {
        Ok(Some(start)) => Ok(terms_of_start(&start).map(|terms| terms.form)),
        Ok(None) => Ok(None),
        Err(error) => Err(unreadable(alloc, path.as_str(), &error)),
    }
}

/// The first bytes of a file, if there are so many.
fn start_in<R: Files + AllocGlobal>(rt: &R, path: &str) -> io::Result<Option<[u8; 6]>> {
    let mut file = fs::File::open(rt, path)?;
    let mut start = [0; 6];
    match file.read_exact(&mut start) {
        Ok(()) => Ok(Some(start)),
        Err(error) if error.kind() == ErrorKind::UnexpectedEof => Ok(None),
        Err(error) => Err(error),
    }
}

/// Reads the files of these sessions of a chain from the last one on that isn't of form 2, each over the one before, up to the
/// first that no session follows.
fn read_front<R: Files + AllocGlobal, T: Threads + Sync>(
    rt: &R,
    threads: &T,
    dir: &str,
    chain: u32,
    numbers: &[u32],
    workers: usize,
) -> Result<ChainFront, CacheReadFault>
    requires chain { chain ≤ most }
    requires numbers { All (λ n. n ≤ most) numbers.now }
    ensures front { IfOk result IsChainFront }
    ensures read { IfOk result (IsReadFront R.File.Read.remaining) }
    ensures unread { IfErr result (IsUnreadableCache dir.now) }
{
    let first = match first_to_read(rt, dir, chain, numbers) {
        Ok(first) => first,
        Err(fault) => return Err(fault),
    };
    let mut past = None;
    for number in &numbers[first..] {
        let place = SessionPlace {
            chain,
            number: *number,
        };
        let bytes = match bytes_at(rt, dir, place) {
            Ok(bytes) => bytes,
            Err(fault) => return Err(fault),
        };
        match read_after_by(threads, rt.alloc(), past.as_ref(), &bytes, workers) {
            Ok(session) if session.number() == place.number => past = Some(session),
            read => return Ok(ChainFront::Ended(place, read)),
        }
    }
    Ok(ChainFront::Read(past))
}

/// The bytes of the file at this place.
fn bytes_at<R: Files + AllocGlobal>(
    rt: &R,
    dir: &str,
    place: SessionPlace,
) -> Result<Vec<u8>, CacheReadFault>
    requires { IsSessionPlace place }
    ensures read { IfOk result (λ bytes. IsRead R.File.Read.remaining bytes.items) }
    ensures unread { IfErr result (IsUnreadableCache dir.now) }
{
    let alloc = rt.alloc();
    let path = place.path(alloc, dir)?;
    match read_whole(rt, path.as_str()) {
        Ok(bytes) => Ok(bytes),
        Err(error) => Err(unreadable(alloc, path.as_str(), &error)),
    }
}

/// The names in a folder, without those that aren't UTF-8.
fn names_in<R: Files + AllocGlobal>(rt: &R, folder: &str) -> io::Result<Vec<String>> {
    let alloc = rt.alloc();
    let mut names = Vec::new(alloc);
    for entry in fs::read_dir(&rt, folder)? {
        match entry {
            Ok(entry) => names.push(String::from_str(alloc, entry.file_name())?)?,
            Err(error) if error.kind() == ErrorKind::InvalidFilename => {}
            Err(error) => return Err(error),
        }
    }
    Ok(names)
}

/// Why a folder or a file isn't read.
fn unreadable(alloc: Global, path: &str, error: &io::Error) -> CacheReadFault
    ensures { IsUnreadable path.now result }
{
    if error.kind() == ErrorKind::OutOfMemory {
        return CacheReadFault::OutOfMemory;
    }
    match String::from_str(alloc, path) {
        Ok(path) => CacheReadFault::CannotRead(path),
        Err(_) => CacheReadFault::OutOfMemory,
    }
}

/// Writes the session's file at this place, if there is none yet, and makes the folders that are missing. If there is
/// more than one worker another thread computes the digest at its end meanwhile.
pub fn write_file<R: Files + AllocGlobal, T: Threads>(
    rt: &R,
    threads: &T,
    dir: &str,
    place: SessionPlace,
    session: &Session,
    workers: usize,
) -> Result<(), CacheWriteFault>
    requires { IsSessionPlace place }
    ensures { IfErr result (IsUnwritten dir.now place) }
{
    let alloc = rt.alloc();
    let folder = chain_path(alloc, dir, place.chain)?;
    let path = place.path(alloc, dir)?;
    match write_new(
        rt,
        threads,
        folder.as_str(),
        path.as_str(),
        session,
        workers,
    ) {
        Ok(()) => Ok(()),
        Err(error) if error.kind() == ErrorKind::OutOfMemory => Err(CacheWriteFault::OutOfMemory),
        Err(_) => Err(CacheWriteFault::CannotWrite(path)),
    }
}

/// Makes the folder if it is missing, and a new file in it, which has the session.
fn write_new<R: Files + AllocGlobal, T: Threads>(
    rt: &R,
    threads: &T,
    folder: &str,
    path: &str,
    session: &Session,
    workers: usize,
) -> io::Result<()> {
    // (the buffer is there before the file, so that want of memory leaves none)
    let mut buffer = BufWriter::with_capacity(rt.alloc(), BUFFER, NewFile::new())?;
    fs::create_dir_all(rt, folder)?;
    buffer.get_mut().set(fs::File::create_new(rt, path)?);
    let mut file = write_to(threads, buffer, session, workers)?;
    file.flush()
}
