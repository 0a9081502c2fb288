//! Files over sinks and feeds that fail at each of their calls.

use crate::first::{file_of_first, first};
use devices::{Feed, Sink};
use session_file::FileFault;
use session_fixtures::{
    Failing, FailingFeed, FailingSink, Manner, digest_of, digest_of_taken, file_fault_of, file_of,
    write_to,
};
use std::alloc::Global;
use std::test::*;

/// More bytes than the file has, so that each call of a device moves all that it is asked to.
const WHOLE: usize = 5000;

/// Ways to fail: once, and from some call on.
const GOES_ON: [bool; 2] = [false, true];

fn manner(piece: usize, call: usize, goes_on: bool) -> Manner {
    Manner {
        piece,
        failing: Some(Failing { call, goes_on }),
    }
}

fn unfailing(piece: usize) -> Manner {
    Manner {
        piece,
        failing: None,
    }
}

/// How many calls of a sink the file is written by.
fn calls_to_write(alloc: Global, piece: usize) -> usize {
    let mut sink = FailingSink::new(alloc, unfailing(piece));
    match write_to(alloc, first(), &mut sink) {
        Ok(Ok(())) => sink.calls(),
        _ => 0,
    }
}

/// Whether a write that fails answers so, has counted it, and leaves a beginning of the file that isn't all of it.
fn fails_to_write(alloc: Global, sink: &mut FailingSink, file: &[u8]) -> bool {
    write_to(alloc, first(), sink) == Ok(Err(FileFault::Device))
        && sink.failures() == 1
        && sink.bytes().len() < file.len()
        && file.get(..sink.bytes().len()) == Some(sink.bytes())
}

/// Whether what a failed write has left is no session's file.
fn is_no_file(alloc: Global, bytes: &[u8]) -> bool {
    let fault = if bytes.len() < 4 {
        FileFault::BadMagic
    } else {
        FileFault::Truncated
    };
    file_fault_of(alloc, bytes) == Some(fault)
}

/// Whether the file is written whole to the sink that is emptied before, if it doesn't go on to fail.
fn is_written_again(alloc: Global, sink: &mut FailingSink, file: &[u8], goes_on: bool) -> bool {
    sink.empty();
    let written = write_to(alloc, first(), sink);
    if goes_on {
        written == Ok(Err(FileFault::Device)) && sink.failures() == 2 && sink.bytes().is_empty()
    } else {
        written == Ok(Ok(())) && sink.failures() == 1 && sink.bytes() == file
    }
}

/// Whether a write fails at this call of its sink as it has to, and is made again.
fn is_write_failed(alloc: Global, file: &[u8], piece: usize, call: usize, goes_on: bool) -> bool {
    let mut sink = FailingSink::new(alloc, manner(piece, call, goes_on));
    fails_to_write(alloc, &mut sink, file)
        && is_no_file(alloc, sink.bytes())
        && is_written_again(alloc, &mut sink, file, goes_on)
}

fn are_writes_failed(alloc: Global, file: &[u8], piece: usize, goes_on: bool) -> bool {
    let calls = calls_to_write(alloc, piece);
    let fails = (0..calls).all(|call| is_write_failed(alloc, file, piece, call, goes_on));
    fails && 0 < calls
}

#[test]
fn a_write_fails_at_each_call(rt: HostRuntime) -> Result<(), Fail> {
    let file = file_of(rt.alloc(), first()).ok().ok_or("a file")?;
    for goes_on in GOES_ON {
        assert!(rt; are_writes_failed(rt.alloc(), file.bytes(), WHOLE, goes_on));
    }
    Ok(())
}

/// How many calls of a feed the file is read by.
fn calls_to_read(alloc: Global, file: &[u8], piece: usize) -> usize {
    let mut feed = FailingFeed::new(file, unfailing(piece));
    match digest_of_taken(alloc, &mut feed) {
        Ok(_) => feed.calls(),
        Err(_) => 0,
    }
}

/// Whether the file that the feed holds again is read, if the feed doesn't go on to fail.
fn is_read_again(alloc: Global, feed: &mut FailingFeed, digest: [u8; 32], goes_on: bool) -> bool {
    let taken = digest_of_taken(alloc, feed);
    if goes_on {
        taken == Err(FileFault::Device) && feed.failures() == 2
    } else {
        taken == Ok(digest) && feed.failures() == 1 && feed.rest().is_empty()
    }
}

/// Whether a reading fails at this call of its feed as it has to, and is made again.
fn is_reading_failed(
    alloc: Global,
    file: &[u8],
    digest: [u8; 32],
    manner: Manner,
    goes_on: bool,
) -> bool {
    let mut feed = FailingFeed::new(file, manner);
    if digest_of_taken(alloc, &mut feed) != Err(FileFault::Device) || feed.failures() != 1 {
        return false;
    }
    feed.refill(file);
    is_read_again(alloc, &mut feed, digest, goes_on)
}

fn are_readings_failed(
    alloc: Global,
    file: &[u8],
    digest: [u8; 32],
    piece: usize,
    goes_on: bool,
) -> bool {
    let calls = calls_to_read(alloc, file, piece);
    let fails = (0..calls).all(|call| is_reading_failed(
        alloc,
        file,
        digest,
        manner(piece, call, goes_on),
        goes_on,
    ));
    fails && 0 < calls
}

#[test]
fn a_reading_fails_at_each_call(rt: HostRuntime) -> Result<(), Fail> {
    let file = file_of(rt.alloc(), first()).ok().ok_or("a file")?;
    let digest = digest_of(rt.alloc(), 0, [0; 32], first())
        .ok()
        .ok_or("a digest")?;
    for piece in [7, WHOLE] {
        for goes_on in GOES_ON {
            assert!(rt;
                are_readings_failed(rt.alloc(), file.bytes(), digest, piece, goes_on),
                "{piece}"
            );
        }
    }
    Ok(())
}

/// Whether a feed that ends behind so many bytes of the file is refused as these bytes are, whatever it gives in a call.
fn ends_early(alloc: Global, file: &[u8], count: usize, piece: usize) -> bool {
    let Some(front) = file.get(..count) else {
        return false;
    };
    let mut feed = FailingFeed::new(front, unfailing(piece));
    let fault = digest_of_taken(alloc, &mut feed).err();
    fault == file_fault_of(alloc, front) && fault.is_some() && feed.failures() == 0
}

fn end_early(alloc: Global, file: &[u8], piece: usize) -> bool {
    let ends = (0..file.len()).all(|count| ends_early(alloc, file, count, piece));
    ends && !file.is_empty()
}

/// Four records, so that a feed may end at each of their bytes in a short time.
#[test]
fn a_feed_ends_early_at_each_byte(rt: HostRuntime) -> Result<(), Fail> {
    let file = file_of_first(rt.alloc(), 4).ok().ok_or("a file")?;
    for piece in [1, 2, 3, 7] {
        assert!(rt; end_early(rt.alloc(), file.bytes(), piece), "{piece}");
    }
    Ok(())
}
