//! Devices that take a few bytes a call, and that fail.
ghost use Rattle.std.specs.Prelude.{◌≡◌};
ghost use Rattle.devices.specs.Devices.{one_more};

use crate::caches::first::first;
use devices::{DeviceFault, Feed, MemoryFeed, ReaderFeed, Sink, WriterSink};
use session_file::FileFault;
use session_fixtures::{file_of, write_to};
use std::alloc::Global;
use std::test::*;

/// A sink that takes one byte a call, and fails from some call on.
#[derive(Drop)]
struct Slow {
    bytes: Vec<u8>,
    left: usize,
    failed: u64,
}

impl Slow {
    fn new(alloc: Global, left: usize) -> Self {
        Slow {
            bytes: Vec::new(alloc),
            left,
            failed: 0,
        }
    }

    fn fail(&mut self) -> DeviceFault
        ensures bytes { self.new.bytes ≡ self.old.bytes }
        ensures failed { self.new.failed ≡ one_more self.old.failed }
    {
        self.failed = self.failed.saturating_add(1);
        DeviceFault
    }
}

impl Sink for Slow {
    ghost use Rattle.std.specs.Prelude.{◌≡◌};

    ghost holds = { λ s bytes. s.bytes.items ≡ bytes };

    ghost failed = { λ s. s.failed };

    fn put(&mut self, bytes: &[u8]) -> Result<usize, DeviceFault> {
        let Some(first) = bytes.first() else {
            return Ok(0);
        };
        if self.left == 0 {
            return Err(self.fail());
        }
        match self.bytes.push(*first) {
            Ok(()) => {
                self.left -= 1;
                Ok(1)
            }
            Err(_) => Err(self.fail()),
        }
    }

    fn failures(&self) -> u64 {
        self.failed
    }
}

/// How many calls a sink takes before it fails, how many bytes it then has, and whether the file is whole.
struct Taken {
    calls: usize,
    bytes: usize,
    whole: bool,
}

const TAKEN: &[Taken] = &[
    Taken {
        calls: 0,
        bytes: 0,
        whole: false,
    },
    Taken {
        calls: 1,
        bytes: 1,
        whole: false,
    },
    Taken {
        calls: 700,
        bytes: 700,
        whole: false,
    },
    Taken {
        calls: 1191,
        bytes: 1191,
        whole: false,
    },
    Taken {
        calls: 1192,
        bytes: 1192,
        whole: true,
    },
    Taken {
        calls: 5000,
        bytes: 1192,
        whole: true,
    },
];

/// Whether the write ends as the case says.
fn has_ended(alloc: Global, sink: &mut Slow, row: &Taken) -> bool {
    match write_to(alloc, first(), sink) {
        Ok(Ok(())) => row.whole && sink.failures() == 0,
        Ok(Err(fault)) => !row.whole && fault == FileFault::Device && sink.failures() == 1,
        Err(_) => false,
    }
}

/// Whether the sink has so many bytes, which the file begins with.
fn has_beginning(alloc: Global, sink: &Slow, bytes: usize) -> bool {
    match file_of(alloc, first()) {
        Ok(file) => file.bytes().get(..bytes) == Some(sink.bytes.as_slice()),
        Err(_) => false,
    }
}

fn is_taken(alloc: Global, row: &Taken) -> bool {
    let mut sink = Slow::new(alloc, row.calls);
    has_ended(alloc, &mut sink, row) && has_beginning(alloc, &sink, row.bytes)
}

#[test]
fn sinks_take_a_few_bytes_and_fail(rt: HostRuntime) {
    for row in TAKEN {
        assert!(rt; is_taken(rt.alloc(), row));
    }
}

// Rooms of three bytes for five: all three, then two, then the end.
const ROOMS: &[&[u8]] = &[b"abc", b"de", b"", b""];

fn is_given(feed: &mut MemoryFeed, want: &[u8]) -> bool {
    let mut room = [0; 3];
    let moved = feed.take(&mut room);
    moved == Ok(want.len()) && room.get(..want.len()) == Some(want) && feed.failures() == 0
}

#[test]
fn memory_is_a_feed(rt: HostRuntime) {
    let mut feed = MemoryFeed::new(b"abcde");
    for want in ROOMS {
        assert!(rt; is_given(&mut feed, want));
    }
    assert!(rt; feed.rest().is_empty());
}

fn is_handed_on(alloc: Global, bytes: &mut Vec<u8>) -> bool {
    let mut sink = WriterSink::new(bytes);
    write_to(alloc, first(), &mut sink) == Ok(Ok(())) && sink.failures() == 0
}

fn is_fed(bytes: &[u8]) -> bool {
    let mut feed = ReaderFeed::new(bytes);
    let mut room = [0; 2000];
    let moved = feed.take(&mut room);
    moved == Ok(1192) && room.get(..1192) == Some(bytes) && feed.failures() == 0
}

#[test]
fn writers_and_readers_are_devices(rt: HostRuntime) {
    let mut bytes = Vec::new(rt.alloc());
    assert!(rt; is_handed_on(rt.alloc(), &mut bytes));
    assert!(rt; is_fed(&bytes));
}
