//! Devices that move a few bytes a call, and fail at one of their calls.
ghost use Rattle.std.specs.Prelude.{◌≡◌, ◌<◌, [], IfOk};
ghost use Rattle.devices.specs.Devices.{CountsFailures, one_more};

use devices::{DeviceFault, Feed, Sink};
use std::alloc::Global;

/// At which of its calls, counted from 0, a device fails, and whether it fails from then on.
#[derive(Clone, Copy, Debug)]
pub struct Failing {
    pub call: usize,
    pub goes_on: bool,
}

/// How many bytes a device moves in one call at most, 0 being as good as 1, and where it fails.
#[derive(Clone, Copy, Debug)]
pub struct Manner {
    pub piece: usize,
    pub failing: Option<Failing>,
}

/// The calls of a device.
#[derive(Drop)]
struct DeviceCalls {
    manner: Manner,
    made: usize,
    failed: u64,
}

impl DeviceCalls {
    fn new(manner: Manner) -> Self
        ensures manner { result.manner ≡ manner }
        ensures made { result.made ≡ 0 }
        ensures failed { result.failed ≡ 0 }
    {
        DeviceCalls {
            manner,
            made: 0,
            failed: 0,
        }
    }

    /// Whether the call of this number fails.
    fn fails_at(&self, call: usize) -> bool {
        match self.manner.failing {
            Some(failing) => call == failing.call || (failing.goes_on && failing.call < call),
            None => false,
        }
    }

    /// A failure.
    fn fail(&mut self) -> DeviceFault
        ensures { self.new.failed ≡ one_more self.old.failed }
    {
        self.failed = self.failed.saturating_add(1);
        DeviceFault
    }

    /// One call more: how many bytes it moves at most, or its failure.
    fn next(&mut self) -> Result<usize, DeviceFault>
        ensures some { IfOk result (λ most. 0 < most) }
        ensures counted { CountsFailures result self.old.failed self.new.failed }
    {
        let call = self.made;
        self.made = self.made.saturating_add(1);
        if self.fails_at(call) {
            Err(self.fail())
        } else {
            Ok(self.manner.piece.max(1))
        }
    }
}

/// A sink in memory.
#[derive(Drop)]
pub struct FailingSink {
    bytes: Vec<u8>,
    calls: DeviceCalls,
}

impl FailingSink {
    /// A sink that holds nothing and that no call was made of.
    pub fn new(alloc: Global, manner: Manner) -> Self
        ensures bytes { result.bytes.items ≡ [] }
        ensures manner { result.calls.manner ≡ manner }
        ensures made { result.calls.made ≡ 0 }
        ensures failed { result.calls.failed ≡ 0 }
    {
        FailingSink {
            bytes: Vec::new(alloc),
            calls: DeviceCalls::new(manner),
        }
    }

    /// The bytes that it holds.
    pub fn bytes(&self) -> &[u8]
        ensures { result.now ≡ self.now.bytes.items }
    {
        self.bytes.as_slice()
    }

    /// Empties the sink. Its calls are still counted.
    pub fn empty(&mut self)
        ensures bytes { self.new.bytes.items ≡ [] }
        ensures calls { self.new.calls ≡ self.old.calls }
    {
        self.bytes.clear();
    }

    /// How many calls were made of it.
    pub fn calls(&self) -> usize
        ensures { result ≡ self.now.calls.made }
    {
        self.calls.made
    }
}

impl Sink for FailingSink {
    ghost use Rattle.std.specs.Prelude.{◌≡◌};

    ghost holds = { λ s bytes. s.bytes.items ≡ bytes };

    ghost failed = { λ s. s.calls.failed };

    fn put(&mut self, bytes: &[u8]) -> Result<usize, DeviceFault> {
        if bytes.is_empty() {
            return Ok(0);
        }
        let count = self.calls.next()?.min(bytes.len());
        match self.bytes.extend_from_slice(&bytes[..count]) {
            Ok(()) => Ok(count),
            Err(_) => Err(self.calls.fail()),
        }
    }

    fn failures(&self) -> u64 {
        self.calls.failed
    }
}

/// A feed of bytes in memory.
#[derive(Drop)]
pub struct FailingFeed<'a> {
    rest: &'a [u8],
    calls: DeviceCalls,
}

impl<'a> FailingFeed<'a> {
    /// A feed of these bytes that no call was made of.
    pub fn new(bytes: &'a [u8], manner: Manner) -> Self
        ensures bytes { result.rest.now ≡ bytes.now }
        ensures manner { result.calls.manner ≡ manner }
        ensures made { result.calls.made ≡ 0 }
        ensures failed { result.calls.failed ≡ 0 }
    {
        FailingFeed {
            rest: bytes,
            calls: DeviceCalls::new(manner),
        }
    }

    /// The bytes that it still holds.
    pub fn rest(&self) -> &'a [u8]
        ensures { result.now ≡ self.now.rest.now }
    {
        self.rest
    }

    /// Fills the feed with these bytes. Its calls are still counted.
    pub fn refill(&mut self, bytes: &'a [u8])
        ensures bytes { self.new.rest.now ≡ bytes.now }
        ensures calls { self.new.calls ≡ self.old.calls }
    {
        self.rest = bytes;
    }

    /// How many calls were made of it.
    pub fn calls(&self) -> usize
        ensures { result ≡ self.now.calls.made }
    {
        self.calls.made
    }
}

impl Feed for FailingFeed<'_> {
    ghost use Rattle.std.specs.Prelude.{◌≡◌};

    ghost holds = { λ s bytes. s.rest.now ≡ bytes };

    ghost failed = { λ s. s.calls.failed };

    fn take(&mut self, room: &mut [u8]) -> Result<usize, DeviceFault> {
        if room.is_empty() {
            return Ok(0);
        }
        let most = self.calls.next()?;
        let count = self.rest.len().min(room.len()).min(most);
        room[..count].copy_from_slice(&self.rest[..count]);
        self.rest = &self.rest[count..];
        Ok(count)
    }

    fn failures(&self) -> u64 {
        self.calls.failed
    }
}
