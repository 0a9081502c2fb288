//! Memory as a device.
ghost use Rattle.std.specs.Prelude.{◌≡◌, []};

use crate::device::{DeviceFault, Feed, Sink};
use std::alloc::Global;

/// A sink that keeps its bytes in memory. It fails if memory runs out.
#[derive(Drop)]
pub struct MemorySink {
    bytes: Vec<u8>,
    failed: u64,
}

impl MemorySink {
    /// A sink that holds nothing.
    pub fn new(alloc: Global) -> Self
        ensures bytes { result.bytes.items ≡ [] }
        ensures failed { result.failed ≡ 0 }
    {
        MemorySink {
            bytes: Vec::new(alloc),
            failed: 0,
        }
    }

    /// The bytes that it holds.
    pub fn bytes(&self) -> &[u8]
        ensures { result.now ≡ self.now.bytes.items }
    {
        self.bytes.as_slice()
    }
}

impl Sink for MemorySink {
    ghost use Rattle.std.specs.Prelude.{◌≡◌};

    ghost holds = { λ s bytes. s.bytes.items ≡ bytes };

    ghost failed = { λ s. s.failed };

    fn put(&mut self, bytes: &[u8]) -> Result<usize, DeviceFault> {
        if bytes.is_empty() {
            return Ok(0);
        }
        match self.bytes.extend_from_slice(bytes) {
            Ok(()) => Ok(bytes.len()),
            Err(_) => {
                self.failed = self.failed.saturating_add(1);
                Err(DeviceFault)
            }
        }
    }

    fn failures(&self) -> u64 {
        self.failed
    }
}

/// A feed of bytes that are in memory. It never fails.
#[derive(Drop)]
pub struct MemoryFeed<'a> {
    rest: &'a [u8],
}

impl<'a> MemoryFeed<'a> {
    /// A feed of these bytes.
    pub fn new(bytes: &'a [u8]) -> Self
        ensures { result.rest.now ≡ bytes.now }
    {
        MemoryFeed { rest: bytes }
    }

    /// The bytes that it still holds.
    pub fn rest(&self) -> &'a [u8]
        ensures { result.now ≡ self.now.rest.now }
    {
        self.rest
    }
}

impl Feed for MemoryFeed<'_> {
    ghost use Rattle.std.specs.Prelude.{◌≡◌};

    ghost holds = { λ s bytes. s.rest.now ≡ bytes };

    ghost failed = { λ s. 0 };

    fn take(&mut self, room: &mut [u8]) -> Result<usize, DeviceFault> {
        if room.is_empty() {
            return Ok(0);
        }
        let count = self.rest.len().min(room.len());
        room[..count].copy_from_slice(&self.rest[..count]);
        self.rest = &self.rest[count..];
        Ok(count)
    }

    fn failures(&self) -> u64 {
        0
    }
}
