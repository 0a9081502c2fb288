//! Writers and readers as devices, as files are.
ghost use Rattle.std.specs.Prelude.{◌≡◌, None};

use crate::device::{DeviceFault, Feed, Sink};
use std::io::{ErrorKind, Read, Write};

/// A writer, as a file, as a sink. A write of no bytes is a failure if there are some.
#[derive(Drop)]
pub struct WriterSink<W: Write> {
    writer: W,
    failed: u64,
    failure: Option<ErrorKind>,
}

impl<W: Write> WriterSink<W> {
    /// The sink that hands its bytes to this writer.
    pub fn new(writer: W) -> Self
        ensures writer { result.writer ≡ writer }
        ensures failed { result.failed ≡ 0 }
        ensures failure { result.failure ≡ None }
    {
        WriterSink {
            writer,
            failed: 0,
            failure: None,
        }
    }

    /// The kind of the last failure, if there was one; `WriteZero` of a write that took no bytes.
    pub fn failure(&self) -> Option<ErrorKind>
        ensures { result ≡ self.now.failure }
    {
        self.failure
    }

    /// The writer, which has the bytes that the sink took.
    pub fn into_writer(self) -> W
        ensures { result ≡ self.writer }
    {
        self.writer
    }
}

impl<W: Write> Sink for WriterSink<W> {
    ghost use Rattle.std.specs.Prelude.{◌≡◌, Some};

    ghost holds = { λ s bytes. W.contents s.writer ≡ Some bytes };

    ghost failed = { λ s. s.failed };

    fn put(&mut self, bytes: &[u8]) -> Result<usize, DeviceFault> {
        if bytes.is_empty() {
            return Ok(0);
        }
        let failure = match self.writer.write(bytes) {
            Ok(count) if count > 0 => return Ok(count),
            Ok(_) => ErrorKind::WriteZero,
            Err(error) => error.kind(),
        };
        self.failed = self.failed.saturating_add(1);
        self.failure = Some(failure);
        Err(DeviceFault)
    }

    fn failures(&self) -> u64 {
        self.failed
    }
}

/// A reader, as a file, as a feed.
#[derive(Drop)]
pub struct ReaderFeed<R: Read> {
    reader: R,
    failed: u64,
}

impl<R: Read> ReaderFeed<R> {
    /// The feed that has its bytes from this reader.
    pub fn new(reader: R) -> Self
        ensures reader { result.reader ≡ reader }
        ensures failed { result.failed ≡ 0 }
    {
        ReaderFeed { reader, failed: 0 }
    }
}

impl<R: Read> Feed for ReaderFeed<R> {
    ghost use Rattle.std.specs.Prelude.{◌≡◌, Some};

    ghost holds = { λ s bytes. R.remaining s.reader ≡ Some bytes };

    ghost failed = { λ s. s.failed };

    fn take(&mut self, room: &mut [u8]) -> Result<usize, DeviceFault> {
        if room.is_empty() {
            return Ok(0);
        }
        match self.reader.read(room) {
            Ok(count) => Ok(count),
            Err(_) => {
                self.failed = self.failed.saturating_add(1);
                Err(DeviceFault)
            }
        }
    }

    fn failures(&self) -> u64 {
        self.failed
    }
}
