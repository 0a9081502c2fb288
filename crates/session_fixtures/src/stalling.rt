//! Writers that take a few bytes a call, and then none.
ghost use Rattle.std.specs.Prelude.{◌≡◌, []};

use std::alloc::Global;
use std::io;
use std::io::Write;

/// A writer in memory that takes a few bytes in a call at most, so many together, and from then on none, without an error.
#[derive(Drop)]
pub struct StallingWriter {
    bytes: Vec<u8>,
    most: usize,
    room: usize,
}

impl StallingWriter {
    /// A writer that holds nothing, takes at most so many bytes in a call, and has room for so many.
    pub fn new(alloc: Global, most: usize, room: usize) -> Self
        ensures bytes { result.bytes.items ≡ [] }
        ensures most { result.most ≡ most }
        ensures room { result.room ≡ room }
    {
        StallingWriter {
            bytes: Vec::new(alloc),
            most,
            room,
        }
    }

    /// The bytes that it holds.
    pub fn bytes(&self) -> &[u8]
        ensures { result.now ≡ self.now.bytes.items }
    {
        self.bytes.as_slice()
    }
}

impl Write for StallingWriter {
    ghost use Rattle.std.specs.Prelude.{◌≡◌, Some, IfOk, length, min};
    ghost use Rattle.std.specs.Io.{WritesAtMost};
    ghost use Rattle.std.specs.Io.KnownBytes.{WriteAppends};

    ghost contents = { λ w. Some w.bytes.items };

    fn write(&mut self, buf: &[u8]) -> io::Result<usize>
        ensures bound { WritesAtMost result buf.now }
        ensures bytes { WriteAppends (Some self.old.bytes.items) (Some self.new.bytes.items)
            result buf.now }
        ensures count { IfOk result (λ n.
            n ≡ min (min self.old.most self.old.room) (length buf.now)) }
    {
        let count = self.most.min(self.room).min(buf.len());
        self.bytes.extend_from_slice(&buf[..count])?;
        self.room -= count;
        Ok(count)
    }

    fn flush(&mut self) -> io::Result<()> {
        Ok(())
    }
}
