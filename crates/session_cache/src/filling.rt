//! Handing a session's file to a writer.
ghost use Rattle.std.specs.Prelude.{IfOk};
ghost use Rattle.std.specs.Io.KnownBytes.{Appends, Keeps};
ghost use Rattle.std.specs.Io.{WritesAtMost};
ghost use Rattle.std.specs.Io.Buffered.{writer_contents};
ghost use Rattle.devices.specs.Devices.{Puts};
ghost use Rattle.sessions.specs.Spelling.{file_of};

use devices::{Sink, WriterSink};
use session_file::{FileFault, write, write_by_two};
use sessions::Session;
use std::io;
use std::io::{BufWriter, ErrorKind, Write};
use std::thread::Threads;

/// Hands the session's file to the writer, and the last of it out of the buffer. If there is more than one worker, another
/// thread computes the digest at its end meanwhile. Behind a failure the writer gets no more bytes.
#[tactic(auto, using(crate::proofs::Appending::put_then_kept))]
pub fn write_to<W: Write + Drop, T: Threads>(
    threads: &T,
    buffer: BufWriter<W>,
    session: &Session,
    workers: usize,
) -> io::Result<W>
    ensures { IfOk result (λ writer. Appends (writer_contents W.contents buffer) (W.contents writer)
        (file_of session.now)) }
{
    let sink = WriterSink::new(buffer);
    let (sink, put) = if workers > 1 {
        write_by_two(threads, session, sink)
    } else {
        write_by_one(session, sink)
    };
    match put {
        Ok(()) => emptied(sink.into_writer()),
        Err(_) => Err(given_up(sink)),
    }
}

/// The sink with the session's file appended, all by this thread.
fn write_by_one<W: Sink>(session: &Session, sink: W) -> (W, Result<(), FileFault>)
    ensures { Puts (W.holds sink) (W.holds result.0) (file_of session.now) result.1 }
{
    let mut sink = sink;
    let put = write(session, &mut sink);
    (sink, put)
}

/// The writer, which has all bytes of its buffer.
fn emptied<W: Write + Drop>(buffer: BufWriter<W>) -> io::Result<W>
    ensures { IfOk result (λ writer. Keeps (writer_contents W.contents buffer) (W.contents writer)) }
{
    match buffer.into_inner() {
        Ok(writer) => Ok(writer),
        Err(failure) => {
            let (error, buffer) = failure.into_parts();
            let _unwritten = buffer.into_parts();
            Err(error)
        }
    }
}

/// Why the sink failed. What its buffer has is dropped, and not written.
fn given_up<W: Write + Drop>(sink: WriterSink<BufWriter<W>>) -> io::Error {
    let kind = sink.failure().unwrap_or(ErrorKind::Other);
    let _unwritten = sink.into_writer().into_parts();
    io::Error::from(kind)
}

/// A file that is still to be made. Until then there is nothing to write to.
#[derive(Drop)]
pub(crate) struct NewFile<F> {
    file: Option<F>,
}

impl<F> NewFile<F> {
    /// No file yet.
    pub(crate) fn new() -> Self {
        NewFile { file: None }
    }
}

impl<F: Drop> NewFile<F> {
    /// The file was made.
    pub(crate) fn set(&mut self, file: F) {
        self.file = Some(file);
    }
}

impl<F: Write> Write for NewFile<F> {
    fn write(&mut self, buf: &[u8]) -> io::Result<usize> {
        match &mut self.file {
            Some(file) => write_once_more(file, buf),
            None => Err(io::Error::from(ErrorKind::NotFound)),
        }
    }

    fn flush(&mut self) -> io::Result<()> {
        match &mut self.file {
            Some(file) => file.flush(),
            None => Ok(()),
        }
    }
}

/// One write, made once more if a signal interrupts it.
fn write_once_more<F: Write>(file: &mut F, buf: &[u8]) -> io::Result<usize>
    ensures { WritesAtMost result buf.now }
{
    match file.write(buf) {
        Err(error) if error.kind() == ErrorKind::Interrupted => file.write(buf),
        done => done,
    }
}
