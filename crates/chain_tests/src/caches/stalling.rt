//! Files over writers that take a few bytes a call, and then none, without an error.

use crate::caches::first::first;
use devices::{Sink, WriterSink};
use session_file::FileFault;
use session_fixtures::{StallingWriter, file_of, write_to};
use std::alloc::Global;
use std::test::*;

/// How many bytes a writer takes in one call at most.
const MOST: [usize; 3] = [1, 7, 5000];

/// Whether the file is written to the writer, or the sink fails once if there is no room for all of it.
fn ends(alloc: Global, writer: &mut StallingWriter, is_whole: bool) -> bool {
    let mut sink = WriterSink::new(writer);
    match write_to(alloc, first(), &mut sink) {
        Ok(Ok(())) => is_whole && sink.failures() == 0,
        Ok(Err(fault)) => !is_whole && fault == FileFault::Device && sink.failures() == 1,
        Err(_) => false,
    }
}

/// Whether a writer with room for so many bytes gets as much of the file, and the write succeeds just if all fits.
fn is_filled(alloc: Global, file: &[u8], most: usize, room: usize) -> bool {
    let mut writer = StallingWriter::new(alloc, most, room);
    let is_ended = ends(alloc, &mut writer, file.len() <= room);
    is_ended && file.get(..room.min(file.len())) == Some(writer.bytes())
}

/// Whether this is so of each room, from none to one that is more than enough.
fn are_filled(alloc: Global, file: &[u8], most: usize) -> bool {
    (0..=file.len().saturating_add(1)).all(|room| is_filled(alloc, file, most, room))
}

#[test]
fn a_writer_stalls_after_each_byte(rt: HostRuntime) -> Result<(), Fail> {
    let file = file_of(rt.alloc(), first()).ok().ok_or("a file")?;
    assert!(rt; file.bytes().len() == 1192);
    for most in MOST {
        assert!(rt; are_filled(rt.alloc(), file.bytes(), most), "{most}");
    }
    Ok(())
}

/// A writer that takes nothing from the beginning has failed too.
#[test]
fn a_writer_takes_nothing(rt: HostRuntime) {
    let mut writer = StallingWriter::new(rt.alloc(), 0, 5000);
    assert!(rt; ends(rt.alloc(), &mut writer, false));
    assert!(rt; writer.bytes().is_empty());
}
