//! Sessions to files.
ghost use Rattle.std.specs.Prelude.{◌≡◌, ◌≤◌, ◌++◌, length, flat_map, IfErr};
ghost use Rattle.std.specs.Option.{option_copied};
ghost use Rattle.sha2.specs.Hashers.{Holds256};
ghost use Rattle.sha2.specs.Sha256.{sha256};
ghost use Rattle.item_ids.specs.Kinds.{text_of};
ghost use Rattle.ordered_names.specs.Names.{most_name_bytes};
ghost use Rattle.byte_readers.specs.Spelling.{eight};
ghost use Rattle.sessions.specs.Spelling.{body_bytes, digest_of, file_of, head_bytes, record_bytes, result_bytes, start, told_bytes};
ghost use Rattle.devices.specs.Devices.{CountsFailures, Puts};
ghost use Rattle.session_file.specs.Parts.{front_bytes};

use crate::fault::FileFault;
use byte_readers::{eight_bytes, four_bytes};
use devices::{DeviceFault, HashingSink, Sink, put_all, put_parts};
use fingerprint::Sealed;
use ordered_names::Name;
use sessions::{Form, Mark, Record, Session, Terms};
use std::thread::{Threads, join};

/// Appends the session's file; if the sink fails it has a beginning of the file. Only the sink takes memory.
pub fn write<W: Sink>(session: &Session, sink: &mut W) -> Result<(), FileFault>
    ensures holds { Puts (W.holds sink.old) (W.holds sink.new) (file_of session.now) result }
    ensures device { IfErr result (λ fault. fault ≡ FileFault.Device) }
    ensures counted { CountsFailures result (W.failed sink.old) (W.failed sink.new) }
{
    let end = hashed_body(session).digest();
    match put_file(sink, session, &end) {
        Ok(()) => Ok(()),
        Err(_) => Err(FileFault::Device),
    }
}

/// Appends the session's file as `write` does, while another thread computes the digest at its end. Only the sink and that
/// thread take memory; if none can be made, this thread computes the digest behind the rest.
pub fn write_by_two<W: Sink + Drop, T: Threads>(
    threads: &T,
    session: &Session,
    sink: W,
) -> (W, Result<(), FileFault>)
    ensures holds { Puts (W.holds sink) (W.holds result.0) (file_of session.now) result.1 }
    ensures device { IfErr result.1 (λ fault. fault ≡ FileFault.Device) }
    ensures counted { CountsFailures result.1 (W.failed sink) (W.failed result.0) }
{
    let hashing = || -> [u8; 32]
        ensures { result ≡ sha256 (body_bytes session.entry.now) }
    { end_of(session) };
    let writing = move || -> (W, Result<(), DeviceFault>)
        ensures holds { Puts (W.holds sink) (W.holds result.0) (body_bytes session.entry.now)
            result.1 }
        ensures counted { CountsFailures result.1 (W.failed sink) (W.failed result.0) }
    { with_body(sink, session) };
    let (end, body) = join(threads, hashing, writing);
    match body {
        (sink, Ok(())) => with_end(sink, &end),
        (sink, Err(_)) => (sink, Err(FileFault::Device)),
    }
}

/// The digest at the end of the session's file.
fn end_of(session: &Session) -> [u8; 32]
    ensures { result ≡ sha256 (body_bytes session.now) }
{
    hashed_body(session).digest()
}

/// The sink with all but the digest at the end appended.
fn with_body<W: Sink>(sink: W, session: &Session) -> (W, Result<(), DeviceFault>)
    ensures holds { Puts (W.holds sink) (W.holds result.0) (body_bytes session.now) result.1 }
    ensures counted { CountsFailures result.1 (W.failed sink) (W.failed result.0) }
{
    let mut sink = sink;
    let put = put_body(&mut sink, session);
    (sink, put)
}

/// The sink with the digest appended.
fn with_end<W: Sink>(sink: W, end: &[u8; 32]) -> (W, Result<(), FileFault>)
    ensures holds { Puts (W.holds sink) (W.holds result.0) end.now result.1 }
    ensures device { IfErr result.1 (λ fault. fault ≡ FileFault.Device) }
    ensures counted { CountsFailures result.1 (W.failed sink) (W.failed result.0) }
{
    let mut sink = sink;
    match put_all(&mut sink, end.as_slice()) {
        Ok(()) => (sink, Ok(())),
        Err(_) => (sink, Err(FileFault::Device)),
    }
}

/// The SHA-256 of the session's file: the one that was kept when it was read, else computed. It takes no memory.
pub fn digest(session: &Session) -> [u8; 32]
    ensures { result ≡ digest_of session.now }
{
    match session.known_digest() {
        Some(known) => known,
        None => hashed_file(session),
    }
}

/// The SHA-256 of the session's file, for which its records are walked.
fn hashed_file(session: &Session) -> [u8; 32]
    ensures { result ≡ digest_of session.now }
{
    let mut hash = hashed_body(session);
    let _end = hash.close();
    hash.digest()
}

/// The hash of all but the digest at the end.
fn hashed_body(session: &Session) -> HashingSink
    ensures { Holds256 result.hasher (body_bytes session.now) }
{
    let mut hash = HashingSink::new();
    match put_body(&mut hash, session) {
        Ok(()) => hash,
        Err(_) => unreachable!(),
    }
}

/// Appends the body, and the digest at the end.
fn put_file<W: Sink>(sink: &mut W, session: &Session, end: &[u8; 32]) -> Result<(), DeviceFault>
    ensures holds { Puts (W.holds sink.old) (W.holds sink.new)
        (body_bytes session.now ++ end.now) result }
    ensures counted { CountsFailures result (W.failed sink.old) (W.failed sink.new) }
{
    match put_body(sink, session) {
        Ok(()) => put_all(sink, end.as_slice()),
        Err(fault) => Err(fault),
    }
}

/// Appends all but the digest at the end.
fn put_body<W: Sink>(sink: &mut W, session: &Session) -> Result<(), DeviceFault>
    ensures holds { Puts (W.holds sink.old) (W.holds sink.new) (body_bytes session.now) result }
    ensures counted { CountsFailures result (W.failed sink.old) (W.failed sink.new) }
{
    match put_head(sink, session) {
        Ok(()) => put_records(sink, session.terms().form, session.records()),
        Err(fault) => Err(fault),
    }
}

/// Appends what stands before the records.
fn put_head<W: Sink>(sink: &mut W, session: &Session) -> Result<(), DeviceFault>
    ensures holds { Puts (W.holds sink.old) (W.holds sink.new) (head_bytes session.now) result }
    ensures counted { CountsFailures result (W.failed sink.old) (W.failed sink.new) }
{
    let start = start_of(session.terms());
    let number = four_bytes(session.number());
    let count = eight_bytes(session.records().len() as u64);
    put_parts(
        sink,
        &[
            start.as_slice(),
            number.as_slice(),
            session.link().as_slice(),
            count.as_slice(),
        ],
    )
}

/// What a file of these terms begins with: `MJRG`, and the two bytes of the version.
pub(crate) fn start_of(terms: Terms) -> [u8; 6]
    ensures { result ≡ start terms }
{
    let form = terms.form.number();
    let profile = terms.profile.number();
    [0x4d, 0x4a, 0x52, 0x47, form, profile]
}

/// Appends the records.
fn put_records<W: Sink>(sink: &mut W, form: Form, records: &[Record]) -> Result<(), DeviceFault>
    ensures holds { Puts (W.holds sink.old) (W.holds sink.new)
        (flat_map (record_bytes form) records.now) result }
    ensures counted { CountsFailures result (W.failed sink.old) (W.failed sink.new) }
{
    for item in records {
        match put_record(sink, form, item) {
            Ok(()) => {}
            Err(fault) => return Err(fault),
        }
    }
    Ok(())
}

/// Appends a record.
fn put_record<W: Sink>(sink: &mut W, form: Form, item: &Record) -> Result<(), DeviceFault>
    ensures holds { Puts (W.holds sink.old) (W.holds sink.new) (record_bytes form item.now) result }
    ensures counted { CountsFailures result (W.failed sink.old) (W.failed sink.new) }
{
    match put_front(sink, item) {
        Ok(()) => put_rest(sink, form, item),
        Err(fault) => Err(fault),
    }
}

/// Appends the key, the mark and the number of edges.
fn put_front<W: Sink>(sink: &mut W, item: &Record) -> Result<(), DeviceFault>
    ensures holds { Puts (W.holds sink.old) (W.holds sink.new) (front_bytes item.now) result }
    ensures counted { CountsFailures result (W.failed sink.old) (W.failed sink.new) }
{
    let class = text(item.key().class());
    let member = text(item.key().member());
    let count = eight_bytes(item.edges().len() as u64);
    put_parts(
        sink,
        &[
            [item.key().kind().number()].as_slice(),
            [class.len() as u8].as_slice(),
            class,
            [member.len() as u8].as_slice(),
            member,
            [item.mark().number()].as_slice(),
            count.as_slice(),
        ],
    )
}

/// The bytes of a name that may be missing.
fn text(name: Option<&Name>) -> &[u8]
    ensures value { result.now ≡ text_of (option_copied name.entry) }
    ensures short { length result.now ≤ most_name_bytes }
{
    match name {
        Some(name) => name.bytes(),
        None => &[],
    }
}

/// Appends the edges, and what the record ends with.
fn put_rest<W: Sink>(sink: &mut W, form: Form, item: &Record) -> Result<(), DeviceFault>
    ensures holds { Puts (W.holds sink.old) (W.holds sink.new)
        (flat_map eight item.now.edges ++ told_bytes form item.now.mark item.now.value) result }
    ensures counted { CountsFailures result (W.failed sink.old) (W.failed sink.new) }
{
    match put_edges(sink, item.edges()) {
        Ok(()) => put_told(sink, form, item.mark(), item.sealed()),
        Err(fault) => Err(fault),
    }
}

/// Appends what a record of this mark ends with.
#[tactic(auto, unfolding(sessions::specs::Spelling::told_bytes))]
fn put_told<W: Sink>(
    sink: &mut W,
    form: Form,
    mark: Mark,
    sealed: &Sealed,
) -> Result<(), DeviceFault>
    ensures holds { Puts (W.holds sink.old) (W.holds sink.new) (told_bytes form mark sealed.now)
        result }
    ensures counted { CountsFailures result (W.failed sink.old) (W.failed sink.new) }
{
    if form.ends_with_print(mark) {
        put_all(sink, sealed.print().0.as_slice())
    } else {
        put_result(sink, sealed)
    }
}

/// Appends the edges.
fn put_edges<W: Sink>(sink: &mut W, edges: &[usize]) -> Result<(), DeviceFault>
    ensures holds { Puts (W.holds sink.old) (W.holds sink.new) (flat_map eight edges.now) result }
    ensures counted { CountsFailures result (W.failed sink.old) (W.failed sink.new) }
{
    for edge in edges {
        let bytes = eight_bytes(*edge as u64);
        match put_all(sink, bytes.as_slice()) {
            Ok(()) => {}
            Err(fault) => return Err(fault),
        }
    }
    Ok(())
}

/// Appends the fingerprint of a result, the number of its bytes, and its bytes.
fn put_result<W: Sink>(sink: &mut W, sealed: &Sealed) -> Result<(), DeviceFault>
    ensures holds { Puts (W.holds sink.old) (W.holds sink.new) (result_bytes sealed.now) result }
    ensures counted { CountsFailures result (W.failed sink.old) (W.failed sink.new) }
{
    let print = sealed.print().0;
    let len = eight_bytes(sealed.bytes().len() as u64);
    put_parts(sink, &[print.as_slice(), len.as_slice(), sealed.bytes()])
}
