//! Handing texts over to the caller, in its buffers.
ghost use Rattle.std.specs.Prelude.{◌≡◌, ◌≢◌, ◌≤◌, [], length};
ghost use Rattle.linkable.specs.Handing.{IsHandedOver, IsSessionHandedOver, buffers, written};
ghost use Rattle.linkable.specs.Telling.{session_told_of, text_alone, told_of};

use crate::told::{Ending, Told, ToldSession};

/// How a call ended, and how many bytes its texts have.
#[repr(C)]
#[derive(Clone, Copy)]
pub struct Outcome {
    /// The program's exit status, or 5 if a buffer is too small.
    pub status: u32,
    /// How many bytes the text for `out` has.
    pub out_length: usize,
    /// How many bytes the text for `err` has.
    pub err_length: usize,
}

impl Outcome {
    /// Memory ran out, and nothing is written.
    pub(crate) fn out_of_memory() -> Outcome
        ensures status { result.status ≡ 4 }
        ensures out_length { result.out_length ≡ 0 }
        ensures err_length { result.err_length ≡ 0 }
    {
        Outcome {
            status: 4,
            out_length: 0,
            err_length: 0,
        }
    }

    // A buffer is too small for its text, and nothing is written.
    fn too_small(out_length: usize, err_length: usize) -> Outcome
        ensures status { result.status ≡ 5 }
        ensures out_length { result.out_length ≡ out_length }
        ensures err_length { result.err_length ≡ err_length }
    {
        Outcome {
            status: 5,
            out_length,
            err_length,
        }
    }
}

/// How a call that makes a session ended, and how many bytes its file and its texts have.
#[repr(C)]
#[derive(Clone, Copy)]
pub struct SessionOutcome {
    /// The program's exit status, or 5 if a buffer is too small.
    pub status: u32,
    /// How many bytes the session's file has.
    pub session_length: usize,
    /// How many bytes the text for `out` has.
    pub out_length: usize,
    /// How many bytes the text for `err` has.
    pub err_length: usize,
}

impl SessionOutcome {
    /// Memory ran out, and nothing is written.
    pub(crate) fn out_of_memory() -> SessionOutcome
        ensures status { result.status ≡ 4 }
        ensures session_length { result.session_length ≡ 0 }
        ensures out_length { result.out_length ≡ 0 }
        ensures err_length { result.err_length ≡ 0 }
    {
        SessionOutcome {
            status: 4,
            session_length: 0,
            out_length: 0,
            err_length: 0,
        }
    }

    // What is reported ends with this status.
    fn of(told: &ToldSession, status: u32) -> SessionOutcome
        ensures status { result.status ≡ status }
        ensures session_length { result.session_length ≡ length (session_told_of told.now).session }
        ensures out_length { result.out_length ≡ length (session_told_of told.now).texts.answer }
        ensures err_length { result.err_length ≡ length (session_told_of told.now).texts.notes }
    {
        SessionOutcome {
            status,
            session_length: told.file.bytes().len(),
            out_length: told.texts.answer.len(),
            err_length: told.texts.notes.len(),
        }
    }
}

/// Writes each text at the front of its buffer. If a buffer is too small for its text neither is written.
#[tactic(auto, using(crate::proofs::Buffers::none_written, crate::proofs::Buffers::both_written, crate::proofs::Buffers::other_status))]
pub(crate) fn hand_over(told: &Told, out: &mut [u8], err: &mut [u8]) -> Outcome
    ensures handed { IsHandedOver (told_of told.now) result out.old out.new err.old err.new }
    ensures other { result.status ≢ 4 }
{
    let (out_length, err_length) = (told.answer.len(), told.notes.len());
    if out.len() < out_length {
        return Outcome::too_small(out_length, err_length);
    }
    if err.len() < err_length {
        return Outcome::too_small(out_length, err_length);
    }
    write_at_front(out, told.answer.as_bytes());
    write_at_front(err, told.notes.as_bytes());
    Outcome {
        status: told.ending.status(),
        out_length,
        err_length,
    }
}

/// Writes the file and each text at the front of its buffer. If a buffer is too small none of them is written.
#[tactic(auto, using(crate::proofs::Buffers::no_session_written, crate::proofs::Buffers::all_are_written, crate::proofs::Buffers::other_status))]
pub(crate) fn hand_over_session(
    told: &ToldSession,
    session: &mut [u8],
    out: &mut [u8],
    err: &mut [u8],
) -> SessionOutcome
    ensures handed { IsSessionHandedOver (session_told_of told.now) result
        (buffers session.old out.old err.old) (buffers session.new out.new err.new) }
    ensures other { result.status ≢ 4 }
{
    let (file, answer, notes) = (
        told.file.bytes(),
        told.texts.answer.as_bytes(),
        told.texts.notes.as_bytes(),
    );
    if session.len() < file.len() {
        return SessionOutcome::of(told, 5);
    }
    if out.len() < answer.len() {
        return SessionOutcome::of(told, 5);
    }
    if err.len() < notes.len() {
        return SessionOutcome::of(told, 5);
    }
    write_at_front(session, file);
    write_at_front(out, answer);
    write_at_front(err, notes);
    SessionOutcome::of(told, told.texts.ending.status())
}

/// Writes one text at the front of its buffer, unless that is too small.
#[tactic(auto, using(crate::proofs::Buffers::none_written, crate::proofs::Buffers::both_written))]
pub(crate) fn hand_over_text(text: &str, out: &mut [u8]) -> Outcome
    ensures { IsHandedOver (text_alone text.now) result out.old out.new [] [] }
{
    if out.len() < text.len() {
        return Outcome::too_small(text.len(), 0);
    }
    write_at_front(out, text.as_bytes());
    Outcome {
        status: Ending::Clean.status(),
        out_length: text.len(),
        err_length: 0,
    }
}

// Writes bytes at the front of a buffer.
fn write_at_front(buffer: &mut [u8], bytes: &[u8])
    requires { length bytes.now ≤ length buffer.old }
    ensures { buffer.new ≡ written bytes.now buffer.old }
{
    buffer[..bytes.len()].copy_from_slice(bytes);
}
