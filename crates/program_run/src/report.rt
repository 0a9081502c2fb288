//! What a run writes, all of it made before the first byte is written.
ghost use Rattle.std.specs.Prelude.{◌≡◌, ◌⊎◌, [], OnOk, codes, string_bytes};
ghost use Rattle.std.specs.Io.KnownBytes.{Appends};
ghost use Rattle.std.specs.IoError.{error_kind};
ghost use Rattle.program_run.specs.Endings.{accepted_report, answer_report, status_of_answer};
ghost use Rattle.program_run.specs.Runs.{IsWritten, status_number};

use commands::{AnswerTexts, AuditTexts};
use std::alloc::Global;
use std::io;
use std::io::{ErrorKind, Write};

/// How a run ends. The numbers are the program's exit statuses.
#[derive(Clone, Copy, Debug, PartialEq, Eq)]
pub enum Status {
    /// There is no diagnostic, the chain is accepted, the session is shown, or help was asked for.
    Clean = 0,
    /// The answer has diagnostics.
    Diagnostics = 1,
    /// The command line, the project or the session file is refused, or a file or a stream can't be used.
    Refused = 2,
    /// The chain is refused.
    ChainRefused = 3,
    /// Memory ran out.
    OutOfMemory = 4,
}

impl Status {
    /// The end of a run with an answer, which has a diagnostic or none.
    fn of_answer(clean: bool) -> Status
        ensures { result ≡ status_of_answer clean }
    {
        if clean {
            Status::Clean
        } else {
            Status::Diagnostics
        }
    }

    /// The exit status.
    pub fn number(self) -> u8
        ensures { result ≡ status_number self }
    {
        self as u8
    }
}

/// The texts of a run and its end.
#[derive(Drop)]
pub struct Report {
    /// What goes to standard error.
    pub notes: String,
    /// What goes to standard output.
    pub answer: String,
    pub status: Status,
}

impl Report {
    /// An answer.
    pub fn on_answer(texts: AnswerTexts) -> Self
        ensures { result ≡ answer_report texts }
    {
        let AnswerTexts {
            notes,
            answer,
            clean,
        } = texts;
        Report {
            notes,
            answer,
            status: Status::of_answer(clean),
        }
    }

    /// An accepted chain.
    pub fn on_chain(texts: AuditTexts) -> Self
        ensures { result ≡ accepted_report texts }
    {
        let AuditTexts { notes, answer } = texts;
        Report {
            notes,
            answer,
            status: Status::Clean,
        }
    }

    /// What was asked for.
    pub fn clean(alloc: Global, text: String) -> Self
        ensures notes { string_bytes result.notes ≡ [] }
        ensures answer { string_bytes result.answer ≡ string_bytes text }
        ensures status { result.status ≡ Status.Clean }
    {
        Report {
            notes: String::new(alloc),
            answer: text,
            status: Status::Clean,
        }
    }

    /// Why there is no answer.
    pub fn refusal(alloc: Global, text: String) -> Self
        ensures notes { string_bytes result.notes ≡ string_bytes text }
        ensures answer { string_bytes result.answer ≡ [] }
        ensures status { result.status ≡ Status.Refused }
    {
        Report {
            notes: text,
            answer: String::new(alloc),
            status: Status::Refused,
        }
    }

    /// Why the chain is refused.
    pub fn chain_refusal(alloc: Global, text: String) -> Self
        ensures notes { string_bytes result.notes ≡ string_bytes text }
        ensures answer { string_bytes result.answer ≡ [] }
        ensures status { result.status ≡ Status.ChainRefused }
    {
        Report {
            notes: text,
            answer: String::new(alloc),
            status: Status::ChainRefused,
        }
    }
}

/// Writes the notes, and then the answer. If one of them can't be written the run is refused.
pub(crate) fn deliver<W: Write, E: Write>(report: &Report, out: &mut W, err: &mut E) -> Status
    ensures { (result ≡ Status.Refused)
        ⊎ ((result ≡ report.now.status)
        × IsWritten report.now (W.contents out.old) (W.contents out.new)
        (E.contents err.old) (E.contents err.new)) }
{
    if write(err, report.notes.as_bytes()).is_err() {
        return Status::Refused;
    }
    if write(out, report.answer.as_bytes()).is_err() {
        let _ = write(err, b"cannot write standard output\n");
        return Status::Refused;
    }
    report.status
}

/// Says that memory ran out, for which it takes none. If that can't be written the run is refused.
pub(crate) fn no_memory<E: Write>(err: &mut E) -> Status
    ensures { (result ≡ Status.Refused)
        ⊎ ((result ≡ Status.OutOfMemory)
        × Appends (E.contents err.old) (E.contents err.new) (codes "out of memory\n")) }
{
    match write(err, b"out of memory\n") {
        Ok(()) => Status::OutOfMemory,
        Err(_) => Status::Refused,
    }
}

/// Says why the system handed over no command line.
pub fn no_words<E: Write>(error: &io::Error, err: &mut E) -> Status
    ensures { (result ≡ Status.Refused)
        ⊎ ((result ≡ Status.OutOfMemory) × (error_kind error.now ≡ ErrorKind.OutOfMemory)
        × Appends (E.contents err.old) (E.contents err.new) (codes "out of memory\n")) }
{
    if error.kind() == ErrorKind::OutOfMemory {
        return no_memory(err);
    }
    let _ = write(err, b"error: an argument isn't UTF-8\n");
    Status::Refused
}

// Writes and flushes.
#[tactic(auto, using(session_cache::proofs::Appending::kept_behind))]
pub(crate) fn write<W: Write>(writer: &mut W, bytes: &[u8]) -> io::Result<()>
    ensures { OnOk result (Appends (W.contents writer.old) (W.contents writer.new) bytes.now) }
{
    writer.write_all(bytes)?;
    writer.flush()
}
