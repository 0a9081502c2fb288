//! The lines of a run that is refused.
ghost use Rattle.std.specs.Prelude.{◌≡◌, IfOk, string_bytes};
ghost use Rattle.session_text.specs.FaultWords.{fault_words};
ghost use Rattle.commands.specs.Refusals.{refused_line};
ghost use Rattle.program_run.specs.Endings.{status_of_failure};
ghost use Rattle.program_run.specs.Refusals.{no_record_line, unreadable_line, unwritten_line};
ghost use Rattle.program_run.specs.declared.failure.Failure.TheVariants as failure;
ghost use Rattle.program_run.specs.declared.report.Status.TheVariants as status;

use session_file::FileFault;
use session_text::write_fault;
use std::alloc::{AllocError, Global};

/// What is said of a file or folder that can't be read.
pub(crate) fn unreadable(alloc: Global, name: &str) -> Result<String, AllocError>
    ensures { IfOk result (λ text. string_bytes text ≡ unreadable_line name.now) }
{
    format!(in alloc; "cannot read {name}\n")
}

/// What is said, behind the notes, of a file or folder that can't be written.
pub(crate) fn unwritten(alloc: Global, notes: &str, path: &str) -> Result<String, AllocError>
    ensures { IfOk result (λ text. string_bytes text ≡ unwritten_line notes.now path.now) }
{
    format!(in alloc; "{notes}cannot write {path}\n")
}

/// What is said of a key of which the session has no record.
pub(crate) fn no_record(alloc: Global, key: &str) -> Result<String, AllocError>
    ensures { IfOk result (λ text. string_bytes text ≡ no_record_line key.now) }
{
    format!(in alloc; "no record {key}\n")
}

/// Why a file is that of no session. Out of memory has no text.
pub(crate) fn file_refusal(alloc: Global, fault: FileFault) -> Result<String, AllocError>
    ensures text { IfOk result (λ text. string_bytes text ≡ refused_line (fault_words fault)) }
    ensures refused { IfOk result (λ _.
        status_of_failure (failure.SessionFile fault) ≡ status.Refused) }
{
    let mut text = String::from_str(alloc, "refused: ")?;
    write_fault(&mut text, fault)?;
    text.push_str("\n")?;
    Ok(text)
}
