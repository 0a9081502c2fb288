//! Why files are no project, in words.
ghost use Rattle.std.specs.Prelude.{◌≡◌, ◌≢◌, IfOk, string_bytes};
ghost use Rattle.mj_rules.specs.AnswerWords.{OutOfMemory};
ghost use Rattle.commands.specs.Refusals.{refusal_words};

use mj_rules::ProjectFault;
use std::alloc::{AllocError, Global};

/// A refusal of the files, with its number, its name and its argument. Out of memory has no text.
pub fn refusal_text(alloc: Global, fault: ProjectFault) -> Result<String, AllocError>
    ensures text { IfOk result (λ text. string_bytes text ≡ refusal_words fault) }
    ensures other { IfOk result (λ _. fault ≢ OutOfMemory) }
{
    match fault {
        ProjectFault::RepeatedFile(file) => {
            format!(in alloc; "refused: 3.1 RepeatedFile({file})\n")
        }
        ProjectFault::NoFiles => String::from_str(alloc, "refused: 3.2 NoFiles\n"),
        ProjectFault::TooManyFiles => String::from_str(alloc, "refused: 3.3 TooManyFiles\n"),
        ProjectFault::BadFileName(file) => {
            format!(in alloc; "refused: 3.4 BadFileName({file})\n")
        }
        ProjectFault::OutOfMemory => Err(AllocError),
    }
}
