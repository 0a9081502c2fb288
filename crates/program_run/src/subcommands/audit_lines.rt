//! The line on a file that an audit takes.
ghost use Rattle.std.specs.Prelude.{◌≡◌, IfOk, string_bytes};
ghost use Rattle.program_run.specs.Audits.{progress_line};

use commands::counts_text;
use sessions::Session;
use std::alloc::{AllocError, Global};
use std::fmt::Write;

/// The line on the session of a file that was taken.
pub(crate) fn progress_text(
    alloc: Global,
    name: &str,
    session: &Session,
) -> Result<String, AllocError>
    ensures { IfOk result (λ text. string_bytes text ≡ progress_line name.now session.now) }
{
    let number = session.number();
    let counts = counts_text(alloc, session)?;
    let mut text = String::new(alloc);
    writeln!(text, "{name}: session {number}, {counts}")?;
    Ok(text)
}
