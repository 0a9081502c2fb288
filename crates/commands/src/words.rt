//! The lines about a session, and about a file that it doesn't follow.
ghost use Rattle.std.specs.Prelude.{◌≡◌, IfOk, string_bytes};
ghost use Rattle.session_cache.specs.Starts.{IsSessionPlace};
ghost use Rattle.commands.specs.Lines.{IsNotFollowedText, IsNoteText, counts_of, summary_line, summary_with};

use session_cache::{NotFollowed, Note};
use session_file::FileFault;
use session_text::write_fault;
use sessions::{Mark, Session};
use std::alloc::{AllocError, Global};
use std::fmt::Write;

/// The line on a session's file that no session follows, in the cache of this folder.
pub fn note_text(alloc: Global, dir: &str, note: Note) -> Result<String, AllocError>
    requires { IsSessionPlace note.place }
    ensures { IfOk result (λ text. IsNoteText dir.now note (string_bytes text)) }
{
    let path = note.place.path(alloc, dir)?;
    let why = not_followed_text(alloc, note.why)?;
    let mut text = String::new(alloc);
    writeln!(text, "note: {path} {why}")?;
    Ok(text)
}

/// Why no session follows.
fn not_followed_text(alloc: Global, why: NotFollowed) -> Result<String, AllocError>
    ensures { IfOk result (λ text. IsNotFollowedText why (string_bytes text)) }
{
    match why {
        NotFollowed::Refused(fault) => refused_text(alloc, fault),
        NotFollowed::Number => String::from_str(alloc, "refused: number"),
        NotFollowed::Full => String::from_str(alloc, "full"),
    }
}

/// A refusal of a session's file.
fn refused_text(alloc: Global, fault: FileFault) -> Result<String, AllocError>
    ensures { IfOk result (λ text. IsNotFollowedText (NotFollowed.Refused fault) (string_bytes text)) }
{
    let mut text = String::from_str(alloc, "refused: ")?;
    write_fault(&mut text, fault)?;
    Ok(text)
}

/// The line on a session: its number, and how many of its records were run and how many taken over.
pub fn summary_text(alloc: Global, session: &Session) -> Result<String, AllocError>
    ensures { IfOk result (λ text. string_bytes text ≡ summary_line session.now) }
{
    let counts = counts_text(alloc, session)?;
    summary_of(alloc, session.number(), counts.as_str())
}

/// The line of this number and these counts.
fn summary_of(alloc: Global, number: u32, counts: &str) -> Result<String, AllocError>
    ensures { IfOk result (λ text. string_bytes text ≡ summary_with number counts.now) }
{
    let mut text = String::new(alloc);
    writeln!(text, "session {number}: {counts}")?;
    Ok(text)
}

/// How many of a session's records were executed and how many are green, as `3 executed, 7 green`.
pub fn counts_text(alloc: Global, session: &Session) -> Result<String, AllocError>
    ensures { IfOk result (λ text. string_bytes text ≡ counts_of session.now) }
{
    let executed = session.count(Mark::Executed);
    let green = session.count(Mark::Green);
    let mut text = String::new(alloc);
    write!(text, "{executed} executed, {green} green")?;
    Ok(text)
}
