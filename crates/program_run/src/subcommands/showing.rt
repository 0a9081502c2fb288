//! The text or the graph of the last session of a chain.
ghost use Rattle.std.specs.Prelude.{IfOk, IfErr, map, string_bytes};
ghost use Rattle.std.specs.Option.{option_copied};
ghost use Rattle.command_line.specs.Runnable.{IsShowable};
ghost use Rattle.program_run.specs.Failures.{ShowFails};
ghost use Rattle.program_run.specs.Shows.{IsGraphOf, LacksNamedIn, ShowsLast, of_words};

use crate::failure::Failure;
use crate::report::Report;
use crate::subcommands::last::{LastPair, index_of, last_two};
use command_line::ShowWords;
use session_text::{dot_text, session_text};
use sessions::Session;
use std::alloc::Global;
use std::rt::Files;

/// The report on the last session of the chain of the session files of these names, the first session's first: its
/// records, or its graph beside the session before.
pub(crate) fn show<R: Files + AllocGlobal>(rt: &R, asked: ShowWords) -> Result<Report, Failure>
    requires { IsShowable asked }
    ensures reports { IfOk result (ShowsLast R.File.Read.remaining asked) }
    ensures failed { IfErr result
        (ShowFails R.File.Read.remaining (map string_bytes asked.files.items) asked.of) }
{
    let alloc = rt.alloc();
    let ShowWords { dot, of, files } = asked;
    let LastPair { past, session } = last_two(rt, files)?;
    let text = if dot {
        graph_text(alloc, past.as_ref(), &session, of)?
    } else {
        session_text(alloc, &session)?
    };
    Ok(Report::clean(alloc, text))
}

// The graph of a session beside the one before, of what lies within the record that is named, if one is.
fn graph_text(
    alloc: Global,
    past: Option<&Session>,
    session: &Session,
    of: Option<String>,
) -> Result<String, Failure>
    ensures graph { IfOk result (λ text. IsGraphOf (of_words of) (option_copied past.entry)
        session.now (string_bytes text)) }
    ensures failed { IfErr result (LacksNamedIn (of_words of) session.now) }
{
    let root = match of {
        Some(words) => Some(index_of(alloc, session, words)?),
        None => None,
    };
    Ok(dot_text(alloc, past, session, root)?)
}
