//! Why the queries of the last session of a chain were executed.
ghost use Rattle.std.specs.Prelude.{◌<◌, IfOk, IfErr, map, string_bytes, vec_len};
ghost use Rattle.std.specs.Option.{option_copied};
ghost use Rattle.program_run.specs.Failures.{ShowFails};
ghost use Rattle.program_run.specs.Shows.{SaysCauses, LacksNamedIn, SaysWhy, of_words};

use crate::failure::Failure;
use crate::report::Report;
use crate::subcommands::last::{LastPair, crossing_kinds, index_of, last_two};
use command_line::WhyWords;
use session_text::{causes_text, why_text};
use sessions::Session;
use std::alloc::Global;
use std::rt::Files;

/// The report on why the queries of the last session of the chain of the session files of these names were executed, or
/// on the causes of the record that is named.
pub(crate) fn why<R: Files + AllocGlobal>(rt: &R, asked: WhyWords) -> Result<Report, Failure>
    requires { 0 < vec_len asked.files }
    ensures reports { IfOk result (SaysWhy R.File.Read.remaining asked) }
    ensures failed { IfErr result
        (ShowFails R.File.Read.remaining (map string_bytes asked.files.items) asked.of) }
{
    let alloc = rt.alloc();
    let WhyWords { of, files } = asked;
    let LastPair { past, session } = last_two(rt, files)?;
    let text = said_text(alloc, past.as_ref(), &session, of)?;
    Ok(Report::clean(alloc, text))
}

// Why each query of a session was executed, or the causes of the record that is named.
fn said_text(
    alloc: Global,
    past: Option<&Session>,
    session: &Session,
    of: Option<String>,
) -> Result<String, Failure>
    ensures said { IfOk result (λ text. SaysCauses (of_words of) (option_copied past.entry)
        session.now (string_bytes text)) }
    ensures failed { IfErr result (LacksNamedIn (of_words of) session.now) }
{
    let crossing = crossing_kinds(past, session);
    match of {
        Some(words) => {
            let index = index_of(alloc, session, words)?;
            Ok(causes_text(alloc, crossing, past, session, index)?)
        }
        None => Ok(why_text(alloc, crossing, past, session)?),
    }
}
