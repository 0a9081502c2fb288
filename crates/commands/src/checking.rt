//! The report on a session.
ghost use Rattle.std.specs.Prelude.{IfOk};
ghost use Rattle.commands.specs.Checks.{RecordsAnswer};
ghost use Rattle.commands.specs.Checking.{AreSessionTexts};

use crate::answer::answer_in;
use crate::texts::AnswerTexts;
use crate::words::summary_text;
use diagnostic_lines::{fault_text_of, is_clean};
use mj_rules::{Project, render};
use sessions::Session;
use std::alloc::{AllocError, Global};

/// What is written of a session of a project: behind these notes the diagnostics of its answer, with messages or without,
/// and how many records were executed and green.
pub fn session_texts(
    alloc: Global,
    project: &Project,
    messages: bool,
    notes: &str,
    session: &Session,
) -> Result<AnswerTexts, AllocError>
    requires { RecordsAnswer session.now }
    ensures { IfOk result (AreSessionTexts project.now messages notes.now session.now) }
{
    let Some(answer) = answer_in(session) else {
        unreachable!();
    };
    let mut told = String::from_str(alloc, notes)?;
    told.push_str(fault_text_of(alloc, project, answer, messages)?.as_str())?;
    told.push_str(summary_text(alloc, session)?.as_str())?;
    Ok(AnswerTexts {
        notes: told,
        answer: render(alloc, answer)?,
        clean: is_clean(answer),
    })
}
