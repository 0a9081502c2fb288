//! The report on a project.
ghost use Rattle.std.specs.Prelude.{◌≡◌, IfOk, string_bytes};
ghost use Rattle.mj_rules.specs.AnswerWords.{text_of};
ghost use Rattle.diagnostic_lines.specs.Lines.{IsFaultText, is_clean};
ghost use Rattle.commands.specs.Scratching.{AreScratchTexts};

use crate::texts::AnswerTexts;
use diagnostic_lines::{ReadProject, fault_text, is_clean};
use mj_rules::{Answer, Project, answer_for_as, render};
use profiles::Profile;
use std::alloc::{AllocError, Global};

/// What is written of the answer that the rules of the profile give a project, with messages or without.
pub fn scratch_texts(
    alloc: Global,
    profile: Profile,
    project: &Project,
    messages: bool,
) -> Result<AnswerTexts, AllocError>
    ensures { IfOk result (AreScratchTexts profile messages project.now) }
{
    let read = ReadProject::new(alloc, project)?;
    let answer = answer_for_as(alloc, profile, project, read.trees())?;
    answer_texts(alloc, &read, &answer, messages)
}

// What is written of an answer.
fn answer_texts(
    alloc: Global,
    project: &ReadProject,
    answer: &Answer,
    messages: bool,
) -> Result<AnswerTexts, AllocError>
    ensures notes { IfOk result (λ texts.
        IsFaultText messages project.now answer.now (string_bytes texts.notes)) }
    ensures answer { IfOk result (λ texts. string_bytes texts.answer ≡ text_of answer.now) }
    ensures clean { IfOk result (λ texts. texts.clean ≡ is_clean answer.now) }
{
    Ok(AnswerTexts {
        notes: fault_text(alloc, project, answer, messages)?,
        answer: render(alloc, answer)?,
        clean: is_clean(answer),
    })
}
