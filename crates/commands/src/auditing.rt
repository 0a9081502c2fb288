//! The report on an accepted chain.
ghost use Rattle.std.specs.Prelude.{◌≡◌, IfOk, string_bytes};
ghost use Rattle.std.specs.Arc.{arc_value};
ghost use Rattle.mini_java.specs.AnswerValues.{IsAnswerValue};
ghost use Rattle.commands.specs.Auditing.{AreAcceptedTexts, accepted_line};

use mini_java::{Audited, audited_answer};
use mj_rules::render;
use std::alloc::{AllocError, Global};
use std::fmt::Write;

/// The texts of an accepted chain.
#[derive(Drop)]
pub struct AuditTexts {
    /// The line on the chain.
    pub notes: String,
    /// The text of the answer.
    pub answer: String,
}

/// What is written of an accepted chain.
pub fn accepted_texts(alloc: Global, audited: &Audited) -> Result<AuditTexts, AllocError>
    requires { IsAnswerValue (arc_value audited.now.answer) }
    ensures { IfOk result (AreAcceptedTexts (arc_value audited.now.answer)
        audited.now.sessions audited.now.runs) }
{
    Ok(AuditTexts {
        notes: accepted_text(alloc, audited.sessions, audited.runs)?,
        answer: render(alloc, audited_answer(audited))?,
    })
}

// The line on a chain that is accepted.
fn accepted_text(alloc: Global, sessions: usize, runs: u128) -> Result<String, AllocError>
    ensures { IfOk result (λ text. string_bytes text ≡ accepted_line sessions runs) }
{
    let mut text = String::new(alloc);
    writeln!(text, "accepted: {sessions} sessions, {runs} runs")?;
    Ok(text)
}
