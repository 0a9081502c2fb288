//! The answer that a session records.
ghost use Rattle.std.specs.Prelude.{IfSome, IsSome};
ghost use Rattle.commands.specs.Checks.{IsAnswerIn, RecordsAnswer};

use item_ids::Key;
use mj_answer::Answer;
use providers::answer_of;
use sessions::Session;

/// The answer that a session records, if it records one. A session that was made does.
#[tactic(auto, using(crate::proofs::Answered::has_answer_value))]
pub fn answer_in(session: &Session) -> Option<&Answer>
    ensures answer { IfSome result (λ answer. IsAnswerIn session.now answer.now) }
    ensures recorded { RecordsAnswer session.now → IsSome result }
{
    // A session keeps in its type what its records are.
    let _records = session.records();
    match session.find(&Key::Answer) {
        Some(item) => Some(answer_of(item.sealed().value())),
        None => None,
    }
}
