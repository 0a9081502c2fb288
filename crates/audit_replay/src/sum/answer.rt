//! The answer of a session.
ghost use Rattle.std.specs.Prelude.{◌≡◌, None, MatchOption};
ghost use Rattle.std.specs.Arc.{arc_value};
ghost use Rattle.item_ids.specs.declared.key.Key.TheVariants as keys;
ghost use Rattle.sessions.specs.Sessions.{entry_at};
ghost use Rattle.audit_replay.specs.Audits.{HasValue};

use fingerprint::Sealed;
use item_ids::Key;
use sessions::Session;
use std::sync::Arc;

/// The answer that a session holds, or `None` if it has no record of it.
pub(crate) fn answer_of(session: &Session) -> Option<&Arc<Sealed>>
    ensures { MatchOption result (entry_at session.now keys.Answer ≡ None)
        (λ a. HasValue (entry_at session.now) keys.Answer (arc_value a.now)) }
{
    match session.find(&Key::Answer) {
        Some(item) => Some(item.sealed()),
        None => None,
    }
}
