//! Edges of the previous session.
ghost use Rattle.std.specs.Prelude.{◌≡◌, ◌↔◌, None, IfSome, IsTrue, MatchOption};
ghost use Rattle.std.specs.Arc.{arc_value};
ghost use Rattle.std.specs.List.{AllByRecursion};
ghost use Rattle.fingerprint.specs.Prints.{print_of};
ghost use Rattle.sessions.specs.Sessions.{entry_at};
ghost use Rattle.mark_green.specs.Ensures.{PastHasEdges, IsRecordUnder};

use fingerprint::Sealed;
use item_ids::Key;
use sessions::{Finder, Record, Session, edges_are_below};
use std::sync::Arc;

/// The edges that a key has in the previous session, as indices of records, or `None` if that has no such key.
pub(crate) fn past_edges<'a>(
    past: &'a Session,
    finder: &mut Finder,
    key: &Key,
) -> Option<&'a [usize]>
    ensures found { MatchOption result (entry_at past.now key.now ≡ None)
        (λ edges. PastHasEdges past.now key.now edges.now) }
    ensures under { IfSome result
        (λ edges. AllByRecursion (IsRecordUnder past.now.records key.now) edges.now) }
{
    // The past is a session, by its type, in which keys that were read are of lower rank.
    edges_are_below();
    let _records = past.records();
    match finder.find(past, key) {
        Some((_, record)) => Some(record.edges()),
        None => None,
    }
}

/// Whether a result has the same fingerprint as that of a record.
pub(crate) fn is_same(entry: &Record, sealed: Arc<Sealed>) -> bool
    ensures { IsTrue result ↔ (print_of entry.now.value ≡ print_of (arc_value sealed)) }
{
    entry.sealed().same_print(&sealed)
}
