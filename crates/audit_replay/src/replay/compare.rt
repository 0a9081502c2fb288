//! What a run read, compared with its record.
ghost use Rattle.std.specs.Prelude.{◌≡◌, ◌≢◌, ◌↔◌, ◌<◌, Some, None, IsTrue, MatchOption, length, slice_get};
ghost use Rattle.sessions.specs.Sessions.{AreInside, key_at};
ghost use Rattle.recorder.specs.Backed.{keys};
ghost use Rattle.audit_graph.specs.Greens.{keys_at};
ghost use Rattle.audit_replay.specs.Reruns.{AreFirstKeys, IsFirstOther};

use item_ids::{Key, keys_in_order};
use recorder::Read;
use sessions::Session;

/// The place of the first read that isn't that of the edge there.
pub(crate) fn first_other(session: &Session, edges: &[usize], reads: &[Read]) -> Option<usize>
    requires { AreInside session.now.records edges.now }
    ensures { MatchOption result
        (AreFirstKeys (keys reads.now) (keys_at session.now.records edges.now))
        (IsFirstOther (keys reads.now) (keys_at session.now.records edges.now)) }
{
    for (i, read) in reads.iter().enumerate() {
        if !is_edge(session, edges, i, read.key()) {
            return Some(i);
        }
    }
    None
}

/// Whether there is an edge at a place, and it leads to the key.
fn is_edge(session: &Session, edges: &[usize], i: usize, key: &Key) -> bool
    requires { AreInside session.now.records edges.now }
    ensures { IsTrue result
        ↔ (slice_get (keys_at session.now.records edges.now) i ≡ Some key.now) }
{
    match edges.get(i) {
        Some(edge) => is_at(session, *edge, key),
        None => false,
    }
}

/// Whether the record at an index is that of the key.
fn is_at(session: &Session, at: usize, key: &Key) -> bool
    requires { at < length session.now.records }
    ensures { IsTrue result ↔ (key_at session.now.records at ≡ key.now) }
{
    // `==` on keys is equality.
    keys_in_order();
    session.records()[at].key() == key
}
