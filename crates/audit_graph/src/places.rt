//! The record at an index of a session.
ghost use Rattle.std.specs.Prelude.{◌≡◌, ◌<◌, Some, length};
ghost use Rattle.sessions.specs.Sessions.{key_at, entry_at};
ghost use Rattle.graph_rules.specs.Pasts.{print_in};

use fingerprint::Print;
use item_ids::Key;
use sessions::Session;

/// The key of the record at an index.
pub(crate) fn key_of(session: &Session, i: usize) -> &Key
    requires { i < length session.now.records }
    ensures { result.now ≡ key_at session.now.records i }
{
    session.records()[i].key()
}

/// The fingerprint of the result at an index.
pub(crate) fn print_of(session: &Session, i: usize) -> Print
    requires { i < length session.now.records }
    ensures { Some result.0 ≡ print_in (entry_at session.now) (key_at session.now.records i) }
{
    session.records()[i].sealed().print()
}
