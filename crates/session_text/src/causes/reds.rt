//! Keys that are red: the two sessions haven't both a record of them, with one fingerprint.
ghost use Rattle.std.specs.Prelude.{◌≡◌, ◌<◌, Some, find, length, map};
ghost use Rattle.std.specs.Option.{option_copied};
ghost use Rattle.std.specs.Str.{bytes_eq};
ghost use Rattle.fingerprint.specs.Prints.{print_of};
ghost use Rattle.sessions.specs.Sessions.{AreInside, key_at};
ghost use Rattle.session_text.specs.Causes.{is_red};

use item_ids::Key;
use sessions::{Record, Session};

/// The first red one of the keys that these edges of the session before lead to.
pub(crate) fn first_red<'a>(
    past: &'a Session,
    session: &Session,
    edges: &[usize],
) -> Option<&'a Key>
    requires { AreInside past.now.records edges.now }
    ensures { option_copied result
        ≡ find (is_red (Some past.now) session.now) (map (key_at past.now.records) edges.now) }
{
    for edge in edges {
        let key = key_of(past, *edge);
        if is_red(past, session, key) {
            return Some(key);
        }
    }
    None
}

/// The key of the record at an index.
fn key_of(session: &Session, edge: usize) -> &Key
    requires { edge < length session.now.records }
    ensures { result.now ≡ key_at session.now.records edge }
{
    session.records()[edge].key()
}

/// Whether a key is red.
pub(crate) fn is_red(past: &Session, session: &Session, key: &Key) -> bool
    ensures { result ≡ is_red (Some past.now) session.now key.now }
{
    match (past.find(key), session.find(key)) {
        (Some(had), Some(item)) => !is_same_print(had, item),
        _ => true,
    }
}

/// Whether the results of two records have one fingerprint.
pub(crate) fn is_same_print(had: &Record, item: &Record) -> bool
    ensures { result ≡ bytes_eq (print_of had.now.value) (print_of item.now.value) }
{
    had.sealed().same_print(item.sealed())
}
