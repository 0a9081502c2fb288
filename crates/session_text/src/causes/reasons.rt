//! What became of a key.
ghost use Rattle.std.specs.Prelude.{◌≡◌, ◌==◌, Some, IfSome, not};
ghost use Rattle.std.specs.List.{list_any};
ghost use Rattle.std.specs.Option.{option_copied};
ghost use Rattle.item_ids.specs.Kinds.{number_of};
ghost use Rattle.item_ids.specs.Keys.{kind_of};
ghost use Rattle.item_ids.specs.Inputs.{is_input};
ghost use Rattle.sessions.specs.Sessions.{IsSession, entry_at, entry_of};
ghost use Rattle.session_text.specs.Causes.{IsOfEither, IsRightWhy, IsWhy, is_red, red_key};
ghost use Rattle.session_text.specs.Parts.{IsRunCause, fresh_cause, is_explained};

use crate::causes::cause::{Cause, Why};
use crate::causes::reds::{first_red, is_red, is_same_print};
use item_ids::{Key, Kind};
use sessions::{Mark, Record, Session};

/// What is said of a key of either session.
pub(crate) fn why_of<'a>(
    crossing: &[Kind],
    past: Option<&'a Session>,
    session: &Session,
    key: &'a Key,
) -> Why<'a>
    requires { IsOfEither (option_copied past) session.now key.now }
    ensures key { result.key.now ≡ key.now }
    ensures right { IsRightWhy (option_copied past.entry) session.now crossing.now result }
{
    Why {
        key,
        cause: cause_of(crossing, past, session, key),
        is_same_result: is_same(past, session, key),
    }
}

/// Whether both sessions have a record of a key, with one fingerprint.
fn is_same(past: Option<&Session>, session: &Session, key: &Key) -> bool
    ensures { result ≡ not (is_red (option_copied past.entry) session.now key.now) }
{
    match past {
        Some(past) => !is_red(past, session, key),
        None => false,
    }
}

/// Why the query of a key of either session was executed, or what else became of it.
fn cause_of<'a>(
    crossing: &[Kind],
    past: Option<&'a Session>,
    session: &Session,
    key: &Key,
) -> Cause<'a>
    requires { IsOfEither (option_copied past) session.now key.now }
    ensures { IsWhy (option_copied past.entry) session.now crossing.now key.now result }
{
    let Some(item) = session.find(key) else {
        return Cause::Gone;
    };
    match past {
        Some(past) => cause_beside(crossing, past, session, key, item),
        None => fresh_cause(item.mark()),
    }
}

/// The same of a key of which the session has this record.
fn cause_beside<'a>(
    crossing: &[Kind],
    past: &'a Session,
    session: &Session,
    key: &Key,
    item: &Record,
) -> Cause<'a>
    requires { entry_at session.now key.now ≡ Some (entry_of session.now.records item.now) }
    ensures { IsWhy (Some past.now) session.now crossing.now key.now result }
{
    let Some(had) = past.find(key) else {
        return fresh_cause(item.mark());
    };
    match item.mark() {
        Mark::Green => Cause::Green,
        Mark::Input if is_same_print(had, item) => Cause::Same,
        Mark::Input => Cause::Changed,
        Mark::Executed => run_cause(
            first_red(past, session, had.edges()),
            is_among(crossing, key.kind()),
        ),
    }
}

/// Of a key that the session before hasn't, by its mark.
fn fresh_cause<'a>(mark: Mark) -> Cause<'a>
    ensures { result ≡ fresh_cause mark }
{
    match mark {
        Mark::Input | Mark::Executed => Cause::New,
        Mark::Green => Cause::Green,
    }
}

/// Why a query was executed again, by the first of the keys that it had read that is red, and by whether nothing of its
/// kind is taken over.
fn run_cause<'a>(red: Option<&'a Key>, crosses: bool) -> Cause<'a>
    ensures { IsRunCause (option_copied red.entry) crosses result }
{
    match red {
        Some(key) => Cause::Red(key),
        None if crosses => Cause::OtherProfile,
        None => Cause::NothingChanged,
    }
}

/// Whether a kind is one of these.
fn is_among(kinds: &[Kind], kind: Kind) -> bool
    ensures { result ≡ list_any (λ k. number_of k == number_of kind) kinds.now }
{
    kinds.iter().any(|one| one.number() == kind.number())
}

/// Whether the key is explained without being asked for.
pub(crate) fn is_explained(why: &Why<'_>) -> bool
    ensures { result ≡ is_explained (kind_of why.now.key.now) why.now.cause }
{
    match why.cause {
        Cause::New | Cause::Changed => true,
        Cause::Gone => is_input(why.key.kind()),
        Cause::Same | Cause::Green => false,
        Cause::Red(_) | Cause::OtherProfile | Cause::NothingChanged => true,
    }
}

/// Whether keys of a kind are inputs.
pub(crate) fn is_input(kind: Kind) -> bool
    ensures { result ≡ is_input kind }
{
    matches!(kind, Kind::Files | Kind::Source)
}

/// The key that a cause leads to.
pub(crate) fn red_key<'a>(cause: Cause<'a>) -> Option<&'a Key>
    ensures { option_copied result ≡ red_key cause.entry }
{
    match cause {
        Cause::Red(key) => Some(key),
        _ => None,
    }
}

/// A session keeps its rules.
pub(crate) fn is_session(past: Option<&Session>)
    ensures { IfSome (option_copied past.entry) IsSession }
{
    if let Some(past) = past {
        let _records = past.records();
    }
}
