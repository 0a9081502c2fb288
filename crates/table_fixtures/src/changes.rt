//! Sessions by what changed.
ghost use Rattle.std.specs.Prelude.{◌≡◌, ◌==◌, find, option_copied, Some, IfOk};
ghost use Rattle.std.specs.Arc.{arc_value};
ghost use Rattle.std.specs.List.{list_any};
ghost use Rattle.sessions.specs.Spelling.{digest_of};
ghost use Rattle.sessions.specs.Sessions.{SessionValue, session_in, next_number};
ghost use Rattle.table_fixtures.specs.Told.{mark_told, digits_told, IsChanged, AreChanged, IsNextOf, IsBehind, IsLastOf};

use answer_fixtures::Unfit;
use key_states::link_behind;
use session_file::digest;
use session_fixtures::{Kept, session_as};
use sessions::{Mark, Session, Terms};
use std::alloc::{AllocError, AllocFailed, Global};
use std::sync::Arc;

/// A session of these terms with the keys and edges of a list of records: which of them are executed (the others
/// are inputs or green), and which have another result than the list says.
#[derive(Clone, Copy)]
pub struct Change {
    pub terms: Terms,
    pub records: &'static [Kept],
    pub executed: &'static [usize],
    pub others: &'static [Other],
}

/// A record by its index, with the canonical bytes of its result in hexadecimal digits.
#[derive(Clone, Copy)]
pub struct Other {
    pub at: usize,
    pub digits: &'static str,
}

/// How the record becomes done.
fn mark_at(change: &Change, at: usize, kept: &Kept) -> Mark
    ensures { result ≡ mark_told (list_any (λ i. i == at) change.now.executed.now) kept.now.mark }
{
    if kept.mark == Mark::Input {
        Mark::Input
    } else if change.executed.contains(&at) {
        Mark::Executed
    } else {
        Mark::Green
    }
}

/// The other result of the record.
fn other_at(others: &[Other], at: usize) -> Option<&Other>
    ensures { option_copied result ≡ find (λ other. other.at == at) others.now }
{
    others.iter().find(|other| other.at == at)
}

/// The digits of the record's result.
fn digits_at(change: &Change, at: usize, kept: &Kept) -> &'static str
    ensures { result.now
        ≡ digits_told (find (λ other. other.at == at) change.now.others.now) kept.now.digits.now }
{
    match other_at(change.others, at) {
        Some(other) => other.digits,
        None => kept.digits,
    }
}

/// What the change makes of the record at a place.
fn changed(change: &Change, at: usize, kept: &Kept) -> Kept
    ensures { IsChanged change.now at kept.now result }
{
    Kept {
        mark: mark_at(change, at, kept),
        digits: digits_at(change, at, kept),
        ..*kept
    }
}

/// The records of the session.
pub(crate) fn records_of(alloc: Global, change: &Change) -> Result<Vec<Kept>, AllocError>
    ensures { IfOk result (λ records. AreChanged change.now records.items) }
{
    let mut records = Vec::new(alloc);
    for (at, kept) in change.records.iter().enumerate() {
        records.push(changed(change, at, kept))?;
    }
    Ok(records)
}

/// The number of the session behind this one, or of the first.
fn number_behind(past: &Option<Arc<Session>>) -> u32
    ensures { result ≡ next_number (session_in past.now) }
{
    match past {
        Some(past) => {
            // A session has a number up to 9,999, by its type.
            let _session = past.records();
            past.number() + 1
        }
        None => 0,
    }
}

/// The session of these terms and records behind this one.
fn session_behind(
    alloc: Global,
    terms: Terms,
    past: &Option<Arc<Session>>,
    records: &[Kept],
) -> Result<Session, Unfit>
    ensures { IfOk result (IsNextOf terms (session_in past.now) records.now) }
{
    session_as(
        alloc,
        terms,
        number_behind(past),
        link_behind(past),
        records,
    )
}

/// The digest of the file of the session of these terms and records behind this one.
pub(crate) fn digest_behind(
    alloc: Global,
    terms: Terms,
    past: &Option<Arc<Session>>,
    records: &[Kept],
) -> Result<[u8; 32], Unfit>
    ensures { IfOk result (λ digest. (s : SessionValue)
        × IsNextOf terms (session_in past.now) records.now s × (digest ≡ digest_of s)) }
{
    let session = session_behind(alloc, terms, past, records)?;
    Ok(digest(&session))
}

/// The session, to be shared.
pub(crate) fn share(alloc: Global, session: Session) -> Result<Arc<Session>, AllocError>
    ensures { IfOk result (λ s. arc_value s ≡ session) }
{
    Ok(Arc::new(alloc, session)?)
}

/// The session after this one, with these changes.
pub fn past_behind(
    alloc: Global,
    past: &Option<Arc<Session>>,
    change: &Change,
) -> Result<Option<Arc<Session>>, Unfit>
    ensures { IfOk result (λ after. IsBehind change.now (session_in past.now) (session_in after)) }
{
    let records = records_of(alloc, change)?;
    let session = session_behind(alloc, change.terms, past, records.as_slice())?;
    Ok(Some(share(alloc, session)?))
}

/// The digest of the file of the session after this one, with these changes.
pub fn digest_of_change(
    alloc: Global,
    past: &Option<Arc<Session>>,
    change: &Change,
) -> Result<[u8; 32], Unfit>
    ensures { IfOk result (λ digest. (s : SessionValue)
        × IsBehind change.now (session_in past.now) (Some s) × (digest ≡ digest_of s)) }
{
    let records = records_of(alloc, change)?;
    digest_behind(alloc, change.terms, past, records.as_slice())
}

/// The last session of a chain, or `None` if there is none.
pub fn past_of(alloc: Global, chain: &[Change]) -> Result<Option<Arc<Session>>, Unfit>
    ensures { IfOk result (λ past. IsLastOf chain.now (session_in past)) }
{
    let mut past = None;
    for change in chain {
        past = past_behind(alloc, &past, change)?;
    }
    Ok(past)
}
