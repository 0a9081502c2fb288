//! The keys of two sessions, in their order.
ghost use Rattle.std.specs.Prelude.{◌≡◌, ◌+◌, ◌<◌, ◌≤◌, IfOk, IfSome, length, map, slice_get};
ghost use Rattle.std.specs.Option.{option_copied};
ghost use Rattle.item_ids.specs.Keys.{key_cmp};
ghost use Rattle.sessions.specs.Sessions.{IsSession};
ghost use Rattle.session_text.specs.Parts.{AreKeysOfEither, FitsIn, IsMergeStep, PassesLesserKey, records_in};

use item_ids::Key;
use sessions::{Record, Session};
use std::alloc::{AllocError, Global};
use std::cmp::Ordering;

/// The keys of which one of the sessions has a record, each once, in their order.
pub(crate) fn keys_of_either<'a>(
    alloc: Global,
    past: Option<&'a Session>,
    session: &'a Session,
) -> Result<Vec<&'a Key>, AllocError>
    ensures { IfOk result (λ keys. AreKeysOfEither (option_copied past.entry) session.now
        (map (λ key. key.now) keys.items)) }
{
    let before = records_of(past);
    let records = session.records();
    let mut keys = Vec::with_capacity(alloc, before.len().max(records.len()))?;
    let mut i = 0;
    let mut j = 0;
    while let Some(step) = next_step(before, i, records, j) {
        keys.push(step.key)?;
        i += step.past;
        j += step.now;
    }
    Ok(keys)
}

/// The records of the session before, and none if there is none.
fn records_of(past: Option<&Session>) -> &[Record]
    ensures value { result.now ≡ records_in (option_copied past.entry) }
    ensures session { IfSome (option_copied past.entry) IsSession }
{
    match past {
        Some(past) => past.records(),
        None => &[],
    }
}

/// The least key that is left, and how many records of the session before and of this one it has.
#[derive(Clone, Copy)]
struct MergeStep<'a> {
    key: &'a Key,
    past: usize,
    now: usize,
}

/// The next step over the records from these indices on, or `None` if none is left.
fn next_step<'a>(
    before: &'a [Record],
    i: usize,
    records: &'a [Record],
    j: usize,
) -> Option<MergeStep<'a>>
    requires before { i ≤ length before.now }
    requires records { j ≤ length records.now }
    ensures step { IsMergeStep (slice_get (map (λ r. r.key) before.now) i)
        (slice_get (map (λ r. r.key) records.now) j) result }
    ensures fits { IfSome result (FitsIn (length before.now) (length records.now) i j) }
{
    match (before.get(i), records.get(j)) {
        (Some(had), Some(item)) => Some(lesser(had.key(), item.key())),
        (Some(had), None) => Some(MergeStep {
            key: had.key(),
            past: 1,
            now: 0,
        }),
        (None, Some(item)) => Some(MergeStep {
            key: item.key(),
            past: 0,
            now: 1,
        }),
        (None, None) => None,
    }
}

/// The step over the lesser one of two keys, or over both.
fn lesser<'a>(had: &'a Key, key: &'a Key) -> MergeStep<'a>
    ensures step { PassesLesserKey had.now key.now (key_cmp had.now key.now) result }
    ensures few { (result.past ≤ 1) × (result.now ≤ 1) × (0 < result.past + result.now) }
{
    match had.cmp(key) {
        Ordering::Less => MergeStep {
            key: had,
            past: 1,
            now: 0,
        },
        Ordering::Equal => MergeStep {
            key,
            past: 1,
            now: 1,
        },
        Ordering::Greater => MergeStep {
            key,
            past: 0,
            now: 1,
        },
    }
}
