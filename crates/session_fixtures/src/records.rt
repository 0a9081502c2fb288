//! Sessions from short texts.
ghost use Rattle.std.specs.Prelude.{◌≡◌, List, [], ◌∷◌, ◌++◌, IfOk, OnOk};
ghost use Rattle.answer_fixtures.specs.Telling.{IsKeyOf};
ghost use Rattle.session_fixtures.specs.declared.records.Kept.{Kept as SpecKept};
ghost use Rattle.session_fixtures.specs.Telling.{IsRecordOf, AreRecordsOf, IsToldSession};

use answer_fixtures::{KeyParts, Unfit, key_of, sealed_of};
use item_ids::Key;
use sessions::{Mark, Record, Session, Terms};
use std::alloc::{AllocError, AllocFailed, Global};

/// A record of a session: its key, how it became done, the indices of the records that it read, and the canonical
/// bytes of its result in hexadecimal digits.
#[derive(Clone, Copy)]
pub struct Kept {
    pub key: KeyParts<'static>,
    pub mark: Mark,
    pub edges: &'static [usize],
    pub digits: &'static str,
}

/// The session of this number, link and records.
pub fn session_of(
    alloc: Global,
    number: u32,
    link: [u8; 32],
    kept: &[Kept],
) -> Result<Session, Unfit>
    ensures { IfOk result (IsToldSession number link kept.now) }
{
    session_as(alloc, Terms::first(), number, link, kept)
}

/// The session of these terms, this number, link and records.
pub fn session_as(
    alloc: Global,
    terms: Terms,
    number: u32,
    link: [u8; 32],
    kept: &[Kept],
) -> Result<Session, Unfit>
    ensures told { IfOk result (IsToldSession number link kept.now) }
    ensures terms { IfOk result (λ s. s.terms ≡ terms) }
{
    let records = records_of(alloc, kept)?;
    match Session::new_as(alloc, terms, number, link, records) {
        Ok(session) => Ok(session),
        Err(_) => Err(Unfit),
    }
}

/// The records, in their order.
fn records_of(alloc: Global, kept: &[Kept]) -> Result<Vec<Record>, Unfit>
    ensures { IfOk result (λ records. AreRecordsOf kept.now records.items) }
{
    let mut records = Vec::new(alloc);
    for one in kept {
        add_record(alloc, &mut records, one)?;
    }
    Ok(records)
}

/// Adds one more record.
fn add_record(alloc: Global, records: &mut Vec<Record>, kept: &Kept) -> Result<(), Unfit>
    ensures { (before : List SpecKept) → AreRecordsOf before records.old.items
        → OnOk result (AreRecordsOf (before ++ kept.now ∷ []) records.new.items) }
{
    let record = record_of(alloc, kept)?;
    Ok(push(records, record)?)
}

fn push(records: &mut Vec<Record>, last: Record) -> Result<(), AllocError>
    ensures { OnOk result (records.new.items ≡ records.old.items ++ last ∷ []) }
{
    Ok(records.push(last)?)
}

/// The record that is given.
fn record_of(alloc: Global, kept: &Kept) -> Result<Record, Unfit>
    ensures { IfOk result (IsRecordOf kept.now) }
{
    let key = key_of(alloc, kept.key)?;
    record_of_key(alloc, kept, key)
}

/// The record that is given, of this key.
fn record_of_key(alloc: Global, kept: &Kept, key: Key) -> Result<Record, Unfit>
    requires { IsKeyOf kept.now.key key }
    ensures { IfOk result (IsRecordOf kept.now) }
{
    let edges = kept.edges.to_vec(alloc)?;
    record_with_edges(alloc, kept, key, edges)
}

/// The record that is given, of this key and with these edges.
fn record_with_edges(
    alloc: Global,
    kept: &Kept,
    key: Key,
    edges: Vec<usize>,
) -> Result<Record, Unfit>
    requires key { IsKeyOf kept.now.key key }
    requires edges { edges.items ≡ kept.now.edges.now }
    ensures { IfOk result (IsRecordOf kept.now) }
{
    let KeyParts(kind, _, _) = kept.key;
    let sealed = sealed_of(alloc, kind, kept.digits)?;
    Ok(Record::new(key, kept.mark, edges, sealed))
}
