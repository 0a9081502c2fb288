//! What records keep behind those in front of them.
ghost use Rattle.std.specs.Prelude.{◌≡◌, ◌<◌, ◌↔◌, false, length, take, IsTrue, OnOk, IfErr, MatchOption, slice_index_or};
ghost use Rattle.std.specs.List.{AllByRecursion};
ghost use Rattle.std.specs.declared.cmp.Ordering.TheVariants.{Less};
ghost use Rattle.item_ids.specs.Keys.{key_cmp, IsKey};
ghost use Rattle.item_ids.specs.Inputs.{is_input};
ghost use Rattle.result_bytes.specs.Values.{IsOfKind};
ghost use Rattle.sessions.specs.Marks.{is_input_mark};
ghost use Rattle.sessions.specs.Sessions.{AreRecords, FitsBehind, IsAbove, IsRecord};
ghost use Rattle.sessions.specs.Edges.{AreEdges};
ghost use Rattle.sessions.specs.Refusals.{IsFirstBadEdge, HoldsUnlessMemory, RefusesRecord, RefusesRecords};

use crate::fault::SessionFault;
use crate::mark::Mark;
use crate::record::Record;
use crate::seen::SeenEdges;
use byte_readers::check_name;
use item_ids::{Key, Kind};
use result_bytes::is_value;
use std::alloc::Global;

/// Each record fits behind those in front of it, or the first fault.
pub(crate) fn check_records(alloc: Global, records: &[Record]) -> Result<(), SessionFault>
    ensures fit { OnOk result (AreRecords records.now) }
    ensures refused { IfErr result
        (λ fault. HoldsUnlessMemory fault (RefusesRecords records.now fault)) }
{
    let mut seen = SeenEdges::new(alloc);
    for (i, item) in records.iter().enumerate() {
        check_record(&mut seen, &records[..i], item)?;
        match seen.next() {
            Ok(()) => {}
            Err(_) => return Err(SessionFault::OutOfMemory),
        }
    }
    Ok(())
}

/// The record fits behind those in front of it, or its first fault.
fn check_record(seen: &mut SeenEdges, front: &[Record], item: &Record) -> Result<(), SessionFault>
    requires front { AreRecords front.now }
    requires length { length seen.old ≡ length front.now }
    requires unseen { AllByRecursion (λ b. b ≡ false) seen.old }
    ensures fits { OnOk result (FitsBehind front.now item.now) }
    ensures refused { IfErr result (RefusesRecord front.now item.now) }
    ensures length { length seen.new ≡ length seen.old }
{
    if !is_above(front, item.key()) {
        return Err(SessionFault::KeyOrder(front.len()));
    }
    if !is_marked(item.mark(), item.key().kind()) {
        return Err(SessionFault::InputKind(front.len()));
    }
    if let Some(j) = first_bad_edge(seen, front, item.key(), item.edges()) {
        return Err(SessionFault::BadEdge(front.len(), j));
    }
    if !is_of_kind(item) {
        return Err(SessionFault::Result(front.len()));
    }
    // A record keeps the rest in its type.
    check_kept(item);
    Ok(())
}

/// Whether the key is greater than those of the records before it.
pub fn is_above(front: &[Record], key: &Key) -> bool
    requires { AreRecords front.now }
    ensures { IsTrue result ↔ IsAbove front.now key.now }
{
    match front.last() {
        None => true,
        Some(last) => is_less(last.key(), key),
    }
}

/// Whether a key comes before another one.
fn is_less(key: &Key, other: &Key) -> bool
    ensures { IsTrue result ↔ (key_cmp key.now other.now ≡ Less) }
{
    key.cmp(other).is_lt()
}

/// Whether a key of this kind may have this mark.
pub fn is_marked(mark: Mark, kind: Kind) -> bool
    ensures { IsTrue result ↔ (is_input_mark mark ≡ is_input kind) }
{
    matches!(kind, Kind::Files | Kind::Source) == matches!(mark, Mark::Input)
}

/// The place of the first edge that isn't the index of an earlier record whose key has a lower rank, or that was there
/// before.
fn first_bad_edge(
    seen: &mut SeenEdges,
    front: &[Record],
    key: &Key,
    edges: &[usize],
) -> Option<usize>
    requires length { length seen.old ≡ length front.now }
    requires unseen { AllByRecursion (λ b. b ≡ false) seen.old }
    ensures cases { MatchOption result (AreEdges front.now key.now edges.now)
        (IsFirstBadEdge front.now key.now edges.now) }
    ensures length { length seen.new ≡ length seen.old }
{
    for (j, edge) in edges.iter().enumerate() {
        let admitted = seen.admit(front, key, *edge);
        if !admitted {
            return Some(j);
        }
    }
    None
}

/// Whether the result is of the key's kind.
fn is_of_kind(item: &Record) -> bool
    ensures { IsTrue result ↔ IsOfKind item.now.key item.now.value }
{
    item.sealed().value().kind() == item.key().kind()
}

/// A record's type keeps what its spelling demands.
pub fn check_kept(item: &Record)
    ensures { IsRecord item.now }
{
    check_key(item.key());
    is_value(item.sealed().value());
    let _size = item.sealed().bytes().len();
    let _few = item.edges().len();
}

/// A key's type keeps that its names are names.
pub fn check_key(key: &Key)
    ensures { IsKey key.now }
{
    if let Some(class) = key.class() {
        check_name(class);
    }
    if let Some(member) = key.member() {
        check_name(member);
    }
}
