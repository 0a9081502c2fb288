//! Which places have to be looked at again.
ghost use Rattle.std.specs.Prelude.{◌≡◌, ◌⊎◌, ℕ, ◌<◌, ◌≤◌, true, false, [], OnOk, IfNone, IfSome, Contains, length};
ghost use Rattle.std.specs.Arc.{arc_value};
ghost use Rattle.item_ids.specs.declared.key.Key.{Key as KeyValue};
ghost use Rattle.item_ids.specs.Inputs.{rank as rank_of};
ghost use Rattle.result_bytes.specs.declared.value.Value.{Value};
ghost use Rattle.resident_graph.specs.Lists.{key_in, value_in, list_in, flag_in, IsQueue, Widens, AreNoFewer};

use fingerprint::Sealed;
use indexmap::IndexSet;
use item_ids::{Key, rank};
use keeping::Keeping;
use std::alloc::{AllocError, Global};
use std::sync::Arc;

/// Gives the queue more levels, up to this one.
fn grow(alloc: Global, queue: &mut Vec<Vec<usize>>, level: usize) -> Result<(), AllocError>
    ensures wider { Widens queue.old.items queue.new.items }
    ensures ok { OnOk result (level < length queue.new.items) }
{
    while queue.len() <= level {
        queue.push(Vec::new(alloc))?;
    }
    Ok(())
}

/// Adds a place to a level.
fn push_place(queue: &mut Vec<Vec<usize>>, level: usize, at: usize) -> Result<(), AllocError>
    requires { level < length queue.old.items }
    ensures wider { Widens queue.old.items queue.new.items }
    ensures ok { OnOk result (Contains (list_in queue.new.items level) at) }
{
    queue[level].push(at)?;
    Ok(())
}

/// Adds a place to the level of its key's rank, and levels if they are lacking.
fn push_key(
    alloc: Global,
    queue: &mut Vec<Vec<usize>>,
    key: &Key,
    at: usize,
) -> Result<(), AllocError>
    ensures wider { Widens queue.old.items queue.new.items }
    ensures ok { OnOk result (Contains (list_in queue.new.items (rank_of key.now)) at) }
{
    let level = rank(key.kind()) as usize;
    grow(alloc, queue, level)?;
    push_place(queue, level, at)
}

/// Whether a place is queued.
fn is_queued(queued: &[bool], at: usize) -> bool
    ensures { result ≡ flag_in queued.now at }
{
    at < queued.len() && queued[at]
}

/// Queues a place, unless it is queued.
pub(crate) fn queue_place(
    alloc: Global,
    queue: &mut Vec<Vec<usize>>,
    queued: &mut Vec<bool>,
    keys: &IndexSet<Key>,
    at: usize,
) -> Result<(), AllocError>
    requires len { length queued.old.items ≡ length keys.now.keys }
    requires queue { IsQueue keys.now.keys queued.old.items queue.old.items }
    ensures queue { IsQueue keys.now.keys queued.new.items queue.new.items }
    ensures len { length queued.new.items ≡ length queued.old.items }
    ensures more { AreNoFewer queued.old.items queued.new.items }
    ensures ok { OnOk result (at < length queued.old.items → flag_in queued.new.items at ≡ true) }
{
    if at >= queued.len() || is_queued(queued.as_slice(), at) {
        return Ok(());
    }
    let Some(key) = keys.get_index(at) else {
        unreachable!();
    };
    push_key(alloc, queue, key, at)?;
    queued[at] = true;
    Ok(())
}

/// Whether the result at a place is kept by a change of what was read for it.
fn is_kept<R: Keeping>(
    change: &R::Change,
    keys: &IndexSet<Key>,
    values: &[Arc<Sealed>],
    at: usize,
) -> bool
    ensures { (read : KeyValue) (old new : Value) → R.tells change.now read old new → result ≡ true
        → R.kept (key_in keys.now.keys at) (value_in values.now at) read old new ≡ true }
{
    let Some(key) = keys.get_index(at) else {
        return false;
    };
    if at >= values.len() {
        return false;
    }
    R::keeps(change, key, values[at].value())
}

/// Queues these readers, but those whose results are kept by the change.
fn queue_readers<R: Keeping>(
    alloc: Global,
    queue: &mut Vec<Vec<usize>>,
    queued: &mut Vec<bool>,
    keys: &IndexSet<Key>,
    values: &[Arc<Sealed>],
    readers: &[usize],
    change: &R::Change,
) -> Result<(), AllocError>
    requires len { length queued.old.items ≡ length keys.now.keys }
    requires queue { IsQueue keys.now.keys queued.old.items queue.old.items }
    ensures queue { IsQueue keys.now.keys queued.new.items queue.new.items }
    ensures len { length queued.new.items ≡ length queued.old.items }
    ensures more { AreNoFewer queued.old.items queued.new.items }
    ensures ok { (read : KeyValue) (old new : Value) → R.tells change.now read old new → OnOk result
        ((i : ℕ) → Contains readers.now i → i < length queued.old.items
        → (flag_in queued.new.items i ≡ true)
        ⊎ (R.kept (key_in keys.now.keys i) (value_in values.now i) read old new ≡ true)) }
{
    for reader in readers {
        if !is_kept::<R>(change, keys, values, *reader) {
            queue_place(alloc, queue, queued, keys, *reader)?;
        }
    }
    Ok(())
}

/// Queues what reads the value at a place, which is about to be another. What is kept by this change isn't queued.
pub(crate) fn announce<R: Keeping>(
    alloc: Global,
    queue: &mut Vec<Vec<usize>>,
    queued: &mut Vec<bool>,
    keys: &IndexSet<Key>,
    values: &[Arc<Sealed>],
    readers: &[usize],
    at: usize,
    new: &Arc<Sealed>,
) -> Result<(), AllocError>
    requires within { at < length keys.now.keys }
    requires values { length values.now ≡ length keys.now.keys }
    requires len { length queued.old.items ≡ length keys.now.keys }
    requires queue { IsQueue keys.now.keys queued.old.items queue.old.items }
    ensures queue { IsQueue keys.now.keys queued.new.items queue.new.items }
    ensures len { length queued.new.items ≡ length queued.old.items }
    ensures more { AreNoFewer queued.old.items queued.new.items }
    ensures ok { OnOk result ((arc_value new.now ≡ value_in values.now at)
        ⊎ ((i : ℕ) → Contains readers.now i → i < length queued.old.items
        → (flag_in queued.new.items i ≡ true)
        ⊎ (R.kept (key_in keys.now.keys i) (value_in values.now i) (key_in keys.now.keys at)
        (value_in values.now at) (arc_value new.now) ≡ true))) }
{
    let old = &values[at];
    if new.same_result(old) {
        return Ok(());
    }
    let Some(read) = keys.get_index(at) else {
        unreachable!();
    };
    let change = R::change(alloc, read, old.value(), new.value())?;
    queue_readers::<R>(alloc, queue, queued, keys, values, readers, &change)
}

/// Takes places that aren't queued off the end of a level, and gives the last one that is.
fn trim_level(places: &mut Vec<usize>, queued: &[bool]) -> Option<usize>
    ensures kept { (i : ℕ) → flag_in queued.now i ≡ true → Contains places.old.items i
        → Contains places.new.items i }
    ensures none { IfNone result (places.new.items ≡ []) }
    ensures some { IfSome result (λ at. flag_in queued.now at ≡ true) }
{
    while let Some(at) = places.pop() {
        if is_queued(queued, at) {
            places.push_reserved(at);
            return Some(at);
        }
    }
    None
}

/// The last place that is queued, in the lowest level that has one, up to a bound.
pub(crate) fn next_queued(
    queue: &mut Vec<Vec<usize>>,
    queued: &[bool],
    keys: &IndexSet<Key>,
    bound: usize,
) -> Option<usize>
    requires { IsQueue keys.now.keys queued.now queue.old.items }
    ensures queue { IsQueue keys.now.keys queued.now queue.new.items }
    ensures none { IfNone result ((i : ℕ) → rank_of (key_in keys.now.keys i) ≤ bound
        → flag_in queued.now i ≡ false) }
    ensures some { IfSome result (λ at. flag_in queued.now at ≡ true) }
{
    for level in 0..queue.len() {
        if level > bound {
            return None;
        }
        if let Some(at) = trim_level(&mut queue[level], queued) {
            return Some(at);
        }
    }
    None
}
