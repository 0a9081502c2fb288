//! Keys in order, each with the place where it was found.
ghost use Rattle.std.specs.Prelude.{◌≡◌, ◌<◌, length, IfOk, OnOk, IsSorted};
ghost use Rattle.std.specs.List.{IsDistinct};
ghost use Rattle.std.specs.List.Sorted.{IsPermutation};
ghost use Rattle.std.specs.Ordering.{eq_by_cmp};
ghost use Rattle.item_ids.specs.Keys.{key_cmp};
ghost use Rattle.key_states.specs.Reached.{EachAt};
ghost use Rattle.key_states.specs.Rows.{AreOrdered, AreRanks, keys_of};

use indexmap::IndexSet;
use item_ids::Key;
use std::alloc::{AllocError, Global};

/// A key, and the place where it was found.
#[derive(PartialEq, Eq, PartialOrd, Ord)]
pub struct KeyRow {
    pub key: Key,
    pub at: usize,
}

impl Drop for KeyRow {
    fn drop(self) {
        let KeyRow { key: _, at: _ } = self;
    }
}

/// These keys with their places, in the order of the keys.
pub fn rows_of(alloc: Global, keys: &IndexSet<Key>) -> Result<Vec<KeyRow>, AllocError>
    ensures { IfOk result (λ rows. AreOrdered keys.now.keys rows.items) }
{
    let mut rows = found_rows(alloc, keys)?;
    sort(alloc, rows.as_mut_slice())?;
    Ok(rows)
}

/// These keys with their places.
fn found_rows(alloc: Global, keys: &IndexSet<Key>) -> Result<Vec<KeyRow>, AllocError>
    ensures keys { IfOk result (λ rows. keys_of rows.items ≡ keys.now.keys) }
    ensures places { IfOk result (λ rows. EachAt (λ i r. r.at ≡ i) rows.items) }
    ensures apart { IfOk result (λ rows. IsDistinct (eq_by_cmp key_cmp) (keys_of rows.items)) }
{
    let found = keys.as_slice();
    let mut rows = Vec::with_capacity(alloc, found.len())?;
    for (at, key) in found.iter().enumerate() {
        rows.push(row_of(alloc, key, at)?)?;
    }
    Ok(rows)
}

/// The row of a key that was found at this place.
fn row_of(alloc: Global, key: &Key, at: usize) -> Result<KeyRow, AllocError>
    ensures key { IfOk result (λ row. row.key ≡ key.now) }
    ensures at { IfOk result (λ row. row.at ≡ at) }
{
    let key = key.copy(alloc)?;
    Ok(KeyRow { key, at })
}

/// Sorts rows by their keys. Those of one kind are mostly found in order, so that the sort by kinds, which compares
/// numbers alone, leaves little to compare.
fn sort(alloc: Global, rows: &mut [KeyRow]) -> Result<(), AllocError>
    ensures same { OnOk result (IsPermutation rows.old rows.new) }
    ensures count { length rows.new ≡ length rows.old }
    ensures sorted { OnOk result (IsSorted key_cmp (keys_of rows.new)) }
{
    rows.sort_by_key(alloc, |row| row.key.kind().number())?;
    rows.sort(alloc)?;
    Ok(())
}

/// The rank of each place: the index of its row.
pub fn ranks_of(alloc: Global, rows: &[KeyRow]) -> Result<Vec<usize>, AllocError>
    requires { EachAt (λ i r. r.at < length rows.now) rows.now }
    ensures { IfOk result (λ ranks. AreRanks rows.now ranks.items) }
{
    let mut ranks = zeros(alloc, rows.len())?;
    for (i, row) in rows.iter().enumerate() {
        ranks[row.at] = i;
    }
    Ok(ranks)
}

/// So many zeros.
fn zeros(alloc: Global, count: usize) -> Result<Vec<usize>, AllocError>
    ensures { IfOk result (λ zeros. length zeros.items ≡ count) }
{
    let mut zeros = Vec::with_capacity(alloc, count)?;
    for _ in 0..count {
        zeros.push(0)?;
    }
    Ok(zeros)
}
