//! The records of the keys that a closing table keeps.
ghost use Rattle.std.specs.Prelude.{◌≡◌, ◌<◌, length, map, IfOk};
ghost use Rattle.std.specs.List.{AllByRecursion};
ghost use Rattle.std.specs.Arc.{arc_value};
ghost use Rattle.sessions.specs.Sessions.{IsRecord};
ghost use Rattle.graph_rules.specs.Steps.{State};
ghost use Rattle.key_states.specs.Reached.{AreDoneRecords};
ghost use Rattle.key_states.specs.Rows.{AreRowsOf, AreWithin, keys_of, rank_in};

use crate::reaching::Found;
use crate::rows::{KeyRow, ranks_of};
use item_ids::Key;
use sessions::{Record, check_kept};
use std::alloc::{AllocError, Global};
use std::sync::Arc;

/// The records of these rows, by how their keys were found.
pub fn records_of(
    alloc: Global,
    rows: &[KeyRow],
    found: &[Found<'_>],
) -> Result<Vec<Record>, AllocError>
    requires { AreWithin rows.now found.now }
    ensures { (s : State) → AreRowsOf s rows.now found.now
        → IfOk result (λ records. AreDoneRecords s (keys_of rows.now) records.items) }
{
    let ranks = ranks_of(alloc, rows)?;
    let mut records = Vec::with_capacity(alloc, rows.len())?;
    for row in rows {
        records.push(record_of(alloc, &row.key, &found[row.at], ranks.as_slice())?)?;
    }
    Ok(records)
}

/// The record of a key, whose edges are the ranks of the places that it was found with.
fn record_of(
    alloc: Global,
    key: &Key,
    found: &Found<'_>,
    ranks: &[usize],
) -> Result<Record, AllocError>
    requires { AllByRecursion (λ e. e < length ranks.now) found.now.edges.items }
    ensures key { IfOk result (λ r. r.key ≡ key.now) }
    ensures value { IfOk result (λ r. r.value ≡ arc_value found.now.sealed.now) }
    ensures mark { IfOk result (λ r. r.mark ≡ found.now.mark) }
    ensures edges { IfOk result (λ r. r.edges ≡ map (rank_in ranks.now) found.now.edges.items) }
    ensures kept { IfOk result IsRecord }
{
    let edges = ranks_at(alloc, ranks, found.edges.as_slice())?;
    let sealed = Arc::try_clone(found.sealed)?;
    let own = key.copy(alloc)?;
    let record = Record::new(own, found.mark, edges, sealed);
    // A record keeps in its type what its spelling demands.
    check_kept(&record);
    Ok(record)
}

/// The ranks of these places.
fn ranks_at(alloc: Global, ranks: &[usize], places: &[usize]) -> Result<Vec<usize>, AllocError>
    requires { AllByRecursion (λ e. e < length ranks.now) places.now }
    ensures { IfOk result (λ v. v.items ≡ map (rank_in ranks.now) places.now) }
{
    let mut found = Vec::with_capacity(alloc, places.len())?;
    for place in places {
        found.push(ranks[*place])?;
    }
    Ok(found)
}
