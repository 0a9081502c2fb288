//! Whether a result is kept, by what is known of a change.
ghost use Rattle.std.specs.Prelude.{◌≡◌, is_none, option_copied};
ghost use Rattle.std.specs.BTreeMap.{get};
ghost use Rattle.std.specs.Ordering.{nat_cmp};
ghost use Rattle.std.specs.Cmp.Lexicographic.{slice_cmp};
ghost use Rattle.kept_results.specs.Changes.{stays_listed, stay_listed, end_stays, chain_stays, kept_by_rows, kept_by};

use crate::change::{Change, RowChange};
use item_ids::Key;
use ordered_names::Name;
use result_bytes::{ChainEnd, Supers, Value};
use std::collections::BTreeMap;

/// Whether the row of a class stays.
#[tactic(auto, using(crate::proofs::Knowing::none_is))]
fn row_stays(rows: &BTreeMap<Name, RowChange>, class: &Name) -> bool
    ensures { result ≡ is_none (get (slice_cmp nat_cmp) rows.now class.now) }
{
    !rows.contains_key(class)
}

/// Whether a class neither comes nor goes.
fn class_stays(rows: &BTreeMap<Name, RowChange>, class: &Name) -> bool
    ensures { result ≡ stays_listed (get (slice_cmp nat_cmp) rows.now class.now) }
{
    match rows.get(class) {
        Some(RowChange::ComesOrGoes) => false,
        Some(RowChange::Moves) | None => true,
    }
}

/// Whether none of these classes comes or goes.
fn classes_stay(rows: &BTreeMap<Name, RowChange>, classes: &[Name]) -> bool
    ensures { result ≡ stay_listed (get (slice_cmp nat_cmp) rows.now) classes.now }
{
    for class in classes {
        if !class_stays(rows, class) {
            return false;
        }
    }
    true
}

/// Whether the undeclared name at the end of a chain doesn't come.
fn end_stays_so(rows: &BTreeMap<Name, RowChange>, end: &ChainEnd) -> bool
    ensures { result ≡ end_stays (get (slice_cmp nat_cmp) rows.now) end.now }
{
    match end {
        ChainEnd::Undeclared(name) => class_stays(rows, name),
        ChainEnd::Top | ChainEnd::Repeated(_) => true,
    }
}

/// Whether no class of a chain comes or goes, nor the undeclared name at its end.
fn chain_stays_so(rows: &BTreeMap<Name, RowChange>, chain: Option<&Supers>) -> bool
    ensures { result ≡ chain_stays (get (slice_cmp nat_cmp) rows.now) (option_copied chain.entry) }
{
    match chain {
        Some(chain) => { classes_stay(rows, chain.classes()) && end_stays_so(rows, chain.end()) }
        None => true,
    }
}

/// Whether a result is kept by what becomes of rows of the index.
#[tactic(auto, unfolding(crate::specs::Changes::kept_by_rows))]
fn keeps_by_rows(rows: &BTreeMap<Name, RowChange>, key: &Key, value: &Value) -> bool
    ensures { result ≡ kept_by_rows (get (slice_cmp nat_cmp) rows.now) key.now value.now }
{
    match key {
        Key::Header(class) | Key::Method(class, _) => row_stays(rows, class),
        Key::Supers(class) => { class_stays(rows, class) && chain_stays_so(rows, value.supers()) }
        _ => false,
    }
}

/// Whether a result is kept by what is known of the change of a value that it read.
pub(crate) fn keeps_by(change: &Change, key: &Key, value: &Value) -> bool
    ensures { result ≡ kept_by change.now key.now value.now }
{
    match change {
        Change::Tree(same) => *same && matches!(key, Key::Index | Key::Answer),
        Change::Index(rows) => keeps_by_rows(rows, key, value),
        Change::Other => false,
    }
}
