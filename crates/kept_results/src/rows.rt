//! The rows in which two indexes differ.
ghost use Rattle.std.specs.Prelude.{◌≡◌, ◌≢◌, ◌<◌, ℕ, suc, List, Some, None, option_copied, if◌then◌else◌, IfOk, OnOk};
ghost use Rattle.std.specs.Option.{option_or};
ghost use Rattle.std.specs.Str.{bytes_eq};
ghost use Rattle.std.specs.BTreeMap.{get};
ghost use Rattle.std.specs.Cmp.Lexicographic.{slice_cmp};
ghost use Rattle.std.specs.Ordering.{nat_cmp};
ghost use Rattle.ordered_names.specs.Order.{IsAscendingByName};
ghost use Rattle.kept_results.specs.Rows.{change_at, order_of, noted, noted_by};

use crate::change::RowChange;
use ordered_names::Name;
use result_bytes::IndexRow;
use std::alloc::{AllocError, Global};
use std::cmp::Ordering;
use std::collections::BTreeMap;

/// Notes what becomes of the row of a class.
fn note(
    alloc: Global,
    changes: &mut BTreeMap<Name, RowChange>,
    class: &Name,
    change: RowChange,
) -> Result<(), AllocError>
    ensures { OnOk result ((c : List ℕ) → get (slice_cmp nat_cmp) changes.new c
        ≡ if bytes_eq class.now c then Some change else get (slice_cmp nat_cmp) changes.old c) }
{
    changes.insert(class.copy(alloc)?, change)?;
    Ok(())
}

/// Notes what becomes of the first of two rows, or of both if they are of one class, and tells which is first.
fn note_both(
    alloc: Global,
    changes: &mut BTreeMap<Name, RowChange>,
    old: &IndexRow,
    new: &IndexRow,
) -> Result<Ordering, AllocError>
    ensures first { IfOk result (λ first. first ≡ slice_cmp nat_cmp old.now.class new.now.class) }
    ensures noted { IfOk result (λ first. (c : List ℕ) → get (slice_cmp nat_cmp) changes.new c
        ≡ option_or (noted_by first old.now new.now c) (get (slice_cmp nat_cmp) changes.old c)) }
{
    let first = old.class.cmp(&new.class);
    match first {
        Ordering::Less => note(alloc, changes, &old.class, RowChange::ComesOrGoes)?,
        Ordering::Greater => note(alloc, changes, &new.class, RowChange::ComesOrGoes)?,
        Ordering::Equal => {
            if old.file != new.file {
                note(alloc, changes, &old.class, RowChange::Moves)?;
            }
        }
    }
    Ok(first)
}

/// The same of the rows that are next in two lists.
fn note_next(
    alloc: Global,
    changes: &mut BTreeMap<Name, RowChange>,
    old: Option<&IndexRow>,
    new: Option<&IndexRow>,
) -> Result<Ordering, AllocError>
    ensures first { IfOk result (λ first. first
        ≡ order_of (option_copied old.entry) (option_copied new.entry)) }
    ensures noted { IfOk result (λ first. (c : List ℕ) → get (slice_cmp nat_cmp) changes.new c
        ≡ option_or (noted (option_copied old.entry) (option_copied new.entry) c)
        (get (slice_cmp nat_cmp) changes.old c)) }
{
    match old {
        Some(before) => match new {
            Some(after) => note_both(alloc, changes, before, after),
            None => {
                note(alloc, changes, &before.class, RowChange::ComesOrGoes)?;
                Ok(Ordering::Less)
            }
        },
        None => match new {
            Some(after) => {
                note(alloc, changes, &after.class, RowChange::ComesOrGoes)?;
                Ok(Ordering::Greater)
            }
            None => Ok(Ordering::Equal),
        },
    }
}

/// How many rows of two lists were compared.
#[derive(Clone, Copy)]
struct Compared {
    old: usize,
    new: usize,
}

/// One more row is compared, of the list whose row is first, or of both.
fn compared_more(at: Compared, first: Ordering, old: usize, new: usize) -> Compared
    requires old { first ≢ Ordering.Greater → at.old < old }
    requires new { first ≢ Ordering.Less → at.new < new }
    ensures less { first ≡ Ordering.Less → result ≡ record { old = suc at.old; new = at.new } }
    ensures equal { first ≡ Ordering.Equal → result ≡ record { old = suc at.old; new = suc at.new } }
    ensures greater { first ≡ Ordering.Greater → result ≡ record { old = at.old; new = suc at.new } }
{
    match first {
        Ordering::Less => Compared {
            old: at.old + 1,
            new: at.new,
        },
        Ordering::Equal => Compared {
            old: at.old + 1,
            new: at.new + 1,
        },
        Ordering::Greater => Compared {
            old: at.old,
            new: at.new + 1,
        },
    }
}

/// Notes all rows in which two indexes differ.
fn note_changes(
    alloc: Global,
    changes: &mut BTreeMap<Name, RowChange>,
    old: &[IndexRow],
    new: &[IndexRow],
) -> Result<(), AllocError>
    requires old { IsAscendingByName (λ row. row.class) old.now }
    requires new { IsAscendingByName (λ row. row.class) new.now }
    requires nothing { (c : List ℕ) → get (slice_cmp nat_cmp) changes.old c ≡ None }
    ensures { OnOk result ((c : List ℕ) → get (slice_cmp nat_cmp) changes.new c
        ≡ change_at old.now new.now c) }
{
    let mut at = Compared { old: 0, new: 0 };
    while at.old < old.len() || at.new < new.len() {
        let first = note_next(alloc, changes, old.get(at.old), new.get(at.new))?;
        at = compared_more(at, first, old.len(), new.len());
    }
    Ok(())
}

/// The classes whose rows differ in two indexes, by one walk over both.
pub(crate) fn row_changes(
    alloc: Global,
    old: &[IndexRow],
    new: &[IndexRow],
) -> Result<BTreeMap<Name, RowChange>, AllocError>
    requires old { IsAscendingByName (λ row. row.class) old.now }
    requires new { IsAscendingByName (λ row. row.class) new.now }
    ensures { IfOk result (λ changes. (c : List ℕ) → get (slice_cmp nat_cmp) changes c
        ≡ change_at old.now new.now c) }
{
    let mut changes = BTreeMap::new(alloc);
    note_changes(alloc, &mut changes, old, new)?;
    Ok(changes)
}
