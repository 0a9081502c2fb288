//! Keys and places that may not be repeated.
ghost use Rattle.std.specs.Prelude.{◌≡◌, [], IfOk, MatchOption, MatchBool};
ghost use Rattle.redgreen_audit.specs.Checks.{HaveOnce, HaveNew};
ghost use Rattle.redgreen_audit.specs.Refusals.{Repeats};

use indexmap::IndexSet;
use redgreen_sessions::Record;
use std::alloc::{AllocError, Global};

/// The first record that has the key of an earlier one.
pub(crate) fn first_repeated(alloc: Global, records: &[Record]) -> Result<Option<usize>, AllocError>
    ensures { IfOk result (λ o. MatchOption o (HaveNew [] records.now) (Repeats records.now)) }
{
    let mut seen: IndexSet<&[u8]> = IndexSet::with_capacity(alloc, records.len())?;
    for (n, item) in records.iter().enumerate() {
        let (_, new) = seen.insert_full(item.key.as_slice())?;
        if !new {
            return Ok(Some(n));
        }
    }
    Ok(None)
}

/// Whether no place is there twice.
pub(crate) fn are_distinct(alloc: Global, places: &[usize]) -> Result<bool, AllocError>
    ensures { IfOk result (λ b. MatchBool b (HaveOnce [] places.now) (HaveOnce [] places.now → ⊥)) }
{
    let mut seen: IndexSet<usize> = IndexSet::with_capacity(alloc, places.len())?;
    for place in places {
        let (_, new) = seen.insert_full(*place)?;
        if !new {
            return Ok(false);
        }
    }
    Ok(true)
}
