//! What is known of a changed value.
ghost use Rattle.std.specs.Prelude.{◌≡◌, IfOk, option_copied};
ghost use Rattle.kept_laws.specs.Parts.{declared_in};
ghost use Rattle.kept_laws.specs.Tests.{same_declared};
ghost use Rattle.kept_results.specs.Changes.{Tells};

use crate::declared::roots_declare_same;
use crate::rows::row_changes;
use item_ids::Key;
use ordered_names::Name;
use result_bytes::Value;
use std::alloc::{AllocError, Global};
use std::collections::BTreeMap;
use tree_bytes::Tree;

/// What becomes of the row of a class in the index.
#[derive(Clone, Copy, PartialEq, Eq)]
pub enum RowChange {
    /// The class is in another file.
    Moves,
    /// The class comes or goes.
    ComesOrGoes,
}

/// What is known of the change of a key's value.
pub enum Change {
    /// Of the tree of a file: whether it declares the same.
    Tree(bool),
    /// Of the index: the classes whose rows differ.
    Index(BTreeMap<Name, RowChange>),
    /// Of any other key nothing.
    Other,
}

impl Drop for Change {
    fn drop(self) {
        match self {
            Change::Tree(_) | Change::Index(_) | Change::Other => {}
        }
    }
}

/// Whether two trees declare the same, if they are those of sentences.
fn declare_same(old: Option<&Tree>, new: Option<&Tree>) -> bool
    ensures { result ≡ same_declared (declared_in (option_copied old.entry))
        (declared_in (option_copied new.entry)) }
{
    match old {
        Some(old) => match new {
            Some(new) => roots_declare_same(old.root(), new.root()),
            None => false,
        },
        None => new.is_none(),
    }
}

/// What is known of the change of a key from one value to another.
pub(crate) fn change_of(
    alloc: Global,
    read: &Key,
    old: &Value,
    new: &Value,
) -> Result<Change, AllocError>
    ensures { IfOk result (λ change. Tells change read.now old.now new.now) }
{
    match read {
        Key::Tree(_) => Ok(Change::Tree(declare_same(old.tree(), new.tree()))),
        Key::Index => {
            let rows = row_changes(alloc, old.index(), new.index())?;
            Ok(Change::Index(rows))
        }
        _ => Ok(Change::Other),
    }
}
