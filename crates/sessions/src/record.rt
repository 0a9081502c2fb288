//! Records of keys.
ghost use Rattle.std.specs.Prelude.{◌≡◌};
ghost use Rattle.std.specs.Arc.{arc_value};
ghost use Rattle.sessions.specs.Sessions.{RecordValue};

use crate::mark::Mark;
use fingerprint::Sealed;
use item_ids::Key;
use std::marker::Model;
use std::sync::Arc;

/// What a session keeps of a key: how it became done, what it read, and its result. Contracts see the result's value.
pub struct Record {
    key: Key,
    mark: Mark,
    edges: Vec<usize>,
    sealed: Arc<Sealed>,
}

impl Drop for Record {
    fn drop(self) {
        let Record {
            key: _,
            mark: _,
            edges: _,
            sealed: _,
        } = self;
    }
}

impl Model for Record {
    ghost use Rattle.std.specs.Arc.{arc_value};
    ghost use Rattle.sessions.specs.Sessions.{RecordValue};
    ghost use Rattle.result_bytes.specs.contracts.value.Value as value_contracts;
    ghost use Rattle.std.specs.Coded.{codes};

    ghost Value = { RecordValue };

    ghost coded = { Prim.hlevel (codes, value_contracts.the_row.coded) };

    ghost view = { λ r.
        record { key = r.key; mark = r.mark; edges = r.edges.items; value = arc_value r.sealed } };
}

impl Record {
    /// The record of a key, whose edges are the indices of records.
    pub fn new(key: Key, mark: Mark, edges: Vec<usize>, sealed: Arc<Sealed>) -> Self
        ensures { result
            ≡ record { key = key; mark = mark; edges = edges.items; value = arc_value sealed } }
    {
        Record {
            key,
            mark,
            edges,
            sealed,
        }
    }

    /// The key.
    pub fn key(&self) -> &Key
        ensures { result.now ≡ self.now.key }
    {
        &self.key
    }

    /// How the key became done.
    pub fn mark(&self) -> Mark
        ensures { result ≡ self.now.mark }
    {
        self.mark
    }

    /// The indices of the records of the keys that it read, in order.
    pub fn edges(&self) -> &[usize]
        ensures { result.now ≡ self.now.edges }
    {
        self.edges.as_slice()
    }

    /// The sealed result.
    pub fn sealed(&self) -> &Arc<Sealed>
        ensures { arc_value result.now ≡ self.now.value }
    {
        &self.sealed
    }
}
