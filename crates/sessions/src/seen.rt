//! Which records are edges.
ghost use Rattle.std.specs.Prelude.{◌≡◌, ◌+◌, ◌<◌, ◌↔◌, [], false, true, length, OnOk, IsTrue, if◌then◌else◌, slice_set};
ghost use Rattle.std.specs.List.{AllByRecursion};
ghost use Rattle.item_ids.specs.Inputs.{rank as rank_of_key};
ghost use Rattle.sessions.specs.Sessions.{key_at, IsEdge};
ghost use Rattle.sessions.specs.Edges.{IsNewEdge};

use crate::record::Record;
use item_ids::{Key, rank};
use std::alloc::{AllocError, Global};
use std::marker::Model;

/// Which of the earlier records are edges of a record so far. Contracts see a boolean for each.
#[derive(Drop)]
pub struct SeenEdges {
    // for each earlier record, the index of the last record that was seen to have it as an edge, and 0 for none
    last: Vec<usize>,
}

impl Model for SeenEdges {
    ghost use Rattle.std.specs.Prelude.{◌≤◌, Bool, List, length};
    ghost use Rattle.std.specs.List.{AllByRecursion};
    ghost use Rattle.sessions.specs.Edges.{seen_in};

    ghost Value = { List Bool };

    ghost view = { λ s. seen_in (length s.last.items) s.last.items };

    ghost invariant = { λ s. AllByRecursion (λ at. at ≤ length s.last.items) s.last.items };
}

impl SeenEdges {
    /// No edges, for the first record, which has no earlier one.
    pub fn new(alloc: Global) -> Self
        ensures { result ≡ [] }
    {
        SeenEdges {
            last: Vec::new(alloc),
        }
    }

    /// Begins the next record, which has no edge yet.
    pub fn next(&mut self) -> Result<(), AllocError>
        ensures length { OnOk result (length self.new ≡ length self.old + 1) }
        ensures unseen { OnOk result (AllByRecursion (λ seen. seen ≡ false) self.new) }
    {
        self.last.push(0)?;
        Ok(())
    }

    /// Whether an edge of a key is the index of an earlier record whose key has a lower rank, and wasn't seen; from now
    /// on it was.
    pub fn admit(&mut self, front: &[Record], key: &Key, edge: usize) -> bool
        requires { length self.old ≡ length front.now }
        ensures admitted { IsTrue result ↔ IsNewEdge self.old front.now key.now edge }
        ensures seen { self.new ≡ (if result then slice_set self.old edge true else self.old) }
    {
        if !is_edge(front, edge, key) {
            return false;
        }
        if self.last[edge] == self.last.len() {
            return false;
        }
        see(&mut self.last, edge);
        true
    }
}

/// Notes at an index that the current record has it as an edge.
fn see(last: &mut Vec<usize>, index: usize)
    requires { index < length last.old.items }
    ensures { last.new.items ≡ slice_set last.old.items index (length last.old.items) }
{
    let now = last.len();
    last[index] = now;
}

/// Whether an edge of a key is the index of an earlier record whose key has a lower rank.
fn is_edge(front: &[Record], edge: usize, key: &Key) -> bool
    ensures { IsTrue result ↔ IsEdge front.now key.now edge }
{
    edge < front.len() && is_below(front, edge, key)
}

/// Whether the key of the record at an index has a lower rank than a key.
fn is_below(front: &[Record], index: usize, key: &Key) -> bool
    requires { index < length front.now }
    ensures { IsTrue result ↔ (rank_of_key (key_at front.now index) < rank_of_key key.now) }
{
    let record = &front[index];
    rank(record.key().kind()) < rank(key.kind())
}
