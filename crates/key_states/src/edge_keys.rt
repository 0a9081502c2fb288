//! The keys that were read for a key.
ghost use Rattle.std.specs.Prelude.{◌≡◌, ◌<◌, [], length, map, IfOk, slice_index_or};
ghost use Rattle.std.specs.Arc.{arc_value};
ghost use Rattle.item_ids.specs.declared.key.Key.{Key as KeyValue};
ghost use Rattle.sessions.specs.Sessions.{AreInside, key_at};
ghost use Rattle.key_states.specs.KeptKeys.{edges_at, reads_at};

use item_ids::Key;
use sessions::Session;
use std::alloc::{AllocError, Global};
use std::marker::Model;
use std::sync::Arc;

/// The keys that were read for a key. Those of a record of the previous session aren't copied: its edges lead to them.
/// Contracts see the keys.
pub struct EdgeKeys {
    kept: KeptKeys,
}

impl Drop for EdgeKeys {
    fn drop(self) {
        let EdgeKeys { kept: _ } = self;
    }
}

/// Keys, or the previous session and the index of its record whose edges lead to the keys.
enum KeptKeys {
    Own(Vec<Key>),
    Past(Arc<Session>, usize),
}

impl Drop for KeptKeys {
    fn drop(self) {
        match self {
            KeptKeys::Own(_) | KeptKeys::Past(_, _) => {}
        }
    }
}

impl Model for EdgeKeys {
    ghost use Rattle.std.specs.Prelude.{List};
    ghost use Rattle.item_ids.specs.declared.key.Key.{Key as KeyValue};
    ghost use Rattle.key_states.specs.KeptKeys.{keys_in, AreThere};

    ghost Value = { List KeyValue };

    ghost view = { λ edges. keys_in edges.kept };

    ghost invariant = { λ edges. AreThere edges.kept };
}

impl EdgeKeys {
    /// No keys.
    pub fn none(alloc: Global) -> Self
        ensures { result ≡ [] }
    {
        EdgeKeys::own(Vec::new(alloc))
    }

    /// These keys.
    pub fn own(keys: Vec<Key>) -> Self
        ensures { result ≡ keys.items }
    {
        EdgeKeys {
            kept: KeptKeys::Own(keys),
        }
    }

    /// The keys that were read for the previous session's record at an index.
    pub fn of_past(past: &Arc<Session>, at: usize) -> Result<Self, AllocError>
        requires { at < length (arc_value past.now).records }
        ensures { IfOk result (λ edges. edges ≡ reads_at (arc_value past.now).records at) }
    {
        let shared = Arc::try_clone(past)?;
        Ok(EdgeKeys {
            kept: KeptKeys::Past(shared, at),
        })
    }

    /// How many keys there are.
    pub fn len(&self) -> usize
        ensures { result ≡ length self.now }
    {
        match &self.kept {
            KeptKeys::Own(keys) => {
                let own = keys.as_slice();
                own.len()
            }
            KeptKeys::Past(past, at) => {
                let edges = edges_of(past, *at);
                edges.len()
            }
        }
    }

    /// The key at a place.
    pub fn at(&self, place: usize) -> &Key
        requires { place < length self.now }
        ensures { result.now ≡ slice_index_or self.now place result.now }
    {
        match &self.kept {
            KeptKeys::Own(keys) => {
                let own = keys.as_slice();
                own_key(own, place)
            }
            KeptKeys::Past(past, at) => {
                let edges = edges_of(past, *at);
                past_key(past, edges, place)
            }
        }
    }
}

/// The key at a place.
fn own_key(keys: &[Key], place: usize) -> &Key
    requires { place < length keys.now }
    ensures { result.now ≡ slice_index_or keys.now place result.now }
{
    &keys[place]
}

/// The edges of the record at an index.
fn edges_of(past: &Session, at: usize) -> &[usize]
    requires { at < length past.now.records }
    ensures edges { result.now ≡ edges_at past.now.records at }
    ensures inside { AreInside past.now.records result.now }
{
    past.records()[at].edges()
}

/// The key that the edge at a place leads to.
fn past_key<'a>(past: &'a Session, edges: &[usize], place: usize) -> &'a Key
    requires place { place < length edges.now }
    requires inside { AreInside past.now.records edges.now }
    ensures { result.now ≡ slice_index_or (map (key_at past.now.records) edges.now) place result.now }
{
    let edge = edges[place];
    past.records()[edge].key()
}
