//! Reads in their order, found by their keys.
ghost use Rattle.std.specs.Prelude.{◌≡◌, ◌<◌, [], ◌∷◌, ◌++◌, Contains, OnOk, OnErr, MatchOption, None, length, option_copied, is_some, true, vec_len, vec_capacity};
ghost use Rattle.std.specs.Ordering.{eq_by_cmp};
ghost use Rattle.item_ids.specs.declared.key.Key.{Key as SpecKey};
ghost use Rattle.item_ids.specs.Keys.{key_cmp};
ghost use Rattle.item_ids.specs.Places.{with_place};
ghost use Rattle.std.specs.HashMap.{get};
ghost use Rattle.recorder.specs.Places.{first_place};
ghost use Rattle.recorder.specs.Recording.{IsUnread, first_read};

use crate::told::Read;
use item_ids::Key;
use std::alloc::{AllocError, AllocFailed, Global};
use std::collections::HashMap;
use std::marker::Model;

/// Reads in their order, with the place of the first one of each key.
pub(crate) struct Reads {
    list: Vec<Read>,
    places: HashMap<Key, usize>,
}

impl Drop for Reads {
    fn drop(self) {
        let Reads { list: _, places: _ } = self;
    }
}

impl Model for Reads {
    ghost use Rattle.std.specs.Prelude.{◌≡◌, List};
    ghost use Rattle.std.specs.Ordering.{eq_by_cmp};
    ghost use Rattle.item_ids.specs.declared.key.Key.{Key as SpecKey};
    ghost use Rattle.item_ids.specs.Keys.{key_cmp};
    ghost use Rattle.std.specs.HashMap.{get};
    ghost use Rattle.recorder.specs.Backed.{ReadValue};
    ghost use Rattle.recorder.specs.Codes.{coded_reads};
    ghost use Rattle.recorder.specs.Places.{first_place};

    ghost Value = { List ReadValue };

    ghost coded = { coded_reads };

    ghost view = { λ r. r.list.items };

    ghost invariant = { λ r. (q : SpecKey)
        → get (eq_by_cmp key_cmp) r.places q ≡ first_place r.list.items q };
}

impl Reads {
    /// No reads.
    pub(crate) fn new(alloc: Global) -> Self
        ensures { result ≡ [] }
    {
        Reads {
            list: Vec::new(alloc),
            places: HashMap::new(alloc),
        }
    }

    /// How many reads there are.
    pub(crate) fn len(&self) -> usize
        ensures { result ≡ length self.now }
    {
        self.list.len()
    }

    /// The reads in order.
    pub(crate) fn as_slice(&self) -> &[Read]
        ensures { result.now ≡ self.now }
    {
        self.list.as_slice()
    }

    /// The first read of the key.
    pub(crate) fn find(&self, key: &Key) -> Option<&Read>
        ensures first { option_copied result ≡ first_read key.now self.now }
        ensures found { MatchOption result (IsUnread key.now self.now)
            (λ r. (r.now.key ≡ key.now) × Contains self.now r.now) }
    {
        match self.places.get(key) {
            Some(at) => Some(&self.list[*at]),
            None => None,
        }
    }

    /// One more read. The first of its key stays the one that is found.
    pub(crate) fn push(&mut self, alloc: Global, read: Read) -> Result<(), AllocError>
        ensures ok { OnOk result (self.new ≡ self.old ++ read ∷ []) }
        ensures err { OnErr result (self.new ≡ self.old) }
    {
        if self.places.contains_key(read.key()) {
            push_again(&mut self.list, &self.places, read)
        } else {
            push_first(alloc, &mut self.list, &mut self.places, read)
        }
    }

    /// One more read, of a key that has none.
    pub(crate) fn push_unread(&mut self, alloc: Global, read: Read) -> Result<(), AllocError>
        requires { IsUnread read.key self.old }
        ensures ok { OnOk result (self.new ≡ self.old ++ read ∷ []) }
        ensures err { OnErr result (self.new ≡ self.old) }
    {
        push_first(alloc, &mut self.list, &mut self.places, read)
    }
}

/// Adds a read of a key that has a place.
fn push_again(
    list: &mut Vec<Read>,
    places: &HashMap<Key, usize>,
    read: Read,
) -> Result<(), AllocError>
    requires places { (q : SpecKey)
        → get (eq_by_cmp key_cmp) places.now q ≡ first_place list.old.items q }
    requires placed { is_some (first_place list.old.items read.key) ≡ true }
    ensures places { (q : SpecKey)
        → get (eq_by_cmp key_cmp) places.now q ≡ first_place list.new.items q }
    ensures ok { OnOk result (list.new.items ≡ list.old.items ++ read ∷ []) }
    ensures err { OnErr result (list.new.items ≡ list.old.items) }
{
    list.push(read)?;
    Ok(())
}

/// Adds the first read of a key, and its place.
fn push_first(
    alloc: Global,
    list: &mut Vec<Read>,
    places: &mut HashMap<Key, usize>,
    read: Read,
) -> Result<(), AllocError>
    requires places { (q : SpecKey)
        → get (eq_by_cmp key_cmp) places.old q ≡ first_place list.old.items q }
    requires unread { first_place list.old.items read.key ≡ None }
    ensures places { (q : SpecKey)
        → get (eq_by_cmp key_cmp) places.new q ≡ first_place list.new.items q }
    ensures ok { OnOk result (list.new.items ≡ list.old.items ++ read ∷ []) }
    ensures err { OnErr result (list.new.items ≡ list.old.items) }
{
    make_place(alloc, list, places, &read)?;
    list.push_reserved(read);
    Ok(())
}

/// Makes room for the first read of a key, and notes its place.
fn make_place(
    alloc: Global,
    list: &mut Vec<Read>,
    places: &mut HashMap<Key, usize>,
    read: &Read,
) -> Result<(), AllocError>
    requires places { (q : SpecKey)
        → get (eq_by_cmp key_cmp) places.old q ≡ first_place list.old.items q }
    requires unread { first_place list.old.items read.now.key ≡ None }
    ensures items { list.new.items ≡ list.old.items }
    ensures room { OnOk result (vec_len list.new < vec_capacity list.new) }
    ensures ok { OnOk result ((q : SpecKey) → get (eq_by_cmp key_cmp) places.new q
        ≡ with_place (get (eq_by_cmp key_cmp) places.old) read.now.key (length list.old.items) q) }
    ensures err { OnErr result ((q : SpecKey) → get (eq_by_cmp key_cmp) places.new q
        ≡ get (eq_by_cmp key_cmp) places.old q) }
{
    list.reserve(1)?;
    note_place(alloc, places, read.key(), list.len())?;
    Ok(())
}

/// Notes the place of a key that has none.
fn note_place(
    alloc: Global,
    places: &mut HashMap<Key, usize>,
    key: &Key,
    at: usize,
) -> Result<(), AllocError>
    requires { get (eq_by_cmp key_cmp) places.old key.now ≡ None }
    ensures ok { OnOk result ((q : SpecKey) → get (eq_by_cmp key_cmp) places.new q
        ≡ with_place (get (eq_by_cmp key_cmp) places.old) key.now at q) }
    ensures err { OnErr result ((q : SpecKey) → get (eq_by_cmp key_cmp) places.new q
        ≡ get (eq_by_cmp key_cmp) places.old q) }
{
    places.insert(key.copy(alloc)?, at)?;
    Ok(())
}
