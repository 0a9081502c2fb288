//! A key that was read, with its answer.
ghost use Rattle.std.specs.Prelude.{◌≡◌, ◌↔◌, IfOk, IsTrue};
ghost use Rattle.std.specs.Arc.{arc_value};
ghost use Rattle.item_ids.specs.Keys.{IsKey};
ghost use Rattle.result_bytes.specs.Values.{IsValue};
ghost use Rattle.recorder.specs.Backed.{IsTold};

use fingerprint::Sealed;
use item_ids::{Key, is_key};
use std::alloc::{AllocError, Global};
use std::marker::Model;
use std::sync::Arc;

/// A key that was read, with its answer.
pub struct Read {
    key: Key,
    answer: Arc<Sealed>,
}

impl Drop for Read {
    fn drop(self) {
        let Read { key: _, answer: _ } = self;
    }
}

impl Model for Read {
    ghost use Rattle.std.specs.Arc.{arc_value};
    ghost use Rattle.recorder.specs.Backed.{ReadValue};
    ghost use Rattle.recorder.specs.Codes.{coded_read};

    ghost Value = { ReadValue };

    ghost coded = { coded_read };

    ghost view = { λ r. record { key = r.key; value = arc_value r.answer } };
}

impl Read {
    /// A key and its answer.
    pub fn new(key: Key, answer: Arc<Sealed>) -> Self
        ensures { result ≡ record { key = key; value = arc_value answer } }
    {
        Read { key, answer }
    }

    /// The key.
    pub fn key(&self) -> &Key
        ensures key { result.now ≡ self.now.key }
        ensures kept { IsKey self.now.key }
    {
        // A key keeps in its type that its names are names.
        is_key(&self.key);
        &self.key
    }

    /// The answer.
    pub fn answer(&self) -> &Arc<Sealed>
        ensures answer { arc_value result.now ≡ self.now.value }
        ensures kept { IsValue self.now.value }
    {
        // A result keeps in its type what its value's spelling demands.
        let _value = self.answer.value();
        &self.answer
    }

    /// Whether the key was read.
    pub fn is_of(&self, key: &Key) -> bool
        ensures { IsTrue result ↔ (self.now.key ≡ key.now) }
    {
        self.key == *key
    }

    /// The same key with one more owner of the answer.
    pub fn copy(&self, alloc: Global) -> Result<Self, AllocError>
        ensures { IfOk result (λ r. r ≡ self.now) }
    {
        Ok(Read {
            key: self.key.copy(alloc)?,
            answer: Arc::try_clone(&self.answer)?,
        })
    }
}

/// Keys and answers are well formed, as their types keep.
pub(crate) fn is_told(key: &Key, answer: &Arc<Sealed>)
    ensures { IsTold (record { key = key.now; value = arc_value answer.now }) }
{
    is_key(key);
    let _value = answer.value();
}

/// The reads again, each answer with one more owner.
pub(crate) fn copy_reads(alloc: Global, reads: &[Read]) -> Result<Vec<Read>, AllocError>
    ensures { IfOk result (λ v. v.items ≡ reads.now) }
{
    let mut copies = Vec::with_capacity(alloc, reads.len())?;
    for read in reads {
        copies.push(read.copy(alloc)?)?;
    }
    Ok(copies)
}
