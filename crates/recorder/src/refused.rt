//! What is kept of a refused read.
ghost use Rattle.std.specs.Prelude.{◌≡◌, ◌≢◌, ◌⊎◌, Some, None};
ghost use Rattle.recorder.specs.declared.reader.ReadFault.{ReadFault};
ghost use Rattle.recorder.specs.Recording.{IsForMemory};

use crate::reader::ReadFault;
use item_ids::Key;
use std::alloc::Global;

/// A refused read: its fault and, unless memory ran out, its key.
#[derive(Drop)]
pub struct Refused {
    pub fault: ReadFault,
    pub key: Option<Key>,
}

/// Memory ran out.
pub(crate) fn for_memory() -> Refused
    ensures { IsForMemory result }
{
    Refused {
        fault: ReadFault::OutOfMemory,
        key: None,
    }
}

/// The fault for the key, unless memory runs out for the key itself.
pub(crate) fn refusal_of(alloc: Global, key: &Key, fault: ReadFault) -> Refused
    ensures { IsForMemory result ⊎ ((result.key ≡ Some key.now) × (result.fault ≡ fault)
        × (fault ≢ ReadFault.OutOfMemory)) }
{
    if fault == ReadFault::OutOfMemory {
        return for_memory();
    }
    match key.copy(alloc) {
        Ok(key) => Refused {
            fault,
            key: Some(key),
        },
        Err(_) => for_memory(),
    }
}
