//! Lists of byte strings.
ghost use Rattle.std.specs.Prelude.{◌≡◌, map, IfOk};

use redgreen_sessions::Bytes;
use std::alloc::{AllocError, Global};
use std::marker::Model;

/// Byte strings, in order.
pub struct ByteStrings {
    list: Vec<Bytes>,
}

impl Drop for ByteStrings {
    fn drop(self) {
        let ByteStrings { list: _ } = self;
    }
}

impl Model for ByteStrings {
    ghost use Rattle.std.specs.Prelude.{ℕ, List};

    ghost Value = { List (List ℕ) };

    ghost view = { λ s. s.list.items };
}

impl ByteStrings {
    /// These byte strings.
    pub fn of(list: Vec<Bytes>) -> ByteStrings
        ensures { result ≡ list.items }
    {
        ByteStrings { list }
    }

    /// The byte strings themselves.
    pub fn as_slice(&self) -> &[Bytes]
        ensures { result.now ≡ self.now }
    {
        self.list.as_slice()
    }

    /// The byte strings as slices.
    pub(crate) fn slices(&self, alloc: Global) -> Result<Vec<&[u8]>, AllocError>
        ensures { IfOk result (λ slices. map (λ string. string.now) slices.items ≡ self.now) }
    {
        let mut slices = Vec::new(alloc);
        let list = self.as_slice();
        for string in list {
            slices.push(string.as_slice())?;
        }
        Ok(slices)
    }
}
