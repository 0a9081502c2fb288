//! Diagnostics with their places.
ghost use Rattle.std.specs.Prelude.{◌≡◌, IfOk};

use crate::code::Code;
use mj_tree::Place;
use std::alloc::{AllocError, Global};

/// A diagnostic with its place. Diagnostics are ordered by place, then by code.
#[derive(PartialEq, Eq, PartialOrd, Ord)]
pub struct Diagnostic {
    pub place: Place,
    pub code: Code,
}

impl Drop for Diagnostic {
    fn drop(self) {
        let Diagnostic { place: _, code: _ } = self;
    }
}

impl Diagnostic {
    /// An equal diagnostic.
    pub fn copy(&self, alloc: Global) -> Result<Diagnostic, AllocError>
        ensures { IfOk result (λ fault. fault ≡ self.now) }
    {
        Ok(Diagnostic {
            place: self.place.copy(alloc)?,
            code: self.code,
        })
    }
}

/// Equal diagnostics in the same order.
pub fn copy_faults(alloc: Global, faults: &[Diagnostic]) -> Result<Vec<Diagnostic>, AllocError>
    ensures { IfOk result (λ copies. copies.items ≡ faults.now) }
{
    let mut copies = Vec::new(alloc);
    for fault in faults {
        copies.push(fault.copy(alloc)?)?;
    }
    Ok(copies)
}
