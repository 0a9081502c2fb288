//! A reader that answers nothing.

use fingerprint::Sealed;
use item_ids::Key;
use recorder::{ReadFault, Reader};
use std::sync::Arc;

/// A reader that refuses each read with this fault.
#[derive(Clone, Copy, Debug, PartialEq, Eq)]
pub struct Refusing(pub ReadFault);

impl Reader for Refusing {
    ghost use Rattle.std.specs.Prelude.{◌≡◌, refl};
    ghost use Rattle.std.proofs.Common.{◌∙◌};

    ghost answers = { λ r q v. ⊥ };

    ghost faults = { λ r q f. f ≡ r.0 };

    ghost follows = { λ old new. new ≡ old };

    ghost reflexive = { λ s. refl };

    ghost transitive = { λ s t u e f. f ∙ e };

    ghost kept = { λ s t q v e a. a };

    fn read(&mut self, _: &Key) -> Result<Arc<Sealed>, ReadFault> {
        Err(self.0)
    }
}
