//! What answers the reads of a run.
ghost use Rattle.std.specs.Prelude.{IfOk, IfErr};
ghost use Rattle.std.specs.Arc.{arc_value};
ghost use Rattle.item_ids.specs.declared.key.Key.{Key};
ghost use Rattle.result_bytes.specs.declared.value.Value.{Value};
ghost use Rattle.result_bytes.specs.Values.{IsOfKind};
ghost use Rattle.recorder.specs.declared.reader.ReadFault.{ReadFault};

use fingerprint::Sealed;
use item_ids::Key;
use std::sync::Arc;
use thiserror::Error;

/// Why a read isn't answered.
#[derive(Clone, Copy, Debug, PartialEq, Eq, Error)]
pub enum ReadFault {
    /// The work on all queries has ended.
    #[error("7.1 Stopped")]
    Stopped,
    /// Memory ran out.
    #[error("7.2 OutOfMemory")]
    OutOfMemory,
    /// The reader holds no answer for the key.
    #[error("7.3 NotHeld")]
    NotHeld,
}

/// What answers the reads of a run.
pub trait Reader {
    /// The answers that it may give for a key.
    ghost answers: { Self → Key → Value → Type 0 };

    /// The faults that it may give for a key.
    ghost faults: { Self → Key → ReadFault → Type 0 };

    /// The states that may come after a state.
    ghost follows: { Self → Self → Type 0 };

    /// The sealed result of the key, which is of the key's kind.
    fn read(&mut self, key: &Key) -> Result<Arc<Sealed>, ReadFault>
        ensures kind { IfOk result (λ a. IsOfKind key.now (arc_value a)) }
        ensures answer { IfOk result (λ a. answers self.new key.now (arc_value a)) }
        ensures fault { IfErr result (λ f. faults self.new key.now f) }
        ensures follows { follows self.old self.new };

    ghost reflexive: { (s : Self) → follows s s };

    ghost transitive: { (s t u : Self) → follows s t → follows t u → follows s u };

    /// An answer given stays one that it may give.
    ghost kept: { (s t : Self) (q : Key) (v : Value) → follows s t → answers s q v
        → answers t q v };
}
