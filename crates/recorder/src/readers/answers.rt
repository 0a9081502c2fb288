//! A reader over a list of answers.
ghost use Rattle.std.specs.Prelude.{◌≡◌, ◌⊎◌, [], ◌∷◌, ◌++◌, Contains, OnOk, OnErr, MatchOption, length, option_copied};
ghost use Rattle.std.specs.Arc.{arc_value};
ghost use Rattle.result_bytes.specs.Values.{IsOfKind};
ghost use Rattle.recorder.specs.Recording.{IsUnread, first_read};

use crate::reader::{ReadFault, Reader};
use crate::readers::reads::Reads;
use crate::told::Read;
use fingerprint::Sealed;
use item_ids::Key;
use std::alloc::{AllocError, Global};
use std::marker::Model;
use std::sync::Arc;

/// Keys with their answers, each of the key's kind, found by key. It has no answer for any other key.
pub struct AnswerList {
    alloc: Global,
    reads: Reads,
}

impl Drop for AnswerList {
    fn drop(self) {
        let AnswerList { alloc: _, reads: _ } = self;
    }
}

impl Model for AnswerList {
    ghost use Rattle.std.specs.Prelude.{List};
    ghost use Rattle.std.specs.List.{AllByRecursion};
    ghost use Rattle.result_bytes.specs.Values.{IsOfKind};
    ghost use Rattle.recorder.specs.Backed.{ReadValue};
    ghost use Rattle.recorder.specs.Codes.{coded_reads};

    ghost Value = { List ReadValue };

    ghost coded = { coded_reads };

    ghost view = { λ a. a.reads };

    ghost invariant = { λ a. AllByRecursion (λ t. IsOfKind t.key t.value) a.reads };
}

impl AnswerList {
    /// No answers.
    pub fn new(alloc: Global) -> Self
        ensures { result ≡ [] }
    {
        AnswerList {
            alloc,
            reads: Reads::new(alloc),
        }
    }

    /// How many answers there are.
    pub fn len(&self) -> usize
        ensures { result ≡ length self.now }
    {
        self.reads.len()
    }

    /// One more answer. A key that has one already keeps it.
    pub fn add(&mut self, key: Key, answer: Arc<Sealed>) -> Result<(), AllocError>
        requires { IsOfKind key (arc_value answer) }
        ensures ok { OnOk result (self.new
            ≡ self.old ++ record { key = key; value = arc_value answer } ∷ []) }
        ensures err { OnErr result (self.new ≡ self.old) }
    {
        self.reads.push(self.alloc, Read::new(key, answer))
    }

    /// The key with its first answer, which is of the key's kind.
    pub fn find(&self, key: &Key) -> Option<&Read>
        ensures first { option_copied result ≡ first_read key.now self.now }
        ensures found { MatchOption result (IsUnread key.now self.now)
            (λ r. (r.now.key ≡ key.now) × Contains self.now r.now) }
        ensures kind { MatchOption result (IsUnread key.now self.now)
            (λ r. IsOfKind key.now r.now.value) }
    {
        self.reads.find(key)
    }
}

impl Reader for AnswerList {
    ghost use Rattle.std.specs.Prelude.{◌≡◌, ◌⊎◌, Contains, refl};
    ghost use Rattle.std.proofs.Common.{◌∙◌, sym, subst};
    ghost use Rattle.recorder.specs.declared.reader.ReadFault.TheVariants.{NotHeld, OutOfMemory};

    ghost answers = { λ list q v. Contains list (record { key = q; value = v }) };

    ghost faults = { λ list q f. (f ≡ OutOfMemory) ⊎ ((f ≡ NotHeld) × IsUnread q list) };

    ghost follows = { λ old new. new ≡ old };

    ghost reflexive = { λ s. refl };

    ghost transitive = { λ s t u e f. f ∙ e };

    ghost kept = { λ s t q v e a. subst
        (λ list. Contains list (record { key = q; value = v })) (sym e) a };

    fn read(&mut self, key: &Key) -> Result<Arc<Sealed>, ReadFault> {
        match self.find(key) {
            Some(read) => match Arc::try_clone(read.answer()) {
                Ok(answer) => Ok(answer),
                Err(_) => Err(ReadFault::OutOfMemory),
            },
            None => Err(ReadFault::NotHeld),
        }
    }
}
