//! A reader that keeps what it was asked and given.
ghost use Rattle.std.specs.Prelude.{◌≡◌, ◌⊎◌, List, [], ◌∷◌, ◌++◌, Contains, OnOk, OnErr, IfOk, IfErr, IfSome, Some, None, MatchOption, option_copied};
ghost use Rattle.std.specs.Arc.{arc_value};
ghost use Rattle.std.specs.List.{AllByRecursion};
ghost use Rattle.result_bytes.specs.Values.{IsOfKind};
ghost use Rattle.recorder.specs.Backed.{IsTold};
ghost use Rattle.recorder.specs.Recording.{fault_of, key_of, IsUnread, IsForMemory, IsByReader, KeepsReads, Answers, RefusesRead};

use crate::reader::{ReadFault, Reader};
use crate::readers::reads::Reads;
use crate::refused::{Refused, for_memory, refusal_of};
use crate::told::{Read, is_told};
use fingerprint::Sealed;
use item_ids::Key;
use std::alloc::{AllocError, Global};
use std::marker::Model;
use std::sync::Arc;

/// A reader over another one, which keeps the first read of each key in order with its answer, and answers a repeated
/// read from them. Of a refused read it keeps the fault, which it answers to every read from then on, and, unless
/// memory ran out, the key.
#[derive(Drop)]
pub struct Recorder<D: Reader> {
    alloc: Global,
    inner: D,
    reads: Reads,
    refused: Option<Refused>,
}

impl<D: Reader> Model for Recorder<D> {
    ghost use Rattle.recorder.specs.Recording.{Recording, KeepsReads};
    ghost use Rattle.recorder.specs.Codes.{coded_recording};

    ghost Value = { Recording D };

    ghost coded = { coded_recording D.code };

    ghost view = { λ r. record { inner = r.inner; told = r.reads; refused = r.refused } };

    ghost invariant = { λ r. KeepsReads (D.answers r.inner) (D.faults r.inner) r.reads r.refused };
}

impl<D: Reader> Recorder<D> {
    /// A recorder that hasn't read.
    pub fn new(alloc: Global, inner: D) -> Self
        ensures { result ≡ record { inner = inner; told = []; refused = None } }
    {
        Recorder {
            alloc,
            inner,
            reads: Reads::new(alloc),
            refused: None,
        }
    }

    /// The first reads in order.
    pub fn reads(&self) -> &[Read]
        ensures value { result.now ≡ self.now.told }
        ensures keeps { KeepsReads (D.answers self.now.inner) (D.faults self.now.inner) self.now.told
            self.now.refused }
    {
        self.reads.as_slice()
    }

    /// The fault of the refused read.
    pub fn fault(&self) -> Option<ReadFault>
        ensures { result ≡ fault_of self.now }
    {
        match &self.refused {
            Some(refused) => Some(refused.fault),
            None => None,
        }
    }

    /// The key of the refused read, unless memory ran out.
    pub fn refused_key(&self) -> Option<&Key>
        ensures { option_copied result ≡ key_of self.now }
    {
        match &self.refused {
            Some(refused) => refused.key.as_ref(),
            None => None,
        }
    }

    /// The reader that it stands over.
    pub fn into_reader(self) -> D
        ensures { result ≡ self.inner }
    {
        let Recorder {
            alloc: _,
            inner,
            reads,
            refused,
        } = self;
        drop(reads);
        drop(refused);
        inner
    }
}

impl<D: Reader> Reader for Recorder<D> {
    ghost answers = { λ r q v. D.answers r.inner q v };

    ghost faults = { λ r q f. fault_of r ≡ Some f };

    ghost follows = { λ r s. D.follows r.inner s.inner };

    ghost reflexive = { λ s. D.reflexive s.inner };

    ghost transitive = { λ s t u f g. D.transitive s.inner t.inner u.inner f g };

    ghost kept = { λ s t q v f a. D.kept s.inner t.inner q v f a };

    fn read(&mut self, key: &Key) -> Result<Arc<Sealed>, ReadFault>
        ensures kind { IfOk result (λ a. IsOfKind key.now (arc_value a)) }
        ensures answer { IfOk result (λ a. D.answers self.new.inner key.now (arc_value a)) }
        ensures fault { IfErr result (λ f. fault_of self.new ≡ Some f) }
        ensures follows { D.follows self.old.inner self.new.inner }

        // What is kept of the read.
        ensures ok { IfOk result (λ a. Answers self.old key.now (arc_value a) self.new) }
        ensures err { IfErr result
            (λ f. RefusesRead (D.faults self.new.inner) self.old key.now f self.new) }

        // A key that was read isn't asked again.
        ensures again { IsUnread key.now self.old.told ⊎ (self.new.inner ≡ self.old.inner) }
    {
        if let Some(refused) = &self.refused {
            return Err(refused.fault);
        }
        match answer_of(self.alloc, &mut self.inner, &mut self.reads, key) {
            Ok(answer) => Ok(answer),
            Err(refused) => {
                let fault = refused.fault;
                self.refused = Some(refused);
                Err(fault)
            }
        }
    }
}

/// The answer from what is kept, else by the reader.
fn answer_of<D: Reader>(
    alloc: Global,
    inner: &mut D,
    reads: &mut Reads,
    key: &Key,
) -> Result<Arc<Sealed>, Refused>
    requires keeps { KeepsReads (D.answers inner.old) (D.faults inner.old) reads.old None }
    ensures keeps { KeepsReads (D.answers inner.new) (D.faults inner.new) reads.new None }
    ensures kind { IfOk result (λ a. IsOfKind key.now (arc_value a)) }
    ensures answer { IfOk result (λ a. D.answers inner.new key.now (arc_value a)) }
    ensures ok { IfOk result (λ a.
        ((inner.new ≡ inner.old) × (reads.new ≡ reads.old)
        × Contains reads.old (record { key = key.now; value = arc_value a }))
        ⊎ ((reads.new ≡ reads.old ++ record { key = key.now; value = arc_value a } ∷ [])
        × IsUnread key.now reads.old)) }
    ensures err { IfErr result (λ r. (reads.new ≡ reads.old)
        × (IsForMemory r ⊎ (IsByReader (D.faults inner.new) key.now r
        × IsUnread key.now reads.old))) }
    ensures again { IsUnread key.now reads.old ⊎ (inner.new ≡ inner.old) }
    ensures follows { D.follows inner.old inner.new }
{
    match reads.find(key) {
        Some(read) => kept_answer(read),
        None => first_answer(alloc, inner, reads, key),
    }
}

/// One more owner of the kept answer.
fn kept_answer(read: &Read) -> Result<Arc<Sealed>, Refused>
    ensures ok { IfOk result (λ a. arc_value a ≡ read.now.value) }
    ensures err { IfErr result IsForMemory }
{
    match Arc::try_clone(read.answer()) {
        Ok(answer) => Ok(answer),
        Err(_) => Err(for_memory()),
    }
}

/// Keeps one more read, of a key that has none.
fn keep(alloc: Global, reads: &mut Reads, key: &Key, answer: &Arc<Sealed>) -> Result<(), AllocError>
    requires { IsUnread key.now reads.old }
    ensures ok { OnOk result
        (reads.new ≡ reads.old ++ record { key = key.now; value = arc_value answer.now } ∷ []) }
    ensures err { OnErr result (reads.new ≡ reads.old) }
    ensures kept { IsTold (record { key = key.now; value = arc_value answer.now }) }
{
    // The key and the answer keep in their types what a read keeps.
    is_told(key, answer);
    let read = Read::new(key.copy(alloc)?, Arc::try_clone(answer)?);
    reads.push_unread(alloc, read)
}

/// The reader's answer to a key that wasn't read.
fn first_answer<D: Reader>(
    alloc: Global,
    inner: &mut D,
    reads: &mut Reads,
    key: &Key,
) -> Result<Arc<Sealed>, Refused>
    requires keeps { KeepsReads (D.answers inner.old) (D.faults inner.old) reads.old None }
    requires unread { IsUnread key.now reads.old }
    ensures keeps { KeepsReads (D.answers inner.new) (D.faults inner.new) reads.new None }
    ensures ok { IfOk result (λ a.
        (reads.new ≡ reads.old ++ record { key = key.now; value = arc_value a } ∷ [])
        × IsOfKind key.now (arc_value a) × D.answers inner.new key.now (arc_value a)) }
    ensures err { IfErr result (λ r. (reads.new ≡ reads.old)
        × (IsForMemory r ⊎ IsByReader (D.faults inner.new) key.now r)) }
    ensures follows { D.follows inner.old inner.new }
{
    match inner.read(key) {
        Ok(answer) => match keep(alloc, reads, key, &answer) {
            Ok(()) => Ok(answer),
            Err(_) => Err(for_memory()),
        },
        Err(fault) => Err(refusal_of(alloc, key, fault)),
    }
}
