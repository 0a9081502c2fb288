//! A recorder over a reader that counts what it is asked.
ghost use Rattle.std.specs.Prelude.{◌≡◌, ◌↔◌, List, [], ◌∷◌, ◌++◌, Some, None, IsTrue, IfOk, IfSome, MatchOption, Contains};
ghost use Rattle.std.specs.Arc.{arc_value};
ghost use Rattle.result_bytes.specs.declared.value.Value.{Value as SpecValue};
ghost use Rattle.result_bytes.specs.Values.{canon};
ghost use Rattle.recorder.specs.Recording.{Answers, RefusesRead, fault_of};
ghost use Rattle.recorder.specs.Programs.{Goes, GivesUp as StepGivesUp, Ask as AskStep};
ghost use Rattle.recorder.specs.Backed.{ReadValue};
ghost use Rattle.recorder.specs.Runs.{IsReadFault};
ghost use Rattle.run_fixtures.specs.Reading.{AreReadsOf, KeepsJust};
ghost use Rattle.run_fixtures.specs.Asking.{Counted, MayRefuse, IsAnswered, IsAnsweredTwice, BecomesOf, Becomes, AllBecome, IsAfter, HasAnswer, fresh, asked_by};

use crate::answers::list_of;
use crate::reads::Given;
use crate::refusals::{KeptReads, keeps};
use answer_fixtures::{KeyParts, Unfit, key_of};
use fingerprint::Sealed;
use item_ids::{Key, Kind};
use recorder::{AnswerList, ReadFault, Reader, Recorder, RunFault, ask_key};
use std::alloc::Global;
use std::sync::Arc;

/// A reader over a list, which counts what it was asked.
#[derive(Drop)]
struct CountingReader {
    list: AnswerList,
    count: u64,
}

impl Reader for CountingReader {
    ghost use Rattle.std.specs.Prelude.{◌≡◌, ◌⊎◌, Contains, refl};
    ghost use Rattle.std.proofs.Common.{◌∙◌, sym, subst};
    ghost use Rattle.recorder.specs.Recording.{IsUnread};
    ghost use Rattle.recorder.specs.declared.reader.ReadFault.TheVariants.{NotHeld, OutOfMemory};

    ghost answers = { λ r q v. Contains r.list (record { key = q; value = v }) };

    ghost faults = { λ r q f. (f ≡ OutOfMemory) ⊎ ((f ≡ NotHeld) × IsUnread q r.list) };

    ghost follows = { λ old new. new.list ≡ old.list };

    ghost reflexive = { λ s. refl };

    ghost transitive = { λ s t u e f. f ∙ e };

    ghost kept = { λ s t q v e a. subst
        (λ list. Contains list (record { key = q; value = v })) (sym e) a };

    fn read(&mut self, key: &Key) -> Result<Arc<Sealed>, ReadFault> {
        self.count = self.count.wrapping_add(1);
        self.list.read(key)
    }
}

/// A key that a recorder is asked for, and the outcome of that.
#[derive(Clone, Copy, Debug)]
pub enum Ask<'a> {
    /// It has an answer, a source; a step of a program is given it again.
    Again(KeyParts<'a>),
    /// It has an answer.
    Answered(KeyParts<'a>),
    /// No answer is held.
    NotHeld(KeyParts<'a>),
    /// A step of a program gives up, because no answer is held.
    GivesUp(KeyParts<'a>),
}

/// Whether a step that asks the key is given this answer.
fn is_given_again(recorder: &mut Recorder<CountingReader>, key: &Key, answer: &Arc<Sealed>) -> bool
    ensures { IsTrue result → (again : SpecValue)
        × Goes (AskStep key.now) recorder.old again recorder.new
        × (canon again ≡ canon (arc_value answer.now)) }
{
    match ask_key(recorder, key) {
        Ok(again) => again.bytes() == answer.bytes(),
        Err(_) => false,
    }
}

/// Whether the key has an answer, a source, which is given again.
fn is_answered_twice(recorder: &mut Recorder<CountingReader>, key: &Key) -> bool
    ensures { IsTrue result → IsAnsweredTwice key.now recorder.old recorder.new }
{
    match recorder.read(key) {
        Ok(answer) => {
            answer.value().kind() == Kind::Source && is_given_again(recorder, key, &answer)
        }
        Err(_) => false,
    }
}

/// Why the key has no answer.
fn read_fault(recorder: &mut Recorder<CountingReader>, key: &Key) -> Option<ReadFault>
    ensures { MatchOption result (IsAnswered key.now recorder.old recorder.new)
        (λ fault. RefusesRead (MayRefuse recorder.new.inner.list) recorder.old key.now fault
        recorder.new) }
{
    match recorder.read(key) {
        Ok(_) => None,
        Err(fault) => Some(fault),
    }
}

/// Why a step that asks the key gives up.
fn step_fault(recorder: &mut Recorder<CountingReader>, key: &Key) -> Option<RunFault>
    ensures { IfSome result (λ fault.
        StepGivesUp (AskStep key.now) recorder.old fault recorder.new
        × IsReadFault recorder.new fault) }
{
    match ask_key(recorder, key) {
        Ok(_) => None,
        Err(fault) => Some(fault),
    }
}

/// The key that is asked for.
fn asked_by(ask: Ask) -> KeyParts
    ensures { result ≡ asked_by ask.entry }
{
    match ask {
        Ask::Again(asked) | Ask::Answered(asked) | Ask::NotHeld(asked) | Ask::GivesUp(asked) => {
            asked
        }
    }
}

/// Whether the key has this outcome.
fn becomes_of(recorder: &mut Recorder<CountingReader>, key: &Key, ask: Ask) -> bool
    ensures { IsTrue result → BecomesOf ask.entry key.now recorder.old recorder.new }
{
    match ask {
        Ask::Again(_) => is_answered_twice(recorder, key),
        Ask::Answered(_) => read_fault(recorder, key).is_none(),
        Ask::NotHeld(_) => read_fault(recorder, key) == Some(ReadFault::NotHeld),
        Ask::GivesUp(_) => { step_fault(recorder, key) == Some(RunFault::Read(ReadFault::NotHeld)) }
    }
}

/// Whether the key that is given has its outcome.
fn becomes(alloc: Global, recorder: &mut Recorder<CountingReader>, ask: Ask) -> Result<bool, Unfit>
    ensures { IfOk result (λ b. IsTrue b → Becomes ask.entry recorder.old recorder.new) }
{
    let key = key_of(alloc, asked_by(ask))?;
    Ok(becomes_of(recorder, &key, ask))
}

/// Whether the keys have these outcomes, one after the other.
fn all_become(
    alloc: Global,
    recorder: &mut Recorder<CountingReader>,
    asks: &[Ask],
) -> Result<bool, Unfit>
    ensures { IfOk result (λ b. IsTrue b → AllBecome asks.now recorder.old recorder.new) }
{
    for ask in asks {
        if !becomes(alloc, recorder, *ask)? {
            return Ok(false);
        }
    }
    Ok(true)
}

/// A recorder over the list of these answers.
fn recorder_of(alloc: Global, answers: &[Given]) -> Result<Recorder<CountingReader>, Unfit>
    ensures { IfOk result (λ r. (list : List ReadValue) × AreReadsOf answers.now list
        × (r ≡ fresh list)) }
{
    let list = list_of(alloc, answers)?;
    Ok(Recorder::new(alloc, CountingReader { list, count: 0 }))
}

/// The reader of a recorder that was asked for these keys.
fn reader_after(alloc: Global, answers: &[Given], asks: &[Ask]) -> Result<CountingReader, Unfit>
    ensures { IfOk result (λ reader. (end : Counted) × IsAfter answers.now asks.now end
        × (reader ≡ end.inner)) }
{
    let mut recorder = recorder_of(alloc, answers)?;
    let is_right = all_become(alloc, &mut recorder, asks);
    let reader = recorder.into_reader();
    match is_right {
        Ok(true) => Ok(reader),
        _ => Err(Unfit),
    }
}

/// Whether the keys have these outcomes, one after the other, and the recorder then keeps just this.
fn become_kept(
    alloc: Global,
    recorder: &mut Recorder<CountingReader>,
    asks: &[Ask],
    kept: KeptReads,
) -> Result<bool, Unfit>
    ensures { IfOk result (λ b. IsTrue b → AllBecome asks.now recorder.old recorder.new
        × KeepsJust kept.entry recorder.new) }
{
    match all_become(alloc, recorder, asks) {
        Ok(true) => keeps(alloc, recorder, kept),
        other => other,
    }
}

/// Whether the keys have these outcomes by a recorder over the list of these answers, which then keeps just this.
pub fn keeps_after(
    alloc: Global,
    answers: &[Given],
    asks: &[Ask],
    kept: KeptReads,
) -> Result<bool, Unfit>
    ensures { IfOk result (λ b. IsTrue b → (end : Counted) × IsAfter answers.now asks.now end
        × KeepsJust kept.entry end) }
{
    let mut recorder = recorder_of(alloc, answers)?;
    become_kept(alloc, &mut recorder, asks, kept)
}

/// How often the reader of such a recorder was asked.
pub fn count_after(alloc: Global, answers: &[Given], asks: &[Ask]) -> Result<u64, Unfit>
    ensures { IfOk result (λ count. (end : Counted) × IsAfter answers.now asks.now end
        × (count ≡ end.inner.count)) }
{
    Ok(reader_after(alloc, answers, asks)?.count)
}

/// Whether the reader of such a recorder has an answer for the key.
pub fn answers_after(
    alloc: Global,
    answers: &[Given],
    asks: &[Ask],
    asked: KeyParts,
) -> Result<bool, Unfit>
    ensures { IfOk result (λ b. IsTrue b → (end : Counted) × IsAfter answers.now asks.now end
        × HasAnswer end.inner.list asked.entry) }
{
    let mut reader = reader_after(alloc, answers, asks)?;
    is_answered(alloc, &mut reader, asked)
}

/// Whether the reader has an answer for the key.
fn is_answered(alloc: Global, reader: &mut CountingReader, asked: KeyParts) -> Result<bool, Unfit>
    ensures { IfOk result (λ b. IsTrue b → HasAnswer reader.old.list asked.entry) }
{
    let key = key_of(alloc, asked)?;
    Ok(reader.read(&key).is_ok())
}
