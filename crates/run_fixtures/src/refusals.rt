//! What is left of runs whose reads are refused.
ghost use Rattle.std.specs.Prelude.{◌≡◌, ◌↔◌, ◌<◌, List, [], Some, None, IsTrue, IfOk, option_copied};
ghost use Rattle.item_ids.specs.Inputs.{rank as rank_of};
ghost use Rattle.recorder.specs.Backed.{ReadValue};
ghost use Rattle.recorder.specs.Recording.{Recording, fault_of};
ghost use Rattle.recorder.specs.declared.reader.ReadFault.TheVariants.{NotHeld};
ghost use Rattle.run_fixtures.specs.declared.sample.refusing.Refusing.{Refusing as SpecRefusing};
ghost use Rattle.answer_fixtures.specs.Telling.{IsKeyOf};
ghost use Rattle.run_fixtures.specs.Reading.{AreReadsOf, IsRefusedKey, KeepsJust, IsLoggedAs, IsHalted, IsLeft, IsLeftUnread};

use crate::answers::list_of;
use crate::reads::{Given, are_reads};
use crate::runs::query_of;
use crate::sample::{Refusing, SampleRunner};
use answer_fixtures::{KeyParts, Unfit, is_key};
use item_ids::Key;
use profiles::Profile;
use recorder::{ReadFault, Reader, Recorder, RunFault, record};
use std::alloc::Global;

/// What a recorder keeps: the reads in order, the fault, and the key that was refused, if any.
#[derive(Clone, Copy, Debug)]
pub struct KeptReads<'a> {
    pub reads: &'a [Given<'a>],
    pub fault: Option<ReadFault>,
    pub refused: Option<KeyParts<'a>>,
}

/// Whether this is the key, or both are missing.
fn is_refused(key: Option<&Key>, refused: Option<KeyParts>) -> bool
    ensures { IsTrue result ↔ IsRefusedKey refused.entry (option_copied key.entry) }
{
    match (key, refused) {
        (Some(key), Some(asked)) => is_key(key, asked),
        (None, None) => true,
        _ => false,
    }
}

/// Whether the recorder keeps just this.
pub fn keeps<D: Reader>(
    alloc: Global,
    recorder: &Recorder<D>,
    kept: KeptReads,
) -> Result<bool, Unfit>
    ensures { IfOk result (λ b. IsTrue b ↔ KeepsJust kept.entry recorder.now) }
{
    Ok(
        recorder.fault() == kept.fault
            && is_refused(recorder.refused_key(), kept.refused)
            && are_reads(alloc, recorder.reads(), kept.reads)?,
    )
}

/// Whether just this one key is logged.
fn is_logged(log: &[Key], asked: KeyParts) -> bool
    ensures { IsTrue result ↔ IsLoggedAs log.now asked.entry }
{
    match log {
        [key] => is_key(key, asked),
        _ => false,
    }
}

/// Whether the recorded run ends with the refused read, and is logged.
fn is_ended<D: Reader>(
    alloc: Global,
    key: &Key,
    recorder: &mut Recorder<D>,
    asked: KeyParts,
    fault: ReadFault,
) -> bool
    requires no_input { 0 < rank_of key.now }
    requires unread { recorder.old.told ≡ [] }
    requires unrefused { recorder.old.refused ≡ None }
    requires told { IsKeyOf asked key.now }
    ensures fault { IsTrue result → fault_of recorder.new ≡ Some fault }
    ensures halted { IsHalted asked.entry recorder.new }
    ensures follows { D.follows recorder.old.inner recorder.new.inner }
{
    let mut runner = SampleRunner::new(alloc);
    let end = record(alloc, &mut runner, Profile::One, key, recorder).err();
    end == Some(RunFault::Read(fault)) && is_logged(runner.log(), asked)
}

/// Whether the recorded run ends with the refused read and is logged, and the recorder keeps just this.
fn is_left<D: Reader>(
    alloc: Global,
    key: &Key,
    recorder: &mut Recorder<D>,
    asked: KeyParts,
    fault: ReadFault,
    kept: KeptReads,
) -> Result<bool, Unfit>
    requires no_input { 0 < rank_of key.now }
    requires unread { recorder.old.told ≡ [] }
    requires unrefused { recorder.old.refused ≡ None }
    requires told { IsKeyOf asked key.now }
    ensures left { IfOk result (λ b. IsTrue b → IsLeft asked.entry fault kept.entry recorder.new) }
    ensures follows { D.follows recorder.old.inner recorder.new.inner }
{
    if is_ended(alloc, key, recorder, asked, fault) {
        keeps(alloc, recorder, kept)
    } else {
        Ok(false)
    }
}

/// Whether the key's run over the reader ends with the refused read and is logged, and the recorder keeps just this.
fn leaves_over<D: Reader + Drop>(
    alloc: Global,
    key: &Key,
    reader: D,
    asked: KeyParts,
    fault: ReadFault,
    kept: KeptReads,
) -> Result<bool, Unfit>
    requires no_input { 0 < rank_of key.now }
    requires told { IsKeyOf asked key.now }
    ensures { IfOk result (λ b. IsTrue b → (r : Recording D) × D.follows reader r.inner
        × IsLeft asked.entry fault kept.entry r) }
{
    let mut recorder = Recorder::new(alloc, reader);
    is_left(alloc, key, &mut recorder, asked, fault, kept)
}

/// Whether the key's run over the answers that are kept wants an answer that isn't held and is logged, and the recorder
/// keeps just this.
fn leaves_by(alloc: Global, key: &Key, asked: KeyParts, kept: KeptReads) -> Result<bool, Unfit>
    requires no_input { 0 < rank_of key.now }
    requires told { IsKeyOf asked key.now }
    ensures { IfOk result (λ b. IsTrue b → (r : Recording (List ReadValue))
        × AreReadsOf kept.entry.reads.now r.inner
        × IsLeft asked.entry NotHeld kept.entry r) }
{
    let list = list_of(alloc, kept.reads)?;
    leaves_over(alloc, key, list, asked, ReadFault::NotHeld, kept)
}

/// Whether a run over the answers that are kept wants an answer that isn't held and is logged, and the recorder keeps
/// just this.
pub fn leaves(alloc: Global, asked: KeyParts, kept: KeptReads) -> Result<bool, Unfit>
    ensures { IfOk result (λ b. IsTrue b → (r : Recording (List ReadValue))
        × AreReadsOf kept.entry.reads.now r.inner
        × IsLeft asked.entry NotHeld kept.entry r) }
{
    let key = query_of(alloc, asked)?;
    leaves_by(alloc, &key, asked, kept)
}

/// Whether a run whose reads are refused with this fault ends so and is logged, and the recorder keeps no read, this
/// fault and this key.
pub fn leaves_refused(
    alloc: Global,
    asked: KeyParts,
    fault: ReadFault,
    refused: Option<KeyParts>,
) -> Result<bool, Unfit>
    ensures { IfOk result (λ b. IsTrue b → (r : Recording SpecRefusing)
        × (r.inner ≡ record { 0 = fault })
        × IsLeftUnread asked.entry fault refused.entry r) }
{
    let key = query_of(alloc, asked)?;
    let kept = KeptReads {
        reads: &[],
        fault: Some(fault),
        refused,
    };
    leaves_over(alloc, &key, Refusing(fault), asked, fault, kept)
}
