//! The outcome of a run.
ghost use Rattle.std.specs.Prelude.{◌≡◌, ◌⊎◌, ◌<◌, [], IfOk, IfErr, None, Err};
ghost use Rattle.std.specs.Arc.{arc_value};
ghost use Rattle.result_bytes.specs.Values.{IsValue};
ghost use Rattle.item_ids.specs.Inputs.{rank};
ghost use Rattle.item_ids.specs.KeyLists.{AreLower};
ghost use Rattle.recorder.specs.Backed.{keys, Asked};
ghost use Rattle.recorder.specs.Runs.{IsOutcome, IsNextRefused, TellsFault, Logs};

use crate::reader::Reader;
use crate::readers::Recorder;
use crate::runner::{RunFault, Runner};
use crate::told::{Read, copy_reads};
use fingerprint::{Sealed, seal_or_share};
use item_ids::{Key, is_key};
use profiles::Profile;
use std::alloc::{AllocError, AllocFailed, Global};
use std::marker::{Model, PhantomData};
use std::sync::Arc;

/// What a run of the runner in a profile read, and its result, which follows from these reads.
pub struct Outcome<R: Runner> {
    profile: Profile,
    key: Key,
    reads: Vec<Read>,
    sealed: Arc<Sealed>,
    runner: PhantomData<R>,
}

impl<R: Runner> Drop for Outcome<R> {
    fn drop(self) {
        let Outcome {
            profile: _,
            key: _,
            reads: _,
            sealed: _,
            runner: _,
        } = self;
    }
}

impl<R: Runner> Model for Outcome<R> {
    ghost use Rattle.std.specs.Arc.{arc_value};
    ghost use Rattle.recorder.specs.Runs.{OutcomeValue, IsOutcome};
    ghost use Rattle.recorder.specs.Codes.{coded_outcome};

    ghost Value = { OutcomeValue };

    ghost coded = { coded_outcome };

    ghost view = { λ o. record {
      profile = o.profile;
      key = o.key;
      told = o.reads.items;
      value = arc_value o.sealed;
    } };

    ghost invariant = { λ o. IsOutcome (R.queries.mean o.profile) (R.queries.reads o.profile)
        (record {
          profile = o.profile;
          key = o.key;
          told = o.reads.items;
          value = arc_value o.sealed;
        }) };
}

impl<R: Runner> Outcome<R> {
    /// The profile that the key was run in.
    pub fn profile(&self) -> Profile
        ensures { result ≡ self.now.profile }
    {
        self.profile
    }

    /// The key.
    pub fn key(&self) -> &Key
        ensures { result.now ≡ self.now.key }
    {
        &self.key
    }

    /// What was read, in order.
    pub fn reads(&self) -> &[Read]
        ensures { result.now ≡ self.now.told }
    {
        self.reads.as_slice()
    }

    /// The sealed result.
    pub fn sealed(&self) -> &Arc<Sealed>
        ensures value { arc_value result.now ≡ self.now.value }
        ensures outcome { IsOutcome (R.queries.mean self.now.profile)
            (R.queries.reads self.now.profile) self.now }
    {
        &self.sealed
    }
}

/// Runs a key that is no input in a profile, with a recorder that hasn't read, and seals its result. After a refusal
/// the recorder keeps what it read.
pub fn record<R: Runner, D: Reader>(
    alloc: Global,
    runner: &mut R,
    profile: Profile,
    key: &Key,
    recorder: &mut Recorder<D>,
) -> Result<Outcome<R>, RunFault>
    requires no_input { 0 < rank key.now }
    requires unread { recorder.old.told ≡ [] }
    requires unrefused { recorder.old.refused ≡ None }

    // The outcome is that of the run.
    ensures of_run { IfOk result (λ o. (o.key ≡ key.now) × (o.told ≡ recorder.new.told)) }
    ensures profile { IfOk result (λ o. o.profile ≡ profile) }
    ensures outcome { IfOk result
        (λ o. IsOutcome (R.queries.mean profile) (R.queries.reads profile) o) }
    ensures unrefused { IfOk result (λ _. recorder.new.refused ≡ None) }

    // Whatever came of it, the run kept to its contract.
    ensures asked { Asked (R.queries.mean profile) (R.queries.reads profile) key.now
        recorder.new.told }
    ensures lower { AreLower key.now (keys recorder.new.told) }
    ensures refused { IsNextRefused (R.queries.mean profile) (R.queries.reads profile) key.now
        recorder.new }
    ensures fault { IfErr result (λ e. TellsFault recorder.new e) }
    ensures log { Logs key.now (R.log runner.old) (R.log runner.new)
        ⊎ ((result ≡ Err RunFault.OutOfMemory) × (R.log runner.new ≡ R.log runner.old)
        × (recorder.new ≡ recorder.old)) }
    ensures follows { D.follows recorder.old.inner recorder.new.inner }
{
    record_sharing(alloc, runner, profile, key, recorder, None)
}

/// Runs a key as `record` does. If its result has the bytes of a known one, that is shared, and nothing is hashed.
pub fn record_sharing<R: Runner, D: Reader>(
    alloc: Global,
    runner: &mut R,
    profile: Profile,
    key: &Key,
    recorder: &mut Recorder<D>,
    known: Option<&Arc<Sealed>>,
) -> Result<Outcome<R>, RunFault>
    requires no_input { 0 < rank key.now }
    requires unread { recorder.old.told ≡ [] }
    requires unrefused { recorder.old.refused ≡ None }

    // The outcome is that of the run.
    ensures of_run { IfOk result (λ o. (o.key ≡ key.now) × (o.told ≡ recorder.new.told)) }
    ensures profile { IfOk result (λ o. o.profile ≡ profile) }
    ensures outcome { IfOk result
        (λ o. IsOutcome (R.queries.mean profile) (R.queries.reads profile) o) }
    ensures unrefused { IfOk result (λ _. recorder.new.refused ≡ None) }

    // Whatever came of it, the run kept to its contract.
    ensures asked { Asked (R.queries.mean profile) (R.queries.reads profile) key.now
        recorder.new.told }
    ensures lower { AreLower key.now (keys recorder.new.told) }
    ensures refused { IsNextRefused (R.queries.mean profile) (R.queries.reads profile) key.now
        recorder.new }
    ensures fault { IfErr result (λ e. TellsFault recorder.new e) }
    ensures log { Logs key.now (R.log runner.old) (R.log runner.new)
        ⊎ ((result ≡ Err RunFault.OutOfMemory) × (R.log runner.new ≡ R.log runner.old)
        × (recorder.new ≡ recorder.old)) }
    ensures follows { D.follows recorder.old.inner recorder.new.inner }
{
    // A key keeps in its type that its names are names.
    is_key(key);
    let value = runner.run(alloc, profile, key, recorder)?;
    let sealed = seal_or_share(alloc, value, known)?;
    Ok(Outcome {
        profile,
        key: key.copy(alloc)?,
        reads: copy_reads(alloc, recorder.reads())?,
        sealed,
        runner: PhantomData,
    })
}
