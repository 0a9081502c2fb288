//! Steps: one run of a query in profile 1 over what is held.
ghost use Rattle.std.specs.Prelude.{◌≡◌, ◌<◌, [], None, IfOk};
ghost use Rattle.recorder.specs.Backed.{GivesEach};
ghost use Rattle.item_ids.specs.declared.key.Key.{Key};
ghost use Rattle.item_ids.specs.Inputs.{rank as rank_of};
ghost use Rattle.result_bytes.specs.declared.value.Value.{Value};
ghost use Rattle.named_files.specs.Projects.{IsProject};
ghost use Rattle.profiles.specs.declared.profile.Profile.TheVariants.{One};
ghost use Rattle.recorder.specs.Projects.{Project};
ghost use Rattle.query_fixtures.specs.Steps.{IsStepOf};

use fingerprint::Sealed;
use item_ids::Key;
use profiles::Profile;
use project_inputs::Inputs;
use recorder::{AnswerList, ReadFault, Recorder, RunFault, Runner, record};
use std::alloc::Global;
use std::mem;
use std::sync::Arc;

/// The result of a step.
#[derive(Drop)]
pub enum Step {
    /// The key's result.
    Done(Arc<Sealed>),
    /// A key that the run reads and that isn't held.
    Wants(Key),
}

/// The key that the run wanted.
fn wanted(alloc: Global, recorder: &Recorder<AnswerList>, fault: RunFault) -> Result<Step, RunFault>
    ensures { (mean : Key → Value) (q : Key) → IfOk result (IsStepOf mean q) }
{
    match (fault, recorder.refused_key()) {
        (RunFault::Read(ReadFault::NotHeld), Some(key)) => Ok(Step::Wants(key.copy(alloc)?)),
        _ => Err(fault),
    }
}

/// One run of the key over what the recorder's list holds.
fn run_once<R: Runner>(
    alloc: Global,
    runner: &mut R,
    recorder: &mut Recorder<AnswerList>,
    key: &Key,
) -> Result<Step, RunFault>
    requires no_input { 0 < rank_of key.now }
    requires unread { recorder.old.told ≡ [] }
    requires unrefused { recorder.old.refused ≡ None }
    ensures same { recorder.new.inner ≡ recorder.old.inner }
    ensures means { (p : Project) → IsProject p → GivesEach (R.queries.mean One p) recorder.old.inner
        → IfOk result (IsStepOf (R.queries.mean One p) key.now) }
{
    match record(alloc, runner, Profile::One, key, recorder) {
        Ok(outcome) => {
            recorder.reads();
            Ok(Step::Done(Arc::try_clone(outcome.sealed())?))
        }
        Err(fault) => wanted(alloc, recorder, fault),
    }
}

/// One run of the key over what is held.
fn run_over<R: Runner>(
    alloc: Global,
    runner: &mut R,
    held: &mut AnswerList,
    key: &Key,
) -> Result<Step, RunFault>
    requires no_input { 0 < rank_of key.now }
    ensures same { held.new ≡ held.old }
    ensures means { (p : Project) → IsProject p → GivesEach (R.queries.mean One p) held.old
        → IfOk result (IsStepOf (R.queries.mean One p) key.now) }
{
    let list = mem::replace(held, AnswerList::new(alloc));
    let mut recorder = Recorder::new(alloc, list);
    let step = run_once(alloc, runner, &mut recorder, key);
    *held = recorder.into_reader();
    step
}

/// The key's result, or a key that is wanted first.
fn step_of<R: Runner>(
    alloc: Global,
    inputs: &Inputs,
    runner: &mut R,
    held: &mut AnswerList,
    key: &Key,
) -> Result<Step, RunFault>
    requires held { GivesEach (R.queries.mean One inputs.now) held.old }
    requires project { IsProject inputs.now }
    ensures same { held.new ≡ held.old }
    ensures means { IfOk result (IsStepOf (R.queries.mean One inputs.now) key.now) }
{
    match inputs.get(key) {
        Some(sealed) => Ok(Step::Done(Arc::try_clone(sealed)?)),
        None => run_over(alloc, runner, held, key),
    }
}

/// Holds the key's result, or names a key that is wanted first.
pub fn take_step<R: Runner>(
    alloc: Global,
    inputs: &Inputs,
    runner: &mut R,
    held: &mut AnswerList,
    key: &Key,
) -> Result<Option<Key>, RunFault>
    requires held { GivesEach (R.queries.mean One inputs.now) held.old }
    requires project { IsProject inputs.now }
    ensures held { GivesEach (R.queries.mean One inputs.now) held.new }
{
    match step_of(alloc, inputs, runner, held, key)? {
        Step::Done(sealed) => {
            held.add(key.copy(alloc)?, sealed)?;
            Ok(None)
        }
        Step::Wants(wanted) => Ok(Some(wanted)),
    }
}
