//! One run of a key.
ghost use Rattle.std.specs.Prelude.{◌≡◌, ◌⊎◌, ◌<◌, IfOk, IfErr, Some, None, Ok};
ghost use Rattle.item_ids.specs.Inputs.{rank as rank_of_key};
ghost use Rattle.graph_rules.specs.Steps.{AreHeld};
ghost use Rattle.job_table.specs.Tables.{state_of};
ghost use Rattle.mark_green.specs.Leaves.{Knows, StaysTold, AreTold};
ghost use Rattle.mark_green.specs.Moves.{HaltsAtRead, IsWantOfMemory};
ghost use Rattle.mark_green.specs.declared.asking.RunStop.{RunStop};

use crate::asking::{RunStop, StoreReader};
use crate::store::Store;
use item_ids::{Key, rank};
use recorder::{AnswerList, Outcome, ReadFault, Recorder, RunFault, Runner, record};
use std::alloc::Global;

/// One run of a key that isn't an input, in the session's profile, with the results held.
pub(crate) fn run_once<S: Store, R: Runner>(
    alloc: Global,
    store: &mut S,
    runner: &mut R,
    w: u32,
    key: &Key,
    held: &AnswerList,
) -> Result<Outcome<R>, RunStop>
    requires rank { 0 < rank_of_key key.now }
    ensures key { IfOk result (λ o. o.key ≡ key.now) }
    ensures profile { IfOk result (λ o. Knows (λ t. o.profile ≡ t.terms.profile) (S.table store.old)) }
    ensures same { IfOk result (λ _. S.table store.new ≡ S.table store.old) }
    ensures held { IfOk result (λ o. Knows (λ t. AreHeld (state_of t) held.now) (S.table store.old)
        → Knows (λ t. AreHeld (state_of t) o.told) (S.table store.old)) }
    ensures told { IfOk result (λ o. AreTold (S.told store.new) held.now
        → AreTold (S.told store.new) o.told) }
    ensures stays { StaysTold (S.told store.old) (S.told store.new) }
    ensures halts { IfErr result (λ x. HaltsAtRead w (rank_of_key key.now) x (S.table store.old)
        (S.table store.new)) }
{
    let profile = store.terms().profile;
    let reader = StoreReader {
        alloc,
        store,
        w,
        below: rank(key.kind()),
        held,
        stop: None,
    };
    let mut recorder = Recorder::new(alloc, reader);
    let outcome = record(alloc, runner, profile, key, &mut recorder);
    // What was read is answered by the reader, by the recorder's type.
    let _reads = recorder.reads();
    let StoreReader {
        alloc: _,
        store: back,
        w: _,
        below: _,
        held: _,
        stop,
    } = recorder.into_reader();
    keep(back);
    outcome_of(outcome, stop)
}

/// The store is as it was.
fn keep<S>(store: &mut S)
    ensures { store.new ≡ store.old }
{
    let _ = store;
}

/// The outcome, unless the run was stopped or ran out of memory.
fn outcome_of<R: Runner>(
    outcome: Result<Outcome<R>, RunFault>,
    stop: Option<RunStop>,
) -> Result<Outcome<R>, RunStop>
    requires memory { stop ≡ None → IfErr outcome IsWantOfMemory }
    ensures ok { IfOk result (λ o. (outcome ≡ Ok o) × (stop ≡ None)) }
    ensures err { IfErr result
        (λ x. (stop ≡ Some x) ⊎ ((stop ≡ None) × (x ≡ RunStop.OutOfMemory))) }
{
    match stop {
        Some(stop) => Err(stop),
        None => match outcome {
            Ok(outcome) => Ok(outcome),
            Err(RunFault::OutOfMemory) => Err(RunStop::OutOfMemory),
            Err(RunFault::Read(ReadFault::OutOfMemory)) => Err(RunStop::OutOfMemory),
            Err(RunFault::Read(_)) => unreachable!(),
        },
    }
}
