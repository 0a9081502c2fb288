//! Runs of MiniJava's queries over the answers of records.
ghost use Rattle.std.specs.Prelude.{◌≡◌, ◌<◌, ℕ, List, [], ◌∷◌, ◌++◌, slice_get, Contains, Some, None, MatchOption, IfOk, OnOk};
ghost use Rattle.std.specs.Arc.{arc_value};
ghost use Rattle.std.specs.List.{AllByRecursion};
ghost use Rattle.item_ids.specs.Inputs.{rank as rank_of};
ghost use Rattle.recorder.specs.Runs.{IsOutcome};
ghost use Rattle.query_rules.specs.Meaning.{mean};
ghost use Rattle.query_rules.specs.Reads.{reads};
ghost use Rattle.answer_fixtures.specs.Telling.{IsKeyOf};
ghost use Rattle.table_fixtures.specs.Told.{IsAnswerAt, AreAnswersAt, IsRunOf};

use answer_fixtures::{KeyParts, Unfit, key_of, sealed_of};
use item_ids::{Key, rank};
use mini_java::MiniJava;
use profiles::Profile;
use recorder::{AnswerList, Outcome, Recorder, record};
use session_fixtures::Kept;
use std::alloc::{AllocError, AllocFailed, Global};
use std::sync::Arc;

/// The record of an index.
fn record_at(records: &[Kept], at: usize) -> Option<&Kept>
    ensures { MatchOption result (slice_get records.now at ≡ None)
        (λ kept. slice_get records.now at ≡ Some kept.now) }
{
    records.get(at)
}

/// Adds the answer of the record at an index.
fn add(alloc: Global, list: &mut AnswerList, records: &[Kept], at: usize) -> Result<(), Unfit>
    ensures { (before : List ℕ) → AreAnswersAt records.now before list.old
        → OnOk result (AreAnswersAt records.now (before ++ at ∷ []) list.new) }
{
    let Some(kept) = record_at(records, at) else {
        return Err(Unfit);
    };
    let key = key_of(alloc, kept.key)?;
    match sealed_of(alloc, kept.key.0, kept.digits) {
        Ok(answer) => Ok(list.add(key, answer)?),
        Err(fault) => Err(fault),
    }
}

/// Adds the answers of the records at these indices to an empty list.
fn add_all(
    alloc: Global,
    list: &mut AnswerList,
    records: &[Kept],
    edges: &[usize],
) -> Result<(), Unfit>
    requires { list.old ≡ [] }
    ensures { OnOk result (AreAnswersAt records.now edges.now list.new) }
{
    for edge in edges {
        add(alloc, list, records, *edge)?;
    }
    Ok(())
}

/// The answers of the records at these indices.
fn answers_of(alloc: Global, records: &[Kept], edges: &[usize]) -> Result<AnswerList, Unfit>
    ensures { IfOk result (AreAnswersAt records.now edges.now) }
{
    let mut list = AnswerList::new(alloc);
    match add_all(alloc, &mut list, records, edges) {
        Ok(()) => Ok(list),
        Err(fault) => Err(fault),
    }
}

/// The key of a query that is no input.
fn query_of(alloc: Global, asked: KeyParts) -> Result<Key, Unfit>
    ensures no_input { IfOk result (λ key. 0 < rank_of key) }
    ensures told { IfOk result (IsKeyOf asked.entry) }
{
    if rank(asked.0) == 0 {
        return Err(Unfit);
    }
    key_of(alloc, asked)
}

/// The outcome, to be shared.
fn share(alloc: Global, outcome: Outcome<MiniJava>) -> Result<Arc<Outcome<MiniJava>>, AllocError>
    ensures { IfOk result (λ o. arc_value o ≡ outcome) }
{
    Ok(Arc::new(alloc, outcome)?)
}

/// The outcome of the key's run in a profile, to be shared.
fn outcome_by(
    alloc: Global,
    runner: &mut MiniJava,
    profile: Profile,
    key: &Key,
    recorder: &mut Recorder<AnswerList>,
) -> Result<Arc<Outcome<MiniJava>>, Unfit>
    requires no_input { 0 < rank_of key.now }
    requires unread { recorder.old.told ≡ [] }
    requires unrefused { recorder.old.refused ≡ None }
    ensures key { IfOk result (λ o. (arc_value o).key ≡ key.now) }
    ensures profile { IfOk result (λ o. (arc_value o).profile ≡ profile) }
    ensures read { IfOk result (λ o.
        AllByRecursion (λ t. Contains recorder.old.inner t) (arc_value o).told) }
    ensures outcome { IfOk result (λ o. IsOutcome (mean profile) (reads profile) (arc_value o)) }
{
    match record(alloc, runner, profile, key, recorder) {
        Ok(outcome) => {
            // What was read is answered by the list, by the recorder's type.
            let _reads = recorder.reads();
            Ok(share(alloc, outcome)?)
        }
        Err(_) => Err(Unfit),
    }
}

/// The outcome of the key's run in a profile over the list.
fn outcome_over(
    alloc: Global,
    profile: Profile,
    key: &Key,
    list: AnswerList,
) -> Result<Arc<Outcome<MiniJava>>, Unfit>
    requires { 0 < rank_of key.now }
    ensures key { IfOk result (λ o. (arc_value o).key ≡ key.now) }
    ensures profile { IfOk result (λ o. (arc_value o).profile ≡ profile) }
    ensures read { IfOk result (λ o. AllByRecursion (λ t. Contains list t) (arc_value o).told) }
    ensures outcome { IfOk result (λ o. IsOutcome (mean profile) (reads profile) (arc_value o)) }
{
    let mut runner = MiniJava::new(alloc);
    let mut recorder = Recorder::new(alloc, list);
    outcome_by(alloc, &mut runner, profile, key, &mut recorder)
}

/// The outcome of the key's run in a profile over the answers of the record's edges, which are indices of these records.
fn outcome_with(
    alloc: Global,
    profile: Profile,
    key: &Key,
    records: &[Kept],
    kept: &Kept,
) -> Result<Arc<Outcome<MiniJava>>, Unfit>
    requires no_input { 0 < rank_of key.now }
    requires told { IsKeyOf kept.now.key key.now }
    ensures { IfOk result (λ o. IsRunOf profile records.now kept.now (arc_value o)) }
{
    let list = answers_of(alloc, records, kept.edges)?;
    outcome_over(alloc, profile, key, list)
}

/// The outcome of a run in a profile of the record's key over the answers of its edges, which are indices of these
/// records.
pub(crate) fn outcome_of(
    alloc: Global,
    profile: Profile,
    records: &[Kept],
    kept: &Kept,
) -> Result<Arc<Outcome<MiniJava>>, Unfit>
    ensures { IfOk result (λ o. IsRunOf profile records.now kept.now (arc_value o)) }
{
    let key = query_of(alloc, kept.key)?;
    outcome_with(alloc, profile, &key, records, kept)
}
