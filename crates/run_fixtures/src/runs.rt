//! Runs of the sample runner.
ghost use Rattle.std.specs.Prelude.{◌≡◌, ◌↔◌, ◌<◌, IsTrue, IfOk};
ghost use Rattle.item_ids.specs.Inputs.{rank as rank_of};
ghost use Rattle.recorder.specs.Runs.{IsOutcome};
ghost use Rattle.run_fixtures.specs.Meaning.{sample_mean};
ghost use Rattle.run_fixtures.specs.Programs.{sample_reads};
ghost use Rattle.answer_fixtures.specs.Telling.{IsKeyOf};
ghost use Rattle.run_fixtures.specs.Reading.{IsOutcomeOf, IsGivenOutcome};

use crate::answers::list_of;
use crate::lent::record_over;
use crate::reads::{Given, are_reads};
use crate::sample::SampleRunner;
use answer_fixtures::{KeyParts, Unfit, is_key, is_spelled, key_of};
use item_ids::{Key, rank};
use profiles::Profile;
use recorder::{AnswerList, Outcome};
use std::alloc::Global;

/// The key of a query that is no input.
pub(crate) fn query_of(alloc: Global, asked: KeyParts) -> Result<Key, Unfit>
    ensures no_input { IfOk result (λ key. 0 < rank_of key) }
    ensures told { IfOk result (IsKeyOf asked.entry) }
{
    if rank(asked.0) == 0 {
        return Err(Unfit);
    }
    key_of(alloc, asked)
}

/// The outcome of a run of the key in a profile over the list, which is lent.
fn outcome_over(
    alloc: Global,
    profile: Profile,
    key: &Key,
    list: &mut AnswerList,
) -> Result<Outcome<SampleRunner>, Unfit>
    requires { 0 < rank_of key.now }
    ensures key { IfOk result (λ o. o.key ≡ key.now) }
    ensures profile { IfOk result (λ o. o.profile ≡ profile) }
    ensures outcome { IfOk result (λ o. IsOutcome sample_mean sample_reads o) }
{
    let mut runner = SampleRunner::new(alloc);
    record_over(alloc, &mut runner, profile, key, list)
}

/// The outcome of a run of the query in a profile over the list, which is lent.
fn outcome_by(
    alloc: Global,
    profile: Profile,
    asked: KeyParts,
    list: &mut AnswerList,
) -> Result<Outcome<SampleRunner>, Unfit>
    ensures key { IfOk result (λ o. IsKeyOf asked.entry o.key) }
    ensures profile { IfOk result (λ o. o.profile ≡ profile) }
    ensures outcome { IfOk result (λ o. IsOutcome sample_mean sample_reads o) }
{
    let key = query_of(alloc, asked)?;
    outcome_over(alloc, profile, &key, list)
}

/// The outcome of a run of the query in a profile over these answers, if no read is refused.
pub fn outcome_of(
    alloc: Global,
    profile: Profile,
    asked: KeyParts,
    given: &[Given],
) -> Result<Outcome<SampleRunner>, Unfit>
    ensures key { IfOk result (λ o. IsKeyOf asked.entry o.key) }
    ensures profile { IfOk result (λ o. o.profile ≡ profile) }
    ensures outcome { IfOk result (λ o. IsOutcome sample_mean sample_reads o) }
{
    let mut list = list_of(alloc, given)?;
    outcome_by(alloc, profile, asked, &mut list)
}

/// Whether the outcome is of this key, has this result, and read just these answers in this order.
fn is_outcome(
    alloc: Global,
    outcome: &Outcome<SampleRunner>,
    run: Given,
    reads: &[Given],
) -> Result<bool, Unfit>
    ensures { IfOk result (λ b. IsTrue b ↔ IsOutcomeOf run.entry reads.now outcome.now) }
{
    let Given(asked, digits) = run;
    Ok(
        is_key(outcome.key(), asked)
            && is_spelled(alloc, outcome.sealed(), digits)?
            && are_reads(alloc, outcome.reads(), reads)?,
    )
}

/// Whether a run of the key over these answers reads just them, in this order, and has this result.
pub fn gives(alloc: Global, run: Given, reads: &[Given]) -> Result<bool, Unfit>
    ensures { IfOk result (IsGivenOutcome run.entry reads.now) }
{
    let outcome = outcome_of(alloc, Profile::One, run.0, reads)?;
    is_outcome(alloc, &outcome, run, reads)
}

/// Whether a run over the list, which is lent, reads just these answers and has this result.
fn gives_by(
    alloc: Global,
    run: Given,
    reads: &[Given],
    list: &mut AnswerList,
) -> Result<bool, Unfit>
    ensures { IfOk result (IsGivenOutcome run.entry reads.now) }
{
    let outcome = outcome_by(alloc, Profile::One, run.0, list)?;
    is_outcome(alloc, &outcome, run, reads)
}

/// Whether two runs, one after the other, over one list of these answers, which is lent to both, read just them and
/// have this result.
pub fn gives_over_lent(alloc: Global, run: Given, reads: &[Given]) -> Result<bool, Unfit>
    ensures { IfOk result (IsGivenOutcome run.entry reads.now) }
{
    let mut list = list_of(alloc, reads)?;
    match gives_by(alloc, run, reads, &mut list) {
        Ok(true) => gives_by(alloc, run, reads, &mut list),
        other => other,
    }
}

/// Whether the outcome of a run of the query in a profile over these answers has that profile.
pub fn tells_profile(
    alloc: Global,
    profile: Profile,
    asked: KeyParts,
    given: &[Given],
) -> Result<bool, Unfit>
    ensures { IfOk result (λ b. IsTrue b) }
{
    let outcome = outcome_of(alloc, profile, asked, given)?;
    Ok(outcome.profile().is(profile))
}

/// Whether a new runner has logged nothing.
pub fn is_log_empty(alloc: Global) -> bool
    ensures { IsTrue result }
{
    let runner = SampleRunner::new(alloc);
    runner.log().is_empty()
}
