//! A reader that is lent to a run.
ghost use Rattle.std.specs.Prelude.{◌≡◌, ◌<◌, IfOk};
ghost use Rattle.item_ids.specs.Inputs.{rank as rank_of};
ghost use Rattle.recorder.specs.Runs.{IsOutcome};

use answer_fixtures::Unfit;
use fingerprint::Sealed;
use item_ids::Key;
use profiles::Profile;
use recorder::{Outcome, ReadFault, Reader, Recorder, RunFault, Runner, record};
use std::alloc::Global;
use std::sync::Arc;

/// A reader that is lent.
#[derive(Drop)]
struct Lent<'a, S: Reader> {
    store: &'a mut S,
}

impl<'a, S: Reader> Reader for Lent<'a, S> {
    ghost use Rattle.std.specs.Prelude.{◌≡◌};
    ghost use Rattle.std.proofs.Common.{◌∙◌, refl};

    ghost answers = { λ b q v. S.answers b.store.now q v };

    ghost faults = { λ b q f. S.faults b.store.now q f };

    ghost follows = { λ b c. (c.store.ghost_name ≡ b.store.ghost_name)
        × S.follows b.store.now c.store.now };

    ghost reflexive = { λ b. (refl, S.reflexive b.store.now) };

    ghost transitive = { λ b c d f g.
        (g.0 ∙ f.0, S.transitive b.store.now c.store.now d.store.now f.1 g.1) };

    ghost kept = { λ b c q v f a. S.kept b.store.now c.store.now q v f.1 a };

    fn read(&mut self, key: &Key) -> Result<Arc<Sealed>, ReadFault> {
        self.store.read(key)
    }
}

/// The outcome, if there is one and no read was refused.
fn outcome_if<R: Runner>(
    outcome: Result<Outcome<R>, RunFault>,
    is_unrefused: bool,
) -> Result<Outcome<R>, Unfit>
    ensures { IfOk result (λ o. outcome ≡ Ok o) }
{
    match outcome {
        Ok(outcome) if is_unrefused => Ok(outcome),
        _ => Err(Unfit),
    }
}

/// The outcome of a run in a profile over a reader that is lent, which its lender has back. The run has one and refuses no read.
pub(crate) fn record_over<R: Runner, S: Reader>(
    alloc: Global,
    runner: &mut R,
    profile: Profile,
    key: &Key,
    store: &mut S,
) -> Result<Outcome<R>, Unfit>
    requires no_input { 0 < rank_of key.now }
    ensures key { IfOk result (λ o. o.key ≡ key.now) }
    ensures profile { IfOk result (λ o. o.profile ≡ profile) }
    ensures outcome { IfOk result
        (λ o. IsOutcome (R.queries.mean profile) (R.queries.reads profile) o) }
    ensures follows { S.follows store.old store.new }
{
    let mut recorder = Recorder::new(alloc, Lent { store });
    let outcome = record(alloc, runner, profile, key, &mut recorder);
    let is_unrefused = recorder.fault().is_none() && recorder.refused_key().is_none();
    let back = recorder.into_reader();
    let Lent { store: _store } = back;
    outcome_if(outcome, is_unrefused)
}
