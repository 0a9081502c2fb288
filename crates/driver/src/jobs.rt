//! The jobs of a session, by one worker of several.
ghost use Rattle.shared_table.specs.Ensures.{ShowsOutcomes};

use fingerprint::Sealed;
use item_ids::Key;
use named_files::Project;
use recorder::{Outcome, Runner};
use shared_table::{Fault, Store, Worker};
use std::alloc::{AllocError, Global};
use std::sync::Arc;

/// A worker stopped before all of its jobs were done: memory ran out, or another worker failed.
pub struct Undone;

impl From<AllocError> for Undone {
    fn from(_error: AllocError) -> Undone {
        Undone
    }
}

impl From<Fault> for Undone {
    fn from(_fault: Fault) -> Undone {
        Undone
    }
}

/// What evaluates keys for a worker.
pub trait Evaluate {
    /// What has to hold of its type if it is to evaluate keys.
    ghost serves: { Type 0 };

    /// The result of a key, which is evaluated first if it isn't yet.
    fn evaluate(&mut self, key: Key) -> Result<Arc<Sealed>, Undone>
        requires { serves };
}

/// The keys that the workers of a session evaluate ahead of the answer, in lists of which each worker takes some. They are
/// a language's: with them what a run reads is mostly done before it. No contract speaks of them, since a key that is
/// left out is evaluated when another one reads it, and one that is taken twice is evaluated once.
pub trait Jobs {
    /// Evaluates those that this worker takes.
    fn evaluate_ahead<E: Evaluate>(
        &self,
        alloc: Global,
        project: &Project,
        evaluator: &mut E,
    ) -> Result<(), Undone>
        requires { E.serves };
}

/// Does a worker's jobs at the store: evaluates the keys that it takes of those that come ahead, and the answer, with all
/// that it reads. A worker that can't do a job gives up, so that all others stop.
pub(crate) fn do_jobs<S: Store<Out = Arc<Outcome<R>>>, R: Runner, J: Jobs>(
    alloc: Global,
    store: &mut S,
    runner: &mut R,
    project: &Project,
    jobs: &J,
    worker: u32,
)
    requires shows { ShowsOutcomes S.outcome_in }
{
    let mut evaluator = Evaluator {
        worker: Worker::new(alloc, store, runner, worker),
    };
    if let Err(Undone) = evaluate_all(alloc, &mut evaluator, project, jobs) {
        let _failed = store.fail(worker);
    }
}

/// Evaluates what comes ahead, and the answer.
fn evaluate_all<E: Evaluate, J: Jobs>(
    alloc: Global,
    evaluator: &mut E,
    project: &Project,
    jobs: &J,
) -> Result<(), Undone>
    requires { E.serves }
{
    jobs.evaluate_ahead(alloc, project, evaluator)?;
    evaluator.evaluate(Key::Answer)?;
    Ok(())
}

/// A worker at a store.
#[derive(Drop)]
struct Evaluator<'a, S: Store, R: Runner> {
    worker: Worker<'a, S, R>,
}

impl<S: Store<Out = Arc<Outcome<R>>>, R: Runner> Evaluate for Evaluator<'_, S, R> {
    ghost serves = { ShowsOutcomes S.outcome_in };

    fn evaluate(&mut self, key: Key) -> Result<Arc<Sealed>, Undone> {
        Ok(self.worker.ensure(&key)?)
    }
}
