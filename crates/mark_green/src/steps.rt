//! How a worker completes a key.
ghost use Rattle.std.specs.Prelude.{◌≡◌, ◌↔◌, Some, IfOk, IsTrue};
ghost use Rattle.std.specs.Arc.{arc_value};
ghost use Rattle.graph_rules.specs.Steps.{Claimed, Running, AllUnchanged, AreHeld};
ghost use Rattle.job_table.specs.Tables.{state_of};
ghost use Rattle.job_table.specs.Calls.{walk_in};
ghost use Rattle.sessions.specs.Sessions.{session_in};
ghost use Rattle.mark_green.specs.Leaves.{Knows, AreTold, HasStatus};
ghost use Rattle.mark_green.specs.Workers.{ChangesTable, IsSameWorker};
ghost use Rattle.mark_green.specs.Ensures.{WorkGives, TryGives, TellsTried, IsOfPast, IsOfEdges, ShowsOutcomes};

use crate::fault::Fault;
use crate::store::Store;
use crate::worker::Worker;
use fingerprint::Sealed;
use item_ids::Key;
use job_table::TableFault;
use recorder::{Outcome, Runner};
use sessions::Session;
use std::alloc::{AllocError, Global};
use std::sync::Arc;

/// What came of trying to mark a key at once.
#[derive(Drop)]
pub(crate) enum Tried {
    /// It is marked, with this result.
    Marked(Arc<Sealed>),
    /// It is to be evaluated by its previous edges.
    ByEdges,
    /// Nothing may be taken over, so that it is to be run.
    Runs,
}

impl<S: Store<Out = Arc<Outcome<R>>>, R: Runner> Worker<'_, S, R> {
    /// Marks a key that the worker has claimed, all of whose previous edges are unchanged.
    pub(crate) fn mark(&mut self, key: &Key) -> Result<Arc<Sealed>, Fault>
        ensures same { IsSameWorker S.told self.old self.new }
        ensures told { IfOk result (λ a. S.told self.new.store.now key.now (arc_value a)) }
        ensures gives { ChangesTable S.table self.old self.new
            (λ t u. HasStatus (Claimed self.old.id) self.old.id key.now t
            → walk_in t key.now ≡ Some AllUnchanged → WorkGives t self.old.id key.now result u) }
    {
        match self.store.mark(self.id, key) {
            Ok(sealed) => Ok(sealed),
            Err(fault) => Err(self.give_up(fault)),
        }
    }

    /// Marks a key that the worker has claimed, if all its previous edges are done and unchanged already; else nothing
    /// changes, and the answer is how the key is completed.
    pub(crate) fn mark_at_once(
        &mut self,
        key: &Key,
        past: &Option<Arc<Session>>,
    ) -> Result<Tried, Fault>
        ensures same { IsSameWorker S.told self.old self.new }
        ensures told { IfOk result (TellsTried (S.told self.new.store.now) key.now) }
        ensures gives { ChangesTable S.table self.old self.new (λ t u. session_in past.now ≡ t.past
            → HasStatus (Claimed self.old.id) self.old.id key.now t
            → TryGives t self.old.id key.now result u) }
    {
        let Some(_) = past else {
            return Ok(Tried::Runs);
        };
        match self.store.mark(self.id, key) {
            Ok(sealed) => Ok(Tried::Marked(sealed)),
            Err(fault) if is_of_past(&fault) => Ok(Tried::Runs),
            Err(fault) if is_of_edges(&fault) => Ok(Tried::ByEdges),
            Err(fault) => Err(self.give_up(fault)),
        }
    }

    /// Ends a run by its outcome.
    pub(crate) fn end_run(&mut self, key: &Key, outcome: Outcome<R>) -> Result<Arc<Sealed>, Fault>
        requires shows { ShowsOutcomes S.outcome_in }
        requires key { outcome.key ≡ key.now }
        requires held { Knows (λ t. AreHeld (state_of t) outcome.told)
            (S.table self.old.store.now) }
        requires told { AreTold (S.told self.old.store.now) outcome.told }
        requires profile { Knows (λ t. outcome.profile ≡ t.terms.profile)
            (S.table self.old.store.now) }
        ensures same { IsSameWorker S.told self.old self.new }
        ensures told { IfOk result (λ a. S.told self.new.store.now key.now (arc_value a)) }
        ensures gives { ChangesTable S.table self.old self.new
            (λ t u. HasStatus (Running self.old.id) self.old.id key.now t
            → AreHeld (state_of t) outcome.told → WorkGives t self.old.id key.now result u) }
    {
        let Ok((sealed, outcome)) = share(self.alloc, outcome) else {
            return Err(self.give_up(TableFault::OutOfMemory));
        };
        match self.store.finish(self.id, outcome) {
            Ok(()) => Ok(sealed),
            Err(fault) => Err(self.give_up(fault)),
        }
    }
}

/// Whether a key isn't marked because there is nothing to take over from the previous session.
fn is_of_past(fault: &TableFault) -> bool
    ensures { IsTrue result ↔ IsOfPast fault.now }
{
    match fault {
        TableFault::NotInPast | TableFault::AcrossProfiles => true,
        _ => false,
    }
}

/// Whether a key isn't marked because one of its previous edges isn't done and unchanged.
fn is_of_edges(fault: &TableFault) -> bool
    ensures { IsTrue result ↔ IsOfEdges fault.now }
{
    match fault {
        TableFault::EdgeOpen(_) | TableFault::EdgeChanged(_) => true,
        _ => false,
    }
}

/// The result of an outcome and the outcome, both to be shared.
fn share<R: Runner>(
    alloc: Global,
    outcome: Outcome<R>,
) -> Result<(Arc<Sealed>, Arc<Outcome<R>>), AllocError>
    ensures value { IfOk result (λ both. arc_value both.0 ≡ outcome.value) }
    ensures outcome { IfOk result (λ both. arc_value both.1 ≡ outcome) }
{
    let sealed = Arc::try_clone(outcome.sealed())?;
    Ok((sealed, Arc::new(alloc, outcome)?))
}
