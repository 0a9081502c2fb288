//! Evaluating keys: try-mark-green, and a run if an edge is red.
ghost use Rattle.std.specs.Prelude.{◌≡◌, ◌<◌, false, [], Some, None, IfOk, IfSome, length, map};
ghost use Rattle.std.specs.List.{AllByRecursion};
ghost use Rattle.std.specs.Arc.{arc_value};
ghost use Rattle.sessions.specs.Sessions.{key_at, session_in};
ghost use Rattle.graph_rules.specs.Steps.{Claimed, Running, MayRun, AreHeld};
ghost use Rattle.job_table.specs.Tables.{state_of};
ghost use Rattle.job_table.specs.Calls.{walk_in};
ghost use Rattle.item_ids.specs.Keys.{kind_of};
ghost use Rattle.item_ids.specs.Inputs.{rank as rank_of_key};
ghost use Rattle.graph_rules.specs.Settings.{has_kind};
ghost use Rattle.mark_green.specs.Leaves.{Knows, KnowsChange, AreTold, HasStatus};
ghost use Rattle.mark_green.specs.Workers.{ChangesTable, IsSameWorker};
ghost use Rattle.mark_green.specs.Ensures.{EnsureGives, WorkGives, EdgeGives, WalkGives, FetchGives, TurnGives, RunGives, told_or, IsRecordUnder, ShowsOutcomes};

use crate::asking::RunStop;
use crate::edges::{is_same, past_edges};
use crate::fault::Fault;
use crate::runs::run_once;
use crate::steps::Tried;
use crate::store::Store;
use crate::worker::Worker;
use fingerprint::Sealed;
use item_ids::Key;
use job_table::{Asked, TableFault};
use recorder::{AnswerList, Outcome, Runner};
use sessions::{Finder, Session};
use std::alloc::Global;
use std::sync::Arc;

/// Evaluates a key in the store, by the worker, and gives its result.
pub fn ensure<S: Store<Out = Arc<Outcome<R>>>, R: Runner>(
    alloc: Global,
    store: &mut S,
    runner: &mut R,
    w: u32,
    key: &Key,
) -> Result<Arc<Sealed>, Fault>
    requires shows { ShowsOutcomes S.outcome_in }
    ensures { KnowsChange (λ t u. EnsureGives t w key.now result u) (S.table store.old)
        (S.table store.new) }
{
    let mut worker = Worker {
        alloc,
        store,
        runner,
        id: w,
        finder: Finder::new(),
    };
    worker.ensure(key)
}

impl<S: Store<Out = Arc<Outcome<R>>>, R: Runner> Worker<'_, S, R> {
    /// Evaluates a key in the store, and gives its result.
    #[cycle(ensure)]
    pub fn ensure(&mut self, key: &Key) -> Result<Arc<Sealed>, Fault>
        requires shows { ShowsOutcomes S.outcome_in }
        ensures same { IsSameWorker S.told self.old self.new }
        ensures told { IfOk result (λ a. S.told self.new.store.now key.now (arc_value a)) }
        ensures gives { ChangesTable S.table self.old self.new
            (λ t u. EnsureGives t self.old.id key.now result u) }
    {
        match self.store.ask(self.id, key) {
            Ok(Asked::Done(sealed)) => Ok(sealed),
            Ok(Asked::Yours) => self.work(key),
            Ok(Asked::Busy) => Err(Fault::Busy),
            Ok(Asked::Stopped) => Err(Fault::Stopped),
            Err(fault) => Err(self.give_up(fault)),
        }
    }

    /// Evaluates a key that the worker has claimed.
    #[cycle(ensure)]
    fn work(&mut self, key: &Key) -> Result<Arc<Sealed>, Fault>
        requires shows { ShowsOutcomes S.outcome_in }
        requires rank { 0 < rank_of_key key.now }
        ensures same { IsSameWorker S.told self.old self.new }
        ensures told { IfOk result (λ a. S.told self.new.store.now key.now (arc_value a)) }
        ensures gives { ChangesTable S.table self.old self.new
            (λ t u. HasStatus (Claimed self.old.id) self.old.id key.now t
            → WorkGives t self.old.id key.now result u) }
    {
        match self.store.past() {
            Ok(past) => self.work_over(key, &past),
            Err(_) => Err(self.give_up(TableFault::OutOfMemory)),
        }
    }

    /// Evaluates a key that the worker has claimed, over this previous session. If all previous edges are done and
    /// unchanged the key is marked at once, and if nothing may be taken over it is run at once; no edge is asked for
    /// then.
    #[cycle(ensure)]
    fn work_over(&mut self, key: &Key, past: &Option<Arc<Session>>) -> Result<Arc<Sealed>, Fault>
        requires shows { ShowsOutcomes S.outcome_in }
        requires rank { 0 < rank_of_key key.now }
        ensures same { IsSameWorker S.told self.old self.new }
        ensures told { IfOk result (λ a. S.told self.new.store.now key.now (arc_value a)) }
        ensures gives { ChangesTable S.table self.old self.new (λ t u. session_in past.now ≡ t.past
            → HasStatus (Claimed self.old.id) self.old.id key.now t
            → WorkGives t self.old.id key.now result u) }
    {
        match self.mark_at_once(key, past) {
            Ok(Tried::Marked(sealed)) => Ok(sealed),
            Ok(Tried::ByEdges) => self.work_by_edges(key, past),
            Ok(Tried::Runs) => self.start(key),
            Err(fault) => Err(fault),
        }
    }

    /// Evaluates a key that the worker has claimed, over this previous session, by its previous edges, if it may be
    /// taken over.
    #[cycle(ensure)]
    fn work_by_edges(
        &mut self,
        key: &Key,
        past: &Option<Arc<Session>>,
    ) -> Result<Arc<Sealed>, Fault>
        requires shows { ShowsOutcomes S.outcome_in }
        requires rank { 0 < rank_of_key key.now }
        ensures same { IsSameWorker S.told self.old self.new }
        ensures told { IfOk result (λ a. S.told self.new.store.now key.now (arc_value a)) }
        ensures gives { ChangesTable S.table self.old self.new (λ t u. session_in past.now ≡ t.past
            → has_kind t.crossing (kind_of key.now) ≡ false
            → HasStatus (Claimed self.old.id) self.old.id key.now t
            → WorkGives t self.old.id key.now result u) }
    {
        let Some(past) = past else {
            return self.start(key);
        };
        let Some(edges) = past_edges(past, &mut self.finder, key) else {
            return self.start(key);
        };
        match self.walk_edges(key, past, edges) {
            Ok(true) => self.mark(key),
            Ok(false) => self.start(key),
            Err(fault) => Err(fault),
        }
    }

    /// Try-mark-green: whether all previous edges of a key that the worker has claimed are unchanged. Each is evaluated
    /// in its turn, up to the first that is changed.
    #[cycle(ensure)]
    fn walk_edges(&mut self, key: &Key, past: &Session, edges: &[usize]) -> Result<bool, Fault>
        requires shows { ShowsOutcomes S.outcome_in }
        requires edges { AllByRecursion (IsRecordUnder past.now.records key.now) edges.now }
        ensures same { IsSameWorker S.told self.old self.new }
        ensures gives { ChangesTable S.table self.old self.new (λ t u. t.past ≡ Some past.now
            → HasStatus (Claimed self.old.id) self.old.id key.now t
            → WalkGives t self.old.id (map (key_at past.now.records) edges.now) result u) }
    {
        'edges: for at in edges.iter() {
            match self.is_unchanged(past, *at) {
                Ok(true) => {}
                Ok(false) => return Ok(false),
                Err(fault) => return Err(fault),
            }
        }
        Ok(true)
    }

    /// Evaluates a previous edge, and says whether it is unchanged.
    #[cycle(ensure)]
    fn is_unchanged(&mut self, past: &Session, at: usize) -> Result<bool, Fault>
        requires shows { ShowsOutcomes S.outcome_in }
        requires within { at < length past.now.records }
        ensures same { IsSameWorker S.told self.old self.new }
        ensures gives { ChangesTable S.table self.old self.new (λ t u. t.past ≡ Some past.now
            → EdgeGives t self.old.id (key_at past.now.records at) result u) }
    {
        let record = &past.records()[at];
        match self.ensure(record.key()) {
            Ok(sealed) => Ok(is_same(record, sealed)),
            Err(fault) => Err(fault),
        }
    }

    /// Runs a key that the worker has claimed.
    #[cycle(ensure)]
    fn start(&mut self, key: &Key) -> Result<Arc<Sealed>, Fault>
        requires shows { ShowsOutcomes S.outcome_in }
        requires rank { 0 < rank_of_key key.now }
        ensures same { IsSameWorker S.told self.old self.new }
        ensures told { IfOk result (λ a. S.told self.new.store.now key.now (arc_value a)) }
        ensures gives { ChangesTable S.table self.old self.new
            (λ t u. HasStatus (Claimed self.old.id) self.old.id key.now t
            → MayRun (walk_in t key.now)
            → WorkGives t self.old.id key.now result u) }
    {
        match self.store.begin_run(self.id, key) {
            Ok(()) => self.run(key),
            Err(fault) => Err(self.give_up(fault)),
        }
    }

    /// Runs a key whose run was begun, and ends the run.
    #[cycle(ensure)]
    fn run(&mut self, key: &Key) -> Result<Arc<Sealed>, Fault>
        requires shows { ShowsOutcomes S.outcome_in }
        requires rank { 0 < rank_of_key key.now }
        ensures same { IsSameWorker S.told self.old self.new }
        ensures told { IfOk result (λ a. S.told self.new.store.now key.now (arc_value a)) }
        ensures gives { ChangesTable S.table self.old self.new
            (λ t u. HasStatus (Running self.old.id) self.old.id key.now t
            → WorkGives t self.old.id key.now result u) }
    {
        let mut held = AnswerList::new(self.alloc);
        match self.turns(key, &mut held) {
            Ok(outcome) => self.end_run(key, outcome),
            Err(fault) => Err(fault),
        }
    }

    /// Runs a key until it has an outcome, each time with one more result held.
    #[cycle(ensure)]
    fn turns(&mut self, key: &Key, held: &mut AnswerList) -> Result<Outcome<R>, Fault>
        requires shows { ShowsOutcomes S.outcome_in }
        requires rank { 0 < rank_of_key key.now }
        requires none_held { held.old ≡ [] }
        ensures same { IsSameWorker S.told self.old self.new }
        ensures key { IfOk result (λ o. o.key ≡ key.now) }
        ensures profile { IfOk result (λ o. Knows (λ t. o.profile ≡ t.terms.profile)
            (S.table self.new.store.now)) }
        ensures held { IfOk result (λ o. Knows (λ t. AreHeld (state_of t) o.told)
            (S.table self.new.store.now)) }
        ensures told { IfOk result (λ o. AreTold (S.told self.new.store.now) o.told) }
        ensures gives { ChangesTable S.table self.old self.new
            (λ t u. HasStatus (Running self.old.id) self.old.id key.now t
            → RunGives t self.old.id result u) }
    {
        'again: loop {
            // Each turn that goes on holds one result more, and a list has fewer than 2^64, so that the turns end.
            let _count = held.len();
            if let Some(outcome) = self.turn(key, held)? {
                return Ok(outcome);
            }
        }
    }

    /// Runs a key once. If the run lacked a result, evaluates its key and holds the result.
    #[cycle(ensure)]
    fn turn(&mut self, key: &Key, held: &mut AnswerList) -> Result<Option<Outcome<R>>, Fault>
        requires shows { ShowsOutcomes S.outcome_in }
        requires rank { 0 < rank_of_key key.now }
        ensures same { IsSameWorker S.told self.old self.new }
        ensures key { IfOk result (λ ran. IfSome ran (λ o. o.key ≡ key.now)) }
        ensures profile { IfOk result (λ ran. IfSome ran
            (λ o. Knows (λ t. o.profile ≡ t.terms.profile) (S.table self.new.store.now))) }
        ensures held { IfOk result (λ ran. Knows (λ t. AreHeld (state_of t) held.old)
            (S.table self.old.store.now)
            → Knows (λ t. AreHeld (state_of t) (told_or ran held.new))
            (S.table self.new.store.now)) }
        ensures told { IfOk result (λ ran. AreTold (S.told self.old.store.now) held.old
            → AreTold (S.told self.new.store.now) (told_or ran held.new)) }
        ensures longer { IfOk result (λ ran. ran ≡ None → length held.old < length held.new) }
        ensures gives { ChangesTable S.table self.old self.new
            (λ t u. HasStatus (Running self.old.id) self.old.id key.now t
            → AreHeld (state_of t) held.old
            → TurnGives t self.old.id key.now result held.new u) }
    {
        match run_once(self.alloc, self.store, self.runner, self.id, key, held) {
            Ok(outcome) => Ok(Some(outcome)),
            Err(RunStop::Lacks(lacked)) => match self.fetch(lacked, held) {
                Ok(()) => Ok(None),
                Err(fault) => Err(fault),
            },
            Err(stop) => {
                let fault = self.give_up_run(&stop);
                drop(stop);
                Err(fault)
            }
        }
    }

    /// Evaluates a key that the worker has claimed for a run, and holds its result.
    #[cycle(ensure)]
    fn fetch(&mut self, lacked: Key, held: &mut AnswerList) -> Result<(), Fault>
        requires shows { ShowsOutcomes S.outcome_in }
        requires rank { 0 < rank_of_key lacked }
        ensures same { IsSameWorker S.told self.old self.new }
        ensures told { IfOk result (λ _. AreTold (S.told self.old.store.now) held.old
            → AreTold (S.told self.new.store.now) held.new) }
        ensures longer { IfOk result (λ _. length held.old < length held.new) }
        ensures gives { ChangesTable S.table self.old self.new
            (λ t u. HasStatus (Claimed self.old.id) self.old.id lacked t
            → AreHeld (state_of t) held.old
            → FetchGives t self.old.id lacked result held.new u) }
    {
        match self.work(&lacked) {
            Ok(sealed) => match held.add(lacked, sealed) {
                Ok(()) => Ok(()),
                Err(_) => Err(self.give_up(TableFault::OutOfMemory)),
            },
            Err(fault) => {
                drop(lacked);
                Err(fault)
            }
        }
    }
}
