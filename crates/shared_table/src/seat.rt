//! A worker's seat at a table that all share.
ghost use Rattle.std.specs.Prelude.{◌≡◌, ◌⊎◌, None, Err, IfOk, IfErr};
ghost use Rattle.std.specs.Arc.{arc_value};
ghost use Rattle.job_table.specs.declared.fault.TableFault.TheVariants as fault;
ghost use Rattle.sessions.specs.Sessions.{session_in};
ghost use Rattle.graph_rules.specs.Steps.{AreHeld};
ghost use Rattle.job_table.specs.Tables.{state_of};
ghost use Rattle.job_table.specs.Calls.{AskGives, MarkGives, BeginGives, FinishGives, FailGives};
ghost use Rattle.mark_green.specs.Leaves.{Knows, KnowsChange, ClaimsNoInput, StaysTold, TellsDone, AreTold};
ghost use Rattle.shared_table.specs.Told.{IsFound};
ghost use Rattle.shared_table.specs.Given.{IsGiven, IsKnown, IsOwnAnswer};

use crate::gate::Gate;
use crate::memo::Memo;
use crate::naming::Naming;
use crate::shared::Shared;
use crate::tally::Tally;
use fingerprint::Sealed;
use item_ids::Key;
use job_table::{Asked, TableFault};
use mark_green::Store;
use recorder::{Outcome, Runner};
use sessions::{Session, Terms};
use std::alloc::AllocError;
use std::sync::{Arc, Wait};

/// A worker's seat at a shared table: the store that it works with. Others may change the table at any time: contracts
/// say that each answer is one of a table of this session, and that the results which the worker was given stay. A
/// worker that asks for a key which another one has waits. The seat keeps the results of done keys that it was given, and
/// answers for them by itself. No lock is held while the gate is called.
#[derive(Drop)]
pub struct Seat<'a, J: Naming, R: Runner, T: Wait, G: Gate> {
    rt: &'a T,
    shared: &'a Shared<J, R>,
    gate: &'a G,
    tally: &'a mut Tally<J>,
    memo: Memo<J, R>,
}

impl<'a, J: Naming, R: Runner, T: Wait, G: Gate> Seat<'a, J, R, T, G> {
    pub(crate) fn new(
        rt: &'a T,
        shared: &'a Shared<J, R>,
        gate: &'a G,
        tally: &'a mut Tally<J>,
        memo: Memo<J, R>,
    ) -> Self {
        Seat {
            rt,
            shared,
            gate,
            tally,
            memo,
        }
    }
}

impl<J: Naming, R: Runner, T: Wait, G: Gate> Store for Seat<'_, J, R, T, G> {
    ghost use Rattle.std.specs.Prelude.{None};
    ghost use Rattle.mark_green.proofs.KindRules.{done_kind};
    ghost use Rattle.job_table.specs.Tables.{state_of};
    ghost use Rattle.shared_table.specs.Given.{IsKnown};

    type Out = Arc<Outcome<R>>;

    ghost table = { λ s. None };

    ghost told = { λ s q v. IsKnown R.queries J.opened s.memo q v };

    ghost outcome_in = { λ o. arc_value o };

    fn ask(&mut self, w: u32, key: &Key) -> Result<Asked, TableFault>
        ensures gives { KnowsChange (λ t u. AskGives t w key.now result u) None None }
        ensures claims { ClaimsNoInput key.now result }
        ensures told { TellsDone (IsKnown R.queries J.opened self.new.memo) key.now result }
        ensures stays { StaysTold (IsKnown R.queries J.opened self.old.memo) (IsKnown R.queries J.opened self.new.memo) }
        ensures given { IsOwnAnswer R.queries J.opened key.now result
            ⊎ IsGiven R.queries J.opened (λ t u. AskGives t w key.now result u) }
    {
        if let Some(sealed) = self.memo.get(key) {
            return again(sealed);
        }
        'asks: for _ in self.rt.forever() {
            let mut locked = self.shared.locked.lock(self.rt);
            locked.laws();
            let answer = locked.ask(self.rt, self.tally, &mut self.memo, w, key);
            if is_busy(&answer) {
                drop(self.shared.changed.wait(self.rt, locked));
            } else {
                drop(locked);
                return self.keep(key, answer);
            }
        }
        unreachable!()
    }

    fn mark(&mut self, w: u32, key: &Key) -> Result<Arc<Sealed>, TableFault>
        ensures gives { KnowsChange (λ t u. MarkGives t w key.now result u) None None }
        ensures told { IfOk result (λ a. IsKnown R.queries J.opened self.new.memo key.now (arc_value a)) }
        ensures stays { StaysTold (IsKnown R.queries J.opened self.old.memo) (IsKnown R.queries J.opened self.new.memo) }
        ensures given { IsGiven R.queries J.opened (λ t u. MarkGives t w key.now result u) }
    {
        let mut locked = self.shared.locked.lock(self.rt);
        locked.laws();
        let answer = locked.mark(self.rt, self.tally, &mut self.memo, w, key);
        self.shared.wake(locked);
        answer
    }

    fn begin_run(&mut self, w: u32, key: &Key) -> Result<(), TableFault>
        ensures gives { KnowsChange (λ t u. BeginGives t w key.now result u) None None }
        ensures stays { StaysTold (IsKnown R.queries J.opened self.old.memo) (IsKnown R.queries J.opened self.new.memo) }
        ensures given { IsGiven R.queries J.opened (λ t u. BeginGives t w key.now result u) }
    {
        let mut locked = self.shared.locked.lock(self.rt);
        locked.laws();
        let answer = locked.begin_run(self.tally, w, key);
        drop(locked);
        if let Ok(()) = &answer {
            self.gate.before_run(w, key);
        }
        answer
    }

    fn finish(&mut self, w: u32, outcome: Arc<Outcome<R>>) -> Result<(), TableFault>
        requires held { Knows (λ t. AreHeld (state_of t) (arc_value outcome).told) None }
        requires told { AreTold (IsKnown R.queries J.opened self.old.memo) (arc_value outcome).told }
        ensures gives { KnowsChange (λ t u. FinishGives t w (arc_value outcome) result u) None None }
        ensures told { IfOk result (λ _. IsKnown R.queries J.opened self.new.memo (arc_value outcome).key
            (arc_value outcome).value) }
        ensures stays { StaysTold (IsKnown R.queries J.opened self.old.memo) (IsKnown R.queries J.opened self.new.memo) }
        ensures given { (result ≡ Err fault.OutOfMemory)
            ⊎ IsGiven R.queries J.opened (λ t u. FinishGives t w (arc_value outcome) result u) }
    {
        let Ok(ended) = Arc::try_clone(&outcome) else {
            return Err(TableFault::OutOfMemory);
        };
        let mut locked = self.shared.locked.lock(self.rt);
        locked.laws();
        let answer = locked.finish(self.rt, self.tally, &mut self.memo, w, outcome, &ended);
        self.shared.wake(locked);
        after_run(self.gate, w, &ended, &answer);
        answer
    }

    fn fail(&mut self, w: u32) -> Result<(), TableFault>
        ensures gives { KnowsChange (λ t u. FailGives t w result u) None None }
        ensures stays { StaysTold (IsKnown R.queries J.opened self.old.memo) (IsKnown R.queries J.opened self.new.memo) }
        ensures given { IsGiven R.queries J.opened (λ t u. FailGives t w result u) }
    {
        let mut locked = self.shared.locked.lock(self.rt);
        locked.laws();
        let answer = locked.fail(self.tally, w);
        self.shared.wake(locked);
        answer
    }

    fn terms(&self) -> Terms
        ensures known { Knows (λ t. result ≡ t.terms) None }
        ensures of_name { result ≡ J.opened.terms }
    {
        self.shared.terms()
    }

    fn past(&self) -> Result<Option<Arc<Session>>, AllocError>
        ensures known { IfOk result (λ past. Knows (λ t. session_in past ≡ t.past) None) }
        ensures of_name { IfOk result (λ past. session_in past ≡ J.opened.past) }
    {
        self.shared.past()
    }

    ghost of_kind = { λ s q v told. done_kind (state_of told.1.table) q v
        told.1.of_session.order told.1.done };
}

impl<J: Naming, R: Runner, T: Wait, G: Gate> Seat<'_, J, R, T, G> {
    /// Keeps the result of a key that was found done.
    fn keep(&mut self, key: &Key, answer: Result<Asked, TableFault>) -> Result<Asked, TableFault>
        requires told { TellsDone (IsKnown R.queries J.opened self.old.memo) key.now answer }
        ensures told { TellsDone (IsKnown R.queries J.opened self.new.memo) key.now result }
        ensures same { self.new.memo ≡ self.old.memo }
        ensures answer { (result ≡ answer) ⊎ (result ≡ Err fault.OutOfMemory) }
    {
        if self.memo.keeps(key, &answer) {
            answer
        } else {
            Err(TableFault::OutOfMemory)
        }
    }
}

/// Whether another worker has the key.
fn is_busy(answer: &Result<Asked, TableFault>) -> bool {
    matches!(answer, Ok(Asked::Busy))
}

/// Calls the gate after a run that was ended.
fn after_run<R: Runner, G: Gate>(
    gate: &G,
    w: u32,
    ended: &Outcome<R>,
    answer: &Result<(), TableFault>,
) {
    if let Ok(()) = answer {
        gate.after_run(w, ended.key());
    }
}

/// The result of a key that is done.
fn again(sealed: &Arc<Sealed>) -> Result<Asked, TableFault>
    ensures ok { IfOk result (λ a. IsFound a (arc_value sealed.now)) }
    ensures err { IfErr result (λ why. why ≡ fault.OutOfMemory) }
{
    match Arc::try_clone(sealed) {
        Ok(sealed) => Ok(Asked::Done(sealed)),
        Err(_) => Err(TableFault::OutOfMemory),
    }
}
