//! What lies under the lock.
ghost use Rattle.std.specs.Prelude.{◌≡◌, [], IfOk, MatchBool};
ghost use Rattle.std.specs.Arc.{arc_value};
ghost use mathlib.Core.List.{IsPrefix};
ghost use Rattle.graph_rules.specs.Steps.{IsDoneWith};
ghost use Rattle.job_table.specs.Tables.{state_of};
ghost use Rattle.job_table.specs.Calls.{AskGives, MarkGives, BeginGives, FinishGives, FailGives};
ghost use Rattle.mark_green.specs.Leaves.{ClaimsNoInput, TellsDone, AreTold};
ghost use Rattle.shared_table.specs.Given.{IsKnown, IsOfSession};

use crate::counted::Counted;
use crate::memo::Memo;
use crate::naming::Naming;
use crate::tally::Tally;
use fingerprint::Sealed;
use item_ids::Key;
use job_table::{Asked, TableFault};
use known_list::{Head, Known};
use logbook::Plain;
use recorder::{Outcome, Read, Runner};
use std::marker::Model;
use std::sync::{Arc, Wait};

/// A key with its result, as a worker is given them.
#[derive(Drop)]
struct Fact<'a> {
    key: &'a Key,
    sealed: &'a Arc<Sealed>,
}

/// How a fact stands in the list of all that was given.
struct Telling;

impl Plain<Fact<'_>, Read, u64> for Telling {
    ghost use Rattle.std.specs.Prelude.{None};
    ghost use Rattle.std.specs.Arc.{arc_value};

    ghost ask = { λ f. record { key = f.key.now; value = arc_value f.sealed.now } };

    ghost state = { λ f. None };
}

/// What lies under the lock: a counted table, and the list of all keys with their results that it gave its workers. Its
/// role is to say: each of those keys is done with that result, and what is done stays done, so that a worker's reads
/// still stand when it ends a run, and none is compared with the table's again.
pub(crate) struct Locked<J: Naming, R: Runner> {
    counted: Counted<J, R>,
    head: Head<J, Read>,
    told: Known<J, Read>,
}

impl<J: Naming, R: Runner> Drop for Locked<J, R> {
    fn drop(self) {
        let Locked {
            counted: _,
            head: _,
            told: _,
        } = self;
    }
}

impl<J: Naming, R: Runner> Model for Locked<J, R> {
    ghost use Rattle.std.specs.Coded.{codes};
    ghost use Rattle.result_bytes.specs.contracts.value.Value as value_contracts;
    ghost use Rattle.graph_rules.specs.Steps.{AreHeld};
    ghost use Rattle.job_table.specs.Tables.{TableValue, state_of};

    ghost Value = { TableValue };

    ghost coded = { Prim.hlevel (codes, value_contracts.the_row.coded) };

    ghost view = { λ d. d.counted };

    ghost invariant = { λ d. AreHeld (state_of d.counted) d.told };
}

impl<J: Naming, R: Runner> Locked<J, R> {
    /// A table that has given nothing yet.
    pub(crate) fn new(counted: Counted<J, R>, head: Head<J, Read>, told: Known<J, Read>) -> Self
        requires { told ≡ [] }
        ensures { result ≡ counted }
    {
        Locked {
            counted,
            head,
            told,
        }
    }

    /// The table.
    pub(crate) fn into_counted(self) -> Counted<J, R>
        ensures { result ≡ self }
    {
        let Locked {
            counted,
            head: _,
            told: _,
        } = self;
        counted
    }

    /// What the type of the table keeps.
    pub(crate) fn laws(&self)
        ensures { IsOfSession R.queries J.opened self.now }
    {
        self.counted.laws();
    }

    /// Asks for a key. A result that is there is given.
    pub(crate) fn ask<T: Wait>(
        &mut self,
        rt: &T,
        tally: &mut Tally<J>,
        memo: &mut Memo<J, R>,
        w: u32,
        key: &Key,
    ) -> Result<Asked, TableFault>
        ensures gives { AskGives self.old w key.now result self.new }
        ensures claims { ClaimsNoInput key.now result }
        ensures told { TellsDone (IsKnown R.queries J.opened memo.new) key.now result }
        ensures stays { IsPrefix memo.old memo.new }
    {
        let answer = self.counted.ask(tally, w, key);
        if let Ok(Asked::Done(sealed)) = &answer {
            self.tell(rt, memo, key, sealed);
        }
        answer
    }

    /// Takes over the previous session's result, which is given.
    pub(crate) fn mark<T: Wait>(
        &mut self,
        rt: &T,
        tally: &mut Tally<J>,
        memo: &mut Memo<J, R>,
        w: u32,
        key: &Key,
    ) -> Result<Arc<Sealed>, TableFault>
        ensures gives { MarkGives self.old w key.now result self.new }
        ensures told { IfOk result (λ a. IsKnown R.queries J.opened memo.new key.now (arc_value a)) }
        ensures stays { IsPrefix memo.old memo.new }
    {
        let answer = self.counted.mark(tally, w, key);
        if let Ok(sealed) = &answer {
            self.tell(rt, memo, key, sealed);
        }
        answer
    }

    /// Begins a run.
    pub(crate) fn begin_run(
        &mut self,
        tally: &mut Tally<J>,
        w: u32,
        key: &Key,
    ) -> Result<(), TableFault>
        ensures { BeginGives self.old w key.now result self.new }
    {
        self.counted.begin_run(tally, w, key)
    }

    /// Ends a run by its outcome, whose result is given.
    pub(crate) fn finish<T: Wait>(
        &mut self,
        rt: &T,
        tally: &mut Tally<J>,
        memo: &mut Memo<J, R>,
        w: u32,
        outcome: Arc<Outcome<R>>,
        ended: &Outcome<R>,
    ) -> Result<(), TableFault>
        requires same { ended.now ≡ arc_value outcome }
        requires reads { AreTold (IsKnown R.queries J.opened memo.old) ended.now.told }
        ensures gives { FinishGives self.old w ended.now result self.new }
        ensures told { IfOk result (λ _. IsKnown R.queries J.opened memo.new ended.now.key
            ended.now.value) }
        ensures stays { IsPrefix memo.old memo.new }
    {
        let answer = self.end(tally, memo, w, outcome);
        if let Ok(()) = &answer {
            self.tell(rt, memo, ended.key(), ended.sealed());
        }
        answer
    }

    /// Ends a run by its outcome. What was read was given, so it isn't compared with the table's again if the table
    /// knows all that the worker does.
    fn end(
        &mut self,
        tally: &mut Tally<J>,
        memo: &Memo<J, R>,
        w: u32,
        outcome: Arc<Outcome<R>>,
    ) -> Result<(), TableFault>
        requires reads { AreTold (IsKnown R.queries J.opened memo.now) (arc_value outcome).told }
        ensures { FinishGives self.old w (arc_value outcome) result self.new }
    {
        if self.told.begins_with(memo.known()) {
            self.counted.finish_held(tally, w, outcome)
        } else {
            self.counted.finish(tally, w, outcome)
        }
    }

    /// Notes that a worker gives up.
    pub(crate) fn fail(&mut self, tally: &mut Tally<J>, w: u32) -> Result<(), TableFault>
        ensures { FailGives self.old w result self.new }
    {
        self.counted.fail(tally, w)
    }

    /// Gives a worker a key that is done with this result. Only the table adds to the list, and so knows all of it, so that
    /// the first try succeeds; no clause of the list says so, and it is tried until it does.
    fn tell<T: Wait>(&mut self, rt: &T, memo: &mut Memo<J, R>, key: &Key, sealed: &Arc<Sealed>)
        requires { IsDoneWith (arc_value sealed.now) ((state_of self.old).at key.now) }
        ensures same { self.new ≡ self.old }
        ensures told { IsKnown R.queries J.opened memo.new key.now (arc_value sealed.now) }
        ensures stays { IsPrefix memo.old memo.new }
    {
        'tells: for _ in rt.forever() {
            if self.try_tell(memo, key, sealed) {
                return;
            }
        }
        unreachable!()
    }

    /// Gives a worker a key that is done with this result, if the table knows all that the worker does, and the whole
    /// list, and says whether it did.
    fn try_tell(&mut self, memo: &mut Memo<J, R>, key: &Key, sealed: &Arc<Sealed>) -> bool
        requires { IsDoneWith (arc_value sealed.now) ((state_of self.old).at key.now) }
        ensures same { self.new ≡ self.old }
        ensures told { MatchBool result
            (IsKnown R.queries J.opened memo.new key.now (arc_value sealed.now))
            (memo.new ≡ memo.old) }
        ensures stays { IsPrefix memo.old memo.new }
    {
        if !self.told.begins_with(memo.known()) {
            return false;
        }
        if !self
            .told
            .add::<Fact, Telling>(&self.head, &Fact { key, sealed })
        {
            return false;
        }
        // What is given is done in this table, which is one of the session.
        self.counted.laws();
        memo.learn(self.told.again());
        true
    }
}
