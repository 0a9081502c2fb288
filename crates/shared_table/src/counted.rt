//! A table with the sum of its workers' events.
ghost use Rattle.std.specs.Prelude.{◌≡◌, ◌-◌, [], IfOk, length, option_map, slice_get};
ghost use Rattle.std.specs.Option.{option_copied};
ghost use Rattle.std.specs.Arc.{arc_value};
ghost use Rattle.result_bytes.specs.Values.{IsOfKind};
ghost use Rattle.graph_rules.specs.Steps.{AreHeld};
ghost use Rattle.sessions.specs.Sessions.{session_in};
ghost use Rattle.job_table.specs.Tables.{state_of, with_history};
ghost use Rattle.job_table.specs.Kept.{event_of};
ghost use Rattle.job_table.specs.Calls.{AskGives, MarkGives, BeginGives, FinishGives, FailGives};
ghost use Rattle.mark_green.specs.Leaves.{ClaimsNoInput, TellsDone};
ghost use Rattle.shared_table.specs.Given.{IsOfSession};

use crate::naming::Naming;
use crate::tally::Tally;
use fingerprint::Sealed;
use item_ids::Key;
use job_table::{Asked, Event, Table, TableFault};
use mark_green::{ask_table, mark_table};
use recorder::{Outcome, Runner};
use sessions::{Session, Terms};
use std::alloc::{AllocError, Global};
use std::marker::Model;
use std::sync::Arc;
use std::sync::ledger::{Book, Share};

/// The table of the session that its name stands for, and the sum of its workers' events, which is the length of the
/// table's history. Its role is to count: each call is that of the table, and its event is counted for the worker that
/// made it. A worker who is alone works at it, and several at one that is locked.
pub struct Counted<J: Naming, R: Runner> {
    table: Table<R>,
    book: Book<J>,
}

impl<J: Naming, R: Runner> Drop for Counted<J, R> {
    fn drop(self) {
        let Counted { table: _, book: _ } = self;
    }
}

impl<J: Naming, R: Runner> Model for Counted<J, R> {
    ghost use Rattle.std.specs.Prelude.{◌≡◌, [], length};
    ghost use Rattle.std.specs.Coded.{codes};
    ghost use Rattle.result_bytes.specs.contracts.value.Value as value_contracts;
    ghost use Rattle.job_table.specs.Tables.{TableValue, with_history};

    ghost Value = { TableValue };

    ghost coded = { Prim.hlevel (codes, value_contracts.the_row.coded) };

    ghost view = { λ c. c.table };

    ghost invariant = { λ c. (with_history c.table [] ≡ J.opened)
        × (length c.table.history ≡ c.book.total) };
}

impl<J: Naming, R: Runner> Counted<J, R> {
    /// A table that was just opened.
    pub fn new(table: Table<R>, book: Book<J>) -> Self
        requires opened { with_history table [] ≡ J.opened }
        requires events { length table.history ≡ book.total }
        ensures { result ≡ table }
    {
        Counted { table, book }
    }

    /// What the type keeps: it is a table of the session that its name stands for.
    pub(crate) fn laws(&self)
        ensures { IsOfSession R.queries J.opened self.now }
    {
        self.table.laws();
    }

    pub(crate) fn ask(
        &mut self,
        tally: &mut Tally<J>,
        w: u32,
        key: &Key,
    ) -> Result<Asked, TableFault>
        ensures gives { AskGives self.old w key.now result self.new }
        ensures claims { ClaimsNoInput key.now result }
        ensures kind { TellsDone IsOfKind key.now result }
    {
        let Counted { table, book } = self;
        let answer = ask_table(table, w, key);
        if let Ok(Asked::Yours) = &answer {
            tally.count(table, book);
        }
        answer
    }

    pub(crate) fn mark(
        &mut self,
        tally: &mut Tally<J>,
        w: u32,
        key: &Key,
    ) -> Result<Arc<Sealed>, TableFault>
        ensures gives { MarkGives self.old w key.now result self.new }
        ensures kind { IfOk result (λ a. IsOfKind key.now (arc_value a)) }
    {
        let Counted { table, book } = self;
        let answer = mark_table(table, w, key);
        if let Ok(_) = &answer {
            tally.count(table, book);
        }
        answer
    }

    pub(crate) fn begin_run(
        &mut self,
        tally: &mut Tally<J>,
        w: u32,
        key: &Key,
    ) -> Result<(), TableFault>
        ensures { BeginGives self.old w key.now result self.new }
    {
        let Counted { table, book } = self;
        let answer = table.begin_run(w, key);
        if let Ok(()) = &answer {
            tally.count(table, book);
        }
        answer
    }

    pub(crate) fn finish(
        &mut self,
        tally: &mut Tally<J>,
        w: u32,
        outcome: Arc<Outcome<R>>,
    ) -> Result<(), TableFault>
        ensures { FinishGives self.old w (arc_value outcome) result self.new }
    {
        let Counted { table, book } = self;
        let answer = table.finish(w, outcome);
        if let Ok(()) = &answer {
            tally.count(table, book);
        }
        answer
    }

    pub(crate) fn finish_held(
        &mut self,
        tally: &mut Tally<J>,
        w: u32,
        outcome: Arc<Outcome<R>>,
    ) -> Result<(), TableFault>
        requires { AreHeld (state_of self.old) (arc_value outcome).told }
        ensures { FinishGives self.old w (arc_value outcome) result self.new }
    {
        let Counted { table, book } = self;
        let answer = table.finish_held(w, outcome);
        if let Ok(()) = &answer {
            tally.count(table, book);
        }
        answer
    }

    pub(crate) fn fail(&mut self, tally: &mut Tally<J>, w: u32) -> Result<(), TableFault>
        ensures { FailGives self.old w result self.new }
    {
        let Counted { table, book } = self;
        let answer = table.fail(w);
        if let Ok(()) = &answer {
            tally.count(table, book);
        }
        answer
    }

    /// The last event.
    pub(crate) fn last(&self) -> Option<&Event<R>>
        ensures { option_map event_of (option_copied result)
            ≡ slice_get self.now.history (length self.now.history - 1) }
    {
        self.table.history().last()
    }

    /// The terms of the session.
    pub(crate) fn terms(&self) -> Terms
        ensures { result ≡ self.now.terms }
    {
        self.table.terms()
    }

    /// The previous session.
    pub(crate) fn past(&self) -> Result<Option<Arc<Session>>, AllocError>
        ensures { IfOk result (λ past. session_in past ≡ self.now.past) }
    {
        self.table.past()
    }

    /// The table, once all shares have come together. Its history has as many events as the workers have counted.
    pub fn end(self, all: &mut Share<J>) -> Table<R>
        requires whole { all.old.parts ≡ J.parts }
        ensures table { result ≡ self }
        ensures opened { with_history result [] ≡ J.opened }
        ensures counted { length result.history ≡ all.old.amount }
    {
        let Counted { table, mut book } = self;
        book.audit(all);
        table
    }
}
