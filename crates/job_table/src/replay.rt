//! Tables from their events.
ghost use Rattle.std.specs.Prelude.{◌≡◌, [], map};
ghost use Rattle.sessions.specs.Terms.{first_terms};
ghost use Rattle.sessions.specs.Sessions.{session_in};
ghost use Rattle.job_table.specs.Kept.{event_of};
ghost use Rattle.job_table.specs.Replays.{step_of_ask, step_of_mark, step_of_call, refusal_of};

use crate::event::Event;
use crate::fault::{Asked, OpenFault, ReplayFault, StepFault, TableFault};
use crate::table::Table;
use fingerprint::Sealed;
use named_files::Project;
use recorder::Runner;
use sessions::{Session, Terms};
use std::alloc::Global;
use std::sync::Arc;

impl<R: Runner> Table<R> {
    ghost use Rattle.job_table.specs.Replays.{StepGives, StepsGive, ReplayGives};

    /// The table of the first terms that these events lead to, or the first of them that is no step.
    pub fn replay(
        alloc: Global,
        past: Option<Arc<Session>>,
        project: &Project,
        events: &[Event<R>],
    ) -> Result<Self, ReplayFault>
        ensures { ReplayGives R.queries.by_profile first_terms (session_in past) project.now
            (map event_of events.now) result }
    {
        Table::replay_as(alloc, past, project, events, Terms::first())
    }

    /// The table of these terms that the events lead to, or the first of them that is no step.
    pub fn replay_as(
        alloc: Global,
        past: Option<Arc<Session>>,
        project: &Project,
        events: &[Event<R>],
        terms: Terms,
    ) -> Result<Self, ReplayFault>
        ensures { ReplayGives R.queries.by_profile terms (session_in past) project.now
            (map event_of events.now) result }
    {
        let mut table: Table<R> = match Table::open_as(alloc, past, project, terms) {
            Ok(table) => table,
            Err(OpenFault::ChainFull) => return Err(ReplayFault::ChainFull),
            Err(OpenFault::OutOfMemory) => return Err(ReplayFault::OutOfMemory),
        };
        table.step_all(events)?;
        Ok(table)
    }

    /// Makes the calls of these events in a table that has none, up to the first that is no step.
    fn step_all(&mut self, events: &[Event<R>]) -> Result<(), ReplayFault>
        requires { self.old.history ≡ [] }
        ensures { StepsGive self.old (map event_of events.now) result self.new }
    {
        for (i, event) in events.iter().enumerate() {
            match self.step(event) {
                Ok(()) => {}
                Err(StepFault::NoStep) => return Err(ReplayFault::Illegal(i)),
                Err(StepFault::OutOfMemory) => return Err(ReplayFault::OutOfMemory),
            }
        }
        Ok(())
    }

    /// Makes the call of an event, if it is a step.
    fn step(&mut self, event: &Event<R>) -> Result<(), StepFault>
        ensures { StepGives self.old (event_of event.now) result self.new }
    {
        match event {
            Event::Claim(w, key) => by_ask(self.ask(*w, key)),
            Event::Mark(w, key) => by_mark(self.mark(*w, key)),
            Event::Begin(w, key) => by_call(self.begin_run(*w, key)),
            Event::Finish(w, outcome) => match Arc::try_clone(outcome) {
                Ok(own) => by_call(self.finish(*w, own)),
                Err(_) => Err(StepFault::OutOfMemory),
            },
            Event::Fail(w) => by_call(self.fail(*w)),
        }
    }
}

/// Whether the event was a step, by the answer to a claim.
fn by_ask(asked: Result<Asked, TableFault>) -> Result<(), StepFault>
    ensures { result ≡ step_of_ask asked }
{
    match asked {
        Ok(Asked::Yours) => Ok(()),
        Ok(Asked::Done(_)) => Err(StepFault::NoStep),
        Ok(Asked::Busy) => Err(StepFault::NoStep),
        Ok(Asked::Stopped) => Err(StepFault::NoStep),
        Err(fault) => Err(refusal(fault)),
    }
}

/// Whether the event was a step, by the answer to a mark.
fn by_mark(marked: Result<Arc<Sealed>, TableFault>) -> Result<(), StepFault>
    ensures { result ≡ step_of_mark marked }
{
    match marked {
        Ok(_) => Ok(()),
        Err(fault) => Err(refusal(fault)),
    }
}

/// Whether the event was a step, by any other answer.
fn by_call(called: Result<(), TableFault>) -> Result<(), StepFault>
    ensures { result ≡ step_of_call called }
{
    match called {
        Ok(()) => Ok(()),
        Err(refused) => Err(refusal(refused)),
    }
}

fn refusal(fault: TableFault) -> StepFault
    ensures { result ≡ refusal_of fault }
{
    match fault {
        TableFault::OutOfMemory => StepFault::OutOfMemory,
        _ => StepFault::NoStep,
    }
}
