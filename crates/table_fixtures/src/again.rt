//! Calls of a table: one that is refused memory is made once more, if the refusal left the events as they were.
ghost use Rattle.std.specs.Prelude.{◌≡◌, map, IfOk};
ghost use Rattle.std.specs.Arc.{arc_value};
ghost use Rattle.query_rules.specs.Queries.{queries};
ghost use Rattle.sessions.specs.Sessions.{session_in};
ghost use Rattle.job_table.specs.Kept.{event_of};
ghost use Rattle.job_table.specs.Calls.{AskGives, MarkGives, BeginGives, FinishGives};
ghost use Rattle.job_table.specs.Closes.{CloseGives};
ghost use Rattle.job_table.specs.Replays.{ReplayGives};

use crate::calls::events;
use fingerprint::Sealed;
use item_ids::Key;
use job_table::{Asked, CloseFault, Event, ReplayFault, Table, TableFault};
use mini_java::MiniJava;
use named_files::Project;
use recorder::Outcome;
use sessions::{Session, Terms};
use std::alloc::{AllocError, Global};
use std::sync::Arc;

pub(crate) fn ask(table: &mut Table<MiniJava>, worker: u32, key: &Key) -> Result<Asked, TableFault>
    ensures { AskGives table.old worker key.now result table.new }
{
    let before = events(table);
    match table.ask(worker, key) {
        Err(TableFault::OutOfMemory) if events(table) == before => table.ask(worker, key),
        told => told,
    }
}

pub(crate) fn mark(
    table: &mut Table<MiniJava>,
    worker: u32,
    key: &Key,
) -> Result<Arc<Sealed>, TableFault>
    ensures { MarkGives table.old worker key.now result table.new }
{
    let before = events(table);
    match table.mark(worker, key) {
        Err(TableFault::OutOfMemory) if events(table) == before => table.mark(worker, key),
        told => told,
    }
}

pub(crate) fn begin(table: &mut Table<MiniJava>, worker: u32, key: &Key) -> Result<(), TableFault>
    ensures { BeginGives table.old worker key.now result table.new }
{
    let before = events(table);
    match table.begin_run(worker, key) {
        Err(TableFault::OutOfMemory) if events(table) == before => table.begin_run(worker, key),
        told => told,
    }
}

pub(crate) fn finish(
    table: &mut Table<MiniJava>,
    worker: u32,
    outcome: Arc<Outcome<MiniJava>>,
) -> Result<Result<(), TableFault>, AllocError>
    ensures { IfOk result (λ told. FinishGives table.old worker (arc_value outcome) told table.new) }
{
    let own = Arc::try_clone(&outcome)?;
    let before = events(table);
    match table.finish(worker, own) {
        Err(TableFault::OutOfMemory) if events(table) == before => {
            Ok(table.finish(worker, outcome))
        }
        told => Ok(told),
    }
}

pub(crate) fn close(table: &Table<MiniJava>) -> Result<Session, CloseFault>
    ensures { CloseGives table.now result }
{
    match table.close() {
        Err(CloseFault::OutOfMemory) => table.close(),
        told => told,
    }
}

/// One more owner of the previous session.
fn own(past: &Option<Arc<Session>>) -> Result<Option<Arc<Session>>, AllocError>
    ensures { IfOk result (λ own. session_in own ≡ session_in past.now) }
{
    match past {
        Some(past) => Ok(Some(Arc::try_clone(past)?)),
        None => Ok(None),
    }
}

/// Replays the events in a table of these terms over the previous session in the project.
pub(crate) fn replay(
    alloc: Global,
    terms: Terms,
    past: &Option<Arc<Session>>,
    project: &Project,
    list: &[Event<MiniJava>],
) -> Result<Result<Table<MiniJava>, ReplayFault>, AllocError>
    ensures { IfOk result (ReplayGives queries.by_profile terms (session_in past.now)
        project.now (map event_of list.now)) }
{
    match Table::replay_as(alloc, own(past)?, project, list, terms) {
        Err(ReplayFault::OutOfMemory) => {
            Ok(Table::replay_as(alloc, own(past)?, project, list, terms))
        }
        told => Ok(told),
    }
}
