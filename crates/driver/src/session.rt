//! One session.
ghost use Rattle.std.specs.Prelude.{◌≡◌, ◌+◌, ◌↔◌, ◌≤◌, map, IsTrue, IfOk, IfSome, length, sum, vec_len, []};
ghost use Rattle.item_ids.specs.declared.key.Key.TheVariants.{Answer};
ghost use Rattle.shared_table.specs.Tables.{state_of};
ghost use Rattle.shared_table.specs.Closing.{IsClosing};
ghost use Rattle.shared_table.specs.Closes.{MayClose};
ghost use Rattle.recorder.specs.Backed.{AreLawful};
ghost use Rattle.sessions.specs.Terms.{first_terms};
ghost use Rattle.sessions.specs.Sessions.{IsSession, SessionValue, session_in};
ghost use Rattle.graph_rules.specs.NextSessions.{StandsApart, IsNextSession};
ghost use Rattle.shared_table.specs.Opened.{IsOpenedFor};
ghost use Rattle.driver.specs.Sessions.{IsCrew, DriveGives, IsSessionOf};

use crate::crew::{Crew, Member, Work, join_counts, make_workers, work_at};
use crate::fault::DriveFault;
use crate::jobs::Jobs;
use crate::laws::sessions_are_next;
use crate::reports::Reports;
use named_files::Project;
use recorder::Runner;
use sessions::{Session, Terms};
use shared_table::{CloseFault, Counted, Gate, Naming, OpenFault, Opening, Table};
use std::alloc::{AllocError, Global};
use std::marker::Brand;
use std::sync::ledger::Share;
use std::sync::{Arc, Wait};
use std::thread::Threads;

/// What a session is made on: its terms, and the previous session.
#[derive(Drop)]
pub struct Basis {
    pub terms: Terms,
    pub past: Option<Arc<Session>>,
}

/// Makes one session of a project, of the first terms, as `drive_as` does.
pub fn drive<
    R: Runner + Drop + Send + Sync,
    F: Fn() -> R,
    W: Jobs + Sync,
    G: Gate + Sync,
    T: Threads + Wait + Sync,
>(
    rt: &T,
    alloc: Global,
    make: &F,
    prev: Option<Arc<Session>>,
    project: &Project,
    crew: Crew<'_, W>,
    gate: &G,
) -> Result<(Session, Reports), DriveFault>
    requires { F.IsAlwaysCallable make.now }
    ensures gives { DriveGives R.queries first_terms (session_in prev) project.now crew.entry.workers
        result }
    ensures next { IfOk result (λ done. StandsApart R.queries (session_in prev) done.0
        → IsNextSession R.queries first_terms (session_in prev) project.now done.0) }
{
    let basis = Basis {
        terms: Terms::first(),
        past: prev,
    };
    drive_as(rt, alloc, make, basis, project, crew, gate)
}

/// Makes one session of a project, of these terms over the previous session, by a crew of workers at one table. For
/// each of them a runner is made. The gate is called around each run.
pub fn drive_as<
    R: Runner + Drop + Send + Sync,
    F: Fn() -> R,
    W: Jobs + Sync,
    G: Gate + Sync,
    T: Threads + Wait + Sync,
>(
    rt: &T,
    alloc: Global,
    make: &F,
    basis: Basis,
    project: &Project,
    crew: Crew<'_, W>,
    gate: &G,
) -> Result<(Session, Reports), DriveFault>
    requires { F.IsAlwaysCallable make.now }
    ensures gives { DriveGives R.queries basis.terms (session_in basis.past) project.now
        crew.entry.workers result }
    // A session that stands apart from the previous one is the next session.
    ensures next { IfOk result (λ done. StandsApart R.queries (session_in basis.past) done.0
        → IsNextSession R.queries basis.terms (session_in basis.past) project.now done.0) }
    // The next session, if it stands apart from the previous one, is this one.
    ensures only { IfOk result (λ done. (next : SessionValue)
        → IsNextSession R.queries basis.terms (session_in basis.past) project.now next → StandsApart R.queries (session_in basis.past) next
        → done.0 ≡ next) }
{
    let Crew { workers, jobs } = crew;
    let Basis { terms, past } = basis;
    if !is_crew(workers) {
        return Err(DriveFault::Workers);
    }
    // What the types of the project, the past and the runner keep, from which the law on sessions has the clause `next`.
    let _files = project.files();
    past_is_session(&past);
    keeps_laws::<R>();
    sessions_are_next();
    match Table::open_by(rt, alloc, past, project, terms, workers) {
        Ok(table) => {
            let work = Work {
                project,
                jobs,
                gate,
            };
            let opening = Opening::new(table, workers as u64);
            let done = drive_table::<Brand, R, F, W, G, T>(
                rt, alloc, make, opening, &work, workers,
            )?;
            // A session keeps in its type what its records are.
            let _records = done.0.records();
            Ok(done)
        }
        Err(OpenFault::ChainFull) => Err(DriveFault::ChainFull),
        Err(OpenFault::OutOfMemory) => Err(DriveFault::OutOfMemory),
    }
}

/// A runner keeps the laws by its type.
pub(crate) fn keeps_laws<R: Runner>()
    ensures { AreLawful R.queries }
{}

/// The previous session, if there is one, is a session.
pub(crate) fn past_is_session(prev: &Option<Arc<Session>>)
    ensures { IfSome (session_in prev.now) IsSession }
{
    if let Some(past) = prev {
        let _records = past.records();
    }
}

/// Whether this number of workers may make a session.
fn is_crew(workers: usize) -> bool
    ensures { IsTrue result ↔ IsCrew workers }
{
    1 <= workers && workers <= 64
}

/// Does all jobs at a table that was just opened, by the workers who work at it, and closes it.
fn drive_table<
    J: Naming + Send + Sync,
    R: Runner + Drop + Send + Sync,
    F: Fn() -> R,
    W: Jobs + Sync,
    G: Gate + Sync,
    T: Threads + Wait + Sync,
>(
    rt: &T,
    alloc: Global,
    make: &F,
    opening: Opening<R>,
    work: &Work<'_, W, G>,
    workers: usize,
) -> Result<(Session, Reports), AllocError>
    requires makes { F.IsAlwaysCallable make.now }
    requires opened { IsOpenedFor J.name J.parts J.book J.opened opening }
    requires workers { opening.blank.parts ≡ workers }
    requires crew { IsCrew workers }
    ensures { IfOk result (λ done. IsSessionOf R.queries J.opened.terms J.opened.past
        J.opened.project workers done.0 done.1) }
{
    let (counted, mut all, list) = opening.named::<J>();
    let mut team = make_workers::<J, R, F>(alloc, &mut all, workers, make)?;
    let counted = work_at(rt, counted, list, work, &mut team)?;
    end(alloc, all, team, counted)
}

/// Closes the table when all workers have ended, and counts what each of them did.
pub(crate) fn end<J: Naming, R: Runner + Drop>(
    alloc: Global,
    all: Share<J>,
    team: Vec<Member<J, R>>,
    counted: Counted<J, R>,
) -> Result<(Session, Reports), AllocError>
    requires parts { all.parts + vec_len team ≡ J.parts }
    requires none { all.amount ≡ 0 }
    ensures { IfOk result (λ done. IsSessionOf R.queries J.opened.terms J.opened.past
        J.opened.project (vec_len team) done.0 done.1) }
{
    let mut all = all;
    let events = join_counts(alloc, &mut all, team)?;
    let table = counted.end(&mut all);
    session_of(&table, events)
}

/// The session that a table closes with, and what is reported of its history.
fn session_of<R: Runner>(
    table: &Table<R>,
    events: Vec<usize>,
) -> Result<(Session, Reports), AllocError>
    requires counted { sum events.items ≡ length table.now.history }
    ensures { IfOk result (λ done. IsSessionOf R.queries table.now.terms table.now.past
        table.now.project (vec_len events) done.0 done.1) }
{
    // A table's history is legal, by its type.
    table.laws();
    let history = table.history().len();
    Ok((close(table)?, Reports { events, history }))
}

/// The session of a table, when all workers have ended. It isn't closed if one of them failed: that one ran out of
/// memory.
fn close<R: Runner>(table: &Table<R>) -> Result<Session, AllocError>
    ensures may_close { IfOk result (λ _. MayClose (state_of table.now)) }
    ensures closing { IfOk result
        (IsClosing table.now.terms table.now.past table.now.project (state_of table.now)) }
{
    match table.close() {
        Ok(session) => Ok(session),
        Err(CloseFault::OutOfMemory)
        | Err(CloseFault::Failed | CloseFault::StillRunning | CloseFault::NoAnswer) => {
            Err(AllocError)
        }
    }
}
