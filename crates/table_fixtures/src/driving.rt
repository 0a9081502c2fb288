//! Sessions that are run, and what is reported of them.
ghost use Rattle.std.specs.Prelude.{◌≡◌, [], replicate, None, Some, IsTrue, IfOk, IfSome};
ghost use Rattle.std.specs.Arc.{arc_value};
ghost use Rattle.answer_fixtures.specs.Telling.{one_file};
ghost use Rattle.session_fixtures.specs.Telling.{IsToldSession};
ghost use Rattle.sessions.specs.Sessions.{session_in};
ghost use Rattle.table_fixtures.specs.Reported.{HasCounts, IsReported, AreReported, IsPastOf, IsFaultOver, IsNextFault};

use crate::changes::share;
use answer_fixtures::{Unfit, project_of};
use mini_java::{DriveFault, Open, Reports, run_session, run_session_as};
use named_files::Project;
use session_fixtures::session_of;
use sessions::{Session, Terms};
use std::alloc::Global;
use std::sync::{Arc, Wait};
use std::thread::Threads;

/// What is reported of a session of these terms by so many workers: how many events each made, by its number, and how many
/// there are.
#[derive(Clone, Copy)]
pub struct Counts {
    pub terms: Terms,
    pub workers: usize,
    pub events: &'static [usize],
    pub history: usize,
}

/// A session that isn't made: by so many workers, over an empty one of this number, or over none.
#[derive(Clone, Copy)]
pub struct Unmade {
    pub past: Option<u32>,
    pub workers: usize,
}

/// Whether the reports have these counts.
fn tells(reports: &Reports, counts: &Counts) -> bool
    ensures { IsTrue result → HasCounts counts.now reports.now }
{
    reports.history == counts.history && reports.events.as_slice() == counts.events
}

/// The session over this previous session, if its reports have these counts.
fn session_over<T: Threads + Wait + Sync>(
    rt: &T,
    alloc: Global,
    past: Option<Arc<Session>>,
    project: &Project,
    counts: &Counts,
) -> Result<Option<Arc<Session>>, Unfit>
    ensures { IfOk result (λ made. IfSome made (λ s.
        IsReported (session_in past) project.now counts.now (arc_value s))) }
{
    match run_session_as(
        rt,
        alloc,
        past,
        project,
        counts.terms,
        counts.workers,
        &Open,
    ) {
        Ok((session, reports)) => session_if(alloc, session, tells(&reports, counts)),
        Err(_) => Err(Unfit),
    }
}

/// The session, to be shared, if this holds.
fn session_if(alloc: Global, session: Session, holds: bool) -> Result<Option<Arc<Session>>, Unfit>
    ensures same { IfOk result (λ made. IfSome made (λ s. arc_value s ≡ session)) }
    ensures holds { IfOk result (λ made. IfSome made (λ _. IsTrue holds)) }
{
    if holds {
        Ok(Some(share(alloc, session)?))
    } else {
        Ok(None)
    }
}

/// Whether the reports of a first session of the project, and of one over it, have these counts.
fn are_reported_of<T: Threads + Wait + Sync>(
    rt: &T,
    alloc: Global,
    project: &Project,
    first: &Counts,
    again: &Counts,
) -> Result<bool, Unfit>
    ensures { IfOk result (λ b. IsTrue b → AreReported project.now first.now again.now) }
{
    let Some(past) = session_over(rt, alloc, None, project, first)? else {
        return Ok(false);
    };
    match session_over(rt, alloc, Some(past), project, again)? {
        Some(_) => Ok(true),
        None => Ok(false),
    }
}

/// Whether the reports of a first session of a project of this text, and of one over it, have these counts.
pub fn are_reported<T: Threads + Wait + Sync>(
    rt: &T,
    alloc: Global,
    text: &str,
    first: &Counts,
    again: &Counts,
) -> Result<bool, Unfit>
    ensures { IfOk result (λ b. IsTrue b
        → AreReported (one_file text.now) first.now again.now) }
{
    let project = project_of(alloc, text)?;
    are_reported_of(rt, alloc, &project, first, again)
}

/// The session of this number without records.
fn empty_session(alloc: Global, number: u32) -> Result<Arc<Session>, Unfit>
    ensures { IfOk result (λ s. IsToldSession number (replicate 32 0) [] (arc_value s)) }
{
    let session = session_of(alloc, number, [0; 32], &[])?;
    Ok(share(alloc, session)?)
}

/// The session of this number without records, if there is a number.
fn past_numbered(alloc: Global, number: Option<u32>) -> Result<Option<Arc<Session>>, Unfit>
    ensures { IfOk result (λ past. IsPastOf number (session_in past)) }
{
    match number {
        Some(number) => Ok(Some(empty_session(alloc, number)?)),
        None => Ok(None),
    }
}

/// Why there is no such session of the project, or `None` if there is one.
fn fault_over<T: Threads + Wait + Sync>(
    rt: &T,
    alloc: Global,
    project: &Project,
    unmade: &Unmade,
) -> Result<Option<DriveFault>, Unfit>
    ensures { IfOk result (IsNextFault unmade.now.past project.now unmade.now.workers) }
{
    let past = past_numbered(alloc, unmade.past)?;
    Ok(fault_behind(rt, alloc, past, project, unmade.workers))
}

/// Why there is no session over this previous session, or `None` if there is one.
fn fault_behind<T: Threads + Wait + Sync>(
    rt: &T,
    alloc: Global,
    past: Option<Arc<Session>>,
    project: &Project,
    workers: usize,
) -> Option<DriveFault>
    ensures { IsFaultOver (session_in past) project.now workers result }
{
    match run_session(rt, alloc, past, project, workers, &Open) {
        Ok(_) => None,
        Err(fault) => Some(fault),
    }
}

/// Why there is no such session of a project of this text, or `None` if there is one.
pub fn drive_fault<T: Threads + Wait + Sync>(
    rt: &T,
    alloc: Global,
    text: &str,
    unmade: &Unmade,
) -> Result<Option<DriveFault>, Unfit>
    ensures { IfOk result (IsNextFault unmade.now.past (one_file text.now) unmade.now.workers) }
{
    let project = project_of(alloc, text)?;
    fault_over(rt, alloc, &project, unmade)
}
