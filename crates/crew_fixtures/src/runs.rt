//! Runs that are counted, and one that fails.
ghost use Rattle.std.specs.Prelude.{◌≡◌, ◌∷◌, [], None, IfOk};
ghost use Rattle.std.specs.Arc.{arc_value};
ghost use Rattle.query_rules.specs.Queries.{queries};
ghost use Rattle.sessions.specs.Terms.{first_terms};
ghost use Rattle.sessions.specs.Sessions.{SessionValue, session_in};
ghost use Rattle.mini_java.specs.Sessions.{DriveGives};
ghost use Rattle.crew_fixtures.specs.Made.{HasExecuted, HaveExecuted, IsDigestOf, IsFirstFault, source_file, source_files};

use crate::files::{File, project_of};
use crate::hooks::{Counting, Hooked};
use crate::making::share;
use answer_fixtures::Unfit;
use mini_java::{ClassJobs, Crew, DriveFault, Open, Reports, drive};
use named_files::Project;
use session_file::digest;
use sessions::{Mark, Session};
use std::alloc::Global;
use std::sync::atomic::{AtomicU64, Ordering};
use std::sync::{Arc, Wait};
use std::thread::Threads;

/// How often keys were run in a session by one worker, and how many of its records are executed.
#[derive(Clone, Copy, Debug, PartialEq, Eq)]
pub struct Runs {
    pub runs: u64,
    pub executed: usize,
}

/// How many workers make a session, and the step by which they go through each list of jobs, which leaves none out if
/// it is 1.
#[derive(Clone, Copy)]
pub struct Steps {
    pub workers: usize,
    pub step: usize,
}

impl Steps {
    /// This many workers, none of whom leaves out a job.
    pub fn of(workers: usize) -> Self
        ensures { result.workers ≡ workers }
    {
        Steps { workers, step: 1 }
    }
}

/// Makes a session of a project over the previous one by these workers, and counts its runs. If the number of a run, from
/// 0, is given, this run is out of memory.
fn drive_counted<T: Threads + Wait + Sync>(
    rt: &T,
    alloc: Global,
    runs: &AtomicU64,
    failing: Option<u64>,
    past: Option<Arc<Session>>,
    project: &Project,
    steps: Steps,
) -> Result<(Session, Reports), DriveFault>
    ensures gives { DriveGives queries first_terms (session_in past) project.now steps.workers
        result }
{
    drive(
        rt,
        alloc,
        &|| Hooked::new(alloc, Counting { runs, failing }),
        past,
        project,
        Crew {
            workers: steps.workers,
            jobs: &ClassJobs::new(steps.step),
        },
        &Open,
    )
}

/// The session of a project over the previous one by one worker, and its runs.
fn counted_over<T: Threads + Wait + Sync>(
    rt: &T,
    alloc: Global,
    past: Option<Arc<Session>>,
    project: &Project,
) -> Result<(Session, Runs), Unfit>
    ensures { IfOk result (λ both. HasExecuted (session_in past) project.now both.0 both.1) }
{
    let runs = AtomicU64::new(0);
    match drive_counted(rt, alloc, &runs, None, past, project, Steps::of(1)) {
        Ok((session, _)) => {
            let executed = session.count(Mark::Executed);
            Ok((
                session,
                Runs {
                    runs: runs.load(Ordering::SeqCst),
                    executed,
                },
            ))
        }
        Err(_) => Err(Unfit),
    }
}

/// The runs of a first session of these files by one worker, and of a session of the others over it.
pub fn runs_of<T: Threads + Wait + Sync>(
    rt: &T,
    alloc: Global,
    files: &[File],
    edited: &[File],
) -> Result<(Runs, Runs), Unfit>
    ensures { IfOk result (λ both.
        HaveExecuted (source_files files.now) (source_files edited.now) both.0 both.1) }
{
    let (past, first) = counted_of(rt, alloc, None, files)?;
    let past = share(alloc, past)?;
    let (_session, second) = counted_of(rt, alloc, Some(past), edited)?;
    Ok((first, second))
}

/// The session of these files over the previous one by one worker, and its runs.
fn counted_of<T: Threads + Wait + Sync>(
    rt: &T,
    alloc: Global,
    past: Option<Arc<Session>>,
    files: &[File],
) -> Result<(Session, Runs), Unfit>
    ensures { IfOk result (λ both.
        HasExecuted (session_in past) (source_files files.now) both.0 both.1) }
{
    let project = project_of(alloc, files)?;
    counted_over(rt, alloc, past, &project)
}

/// The runs of a first session of a project by one worker.
pub fn runs_in<T: Threads + Wait + Sync>(
    rt: &T,
    alloc: Global,
    project: &Project,
) -> Result<Runs, Unfit>
    ensures { IfOk result (λ runs. (s : SessionValue) × HasExecuted None project.now s runs) }
{
    let (_session, runs) = counted_over(rt, alloc, None, project)?;
    Ok(runs)
}

/// Why there is no session of this file by so many workers if the run of this number, from 0, is out of memory, or
/// `None` if there is one.
pub fn fault_of_failing<T: Threads + Wait + Sync>(
    rt: &T,
    alloc: Global,
    file: File,
    workers: usize,
    failing: u64,
) -> Result<Option<DriveFault>, Unfit>
    ensures { IfOk result (IsFirstFault (source_file file ∷ []) workers) }
{
    let project = project_of(alloc, &[file])?;
    let runs = AtomicU64::new(0);
    match drive_counted(
        rt,
        alloc,
        &runs,
        Some(failing),
        None,
        &project,
        Steps::of(workers),
    ) {
        Ok(_) => Ok(None),
        Err(fault) => Ok(Some(fault)),
    }
}

/// The SHA-256 of the file of a first session of this file by these workers.
pub fn digest_by<T: Threads + Wait + Sync>(
    rt: &T,
    alloc: Global,
    file: File,
    steps: Steps,
) -> Result<[u8; 32], Unfit>
    ensures { IfOk result (IsDigestOf (source_file file ∷ []) steps.workers) }
{
    let project = project_of(alloc, &[file])?;
    let runs = AtomicU64::new(0);
    match drive_counted(rt, alloc, &runs, None, None, &project, steps) {
        Ok((session, _)) => Ok(digest(&session)),
        Err(_) => Err(Unfit),
    }
}
