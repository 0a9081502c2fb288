//! One session of a MiniJava project.
ghost use Rattle.std.specs.Prelude.{◌≡◌, IfOk};
ghost use Rattle.query_rules.specs.Queries.{queries};
ghost use Rattle.sessions.specs.Terms.{first_terms};
ghost use Rattle.sessions.specs.Sessions.{SessionValue, session_in};
ghost use Rattle.graph_rules.specs.NextSessions.{StandsApart, IsNextSession};
ghost use Rattle.driver.specs.Sessions.{DriveGives};

use crate::lists::ClassJobs;
use driver::{Basis, Crew, DriveFault, Gate, Reports, drive_alone, drive_as};
use named_files::Project;
use providers::MiniJava;
use sessions::{Session, Terms};
use std::alloc::Global;
use std::sync::{Arc, Wait};
use std::thread::Threads;

/// Makes one session of a MiniJava project, of the first terms, as `run_session_as` does.
pub fn run_session<G: Gate + Sync, T: Threads + Wait + Sync>(
    rt: &T,
    alloc: Global,
    prev: Option<Arc<Session>>,
    project: &Project,
    workers: usize,
    gate: &G,
) -> Result<(Session, Reports), DriveFault>
    ensures gives { DriveGives queries first_terms (session_in prev) project.now workers result }
    ensures next { IfOk result (λ done. StandsApart queries (session_in prev) done.0
        → IsNextSession queries first_terms (session_in prev) project.now done.0) }
    // The next session, if it stands apart from the previous one, is this one.
    ensures only { IfOk result (λ done. (next : SessionValue)
        → IsNextSession queries first_terms (session_in prev) project.now next → StandsApart queries (session_in prev) next
        → done.0 ≡ next) }
{
    run_session_as(rt, alloc, prev, project, Terms::first(), workers, gate)
}

/// Makes one session of a MiniJava project, of these terms, over the previous session, by so many workers, each in a
/// thread of its own. The gate is called around each run.
pub fn run_session_as<G: Gate + Sync, T: Threads + Wait + Sync>(
    rt: &T,
    alloc: Global,
    prev: Option<Arc<Session>>,
    project: &Project,
    terms: Terms,
    workers: usize,
    gate: &G,
) -> Result<(Session, Reports), DriveFault>
    ensures gives { DriveGives queries terms (session_in prev) project.now workers result }
    // A session that stands apart from the previous one is the next session.
    ensures next { IfOk result (λ done. StandsApart queries (session_in prev) done.0
        → IsNextSession queries terms (session_in prev) project.now done.0) }
    // The next session, if it stands apart from the previous one, is this one.
    ensures only { IfOk result (λ done. (next : SessionValue)
        → IsNextSession queries terms (session_in prev) project.now next → StandsApart queries (session_in prev) next
        → done.0 ≡ next) }
{
    drive_as(
        rt,
        alloc,
        &|| MiniJava::new(alloc),
        Basis { terms, past: prev },
        project,
        Crew {
            workers,
            jobs: &ClassJobs::new(1),
        },
        gate,
    )
}

/// Makes one session of a MiniJava project, as `run_session_as` does by one worker. It starts no thread, and waits for none.
pub fn run_session_alone<G: Gate>(
    alloc: Global,
    prev: Option<Arc<Session>>,
    project: &Project,
    terms: Terms,
    gate: &G,
) -> Result<(Session, Reports), DriveFault>
    ensures gives { DriveGives queries terms (session_in prev) project.now 1 result }
    // A session that stands apart from the previous one is the next session.
    ensures next { IfOk result (λ done. StandsApart queries (session_in prev) done.0
        → IsNextSession queries terms (session_in prev) project.now done.0) }
    // The next session, if it stands apart from the previous one, is this one.
    ensures only { IfOk result (λ done. (next : SessionValue)
        → IsNextSession queries terms (session_in prev) project.now next → StandsApart queries (session_in prev) next
        → done.0 ≡ next) }
{
    let basis = Basis { terms, past: prev };
    drive_alone(
        alloc,
        &|| MiniJava::new(alloc),
        basis,
        project,
        &ClassJobs::new(1),
        gate,
    )
}
