//! The session that comes next.
ghost use Rattle.std.specs.Prelude.{◌≡◌, ◌<◌, IfOk, IfErr, IfSome};
ghost use Rattle.session_cache.specs.Names.{most};
ghost use Rattle.sessions.specs.Sessions.{IsSession, session_in};
ghost use Rattle.mini_java.specs.Sessions.{IsCrew};
ghost use Rattle.query_rules.specs.Queries.{queries};
ghost use Rattle.graph_rules.specs.NextSessions.{StandsApart};
ghost use Rattle.commands.specs.Checks.{IsMadeOver, IsNextByRules, made_in};

use mini_java::{DriveFault, Open, Reports, changed_files, run_session_alone, run_session_as};
use mj_rules::answer_laws;
use named_files::Project;
use sessions::{Session, Terms};
use std::alloc::{AllocError, Global};
use std::sync::{Arc, Wait};
use std::thread::Threads;

/// The session of a project, of these terms, that follows the previous one, made by so many workers at most, each in a thread
/// of its own, and by no more of them than files have changed. If the previous session is one of some project, or there
/// is none, and no two different results, one of it and one of this session, share a fingerprint, it is the session that any
/// workers make, and its answer is what the static rules of its profile give the project's files. There is none only if
/// memory runs out.
pub fn next_session<T: Threads + Wait + Sync>(
    rt: &T,
    alloc: Global,
    past: Option<Arc<Session>>,
    project: &Project,
    terms: Terms,
    workers: usize,
) -> Result<Session, DriveFault>
    requires crew { IsCrew workers }
    requires room { IfSome (session_in past) (λ s. s.number < most) }
    ensures made { IfOk result (IsMadeOver terms (session_in past) project.now) }
    ensures next { IfOk result (λ s. StandsApart queries (session_in past) s
        → IsNextByRules terms (session_in past) project.now s) }
    ensures memory { IfErr result (λ fault. fault ≡ DriveFault.OutOfMemory) }
{
    let Ok(workers) = workers_for(alloc, &past, project, terms, workers) else {
        return Err(DriveFault::OutOfMemory);
    };
    // The answer that the queries mean is that of the rules.
    answer_laws();
    session_of(run_session_as(rt, alloc, past, project, terms, workers, &Open))
}

/// The same session, made by one worker. It starts no thread, and waits for none.
pub fn next_session_alone(
    alloc: Global,
    past: Option<Arc<Session>>,
    project: &Project,
    terms: Terms,
) -> Result<Session, DriveFault>
    requires room { IfSome (session_in past) (λ s. s.number < most) }
    ensures made { IfOk result (IsMadeOver terms (session_in past) project.now) }
    ensures next { IfOk result (λ s. StandsApart queries (session_in past) s
        → IsNextByRules terms (session_in past) project.now s) }
    ensures memory { IfErr result (λ fault. fault ≡ DriveFault.OutOfMemory) }
{
    // The answer that the queries mean is that of the rules.
    answer_laws();
    session_of(run_session_alone(alloc, past, project, terms, &Open))
}

// The session of a run, or why there is none.
fn session_of(run: Result<(Session, Reports), DriveFault>) -> Result<Session, DriveFault>
    ensures same { result ≡ made_in run }
    ensures session { IfOk result IsSession }
{
    match run {
        Ok((session, _)) => {
            // A session keeps in its type what its records are.
            let _records = session.records();
            Ok(session)
        }
        Err(fault) => Err(fault),
    }
}

/// How many of so many workers there is work for: as many as files have changed, and at least one. What several workers
/// share costs more than one worker alone takes for a file.
fn workers_for(
    alloc: Global,
    past: &Option<Arc<Session>>,
    project: &Project,
    terms: Terms,
    workers: usize,
) -> Result<usize, AllocError>
    requires { IsCrew workers }
    ensures { IfOk result IsCrew }
{
    let past = match past {
        Some(past) => Some(&**past),
        None => None,
    };
    let changed = changed_files(alloc, past, terms.profile, project)?;
    Ok(changed.max(1).min(workers))
}
