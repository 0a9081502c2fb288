//! Sessions by several workers, one of whom is refused memory.
ghost use Rattle.std.specs.Prelude.{◌≡◌, IfOk, IfSome, IsTrue};
ghost use Rattle.sessions.specs.Sessions.{session_in};
ghost use Rattle.crew_fixtures.specs.Made.{IsDigestOver};
ghost use Rattle.crew_fixtures.specs.Workers.{IsFaultOfSome, IsMadeAs};

use crate::files::project_with;
use crate::hooks::{Hook, Hooked};
use answer_fixtures::{Unfit, project_of};
use item_ids::Key;
use mini_java::{ClassJobs, Crew, DriveFault, Open, drive, run_session_as};
use named_files::Project;
use session_file::digest;
use session_fixtures::twice;
use sessions::{Session, Terms};
use std::alloc::{AllocError, Global};
use std::sync::atomic::{AtomicU64, Ordering};
use std::sync::{Arc, Wait};
use std::thread;
use std::thread::Threads;
use table_fixtures::{Change, digest_of_change, past_of};

/// The workers of a session: for how many a runner was made, which of them fails, and whether it has begun to.
#[derive(Drop)]
struct Team {
    made: AtomicU64,
    failing: u64,
    begun: AtomicU64,
}

/// For so many turns a run waits for the worker that fails.
const TURNS: u64 = 100_000_000;

/// The first run of the worker that fails is out of memory. Each other one waits with its runs for that, so that the failing
/// worker finds one to do.
#[derive(Drop)]
struct OneFails<'a> {
    team: &'a Team,
    number: u64,
}

impl<'a> OneFails<'a> {
    fn new(team: &'a Team) -> Self {
        OneFails {
            team,
            number: team.made.fetch_add(1, Ordering::SeqCst),
        }
    }

    fn wait(&self) {
        for _ in 0..TURNS {
            if self.team.begun.load(Ordering::SeqCst) != 0 {
                return;
            }
            thread::yield_now();
        }
    }
}

impl Hook for OneFails<'_> {
    fn begin(&self, _key: &Key) -> bool {
        if self.number == self.team.failing {
            self.team.begun.store(1, Ordering::SeqCst);
            return false;
        }
        self.wait();
        true
    }

    fn end(&self, _key: &Key) {}
}

/// So many files of one class each.
fn files_of(alloc: Global, count: usize) -> Result<Vec<(String, Vec<u8>)>, AllocError> {
    let mut files = Vec::new(alloc);
    for at in 0..count {
        let name = format!(in alloc; "C{at}.java")?;
        let text = format!(in alloc; "class C{at} {{ }}")?;
        files.push((name, text.into_bytes()))?;
    }
    Ok(files)
}

/// The project of so many files of one class each.
pub(crate) fn project_of_many(alloc: Global, count: usize) -> Result<Project, Unfit> {
    let files = files_of(alloc, count)?;
    project_with(alloc, files)
}

/// Why there is no session of as many files as there are workers, if the worker of this number, from 0, is refused memory
/// at its first run, or `None` if there is one.
pub fn fault_of_worker<T: Threads + Wait + Sync>(
    rt: &T,
    alloc: Global,
    workers: usize,
    failing: u64,
) -> Result<Option<DriveFault>, Unfit>
    ensures { IfOk result (IsFaultOfSome workers) }
{
    let project = twice(&|| project_of_many(alloc, workers))?;
    let team = Team {
        made: AtomicU64::new(0),
        failing,
        begun: AtomicU64::new(0),
    };
    match drive(
        rt,
        alloc,
        &|| Hooked::new(alloc, OneFails::new(&team)),
        None,
        &project,
        Crew {
            workers,
            jobs: &ClassJobs::new(1),
        },
        &Open,
    ) {
        Ok(_) => Ok(None),
        Err(fault) => Ok(Some(fault)),
    }
}

/// One more owner of the previous session.
fn own(past: &Option<Arc<Session>>) -> Option<Option<Arc<Session>>>
    ensures { IfSome result (λ own. session_in own ≡ session_in past.now) }
{
    match past {
        Some(past) => match Arc::try_clone(past) {
            Ok(past) => Some(Some(past)),
            Err(_) => None,
        },
        None => Some(None),
    }
}

/// The SHA-256 of the file of a session of these terms over the previous one by so many workers.
fn run<T: Threads + Wait + Sync>(
    rt: &T,
    alloc: Global,
    terms: Terms,
    past: &Option<Arc<Session>>,
    project: &Project,
    workers: usize,
) -> Result<[u8; 32], DriveFault>
    ensures { IfOk result (IsDigestOver terms (session_in past.now) project.now workers) }
{
    let Some(past) = own(past) else {
        return Err(DriveFault::OutOfMemory);
    };
    match run_session_as(rt, alloc, past, project, terms, workers, &Open) {
        Ok((session, _)) => Ok(digest(&session)),
        Err(fault) => Err(fault),
    }
}

/// Whether a session over the last one of the chain by so many workers is the one with these changes, and once more if
/// memory was refused.
pub fn run_again<T: Threads + Wait + Sync>(
    rt: &T,
    alloc: Global,
    text: &str,
    chain: &[Change],
    change: &Change,
    workers: usize,
) -> Result<bool, Unfit>
    ensures { IfOk result (λ b. IsTrue b → IsMadeAs text.now chain.now change.now workers) }
{
    let project = twice(&|| project_of(alloc, text))?;
    let past = twice(&|| past_of(alloc, chain))?;
    let wanted = twice(&|| digest_of_change(alloc, &past, change))?;
    let made = match run(rt, alloc, change.terms, &past, &project, workers) {
        Err(DriveFault::OutOfMemory) => run(rt, alloc, change.terms, &past, &project, workers),
        made => made,
    };
    Ok(made == Ok(wanted))
}
