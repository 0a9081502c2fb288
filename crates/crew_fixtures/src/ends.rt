//! How often a gate is called around the runs of a session.
ghost use Rattle.std.specs.Prelude.{IfOk, IsTrue};
ghost use Rattle.answer_fixtures.specs.Telling.{one_file};
ghost use Rattle.crew_fixtures.specs.Workers.{IsMadeOrLacksMemory};

use answer_fixtures::{Unfit, project_of};
use item_ids::Key;
use mini_java::{DriveFault, Gate, run_session};
use named_files::Project;
use session_fixtures::twice;
use std::alloc::{AllocError, Global};
use std::sync::Wait;
use std::sync::atomic::{AtomicU64, Ordering};
use std::thread::Threads;

/// Counts the runs that begin and those that end, for the keys of each kind.
#[derive(Drop)]
struct Ends {
    begun: Vec<AtomicU64>,
    ended: Vec<AtomicU64>,
}

/// How many kinds of keys there are.
const KINDS: usize = 13;

fn zeros(alloc: Global) -> Result<Vec<AtomicU64>, AllocError> {
    let mut counts = Vec::new(alloc);
    for _ in 0..KINDS {
        counts.push(AtomicU64::new(0))?;
    }
    Ok(counts)
}

/// Counts a run of the key.
fn count(counts: &[AtomicU64], key: &Key) {
    if let Some(count) = counts.get(key.kind().number() as usize) {
        count.fetch_add(1, Ordering::SeqCst);
    }
}

/// How many runs are counted of the kind of this number.
fn count_at(counts: &[AtomicU64], kind: usize) -> u64 {
    match counts.get(kind) {
        Some(count) => count.load(Ordering::SeqCst),
        None => 0,
    }
}

impl Ends {
    fn new(alloc: Global) -> Result<Self, Unfit> {
        Ok(Ends {
            begun: zeros(alloc)?,
            ended: zeros(alloc)?,
        })
    }

    /// Whether of each kind at most one run has begun, and none has ended that hasn't begun.
    fn are_called_once(&self) -> bool {
        (0..KINDS).all(|kind| {
            let begun = count_at(&self.begun, kind);
            begun <= 1 && count_at(&self.ended, kind) <= begun
        })
    }

    /// Whether the kinds of which one run has ended are so many.
    fn have_ended(&self, kinds: usize) -> bool {
        (0..KINDS)
            .filter(|kind| count_at(&self.ended, *kind) == 1)
            .count()
            == kinds
    }
}

impl Gate for Ends {
    fn before_run(&self, _worker: u32, key: &Key) {
        count(&self.begun, key)
    }

    fn after_run(&self, _worker: u32, key: &Key) {
        count(&self.ended, key)
    }
}

/// Whether the gate is called once at the beginning of each run and once at its end: for so many runs, or for those before
/// memory was refused.
fn are_called<T: Threads + Wait + Sync>(
    rt: &T,
    alloc: Global,
    project: &Project,
    gate: &Ends,
    workers: usize,
    runs: usize,
) -> bool
    ensures { IsTrue result → IsMadeOrLacksMemory project.now workers }
{
    match run_session(rt, alloc, None, project, workers, gate) {
        Ok(_) => gate.are_called_once() && gate.have_ended(runs),
        Err(DriveFault::OutOfMemory) => gate.are_called_once(),
        Err(_) => false,
    }
}

/// Whether the gate of a first session of this text by so many workers is called once at the beginning of each run and once
/// at its end, also if memory is refused. There are so many runs, each of a kind of its own.
pub fn gates_are_called_once<T: Threads + Wait + Sync>(
    rt: &T,
    alloc: Global,
    text: &str,
    workers: usize,
    runs: usize,
) -> Result<bool, Unfit>
    ensures { IfOk result (λ once. IsTrue once → IsMadeOrLacksMemory (one_file text.now) workers) }
{
    let project = twice(&|| project_of(alloc, text))?;
    let gate = twice(&|| Ends::new(alloc))?;
    Ok(are_called(rt, alloc, &project, &gate, workers, runs))
}
