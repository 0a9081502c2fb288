//! The workers of a session, each in a thread of its own.
ghost use Rattle.std.specs.Prelude.{◌≡◌, ◌+◌, ◌<◌, ◌≤◌, IfOk, sum, vec_len};

use crate::jobs::{Jobs, do_jobs};
use known_list::Opened;
use named_files::Project;
use recorder::{Read, Runner};
use shared_table::{Alone, Counted, Gate, Naming, Shared, Tally};
use std::alloc::{AllocError, Global};
use std::sync::Wait;
use std::sync::ledger::Share;
use std::thread;
use std::thread::Threads;

/// The workers that make a session, and what they evaluate ahead of its answer.
#[derive(Drop)]
pub struct Crew<'a, W> {
    /// How many workers there are, each in a thread of its own.
    pub workers: usize,
    /// The jobs, of which none is taken yet.
    pub jobs: &'a W,
}

/// What workers work on: the project, its jobs, and the gate that is called around each run.
#[derive(Drop)]
pub(crate) struct Work<'a, W, G> {
    pub project: &'a Project,
    pub jobs: &'a W,
    pub gate: &'a G,
}

/// A worker of a crew: its number, its allocator, its runner, and its count of events.
#[derive(Drop)]
pub(crate) struct Member<J: Naming, R: Runner> {
    number: u32,
    alloc: Global,
    runner: R,
    tally: Tally<J>,
}

/// So many workers, each with a runner of its own and a part of the ledger. The last one stands first.
pub(crate) fn make_workers<J: Naming, R: Runner + Drop, F: Fn() -> R>(
    alloc: Global,
    all: &mut Share<J>,
    workers: usize,
    make: &F,
) -> Result<Vec<Member<J, R>>, AllocError>
    requires makes { F.IsAlwaysCallable make.now }
    requires few { workers ≤ 64 }
    requires parts { workers ≤ all.old.parts }
    requires none { all.old.amount ≡ 0 }
    ensures team { IfOk result (λ team. vec_len team ≡ workers) }
    ensures parts { IfOk result (λ _. all.new.parts + workers ≡ all.old.parts) }
    ensures none { IfOk result (λ _. all.new.amount ≡ 0) }
{
    let mut team = Vec::new(alloc);
    let mut left = workers;
    while 0 < left {
        left -= 1;
        let tally = Tally::new(all.split_off(1, 0));
        team.push(Member {
            number: left as u32,
            alloc,
            runner: make(),
            tally,
        })?;
    }
    Ok(team)
}

/// All workers do their jobs at a table, each in a thread of its own. One worker is alone at it, and does its jobs in this
/// thread.
pub(crate) fn work_at<
    J: Naming + Send + Sync,
    R: Runner + Drop + Send + Sync,
    W: Jobs + Sync,
    G: Gate + Sync,
    T: Threads + Wait + Sync,
>(
    rt: &T,
    counted: Counted<J, R>,
    list: Opened<Read>,
    work: &Work<'_, W, G>,
    team: &mut Vec<Member<J, R>>,
) -> Result<Counted<J, R>, AllocError>
    requires team { 0 < vec_len team.old }
    requires list { list.seen.book ≡ J.book }
    ensures { vec_len team.new ≡ vec_len team.old }
{
    if team.len() == 1 {
        return Ok(work_alone(counted, work, &mut team[0]));
    }
    let shared = Shared::new(counted, list)?;
    work_all(rt, &shared, work, team);
    Ok(shared.into_counted())
}

/// A worker does all jobs at a table of its own.
pub(crate) fn work_alone<J: Naming, R: Runner, W: Jobs, G: Gate>(
    counted: Counted<J, R>,
    work: &Work<'_, W, G>,
    worker: &mut Member<J, R>,
) -> Counted<J, R> {
    let mut counted = counted;
    let Member {
        number,
        alloc,
        runner,
        tally,
    } = worker;
    let mut seat = Alone::new(&mut counted, tally, work.gate);
    do_jobs(*alloc, &mut seat, runner, work.project, work.jobs, *number);
    counted
}

/// All workers do their jobs, each in a thread of its own.
fn work_all<
    J: Naming + Send + Sync,
    R: Runner + Drop + Send + Sync,
    W: Jobs + Sync,
    G: Gate + Sync,
    T: Threads + Wait + Sync,
>(rt: &T, shared: &Shared<J, R>, work: &Work<'_, W, G>, team: &mut Vec<Member<J, R>>)
    requires { 0 < vec_len team.old }
    ensures { vec_len team.new ≡ vec_len team.old }
{
    let workers = team.len();
    let (project, jobs, gate) = (work.project, work.jobs, work.gate);
    thread::for_each_mut(
        rt,
        team.as_mut_slice(),
        workers,
        &|_, worker| {
            let part = Work {
                project,
                jobs,
                gate,
            };
            work_at_seat(rt, shared, &part, worker)
        },
    );
}

/// A worker does its jobs at its seat.
fn work_at_seat<J: Naming, R: Runner, W: Jobs, G: Gate, T: Wait>(
    rt: &T,
    shared: &Shared<J, R>,
    work: &Work<'_, W, G>,
    worker: &mut Member<J, R>,
) {
    let Member {
        number,
        alloc,
        runner,
        tally,
    } = worker;
    let mut seat = shared.seat(*alloc, rt, work.gate, tally);
    do_jobs(*alloc, &mut seat, runner, work.project, work.jobs, *number);
}

/// How many events each worker made, by its number. Their shares are joined again.
pub(crate) fn join_counts<J: Naming, R: Runner + Drop>(
    alloc: Global,
    all: &mut Share<J>,
    team: Vec<Member<J, R>>,
) -> Result<Vec<usize>, AllocError>
    requires none { all.old.amount ≡ 0 }
    ensures events { IfOk result (λ events. vec_len events ≡ vec_len team) }
    ensures sum { IfOk result (λ events. sum events.items ≡ all.new.amount) }
    ensures parts { IfOk result (λ _. all.new.parts ≡ all.old.parts + vec_len team) }
{
    let mut left = team;
    let mut events = Vec::new(alloc);
    while let Some(worker) = left.pop() {
        let Member {
            number: _,
            alloc: _,
            runner: _,
            tally,
        } = worker;
        let (made, share) = tally.into_parts();
        events.push(made)?;
        all.merge(share);
    }
    Ok(events)
}
