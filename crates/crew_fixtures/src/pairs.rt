//! Two workers at one table, each in a thread of its own, without gate and driver.
ghost use Rattle.std.specs.Prelude.{◌≡◌};
ghost use Rattle.shared_table.specs.Opened.{IsOpenedFor};

use crate::files::{File, project_of};
use crate::hooks::{Hooked, Meeting, Waiting};
use answer_fixtures::{KeyParts, Unfit, key_of};
use item_ids::{Key, Kind};
use job_table::Table;
use mark_green::ensure;
use mini_java::{Open, Shared};
use recorder::Runner;
use shared_table::{Naming, Opening, Tally};
use std::alloc::{AllocError, Global};
use std::marker::Brand;
use std::sync::Wait;
use std::thread;
use std::thread::Threads;

/// One of two workers: its number, its allocator, its runner, its count of events, the file whose tree it evaluates,
/// and whether it has.
#[derive(Drop)]
struct PairWorker<J: Naming, R: Runner> {
    number: u32,
    alloc: Global,
    runner: R,
    tally: Tally<J>,
    file: &'static str,
    has_evaluated: bool,
}

/// What one of two workers has of its own: its runner, and the file whose tree it evaluates.
#[derive(Drop)]
struct Task<R>(R, &'static str);

/// Whether two workers, each in a thread of its own, evaluate the trees of their files at seats of one table.
fn both_evaluate<J: Naming + Send + Sync, R: Runner + Drop + Send + Sync, T: Threads + Wait + Sync>(
    rt: &T,
    alloc: Global,
    opening: Opening<R>,
    first: Task<R>,
    second: Task<R>,
) -> Result<bool, AllocError>
    requires opened { IsOpenedFor J.name J.parts J.book J.opened opening }
    requires two { opening.blank.parts ≡ 2 }
{
    let (counted, mut one, list) = opening.named::<J>();
    let first = worker_of(alloc, 0, first, Tally::new(one.split_off(1, 0)));
    let second = worker_of(alloc, 1, second, Tally::new(one));
    let shared = Shared::new(counted, list)?;
    evaluate(rt, alloc, &shared, first, second)
}

/// Whether both workers evaluate their trees, each in a thread of its own.
fn evaluate<J: Naming + Send + Sync, R: Runner + Drop + Send + Sync, T: Threads + Wait + Sync>(
    rt: &T,
    alloc: Global,
    shared: &Shared<J, R>,
    first: PairWorker<J, R>,
    second: PairWorker<J, R>,
) -> Result<bool, AllocError> {
    let mut team = team_of(alloc, first, second)?;
    work_all(rt, shared, &mut team);
    Ok(team.iter().all(|worker| worker.has_evaluated))
}

fn team_of<J: Naming, R: Runner + Drop>(
    alloc: Global,
    first: PairWorker<J, R>,
    second: PairWorker<J, R>,
) -> Result<Vec<PairWorker<J, R>>, AllocError> {
    let mut team = Vec::new(alloc);
    team.push(first)?;
    team.push(second)?;
    Ok(team)
}

fn worker_of<J: Naming, R: Runner>(
    alloc: Global,
    number: u32,
    task: Task<R>,
    tally: Tally<J>,
) -> PairWorker<J, R> {
    let Task(runner, file) = task;
    PairWorker {
        number,
        alloc,
        runner,
        tally,
        file,
        has_evaluated: false,
    }
}

/// All workers evaluate their trees, each in a thread of its own.
fn work_all<J: Naming + Send + Sync, R: Runner + Drop + Send + Sync, T: Threads + Wait + Sync>(
    rt: &T,
    shared: &Shared<J, R>,
    team: &mut Vec<PairWorker<J, R>>,
) {
    thread::for_each_mut(
        rt,
        team.as_mut_slice(),
        2,
        &|_, worker| { work(rt, shared, worker) },
    );
}

/// A worker evaluates the tree of its file at its seat.
fn work<J: Naming, R: Runner, T: Wait>(
    rt: &T,
    shared: &Shared<J, R>,
    worker: &mut PairWorker<J, R>,
) {
    if let Ok(key) = key_of(worker.alloc, KeyParts(Kind::Tree, worker.file, "")) {
        work_for(rt, shared, worker, &key);
    }
}

/// A worker evaluates the key at its seat.
fn work_for<J: Naming, R: Runner, T: Wait>(
    rt: &T,
    shared: &Shared<J, R>,
    worker: &mut PairWorker<J, R>,
    key: &Key,
) {
    let PairWorker {
        number,
        alloc,
        runner,
        tally,
        has_evaluated,
        ..
    } = worker;
    let mut seat = shared.seat(*alloc, rt, &Open, tally);
    *has_evaluated = ensure(*alloc, &mut seat, runner, *number, key).is_ok();
}

/// Whether both of two workers evaluate the trees of two files at seats of one table, and the first run that begins,
/// held for so many turns at most, sees the other one end.
pub fn seats_meet<T: Threads + Wait + Sync>(
    rt: &T,
    alloc: Global,
    first: File,
    second: File,
    turns: u64,
) -> Result<bool, Unfit> {
    let project = project_of(alloc, &[first, second])?;
    let meeting = Meeting::new(Kind::Tree, turns);
    let first = Task(Hooked::new(alloc, Waiting(&meeting)), first.0);
    let second = Task(Hooked::new(alloc, Waiting(&meeting)), second.0);
    match Table::open(alloc, None, &project) {
        Ok(table) => {
            let opening = Opening::new(table, 2);
            let both = both_evaluate::<Brand, Hooked<Waiting>, T>(
                rt, alloc, opening, first, second,
            )?;
            Ok(both && meeting.has_met())
        }
        Err(_) => Err(Unfit),
    }
}
