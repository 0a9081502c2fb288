//! Seats at one table, one of whose workers fails.
ghost use Rattle.std.specs.Prelude.{◌≡◌, ◌<◌, ◌∷◌, ◌++◌, [], All, IfOk, OnOk, IsTrue, length};
ghost use Rattle.query_rules.specs.Queries.{queries};
ghost use Rattle.shared_table.specs.Given.{IsGiven};
ghost use Rattle.shared_table.specs.Opened.{IsOpenedFor};
ghost use Rattle.crew_fixtures.specs.Made.{AllStop, FellowsStop, IsAnsweredStop, IsToldToStop};

use crate::files::{File, project_of};
use crate::workers::project_of_many;
use answer_fixtures::{KeyParts, Unfit, key_of};
use item_ids::{Key, Kind};
use job_table::{Asked as TableReply, Table, TableFault};
use mark_green::Store;
use mini_java::{Gate, MiniJava, Open, Shared};
use recorder::Runner;
use shared_table::{Naming, Opening, Seat, Tally};
use std::alloc::{AllocError, Global};
use std::marker::Brand;
use std::sync::Wait;
use std::sync::ledger::Share;

/// What a worker is answered at its seat.
#[derive(Clone, Copy, PartialEq, Eq)]
enum Reply {
    Yours,
    Done,
    Stopped,
    Failed,
    Other,
}

fn ask<J: Naming, R: Runner, T: Wait, G: Gate>(
    seat: &mut Seat<'_, J, R, T, G>,
    worker: u32,
    key: &Key,
) -> Reply
    ensures { result ≡ Reply.Stopped → IsGiven R.queries J.opened (IsToldToStop key.now) }
{
    match seat.ask(worker, key) {
        Ok(TableReply::Yours) => Reply::Yours,
        Ok(TableReply::Done(_)) => Reply::Done,
        Ok(TableReply::Stopped) => Reply::Stopped,
        _ => Reply::Other,
    }
}

fn begin<S: Store>(store: &mut S, worker: u32, key: &Key) -> Reply {
    match store.begin_run(worker, key) {
        Err(TableFault::Failed) => Reply::Failed,
        _ => Reply::Other,
    }
}

fn fail<S: Store>(store: &mut S, worker: u32) -> Reply {
    match store.fail(worker) {
        Ok(()) => Reply::Done,
        Err(TableFault::Failed) => Reply::Failed,
        Err(_) => Reply::Other,
    }
}

/// Two inputs, which are done from the start: each worker asks for the first one before a worker fails and again after
/// that, and for the second one only then.
#[derive(Drop)]
struct TwoInputs {
    before: Key,
    after: Key,
}

/// Whether the worker is answered for an input and claims the tree.
fn begins<J: Naming, R: Runner, T: Wait, G: Gate>(
    seat: &mut Seat<'_, J, R, T, G>,
    worker: u32,
    inputs: &TwoInputs,
    tree: &Key,
) -> bool {
    ask(seat, worker, &inputs.before) == Reply::Done && ask(seat, worker, tree) == Reply::Yours
}

/// Whether the worker is answered for the input that its seat has kept, and stops if it asks for another one or for the
/// tree that it claimed, or goes on in another way.
fn stops<J: Naming, R: Runner, T: Wait, G: Gate>(
    seat: &mut Seat<'_, J, R, T, G>,
    worker: u32,
    inputs: &TwoInputs,
    tree: &Key,
) -> bool
    ensures { IsTrue result → IsGiven R.queries J.opened (IsToldToStop tree.now) }
{
    ask(seat, worker, &inputs.before) == Reply::Done
        && ask(seat, worker, &inputs.after) == Reply::Stopped
        && ask(seat, worker, tree) == Reply::Stopped
        && begin(seat, worker, tree) == Reply::Failed
        && fail(seat, worker) == Reply::Failed
}

/// The key of the tree of the file of this number.
fn tree_of(alloc: Global, number: usize) -> Result<Key, Unfit> {
    let file = format!(in alloc; "C{number}.java")?;
    key_of(alloc, KeyParts(Kind::Tree, file.as_str(), ""))
}

fn push(keys: &mut Vec<Key>, key: Key) -> Result<(), AllocError>
    ensures { OnOk result (keys.new.items ≡ keys.old.items ++ key ∷ []) }
{
    Ok(keys.push(key)?)
}

/// The keys of the trees of so many files.
fn trees_of(alloc: Global, count: usize) -> Result<Vec<Key>, Unfit>
    ensures { IfOk result (λ keys. length keys.items ≡ count) }
{
    let mut keys = Vec::new(alloc);
    for number in 0..count {
        push(&mut keys, tree_of(alloc, number)?)?;
    }
    Ok(keys)
}

/// What is the same for all workers: the inputs that they ask for, and which of them fails.
#[derive(Drop)]
struct Case {
    inputs: TwoInputs,
    failing: u32,
}

/// Whether the workers from this one on, one for each of these trees, begin at seats of their own, and all of them stop at
/// these seats once one worker of all has failed.
fn stop_from<J: Naming, T: Wait>(
    rt: &T,
    alloc: Global,
    shared: &Shared<J, MiniJava>,
    share: &mut Share<J>,
    case: &Case,
    worker: u32,
    trees: &[Key],
) -> bool
    requires parts { length trees.now < share.old.parts }
    requires none { share.old.amount ≡ 0 }
    ensures { IsTrue result
        → All (λ q. IsGiven queries J.opened (IsToldToStop q)) trees.now }
{
    let mut tally = Tally::new(share.split_off(1, 0));
    let mut seat = shared.seat(alloc, rt, &Open, &mut tally);
    let Some((tree, rest)) = trees.split_first() else {
        return fail(&mut seat, case.failing) == Reply::Done;
    };
    begins(&mut seat, worker, &case.inputs, tree)
        && stop_from(
            rt,
            alloc,
            shared,
            share,
            case,
            worker.saturating_add(1),
            rest,
        )
        && stops(&mut seat, worker, &case.inputs, tree)
}

/// Whether all workers that have claimed a key stop at their seats once one of them has failed.
fn stop<J: Naming, T: Wait>(
    rt: &T,
    alloc: Global,
    opening: Opening<MiniJava>,
    case: &Case,
    trees: &[Key],
) -> bool
    requires opened { IsOpenedFor J.name J.parts J.book J.opened opening }
    requires seats { length trees.now < opening.blank.parts }
    ensures { IsTrue result
        → All (λ q. IsGiven queries J.opened (IsToldToStop q)) trees.now }
{
    let (counted, mut share, list) = opening.named::<J>();
    match Shared::new(counted, list) {
        Ok(shared) => stop_from(rt, alloc, &shared, &mut share, case, 0, trees),
        Err(_) => false,
    }
}

/// The names of the files, and the bytes of the first one.
fn inputs_of(alloc: Global) -> Result<TwoInputs, Unfit> {
    Ok(TwoInputs {
        before: key_of(alloc, KeyParts(Kind::Files, "", ""))?,
        after: key_of(alloc, KeyParts(Kind::Source, "C0.java", ""))?,
    })
}

/// How many seats there are at most, one more than workers.
const SEATS: usize = 65;

/// Whether, of so many workers who have each claimed a key, all stop once this one has failed. Their seats have stayed.
pub fn all_stop<T: Wait>(rt: &T, alloc: Global, workers: usize, failing: u32) -> Result<bool, Unfit>
    ensures { IfOk result (λ stop. IsTrue stop → AllStop workers) }
{
    let project = project_of_many(alloc, workers)?;
    let trees = trees_of(alloc, workers)?;
    if SEATS <= trees.len() {
        return Err(Unfit);
    }
    let case = Case {
        inputs: inputs_of(alloc)?,
        failing,
    };
    match Table::open(alloc, None, &project) {
        Ok(table) => {
            let opening = Opening::new(table, SEATS as u64);
            Ok(stop::<Brand, T>(rt, alloc, opening, &case, &trees))
        }
        Err(_) => Err(Unfit),
    }
}

/// Whether a worker whose fellow has failed is answered that it stops.
fn fellow_stops<J: Naming, T: Wait>(
    rt: &T,
    alloc: Global,
    opening: Opening<MiniJava>,
    key: &Key,
) -> bool
    requires opened { IsOpenedFor J.name J.parts J.book J.opened opening }
    requires two { opening.blank.parts ≡ 2 }
    ensures { IsTrue result → IsGiven queries J.opened (IsAnsweredStop key.now) }
{
    let (counted, mut one, list) = opening.named::<J>();
    let mut first = Tally::new(one.split_off(1, 0));
    let mut second = Tally::new(one);
    match Shared::new(counted, list) {
        Ok(shared) => fellow_stops_after(rt, alloc, &shared, &mut first, &mut second, key),
        Err(_) => false,
    }
}

/// Whether a worker is answered that it stops after its fellow has failed.
fn fellow_stops_after<J: Naming, R: Runner, T: Wait>(
    rt: &T,
    alloc: Global,
    shared: &Shared<J, R>,
    first: &mut Tally<J>,
    second: &mut Tally<J>,
    key: &Key,
) -> bool
    ensures { IsTrue result → IsGiven R.queries J.opened (IsAnsweredStop key.now) }
{
    fail(&mut shared.seat(alloc, rt, &Open, first), 0) == Reply::Done
        && is_stopped(&mut shared.seat(alloc, rt, &Open, second), key)
}

/// Whether the worker of number 1 is answered that it stops.
fn is_stopped<J: Naming, R: Runner, T: Wait, G: Gate>(
    seat: &mut Seat<'_, J, R, T, G>,
    key: &Key,
) -> bool
    ensures { IsTrue result → IsGiven R.queries J.opened (IsAnsweredStop key.now) }
{
    match seat.ask(1, key) {
        Ok(TableReply::Stopped) => true,
        _ => false,
    }
}

/// Whether a worker who asks for the tree of this file, after its fellow at the same table has failed, is answered that it
/// stops.
pub fn fellows_stop<T: Wait>(rt: &T, alloc: Global, file: File) -> Result<bool, Unfit>
    ensures { IfOk result (λ stops. IsTrue stops → FellowsStop file) }
{
    let project = project_of(alloc, &[file])?;
    let key = key_of(alloc, KeyParts(Kind::Tree, file.0, ""))?;
    match Table::open(alloc, None, &project) {
        Ok(table) => Ok(fellow_stops::<Brand, T>(rt, alloc, Opening::new(table, 2), &key)),
        Err(_) => Err(Unfit),
    }
}
