//! The calls of a table, and what they say.
ghost use Rattle.std.specs.Prelude.{◌≡◌, length, IfOk, IsTrue};
ghost use Rattle.answer_fixtures.specs.Telling.{IsKeyOf};
ghost use Rattle.session_fixtures.specs.declared.records.Kept.{Kept as SpecKept};
ghost use Rattle.table_fixtures.specs.Told.{InTurn};
ghost use Rattle.table_fixtures.specs.Called.{said_of, SaysOfAsk, SaysOfMark, SaysOfBegin, SaysOfFinish, SaysOfFail, SaysOfClose, IsLast, CallSays, IsSaid, AreSaid};

use crate::again;
use crate::changes::Change;
use crate::runs::outcome_of;
use crate::tables::table_of;
use answer_fixtures::{KeyParts, Unfit, key_of};
use item_ids::Key;
use job_table::{Asked as Told, CloseFault, Table, TableFault};
use mini_java::MiniJava;
use profiles::Profile;
use session_fixtures::Kept;
use sessions::Terms;
use std::alloc::Global;

/// A call of a table, by its name. The outcome of a finished run is that of the key of the last of these records in a
/// profile, which reads those of its edges.
#[derive(Clone, Copy)]
pub enum Call {
    Ask,
    Mark,
    Begin,
    Finish(Profile, &'static [Kept]),
    Fail,
    Close,
}

/// What a call says. `Done` is also said by a call that gives a result, a session or nothing.
#[derive(Clone, Copy, PartialEq, Eq)]
pub enum Said {
    Yours,
    Busy,
    Stopped,
    Done,
    Refused(TableFault),
    NotClosed(CloseFault),
}

/// A call by a worker with a key, what it says, and how many events there are then.
#[derive(Clone, Copy)]
pub struct Saying {
    pub call: Call,
    pub worker: u32,
    pub key: KeyParts<'static>,
    pub said: Said,
    pub events: usize,
}

/// The calls in turn of a table of these terms and of this text, opened behind a chain of sessions.
#[derive(Clone, Copy)]
pub struct Calls {
    pub terms: Terms,
    pub chain: &'static [Change],
    pub text: &'static str,
    pub sayings: &'static [Saying],
}

pub(crate) fn ask(table: &mut Table<MiniJava>, worker: u32, key: &Key) -> Said
    ensures { SaysOfAsk worker key.now result table.old table.new }
{
    match again::ask(table, worker, key) {
        Ok(Told::Yours) => Said::Yours,
        Ok(Told::Done(_)) => Said::Done,
        Ok(Told::Busy) => Said::Busy,
        Ok(Told::Stopped) => Said::Stopped,
        Err(fault) => Said::Refused(fault),
    }
}

pub(crate) fn mark(table: &mut Table<MiniJava>, worker: u32, key: &Key) -> Said
    ensures { SaysOfMark worker key.now result table.old table.new }
{
    match again::mark(table, worker, key) {
        Ok(_) => Said::Done,
        Err(fault) => Said::Refused(fault),
    }
}

pub(crate) fn begin(table: &mut Table<MiniJava>, worker: u32, key: &Key) -> Said
    ensures { SaysOfBegin worker key.now result table.old table.new }
{
    answer_of(again::begin(table, worker, key))
}

/// What is said by a call that gives nothing.
fn answer_of(called: Result<(), TableFault>) -> Said
    ensures { result ≡ said_of called }
{
    match called {
        Ok(()) => Said::Done,
        Err(fault) => Said::Refused(fault),
    }
}

/// What the table says to the outcome of the record's run in a profile.
pub(crate) fn finish(
    alloc: Global,
    table: &mut Table<MiniJava>,
    worker: u32,
    profile: Profile,
    records: &[Kept],
    kept: &Kept,
) -> Result<Said, Unfit>
    ensures { IfOk result (λ said.
        SaysOfFinish profile records.now kept.now worker said table.old table.new) }
{
    let outcome = outcome_of(alloc, profile, records, kept)?;
    Ok(answer_of(again::finish(table, worker, outcome)?))
}

fn finish_last(
    alloc: Global,
    table: &mut Table<MiniJava>,
    worker: u32,
    profile: Profile,
    records: &[Kept],
) -> Result<Said, Unfit>
    ensures { IfOk result (λ said. (kept : SpecKept) × IsLast records.now kept
        × SaysOfFinish profile records.now kept worker said table.old table.new) }
{
    match records.last() {
        Some(kept) => finish(alloc, table, worker, profile, records, kept),
        None => Err(Unfit),
    }
}

fn fail(table: &mut Table<MiniJava>, worker: u32) -> Said
    ensures { SaysOfFail worker result table.old table.new }
{
    answer_of(table.fail(worker))
}

fn close(table: &Table<MiniJava>) -> Said
    ensures { SaysOfClose result table.now }
{
    match again::close(table) {
        Ok(_) => Said::Done,
        Err(fault) => Said::NotClosed(fault),
    }
}

/// Makes a call.
fn answer_to(
    alloc: Global,
    table: &mut Table<MiniJava>,
    saying: &Saying,
    key: &Key,
) -> Result<Said, Unfit>
    ensures { IfOk result (λ said.
        CallSays saying.now.call saying.now.worker key.now said table.old table.new) }
{
    match saying.call {
        Call::Ask => Ok(ask(table, saying.worker, key)),
        Call::Mark => Ok(mark(table, saying.worker, key)),
        Call::Begin => Ok(begin(table, saying.worker, key)),
        Call::Finish(profile, records) => {
            finish_last(alloc, table, saying.worker, profile, records)
        }
        Call::Fail => Ok(fail(table, saying.worker)),
        Call::Close => Ok(close(table)),
    }
}

/// How many events the table has.
pub(crate) fn events(table: &Table<MiniJava>) -> usize
    ensures { result ≡ length table.now.history }
{
    table.history().len()
}

/// Whether this is what the call should say, and the table has this many events.
fn is_so(table: &Table<MiniJava>, saying: &Saying, said: Said) -> bool
    ensures said { IsTrue result → said ≡ saying.now.said }
    ensures events { IsTrue result → length table.now.history ≡ saying.now.events }
{
    said == saying.said && events(table) == saying.events
}

/// Whether the call with this key says what it should, and the table has this many events then.
fn says_of(
    alloc: Global,
    table: &mut Table<MiniJava>,
    saying: &Saying,
    key: &Key,
) -> Result<bool, Unfit>
    requires { IsKeyOf saying.now.key key.now }
    ensures { IfOk result (λ b. IsTrue b → IsSaid saying.now table.old table.new) }
{
    let said = answer_to(alloc, table, saying, key)?;
    Ok(is_so(table, saying, said))
}

/// Whether the call says what it should, and the table has this many events then.
fn says(alloc: Global, table: &mut Table<MiniJava>, saying: &Saying) -> Result<bool, Unfit>
    ensures { IfOk result (λ b. IsTrue b → IsSaid saying.now table.old table.new) }
{
    let key = key_of(alloc, saying.key)?;
    says_of(alloc, table, saying, &key)
}

fn all_say(alloc: Global, table: &mut Table<MiniJava>, sayings: &[Saying]) -> Result<bool, Unfit>
    ensures { IfOk result (λ b. IsTrue b → InTurn IsSaid sayings.now table.old table.new) }
{
    for saying in sayings {
        if !says(alloc, table, saying)? {
            return Ok(false);
        }
    }
    Ok(true)
}

/// Opens the table and makes the calls in turn: whether each says what it should.
pub fn are_said(alloc: Global, calls: &Calls) -> Result<bool, Unfit>
    ensures { IfOk result (λ b. IsTrue b → AreSaid calls.now) }
{
    let mut table = table_of(alloc, calls.terms, calls.chain, calls.text)?;
    all_say(alloc, &mut table, calls.sayings)
}
