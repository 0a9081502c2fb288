//! Whole histories: each key of a session is claimed, and marked or run, in the order of keys.
ghost use Rattle.std.specs.Prelude.{◌≡◌, length, IfOk, IsTrue, Ok};
ghost use Rattle.sessions.specs.Sessions.{SessionValue, session_in};
ghost use Rattle.sessions.specs.Spelling.{digest_of, next_link};
ghost use Rattle.answer_fixtures.specs.Telling.{IsKeyOf};
ghost use Rattle.job_table.specs.Closes.{CloseGives};
ghost use Rattle.table_fixtures.specs.declared.calls.Said.TheVariants.{Done};
ghost use Rattle.table_fixtures.specs.Told.{InTurn, AreChanged};
ghost use Rattle.table_fixtures.specs.Called.{SaysOfFinish, IsTakenOver, IsBegun, IsBroughtBy, IsDoneAs, IsBrought, AreBrought, EndsSo, IsReplayed, ClosesAs, IsLed, IsHistory};

use crate::again;
use crate::calls::{Said, ask, begin, events, finish, mark};
use crate::changes::{Change, digest_behind, past_of, records_of};
use crate::replays::replay_in;
use crate::tables::table_of;
use answer_fixtures::{Unfit, is_spelled, key_of, project_of};
use item_ids::Key;
use job_table::{Asked as Told, Table};
use key_states::link_behind;
use mini_java::MiniJava;
use named_files::Project;
use session_file::digest;
use session_fixtures::Kept;
use sessions::{Mark, Session, Terms};
use std::alloc::{AllocError, Global};
use std::sync::Arc;

/// A session of a project of this text behind a chain: what changed, what is run beside it and reached by nothing, and
/// how many events lead there.
#[derive(Clone, Copy)]
pub struct History {
    pub chain: &'static [Change],
    pub text: &'static str,
    pub change: Change,
    pub beside: &'static [Kept],
    pub events: usize,
}

/// Claims the key and takes over its result from the previous session.
fn is_marked(table: &mut Table<MiniJava>, key: &Key) -> bool
    ensures { IsTrue result → IsTakenOver key.now table.old table.new }
{
    ask(table, 0, key) == Said::Yours && mark(table, 0, key) == Said::Done
}

/// Claims the key and begins its run.
fn is_begun(table: &mut Table<MiniJava>, key: &Key) -> bool
    ensures { IsTrue result → IsBegun key.now table.old table.new }
{
    ask(table, 0, key) == Said::Yours && begin(table, 0, key) == Said::Done
}

/// Ends the run of the record's key in the table's profile.
fn is_ended(
    alloc: Global,
    table: &mut Table<MiniJava>,
    records: &[Kept],
    kept: &Kept,
) -> Result<bool, Unfit>
    ensures { IfOk result (λ b. IsTrue b
        → SaysOfFinish table.old.terms.profile records.now kept.now 0 Done table.old table.new) }
{
    let profile = table.terms().profile;
    Ok(finish(alloc, table, 0, profile, records, kept)? == Said::Done)
}

/// Claims the record's key, and marks it, or runs it in the table's profile over the answers of its edges, as the record
/// says.
fn is_brought(
    alloc: Global,
    table: &mut Table<MiniJava>,
    records: &[Kept],
    kept: &Kept,
    key: &Key,
) -> Result<bool, Unfit>
    ensures { IfOk result (λ b. IsTrue b
        → IsBroughtBy kept.now.mark records.now kept.now key.now table.old table.new) }
{
    match kept.mark {
        Mark::Input => Ok(true),
        Mark::Green => Ok(is_marked(table, key)),
        Mark::Executed => Ok(is_begun(table, key) && is_ended(alloc, table, records, kept)?),
    }
}

/// Whether the key is done with the result that these digits spell.
fn is_done(
    alloc: Global,
    table: &mut Table<MiniJava>,
    key: &Key,
    digits: &str,
) -> Result<bool, Unfit>
    ensures done { IfOk result (λ b. IsTrue b → IsDoneAs key.now digits.now table.old) }
    ensures same { IfOk result (λ b. IsTrue b → table.new ≡ table.old) }
{
    match again::ask(table, 0, key) {
        Ok(Told::Done(sealed)) => is_spelled(alloc, &sealed, digits),
        _ => Ok(false),
    }
}

/// Evaluates the key, which is the record's, and says whether it is done then with the record's result.
fn comes_done_by(
    alloc: Global,
    table: &mut Table<MiniJava>,
    records: &[Kept],
    kept: &Kept,
    key: &Key,
) -> Result<bool, Unfit>
    requires { IsKeyOf kept.now.key key.now }
    ensures { IfOk result (λ b. IsTrue b → IsBrought records.now kept.now table.old table.new) }
{
    Ok(is_brought(alloc, table, records, kept, key)? && is_done(alloc, table, key, kept.digits)?)
}

/// Evaluates the record's key, and says whether it is done then with the record's result.
fn comes_done(
    alloc: Global,
    table: &mut Table<MiniJava>,
    records: &[Kept],
    kept: &Kept,
) -> Result<bool, Unfit>
    ensures { IfOk result (λ b. IsTrue b → IsBrought records.now kept.now table.old table.new) }
{
    let key = key_of(alloc, kept.key)?;
    comes_done_by(alloc, table, records, kept, &key)
}

/// Evaluates these keys, and says whether each is done then with its result. The edges are indices of `records`.
fn all_done(
    alloc: Global,
    table: &mut Table<MiniJava>,
    records: &[Kept],
    brought: &[Kept],
) -> Result<bool, Unfit>
    ensures { IfOk result (λ b. IsTrue b
        → InTurn (IsBrought records.now) brought.now table.old table.new) }
{
    for kept in brought {
        if !comes_done(alloc, table, records, kept)? {
            return Ok(false);
        }
    }
    Ok(true)
}

/// Evaluates the keys of the records, and then those beside them.
fn are_brought(
    alloc: Global,
    table: &mut Table<MiniJava>,
    records: &[Kept],
    beside: &[Kept],
) -> Result<bool, Unfit>
    ensures { IfOk result (λ b. IsTrue b
        → AreBrought records.now beside.now table.old table.new) }
{
    Ok(all_done(alloc, table, records, records)? && all_done(alloc, table, records, beside)?)
}

/// Whether the table closes with a session whose file has this digest.
fn closes_with(table: &Table<MiniJava>, wanted: [u8; 32]) -> bool
    ensures { IsTrue result → (s : SessionValue) × CloseGives table.now (Ok s)
        × (digest_of s ≡ wanted) }
{
    match again::close(table) {
        Ok(session) => digest(&session) == wanted,
        Err(_) => false,
    }
}

/// Whether the file of the table's previous session has the digest of this one's.
fn is_behind(table: &Table<MiniJava>, past: &Option<Arc<Session>>) -> Result<bool, AllocError>
    ensures { IfOk result (λ b. IsTrue b
        → next_link table.now.past ≡ next_link (session_in past.now)) }
{
    Ok(link_behind(&table.past()?) == link_behind(past))
}

/// Whether the table was opened over the last session of the chain, by the digest of its file, and closes with just
/// these terms and records.
fn closes(
    alloc: Global,
    table: &Table<MiniJava>,
    terms: Terms,
    chain: &[Change],
    records: &[Kept],
) -> Result<bool, Unfit>
    ensures { IfOk result (λ b. IsTrue b → ClosesAs terms chain.now records.now table.now) }
{
    let past = past_of(alloc, chain)?;
    let wanted = digest_behind(alloc, terms, &past, records)?;
    Ok(is_behind(table, &past)? && closes_with(table, wanted))
}

/// Whether a replay of the table's events, by its terms and over its previous session in the project, leads to as many.
fn is_replayed_in(alloc: Global, table: &Table<MiniJava>, project: &Project) -> Result<bool, Unfit>
    ensures { IfOk result (λ b. IsTrue b → EndsSo table.now.terms table.now.past project.now
        table.now.history (Ok (length table.now.history))) }
{
    let past = table.past()?;
    let ending = replay_in(alloc, table.terms(), &past, project, table.history())?;
    Ok(ending == Ok(events(table)))
}

/// Whether a replay of the table's events, by its terms and over its previous session in a project of this text, leads
/// to as many.
fn is_replayed(alloc: Global, table: &Table<MiniJava>, text: &str) -> Result<bool, Unfit>
    ensures { IfOk result (λ b. IsTrue b → IsReplayed text.now table.now) }
{
    let project = project_of(alloc, text)?;
    is_replayed_in(alloc, table, &project)
}

/// Whether the table ends as the history says.
fn is_led(
    alloc: Global,
    table: &mut Table<MiniJava>,
    history: &History,
    records: &[Kept],
) -> Result<bool, Unfit>
    ensures { IfOk result (λ b. IsTrue b
        → IsLed history.now records.now table.old table.new) }
{
    Ok(
        are_brought(alloc, table, records, history.beside)?
            && events(table) == history.events
            && is_replayed(alloc, table, history.text)?
            && closes(alloc, table, history.change.terms, history.chain, records)?,
    )
}

fn is_of_records(alloc: Global, history: &History, records: &[Kept]) -> Result<bool, Unfit>
    requires { AreChanged history.now.change records.now }
    ensures { IfOk result (λ b. IsTrue b → IsHistory history.now) }
{
    let mut table = table_of(alloc, history.change.terms, history.chain, history.text)?;
    is_led(alloc, &mut table, history, records)
}

/// Whether the session is made as the history says: each of its keys is claimed and marked or run as its record says,
/// and is done with the record's result; this many events lead there, and their replay leads there too; and the table
/// closes with just these terms and records.
pub fn is_history(alloc: Global, history: &History) -> Result<bool, Unfit>
    ensures { IfOk result (λ b. IsTrue b → IsHistory history.now) }
{
    let records = records_of(alloc, &history.change)?;
    is_of_records(alloc, history, records.as_slice())
}
