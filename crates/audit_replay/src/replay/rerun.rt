//! An executed record is replayed.
ghost use Rattle.std.specs.Prelude.{◌≡◌, ◌⊎◌, [], Some, None, IfOk, OnOk, Err};
ghost use Rattle.std.specs.List.{AllByRecursion};
ghost use Rattle.recorder.specs.Backed.{Asked, keys};
ghost use Rattle.recorder.specs.Recording.{fault_of};
ghost use Rattle.recorder.specs.Runs.{IsNextRefused, Logs};
ghost use Rattle.recorder.specs.declared.reader.ReadFault.{ReadFault as FaultValue};
ghost use Rattle.sessions.specs.Sessions.{AreInside, entry_at, entry_of};
ghost use Rattle.audit_replay.specs.Reruns.{AreAllEdges, IsExecutedIn, RerunGives};

use crate::replay::compare::first_other;
use crate::replay::mismatch::Mismatch;
use crate::replay::script::script_of;
use recorder::{AnswerList, Outcome, ReadFault, Recorder, RunFault, Runner, record_sharing};
use sessions::{Record, Session};
use std::alloc::Global;

/// Replays an executed record in its session's profile, with the results of its edges for answers, and compares what the
/// run reads, in its order, and its result with the record.
pub(crate) fn rerun<R: Runner>(
    alloc: Global,
    runner: &mut R,
    session: &Session,
    item: &Record,
) -> Result<(), Mismatch>
    requires { IsExecutedIn session.now item.now }
    ensures run { RerunGives (R.queries.mean session.now.terms.profile)
        (R.queries.reads session.now.terms.profile) (entry_at session.now)
        (entry_of session.now.records item.now) result }
    ensures ok { OnOk result (Logs item.now.key (R.log runner.old) (R.log runner.new)) }
    ensures log { Logs item.now.key (R.log runner.old) (R.log runner.new)
        ⊎ (R.log runner.new ≡ R.log runner.old) }
{
    // A session keeps in its type what its records are.
    let _records = session.records();
    let script = match script_of(alloc, session, item) {
        Ok(script) => script,
        Err(_) => return Err(Mismatch::OutOfMemory),
    };
    let mut recorder = Recorder::new(alloc, script);
    replay(alloc, runner, session, item, &mut recorder)
}

/// Replays an executed record with a recorder that holds the results of its edges and was asked nothing yet.
fn replay<R: Runner>(
    alloc: Global,
    runner: &mut R,
    session: &Session,
    item: &Record,
    recorder: &mut Recorder<AnswerList>,
) -> Result<(), Mismatch>
    requires executed { IsExecutedIn session.now item.now }
    requires script { AreAllEdges (entry_at session.now) (entry_of session.now.records item.now)
        recorder.old.inner }
    requires unread { recorder.old.told ≡ [] }
    requires unrefused { recorder.old.refused ≡ None }
    ensures run { RerunGives (R.queries.mean session.now.terms.profile)
        (R.queries.reads session.now.terms.profile) (entry_at session.now)
        (entry_of session.now.records item.now) result }
    ensures ok { OnOk result (Logs item.now.key (R.log runner.old) (R.log runner.new)) }
    ensures log { Logs item.now.key (R.log runner.old) (R.log runner.new)
        ⊎ (R.log runner.new ≡ R.log runner.old) }
{
    // A session keeps in its type what its records are.
    let _records = session.records();
    let profile = session.terms().profile;
    let known = Some(item.sealed());
    match record_sharing(alloc, runner, profile, item.key(), recorder, known) {
        Ok(outcome) => compare(session, item, recorder, &outcome),
        Err(RunFault::OutOfMemory) => Err(Mismatch::OutOfMemory),
        Err(RunFault::Read(fault)) => Err(refused_read::<R>(session, item, recorder, fault)),
    }
}

/// Compares an outcome with the record.
fn compare<R: Runner>(
    session: &Session,
    item: &Record,
    recorder: &Recorder<AnswerList>,
    outcome: &Outcome<R>,
) -> Result<(), Mismatch>
    requires inside { AreInside session.now.records item.now.edges }
    requires script { AreAllEdges (entry_at session.now) (entry_of session.now.records item.now)
        recorder.now.inner }
    requires profile { outcome.now.profile ≡ session.now.terms.profile }
    requires key { outcome.now.key ≡ item.now.key }
    requires told { outcome.now.told ≡ recorder.now.told }
    ensures { RerunGives (R.queries.mean session.now.terms.profile)
        (R.queries.reads session.now.terms.profile) (entry_at session.now)
        (entry_of session.now.records item.now) result }
{
    let reads = recorder.reads();
    let sealed = outcome.sealed();
    if let Some(i) = first_other(session, item.edges(), reads) {
        return Err(Mismatch::OtherRead(i));
    }
    if reads.len() < item.edges().len() {
        return Err(Mismatch::UnreadEdges);
    }
    if !sealed.same_result(item.sealed()) {
        return Err(Mismatch::OtherResult);
    }
    Ok(())
}

/// How the record differs from its run, by the read that was refused.
fn refused_read<R: Runner>(
    session: &Session,
    item: &Record,
    recorder: &Recorder<AnswerList>,
    fault: ReadFault,
) -> Mismatch
    requires inside { AreInside session.now.records item.now.edges }
    requires script { AreAllEdges (entry_at session.now) (entry_of session.now.records item.now)
        recorder.now.inner }
    requires asked { Asked (R.queries.mean session.now.terms.profile)
        (R.queries.reads session.now.terms.profile) item.now.key recorder.now.told }
    requires next { IsNextRefused (R.queries.mean session.now.terms.profile)
        (R.queries.reads session.now.terms.profile) item.now.key recorder.now }
    requires fault { fault_of recorder.now ≡ Some fault }
    ensures { RerunGives (R.queries.mean session.now.terms.profile)
        (R.queries.reads session.now.terms.profile) (entry_at session.now)
        (entry_of session.now.records item.now) (Err result) }
{
    let reads = recorder.reads();
    let Some(_key) = recorder.refused_key() else {
        return Mismatch::OutOfMemory;
    };
    match first_other(session, item.edges(), reads) {
        Some(i) => Mismatch::OtherRead(i),
        None => Mismatch::OtherRead(reads.len()),
    }
}
