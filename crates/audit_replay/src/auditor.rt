//! The audit of one session after the other.
ghost use Rattle.std.specs.Prelude.{◌≡◌, ◌≢◌, ◌↔◌, ℕ, List, [], None, Ok, Err, IfOk, IfErr, IsTrue, OnOk};
ghost use Rattle.std.specs.Option.{option_copied};
ghost use Rattle.sessions.specs.Sessions.{SessionValue};
ghost use Rattle.graph_rules.specs.Next.{AreSources};
ghost use Rattle.audit_graph.specs.declared.fault.AuditFault.{AuditFault as Fault};
ghost use Rattle.audit_replay.specs.Audits.{last_entry, last_of};
ghost use Rattle.audit_replay.specs.Logs.{RunsPart};
ghost use Rattle.audit_replay.specs.Sums.{CountsTake, EndGives, EndGivesAgainst, IsSumOf, Sums, TakeRefuses, TakesSession};

use crate::chain::Audited;
use crate::reading::read_file;
use crate::session::audit_session;
use crate::sum::{LastSession, Sum};
use audit_graph::AuditFault;
use devices::Feed;
use named_files::Project;
use recorder::Runner;
use sessions::Session;
use std::alloc::Global;
use std::marker::PhantomData;

/// Audits the sessions of a chain one by one. Between two of them it keeps the last one, and nothing of the others. Once
/// it has refused it answers the same again, and reads and runs nothing.
#[derive(Drop)]
pub struct Auditor<R: Runner> {
    state: Result<Sum, AuditFault>,
    of: PhantomData<R>,
}

impl<R: Runner> Auditor<R> {
    /// An auditor that has taken no session yet.
    pub fn new() -> Self
        ensures { Sums result.state [] }
    {
        Auditor {
            state: Ok(Sum {
                count: 0,
                runs: 0,
                last: None,
            }),
            of: PhantomData,
        }
    }

    /// Takes the file of the next session, behind which nothing may stand, audits it over the one before and replays
    /// its executed records.
    pub fn take<F: Feed>(
        &mut self,
        alloc: Global,
        runner: &mut R,
        feed: &mut F,
    ) -> Result<(), AuditFault>
        // A session was taken.
        ensures taken { OnOk result ((s : SessionValue) × TakesSession R.queries self.old.state
            self.new.state (F.holds feed.old) (F.holds feed.new) (R.log runner.old)
            (R.log runner.new) s) }
        // Why it is refused after the sessions taken before, by the bytes that the feed held, if it says which.
        ensures refused { IfErr result (λ fault. (ss : List SessionValue) (bytes : List ℕ)
            → Sums self.old.state ss → F.holds feed.old bytes
            → TakeRefuses R.queries ss bytes (R.log runner.old) (R.log runner.new) fault) }
        // Whatever the feed says of its bytes: no more was run than executed records of a session, in order.
        ensures log { IfErr result (λ _. RunsPart (R.log runner.old) (R.log runner.new)) }
        ensures kept { IfErr result (λ fault. self.new.state ≡ Err fault) }
        // What was refused once is refused again.
        ensures again { (fault : Fault) → self.old.state ≡ Err fault
            → (result ≡ Err fault) × (feed.new ≡ feed.old) × (runner.new ≡ runner.old) }
        // A failure of the device is answered exactly if it was counted.
        ensures counted { (ss : List SessionValue) → Sums self.old.state ss
            → CountsTake result (F.failed feed.old) (F.failed feed.new) }
    {
        let taken = match &self.state {
            Ok(kept) => take_session(alloc, runner, kept, feed),
            Err(fault) => return Err(*fault),
        };
        match taken {
            Ok(kept) => {
                self.state = Ok(kept);
                Ok(())
            }
            Err(fault) => {
                self.state = Err(fault);
                Err(fault)
            }
        }
    }

    /// The session that was taken last, if there is one.
    pub fn session(&self) -> Option<&Session>
        ensures { (ss : List SessionValue) → Sums self.now.state ss
            → option_copied result ≡ last_of None ss }
    {
        match &self.state {
            Ok(kept) => kept.session(),
            Err(_) => None,
        }
    }

    /// The profile and the answer of the last session, how many sessions there are, and how many records were run.
    pub fn end(self) -> Result<Audited, AuditFault>
        ensures gives { (ss : List SessionValue) → Sums self.state ss
            → EndGives R.queries ss result }
        ensures again { (fault : Fault) → self.state ≡ Err fault → result ≡ Err fault }
    {
        let Auditor { state, .. } = self;
        match state {
            Ok(kept) => end_of::<R>(kept),
            Err(fault) => Err(fault),
        }
    }

    /// The same, if the last session's files are those of the project.
    pub fn end_against(self, project: &Project) -> Result<Audited, AuditFault>
        ensures gives { (ss : List SessionValue) → Sums self.state ss
            → EndGivesAgainst R.queries ss project.now result }
        ensures again { (fault : Fault) → self.state ≡ Err fault → result ≡ Err fault }
    {
        let Auditor { state, .. } = self;
        match state {
            Ok(kept) => {
                let same = has_files(&kept, project);
                match end_of::<R>(kept) {
                    Ok(audited) => {
                        if same {
                            Ok(audited)
                        } else {
                            Err(AuditFault::SourcesDiffer)
                        }
                    }
                    Err(fault) => Err(fault),
                }
            }
            Err(fault) => Err(fault),
        }
    }
}

/// Takes the session that follows those that are summed, and answers the sum of all.
fn take_session<R: Runner, F: Feed>(
    alloc: Global,
    runner: &mut R,
    kept: &Sum,
    feed: &mut F,
) -> Result<Sum, AuditFault>
    ensures taken { IfOk result (λ next. (s : SessionValue) × TakesSession R.queries (Ok kept.now)
        (Ok next) (F.holds feed.old) (F.holds feed.new) (R.log runner.old) (R.log runner.new) s) }
    ensures refused { IfErr result (λ fault. (ss : List SessionValue) (bytes : List ℕ)
        → IsSumOf kept.now ss → F.holds feed.old bytes
        → TakeRefuses R.queries ss bytes (R.log runner.old) (R.log runner.new) fault) }
    ensures log { IfErr result (λ _. RunsPart (R.log runner.old) (R.log runner.new)) }
    ensures counted { (ss : List SessionValue) → IsSumOf kept.now ss
        → CountsTake result (F.failed feed.old) (F.failed feed.new) }
{
    let session = match read_file(alloc, kept.session(), kept.count, feed) {
        Ok(session) => session,
        Err(fault) => return Err(fault),
    };
    let runs = match audit_session(alloc, runner, kept.session(), kept.count, &session) {
        Ok(runs) => runs,
        Err(fault) => return Err(fault),
    };
    match LastSession::of(alloc, session) {
        Ok(last) => Ok(Sum {
            count: kept.count + 1,
            runs: kept.runs.saturating_add(runs as u128),
            last: Some(last),
        }),
        Err(_) => Err(AuditFault::OutOfMemory),
    }
}

/// The result of the sessions that are summed.
fn end_of<R: Runner>(kept: Sum) -> Result<Audited, AuditFault>
    ensures { (ss : List SessionValue) → IsSumOf kept ss → EndGives R.queries ss result }
{
    let Sum { count, runs, last } = kept;
    let Some(last) = last else {
        return Err(AuditFault::EmptyChain);
    };
    let profile = last.profile();
    match last.into_answer() {
        Some(answer) => Ok(Audited {
            profile,
            answer,
            sessions: count,
            runs,
        }),
        None => Err(AuditFault::NoAnswer),
    }
}

/// Whether the last session's files are those of the project.
fn has_files(kept: &Sum, project: &Project) -> bool
    ensures { (ss : List SessionValue) → IsSumOf kept.now ss → ss ≢ []
        → IsTrue result ↔ AreSources (last_entry ss) project.now }
{
    match &kept.last {
        Some(last) => last.has_files_of(project),
        None => false,
    }
}
