//! The executed records of a session are replayed.
ghost use Rattle.std.specs.Prelude.{◌≡◌, ◌⊎◌, ◌++◌, ◌∷◌, [], true, OnOk, IfErr};
ghost use Rattle.recorder.specs.Runs.{Logs};
ghost use Rattle.sessions.specs.Sessions.{key_at, entry_at};
ghost use Rattle.audit_graph.specs.Plans.{executed_in};
ghost use Rattle.audit_graph.specs.Replays.{AreReplayed};
ghost use Rattle.audit_replay.specs.Reruns.{IsExecutedAt, RerunGivesAt, RefusesPlan};
ghost use Rattle.audit_replay.specs.Logs.{LogGives, executed_keys};

use crate::replay::mismatch::{Mismatch, fault_of_run};
use crate::replay::rerun::rerun;
use audit_graph::AuditFault;
use recorder::Runner;
use sessions::Session;
use std::alloc::Global;

/// Replays the executed records of session `k`, in order, up to the first that differs from its run.
pub(crate) fn run_plan<R: Runner>(
    alloc: Global,
    runner: &mut R,
    k: usize,
    session: &Session,
    plan: &[usize],
) -> Result<(), AuditFault>
    requires { plan.now ≡ executed_in session.now }
    ensures replayed { OnOk result
        (AreReplayed (R.queries.mean session.now.terms.profile)
        (R.queries.reads session.now.terms.profile) (entry_at session.now) (λ _. true)) }
    ensures refused { IfErr result (RefusesPlan (R.queries.mean session.now.terms.profile)
        (R.queries.reads session.now.terms.profile) k session.now) }
    ensures log { LogGives (executed_keys session.now) (R.log runner.old) (R.log runner.new)
        result }
{
    // A session keeps in its type what its records are.
    let _records = session.records();
    for n in plan {
        match rerun_at(alloc, runner, session, *n) {
            Ok(()) => {}
            Err(why) => return Err(fault_of_run(k, *n, why)),
        }
    }
    Ok(())
}

/// Replays the executed record at an index.
fn rerun_at<R: Runner>(
    alloc: Global,
    runner: &mut R,
    session: &Session,
    n: usize,
) -> Result<(), Mismatch>
    requires { IsExecutedAt session.now n }
    ensures run { RerunGivesAt (R.queries.mean session.now.terms.profile)
        (R.queries.reads session.now.terms.profile) session.now n result }
    ensures ok { OnOk result
        (Logs (key_at session.now.records n) (R.log runner.old) (R.log runner.new)) }
    ensures log { Logs (key_at session.now.records n) (R.log runner.old) (R.log runner.new)
        ⊎ (R.log runner.new ≡ R.log runner.old) }
{
    rerun(alloc, runner, session, &session.records()[n])
}
